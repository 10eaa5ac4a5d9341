// What each name means in a function.

ghost use Rattle.std.specs.Prelude.{◌≡◌, IfOk};
ghost use Rattle.asm_tree.specs.Views.{module_view, function_view};
ghost use Rattle.asm_lang_valid.specs.Typing.{named};
ghost use Rattle.asm_lang_valid.specs.Typed.{scope_of};
ghost use Rattle.asm_names.specs.Meanings.{meaning_view};
ghost use Rattle.asm_names.specs.Members.{IsNumbered};
ghost use Rattle.asm_names.specs.Environments.{IsComplete};
ghost use Rattle.asm_names.specs.Scopes.{scope_view, variable_of, IsCompleteScope};

use crate::environment::Environment;
use crate::hashes::function_hashes;
use crate::locals::{put_locals, put_params};
use crate::meaning::Meaning;
use asm_tree::Function;
use indexmap::IndexMap;
use key_hashes::KeyHashes;
use std::alloc::{AllocError, Global};

/// The names of a function, which hide those of the module. Of its parameters and locals with one name the first
/// counts.
#[derive(Drop)]
pub struct Scope<'e, 'a> {
    environment: &'e Environment<'a>,
    function: &'a Function,
    // whether each parameter and local is an int
    locals: IndexMap<&'a [u8], bool, KeyHashes>,
}

impl<'e, 'a> Scope<'e, 'a> {
    /// The names of a function of the module.
    pub fn new(
        alloc: Global,
        environment: &'e Environment<'a>,
        function: &'a Function,
    ) -> Result<Scope<'e, 'a>, AllocError>
        requires { IsComplete environment.now }
        ensures of { IfOk result (λ s. scope_view s ≡ scope_of (module_view environment.now.home.now) (function_view function.now)) }
        ensures complete { IfOk result IsCompleteScope }
    {
        let mut locals = IndexMap::with_hasher(alloc, function_hashes(function));
        put_locals(&mut locals, function.locals.as_slice())?;
        put_params(&mut locals, function.params.as_slice())?;
        Ok(Scope {
            environment,
            function,
            locals,
        })
    }

    /// What a name means in the function, or None where it isn't declared.
    pub fn meaning(&self, name: &[u8]) -> Option<Meaning<'a>>
        requires { IsCompleteScope self.now }
        ensures known { meaning_view result ≡ named (scope_view self.now) name.now }
        ensures numbered { IsNumbered (scope_view self.now).home result }
    {
        match self.locals.get(name) {
            Some(is_int) => Some(variable(*is_int)),
            None => self.environment.meaning(name),
        }
    }
}

fn variable(is_int: bool) -> Meaning<'static>
    ensures { result ≡ variable_of is_int }
{
    if is_int {
        Meaning::Int
    } else {
        Meaning::Outside
    }
}
