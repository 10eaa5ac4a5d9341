// A function's names, in its module.

ghost use Rattle.std.specs.Prelude.{◌≡◌, IfOk};
ghost use Rattle.sem_words.specs.Lists.{text_bytes};
ghost use Rattle.asm_tree.specs.Views.{module_view, function_view};
ghost use Rattle.asm_lang_valid.specs.Scope.{module_meaning};
ghost use Rattle.asm_lang_valid.specs.Typing.{named};
ghost use Rattle.asm_lang_valid.specs.Typed.{scope_of};
ghost use Rattle.asm_names.specs.Meanings.{meaning_view};
ghost use Rattle.asm_names.specs.Environments.{IsComplete};
ghost use Rattle.asm_names.specs.Scopes.{scope_view};
ghost use Rattle.asm_validate_exprs.specs.Contexts.{IsContext};

use asm_names::{Environment, Meaning, Scope};
use asm_tree::Function;
use sem_words::Text;
use std::alloc::{AllocError, Global};

/// What each name means in a function and in its module.
#[derive(Drop)]
pub struct Context<'e, 'a> {
    alloc: Global,
    environment: &'e Environment<'a>,
    function: &'a Function,
    scope: Scope<'e, 'a>,
}

impl<'e, 'a> Context<'e, 'a> {
    /// The names of a function of the module.
    pub fn new(
        alloc: Global,
        environment: &'e Environment<'a>,
        function: &'a Function,
    ) -> Result<Context<'e, 'a>, AllocError>
        requires { IsComplete environment.now }
        ensures known { IfOk result IsContext }
        ensures of { IfOk result (λ c. scope_view c.scope ≡ scope_of (module_view environment.now.home.now) (function_view function.now)) }
    {
        let scope = Scope::new(alloc, environment, function)?;
        Ok(Context {
            alloc,
            environment,
            function,
            scope,
        })
    }

    /// Where memory comes from.
    pub fn alloc(&self) -> Global {
        self.alloc
    }

    /// The function.
    pub fn function(&self) -> &'a Function
        requires { IsContext self.now }
        ensures { function_view result.now ≡ (scope_view self.now.scope).within }
    {
        self.function
    }

    /// What a name means in the function, or None where it isn't declared.
    pub fn meaning(&self, name: &Text) -> Option<Meaning<'a>>
        requires { IsContext self.now }
        ensures { meaning_view result ≡ named (scope_view self.now.scope) (text_bytes name.now) }
    {
        self.scope.meaning(name.as_bytes())
    }

    /// .. in the module.
    pub fn module_meaning(&self, name: &Text) -> Option<Meaning<'a>>
        requires { IsContext self.now }
        ensures { meaning_view result ≡ module_meaning (scope_view self.now.scope).home (text_bytes name.now) }
    {
        self.environment.meaning(name.as_bytes())
    }
}
