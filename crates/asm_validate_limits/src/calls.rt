//! The calls of foreign functions that a module makes.

ghost use Rattle.std.specs.Prelude.{◌≡◌, [], IfOk};
ghost use Rattle.std.specs.Option.{unwrap_or};
ghost use Rattle.sem_words.specs.Lists.{list_items};
ghost use Rattle.asm_tree.specs.Views.{init_view, module_view};
ghost use Rattle.asm_names.specs.Members.{member_name};
ghost use Rattle.asm_validate_limits.specs.Called.{foreign_view};

use asm_tree::{Init, Module};
use sem_words::List;
use std::alloc::{AllocError, Global};

/// The calls of a foreign function with one number of arguments, whose result is taken or isn't.
#[derive(Clone, Copy, PartialEq, Eq, Hash, Debug)]
pub struct ForeignCall {
    /// The number of the first global declaration that imports the function.
    pub declaration: usize,
    pub params: u32,
    pub result: bool,
}

impl ForeignCall {
    /// The function's name in the foreign object, where this is a call in the module.
    pub fn name<'a>(&self, home: &'a Module) -> &'a [u8]
        ensures { result.now ≡ (foreign_view (module_view home.now) self.now).name }
    {
        match home.globals.get(self.declaration) {
            Some(global) => imported_name(&global.init),
            None => b"",
        }
    }
}

// The name of the member that a declaration imports, or no bytes.
fn imported_name(init: &Init) -> &[u8]
    ensures { result.now ≡ unwrap_or (member_name (init_view init.now)) [] }
{
    match init {
        Init::Member(_, field) => field.as_bytes(),
        Init::Number(_)
        | Init::Decimal(_)
        | Init::ForeignInt(_, _)
        | Init::ForeignDouble(_, _)
        | Init::Math(_, _)
        | Init::View(_, _, _) => b"",
    }
}

/// The calls in a list.
pub fn listed(alloc: Global, calls: &[ForeignCall]) -> Result<List<ForeignCall>, AllocError>
    ensures { IfOk result (λ listed. list_items listed ≡ calls.now) }
{
    Ok(List::from_vec(calls.to_vec(alloc)?))
}
