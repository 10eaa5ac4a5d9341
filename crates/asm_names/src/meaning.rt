//! What names mean.

use asm_lang_valid::{Builtin, Element};
use asm_tree::{Function, Table};
use sem_words::Text;

/// A member of the foreign object.
#[derive(Clone, Copy)]
pub struct Member<'a> {
    pub name: &'a Text,
    /// The number of the module's first global declaration that imports a member of this name, so that members are equal
    /// where their numbers are.
    pub declaration: usize,
}

/// What a declared name means.
#[derive(Clone, Copy)]
pub enum Meaning<'a> {
    /// A variable.
    Int,
    /// A double, or what is accepted only unused.
    Outside,
    /// A foreign function.
    Foreign(Member<'a>),
    Builtin(Builtin),
    View(Element),
    Function(&'a Function),
    Table(&'a Table),
    /// A parameter of the module.
    Parameter,
}
