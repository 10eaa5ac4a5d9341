//! What the names in a function become.

ghost use Rattle.std.specs.Prelude.{◌≡◌, IfOk};
ghost use Rattle.sem_words.specs.Lists.{text_bytes};
ghost use Rattle.asm_short_tree.specs.Looking.{look_by};

use crate::names::Names;
use sem_words::Text;
use std::alloc::{AllocError, Global};

/// The new names of a function's variables, and of the declarations of its module, which they hide.
#[derive(Clone, Copy)]
pub struct Look<'l, 'a> {
    pub locals: &'l Names<'a>,
    pub declared: &'l Names<'a>,
}

impl Look<'_, '_> {
    /// What a name in the function becomes.
    #[tactic(auto, unfolding(crate::specs::Looking::look_by))]
    pub fn text(&self, alloc: Global, name: &Text) -> Result<Text, AllocError>
        ensures { IfOk result (λ text. text_bytes text ≡ look_by self.now (text_bytes name.now)) }
    {
        match self.locals.get(name.as_bytes()) {
            Some(new) => self.locals.written(alloc, new),
            None => self.declared.text(alloc, name),
        }
    }
}
