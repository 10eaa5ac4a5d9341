//! The facts of a module.

ghost use Rattle.std.specs.Prelude.{◌<◌, ◌^◌, length, IfOk};
ghost use Rattle.asm_tree.specs.Views.{module_view};
ghost use Rattle.asm_validate_facts.specs.FactsOf.{FactsOf};

use crate::exports::{ExportOf, exports_of};
use crate::globals::foreign_globals;
use crate::heap::has_heap;
use asm_tree::Module;
use sem_words::{List, Text};
use std::alloc::{AllocError, Global};

/// The exports with the numbers of their functions, in text order; the foreign members that are imported as ints, each
/// once, in order of first declaration; and whether an integer view is declared.
#[derive(Drop)]
pub struct Facts {
    pub exports: List<ExportOf>,
    pub foreign_globals: List<Text>,
    pub has_heap: bool,
}

/// The facts of a module.
pub fn facts_of(alloc: Global, module: &Module) -> Result<Facts, AllocError>
    requires { length (module_view «module».now).functions < 2 ^ 32 }
    ensures { IfOk result (λ facts. FactsOf facts (module_view «module».now)) }
{
    let exports = exports_of(alloc, module)?;
    let globals = module.globals.as_slice();
    let foreign_globals = foreign_globals(alloc, globals)?;
    Ok(Facts {
        exports,
        foreign_globals,
        has_heap: has_heap(globals),
    })
}
