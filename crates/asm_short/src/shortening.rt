//! From an accepted module to its short form.

ghost use Rattle.std.specs.Prelude.{◌≡◌, IfOk};
ghost use Rattle.asm_tree.specs.Views.{module_view};
ghost use Rattle.asm_lang.specs.Heights.{IsWellFormed};
ghost use Rattle.asm_lang.specs.Modules as plain;
ghost use Rattle.asm_lang_valid.specs.Refusal.{IsAccepted};
ghost use Rattle.asm_short_lang.specs.Short.{IsShort, IsSameOutside};

use asm_short_modules::{Left, renamed};
use asm_short_reach::kept_of;
use asm_tree::Module;
use asm_validate::{AsmRefusal, Checked, validate};
use std::alloc::{AllocError, Global};

// Without the functions and tables that nothing reaches, and with the shortest names.
fn short_module(alloc: Global, checked: &Checked) -> Result<Module, AllocError>
    ensures { IfOk result (λ s. IsShort (module_view checked.now) (module_view s)) }
{
    let home = checked.module();
    let kept = kept_of(alloc, home, checked.exports())?;
    let left = Left {
        module: home,
        functions: kept.functions,
        tables: kept.tables,
    };
    renamed(alloc, &left)
}

/// The short form of a module: without the functions that nothing can call and the tables that are never called, and with the first
/// names of the sequence. An error is want of memory.
pub fn shorten(alloc: Global, checked: &Checked) -> Result<Checked, AllocError>
    ensures short { IfOk result (λ s. IsShort (module_view checked.now) (module_view s)) }
    ensures only { IfOk result (λ s. (t : plain.Module) → IsShort (module_view checked.now) t → t ≡ module_view s) }
    ensures accepted { IfOk result (λ s. IsAccepted (module_view s)) }
    ensures well_formed { IfOk result (λ s. IsWellFormed (module_view s)) }
    ensures outside { IfOk result (λ s. IsSameOutside (module_view checked.now) (module_view s)) }
    ensures again { IfOk result (λ s. (t : plain.Module) → IsShort (module_view s) t → t ≡ module_view s) }
{
    let _home = checked.module();
    let module = short_module(alloc, checked)?;
    match validate(alloc, module) {
        Ok(short) => Ok(short),
        Err(AsmRefusal::Memory) => Err(AllocError),
        Err(AsmRefusal::Refused { .. }) => unreachable!(),
    }
}
