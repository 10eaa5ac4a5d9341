// What is counted of a valid module.

ghost use Rattle.std.specs.Prelude.{◌≡◌, ◌≤◌, ◌^◌, length, IfOk};
ghost use Rattle.wasm_tree.specs.Views.{module_of};
ghost use Rattle.wasm_lang_valid.specs.Measures.{measures_of as spec_measures};
ghost use Rattle.wasm_validate.specs.Counted.{CountsOf, said};

use crate::counts::Counts;
use crate::mixed::first_mixed;
use std::alloc::{AllocError, Global};
use wasm_tree::Module;

/// What is counted of a valid module, for those that translate it.
#[derive(Clone, Copy, PartialEq, Eq, Debug)]
pub struct Measures {
    /// The levels of the deepest body: the greatest number of blocks that stand open at once.
    pub levels: usize,
    /// The greatest number of slots of a body: parameters, locals, and the most operands that stand in all
    /// open blocks before an instruction.
    pub slots: usize,
    /// How many types the indirect calls name, those of one form counted once. Types have numbers of 32 bits.
    pub call_types: usize,
    /// The number of the first import of a name that is imported as a function and as a global; the functions
    /// `$trap` and `$high` of the module `env` count as imported.
    pub mixed: Option<usize>,
    /// The least number of a function that multiplies or divides words of 64 bits.
    pub mul_div: Option<usize>,
}

/// The measures of a module whose bodies were counted.
pub fn measures_of(
    alloc: Global,
    module: &Module<'_>,
    counts: &Counts,
) -> Result<Measures, AllocError>
    requires { CountsOf counts.now (module_of «module».now) (length (module_of «module».now).bodies) }
    ensures exactly { IfOk result (λ measures. said measures ≡ spec_measures (module_of «module».now)) }
    ensures few { IfOk result (λ measures. measures.call_types ≤ 2 ^ 32) }
{
    let mixed = first_mixed(alloc, module.imports.as_slice())?;
    Ok(Measures {
        levels: counts.levels,
        slots: counts.slots,
        call_types: counts.called.count(),
        mixed,
        mul_div: counts.mul_div,
    })
}
