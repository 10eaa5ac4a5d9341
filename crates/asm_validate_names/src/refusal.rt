//! Why a module isn't accepted.

ghost use Rattle.std.specs.Prelude.{◌≡◌};
ghost use Rattle.asm_validate_names.specs.declared.refusal.AsmRefusal.TheVariants as refusals;

use asm_lang_valid::{Met, Rule};
use std::alloc::AllocError;
use thiserror::Error;

/// The first node that breaks a rule of the first phase that isn't passed, or want of memory. Nodes are numbered in text
/// order, a whole before its parts; the module is node 0.
#[derive(Clone, Copy, PartialEq, Eq, Debug, Error)]
pub enum AsmRefusal {
    #[error("a rule of asm.js is broken")]
    Refused { rule: Rule, node: u64 },
    #[error("out of memory")]
    Memory,
}

impl From<Met> for AsmRefusal {
    ghost from_gives = { λ met refusal. refusal ≡ refusals.Refused met.rule met.node };

    fn from(met: Met) -> AsmRefusal {
        AsmRefusal::Refused {
            rule: met.rule,
            node: met.node,
        }
    }
}

impl From<AllocError> for AsmRefusal {
    ghost from_gives = { λ _ refusal. refusal ≡ refusals.Memory };

    fn from(_error: AllocError) -> AsmRefusal {
        AsmRefusal::Memory
    }
}
