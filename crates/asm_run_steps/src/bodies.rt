//! The operations of one function.
ghost use Rattle.std.specs.Prelude.{◌≡◌, ℕ, Some, IfOk, slice_get};
ghost use Rattle.session_lang.specs.Views.{end_of};
ghost use Rattle.asm_run_code.specs.Machine.{Flat, Came, Leads};
ghost use Rattle.asm_run_steps.specs.Worlds.{world_of};
ghost use Rattle.asm_run_steps.specs.Linked.{codes_in};
ghost use Rattle.asm_run_steps.specs.States.{Callers, state_in};
ghost use Rattle.asm_run_steps.specs.Flows.{left_to, LeftUnits};
ghost use Rattle.asm_run_steps.specs.Runs.{HasEnded, Comes};

use crate::flow::{Flow, Leaving};
use crate::linked::Linked;
use crate::steps::step;
use crate::words::Words;
use crate::world::World;
use asm_run_code::Op;
use std::alloc::{AllocError, Global};

/// Why a function left off, and the address that followed there.
#[derive(Clone, Copy)]
pub struct Left {
    pub how: Leaving,
    pub at: u32,
}

/// Runs the code of a function from an address until it leaves off.
pub fn run_ops(
    alloc: Global,
    linked: Linked<'_>,
    code: &[Op],
    begin: u32,
    words: &mut Words,
    world: &mut World<'_>,
) -> Result<Left, AllocError>
    ensures shown { IfOk result (λ left. (function : ℕ) (callers : Callers) (f : Flat) (r : Came) →
        slice_get (codes_in linked.entry).functions function ≡ Some f → f.code ≡ code.now → HasEnded r
        → Leads (codes_in linked.entry) (state_in function begin callers words.old (world_of world.old)) r
        → Comes (codes_in linked.entry) (left_to (codes_in linked.entry) left.how (end_of world.new.ending) (state_in function left.at callers words.new (world_of world.new))) r) }
    ensures units { IfOk result (λ left. LeftUnits left.how world.old.units world.new.units) }
{
    let mut at = begin;
    'operations: while at > 0 {
        at -= 1;
        let Some(op) = code.get(at as usize) else {
            return Ok(Left {
                how: Leaving::Lost,
                at,
            });
        };
        match step(alloc, linked, *op, at, words, world)? {
            Flow::On(next) => at = next,
            Flow::Off(how) => return Ok(Left { how, at }),
        }
    }
    Ok(Left {
        how: Leaving::Lost,
        at,
    })
}
