//! What is open round an expression of a list.

ghost use Rattle.std.specs.Prelude.{◌≡◌, IfOk};
ghost use Rattle.asm_lang.specs.Trees.{ExprTree, ExprTrees};
ghost use Rattle.asm_lang.specs.Machine.{State, in_rest, more_exprs};
ghost use Rattle.asm_grammar_nodes.specs.Tall.{talls_view};
ghost use Rattle.asm_grammar_exprs.specs.Views.{frames_view, listing_view, first_argument_view};

use crate::frame::{Callee, Frame, Kind, Listing};
use crate::frames::Frames;
use asm_grammar_nodes::TallExprs;
use std::alloc::{AllocError, Global};

/// Round an expression that comes next in a list.
#[tactic(auto, using(crate::proofs::Views::views))]
pub(crate) fn itemed(
    level: u8,
    so_far: TallExprs,
    listing: Listing,
    frames: Frames,
) -> Result<Frames, AllocError>
    ensures { IfOk result (λ r. (k : ExprTree → State) (es : ExprTrees) → talls_view so_far ≡ es → frames_view r k ≡ (λ e. in_rest (more_exprs es e) (listing_view level listing (frames_view frames k)))) }
{
    let kind = Kind::Item(so_far, listing);
    frames.push(Frame { level, kind })
}

/// Round the first argument of a call.
#[tactic(auto, using(crate::proofs::Views::views))]
pub(crate) fn first_argument(
    alloc: Global,
    level: u8,
    callee: Callee,
    frames: Frames,
) -> Result<Frames, AllocError>
    ensures { IfOk result (λ r. (k : ExprTree → State) → frames_view r k ≡ first_argument_view level callee (frames_view frames k)) }
{
    itemed(
        level,
        TallExprs::new(alloc),
        Listing::Arguments(callee),
        frames,
    )
}
