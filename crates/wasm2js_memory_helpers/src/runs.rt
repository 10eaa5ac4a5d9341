//! Runs of bytes in the memory: their tests and their loops.
ghost use Rattle.std.specs.Prelude.{◌≡◌, true, false, ◌++◌, ◌∷◌, [], IfOk};
ghost use Rattle.wasm2js_translation.specs.Words.{compare, less, at_most, greater, read, number};
ghost use Rattle.wasm2js_translation.specs.Pairs.{plus, minus, literal};
ghost use Rattle.wasm2js_translation.specs.Helpers as helpers;
ghost use Rattle.wasm2js_nodes.specs.Names.{name_view};
ghost use Rattle.wasm2js_terms.specs.Views.{term_view};
ghost use Rattle.wasm2js_build.specs.Blocks.{statements_of};

use std::alloc::AllocError;
use wasm2js_build::Block;
use wasm2js_helpers::short::{argument, own, third};
use wasm2js_nodes::Name;
use wasm2js_terms::{BitOp, Relation, Term};

// ---- tests of a run

/// Trap 2 for a run that is longer than the memory.
pub fn test_length(block: &mut Block, bytes: u32) -> Result<(), AllocError>
    ensures { IfOk result (λ _. statements_of block.new ≡ statements_of block.old ++ helpers.length_test bytes ∷ []) }
{
    block.guard(&third(), u64::from(bytes), 2)
}

/// Trap 2 for a run that passes the end of the memory.
pub fn test_start(block: &mut Block, bytes: u32, at: Name) -> Result<(), AllocError>
    ensures { IfOk result (λ _. statements_of block.new ≡ statements_of block.old ++ helpers.start_test bytes (read (name_view at)) ∷ []) }
{
    let all = Term::number(i64::from(bytes));
    let length = third();
    let last = Term::minus(&all, &length);
    let at = Term::read(at);
    let test = Term::compare(false, Relation::Greater, &at, &last);
    block.trap_when(&test, 2)
}

// ---- loops over a run

/// While the place so many bytes past the first argument is no multiple of four.
pub fn while_inside(block: &mut Block, far: Name, inner: Block) -> Result<(), AllocError>
    ensures { IfOk result (λ _. statements_of block.new ≡ statements_of block.old ++ helpers.repeat (helpers.is_inside (plus helpers.first (read (name_view far)))) (statements_of inner) ∷ []) }
{
    let place = Term::plus_read(argument(0), far);
    let rest = Term::both_number(BitOp::And, &place, 3);
    block.repeat(
        &Term::compare_number(true, Relation::Unequal, &rest, 0),
        inner,
    )
}

/// So many bytes more are done.
pub fn rise(block: &mut Block, size: u32) -> Result<(), AllocError>
    ensures { IfOk result (λ _. statements_of block.new ≡ statements_of block.old ++ helpers.rise size []) }
{
    let done = Term::read(own(0));
    block.put(own(0), &Term::plus_number(&done, i64::from(size)))
}

/// So many bytes fewer are left.
pub fn fall(block: &mut Block, size: u32) -> Result<(), AllocError>
    ensures { IfOk result (λ _. statements_of block.new ≡ statements_of block.old ++ helpers.fall size []) }
{
    let left = third();
    block.put(argument(2), &Term::minus_number(&left, i64::from(size)))
}

/// While there are so many bytes more.
pub fn while_more(block: &mut Block, size: u32, inner: Block) -> Result<(), AllocError>
    ensures { IfOk result (λ _. statements_of block.new ≡ statements_of block.old ++ helpers.repeat (compare true at_most helpers.done (minus helpers.third (literal size))) (statements_of inner) ∷ []) }
{
    let length = third();
    let last = Term::minus_number(&length, i64::from(size));
    let done = Term::read(own(0));
    block.repeat(&Term::compare(true, Relation::AtMost, &done, &last), inner)
}

/// While there are bytes that aren't done.
pub fn while_bytes(block: &mut Block, inner: Block) -> Result<(), AllocError>
    ensures { IfOk result (λ _. statements_of block.new ≡ statements_of block.old ++ helpers.repeat (compare true less helpers.done helpers.third) (statements_of inner) ∷ []) }
{
    let test = Term::compare_read(true, Relation::Less, own(0), argument(2));
    block.repeat(&test, inner)
}

/// While more than so many bytes are left.
pub fn while_left(block: &mut Block, most: u32, inner: Block) -> Result<(), AllocError>
    ensures { IfOk result (λ _. statements_of block.new ≡ statements_of block.old ++ helpers.repeat (compare true greater helpers.third (literal most)) (statements_of inner) ∷ []) }
{
    let left = third();
    let test = Term::compare_number(true, Relation::Greater, &left, i64::from(most));
    block.repeat(&test, inner)
}
