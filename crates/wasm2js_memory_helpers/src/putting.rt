//! Words of data segments, sixteen by one call, and zeros.
ghost use Rattle.std.specs.Prelude.{◌≡◌, ◌≤◌, ◌++◌, ◌∷◌, [], IfOk};
ghost use Rattle.wasm2js_translation.specs.Words.{write_whole, simple_statement};
ghost use Rattle.wasm2js_translation.specs.Pairs.{plus, literal};
ghost use Rattle.asm_tree.specs.Views.{function_view};
ghost use Rattle.wasm2js_translation.specs.Helpers as helpers;
ghost use Rattle.wasm2js_build.specs.Blocks.{statements_of};

use asm_tree::Function;
use std::alloc::{AllocError, Global};
use wasm2js_build::{Block, function};
use wasm2js_helpers::short::{argument, first, of_two, second};
use wasm2js_nodes::{Fixed, Name};
use wasm2js_terms::{Relation, Term};

/// The helper: its first argument is a place that is a multiple of four, and each further one a word.
pub fn put_function(alloc: Global) -> Result<Function, AllocError>
    ensures { IfOk result (λ f. function_view f ≡ helpers.put_function) }
{
    let mut block = Block::new(alloc);
    put_words(&mut block)?;
    let params = [
        argument(0),
        argument(1),
        argument(2),
        argument(3),
        argument(4),
        argument(5),
        argument(6),
        argument(7),
        argument(8),
        argument(9),
        argument(10),
        argument(11),
        argument(12),
        argument(13),
        argument(14),
        argument(15),
        argument(16),
    ];
    function(alloc, Name::Always(Fixed::DataWords), &params, &[], block)
}

// The argument of this number, so many places past the address.
fn put_word(block: &mut Block, offset: u32, from: u64) -> Result<(), AllocError>
    ensures { IfOk result (λ _. statements_of block.new ≡ statements_of block.old ++ helpers.put_at offset from ∷ []) }
{
    let word = Term::read(argument(from));
    if offset == 0 {
        return block.write_whole(&first(), &word);
    }
    let at = first();
    let place = Term::plus_number(&at, i64::from(offset));
    block.write_whole(&place, &word)
}

// Four arguments, from this number on, to the places from so many bytes past the address on.
#[tactic(auto, using(std::proofs::lemmas::List::append_assoc))]
fn put_four(block: &mut Block, offset: u32, from: u64) -> Result<(), AllocError>
    requires near { offset ≤ 48 }
    requires few { from ≤ 13 }
    ensures { IfOk result (λ _. statements_of block.new ≡ statements_of block.old ++ helpers.put_four offset from) }
{
    put_word(block, offset, from)?;
    put_word(block, offset + 4, from + 1)?;
    put_word(block, offset + 8, from + 2)?;
    put_word(block, offset + 12, from + 3)
}

#[tactic(auto, using(std::proofs::lemmas::List::append_assoc))]
fn put_words(block: &mut Block) -> Result<(), AllocError>
    ensures { IfOk result (λ _. statements_of block.new ≡ statements_of block.old ++ helpers.put_body) }
{
    put_four(block, 0, 1)?;
    put_four(block, 16, 5)?;
    put_four(block, 32, 9)?;
    put_four(block, 48, 13)
}

/// The helper that writes zeros from one place to another, which are multiples of four.
pub fn zero_function(alloc: Global) -> Result<Function, AllocError>
    ensures { IfOk result (λ f. function_view f ≡ helpers.zero_function) }
{
    let mut block = Block::new(alloc);
    let a = first();
    let b = second();
    block.repeat(
        &Term::compare(false, Relation::Less, &a, &b),
        one_zero(alloc)?,
    )?;
    of_two(alloc, Fixed::DataZeros, block)
}

// A word at the first argument, which moves on.
fn one_zero(alloc: Global) -> Result<Block, AllocError>
    ensures { IfOk result (λ b. statements_of b ≡ simple_statement (write_whole helpers.first (literal 0)) ∷ helpers.sets (helpers.argument 0) (plus helpers.first (literal 4)) ∷ []) }
{
    let at = first();
    let mut block = Block::new(alloc);
    block.write_whole(&at, &Term::number(0))?;
    block.put(argument(0), &Term::plus_number(&at, 4))?;
    Ok(block)
}
