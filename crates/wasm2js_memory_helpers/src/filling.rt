//! Runs of bytes that are all alike.
ghost use Rattle.std.specs.Prelude.{◌≡◌, true, ◌++◌, ◌∷◌, [], map, IfOk};
ghost use Rattle.asm_tree.specs.Views.{function_view};
ghost use Rattle.wasm2js_translation.specs.Words.{compare, greater};
ghost use Rattle.wasm2js_translation.specs.Pairs.{literal};
ghost use Rattle.wasm2js_translation.specs.Helpers as helpers;
ghost use Rattle.wasm2js_build.specs.Blocks.{statements_of};

use crate::runs::{rise, test_length, test_start, while_bytes, while_inside, while_more};
use asm_tree::Function;
use std::alloc::{AllocError, Global};
use wasm2js_build::Block;
use wasm2js_helpers::short::{argument, first, of_three, own, second, third};
use wasm2js_nodes::Fixed;
use wasm2js_terms::{BitOp, Relation, Term};

/// The helper, in a memory of so many bytes.
pub fn fill_function(alloc: Global, bytes: u32) -> Result<Function, AllocError>
    ensures { IfOk result (λ f. function_view f ≡ helpers.fill_function bytes) }
{
    let mut block = Block::new(alloc);
    test_length(&mut block, bytes)?;
    test_start(&mut block, bytes, argument(0))?;
    when_four_bytes(&mut block, by_words(alloc)?)?;
    while_bytes(&mut block, one_byte(alloc)?)?;
    of_three(alloc, Fixed::Fill, &[own(0), own(1)], block)
}

fn when_four_bytes(block: &mut Block, inner: Block) -> Result<(), AllocError>
    ensures { IfOk result (λ _. statements_of block.new ≡ statements_of block.old ++ helpers.when (compare true greater helpers.third (literal 3)) (statements_of inner) ∷ []) }
{
    let length = third();
    block.when(
        &Term::compare_number(true, Relation::Greater, &length, 3),
        inner,
    )
}

// Four bytes of the value's low byte.
fn put_four_times(block: &mut Block) -> Result<(), AllocError>
    ensures { IfOk result (λ _. statements_of block.new ≡ statements_of block.old ++ helpers.sets (helpers.own 1) (helpers.four_times helpers.second) ∷ []) }
{
    let value = second();
    let low = Term::both_number(BitOp::And, &value, 255);
    let ones = Term::number(16_843_009);
    let all = Term::product(&low, &ones);
    block.put(own(1), &all)
}

// One word, by an offset.
fn fill_word(block: &mut Block, offset: u32) -> Result<(), AllocError>
    ensures { IfOk result (λ _. statements_of block.new ≡ statements_of block.old ++ helpers.fill_word offset ∷ []) }
{
    let word = Term::read(own(1));
    if offset == 0 {
        return block.write_whole(&Term::plus_read(argument(0), own(0)), &word);
    }
    let (start, done) = (first(), Term::read(own(0)));
    let more = Term::number(i64::from(offset));
    block.write_whole(&Term::sum_of_three(&start, &done, &more), &word)
}

// Four words, by their offsets.
#[tactic(auto, using(std::proofs::lemmas::List::append_assoc))]
fn fill_four(block: &mut Block, one: u32, two: u32, three: u32, four: u32) -> Result<(), AllocError>
    ensures { IfOk result (λ _. statements_of block.new ≡ statements_of block.old ++ map helpers.fill_word (one ∷ two ∷ three ∷ four ∷ [])) }
{
    fill_word(block, one)?;
    fill_word(block, two)?;
    fill_word(block, three)?;
    fill_word(block, four)
}

fn one_byte(alloc: Global) -> Result<Block, AllocError>
    ensures { IfOk result (λ b. statements_of b ≡ helpers.rise 1 (helpers.fill_byte ∷ [])) }
{
    let place = Term::plus_read(argument(0), own(0));
    let mut inner = Block::new(alloc);
    inner.write_byte(&place, &second())?;
    rise(&mut inner, 1)?;
    Ok(inner)
}

fn one_word(alloc: Global) -> Result<Block, AllocError>
    ensures { IfOk result (λ b. statements_of b ≡ helpers.rise 4 (helpers.fill_word 0 ∷ [])) }
{
    let mut inner = Block::new(alloc);
    fill_word(&mut inner, 0)?;
    rise(&mut inner, 4)?;
    Ok(inner)
}

#[tactic(auto, using(std::proofs::lemmas::List::append_assoc))]
fn eight_words(alloc: Global) -> Result<Block, AllocError>
    ensures { IfOk result (λ b. statements_of b ≡ helpers.rise 32 (map helpers.fill_word helpers.eight_up)) }
{
    let mut inner = Block::new(alloc);
    fill_four(&mut inner, 0, 4, 8, 12)?;
    fill_four(&mut inner, 16, 20, 24, 28)?;
    rise(&mut inner, 32)?;
    Ok(inner)
}

fn by_words(alloc: Global) -> Result<Block, AllocError>
    ensures { IfOk result (λ b. statements_of b ≡ helpers.fill_words) }
{
    let mut block = Block::new(alloc);
    put_four_times(&mut block)?;
    while_inside(&mut block, own(0), one_byte(alloc)?)?;
    while_more(&mut block, 32, eight_words(alloc)?)?;
    while_more(&mut block, 4, one_word(alloc)?)?;
    Ok(block)
}
