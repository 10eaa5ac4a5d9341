//! Copies of runs of bytes.
ghost use Rattle.std.specs.Prelude.{◌≡◌, true, false, ◌++◌, ◌∷◌, [], map, IfOk};
ghost use Rattle.asm_lang.specs.Modules as plain;
ghost use Rattle.asm_tree.specs.Views.{function_view};
ghost use Rattle.wasm2js_translation.specs.Words.{int_of, compare, at_most, read, whole, write_whole, simple_statement};
ghost use Rattle.wasm2js_translation.specs.Helpers as helpers;
ghost use Rattle.wasm2js_nodes.specs.Names.{name_view};
ghost use Rattle.wasm2js_terms.specs.Views.{term_view};
ghost use Rattle.wasm2js_build.specs.Blocks.{statements_of};

use crate::runs::{
    fall, rise, test_length, test_start, while_bytes, while_inside, while_left, while_more,
};
use asm_tree::Function;
use std::alloc::{AllocError, Global};
use wasm2js_build::Block;
use wasm2js_helpers::short::{argument, first, of_three, own, second, third};
use wasm2js_nodes::{Fixed, Name};
use wasm2js_terms::{BitOp, Relation, Term};

/// The helper, in a memory of so many bytes.
pub fn copy_function(alloc: Global, bytes: u32) -> Result<Function, AllocError>
    ensures { IfOk result (λ f. function_view f ≡ helpers.copy_function bytes) }
{
    let mut block = Block::new(alloc);
    test_length(&mut block, bytes)?;
    test_start(&mut block, bytes, argument(0))?;
    test_start(&mut block, bytes, argument(1))?;
    copy(&mut block, copy_up(alloc)?, copy_down(alloc)?)?;
    of_three(alloc, Fixed::Copy, &[own(0)], block)
}

// No byte is written before it is read.
fn copy(block: &mut Block, up: Block, down: Block) -> Result<(), AllocError>
    ensures { IfOk result (λ _. statements_of block.new ≡ statements_of block.old ++ plain.if_else (int_of (compare false at_most helpers.first helpers.second)) (helpers.block_of (statements_of up)) (helpers.block_of (statements_of down)) ∷ []) }
{
    let test = Term::compare_read(false, Relation::AtMost, argument(0), argument(1));
    block.when_else(&test, up, down)
}

// Where the places have the same last two bits, and there are four bytes.
fn when_words(block: &mut Block, inner: Block) -> Result<(), AllocError>
    ensures { IfOk result (λ _. statements_of block.new ≡ statements_of block.old ++ helpers.when helpers.has_words (statements_of inner) ∷ []) }
{
    let bits = Term::both_read(BitOp::Xor, argument(0), argument(1));
    let apart = Term::both_number(BitOp::And, &bits, 3);
    let length = third();
    let few = Term::compare_number(true, Relation::Less, &length, 4);
    let neither = Term::both(BitOp::Or, &apart, &few);
    block.when(
        &Term::compare_number(true, Relation::Equal, &neither, 0),
        inner,
    )
}

// ---- one element

// One byte, so many bytes further.
fn copy_byte(block: &mut Block, far: Name) -> Result<(), AllocError>
    ensures { IfOk result (λ _. statements_of block.new ≡ statements_of block.old ++ helpers.copy_byte (read (name_view far)) ∷ []) }
{
    let from = Term::plus_read(argument(1), far);
    let to = Term::plus_read(argument(0), far);
    block.write_byte(&to, &Term::byte(false, &from))
}

// The word of one place to another.
fn put_word(block: &mut Block, to: &Term<'_>, from: &Term<'_>) -> Result<(), AllocError>
    ensures { IfOk result (λ _. statements_of block.new ≡ statements_of block.old ++ simple_statement (write_whole (term_view to.now) (whole (term_view from.now))) ∷ []) }
{
    block.write_whole(to, &Term::whole(from))
}

// One word, so many bytes further and by an offset.
fn copy_word(block: &mut Block, far: Name, offset: u32) -> Result<(), AllocError>
    ensures { IfOk result (λ _. statements_of block.new ≡ statements_of block.old ++ helpers.copy_word (read (name_view far)) offset ∷ []) }
{
    if offset == 0 {
        let from = Term::plus_read(argument(1), far);
        return put_word(block, &Term::plus_read(argument(0), far), &from);
    }
    let (to, from, distance) = (first(), second(), Term::read(far));
    let more = Term::number(i64::from(offset));
    let from = Term::sum_of_three(&from, &distance, &more);
    put_word(block, &Term::sum_of_three(&to, &distance, &more), &from)
}

// Four words, by their offsets.
#[tactic(auto, using(std::proofs::lemmas::List::append_assoc))]
fn copy_four(
    block: &mut Block,
    far: Name,
    one: u32,
    two: u32,
    three: u32,
    four: u32,
) -> Result<(), AllocError>
    ensures { IfOk result (λ _. statements_of block.new ≡ statements_of block.old ++ map (helpers.copy_word (read (name_view far))) (one ∷ two ∷ three ∷ four ∷ [])) }
{
    copy_word(block, far, one)?;
    copy_word(block, far, two)?;
    copy_word(block, far, three)?;
    copy_word(block, far, four)
}

// ---- upwards

fn byte_up(alloc: Global) -> Result<Block, AllocError>
    ensures { IfOk result (λ b. statements_of b ≡ helpers.rise 1 (helpers.copy_byte helpers.done ∷ [])) }
{
    let mut inner = Block::new(alloc);
    copy_byte(&mut inner, own(0))?;
    rise(&mut inner, 1)?;
    Ok(inner)
}

fn word_up(alloc: Global) -> Result<Block, AllocError>
    ensures { IfOk result (λ b. statements_of b ≡ helpers.rise 4 (helpers.copy_word helpers.done 0 ∷ [])) }
{
    let mut inner = Block::new(alloc);
    copy_word(&mut inner, own(0), 0)?;
    rise(&mut inner, 4)?;
    Ok(inner)
}

#[tactic(auto, using(std::proofs::lemmas::List::append_assoc))]
fn eight_up(alloc: Global) -> Result<Block, AllocError>
    ensures { IfOk result (λ b. statements_of b ≡ helpers.rise 32 (map (helpers.copy_word helpers.done) helpers.eight_up)) }
{
    let mut inner = Block::new(alloc);
    copy_four(&mut inner, own(0), 0, 4, 8, 12)?;
    copy_four(&mut inner, own(0), 16, 20, 24, 28)?;
    rise(&mut inner, 32)?;
    Ok(inner)
}

fn words_up(alloc: Global) -> Result<Block, AllocError>
    ensures { IfOk result (λ b. statements_of b ≡ helpers.up_to_word (helpers.copy_byte helpers.done) ∷ helpers.each 32 (map (helpers.copy_word helpers.done) helpers.eight_up) ∷ helpers.each 4 (helpers.copy_word helpers.done 0 ∷ []) ∷ []) }
{
    let mut block = Block::new(alloc);
    while_inside(&mut block, own(0), byte_up(alloc)?)?;
    while_more(&mut block, 32, eight_up(alloc)?)?;
    while_more(&mut block, 4, word_up(alloc)?)?;
    Ok(block)
}

fn copy_up(alloc: Global) -> Result<Block, AllocError>
    ensures { IfOk result (λ b. statements_of b ≡ helpers.copy_up) }
{
    let mut block = Block::new(alloc);
    when_words(&mut block, words_up(alloc)?)?;
    while_bytes(&mut block, byte_up(alloc)?)?;
    Ok(block)
}

// ---- downwards, from the last bytes on

fn byte_down(alloc: Global) -> Result<Block, AllocError>
    ensures { IfOk result (λ b. statements_of b ≡ helpers.fall 1 (helpers.copy_byte helpers.third ∷ [])) }
{
    let mut inner = Block::new(alloc);
    fall(&mut inner, 1)?;
    copy_byte(&mut inner, argument(2))?;
    Ok(inner)
}

fn word_down(alloc: Global) -> Result<Block, AllocError>
    ensures { IfOk result (λ b. statements_of b ≡ helpers.fall 4 (helpers.copy_word helpers.third 0 ∷ [])) }
{
    let mut inner = Block::new(alloc);
    fall(&mut inner, 4)?;
    copy_word(&mut inner, argument(2), 0)?;
    Ok(inner)
}

#[tactic(auto, using(std::proofs::lemmas::List::append_assoc))]
fn eight_down(alloc: Global) -> Result<Block, AllocError>
    ensures { IfOk result (λ b. statements_of b ≡ helpers.fall 32 (map (helpers.copy_word helpers.third) helpers.eight_down)) }
{
    let mut inner = Block::new(alloc);
    fall(&mut inner, 32)?;
    copy_four(&mut inner, argument(2), 28, 24, 20, 16)?;
    copy_four(&mut inner, argument(2), 12, 8, 4, 0)?;
    Ok(inner)
}

fn words_down(alloc: Global) -> Result<Block, AllocError>
    ensures { IfOk result (λ b. statements_of b ≡ helpers.down_to_word (helpers.copy_byte helpers.third) ∷ helpers.while_left 31 32 (map (helpers.copy_word helpers.third) helpers.eight_down) ∷ helpers.while_left 3 4 (helpers.copy_word helpers.third 0 ∷ []) ∷ []) }
{
    let mut block = Block::new(alloc);
    while_inside(&mut block, argument(2), byte_down(alloc)?)?;
    while_left(&mut block, 31, eight_down(alloc)?)?;
    while_left(&mut block, 3, word_down(alloc)?)?;
    Ok(block)
}

fn copy_down(alloc: Global) -> Result<Block, AllocError>
    ensures { IfOk result (λ b. statements_of b ≡ helpers.copy_down) }
{
    let mut block = Block::new(alloc);
    when_words(&mut block, words_down(alloc)?)?;
    while_left(&mut block, 0, byte_down(alloc)?)?;
    Ok(block)
}
