//! Helpers on words of 64 bits: each takes a low word, a high word and perhaps a count, gives the low word of its result, and leaves the
//! high one in a variable.
ghost use Rattle.std.specs.Prelude.{◌≡◌, ◌++◌, ◌∷◌, [], List, map, IfOk};
ghost use Rattle.sem_words.specs.Lists.{list_items};
ghost use Rattle.asm_tree.specs.Views.{function_view};
ghost use Rattle.wasm2js_translation.specs.Words as words;
ghost use Rattle.wasm2js_translation.specs.Words.{both, conjunction, shift_left, shift_right, shift_right_signed, zeros};
ghost use Rattle.wasm2js_translation.specs.Pairs as pairs;
ghost use Rattle.wasm2js_translation.specs.Pairs.{literal, sign_of, funnel_right, plus, minus};
ghost use Rattle.wasm2js_translation.specs.Actions.{low_ones};
ghost use Rattle.wasm2js_translation.specs.Helpers as helpers;
ghost use Rattle.wasm2js_translation.specs.Helpers.{when, repeat, sets, gives, is_far, shift_left_function, shift_right_function, shift_right_signed_function, rotate_left_function, leading_zeros_function, trailing_zeros_function, set_bits_function};
ghost use Rattle.wasm2js_nodes.specs.Names.{name_view};
ghost use Rattle.wasm2js_terms.specs.Views.{bit_view, term_view};
ghost use Rattle.wasm2js_build.specs.Blocks.{statements_of};
ghost use Rattle.wasm2js_helpers.specs.Choices.{choice, chosen, wide_choices, word_choices};

use crate::short::{
    add, argument, first, gives_both, of_one, of_three, of_two, own, put_both, put_both_number,
    second, spare, third,
};
use asm_tree::Function;
use sem_words::List;
use std::alloc::{AllocError, Global};
use wasm2js_build::Block;
use wasm2js_needs::Needs;
use wasm2js_nodes::{Fixed, Name};
use wasm2js_terms::{BitOp, Term};

/// Adds the helpers that are asked for.
#[tactic(auto, using(crate::proofs::Chosen::one_more))]
pub fn wide_helpers(
    alloc: Global,
    needs: &Needs,
    functions: &mut List<Function>,
) -> Result<(), AllocError>
    ensures { IfOk result (λ _. map function_view (list_items functions.new) ≡ map function_view (list_items functions.old) ++ chosen (word_choices needs.now)) }
{
    add_wide(alloc, needs.wide, functions)?;
    add_set_bits(alloc, needs.set_bits, functions)
}

// All that take both words, or none of them.
fn add_wide(alloc: Global, asked: bool, functions: &mut List<Function>) -> Result<(), AllocError>
    ensures { IfOk result (λ _. map function_view (list_items functions.new) ≡ map function_view (list_items functions.old) ++ chosen (wide_choices asked)) }
{
    if asked {
        add_all_wide(alloc, functions)
    } else {
        Ok(())
    }
}

#[tactic(auto, using(std::proofs::lemmas::List::append_assoc))]
fn add_all_wide(alloc: Global, functions: &mut List<Function>) -> Result<(), AllocError>
    ensures { IfOk result (λ _. map function_view (list_items functions.new) ≡ map function_view (list_items functions.old) ++ shift_left_function ∷ shift_right_signed_function ∷ shift_right_function ∷ rotate_left_function ∷ leading_zeros_function ∷ trailing_zeros_function ∷ []) }
{
    add_shifts(alloc, functions)?;
    add_turn(alloc, functions)?;
    add_zeros(alloc, functions)
}

#[tactic(auto, using(std::proofs::lemmas::List::append_assoc))]
fn add_shifts(alloc: Global, functions: &mut List<Function>) -> Result<(), AllocError>
    ensures { IfOk result (λ _. map function_view (list_items functions.new) ≡ map function_view (list_items functions.old) ++ shift_left_function ∷ shift_right_signed_function ∷ shift_right_function ∷ []) }
{
    add(functions, shift_left(alloc)?)?;
    add(functions, shift_right_signed(alloc)?)?;
    add(functions, shift_right(alloc)?)
}

fn add_turn(alloc: Global, functions: &mut List<Function>) -> Result<(), AllocError>
    ensures { IfOk result (λ _. map function_view (list_items functions.new) ≡ map function_view (list_items functions.old) ++ rotate_left_function ∷ []) }
{
    add(functions, rotate_left(alloc)?)
}

#[tactic(auto, using(std::proofs::lemmas::List::append_assoc))]
fn add_zeros(alloc: Global, functions: &mut List<Function>) -> Result<(), AllocError>
    ensures { IfOk result (λ _. map function_view (list_items functions.new) ≡ map function_view (list_items functions.old) ++ leading_zeros_function ∷ trailing_zeros_function ∷ []) }
{
    add(functions, leading_zeros(alloc)?)?;
    add(functions, trailing_zeros(alloc)?)
}

fn add_set_bits(
    alloc: Global,
    asked: bool,
    functions: &mut List<Function>,
) -> Result<(), AllocError>
    ensures { IfOk result (λ _. map function_view (list_items functions.new) ≡ map function_view (list_items functions.old) ++ chosen (choice asked set_bits_function ∷ [])) }
{
    if asked {
        add(functions, set_bits(alloc)?)
    } else {
        Ok(())
    }
}

// The count modulo 64 is 32 or more.
fn when_far(block: &mut Block, inner: Block) -> Result<(), AllocError>
    ensures { IfOk result (λ _. statements_of block.new ≡ statements_of block.old ++ when is_far (statements_of inner) ∷ []) }
{
    let count = third();
    let test = Term::both_number(BitOp::And, &count, 32);
    block.when(&test, inner)
}

// `to=(a<<count)+(b>>>1>>>~count);`
fn put_funnel_left(block: &mut Block, to: Name, a: Name, b: Name) -> Result<(), AllocError>
    ensures { IfOk result (λ _. statements_of block.new ≡ statements_of block.old ++ sets (name_view to) (pairs.funnel_left (words.read (name_view a)) (words.read (name_view b)) helpers.third) ∷ []) }
{
    let b = Term::read(b);
    let half = Term::both_number(BitOp::Shr, &b, 1);
    let count = third();
    let rest = Term::flip(&count);
    put_moved(block, to, a, &Term::both(BitOp::Shr, &half, &rest))
}

// `to=(a<<count)+carried;`
fn put_moved(block: &mut Block, to: Name, a: Name, carried: &Term<'_>) -> Result<(), AllocError>
    ensures { IfOk result (λ _. statements_of block.new ≡ statements_of block.old ++ sets (name_view to) (plus (both shift_left (words.read (name_view a)) helpers.third) (term_view carried.now)) ∷ []) }
{
    let moved = Term::both_read(BitOp::Shl, a, argument(2));
    block.put(to, &Term::plus(&moved, carried))
}

// `return (a<<count)+(b>>>1>>>~count)|0;`
fn gives_funnel_left(block: &mut Block, a: Name, b: Name) -> Result<(), AllocError>
    ensures { IfOk result (λ _. statements_of block.new ≡ statements_of block.old ++ gives (pairs.funnel_left (words.read (name_view a)) (words.read (name_view b)) helpers.third) ∷ []) }
{
    let b = Term::read(b);
    let half = Term::both_number(BitOp::Shr, &b, 1);
    let count = third();
    let rest = Term::flip(&count);
    gives_moved(block, BitOp::Shl, a, &Term::both(BitOp::Shr, &half, &rest))
}

// `return (a operator count)+carried|0;`
fn gives_moved(
    block: &mut Block,
    operator: BitOp,
    a: Name,
    carried: &Term<'_>,
) -> Result<(), AllocError>
    ensures { IfOk result (λ _. statements_of block.new ≡ statements_of block.old ++ gives (plus (both (bit_view operator) (words.read (name_view a)) helpers.third) (term_view carried.now)) ∷ []) }
{
    let moved = Term::both_read(operator, a, argument(2));
    block.gives(&Term::plus(&moved, carried))
}

// `return (low>>>count)+(high<<1<<~count)|0;`
fn gives_funnel_right(block: &mut Block) -> Result<(), AllocError>
    ensures { IfOk result (λ _. statements_of block.new ≡ statements_of block.old ++ gives (funnel_right helpers.first helpers.second helpers.third) ∷ []) }
{
    let high = second();
    let double = Term::both_number(BitOp::Shl, &high, 1);
    let count = third();
    let rest = Term::flip(&count);
    let carried = Term::both(BitOp::Shl, &double, &rest);
    gives_moved(block, BitOp::Shr, argument(0), &carried)
}

// ---- shifts

fn shift_left_far(alloc: Global) -> Result<Block, AllocError>
    ensures { IfOk result (λ b. statements_of b ≡ sets helpers.spare (both shift_left helpers.first helpers.third) ∷ gives (literal 0) ∷ []) }
{
    let mut block = Block::new(alloc);
    put_both(&mut block, spare(), BitOp::Shl, argument(0), argument(2))?;
    block.gives(&Term::number(0))?;
    Ok(block)
}

fn shift_left(alloc: Global) -> Result<Function, AllocError>
    ensures { IfOk result (λ f. function_view f ≡ shift_left_function) }
{
    let mut block = Block::new(alloc);
    when_far(&mut block, shift_left_far(alloc)?)?;
    put_funnel_left(&mut block, spare(), argument(1), argument(0))?;
    gives_both(&mut block, BitOp::Shl, argument(0), argument(2))?;
    of_three(alloc, Fixed::ShiftLeft, &[], block)
}

fn shift_right_signed_far(alloc: Global) -> Result<Block, AllocError>
    ensures { IfOk result (λ b. statements_of b ≡ sets helpers.spare (sign_of helpers.second) ∷ gives (both shift_right_signed helpers.second helpers.third) ∷ []) }
{
    let mut block = Block::new(alloc);
    put_both_number(&mut block, spare(), BitOp::Sar, argument(1), 31)?;
    gives_both(&mut block, BitOp::Sar, argument(1), argument(2))?;
    Ok(block)
}

fn shift_right_signed(alloc: Global) -> Result<Function, AllocError>
    ensures { IfOk result (λ f. function_view f ≡ shift_right_signed_function) }
{
    let mut block = Block::new(alloc);
    when_far(&mut block, shift_right_signed_far(alloc)?)?;
    put_both(&mut block, spare(), BitOp::Sar, argument(1), argument(2))?;
    gives_funnel_right(&mut block)?;
    of_three(alloc, Fixed::ShiftRightSigned, &[], block)
}

fn shift_right_far(alloc: Global) -> Result<Block, AllocError>
    ensures { IfOk result (λ b. statements_of b ≡ sets helpers.spare (literal 0) ∷ gives (both shift_right helpers.second helpers.third) ∷ []) }
{
    let mut block = Block::new(alloc);
    block.put(spare(), &Term::number(0))?;
    gives_both(&mut block, BitOp::Shr, argument(1), argument(2))?;
    Ok(block)
}

fn shift_right(alloc: Global) -> Result<Function, AllocError>
    ensures { IfOk result (λ f. function_view f ≡ shift_right_function) }
{
    let mut block = Block::new(alloc);
    when_far(&mut block, shift_right_far(alloc)?)?;
    put_both(&mut block, spare(), BitOp::Shr, argument(1), argument(2))?;
    gives_funnel_right(&mut block)?;
    of_three(alloc, Fixed::ShiftRight, &[], block)
}

// The words are exchanged where the count is far.
fn exchange(alloc: Global) -> Result<Block, AllocError>
    ensures { IfOk result (λ b. statements_of b ≡ sets (helpers.own 0) helpers.first ∷ sets (helpers.argument 0) helpers.second ∷ sets (helpers.argument 1) (words.read (helpers.own 0)) ∷ []) }
{
    let mut block = Block::new(alloc);
    block.put(own(0), &first())?;
    block.put(argument(0), &second())?;
    block.put(argument(1), &Term::read(own(0)))?;
    Ok(block)
}

fn rotate_left(alloc: Global) -> Result<Function, AllocError>
    ensures { IfOk result (λ f. function_view f ≡ rotate_left_function) }
{
    let mut block = Block::new(alloc);
    when_far(&mut block, exchange(alloc)?)?;
    put_funnel_left(&mut block, spare(), argument(1), argument(0))?;
    gives_funnel_left(&mut block, argument(0), argument(1))?;
    of_three(alloc, Fixed::RotateLeft, &[own(0)], block)
}

// ---- counts of bits

fn gives_high_zeros(alloc: Global) -> Result<Block, AllocError>
    ensures { IfOk result (λ b. statements_of b ≡ gives (zeros helpers.second) ∷ []) }
{
    let high = second();
    let count = Term::zeros(&high);
    let mut block = Block::new(alloc);
    block.gives(&count)?;
    Ok(block)
}

fn gives_low_zeros(block: &mut Block) -> Result<(), AllocError>
    ensures { IfOk result (λ _. statements_of block.new ≡ statements_of block.old ++ gives (plus (literal 32) (zeros helpers.first)) ∷ []) }
{
    let low = first();
    let count = Term::zeros(&low);
    let above = Term::number(32);
    block.gives(&Term::plus(&above, &count))
}

fn leading_zeros(alloc: Global) -> Result<Function, AllocError>
    ensures { IfOk result (λ f. function_view f ≡ leading_zeros_function) }
{
    let mut block = Block::new(alloc);
    block.when(&second(), gives_high_zeros(alloc)?)?;
    gives_low_zeros(&mut block)?;
    of_two(alloc, Fixed::LeadingZeros, block)
}

// How many bits stand below the lowest one of a word, and this many less 32 more.
fn gives_trailing(block: &mut Block, most: i64, word: Name) -> Result<(), AllocError>
    ensures { IfOk result (λ _. statements_of block.new ≡ statements_of block.old ++ gives (minus (words.number most) (zeros (low_ones (words.read (name_view word))))) ∷ []) }
{
    let word = Term::read(word);
    let others = Term::flip(&word);
    let below = Term::minus_number(&word, 1);
    gives_fewer(block, most, &Term::both(BitOp::And, &others, &below))
}

// So many less the leading zeros of a word.
fn gives_fewer(block: &mut Block, most: i64, word: &Term<'_>) -> Result<(), AllocError>
    ensures { IfOk result (λ _. statements_of block.new ≡ statements_of block.old ++ gives (minus (words.number most) (zeros (term_view word.now))) ∷ []) }
{
    let count = Term::zeros(word);
    let most = Term::number(most);
    block.gives(&Term::minus(&most, &count))
}

fn low_trailing(alloc: Global) -> Result<Block, AllocError>
    ensures { IfOk result (λ b. statements_of b ≡ gives (minus (literal 32) (zeros (low_ones helpers.first))) ∷ []) }
{
    let mut block = Block::new(alloc);
    gives_trailing(&mut block, 32, argument(0))?;
    Ok(block)
}

fn trailing_zeros(alloc: Global) -> Result<Function, AllocError>
    ensures { IfOk result (λ f. function_view f ≡ trailing_zeros_function) }
{
    let mut block = Block::new(alloc);
    block.when(&first(), low_trailing(alloc)?)?;
    gives_trailing(&mut block, 64, argument(1))?;
    of_two(alloc, Fixed::TrailingZeros, block)
}

// The lowest bit counts.
fn count_bit(block: &mut Block) -> Result<(), AllocError>
    ensures { IfOk result (λ _. statements_of block.new ≡ statements_of block.old ++ sets (helpers.own 0) (plus (words.read (helpers.own 0)) (both conjunction helpers.first (literal 1))) ∷ []) }
{
    let word = first();
    let bit = Term::both_number(BitOp::And, &word, 1);
    let count = Term::read(own(0));
    block.put(own(0), &Term::plus(&count, &bit))
}

fn each_bit(alloc: Global) -> Result<Block, AllocError>
    ensures { IfOk result (λ b. statements_of b ≡ sets (helpers.own 0) (plus (words.read (helpers.own 0)) (both conjunction helpers.first (literal 1))) ∷ sets (helpers.argument 0) (both shift_right helpers.first (literal 1)) ∷ []) }
{
    let mut block = Block::new(alloc);
    count_bit(&mut block)?;
    put_both_number(&mut block, argument(0), BitOp::Shr, argument(0), 1)?;
    Ok(block)
}

fn set_bits(alloc: Global) -> Result<Function, AllocError>
    ensures { IfOk result (λ f. function_view f ≡ set_bits_function) }
{
    let mut block = Block::new(alloc);
    block.repeat(&first(), each_bit(alloc)?)?;
    block.gives(&Term::read(own(0)))?;
    of_one(alloc, Fixed::SetBits, &[own(0)], block)
}
