//! Words at any place of the memory, byte by byte.
ghost use Rattle.std.specs.Prelude.{◌≡◌, ◌≤◌, ◌++◌, ◌∷◌, [], List, map, IfOk};
ghost use Rattle.sem_words.specs.Lists.{list_items};
ghost use Rattle.asm_tree.specs.Views.{function_view};
ghost use Rattle.wasm2js_translation.specs.Words.{both, shift_right};
ghost use Rattle.wasm2js_translation.specs.Words as words;
ghost use Rattle.wasm2js_translation.specs.Helpers as helpers;
ghost use Rattle.wasm2js_memory_helpers.specs.Pieces.{bytes_together, word_of, load_32_function, load_64_function, store_32_function, store_64_function};
ghost use Rattle.wasm2js_nodes.specs.Names.{name_view};
ghost use Rattle.wasm2js_terms.specs.Views.{term_view};
ghost use Rattle.wasm2js_build.specs.Blocks.{statements_of};
ghost use Rattle.wasm2js_helpers.specs.Choices.{choice, chosen};
ghost use Rattle.wasm2js_memory_helpers.specs.Choices.{load_choices, store_choices, access_choices};

use asm_tree::Function;
use sem_words::List;
use std::alloc::{AllocError, Global};
use wasm2js_build::Block;
use wasm2js_helpers::short::{add, argument, first, of_one, of_three, of_two, second, spare};
use wasm2js_needs::Needs;
use wasm2js_nodes::{Fixed, Name};
use wasm2js_terms::{BitOp, Term};

/// Adds the helpers that read and write words, where they are asked for.
#[tactic(auto, using(wasm2js_helpers::proofs::Chosen::one_more))]
pub fn access_helpers(
    alloc: Global,
    needs: &Needs,
    functions: &mut List<Function>,
) -> Result<(), AllocError>
    ensures { IfOk result (λ _. map function_view (list_items functions.new) ≡ map function_view (list_items functions.old) ++ chosen (access_choices needs.now)) }
{
    add_loads(alloc, needs, functions)?;
    add_stores(alloc, needs, functions)
}

#[tactic(auto, using(wasm2js_helpers::proofs::Chosen::one_more))]
fn add_loads(alloc: Global, needs: &Needs, functions: &mut List<Function>) -> Result<(), AllocError>
    ensures { IfOk result (λ _. map function_view (list_items functions.new) ≡ map function_view (list_items functions.old) ++ chosen (load_choices needs.now)) }
{
    add_load_32(alloc, needs.load_32, functions)?;
    add_load_64(alloc, needs.load_64, functions)
}

#[tactic(auto, using(wasm2js_helpers::proofs::Chosen::one_more))]
fn add_stores(
    alloc: Global,
    needs: &Needs,
    functions: &mut List<Function>,
) -> Result<(), AllocError>
    ensures { IfOk result (λ _. map function_view (list_items functions.new) ≡ map function_view (list_items functions.old) ++ chosen (store_choices needs.now)) }
{
    add_store_32(alloc, needs.store_32, functions)?;
    add_store_64(alloc, needs.store_64, functions)
}

fn add_load_32(alloc: Global, asked: bool, functions: &mut List<Function>) -> Result<(), AllocError>
    ensures { IfOk result (λ _. map function_view (list_items functions.new) ≡ map function_view (list_items functions.old) ++ chosen (choice asked load_32_function ∷ [])) }
{
    if asked {
        add(functions, load_32(alloc)?)
    } else {
        Ok(())
    }
}

fn add_load_64(alloc: Global, asked: bool, functions: &mut List<Function>) -> Result<(), AllocError>
    ensures { IfOk result (λ _. map function_view (list_items functions.new) ≡ map function_view (list_items functions.old) ++ chosen (choice asked load_64_function ∷ [])) }
{
    if asked {
        add(functions, load_64(alloc)?)
    } else {
        Ok(())
    }
}

fn add_store_32(
    alloc: Global,
    asked: bool,
    functions: &mut List<Function>,
) -> Result<(), AllocError>
    ensures { IfOk result (λ _. map function_view (list_items functions.new) ≡ map function_view (list_items functions.old) ++ chosen (choice asked store_32_function ∷ [])) }
{
    if asked {
        add(functions, store_32(alloc)?)
    } else {
        Ok(())
    }
}

fn add_store_64(
    alloc: Global,
    asked: bool,
    functions: &mut List<Function>,
) -> Result<(), AllocError>
    ensures { IfOk result (λ _. map function_view (list_items functions.new) ≡ map function_view (list_items functions.old) ++ chosen (choice asked store_64_function ∷ [])) }
{
    if asked {
        add(functions, store_64(alloc)?)
    } else {
        Ok(())
    }
}

// ---- reading

// `to=` the word of four bytes.
fn put_bytes<'a>(
    block: &mut Block,
    to: Name,
    a: &'a Term<'a>,
    b: &'a Term<'a>,
    c: &'a Term<'a>,
    d: &'a Term<'a>,
) -> Result<(), AllocError>
    ensures { IfOk result (λ _. statements_of block.new ≡ statements_of block.old ++ helpers.sets (name_view to) (bytes_together (term_view a.now) (term_view b.now) (term_view c.now) (term_view d.now)) ∷ []) }
{
    let second = Term::both_number(BitOp::Shl, b, 8);
    let third = Term::both_number(BitOp::Shl, c, 16);
    let fourth = Term::both_number(BitOp::Shl, d, 24);
    let value = Term::sum_of_four(a, &second, &third, &fourth);
    block.put(to, &value)
}

// `return ..|0;`, of the word of four bytes.
fn gives_bytes<'a>(
    block: &mut Block,
    a: &'a Term<'a>,
    b: &'a Term<'a>,
    c: &'a Term<'a>,
    d: &'a Term<'a>,
) -> Result<(), AllocError>
    ensures { IfOk result (λ _. statements_of block.new ≡ statements_of block.old ++ helpers.gives (bytes_together (term_view a.now) (term_view b.now) (term_view c.now) (term_view d.now)) ∷ []) }
{
    let second = Term::both_number(BitOp::Shl, b, 8);
    let third = Term::both_number(BitOp::Shl, c, 16);
    let fourth = Term::both_number(BitOp::Shl, d, 24);
    let value = Term::sum_of_four(a, &second, &third, &fourth);
    block.gives(&value)
}

// `to=` the word of the bytes at four places.
fn put_word<'a>(
    block: &mut Block,
    to: Name,
    a: &'a Term<'a>,
    b: &'a Term<'a>,
    c: &'a Term<'a>,
    d: &'a Term<'a>,
) -> Result<(), AllocError>
    ensures { IfOk result (λ _. statements_of block.new ≡ statements_of block.old ++ helpers.sets (name_view to) (word_of (term_view a.now) (term_view b.now) (term_view c.now) (term_view d.now)) ∷ []) }
{
    let first = Term::byte(false, a);
    let second = Term::byte(false, b);
    let third = Term::byte(false, c);
    let fourth = Term::byte(false, d);
    put_bytes(block, to, &first, &second, &third, &fourth)
}

// `return ..|0;`, of the word of the bytes at four places.
fn gives_word<'a>(
    block: &mut Block,
    a: &'a Term<'a>,
    b: &'a Term<'a>,
    c: &'a Term<'a>,
    d: &'a Term<'a>,
) -> Result<(), AllocError>
    ensures { IfOk result (λ _. statements_of block.new ≡ statements_of block.old ++ helpers.gives (word_of (term_view a.now) (term_view b.now) (term_view c.now) (term_view d.now)) ∷ []) }
{
    let first = Term::byte(false, a);
    let second = Term::byte(false, b);
    let third = Term::byte(false, c);
    let fourth = Term::byte(false, d);
    gives_bytes(block, &first, &second, &third, &fourth)
}

// Of the address itself.
fn gives_low_word(block: &mut Block) -> Result<(), AllocError>
    ensures { IfOk result (λ _. statements_of block.new ≡ statements_of block.old ++ helpers.gives (helpers.word_at 0) ∷ []) }
{
    let at = first();
    let b = Term::plus_number(&at, 1);
    let c = Term::plus_number(&at, 2);
    let d = Term::plus_number(&at, 3);
    gives_word(block, &at, &b, &c, &d)
}

// Of the place four bytes past the address.
fn put_high_word(block: &mut Block) -> Result<(), AllocError>
    ensures { IfOk result (λ _. statements_of block.new ≡ statements_of block.old ++ helpers.sets helpers.spare (helpers.word_at 4) ∷ []) }
{
    let at = first();
    let a = Term::plus_number(&at, 4);
    let b = Term::plus_number(&at, 5);
    let c = Term::plus_number(&at, 6);
    let d = Term::plus_number(&at, 7);
    put_word(block, spare(), &a, &b, &c, &d)
}

fn load_32(alloc: Global) -> Result<Function, AllocError>
    ensures { IfOk result (λ f. function_view f ≡ load_32_function) }
{
    let mut block = Block::new(alloc);
    gives_low_word(&mut block)?;
    of_one(alloc, Fixed::Load32, &[], block)
}

fn load_64(alloc: Global) -> Result<Function, AllocError>
    ensures { IfOk result (λ f. function_view f ≡ load_64_function) }
{
    let mut block = Block::new(alloc);
    put_high_word(&mut block)?;
    gives_low_word(&mut block)?;
    of_one(alloc, Fixed::Load64, &[], block)
}

// ---- writing

// The lowest byte, so many places past the address.
fn write_at(block: &mut Block, offset: u32, value: &Term<'_>) -> Result<(), AllocError>
    ensures { IfOk result (λ _. statements_of block.new ≡ statements_of block.old ++ helpers.write_at offset (term_view value.now) ∷ []) }
{
    if offset == 0 {
        return block.write_byte(&first(), value);
    }
    let at = first();
    let place = Term::plus_number(&at, i64::from(offset));
    block.write_byte(&place, value)
}

// The byte of a word that so many bits stand below.
fn write_shifted(block: &mut Block, offset: u32, value: Name, bits: i64) -> Result<(), AllocError>
    ensures { IfOk result (λ _. statements_of block.new ≡ statements_of block.old ++ helpers.write_at offset (both shift_right (words.read (name_view value)) (words.number bits)) ∷ []) }
{
    let word = Term::read(value);
    let byte = Term::both_number(BitOp::Shr, &word, bits);
    write_at(block, offset, &byte)
}

// The bytes of a word, the lowest first.
#[tactic(auto, using(std::proofs::lemmas::List::append_assoc))]
fn write_word(block: &mut Block, offset: u32, value: Name) -> Result<(), AllocError>
    requires { offset ≤ 4 }
    ensures { IfOk result (λ _. statements_of block.new ≡ statements_of block.old ++ helpers.write_word offset (words.read (name_view value))) }
{
    write_at(block, offset, &Term::read(value))?;
    write_shifted(block, offset + 1, value, 8)?;
    write_shifted(block, offset + 2, value, 16)?;
    write_shifted(block, offset + 3, value, 24)
}

fn store_32(alloc: Global) -> Result<Function, AllocError>
    ensures { IfOk result (λ f. function_view f ≡ store_32_function) }
{
    let mut block = Block::new(alloc);
    write_word(&mut block, 0, argument(1))?;
    of_two(alloc, Fixed::Store32, block)
}

fn store_64(alloc: Global) -> Result<Function, AllocError>
    ensures { IfOk result (λ f. function_view f ≡ store_64_function) }
{
    let mut block = Block::new(alloc);
    write_word(&mut block, 0, argument(1))?;
    write_word(&mut block, 4, argument(2))?;
    of_three(alloc, Fixed::Store64, &[], block)
}
