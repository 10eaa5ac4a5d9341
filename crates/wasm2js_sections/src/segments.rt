//! Bytes that are put into the memory: whole words where the place is a multiple of four and four bytes are left, sixteen by one call in a
//! long segment; else bytes.
ghost use Rattle.std.specs.Prelude.{◌≡◌, ◌+◌, ◌*◌, ◌<◌, ◌≤◌, ◌^◌, nat_le, ◌++◌, [], ◌∷◌, length, map, pos, IfOk};
ghost use Rattle.sem_words.specs.Words.{signed_of};
ghost use Rattle.sem_words.specs.Lists.{list_items};
ghost use Rattle.heap_lang.specs.Numbers.{little_endian};
ghost use Rattle.asm_lang.specs.Modules as plain;
ghost use Rattle.asm_tree.specs.Views.{expr_view, exprs_view, stmt_view};
ghost use Rattle.wasm2js_translation.specs.Words as words;
ghost use Rattle.wasm2js_translation.specs.Pairs.{literal};
ghost use Rattle.wasm2js_translation.specs.Modules as modules;
ghost use Rattle.wasm2js_nodes.specs.Names.{fixed_view};
ghost use Rattle.wasm2js_build.specs.Blocks.{statements_of};

use asm_tree::{Expr, Stmt};
use sem_words::{List, signed32};
use std::alloc::{AllocError, Global};
use wasm2js_build::Block;
use wasm2js_nodes::{Fixed, Name, call, call_of_two, literal, natural, plainly, spell};

/// Puts bytes into the memory from a place on.
pub fn set_run(alloc: Global, body: &mut Block, at: u32, bytes: &[u8]) -> Result<(), AllocError>
    ensures { IfOk result (λ _. statements_of body.new ≡ statements_of body.old ++ modules.set_run (nat_le 512 (length bytes.now)) at bytes.now) }
{
    let long = bytes.len() >= 512;
    let before = to_word(at);
    let count = bytes.len().min(before as usize);
    let at = u64::from(at);
    set_bytes(alloc, body, at, &bytes[..count])?;
    put_run(alloc, body, long, at + u64::from(before), &bytes[count..])
}

fn put_run(
    alloc: Global,
    body: &mut Block,
    long: bool,
    at: u64,
    bytes: &[u8],
) -> Result<(), AllocError>
    requires { at + length bytes.now < 2 ^ 64 }
    ensures { IfOk result (λ _. statements_of body.new ≡ statements_of body.old ++ modules.put_run long at bytes.now) }
{
    if long {
        return put_chunks(alloc, body, at, bytes.len() / 64, bytes);
    }
    set_words(alloc, body, at, bytes)
}

// So many times 64 bytes, and then the rest. Zeros wait until other bytes come.
fn put_chunks(
    alloc: Global,
    body: &mut Block,
    at: u64,
    count: usize,
    bytes: &[u8],
) -> Result<(), AllocError>
    requires place { at + length bytes.now < 2 ^ 64 }
    requires inside { 64 * count ≤ length bytes.now }
    ensures { IfOk result (λ _. statements_of body.new ≡ statements_of body.old ++ modules.put_chunks count at at bytes.now) }
{
    let mut from = at;
    let mut done = 0;
    let mut left = count;
    while left > 0 {
        let chunk = &bytes[done..done + 64];
        from = put_one(alloc, body, from, at + done as u64, chunk)?;
        done += 64;
        left -= 1;
    }
    let place = at + done as u64;
    set_zeros(alloc, body, from, place)?;
    set_words(alloc, body, place, &bytes[done..])
}

// 64 bytes. It gives from where zeros wait after them.
#[tactic(auto, using(std::proofs::lemmas::List::append_assoc))]
fn put_one(
    alloc: Global,
    body: &mut Block,
    from: u64,
    at: u64,
    bytes: &[u8],
) -> Result<u64, AllocError>
    requires { at + 64 < 2 ^ 64 }
    ensures waits { IfOk result (λ next. next ≡ modules.waits_from from at bytes.now) }
    ensures puts { IfOk result (λ _. statements_of body.new ≡ statements_of body.old ++ modules.chunk_stmts from at bytes.now) }
{
    if are_zeros(bytes) {
        return Ok(from);
    }
    set_zeros(alloc, body, from, at)?;
    put_chunk(alloc, body, at, bytes)?;
    Ok(at + 64)
}

fn are_zeros(bytes: &[u8]) -> bool
    ensures { result ≡ modules.are_zeros bytes.now }
{
    for byte in bytes {
        if *byte != 0 {
            return false;
        }
    }
    true
}

// A call that writes zeros, where there are any.
fn set_zeros(alloc: Global, body: &mut Block, from: u64, to: u64) -> Result<(), AllocError>
    ensures { IfOk result (λ _. statements_of body.new ≡ statements_of body.old ++ modules.set_zeros from to) }
{
    if from == to {
        return Ok(());
    }
    let made = call_of_two(
        alloc,
        Name::Always(Fixed::DataZeros),
        natural(from),
        natural(to),
    )?;
    body.push(plainly(made))
}

// A call with the place and sixteen words.
fn put_chunk(alloc: Global, body: &mut Block, at: u64, bytes: &[u8]) -> Result<(), AllocError>
    ensures { IfOk result (λ _. statements_of body.new ≡ statements_of body.old ++ modules.put_chunk at bytes.now ∷ []) }
{
    let arguments = chunk_arguments(alloc, at, bytes)?;
    let made = call(alloc, Name::Always(Fixed::DataWords), arguments)?;
    body.push(plainly(made))
}

#[tactic(auto, using(crate::proofs::Chunks::arguments_are))]
fn chunk_arguments(alloc: Global, at: u64, bytes: &[u8]) -> Result<List<Expr>, AllocError>
    ensures { IfOk result (λ es. exprs_view (list_items es) ≡ words.arguments (literal at ∷ modules.words_in bytes.now)) }
{
    chunk_values(alloc, at, bytes)
}

fn chunk_values(alloc: Global, at: u64, bytes: &[u8]) -> Result<List<Expr>, AllocError>
    ensures { IfOk result (λ es. map expr_view (list_items es) ≡ words.natural at ∷ map words.int_of (modules.words_in bytes.now)) }
{
    let mut arguments = List::new(alloc);
    add_argument(&mut arguments, natural(at))?;
    add_words(&mut arguments, bytes)?;
    Ok(arguments)
}

fn add_argument(arguments: &mut List<Expr>, argument: Expr) -> Result<(), AllocError>
    ensures { IfOk result (λ _. map expr_view (list_items arguments.new) ≡ map expr_view (list_items arguments.old) ++ expr_view argument ∷ []) }
{
    match arguments.push(argument) {
        Ok(()) => Ok(()),
        Err(_) => Err(AllocError),
    }
}

fn add_word(arguments: &mut List<Expr>, bytes: &[u8]) -> Result<(), AllocError>
    requires { length bytes.now ≡ 4 }
    ensures { IfOk result (λ _. map expr_view (list_items arguments.new) ≡ map expr_view (list_items arguments.old) ++ plain.lit (signed_of 32 (little_endian bytes.now)) ∷ []) }
{
    let number = i64::from(signed32(word_of(bytes)));
    add_argument(arguments, literal(number))
}

// The words of four bytes each.
fn add_words(arguments: &mut List<Expr>, bytes: &[u8]) -> Result<(), AllocError>
    ensures { IfOk result (λ _. map expr_view (list_items arguments.new) ≡ map expr_view (list_items arguments.old) ++ map words.int_of (modules.words_in bytes.now)) }
{
    let mut done = 0;
    while bytes.len() - done >= 4 {
        add_word(arguments, &bytes[done..done + 4])?;
        done += 4;
    }
    Ok(())
}

// How far it is to the next multiple of four.
fn to_word(at: u32) -> u32
    ensures { result ≡ modules.to_word at }
{
    (4 - at % 4) % 4
}

// Whole words, and then the bytes that are left.
fn set_words(alloc: Global, body: &mut Block, at: u64, bytes: &[u8]) -> Result<(), AllocError>
    requires { at + length bytes.now < 2 ^ 64 }
    ensures { IfOk result (λ _. statements_of body.new ≡ statements_of body.old ++ modules.set_words at bytes.now) }
{
    let mut done = 0;
    while bytes.len() - done >= 4 {
        set_word(alloc, body, at + done as u64, &bytes[done..done + 4])?;
        done += 4;
    }
    set_bytes(alloc, body, at + done as u64, &bytes[done..])
}

fn set_bytes(alloc: Global, body: &mut Block, at: u64, bytes: &[u8]) -> Result<(), AllocError>
    requires { at + length bytes.now < 2 ^ 64 }
    ensures { IfOk result (λ _. statements_of body.new ≡ statements_of body.old ++ modules.set_bytes at bytes.now) }
{
    for (i, byte) in bytes.iter().enumerate() {
        set_byte(alloc, body, at + i as u64, *byte)?;
    }
    Ok(())
}

fn set_byte(alloc: Global, body: &mut Block, at: u64, byte: u8) -> Result<(), AllocError>
    ensures { IfOk result (λ _. statements_of body.new ≡ statements_of body.old ++ modules.set_byte at byte ∷ []) }
{
    let statement = store(alloc, Fixed::ViewOfBytes, at, i64::from(byte))?;
    body.push(statement)
}

fn set_word(alloc: Global, body: &mut Block, at: u64, bytes: &[u8]) -> Result<(), AllocError>
    requires { length bytes.now ≡ 4 }
    ensures { IfOk result (λ _. statements_of body.new ≡ statements_of body.old ++ modules.set_word at bytes.now ∷ []) }
{
    let number = i64::from(signed32(word_of(bytes)));
    let statement = store(alloc, Fixed::ViewOfWords, at / 4, number)?;
    body.push(statement)
}

// The word of four bytes.
fn word_of(bytes: &[u8]) -> u32
    requires { length bytes.now ≡ 4 }
    ensures { result ≡ little_endian bytes.now }
{
    match bytes {
        [a, b, c, d] => u32::from_le_bytes([*a, *b, *c, *d]),
        _ => unreachable!(),
    }
}

// `view[at]=value;`
#[tactic(auto, using(asm_tree::proofs::Views::views))]
fn store(alloc: Global, view: Fixed, at: u64, value: i64) -> Result<Stmt, AllocError>
    ensures { IfOk result (λ s. stmt_view s ≡ plain.plain (plain.store (words.name_of (fixed_view view)) (plain.lit (pos at)) (plain.lit value))) }
{
    let view = spell(alloc, Name::Always(view))?;
    let at = boxed(alloc, natural(at))?;
    let value = boxed(alloc, Expr::Lit(i128::from(value)))?;
    Ok(Stmt::Plain(Expr::Store(view, at, value)))
}

#[inline(never)]
fn boxed(alloc: Global, e: Expr) -> Result<Box<Expr>, AllocError>
    ensures { IfOk result (λ r. r.value ≡ e) }
{
    match Box::new(alloc, e) {
        Ok(e) => Ok(e),
        Err(_) => Err(AllocError),
    }
}
