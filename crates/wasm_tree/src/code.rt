//! Bytes and code that a module lends from its input or owns.
ghost use Rattle.std.specs.Prelude.{◌≡◌, map, IfOk};
ghost use Rattle.sem_words.specs.Lists.{list_items};
ghost use Rattle.wasm_lang.specs.ReadingCode.{spelled};
ghost use Rattle.wasm_tree.specs.Views.{instr_of, bytes_of, code_of, IsOnlyCodeOf};

use crate::error::ReadError;
use crate::input::Input;
use crate::instr::{Instr, copied};
use crate::read::read_instr;
use sem_words::{List, Text};
use std::alloc::{AllocError, Global};
use wasm_lang::code_laws;

/// Bytes, lent or owned.
#[derive(Drop)]
pub enum Bytes<'a> {
    Lent(&'a [u8]),
    Own(Text),
}

impl Bytes<'_> {
    /// The bytes.
    pub fn as_bytes(&self) -> &[u8]
        ensures { result.now ≡ bytes_of self.now }
    {
        match self {
            Bytes::Lent(bytes) => bytes,
            Bytes::Own(text) => text.as_bytes(),
        }
    }
}

/// The instructions of an expression: the bytes that spell them, or the list itself.
#[derive(Drop)]
pub enum Code<'a> {
    Lent(&'a [u8]),
    Own(List<Instr>),
}

impl Code<'_> {
    /// The instructions, one after another. Those of lent bytes are read up to the end, or up to bytes
    /// that are no instruction; so the bytes of an expression give all of it.
    pub fn instrs(&self, alloc: Global) -> Result<List<Instr>, AllocError>
        ensures value { IfOk result (λ list. map instr_of (list_items list) ≡ code_of self.now) }
        ensures expression { IfOk result (λ list. IsOnlyCodeOf self.now (map instr_of (list_items list))) }
    {
        code_laws();
        match self {
            Code::Lent(bytes) => read_all(alloc, bytes),
            Code::Own(list) => copied_list(alloc, list.as_slice()),
        }
    }
}

// The instructions that bytes spell.
fn read_all(alloc: Global, bytes: &[u8]) -> Result<List<Instr>, AllocError>
    ensures { IfOk result (λ list. map instr_of (list_items list) ≡ spelled bytes.now) }
{
    let mut list = List::new(alloc);
    let mut rest = Input::new(bytes);
    for _turn in 0..bytes.len() {
        match read_instr(alloc, rest) {
            Ok((instr, after)) => {
                if list.push(instr).is_err() {
                    return Err(AllocError);
                }
                rest = after;
            }
            Err(ReadError::Refused(_)) => return Ok(list),
            Err(ReadError::Memory) => return Err(AllocError),
        }
    }
    Ok(list)
}

fn copied_list(alloc: Global, list: &[Instr]) -> Result<List<Instr>, AllocError>
    ensures { IfOk result (λ copy. map instr_of (list_items copy) ≡ map instr_of list.now) }
{
    let mut copy = List::new(alloc);
    for instr in list {
        let instr = copied(alloc, instr)?;
        if copy.push(instr).is_err() {
            return Err(AllocError);
        }
    }
    Ok(copy)
}
