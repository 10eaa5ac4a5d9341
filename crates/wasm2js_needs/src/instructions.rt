//! The instructions that ask for helpers.
ghost use Rattle.std.specs.Prelude.{◌≡◌};
ghost use Rattle.wasm_tree.specs.Views.{instr_of};
ghost use Rattle.wasm2js_lang.specs.Helpers as plain;
ghost use Rattle.wasm2js_lang.specs.Parts.Functions as parts;

use sem_words::{Bin, Un};
use wasm_tree::Instr;

pub(crate) fn is_wide_operator(instr: &Instr) -> bool
    ensures { result ≡ plain.is_wide_operator (instr_of instr.now) }
{
    match instr {
        Instr::Rel64(_) => true,
        Instr::Un64(_) => true,
        Instr::Bin64(_) => true,
        Instr::SignExtend { .. } => true,
        _ => false,
    }
}

pub(crate) fn counts_set_bits(instr: &Instr) -> bool
    ensures { result ≡ parts.counts_set_bits (instr_of instr.now) }
{
    match instr {
        Instr::Un32(Un::Popcnt) => true,
        _ => is_wide_operator(instr),
    }
}

pub(crate) fn is_signed_quotient(instr: &Instr) -> bool
    ensures { result ≡ parts.is_signed_quotient (instr_of instr.now) }
{
    match instr {
        Instr::Bin32(Bin::DivS) => true,
        _ => false,
    }
}

pub(crate) fn is_quotient(instr: &Instr) -> bool
    ensures { result ≡ parts.is_quotient (instr_of instr.now) }
{
    match instr {
        Instr::Bin32(Bin::DivU) => true,
        _ => false,
    }
}

pub(crate) fn is_signed_remainder(instr: &Instr) -> bool
    ensures { result ≡ parts.is_signed_remainder (instr_of instr.now) }
{
    match instr {
        Instr::Bin32(Bin::RemS) => true,
        _ => false,
    }
}

pub(crate) fn is_remainder(instr: &Instr) -> bool
    ensures { result ≡ parts.is_remainder (instr_of instr.now) }
{
    match instr {
        Instr::Bin32(Bin::RemU) => true,
        _ => false,
    }
}

// A load of so many bytes.
pub(crate) fn is_load(size: u32, instr: &Instr) -> bool
    ensures { result ≡ parts.is_load size (instr_of instr.now) }
{
    match instr {
        Instr::Load(op, _, _) => op.size == size,
        _ => false,
    }
}

// A store of so many bytes.
pub(crate) fn is_store(size: u32, instr: &Instr) -> bool
    ensures { result ≡ parts.is_store size (instr_of instr.now) }
{
    match instr {
        Instr::Store(op, _, _) => op.size == size,
        _ => false,
    }
}

pub(crate) fn is_copy(instr: &Instr) -> bool
    ensures { result ≡ parts.is_copy (instr_of instr.now) }
{
    match instr {
        Instr::MemoryCopy => true,
        _ => false,
    }
}

pub(crate) fn is_fill(instr: &Instr) -> bool
    ensures { result ≡ parts.is_fill (instr_of instr.now) }
{
    match instr {
        Instr::MemoryFill => true,
        _ => false,
    }
}
