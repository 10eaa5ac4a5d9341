//! Why a text isn't taken.

ghost use Rattle.std.specs.Prelude.{◌≡◌, ◌<◌, length, slice_index};
ghost use Rattle.cmd_check_asm.specs.Refusals.{IsWithin, of_text, of_module};
ghost use Rattle.sem_words.specs.Lists.{list_items};

use asm_text::TextFault;
use asm_validate::AsmRefusal;
use bridge_lang::AsmRow;
use sem_words::List;
use thiserror::Error;

/// Why a text isn't taken: what it breaks, and the offset in bytes; or want of memory.
#[derive(Clone, Copy, PartialEq, Eq, Debug, Error)]
pub enum CheckFault {
    #[error("not an accepted module of asm.js")]
    Refused { row: AsmRow, at: u64 },
    #[error("out of memory")]
    Memory,
}

/// The fault of a text that says no module.
pub fn of_text(fault: TextFault) -> CheckFault
    ensures { result ≡ of_text fault }
{
    match fault {
        TextFault::NonAscii { at } => refused(AsmRow::NonAscii, at),
        TextFault::BadToken { at } => refused(AsmRow::BadToken, at),
        TextFault::OpenComment { at } => refused(AsmRow::OpenComment, at),
        TextFault::LiteralForm { at } => refused(AsmRow::LiteralForm, at),
        TextFault::Grammar { at } => refused(AsmRow::Grammar, at),
        TextFault::NoUseAsm { at } => refused(AsmRow::NoUseAsm, at),
        TextFault::Height { at } => refused(AsmRow::Height, at),
        TextFault::Memory => CheckFault::Memory,
    }
}

fn refused(row: AsmRow, at: u64) -> CheckFault
    ensures { result ≡ CheckFault.Refused row at }
{
    CheckFault::Refused { row, at }
}

/// The fault of a module whose nodes have these places.
pub fn of_module(places: &List<u64>, refusal: AsmRefusal) -> CheckFault
    requires { IsWithin (list_items places.now) refusal }
    ensures { result ≡ of_module (list_items places.now) refusal }
{
    match refusal {
        AsmRefusal::Refused { rule, node } => CheckFault::Refused {
            row: AsmRow::Rule(rule),
            at: place(places, node),
        },
        AsmRefusal::Memory => CheckFault::Memory,
    }
}

// The place of a node.
fn place(places: &List<u64>, node: u64) -> u64
    requires { node < length (list_items places.now) }
    ensures { result ≡ slice_index (list_items places.now) node }
{
    places.as_slice()[node as usize]
}
