//! Expressions: instructions one after another, up to the end that closes them.
ghost use Rattle.std.specs.Prelude.{◌≡◌, Ok, Err, IfOk, MatchResult};
ghost use Rattle.wasm_lang.specs.ReadingCode as reading;
ghost use Rattle.wasm_tree.specs.Inputs.{input_of, IsRead, Continues};
ghost use Rattle.wasm_tree.specs.Views.{code_of};
ghost use Rattle.wasm_binary_entries.specs.Views.{instrs_of};
ghost use Rattle.wasm_binary_entries.specs.Lent.{source_of, IsLentCode};
ghost use Rattle.wasm_binary_entries.specs.Openings.{openings_of, IsNext, IsTurned};

use crate::room::list_for;
use sem_words::List;
use std::alloc::{AllocError, Global};
use wasm_lang::code_laws;
use wasm_tree::{Code, Fault, Input, Instr, ReadError, Row, read_instr};

// The most blocks of an expression that stand open at once.
const MOST_LEVELS: usize = 300_000;

// The instructions of most expressions that are kept: a constant, and the end.
const LEAST_INSTRS: usize = 2;

/// How a block that stands open was opened: as the first arm of an if, which an else may follow, or in
/// another way.
#[derive(Clone, Copy, PartialEq, Eq, Debug)]
pub enum Opening {
    Straight,
    FirstArm,
}

// Whether an else may stand here.
fn may_turn(openings: &[Opening]) -> bool
    ensures { result ≡ reading.may_turn (openings_of openings.now) }
{
    match openings {
        [.., last] => *last == Opening::FirstArm,
        [] => false,
    }
}

// Whether the next instruction may stand inside these blocks, the innermost last.
fn may_stand(openings: &[Opening], input: Input<'_>) -> Result<(), Fault>
    ensures { MatchResult result (λ x. reading.may_stand (openings_of openings.now) (input_of input.entry) ≡ Ok tt) (λ fault. reading.may_stand (openings_of openings.now) (input_of input.entry) ≡ Err fault) }
{
    let row = match input.bytes {
        [0x05, ..] if !may_turn(openings) => Row::UnknownByte,
        [0x02..=0x04, ..] if openings.len() >= MOST_LEVELS => Row::Limit,
        _ => return Ok(()),
    };
    Err(Fault { row, at: input.at })
}

// Opens, turns or closes the block that an instruction stands for, and whether it closed the expression.
fn turn(openings: &mut Vec<Opening>, instr: &Instr) -> Result<bool, AllocError>
    ensures { IsTurned openings.old.items instr.now result openings.new.items }
{
    match instr {
        Instr::Block(_) | Instr::Loop(_) => openings.push(Opening::Straight)?,
        Instr::If(_) => openings.push(Opening::FirstArm)?,
        Instr::Else => {
            if openings.pop().is_some() {
                openings.push(Opening::Straight)?;
            }
        }
        Instr::End => return Ok(openings.pop().is_none()),
        _ => {}
    }
    Ok(false)
}

// The next instruction inside these blocks, whether it closed the expression, and what follows it.
fn next<'a>(
    alloc: Global,
    openings: &mut Vec<Opening>,
    input: Input<'a>,
) -> Result<(Instr, bool, Input<'a>), ReadError>
    ensures value { IsNext openings.old.items (input_of input.entry) result openings.new.items }
    ensures follows { IfOk result (λ x. Continues x.2 input.entry) }
{
    may_stand(openings.as_slice(), input)?;
    let (instr, rest) = read_instr(alloc, input)?;
    match turn(openings, &instr) {
        Ok(closed) => Ok((instr, closed, rest)),
        Err(AllocError) => Err(ReadError::Memory),
    }
}

/// An expression, as the list of its instructions.
pub fn instrs<'a>(alloc: Global, input: Input<'a>) -> Result<(List<Instr>, Input<'a>), ReadError>
    ensures value { IsRead instrs_of result (reading.code_field (input_of input.entry)) }
    ensures follows { IfOk result (λ x. Continues x.1 input.entry) }
{
    code_laws();
    let mut openings = Vec::new(alloc);
    let mut list = list_for(alloc, LEAST_INSTRS);
    let mut rest = input;
    for _turn in 0..input.bytes.len() {
        let (instr, closed, after) = next(alloc, &mut openings, rest)?;
        if list.push(instr).is_err() {
            return Err(ReadError::Memory);
        }
        if closed {
            return Ok((list, after));
        }
        rest = after;
    }
    Err(ReadError::Refused(Fault {
        row: Row::SectionSize,
        at: rest.at,
    }))
}

/// An expression, lent from the input.
pub fn code<'a>(alloc: Global, input: Input<'a>) -> Result<(Code<'a>, Input<'a>), ReadError>
    ensures value { IsRead code_of result (reading.code_field (input_of input.entry)) }
    ensures lent { IfOk result (λ x. IsLentCode (source_of input.entry) input.entry.at x.0) }
{
    code_laws();
    let mut openings = Vec::new(alloc);
    let mut rest = input;
    for _turn in 0..input.bytes.len() {
        let (_instr, closed, after) = next(alloc, &mut openings, rest)?;
        if closed {
            let front = &input.bytes[..input.bytes.len() - after.bytes.len()];
            return Ok((Code::Lent(front), after));
        }
        rest = after;
    }
    Err(ReadError::Refused(Fault {
        row: Row::SectionSize,
        at: rest.at,
    }))
}
