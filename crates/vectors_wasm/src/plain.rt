//! What single instructions do to operands, variables and the memory.
ghost use Rattle.wasm_tree.specs.Views.{instr_of};
ghost use Rattle.wasm_run_plain.specs.Forms.{IsForm};

use crate::rows::holds;
use heap_views::Heap;
use sem_words::{Bin, Rel, TrapKind, Word};
use std::alloc::Global;
use std::process::Abort;
use wasm_lang::MemOp;
use wasm_run_plain::{Effect, Operands, State, do_plain};
use wasm_tree::Instr;

const WORD32: MemOp = MemOp {
    wide: false,
    size: 4,
    signed: false,
};

const WORD64: MemOp = MemOp {
    wide: true,
    size: 8,
    signed: false,
};

const SIGNED_BYTE: MemOp = MemOp {
    wide: true,
    size: 1,
    signed: true,
};

const OUTSIDE: Effect = Effect::Traps(TrapKind::Memory);

/// The instructions of the rows. A table can't hold an `Instr`, which may own a list.
#[derive(Clone, Copy)]
enum Named {
    Bin32(Bin),
    Bin64(Bin),
    Rel32(Rel),
    ExtendByte,
    ExtendWideWord,
    ExtendS,
    Select,
    Drop,
    LoadWord(u32),
    LoadSignedByte(u32),
    StoreWide(u32),
    MemorySize,
    MemoryCopy,
    MemoryFill,
    LocalGet(u32),
    LocalTee(u32),
    GlobalGet(u32),
    GlobalSet(u32),
}

fn instr(named: Named) -> Instr
    ensures { IsForm (instr_of result) }
{
    match named {
        Named::Bin32(op) => Instr::Bin32(op),
        Named::Bin64(op) => Instr::Bin64(op),
        Named::Rel32(op) => Instr::Rel32(op),
        Named::ExtendByte => Instr::SignExtend {
            wide: false,
            bits: 8,
        },
        Named::ExtendWideWord => Instr::SignExtend {
            wide: true,
            bits: 32,
        },
        Named::ExtendS => Instr::ExtendS,
        Named::Select => Instr::Select,
        Named::Drop => Instr::Drop,
        Named::LoadWord(offset) => Instr::Load(WORD32, 0, offset),
        Named::LoadSignedByte(offset) => Instr::Load(SIGNED_BYTE, 0, offset),
        Named::StoreWide(offset) => Instr::Store(WORD64, 0, offset),
        Named::MemorySize => Instr::MemorySize,
        Named::MemoryCopy => Instr::MemoryCopy,
        Named::MemoryFill => Instr::MemoryFill,
        Named::LocalGet(local) => Instr::LocalGet(local),
        Named::LocalTee(local) => Instr::LocalTee(local),
        Named::GlobalGet(global) => Instr::GlobalGet(global),
        Named::GlobalSet(global) => Instr::GlobalSet(global),
    }
}

/// What is done to the run, and what comes of it.
enum Step {
    /// With these operands, the topmost last, the instruction goes, and leaves this one topmost.
    Gives(Named, &'static [Word], Option<Word>),
    /// With these operands the instruction has this effect.
    Ends(Named, &'static [Word], Effect),
    /// These bytes are put into the memory.
    Put(u32, &'static [u8]),
    /// So many bytes of the memory, from a place on, are these.
    Run(u32, u32, &'static [u8]),
}

// These operands are put on top, the topmost last.
fn are_put(operands: &mut Operands, words: &[Word]) -> bool {
    let mut are = true;
    for word in words {
        are &= operands.push(*word).is_ok();
    }
    are
}

// The instruction has this effect.
fn does(
    named: Named,
    operands: &mut Operands,
    locals: &mut [Word],
    state: &mut State,
    wanted: Effect,
) -> bool {
    match do_plain(&instr(named), operands, locals, state) {
        Ok(effect) => effect == wanted,
        Err(_) => false,
    }
}

// With these operands, and no locals, the instruction has this effect. What is topmost then is as wanted, where that is asked.
fn ends(
    alloc: Global,
    named: Named,
    words: &[Word],
    state: &mut State,
    wanted: Effect,
    top: Option<Option<Word>>,
) -> bool {
    let mut operands = Operands::new(alloc);
    are_put(&mut operands, words)
        && does(named, &mut operands, &mut [], state, wanted)
        && match top {
            Some(top) => operands.pop() == top,
            None => true,
        }
}

fn run_is(state: &State, at: u32, len: u32, wanted: &[u8]) -> bool {
    match state.memory.byte_run(at, len) {
        Some(run) => run == wanted,
        None => false,
    }
}

fn is_step(alloc: Global, step: &Step, state: &mut State) -> bool {
    match *step {
        Step::Gives(named, words, top) => ends(alloc, named, words, state, Effect::Goes, Some(top)),
        Step::Ends(named, words, effect) => ends(alloc, named, words, state, effect, None),
        Step::Put(at, bytes) => state.memory.put(at, bytes),
        Step::Run(at, len, bytes) => run_is(state, at, len, bytes),
    }
}

/// A run with one page of zeros, and nothing else, comes to all of this, step by step.
fn plays(rt: &impl Abort, alloc: Global, steps: &[Step]) {
    match Heap::new(alloc, 65536) {
        Ok(memory) => {
            let mut state = State {
                memory,
                globals: Vec::new(alloc),
                table: Vec::new(alloc),
            };
            for (number, step) in steps.iter().enumerate() {
                holds(rt, number, is_step(alloc, step, &mut state));
            }
        }
        Err(_) => holds(rt, 0, false),
    }
}

const SHIFT: &[Word] = &[Word::W32(1), Word::W32(33)];

static OPERATORS: [Step; 4] = [
    Step::Gives(
        Named::Bin64(Bin::Add),
        &[Word::W64(u64::MAX), Word::W64(2)],
        Some(Word::W64(1)),
    ),
    Step::Gives(
        Named::Bin64(Bin::Mul),
        &[Word::W64(0x1_0000_0001), Word::W64(0x1_0000_0001)],
        Some(Word::W64(0x2_0000_0001)),
    ),
    Step::Gives(Named::Bin32(Bin::Shl), SHIFT, Some(Word::W32(2))),
    Step::Ends(Named::Bin64(Bin::Shl), SHIFT, Effect::Sticks),
];

#[test]
fn operators(rt: HostRuntime) {
    plays(&rt, rt.alloc(), &OPERATORS);
}

const LEAST: &[Word] = &[Word::W32(0x8000_0000), Word::W32(0xffff_ffff)];

static OF_THE_LEAST_WORD: [Step; 3] = [
    Step::Gives(Named::Bin32(Bin::RemS), LEAST, Some(Word::W32(0))),
    Step::Ends(
        Named::Bin32(Bin::DivS),
        LEAST,
        Effect::Traps(TrapKind::Overflow),
    ),
    Step::Gives(Named::Rel32(Rel::LtS), LEAST, Some(Word::W32(1))),
];

#[test]
fn operators_of_the_least_word(rt: HostRuntime) {
    plays(&rt, rt.alloc(), &OF_THE_LEAST_WORD);
}

static EXTENSIONS: [Step; 5] = [
    Step::Gives(
        Named::ExtendByte,
        &[Word::W32(0x180)],
        Some(Word::W32(0xffff_ff80)),
    ),
    Step::Gives(
        Named::ExtendWideWord,
        &[Word::W64(0x1_8000_0000)],
        Some(Word::W64(0xffff_ffff_8000_0000)),
    ),
    Step::Gives(
        Named::ExtendS,
        &[Word::W32(0x8000_0000)],
        Some(Word::W64(0xffff_ffff_8000_0000)),
    ),
    Step::Gives(
        Named::Select,
        &[Word::W64(1), Word::W64(2), Word::W32(0)],
        Some(Word::W64(2)),
    ),
    Step::Gives(
        Named::Select,
        &[Word::W64(1), Word::W64(2), Word::W32(7)],
        Some(Word::W64(1)),
    ),
];

#[test]
fn sign_extensions_and_select(rt: HostRuntime) {
    plays(&rt, rt.alloc(), &EXTENSIONS);
}

const STORED: &[u8] = &[0x12, 0x34, 0x56, 0x78, 0x9a, 0xbc, 0xde, 0xf0];

static STORES: [Step; 3] = [
    Step::Gives(
        Named::StoreWide(8),
        &[Word::W32(65520), Word::W64(0xf0de_bc9a_7856_3412)],
        None,
    ),
    Step::Ends(
        Named::StoreWide(8),
        &[Word::W32(65521), Word::W64(u64::MAX)],
        OUTSIDE,
    ),
    Step::Run(65528, 8, STORED),
];

#[test]
fn stores_at_the_end_of_the_memory(rt: HostRuntime) {
    plays(&rt, rt.alloc(), &STORES);
}

static LOADS: [Step; 6] = [
    Step::Put(65528, STORED),
    Step::Gives(
        Named::LoadWord(2),
        &[Word::W32(65530)],
        Some(Word::W32(0xf0de_bc9a)),
    ),
    Step::Ends(Named::LoadWord(2), &[Word::W32(65531)], OUTSIDE),
    Step::Ends(Named::LoadWord(2), &[Word::W32(u32::MAX)], OUTSIDE),
    Step::Gives(
        Named::LoadSignedByte(0),
        &[Word::W32(65535)],
        Some(Word::W64(0xffff_ffff_ffff_fff0)),
    ),
    Step::Gives(Named::MemorySize, &[], Some(Word::W32(1))),
];

#[test]
fn loads_at_the_end_of_the_memory(rt: HostRuntime) {
    plays(&rt, rt.alloc(), &LOADS);
}

static COPIES: [Step; 5] = [
    Step::Put(0, &[1, 2, 3, 4, 5]),
    Step::Ends(
        Named::MemoryCopy,
        &[Word::W32(1), Word::W32(0), Word::W32(5)],
        Effect::Goes,
    ),
    Step::Run(0, 7, &[1, 1, 2, 3, 4, 5, 0]),
    Step::Ends(
        Named::MemoryCopy,
        &[Word::W32(0), Word::W32(1), Word::W32(5)],
        Effect::Goes,
    ),
    Step::Run(0, 7, &[1, 2, 3, 4, 5, 5, 0]),
];

#[test]
fn copies_within_the_memory(rt: HostRuntime) {
    plays(&rt, rt.alloc(), &COPIES);
}

static FILLS: [Step; 4] = [
    Step::Ends(
        Named::MemoryFill,
        &[Word::W32(65534), Word::W32(0x1ff), Word::W32(2)],
        Effect::Goes,
    ),
    Step::Run(65533, 3, &[0, 255, 255]),
    Step::Ends(
        Named::MemoryFill,
        &[Word::W32(65536), Word::W32(7), Word::W32(1)],
        OUTSIDE,
    ),
    Step::Ends(
        Named::MemoryFill,
        &[Word::W32(65536), Word::W32(7), Word::W32(0)],
        Effect::Goes,
    ),
];

#[test]
fn fills_of_the_memory(rt: HostRuntime) {
    plays(&rt, rt.alloc(), &FILLS);
}

/// Instructions one after the other, from 9 on top, over two locals and one global.
static VARIABLES: [(Named, Effect); 4] = [
    (Named::LocalTee(1), Effect::Goes),
    (Named::GlobalSet(0), Effect::Goes),
    (Named::LocalGet(1), Effect::Goes),
    (Named::GlobalGet(0), Effect::Goes),
];

/// Instructions that have no next step in a function of two locals that has just been entered.
static STUCK: [(Named, Effect); 2] = [
    (Named::Drop, Effect::Sticks),
    (Named::LocalGet(2), Effect::Sticks),
];

/// All instructions have the effects of their rows, which count from `first` on.
fn all_do(
    rt: &impl Abort,
    operands: &mut Operands,
    locals: &mut [Word],
    state: &mut State,
    rows: &[(Named, Effect)],
    first: usize,
) {
    for (number, (named, effect)) in rows.iter().enumerate() {
        holds(
            rt,
            number.saturating_add(first),
            does(*named, operands, locals, state, *effect),
        );
    }
}

#[test]
fn variables(rt: HostRuntime) {
    let alloc = rt.alloc();
    let mut locals = [Word::W32(0), Word::W64(0)];
    let mut operands = Operands::new(alloc);
    holds(&rt, 8, are_put(&mut operands, &[Word::W64(9)]));
    match (
        Heap::new(alloc, 65536),
        Vec::from_slice(alloc, &[Word::W32(5)]),
    ) {
        (Ok(memory), Ok(globals)) => {
            let table = Vec::new(alloc);
            let mut state = State {
                memory,
                globals,
                table,
            };
            all_do(&rt, &mut operands, &mut locals, &mut state, &VARIABLES, 0);
            holds(&rt, 4, locals == [Word::W32(0), Word::W64(9)]);
            holds(&rt, 5, operands.pop() == Some(Word::W64(9)));
            operands.enter();
            all_do(&rt, &mut operands, &mut locals, &mut state, &STUCK, 6);
        }
        _ => holds(&rt, 9, false),
    }
}
