//! The names of instructions, and the forms that they name.

ghost use Rattle.std.specs.Prelude.{◌≡◌, ◌<◌, bytes_eq, option_map};
ghost use Rattle.std.specs.Map.{lookup};
ghost use Rattle.wat_lang.specs.Words.{form_named, instruction_names};
ghost use Rattle.wat_grammar.specs.Tables.{entries, key_of, with_key};
ghost use Rattle.wat_grammar.specs.Views.{form_of};

use crate::bytes::same_bytes;
use crate::form::{Access, Form};
use sem_words::{Bin, Rel, Un};

/// A name and the form that it names.
type Entry = (&'static [u8], Form);

// The names by their keys, so that a word is compared with six at most.

static NAMES_0: [Entry; 6] = [
    (
        b"i32.load8_s",
        Form::Load(Access {
            wide: false,
            size: 1,
            signed: true,
        }),
    ),
    (
        b"i64.load8_s",
        Form::Load(Access {
            wide: true,
            size: 1,
            signed: true,
        }),
    ),
    (b"i32.const", Form::Const32),
    (b"i64.const", Form::Const64),
    (b"i32.sub", Form::Bin32(Bin::Sub)),
    (b"i64.sub", Form::Bin64(Bin::Sub)),
];

static NAMES_1: [Entry; 6] = [
    (b"local.tee", Form::LocalTee),
    (
        b"i32.load16_s",
        Form::Load(Access {
            wide: false,
            size: 2,
            signed: true,
        }),
    ),
    (
        b"i64.load16_s",
        Form::Load(Access {
            wide: true,
            size: 2,
            signed: true,
        }),
    ),
    (
        b"i64.load32_s",
        Form::Load(Access {
            wide: true,
            size: 4,
            signed: true,
        }),
    ),
    (b"i32.popcnt", Form::Un32(Un::Popcnt)),
    (b"i64.popcnt", Form::Un64(Un::Popcnt)),
];

static NAMES_2: [Entry; 5] = [
    (b"select", Form::Select),
    (b"i32.lt_s", Form::Rel32(Rel::LtS)),
    (b"i32.gt_s", Form::Rel32(Rel::GtS)),
    (b"i64.lt_s", Form::Rel64(Rel::LtS)),
    (b"i64.gt_s", Form::Rel64(Rel::GtS)),
];

static NAMES_3: [Entry; 2] = [
    (b"nop", Form::Nop),
    (
        b"i64.store32",
        Form::Store(Access {
            wide: true,
            size: 4,
            signed: false,
        }),
    ),
];

static NAMES_4: [Entry; 4] = [
    (b"loop", Form::Loop),
    (b"drop", Form::Drop),
    (
        b"i32.load8_u",
        Form::Load(Access {
            wide: false,
            size: 1,
            signed: false,
        }),
    ),
    (
        b"i64.load8_u",
        Form::Load(Access {
            wide: true,
            size: 1,
            signed: false,
        }),
    ),
];

static NAMES_5: [Entry; 3] = [
    (
        b"i32.load16_u",
        Form::Load(Access {
            wide: false,
            size: 2,
            signed: false,
        }),
    ),
    (
        b"i64.load16_u",
        Form::Load(Access {
            wide: true,
            size: 2,
            signed: false,
        }),
    ),
    (
        b"i64.load32_u",
        Form::Load(Access {
            wide: true,
            size: 4,
            signed: false,
        }),
    ),
];

static NAMES_6: [Entry; 6] = [
    (b"br", Form::Br),
    (b"i32.lt_u", Form::Rel32(Rel::LtU)),
    (b"i32.gt_u", Form::Rel32(Rel::GtU)),
    (b"i64.lt_u", Form::Rel64(Rel::LtU)),
    (b"i64.gt_u", Form::Rel64(Rel::GtU)),
    (b"i32.wrap_i64", Form::Wrap),
];

static NAMES_7: [Entry; 6] = [
    (
        b"i32.store",
        Form::Store(Access {
            wide: false,
            size: 4,
            signed: false,
        }),
    ),
    (
        b"i64.store",
        Form::Store(Access {
            wide: true,
            size: 8,
            signed: false,
        }),
    ),
    (b"i32.clz", Form::Un32(Un::Clz)),
    (b"i32.shl", Form::Bin32(Bin::Shl)),
    (b"i64.clz", Form::Un64(Un::Clz)),
    (b"i64.shl", Form::Bin64(Bin::Shl)),
];

static NAMES_11: [Entry; 5] = [
    (b"end", Form::End),
    (
        b"i32.store16",
        Form::Store(Access {
            wide: false,
            size: 2,
            signed: false,
        }),
    ),
    (
        b"i64.store16",
        Form::Store(Access {
            wide: true,
            size: 2,
            signed: false,
        }),
    ),
    (
        b"i32.extend8_s",
        Form::SignExtend {
            wide: false,
            bits: 8,
        },
    ),
    (
        b"i64.extend8_s",
        Form::SignExtend {
            wide: true,
            bits: 8,
        },
    ),
];

static NAMES_12: [Entry; 5] = [
    (b"i32.eqz", Form::Eqz32),
    (b"i64.eqz", Form::Eqz64),
    (
        b"i32.extend16_s",
        Form::SignExtend {
            wide: false,
            bits: 16,
        },
    ),
    (
        b"i64.extend16_s",
        Form::SignExtend {
            wide: true,
            bits: 16,
        },
    ),
    (
        b"i64.extend32_s",
        Form::SignExtend {
            wide: true,
            bits: 32,
        },
    ),
];

static NAMES_14: [Entry; 6] = [
    (b"if", Form::If),
    (b"else", Form::Else),
    (
        b"i32.store8",
        Form::Store(Access {
            wide: false,
            size: 1,
            signed: false,
        }),
    ),
    (
        b"i64.store8",
        Form::Store(Access {
            wide: true,
            size: 1,
            signed: false,
        }),
    ),
    (b"memory.size", Form::MemorySize),
    (b"i64.extend_i32_s", Form::ExtendS),
];

static NAMES_15: [Entry; 4] = [
    (b"i32.ctz", Form::Un32(Un::Ctz)),
    (b"i32.rotl", Form::Bin32(Bin::Rotl)),
    (b"i64.ctz", Form::Un64(Un::Ctz)),
    (b"i64.rotl", Form::Bin64(Bin::Rotl)),
];

static NAMES_16: [Entry; 1] = [(b"return", Form::Return)];

static NAMES_17: [Entry; 1] = [(b"br_if", Form::BrIf)];

static NAMES_18: [Entry; 1] = [(b"i64.extend_i32_u", Form::ExtendU)];

static NAMES_19: [Entry; 6] = [
    (b"i32.le_s", Form::Rel32(Rel::LeS)),
    (b"i32.ge_s", Form::Rel32(Rel::GeS)),
    (b"i64.le_s", Form::Rel64(Rel::LeS)),
    (b"i64.ge_s", Form::Rel64(Rel::GeS)),
    (b"i32.add", Form::Bin32(Bin::Add)),
    (b"i64.add", Form::Bin64(Bin::Add)),
];

static NAMES_20: [Entry; 5] = [
    (b"br_table", Form::BrTable),
    (b"i32.mul", Form::Bin32(Bin::Mul)),
    (b"i32.rem_s", Form::Bin32(Bin::RemS)),
    (b"i64.mul", Form::Bin64(Bin::Mul)),
    (b"i64.rem_s", Form::Bin64(Bin::RemS)),
];

static NAMES_21: [Entry; 2] = [
    (b"i32.ne", Form::Rel32(Rel::Ne)),
    (b"i64.ne", Form::Rel64(Rel::Ne)),
];

static NAMES_22: [Entry; 1] = [(b"memory.copy", Form::MemoryCopy)];

static NAMES_23: [Entry; 6] = [
    (b"i32.le_u", Form::Rel32(Rel::LeU)),
    (b"i32.ge_u", Form::Rel32(Rel::GeU)),
    (b"i64.le_u", Form::Rel64(Rel::LeU)),
    (b"i64.ge_u", Form::Rel64(Rel::GeU)),
    (b"i32.shr_s", Form::Bin32(Bin::ShrS)),
    (b"i64.shr_s", Form::Bin64(Bin::ShrS)),
];

static NAMES_24: [Entry; 5] = [
    (b"unreachable", Form::Unreachable),
    (b"i32.div_s", Form::Bin32(Bin::DivS)),
    (b"i32.rem_u", Form::Bin32(Bin::RemU)),
    (b"i64.div_s", Form::Bin64(Bin::DivS)),
    (b"i64.rem_u", Form::Bin64(Bin::RemU)),
];

static NAMES_25: [Entry; 2] = [
    (b"i32.eq", Form::Rel32(Rel::Eq)),
    (b"i64.eq", Form::Rel64(Rel::Eq)),
];

static NAMES_26: [Entry; 2] = [
    (b"i32.xor", Form::Bin32(Bin::Xor)),
    (b"i64.xor", Form::Bin64(Bin::Xor)),
];

static NAMES_27: [Entry; 5] = [
    (b"block", Form::Block),
    (b"i32.shr_u", Form::Bin32(Bin::ShrU)),
    (b"i32.rotr", Form::Bin32(Bin::Rotr)),
    (b"i64.shr_u", Form::Bin64(Bin::ShrU)),
    (b"i64.rotr", Form::Bin64(Bin::Rotr)),
];

static NAMES_28: [Entry; 6] = [
    (b"call", Form::Call),
    (b"i32.div_u", Form::Bin32(Bin::DivU)),
    (b"i32.or", Form::Bin32(Bin::Or)),
    (b"i64.div_u", Form::Bin64(Bin::DivU)),
    (b"i64.or", Form::Bin64(Bin::Or)),
    (b"memory.fill", Form::MemoryFill),
];

static NAMES_29: [Entry; 2] = [
    (b"i32.and", Form::Bin32(Bin::And)),
    (b"i64.and", Form::Bin64(Bin::And)),
];

static NAMES_30: [Entry; 3] = [
    (b"call_indirect", Form::CallIndirect),
    (b"global.get", Form::GlobalGet),
    (b"global.set", Form::GlobalSet),
];

static NAMES_31: [Entry; 4] = [
    (b"local.get", Form::LocalGet),
    (b"local.set", Form::LocalSet),
    (
        b"i32.load",
        Form::Load(Access {
            wide: false,
            size: 4,
            signed: false,
        }),
    ),
    (
        b"i64.load",
        Form::Load(Access {
            wide: true,
            size: 8,
            signed: false,
        }),
    ),
];

/// A number below 32 that differs for most names.
fn key_of(word: &[u8]) -> usize
    ensures below { result < 32 }
    ensures is { result ≡ key_of word.now }
{
    match word {
        [.., last] => {
            let sixth = match word.get(5) {
                Some(byte) => *byte as usize,
                None => 0,
            };
            (word.len() % 32 + sixth + 2 * *last as usize) % 32
        }
        [] => 0,
    }
}

/// The names with the key.
fn names_with(key: usize) -> &'static [Entry]
    requires { key < 32 }
    ensures { entries result.now ≡ with_key key instruction_names }
{
    match key {
        0 => &NAMES_0,
        1 => &NAMES_1,
        2 => &NAMES_2,
        3 => &NAMES_3,
        4 => &NAMES_4,
        5 => &NAMES_5,
        6 => &NAMES_6,
        7 => &NAMES_7,
        11 => &NAMES_11,
        12 => &NAMES_12,
        14 => &NAMES_14,
        15 => &NAMES_15,
        16 => &NAMES_16,
        17 => &NAMES_17,
        18 => &NAMES_18,
        19 => &NAMES_19,
        20 => &NAMES_20,
        21 => &NAMES_21,
        22 => &NAMES_22,
        23 => &NAMES_23,
        24 => &NAMES_24,
        25 => &NAMES_25,
        26 => &NAMES_26,
        27 => &NAMES_27,
        28 => &NAMES_28,
        29 => &NAMES_29,
        30 => &NAMES_30,
        31 => &NAMES_31,
        _ => &[],
    }
}

/// The form that the table has for the word.
fn form_in(table: &[Entry], word: &[u8]) -> Option<Form>
    ensures { option_map form_of result ≡ lookup (bytes_eq word.now) (entries table.now) }
{
    for (name, form) in table {
        if same_bytes(word, name) {
            return Some(*form);
        }
    }
    None
}

/// The form that a word names.
pub fn form_named(word: &[u8]) -> Option<Form>
    ensures { option_map form_of result ≡ form_named word.now }
{
    form_in(names_with(key_of(word)), word)
}
