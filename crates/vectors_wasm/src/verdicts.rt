//! For each rule of validity a module that breaks it, and one that just doesn't.
use crate::modules::{SUMMING, fault_of_front};
use crate::rows::holds;
use cmd_check_wasm::{CheckFault, counts, rule_number, section_number};
use std::alloc::Global;
use wasm_tree::Row;

/// The printed numbers of a rule and of a section, the item, and the instruction.
type Place = (u8, u8, u64, u64);

/// Why the bytes spell no valid module, where they don't.
pub(crate) fn fault_of(alloc: Global, bytes: &[u8]) -> Option<CheckFault> {
    match counts(alloc, bytes) {
        Ok(_) => None,
        Err(fault) => Some(fault),
    }
}

/// The bytes spell a module that breaks a rule at this place.
fn is_broken(alloc: Global, bytes: &[u8], place: Place) -> bool {
    match fault_of(alloc, bytes) {
        Some(
            CheckFault::Invalid {
                rule,
                section,
                index,
                instruction,
            },
        ) => (
            rule_number(rule),
            section_number(section),
            index,
            instruction,
        ) == place,
        _ => false,
    }
}

/// The rule, the section, the item in it, the instruction of its body; a module that breaks it, and one that doesn't.
static RULES: [(u8, u8, u64, u64, &[u8], &[u8]); 21] = [
    // a function of no type
    (
        1,
        3,
        0,
        0,
        b"\0asm\x01\0\0\0\x03\x02\x01\0\x0a\x04\x01\x02\0\x0b",
        b"\0asm\x01\0\0\0\x01\x04\x01`\0\0\x03\x02\x01\0\x0a\x04\x01\x02\0\x0b",
    ),
    // an export of no function
    (
        2,
        7,
        0,
        0,
        b"\0asm\x01\0\0\0\x07\x05\x01\x01f\0\0",
        b"\0asm\x01\0\0\0\x01\x04\x01`\0\0\x03\x02\x01\0\x07\x05\x01\x01f\0\0\x0a\x04\x01\x02\0\x0b",
    ),
    // elements without a table
    (
        3,
        9,
        0,
        0,
        b"\0asm\x01\0\0\0\x09\x06\x01\0A\0\x0b\0",
        b"\0asm\x01\0\0\0\x04\x04\x01p\0\0\x09\x06\x01\0A\0\x0b\0",
    ),
    // data without a memory
    (
        4,
        11,
        0,
        0,
        b"\0asm\x01\0\0\0\x0b\x06\x01\0A\0\x0b\0",
        b"\0asm\x01\0\0\0\x05\x03\x01\0\0\x0b\x06\x01\0A\0\x0b\0",
    ),
    // an export of no global
    (
        5,
        7,
        0,
        0,
        b"\0asm\x01\0\0\0\x07\x05\x01\x01g\x03\0",
        b"\0asm\x01\0\0\0\x06\x06\x01\x7f\0A\0\x0b\x07\x05\x01\x01g\x03\0",
    ),
    // local.get of no local
    (
        6,
        10,
        0,
        0,
        b"\0asm\x01\0\0\0\x01\x04\x01`\0\0\x03\x02\x01\0\x0a\x07\x01\x05\0 \0\x1a\x0b",
        b"\0asm\x01\0\0\0\x01\x04\x01`\0\0\x03\x02\x01\0\x0a\x09\x01\x07\x01\x01\x7f \0\x1a\x0b",
    ),
    // a branch past the outermost label
    (
        7,
        10,
        0,
        0,
        b"\0asm\x01\0\0\0\x01\x04\x01`\0\0\x03\x02\x01\0\x0a\x06\x01\x04\0\x0c\x01\x0b",
        b"\0asm\x01\0\0\0\x01\x04\x01`\0\0\x03\x02\x01\0\x0a\x06\x01\x04\0\x0c\0\x0b",
    ),
    // i32.add of an i64
    (
        8,
        10,
        0,
        2,
        b"\0asm\x01\0\0\0\x01\x04\x01`\0\0\x03\x02\x01\0\x0a\x0a\x01\x08\0B\0A\0j\x1a\x0b",
        b"\0asm\x01\0\0\0\x01\x04\x01`\0\0\x03\x02\x01\0\x0a\x0a\x01\x08\0A\0A\0j\x1a\x0b",
    ),
    // drop of nothing
    (
        9,
        10,
        0,
        0,
        b"\0asm\x01\0\0\0\x01\x04\x01`\0\0\x03\x02\x01\0\x0a\x05\x01\x03\0\x1a\x0b",
        b"\0asm\x01\0\0\0\x01\x04\x01`\0\0\x03\x02\x01\0\x0a\x07\x01\x05\0A\0\x1a\x0b",
    ),
    // an operand left at the end
    (
        10,
        10,
        0,
        1,
        b"\0asm\x01\0\0\0\x01\x04\x01`\0\0\x03\x02\x01\0\x0a\x06\x01\x04\0A\0\x0b",
        b"\0asm\x01\0\0\0\x01\x05\x01`\0\x01\x7f\x03\x02\x01\0\x0a\x06\x01\x04\0A\0\x0b",
    ),
    // i32.load aligned to eight bytes
    (
        11,
        10,
        0,
        1,
        b"\0asm\x01\0\0\0\x01\x04\x01`\0\0\x03\x02\x01\0\x05\x03\x01\0\x01\x0a\x0a\x01\x08\0A\0(\x03\0\x1a\x0b",
        b"\0asm\x01\0\0\0\x01\x04\x01`\0\0\x03\x02\x01\0\x05\x03\x01\0\x01\x0a\x0a\x01\x08\0A\0(\x02\0\x1a\x0b",
    ),
    // global.set of a constant
    (
        12,
        10,
        0,
        1,
        b"\0asm\x01\0\0\0\x01\x04\x01`\0\0\x03\x02\x01\0\x06\x06\x01\x7f\0A\0\x0b\x0a\x08\x01\x06\0A\0$\0\x0b",
        b"\0asm\x01\0\0\0\x01\x04\x01`\0\0\x03\x02\x01\0\x06\x06\x01\x7f\x01A\0\x0b\x0a\x08\x01\x06\0A\0$\0\x0b",
    ),
    // an i32 that begins as an i64
    (
        13,
        6,
        0,
        0,
        b"\0asm\x01\0\0\0\x06\x06\x01\x7f\0B\0\x0b",
        b"\0asm\x01\0\0\0\x06\x06\x01~\0B\0\x0b",
    ),
    // a memory of at least two pages and at most one
    (
        14,
        5,
        0,
        0,
        b"\0asm\x01\0\0\0\x05\x04\x01\x01\x02\x01",
        b"\0asm\x01\0\0\0\x05\x04\x01\x01\x01\x01",
    ),
    // two memories
    (
        15,
        5,
        1,
        0,
        b"\0asm\x01\0\0\0\x05\x05\x02\0\x01\0\x01",
        b"\0asm\x01\0\0\0\x05\x03\x01\0\x01",
    ),
    // two tables
    (
        16,
        4,
        1,
        0,
        b"\0asm\x01\0\0\0\x04\x07\x02p\0\x01p\0\x01",
        b"\0asm\x01\0\0\0\x04\x04\x01p\0\x01",
    ),
    // a name exported twice
    (
        17,
        7,
        1,
        0,
        b"\0asm\x01\0\0\0\x01\x04\x01`\0\0\x03\x02\x01\0\x07\x09\x02\x01a\0\0\x01a\0\0\x0a\x04\x01\x02\0\x0b",
        b"\0asm\x01\0\0\0\x01\x04\x01`\0\0\x03\x02\x01\0\x07\x09\x02\x01a\0\0\x01b\0\0\x0a\x04\x01\x02\0\x0b",
    ),
    // a start function with a parameter
    (
        18,
        8,
        0,
        0,
        b"\0asm\x01\0\0\0\x01\x06\x01`\x01\x7f\x01\x7f\x03\x02\x01\0\x08\x01\0\x0a\x06\x01\x04\0 \0\x0b",
        b"\0asm\x01\0\0\0\x01\x04\x01`\0\0\x03\x02\x01\0\x08\x01\0\x0a\x04\x01\x02\0\x0b",
    ),
    // br_table with labels of two types
    (
        19,
        10,
        0,
        3,
        b"\0asm\x01\0\0\0\x01\x05\x01`\0\x01\x7f\x03\x02\x01\0\x0a\x11\x01\x0f\0\x02@A\x01A\0\x0e\x01\0\x01\x0bA\0\x0b",
        b"\0asm\x01\0\0\0\x01\x04\x01`\0\0\x03\x02\x01\0\x0a\x0d\x01\x0b\0\x02@A\0\x0e\x01\0\x01\x0b\x0b",
    ),
    // an if with a result and without else
    (
        20,
        10,
        0,
        3,
        b"\0asm\x01\0\0\0\x01\x05\x01`\0\x01\x7f\x03\x02\x01\0\x0a\x0b\x01\x09\0A\0\x04\x7fA\0\x0b\x0b",
        b"\0asm\x01\0\0\0\x01\x05\x01`\0\x01\x7f\x03\x02\x01\0\x0a\x0e\x01\x0c\0A\0\x04\x7fA\0\x05A\0\x0b\x0b",
    ),
    // a function type of two results
    (
        21,
        1,
        0,
        0,
        b"\0asm\x01\0\0\0\x01\x06\x01`\0\x02\x7f\x7f",
        b"\0asm\x01\0\0\0\x01\x05\x01`\0\x01\x7f",
    ),
];

#[test]
fn each_rule_is_told_where_it_is_broken(rt: HostRuntime) {
    for row in RULES.iter() {
        let (rule, section, index, instruction, breaks, keeps) = *row;
        let place = (rule, section, index, instruction);
        holds(&rt, rule as usize, is_broken(rt.alloc(), breaks, place));
        // the row of a module that keeps the rule counts from 100 on
        let fault = fault_of(rt.alloc(), keeps);
        holds(&rt, rule as usize + 100, fault.is_none());
    }
}

static BRANCHES: [&[u8]; 3] = [
    // a sum after a branch, where the stack is open below
    b"\0asm\x01\0\0\0\x01\x04\x01`\0\0\x03\x02\x01\0\x0a\x0b\x01\x09\0\x02@\x0c\0j\x1a\x0b\x0b",
    // a branch to a loop
    b"\0asm\x01\0\0\0\x01\x04\x01`\0\0\x03\x02\x01\0\x0a\x09\x01\x07\0\x03@\x0c\0\x0b\x0b",
    // an if with both arms
    b"\0asm\x01\0\0\0\x01\x05\x01`\0\x01\x7f\x03\x02\x01\0\x0a\x0d\x01\x0b\0A\0\x04\x7fA\0\x05\0\x0b\x0b",
];

#[test]
fn blocks_and_branches_are_valid(rt: HostRuntime) {
    for (number, bytes) in BRANCHES.iter().enumerate() {
        holds(&rt, number, fault_of(rt.alloc(), bytes).is_none());
    }
}

/// The bytes aren't of the binary format by this row, at their end; or they are a valid module.
fn is_front(alloc: Global, bytes: &[u8], wanted: Option<Row>) -> bool {
    match (fault_of(alloc, bytes), wanted) {
        (Some(CheckFault::Binary { row, at }), Some(wanted)) => {
            row == wanted && at == bytes.len() as u64
        }
        (None, None) => true,
        _ => false,
    }
}

#[test]
fn every_front_of_a_module_has_its_answer(rt: HostRuntime) {
    for n in 0..SUMMING.len() + 1 {
        holds(
            &rt,
            n,
            is_front(rt.alloc(), &SUMMING[..n], fault_of_front(n)),
        );
    }
}

const COUNTED: &[u8] = b"wasm functions 1 imports 0 exports 1\n";

#[test]
fn counts_are_printed(rt: HostRuntime) {
    match counts(rt.alloc(), SUMMING) {
        Ok(line) => holds(&rt, 0, line.as_slice() == COUNTED),
        Err(_) => holds(&rt, 1, false),
    }
}
