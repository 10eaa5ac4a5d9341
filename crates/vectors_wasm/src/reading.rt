//! Worked rows.

use crate::modules::{ADDING, LOADING, fault_of_front};
use crate::rows::holds;
use std::alloc::{AllocError, Global};
use wasm_binary::{BinFault, Row, read};

// How bytes are read: the numbers of functions and of data segments, or the fault.
fn told(alloc: Global, bytes: &[u8]) -> Result<(usize, usize), BinFault> {
    match read(alloc, bytes) {
        Ok(module) => Ok((module.functions.len(), module.segments.len())),
        Err(fault) => Err(fault),
    }
}

// The bytes are read so.
fn is_told(alloc: Global, bytes: &[u8], wanted: Result<(usize, usize), BinFault>) -> bool {
    match (told(alloc, bytes), wanted) {
        (Ok((functions, segments)), Ok(wanted)) => functions == wanted.0 && segments == wanted.1,
        (Err(fault), Err(wanted)) => fault == wanted,
        _ => false,
    }
}

fn refused(row: Row, at: u64) -> Result<(usize, usize), BinFault> {
    Err(BinFault::Refused { row, at })
}

// How so many bytes from the front of `ADDING` are read.
fn of_front(length: usize) -> Result<(usize, usize), BinFault> {
    match fault_of_front(length) {
        Some(row) => refused(row, length as u64),
        None => Ok((if length == ADDING.len() { 1 } else { 0 }, 0)),
    }
}

#[test]
fn the_bytes_of_a_module_end_early(rt: HostRuntime) {
    for n in 0..ADDING.len() + 1 {
        holds(&rt, n, is_told(rt.alloc(), &ADDING[..n], of_front(n)));
    }
}

/// Bytes that are read, and how many functions and data segments they have.
static MODULES: [(&[u8], (usize, usize)); 7] = [
    // a load from the memory, and bytes in it
    (LOADING, (1, 1)),
    // a sign extension
    (
        b"\0asm\x01\0\0\0\x01\x06\x01\x60\x01\x7f\x01\x7f\x03\x02\x01\0\x07\x05\x01\x01\x65\0\0\x0a\x07\x01\x05\0\x20\0\xc0\x0b",
        (1, 0),
    ),
    // no types, with a size and a count that are padded, and with a padded count alone
    (
        b"\0asm\x01\0\0\0\x01\x85\x80\x80\x80\0\x80\x80\x80\x80\0",
        (0, 0),
    ),
    (b"\0asm\x01\0\0\0\x01\x05\x80\x80\x80\x80\0", (0, 0)),
    // a data count of none
    (b"\0asm\x01\0\0\0\x0c\x01\0", (0, 0)),
    // the data count 1 before the code, and the data section after it
    (
        b"\0asm\x01\0\0\0\x05\x03\x01\0\x01\x0c\x01\x01\x0a\x01\0\x0b\x07\x01\0\x41\0\x0b\x01\x09",
        (0, 1),
    ),
    // memory.copy and memory.fill
    (
        b"\0asm\x01\0\0\0\x01\x04\x01\x60\0\0\x03\x02\x01\0\x0a\x0b\x01\x09\0\xfc\x0a\0\0\xfc\x0b\0\x0b",
        (1, 0),
    ),
];

#[test]
fn modules_are_read(rt: HostRuntime) {
    for (number, (bytes, counts)) in MODULES.iter().enumerate() {
        holds(&rt, number, is_told(rt.alloc(), bytes, Ok(*counts)));
    }
}

/// Bytes that spell no module, what is wrong first, and where.
static FAULTS: [(&[u8], Row, u64); 21] = [
    (b"\0asn", Row::Magic, 3),
    (b"\0asm\x02\0\0\0", Row::Version, 4),
    // a sixth byte of a size and of a count, and a fifth with a bit above the 32
    (b"\0asm\x01\0\0\0\x01\x85\x80\x80\x80\x80\0", Row::Leb, 9),
    (
        b"\0asm\x01\0\0\0\x01\x06\x80\x80\x80\x80\x80\0",
        Row::Leb,
        10,
    ),
    (b"\0asm\x01\0\0\0\x01\x05\x80\x80\x80\x80\x10", Row::Leb, 10),
    // types twice, and the data count after the code
    (
        b"\0asm\x01\0\0\0\x01\x01\0\x01\x01\0",
        Row::SectionOrder,
        11,
    ),
    (
        b"\0asm\x01\0\0\0\x0a\x01\0\x0c\x01\0",
        Row::SectionOrder,
        11,
    ),
    (b"\0asm\x01\0\0\0\x0d\0", Row::UnknownByte, 8),
    (b"\0asm\x01\0\0\0\0\x02\x01\xff", Row::Utf8, 11),
    // a data count that no data section has, and one that the data section hasn't
    (b"\0asm\x01\0\0\0\x0c\x01\x01", Row::Counts, 11),
    (b"\0asm\x01\0\0\0\x0c\x01\x01\x0b\x01\0", Row::Counts, 13),
    // after fc only memory.copy and memory.fill are read
    (
        b"\0asm\x01\0\0\0\x06\x05\x01\x7f\0\xfc\x09",
        Row::UnknownByte,
        14,
    ),
    (b"\0asm\x01\0\0\0\x01\x05\x01\x60\x01\x7d\0", Row::Float, 13),
    (
        b"\0asm\x01\0\0\0\x06\x06\x01\x7f\0\x40\0\x0b",
        Row::MemoryGrow,
        13,
    ),
    // an else that no if has
    (
        b"\0asm\x01\0\0\0\x06\x05\x01\x7f\0\x05\x0b",
        Row::UnknownByte,
        13,
    ),
    // counts of four gigabytes, with nothing behind them
    (
        b"\0asm\x01\0\0\0\x01\x05\xff\xff\xff\xff\x0f",
        Row::Limit,
        10,
    ),
    (
        b"\0asm\x01\0\0\0\x02\x05\xff\xff\xff\xff\x0f",
        Row::SectionSize,
        15,
    ),
    (
        b"\0asm\x01\0\0\0\x03\x05\xff\xff\xff\xff\x0f",
        Row::Limit,
        10,
    ),
    (
        b"\0asm\x01\0\0\0\x07\x05\xff\xff\xff\xff\x0f",
        Row::SectionSize,
        15,
    ),
    (
        b"\0asm\x01\0\0\0\x0b\x05\xff\xff\xff\xff\x0f",
        Row::SectionSize,
        15,
    ),
    (
        b"\0asm\x01\0\0\0\x01\x04\x01\x60\0\0\x03\x02\x01\0\x0a\x0a\x01\x08\x01\xff\xff\xff\xff\x0f\x7f\x0b",
        Row::Limit,
        23,
    ),
];

#[test]
fn first_faults(rt: HostRuntime) {
    for (number, (bytes, row, at)) in FAULTS.iter().enumerate() {
        holds(&rt, number, is_told(rt.alloc(), bytes, refused(*row, *at)));
    }
}

// A module with one function, of nested blocks. The sizes of its code section and of its body are given as
// they are spelled.
fn nested(
    alloc: Global,
    levels: usize,
    section_size: [u8; 3],
    body_size: [u8; 3],
) -> Result<Vec<u8>, AllocError> {
    let mut bytes = Vec::new(alloc);
    bytes.extend_from_slice(b"\0asm\x01\0\0\0\x01\x04\x01\x60\0\0\x03\x02\x01\0\x0a")?;
    bytes.extend_from_slice(&section_size)?;
    bytes.push(1)?;
    bytes.extend_from_slice(&body_size)?;
    bytes.push(0)?;
    for _level in 0..levels {
        bytes.extend_from_slice(b"\x02\x40")?;
    }
    for _level in 0..levels {
        bytes.push(0x0b)?;
    }
    bytes.push(0x0b)?;
    Ok(bytes)
}

/// How many levels, the sizes of the section and of the body, and how the bytes are read.
type Nested = (usize, [u8; 3], [u8; 3], Result<(usize, usize), BinFault>);

static NESTED: [Nested; 2] = [
    (300_000, [0xa6, 0xf7, 0x36], [0xa2, 0xf7, 0x36], Ok((1, 0))),
    (
        300_001,
        [0xa9, 0xf7, 0x36],
        [0xa5, 0xf7, 0x36],
        Err(BinFault::Refused {
            row: Row::Limit,
            at: 600_027,
        }),
    ),
];

fn is_nested(alloc: Global, row: &Nested) -> bool {
    let (levels, section_size, body_size, wanted) = *row;
    match nested(alloc, levels, section_size, body_size) {
        Ok(bytes) => is_told(alloc, bytes.as_slice(), wanted),
        Err(_) => false,
    }
}

#[test]
fn blocks_are_read_without_recursion(rt: HostRuntime) {
    for (number, row) in NESTED.iter().enumerate() {
        holds(&rt, number, is_nested(rt.alloc(), row));
    }
}
