//! Texts that are put together.
use itoa::Buffer;
use std::alloc::{AllocError, Global};

/// What stands in front, and a piece that stands behind it so many times. In a piece each `#` is the number of the time, from 0 on.
pub(crate) type Part<'a> = (&'a [u8], &'a [u8], usize);

fn push_piece(text: &mut Vec<u8>, piece: &[u8], number: usize) -> Result<(), AllocError> {
    let mut digits = Buffer::new();
    let digits = digits.format(number);
    for byte in piece {
        if *byte == b'#' {
            text.extend_from_slice(digits.as_bytes())?;
        } else {
            text.push(*byte)?;
        }
    }
    Ok(())
}

fn push_part(text: &mut Vec<u8>, part: &Part<'_>) -> Result<(), AllocError> {
    let (front, piece, count) = *part;
    text.extend_from_slice(front)?;
    for number in 0..count {
        push_piece(text, piece, number)?;
    }
    Ok(())
}

/// The parts, one after the other.
pub(crate) fn joined(alloc: Global, parts: &[Part<'_>]) -> Result<Vec<u8>, AllocError> {
    let mut text = Vec::new(alloc);
    for part in parts {
        push_part(&mut text, part)?;
    }
    Ok(text)
}
