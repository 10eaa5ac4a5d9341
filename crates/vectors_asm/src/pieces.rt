//! Texts and modules that are put together of pieces.
use std::alloc::{AllocError, Global};

/// What stands in front, and what stands behind it, so many times.
pub(crate) type Part = (&'static [u8], &'static [u8], usize);

fn push_all(text: &mut Vec<u8>, piece: &[u8], count: usize) -> Result<(), AllocError> {
    for _ in 0..count {
        text.extend_from_slice(piece)?;
    }
    Ok(())
}

/// The parts, one after the other.
pub(crate) fn joined(alloc: Global, parts: &[Part]) -> Result<Vec<u8>, AllocError> {
    let mut text = Vec::new(alloc);
    for (front, piece, count) in parts {
        text.extend_from_slice(front)?;
        push_all(&mut text, piece, *count)?;
    }
    Ok(text)
}
