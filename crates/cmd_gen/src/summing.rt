//! The summary.

ghost use Rattle.std.specs.Prelude.{◌≡◌, IfOk};
ghost use Rattle.gen_lang.specs.Recipe as spec;

use itoa::Buffer;
use std::alloc::{AllocError, Global};

/// Lengths in bytes: of the text, of the module of WebAssembly, and of the text that that is translated to.
#[derive(Clone, Copy)]
pub struct Lengths {
    pub text: usize,
    pub wasm: usize,
    pub back: usize,
}

/// The summary of so many functions.
pub fn summary(alloc: Global, functions: u32, lengths: Lengths) -> Result<Vec<u8>, AllocError>
    ensures { IfOk result (λ lines. lines.items ≡ spec.summary functions lengths.text lengths.wasm lengths.back) }
{
    let mut count = Buffer::new();
    let mut text = Buffer::new();
    let mut wasm = Buffer::new();
    let mut back = Buffer::new();
    let mut lines = Vec::from_slice(alloc, b"functions ")?;
    lines.extend_from_slice(count.format(functions).as_bytes())?;
    lines.extend_from_slice(b"\nasm ")?;
    lines.extend_from_slice(text.format(lengths.text).as_bytes())?;
    lines.extend_from_slice(b"\nwasm ")?;
    lines.extend_from_slice(wasm.format(lengths.wasm).as_bytes())?;
    lines.extend_from_slice(b"\njs ")?;
    lines.extend_from_slice(back.format(lengths.back).as_bytes())?;
    lines.extend_from_slice(b"\n")?;
    Ok(lines)
}
