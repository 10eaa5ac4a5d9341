// A control frame.

use wasm_lang::ValType;
use wasm_lang_valid::Opening;

/// An open block: how it was opened, its result, whether its stack is open below, and the
/// number of operands under it.
#[derive(Clone, Copy, Debug)]
pub struct Frame {
    pub opening: Opening,
    pub result: Option<ValType>,
    pub endless: bool,
    pub height: usize,
}
