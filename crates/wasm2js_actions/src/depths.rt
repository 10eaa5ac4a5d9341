//! Where the operands of an instruction stand.
ghost use Rattle.std.specs.Prelude.{◌≡◌, ◌+◌, ◌<◌, ◌^◌, length, reverse, slice_get};
ghost use Rattle.wasm2js_translation.specs.Actions as code;

use wasm_lang::ValType;

/// How many operands of the function lie below the topmost ones of a block's, where so many lie below the block's.
pub fn under(topmost: usize, below: u64, stack: &[ValType]) -> u64
    requires { below + length stack.now < 2 ^ 64 }
    ensures { result ≡ code.under topmost below (reverse stack.now) }
{
    below + stack.len().saturating_sub(topmost) as u64
}

/// The type of the operand that stands under the topmost one.
pub fn second_kind(stack: &[ValType]) -> Option<ValType>
    ensures { result ≡ slice_get (reverse stack.now) 1 }
{
    if stack.len() < 2 {
        None
    } else {
        Some(stack[stack.len() - 2])
    }
}
