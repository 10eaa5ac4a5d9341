// What is counted of a body.

ghost use Rattle.std.specs.Prelude.{◌≡◌, ◌<◌, ◌^◌, max, map};
ghost use Rattle.wasm_lang.specs.Limits.{levels};
ghost use Rattle.wasm_tree.specs.Views.{instr_of};
ghost use Rattle.wasm_lang_valid.specs.Measures;
ghost use Rattle.wasm_validate_bodies.specs.Counts;

use sem_words::Bin;
use wasm_tree::Instr;

/// The levels of a body: the greatest number of blocks that stand open at once.
pub fn levels_of(code: &[Instr]) -> usize
    ensures { result ≡ levels (map instr_of code.now) }
{
    let mut depth: usize = 0;
    let mut most: usize = 0;
    for instr in code {
        most = larger(most, depth);
        depth = depth_after(depth, instr);
    }
    larger(most, depth)
}

// The blocks that are open after an instruction.
fn depth_after(depth: usize, instr: &Instr) -> usize
    requires { depth < 2 ^ 63 }
    ensures { result ≡ Counts.depth_after depth (instr_of instr.now) }
{
    match instr {
        Instr::Block(_) | Instr::Loop(_) | Instr::If(_) => depth + 1,
        Instr::End => { if depth == 0 { 0 } else { depth - 1 } }
        _ => depth,
    }
}

/// The larger of two numbers.
pub fn larger(a: usize, b: usize) -> usize
    ensures { result ≡ max a b }
{
    if a < b { b } else { a }
}

/// Whether a body multiplies or divides words of 64 bits.
pub fn has_mul_div(code: &[Instr]) -> bool
    ensures { result ≡ Measures.has_mul_div (map instr_of code.now) }
{
    for instr in code {
        if is_mul_div(instr) {
            return true;
        }
    }
    false
}

fn is_mul_div(instr: &Instr) -> bool
    ensures { result ≡ Measures.is_wide_mul_div (instr_of instr.now) }
{
    match instr {
        Instr::Bin64(op) => matches!(op, Bin::Mul | Bin::DivS | Bin::DivU | Bin::RemS | Bin::RemU),
        _ => false,
    }
}
