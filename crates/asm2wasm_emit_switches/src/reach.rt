//! How many locals code names.
ghost use Rattle.std.specs.Prelude.{◌≡◌, map};
ghost use Rattle.wasm_tree.specs.Views.{instr_of};
ghost use Rattle.asm2wasm_emit_switches.specs.Reach.{plain_reach_of, farthest, ReachIsFarthest};

use wasm_tree::Instr;

/// One more than the greatest local that instructions name; 0 where none is.
pub fn reach_of(code: &[Instr]) -> usize
    ensures { result ≡ farthest (map instr_of code.now) }
{
    let mut reach = 0;
    for instr in code {
        let far = instr_reach(instr);
        if reach < far {
            reach = far;
        }
    }
    reach
}

fn instr_reach(instr: &Instr) -> usize
    ensures { result ≡ plain_reach_of (instr_of instr.now) }
{
    match instr {
        Instr::LocalGet(x) | Instr::LocalSet(x) | Instr::LocalTee(x) => *x as usize + 1,
        _ => 0,
    }
}

/// It is that of the tree of code that the instructions spell.
pub fn reaches()
    ensures { ReachIsFarthest }
{}
