//! A body and where its blocks end.

ghost use Rattle.std.specs.Prelude.{◌≡◌, ◌≤◌, ◌<◌, ◌∷◌, List, length, map, reverse, slice_get, IfOk, MatchOption};
ghost use Rattle.sem_words.specs.Lists.{list_items};
ghost use Rattle.wasm_lang.specs.Instructions.{Instruction};
ghost use Rattle.wasm_tree.specs.Views.{instr_of, code_of};
ghost use Rattle.wasm_run_flat.specs.Jumps.{first_jump, closing, tail_of, with_arm, jumps_from, jump_at, past_end, other_arm};

use sem_words::List;
use std::alloc::{AllocError, Global};
use std::marker::Model;
use wasm_tree::{Code, Instr};

/// For a place of a body, where the block ends that is innermost after it: the place past its end, and the
/// place of its second arm, which for a block with none is that of its end.
#[derive(Clone, Copy)]
pub struct Jump {
    past: usize,
    other: usize,
}

/// The instructions of a body, and where its blocks end. It stands for the instructions.
#[derive(Drop)]
pub struct Body {
    instrs: List<Instr>,
    jumps: Vec<Jump>,
}

impl Model for Body {
    ghost Value = { List Instruction };

    ghost view = { λ b. map instr_of (list_items b.instrs) };

    ghost invariant = { λ b. b.jumps.items ≡ jumps_from 0 (map instr_of (list_items b.instrs)) };
}

impl Body {
    /// The body of this code.
    pub fn of(alloc: Global, code: &Code<'_>) -> Result<Body, AllocError>
        ensures { IfOk result (λ body. body ≡ code_of code.now) }
    {
        let instrs = code.instrs(alloc)?;
        let jumps = jumps_of(alloc, instrs.as_slice())?;
        Ok(Body { instrs, jumps })
    }

    /// How many instructions it has.
    pub fn len(&self) -> usize
        ensures { result ≡ length self.now }
    {
        self.instrs.len()
    }

    /// The instruction at a place, or None past the end.
    pub fn get(&self, at: usize) -> Option<&Instr>
        ensures { MatchOption result (length self.now ≤ at) (λ instr. slice_get self.now at ≡ Some (instr_of instr.now)) }
    {
        self.instrs.get(at)
    }

    /// The place past the end of the block that is opened at `at`, or at an `else` of the one that it stands in.
    pub fn past_end(&self, at: usize) -> usize
        ensures { result ≡ past_end self.now at }
    {
        self.jump(at).past
    }

    /// For an `if` at `at` the place where its second arm begins: past its `else`, or at its end where it has none.
    pub fn other_arm(&self, at: usize) -> usize
        ensures { result ≡ other_arm self.now at }
    {
        self.jump(at).other
    }

    // Past the end nothing is open.
    fn jump(&self, at: usize) -> Jump
        ensures { result ≡ jump_at self.now at }
    {
        if at < self.jumps.len() {
            self.jumps[at]
        } else {
            Jump { past: 0, other: 0 }
        }
    }
}

// For each place where the block ends that is innermost after it, read from the last instruction to the first.
fn jumps_of(alloc: Global, code: &[Instr]) -> Result<Vec<Jump>, AllocError>
    ensures { IfOk result (λ jumps. jumps.items ≡ jumps_from 0 (map instr_of code.now)) }
{
    let mut closings = Vec::new(alloc);
    let mut jumps = Vec::new(alloc);
    for at in (0..code.len()).rev() {
        add(&mut jumps, innermost(&closings))?;
        close(&mut closings, at, &code[at])?;
    }
    jumps.reverse();
    Ok(jumps)
}

// The innermost of the blocks that are still open; the last of the list.
fn innermost(closings: &Vec<Jump>) -> Jump
    ensures { result ≡ first_jump (reverse closings.now.items) }
{
    let count = closings.len();
    if count == 0 {
        Jump { past: 0, other: 0 }
    } else {
        closings[count - 1]
    }
}

// One more instruction, which stands before those that were read.
fn close(closings: &mut Vec<Jump>, at: usize, instr: &Instr) -> Result<(), AllocError>
    requires { at < usize.MAX }
    ensures { IfOk result (λ _. reverse closings.new.items ≡ closing at (instr_of instr.now) (reverse closings.old.items)) }
{
    match instr {
        Instr::Block(_) | Instr::Loop(_) | Instr::If(_) => {
            remove(closings);
            Ok(())
        }
        Instr::Else => begin_arm(closings, at + 1),
        Instr::End => {
            let jump = Jump {
                past: at + 1,
                other: at,
            };
            add(closings, jump)
        }
        _ => Ok(()),
    }
}

fn add(closings: &mut Vec<Jump>, jump: Jump) -> Result<(), AllocError>
    ensures { IfOk result (λ _. reverse closings.new.items ≡ jump ∷ reverse closings.old.items) }
{
    match closings.push(jump) {
        Ok(()) => Ok(()),
        Err(_) => Err(AllocError),
    }
}

fn remove(closings: &mut Vec<Jump>)
    ensures { reverse closings.new.items ≡ tail_of (reverse closings.old.items) }
{
    match closings.pop() {
        Some(_) => {}
        None => {}
    }
}

// The second arm of the innermost block begins at `at`.
fn begin_arm(closings: &mut Vec<Jump>, at: usize) -> Result<(), AllocError>
    ensures { IfOk result (λ _. reverse closings.new.items ≡ with_arm at (reverse closings.old.items)) }
{
    match closings.pop() {
        Some(jump) => add(
            closings,
            Jump {
                past: jump.past,
                other: at,
            },
        ),
        None => Ok(()),
    }
}
