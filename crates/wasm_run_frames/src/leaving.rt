//! Blocks and functions that are left: by their ends, by branches and by returns.
ghost use Rattle.std.specs.Prelude.{◌≡◌, ℕ, suc, List, ◌∷◌, length};
ghost use Rattle.wasm_lang.specs.Instructions.{Instruction};
ghost use Rattle.wasm_lang.specs.Modules.{WasmModule};
ghost use Rattle.wasm_laws_drive.specs.Drive.{Outcome};
ghost use Rattle.wasm_run_flat.specs.Laws.{IsLeft, IsDone};
ghost use Rattle.wasm_run_flat.specs.Places as places;
ghost use Rattle.wasm_laws_machine.specs.Machine.{of_label, of_frame, targets_of};
ghost use Rattle.wasm_laws_machine.specs.Meaning.{Shows, Runs, Branches, Returns};
ghost use Rattle.wasm_run_frames.specs.Views.{label_of, frame_of, machine_of};
ghost use Rattle.wasm_run_frames.specs.Flows.{Comes, IsEndAt};

use crate::carrying::{carry, come_down};
use crate::machine::{Enclosing, Flow, Frame, Label, Machine};
use wasm_run_flat::Target;

// The place where a branch goes on.
fn place_of(target: Target) -> usize
    ensures { result ≡ places.place_of target }
{
    match target {
        Target::Past(at) => at,
        Target::Again(at) => at,
    }
}

// A branch comes to this label, out of all blocks above `floor` operands.
fn land(machine: &mut Machine<'_>, label: Label, floor: usize) -> Flow
    ensures { (bodies : ℕ → List Instruction) (m : WasmModule) (n : ℕ) (r : Outcome) →
        Branches bodies m (record (machine_of machine.old) { enclosing = of_label (label_of label) ∷ (machine_of machine.old).enclosing }) floor 0 n r
        → Comes bodies m result machine.new n r }
{
    if !carry(&mut machine.operands, label.arity, floor, label.floor) {
        return Flow::Stuck;
    }
    machine.at = place_of(label.target);
    Flow::On
}

// A return comes to this frame, out of all blocks above `floor` operands.
fn give_to(machine: &mut Machine<'_>, frame: Frame, floor: usize) -> Flow
    ensures { (bodies : ℕ → List Instruction) (m : WasmModule) (n : ℕ) (r : Outcome) →
        Returns bodies m (record (machine_of machine.old) { enclosing = of_frame (frame_of frame) ∷ (machine_of machine.old).enclosing }) floor n r
        → Comes bodies m result machine.new n r }
{
    if !carry(&mut machine.operands, frame.arity, floor, frame.floor) {
        return Flow::Stuck;
    }
    machine.function = frame.function;
    machine.at = frame.at;
    machine.locals = frame.locals;
    Flow::On
}

/// A branch to the label that many labels out.
pub fn branch(machine: &mut Machine<'_>, label: u32) -> Flow
    ensures { (bodies : ℕ → List Instruction) (m : WasmModule) (floor n : ℕ) (r : Outcome) →
        floor ≡ length (machine_of machine.old).below → Branches bodies m (machine_of machine.old) floor label n r → Comes bodies m result machine.new n r }
{
    let mut left = label;
    let mut floor = machine.operands.floor();
    'labels: loop {
        let Some(next) = machine.enclosing.pop() else {
            return Flow::Stuck;
        };
        match next {
            Enclosing::Frame(frame) => {
                if left > 0 {
                    return Flow::Stuck;
                }
                return give_to(machine, frame, floor);
            }
            Enclosing::Label(block) => {
                if left == 0 {
                    return land(machine, block, floor);
                }
                left -= 1;
                floor = block.floor;
            }
        }
    }
}

/// A return.
pub fn give_back(machine: &mut Machine<'_>) -> Flow
    ensures { (bodies : ℕ → List Instruction) (m : WasmModule) (floor n : ℕ) (r : Outcome) →
        floor ≡ length (machine_of machine.old).below → Returns bodies m (machine_of machine.old) floor n r → Comes bodies m result machine.new n r }
{
    let mut floor = machine.operands.floor();
    'labels: loop {
        let Some(next) = machine.enclosing.pop() else {
            return Flow::Stuck;
        };
        match next {
            Enclosing::Frame(frame) => return give_to(machine, frame, floor),
            Enclosing::Label(block) => floor = block.floor,
        }
    }
}

// The end of the block of this label; the machine goes on at `place`.
fn end_label(machine: &mut Machine<'_>, label: Label, place: usize)
    ensures { (bodies : ℕ → List Instruction) (m : WasmModule) (n : ℕ) (r : Outcome) →
        IsLeft (bodies (machine_of machine.old).function) (machine_of machine.old).at place (targets_of (machine_of machine.old).enclosing)
        → Shows bodies m (record (machine_of machine.old) { enclosing = of_label (label_of label) ∷ (machine_of machine.old).enclosing }) (suc n) r
        → Shows bodies m (machine_of machine.new) n r }
{
    come_down(&mut machine.operands, label.floor);
    machine.at = place;
}

// The end of a function.
fn end_frame(machine: &mut Machine<'_>, frame: Frame)
    ensures { (bodies : ℕ → List Instruction) (m : WasmModule) (n : ℕ) (r : Outcome) →
        IsDone (bodies (machine_of machine.old).function) (machine_of machine.old).at
        → Shows bodies m (record (machine_of machine.old) { enclosing = of_frame (frame_of frame) ∷ (machine_of machine.old).enclosing }) (suc n) r
        → Shows bodies m (machine_of machine.new) n r }
{
    come_down(&mut machine.operands, frame.floor);
    machine.function = frame.function;
    machine.at = frame.at;
    machine.locals = frame.locals;
}

/// The end of a block or of a function, or of the first arm of an `if`. After a block the machine goes on at `place`.
pub fn end_block(machine: &mut Machine<'_>, place: usize) -> Flow
    ensures { (bodies : ℕ → List Instruction) (m : WasmModule) (n : ℕ) (r : Outcome) →
        IsEndAt (bodies (machine_of machine.old).function) (machine_of machine.old) place
        → Runs bodies m (machine_of machine.old) (suc n) r
        → Comes bodies m result machine.new n r }
{
    let Some(next) = machine.enclosing.pop() else {
        return Flow::Stuck;
    };
    match next {
        Enclosing::Label(label) => {
            end_label(machine, label, place);
            Flow::On
        }
        Enclosing::Frame(frame) => {
            end_frame(machine, frame);
            Flow::On
        }
    }
}
