//! Branches that depend on an operand.
ghost use Rattle.std.specs.Prelude.{◌≡◌, ◌<◌, length, slice_get};
ghost use Rattle.sem_words.specs.Lists.{list_items};
ghost use Rattle.wasm_lang.specs.Instructions as plain;
ghost use Rattle.wasm_lang.specs.Modules.{WasmModule};
ghost use Rattle.wasm_lang_exec.specs.Reductions.{default_to};
ghost use Rattle.wasm_run_frames.specs.Views.{machine_of};
ghost use Rattle.wasm_run_machine.specs.Doing.{Bodies, DoesIn};

use sem_words::List;
use wasm_run_flat::Body;
use wasm_run_frames::{Flow, Machine, branch, give_back};

/// `br`.
pub fn branch_always(machine: &mut Machine<'_>, body: &Body, label: u32) -> Flow
    ensures { (bodies : Bodies) (m : WasmModule) →
        DoesIn bodies m body.now (plain.br label) (machine_of machine.old) result machine.new }
{
    let _length = body.len();
    let flow = branch(machine, label);
    flow
}

/// `br_if`.
pub fn branch_if(machine: &mut Machine<'_>, body: &Body, label: u32) -> Flow
    requires { machine.old.at < length body.now }
    ensures { (bodies : Bodies) (m : WasmModule) →
        DoesIn bodies m body.now (plain.br_if label) (machine_of machine.old) result machine.new }
{
    let _length = body.len();
    let Some(condition) = machine.operands.pop32() else {
        return Flow::Stuck;
    };
    if condition == 0 {
        machine.at += 1;
        return Flow::On;
    }
    let flow = branch(machine, label);
    flow
}

// The label of this index, or else the default.
fn label_at(labels: &List<u32>, default: u32, index: u32) -> u32
    ensures { result ≡ default_to default (slice_get (list_items labels.now) index) }
{
    match labels.get(index as usize) {
        None => default,
        Some(label) => *label,
    }
}

/// `br_table`. The index has no sign.
pub fn branch_by_table(
    machine: &mut Machine<'_>,
    body: &Body,
    labels: &List<u32>,
    default: u32,
) -> Flow
    ensures { (bodies : Bodies) (m : WasmModule) →
        DoesIn bodies m body.now (plain.br_table (list_items labels.now) default) (machine_of machine.old) result machine.new }
{
    let _length = body.len();
    let Some(index) = machine.operands.pop32() else {
        return Flow::Stuck;
    };
    let label = label_at(labels, default, index);
    let flow = branch(machine, label);
    flow
}

/// `return`.
pub fn leave(machine: &mut Machine<'_>, body: &Body) -> Flow
    ensures { (bodies : Bodies) (m : WasmModule) →
        DoesIn bodies m body.now plain.return (machine_of machine.old) result machine.new }
{
    let _length = body.len();
    give_back(machine)
}
