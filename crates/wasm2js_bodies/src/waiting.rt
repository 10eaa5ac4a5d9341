//! What still waits after an instruction.
ghost use Rattle.std.specs.Prelude.{◌≡◌, ◌≤◌, slice_get, vec_len};
ghost use Rattle.wasm2js_translation.specs.Delays as delays;
ghost use Rattle.wasm2js_nodes.specs.Names.{name_view};
ghost use Rattle.wasm2js_terms.specs.Waits.{delays_view};
ghost use Rattle.wasm2js_terms.specs.Held.{all_held};
ghost use Rattle.wasm2js_build.specs.Growing.{waits_of};
ghost use Rattle.wasm2js_operands.specs.Operands.{over};

use wasm_lang::ValType;
use wasm2js_build::LateBlock;
use wasm2js_nodes::{Name, Numbered};
use wasm2js_terms::{Delayed, Held};

/// What waits for an operand that is gone is dropped.
pub fn keep_standing(types: &Vec<ValType>, base: usize, text: &mut LateBlock)
    requires { base ≤ vec_len types.now }
    ensures waits { waits_of text.new ≡ delays.standing base (over base types.now.items) (waits_of text.old) }
    ensures block { text.new.block ≡ text.old.block }
    ensures known { text.new.known ≡ text.old.known }
{
    keep_lights(types, base, &mut text.waits);
    text.held = held_standing(types, base, text.held);
}

fn keep_lights(types: &Vec<ValType>, base: usize, waits: &mut Vec<Delayed>)
    requires { base ≤ vec_len types.now }
    ensures { delays_view waits.new.items ≡ delays.standing base (over base types.now.items) (delays_view waits.old.items) }
{
    waits.retain(|delayed| stands(types, base, delayed.name));
}

fn held_standing(types: &Vec<ValType>, base: usize, held: Option<Held>) -> Option<Held>
    requires { base ≤ vec_len types.now }
    ensures { all_held result ≡ delays.standing base (over base types.now.items) (all_held held) }
{
    match held {
        Some(held) if stands(types, base, held.name) => Some(held),
        _ => None,
    }
}

// Whether a variable is of an operand that stands, of a block above so many others.
#[tactic(auto, using(crate::proofs::Lists::stands_by_number))]
fn stands(types: &Vec<ValType>, base: usize, name: Name) -> bool
    requires { base ≤ vec_len types.now }
    ensures { result ≡ delays.stands base (over base types.now.items) (name_view name) }
{
    match name {
        Name::Counted(Numbered::OperandLow, d) => d < types.len() as u64,
        Name::Counted(Numbered::OperandHigh, d) => d < base as u64 || is_wide_at(types, d),
        _ => false,
    }
}

// Whether the operand of this number has 64 bits.
fn is_wide_at(types: &Vec<ValType>, d: u64) -> bool
    ensures { result ≡ delays.is_wide (slice_get types.now.items d) }
{
    match types.get(d as usize) {
        Some(ValType::I64) => true,
        _ => false,
    }
}
