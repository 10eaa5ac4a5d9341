//! Which variables the statements of a body name.
ghost use Rattle.std.specs.Prelude.{◌≡◌, ◌≤◌, ◌<◌, ◌==◌, ◌||◌, ℕ, [], false, Option, drop, max, vec_len, option_to_list, slice_index_or, IfOk};
ghost use Rattle.std.specs.List.{list_any};
ghost use Rattle.wasm_lang_valid.specs.Typing.{listed};
ghost use Rattle.wasm2js_translation.specs.Rooms as rooms;
ghost use Rattle.wasm2js_operands.specs.Operands.{over};
ghost use Rattle.wasm2js_rooms.specs.Sights.{joined, sight, seen, IsWithin};

use std::alloc::{AllocError, Global};
use wasm_lang::ValType;

/// How many operands there are at most, how many of them lie below the highest one of 64 bits, with it, and which locals are named.
#[derive(Drop)]
pub struct Room {
    pub height: usize,
    pub wide_height: usize,
    pub named: Vec<bool>,
}

// How many operands lie below the highest wide one of the innermost block, with it; at least so many as before, where
// those below the topmost one have been noted.
fn widened(wide_height: usize, types: &Vec<ValType>, base: usize) -> usize
    requires base { base ≤ vec_len types.now }
    requires known { rooms.wide_from base (drop 1 (over base types.now.items)) ≤ wide_height }
    ensures { result ≡ max wide_height (rooms.wide_from base (over base types.now.items)) }
{
    let count = types.len();
    if count == base {
        return wide_height;
    }
    match types[count - 1] {
        ValType::I32 => wide_height,
        ValType::I64 => wide_height.max(count),
    }
}

impl Room {
    /// With the result of a function that has so many locals.
    pub fn new(alloc: Global, count: usize, returns: Option<ValType>) -> Result<Room, AllocError>
        ensures count { IfOk result (λ r. vec_len r.named ≡ count) }
        ensures sights { IfOk result (λ r. (x : Option ℕ) → seen x r ≡ sight x (rooms.here 0 (listed returns) [])) }
    {
        let named = vec![in alloc; false; count]?;
        let (height, wide_height) = match returns {
            None => (0, 0),
            Some(ValType::I32) => (1, 0),
            Some(ValType::I64) => (1, 1),
        };
        Ok(Room {
            height,
            wide_height,
            named,
        })
    }

    /// A place with these operands, of which those of the innermost block lie on so many; its instruction may name a local.
    /// The operands below the topmost one have been noted.
    pub fn note(&mut self, types: &Vec<ValType>, base: usize, local: Option<u32>)
        requires base { base ≤ vec_len types.now }
        requires known { rooms.wide_from base (drop 1 (over base types.now.items)) ≤ self.old.wide_height }
        ensures count { vec_len self.new.named ≡ vec_len self.old.named }
        ensures sights { (x : Option ℕ) → IsWithin (vec_len self.old.named) x → seen x self.new ≡ joined (seen x self.old) (sight x (rooms.here base (over base types.now.items) (option_to_list local))) }
    {
        self.height = self.height.max(types.len());
        self.wide_height = widened(self.wide_height, types, base);
        self.name(local);
    }

    fn name(&mut self, local: Option<u32>)
        ensures count { vec_len self.new.named ≡ vec_len self.old.named }
        ensures height { self.new.height ≡ self.old.height }
        ensures wide_height { self.new.wide_height ≡ self.old.wide_height }
        ensures named { (x : ℕ) → x < vec_len self.old.named → slice_index_or self.new.named.items x false ≡ (slice_index_or self.old.named.items x false || list_any (λ y. x == y) (option_to_list local)) }
    {
        if let Some(local) = local {
            let local = local as usize;
            if local < self.named.len() {
                self.named[local] = true;
            }
        }
    }
}
