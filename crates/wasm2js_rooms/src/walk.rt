//! The walk over the code that is reached.
ghost use Rattle.std.specs.Prelude.{◌≡◌, ◌≤◌, ◌<◌, ℕ, ◌∷◌, [], ◌++◌, take, length, vec_len, option_to_list, Option, option_map, option_copied, Some, None, is_some, true, IfOk};
ghost use Rattle.wasm_tree.specs.Views.{instr_of, type_of};
ghost use Rattle.wasm_lang_valid.specs.Typing.{listed};
ghost use Rattle.wasm_lang_exec.specs.Code.{Trees, tree_of};
ghost use Rattle.wasm_run_flat.specs.Jumps.{past_end};
ghost use Rattle.wasm2js_translation.specs.Bodies.{types_after_call};
ghost use Rattle.wasm2js_translation.specs.Rooms as rooms;
ghost use Rattle.wasm2js_operands.specs.Operands.{over, IsKept};
ghost use Rattle.wasm2js_operands.specs.Scopes.{context_in};
ghost use Rattle.wasm2js_rooms.specs.Sights.{joined, sight, seen, IsWithin};
ghost use Rattle.wasm2js_rooms.specs.Places.{there, spot_at, IsKnown, goes_on, block_spots, arm_spots, next_spots, locals_in, IsPlace, IsAdded, IsStart, IsStep};

use crate::room::Room;
use std::alloc::{AllocError, Global};
use wasm_lang::ValType;
use wasm_run_flat::Body;
use wasm_tree::{FuncType, Instr};
use wasm2js_operands::{BodyScope, add, after_call, after_plain, remove};

/// A place that is still to be come to: the operands there, and how many of them lie below those of its block.
/// A result that isn't among them yet is on top of them.
#[derive(Clone, Copy)]
pub struct Place {
    pub at: usize,
    pub base: usize,
    pub height: usize,
    pub result: Option<ValType>,
}

/// The operands of all open blocks, and the places that are still to be come to, the next one last.
#[derive(Drop)]
pub struct Walk {
    pub types: Vec<ValType>,
    pub places: Vec<Place>,
    pub room: Room,
}

// The local that an instruction names.
fn local_of(instr: &Instr) -> Option<u32>
    ensures { option_to_list result ≡ locals_in (instr_of instr.now) }
{
    match instr {
        Instr::LocalGet(x) | Instr::LocalSet(x) | Instr::LocalTee(x) => Some(*x),
        _ => None,
    }
}

fn push(places: &mut Vec<Place>, place: Place) -> Result<(), AllocError>
    ensures { IfOk result (λ _. places.new.items ≡ places.old.items ++ place ∷ []) }
{
    match places.push(place) {
        Ok(()) => Ok(()),
        Err(_) => Err(AllocError),
    }
}

// The next instruction of the same block.
fn go_on(types: &Vec<ValType>, place: Place, places: &mut Vec<Place>) -> Result<(), AllocError>
    requires inside { place.at < usize.MAX }
    requires base { place.base ≤ vec_len types.now }
    ensures { IfOk result (λ _. IsAdded place.base types.now.items places.old.items places.new.items (goes_on (there place types.now.items) (over place.base types.now.items))) }
{
    let next = Place {
        at: place.at + 1,
        base: place.base,
        height: types.len(),
        result: None,
    };
    push(places, next)
}

// What stands past a block or an `if`, where this is its result.
fn go_past(
    body: &Body,
    types: &Vec<ValType>,
    place: Place,
    gives: Option<ValType>,
    places: &mut Vec<Place>,
) -> Result<(), AllocError>
    ensures { IfOk result (λ _. places.new.items ≡ places.old.items ++ record { at = past_end body.now place.at; base = place.base; height = vec_len types.now; result = gives } ∷ []) }
{
    let past = Place {
        at: body.past_end(place.at),
        base: place.base,
        height: types.len(),
        result: gives,
    };
    push(places, past)
}

// What stands inside a block.
fn enter(at: usize, types: &Vec<ValType>, places: &mut Vec<Place>) -> Result<(), AllocError>
    ensures { IfOk result (λ _. places.new.items ≡ places.old.items ++ record { at = at; base = vec_len types.now; height = vec_len types.now; result = None } ∷ []) }
{
    let height = types.len();
    let inside = Place {
        at,
        base: height,
        height,
        result: None,
    };
    push(places, inside)
}

fn enter_block(
    body: &Body,
    types: &Vec<ValType>,
    place: Place,
    gives: Option<ValType>,
    places: &mut Vec<Place>,
) -> Result<(), AllocError>
    requires inside { place.at < usize.MAX }
    requires base { place.base ≤ vec_len types.now }
    ensures { IfOk result (λ _. IsAdded place.base types.now.items places.old.items places.new.items (block_spots body.now (there place types.now.items) gives)) }
{
    go_past(body, types, place, gives, places)?;
    enter(place.at + 1, types, places)
}

fn enter_arms(
    body: &Body,
    types: &Vec<ValType>,
    place: Place,
    gives: Option<ValType>,
    places: &mut Vec<Place>,
) -> Result<(), AllocError>
    requires inside { place.at < usize.MAX }
    requires base { place.base ≤ vec_len types.now }
    ensures { IfOk result (λ _. IsAdded place.base types.now.items places.old.items places.new.items (arm_spots body.now (there place types.now.items) gives)) }
{
    go_past(body, types, place, gives, places)?;
    enter(body.other_arm(place.at), types, places)?;
    enter(place.at + 1, types, places)
}

// A function of no type takes and gives nothing.
fn call(
    types: &mut Vec<ValType>,
    base: usize,
    function_type: Option<&FuncType>,
) -> Result<(), AllocError>
    requires { base ≤ vec_len types.old }
    ensures kept { IsKept base types.old.items types.new.items }
    ensures value { IfOk result (λ _. over base types.new.items ≡ types_after_call (option_map type_of (option_copied function_type.entry)) (over base types.old.items)) }
{
    match function_type {
        None => Ok(()),
        Some(function_type) => after_call(types, base, function_type),
    }
}

// What follows an instruction of a place.
fn follow(
    scope: &BodyScope<'_>,
    body: &Body,
    instr: &Instr,
    place: Place,
    types: &mut Vec<ValType>,
    places: &mut Vec<Place>,
) -> Result<(), AllocError>
    requires inside { place.at < usize.MAX }
    requires base { place.base ≤ vec_len types.old }
    ensures kept { IsKept place.base types.old.items types.new.items }
    ensures added { IfOk result (λ _. IsAdded place.base types.new.items places.old.items places.new.items (next_spots (context_in scope.now) body.now (there place types.old.items) (instr_of instr.now))) }
{
    match instr {
        Instr::Unreachable
        | Instr::Br(_)
        | Instr::BrTable(_, _)
        | Instr::Return
        | Instr::Else
        | Instr::End => Ok(()),
        Instr::Block(gives) | Instr::Loop(gives) => enter_block(body, types, place, *gives, places),
        Instr::If(gives) => {
            remove(types, place.base, 1);
            enter_arms(body, types, place, *gives, places)
        }
        Instr::BrIf(_) => {
            remove(types, place.base, 1);
            go_on(types, place, places)
        }
        Instr::Call(function) => {
            call(types, place.base, scope.function_type(*function))?;
            go_on(types, place, places)
        }
        Instr::CallIndirect(number) => {
            remove(types, place.base, 1);
            call(types, place.base, scope.type_at(*number))?;
            go_on(types, place, places)
        }
        _ => {
            after_plain(scope, types, place.base, instr)?;
            go_on(types, place, places)
        }
    }
}

// The operands at a place.
fn restore(types: &mut Vec<ValType>, place: Place) -> Result<(), AllocError>
    requires base { place.base ≤ place.height }
    requires height { place.height ≤ vec_len types.old }
    ensures kept { IsKept place.base types.old.items types.new.items }
    ensures value { IfOk result (λ _. over place.base types.new.items ≡ listed place.result ++ over place.base (take place.height types.old.items)) }
{
    types.truncate(place.height);
    match place.result {
        None => Ok(()),
        Some(value_type) => add(types, place.base, value_type),
    }
}

impl Walk {
    fn start(alloc: Global, scope: &BodyScope<'_>) -> Result<Walk, AllocError>
        ensures { IfOk result (λ walk. IsStart (context_in scope.now) walk) }
    {
        let room = Room::new(alloc, scope.locals.len(), scope.returns)?;
        let types = Vec::new(alloc);
        let mut places = Vec::new(alloc);
        enter(0, &types, &mut places)?;
        Ok(Walk {
            types,
            places,
            room,
        })
    }

    // The instruction of a place is come to.
    fn visit(
        &mut self,
        scope: &BodyScope<'_>,
        body: &Body,
        instr: &Instr,
        place: Place,
    ) -> Result<(), AllocError>
        requires inside { place.at < usize.MAX }
        requires base { place.base ≤ vec_len self.old.types }
        requires known { IsKnown self.old.room.wide_height (there place self.old.types.items) }
        ensures kept { IsKept place.base self.old.types.items self.new.types.items }
        ensures count { vec_len self.new.room.named ≡ vec_len self.old.room.named }
        ensures sights { IfOk result (λ _. (x : Option ℕ) → IsWithin (vec_len self.old.room.named) x → seen x self.new.room ≡ joined (seen x self.old.room) (sight x (rooms.here place.base (over place.base self.old.types.items) (locals_in (instr_of instr.now))))) }
        ensures added { IfOk result (λ _. IsAdded place.base self.new.types.items self.old.places.items self.new.places.items (next_spots (context_in scope.now) body.now (there place self.old.types.items) (instr_of instr.now))) }
    {
        self.room.note(&self.types, place.base, local_of(instr));
        follow(scope, body, instr, place, &mut self.types, &mut self.places)
    }

    fn step(&mut self, scope: &BodyScope<'_>, body: &Body, place: Place) -> Result<(), AllocError>
        requires stands { IsPlace body.now place.at }
        requires base { place.base ≤ place.height }
        requires height { place.height ≤ vec_len self.old.types }
        requires known { IsKnown self.old.room.wide_height (spot_at self.old.types.items place) }
        ensures { IfOk result (λ _. IsStep (context_in scope.now) body.now place self.old self.new) }
    {
        let _length = body.len();
        restore(&mut self.types, place)?;
        match body.get(place.at) {
            None => unreachable!(),
            Some(instr) => {
                self.visit(scope, body, instr, place)?;
                Ok(())
            }
        }
    }

    fn into_room(self) -> Room
        ensures { result ≡ self.room }
    {
        self.room
    }
}

/// The variables that the statements of a body name, and its result.
pub fn room_of(alloc: Global, scope: &BodyScope<'_>, body: &Body) -> Result<Room, AllocError>
    requires { is_some (tree_of body.now) ≡ true }
    ensures count { IfOk result (λ r. vec_len r.named ≡ length scope.now.locals.now) }
    ensures sights { IfOk result (λ r. (tree : Trees) → tree_of body.now ≡ Some tree → (x : Option ℕ) → IsWithin (length scope.now.locals.now) x → seen x r ≡ sight x (rooms.body_room (context_in scope.now) tree)) }
{
    let mut walk = Walk::start(alloc, scope)?;
    while let Some(place) = walk.places.pop() {
        walk.step(scope, body, place)?;
    }
    Ok(walk.into_room())
}
