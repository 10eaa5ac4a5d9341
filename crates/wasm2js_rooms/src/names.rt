//! The names of the variables that a function declares.
ghost use Rattle.std.specs.Prelude.{◌≡◌, ◌++◌, ◌∷◌, [], map, drop, length, vec_len, true, Some, is_some, if◌then◌else◌, IfOk};
ghost use Rattle.std.specs.List.{flat_map, range_with_len};
ghost use Rattle.wasm_lang_exec.specs.Code.{Trees, tree_of};
ghost use Rattle.wasm2js_translation.specs.Pairs.{names_of, local_pair};
ghost use Rattle.wasm2js_translation.specs.Rooms as rooms;
ghost use Rattle.wasm2js_translation.specs.Modules as modules;
ghost use Rattle.wasm2js_operands.specs.Scopes.{context_in};
ghost use Rattle.wasm2js_nodes.specs.Names.{name_view};
ghost use Rattle.wasm2js_rooms.specs.Flags.{flagged_names};

use crate::room::Room;
use crate::walk::room_of;
use std::alloc::{AllocError, Global};
use wasm_lang::ValType;
use wasm_run_flat::Body;
use wasm2js_nodes::{Name, Numbered};
use wasm2js_operands::BodyScope;

fn push(names: &mut Vec<Name>, name: Name) -> Result<(), AllocError>
    ensures { IfOk result (λ _. map name_view names.new.items ≡ map name_view names.old.items ++ name_view name ∷ []) }
{
    match names.push(name) {
        Ok(()) => Ok(()),
        Err(_) => Err(AllocError),
    }
}

// The names of the words of a value.
fn push_words(
    names: &mut Vec<Name>,
    value_type: ValType,
    low: Name,
    high: Name,
) -> Result<(), AllocError>
    ensures { IfOk result (λ _. map name_view names.new.items ≡ map name_view names.old.items ++ names_of value_type (record { low = name_view low; high = name_view high })) }
{
    push(names, low)?;
    match value_type {
        ValType::I32 => Ok(()),
        ValType::I64 => push(names, high),
    }
}

fn push_local(names: &mut Vec<Name>, value_type: ValType, number: usize) -> Result<(), AllocError>
    ensures { IfOk result (λ _. map name_view names.new.items ≡ map name_view names.old.items ++ names_of value_type (local_pair number)) }
{
    let number = number as u64;
    let low = Name::Counted(Numbered::LocalLow, number);
    let high = Name::Counted(Numbered::LocalHigh, number);
    push_words(names, value_type, low, high)
}

/// The names of the parameters of a function that takes values of these types.
pub fn param_names(alloc: Global, types: &[ValType]) -> Result<Vec<Name>, AllocError>
    ensures { IfOk result (λ ns. map name_view ns.items ≡ modules.param_names 0 types.now) }
{
    let mut names = Vec::new(alloc);
    for (number, value_type) in types.iter().enumerate() {
        push_local(&mut names, *value_type, number)?;
    }
    Ok(names)
}

// A local is declared where it is named.
fn push_if_named(
    names: &mut Vec<Name>,
    named: bool,
    value_type: ValType,
    number: usize,
) -> Result<(), AllocError>
    ensures { IfOk result (λ _. map name_view names.new.items ≡ map name_view names.old.items ++ (if named then names_of value_type (local_pair number) else [])) }
{
    if named {
        push_local(names, value_type, number)
    } else {
        Ok(())
    }
}

// Of the locals after so many parameters, those that are named.
fn push_locals(
    names: &mut Vec<Name>,
    room: &Room,
    params: usize,
    locals: &[ValType],
) -> Result<(), AllocError>
    requires { vec_len room.now.named ≡ length locals.now }
    ensures { IfOk result (λ _. map name_view names.new.items ≡ map name_view names.old.items ++ flagged_names room.now.named.items params (drop params locals.now)) }
{
    for number in params..locals.len() {
        push_if_named(names, room.named[number], locals[number], number)?;
    }
    Ok(())
}

fn push_operand(names: &mut Vec<Name>, room: &Room, depth: usize) -> Result<(), AllocError>
    ensures { IfOk result (λ _. map name_view names.new.items ≡ map name_view names.old.items ++ rooms.operand_names room.now.wide_height depth) }
{
    let value_type = if depth < room.wide_height {
        ValType::I64
    } else {
        ValType::I32
    };
    let depth = depth as u64;
    let low = Name::Counted(Numbered::OperandLow, depth);
    let high = Name::Counted(Numbered::OperandHigh, depth);
    push_words(names, value_type, low, high)
}

fn push_operands(names: &mut Vec<Name>, room: &Room) -> Result<(), AllocError>
    ensures { IfOk result (λ _. map name_view names.new.items ≡ map name_view names.old.items ++ flat_map (rooms.operand_names room.now.wide_height) (range_with_len 0 room.now.height)) }
{
    for depth in 0..room.height {
        push_operand(names, room, depth)?;
    }
    Ok(())
}

/// The names of the variables that a function declares beside its parameters, of which there are so many.
pub fn declared_names(
    alloc: Global,
    scope: &BodyScope<'_>,
    params: usize,
    body: &Body,
) -> Result<Vec<Name>, AllocError>
    requires { is_some (tree_of body.now) ≡ true }
    ensures { IfOk result (λ ns. (tree : Trees) → tree_of body.now ≡ Some tree → map name_view ns.items ≡ rooms.declared_names (rooms.body_room (context_in scope.now) tree) params (drop params scope.now.locals.now)) }
{
    let room = room_of(alloc, scope, body)?;
    let mut names = Vec::new(alloc);
    push_locals(&mut names, &room, params, scope.locals)?;
    push_operands(&mut names, &room)?;
    Ok(names)
}
