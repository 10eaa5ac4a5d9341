//! The functions that the module defines.
ghost use Rattle.std.specs.Prelude.{◌≡◌, false, drop, length, Some, IsSome, IfOk};
ghost use Rattle.asm_tree.specs.Views.{function_view};
ghost use Rattle.wasm_tree.specs.Views.{body_of, module_of, type_of};
ghost use Rattle.wasm_lang_valid.specs.Measures.{has_mul_div};
ghost use Rattle.wasm_lang_exec.specs.Code.{Trees, tree_of};
ghost use Rattle.wasm2js_translation.specs.Bodies.{body_stmts};
ghost use Rattle.wasm2js_translation.specs.Helpers.{function_of};
ghost use Rattle.wasm2js_translation.specs.Modules as modules;
ghost use Rattle.wasm2js_translation.specs.Rooms as rooms;
ghost use Rattle.wasm2js_translation.specs.Names as names;
ghost use Rattle.wasm2js_translation.specs.Names.{numbered};
ghost use Rattle.wasm2js_operands.specs.Scopes.{context_in};
ghost use Rattle.wasm2js_functions.specs.Facts.{FactsOf};

use crate::facts::Facts;
use asm_tree::Function;
use std::alloc::{AllocError, Global};
use wasm_lang::ValType;
use wasm_run_flat::Body;
use wasm_tree::{self, FuncType, Module};
use wasm2js_bodies::{Sizes, body_statements};
use wasm2js_build::function;
use wasm2js_jumps::result_type;
use wasm2js_nodes::{Name, Numbered};
use wasm2js_operands::BodyScope;
use wasm2js_rooms::{declared_names, param_names};

// The function of this number, which takes values of these types.
fn function_in(
    alloc: Global,
    sizes: Sizes,
    scope: &BodyScope<'_>,
    number: u64,
    params: &[ValType],
    body: &Body,
) -> Result<Function, AllocError>
    requires expression { IsSome (tree_of body.now) }
    requires translated { has_mul_div body.now ≡ false }
    ensures { IfOk result (λ f. (tree : Trees) → tree_of body.now ≡ Some tree
        → function_view f ≡ function_of (numbered names.function number) (modules.param_names 0 params.now) (rooms.declared_names (rooms.body_room (context_in scope.now) tree) (length params.now) (drop (length params.now) scope.now.locals.now)) (body_stmts sizes.bytes sizes.cells (context_in scope.now) tree)) }
{
    let names = param_names(alloc, params)?;
    let declared = declared_names(alloc, scope, params.len(), body)?;
    let statements = body_statements(alloc, sizes, scope, body)?;
    let made = function(
        alloc,
        Name::Counted(Numbered::Function, number),
        names.as_slice(),
        declared.as_slice(),
        statements,
    )?;
    Ok(made)
}

/// The function of this number, of this type and with this body, which is an expression.
pub fn own_function(
    alloc: Global,
    module: &Module<'_>,
    facts: &Facts,
    number: u64,
    function_type: &FuncType,
    body: &wasm_tree::Body<'_>,
) -> Result<Function, AllocError>
    requires facts { FactsOf facts.now (module_of «module».now) }
    requires expression { IsSome (tree_of (body_of body.now).code) }
    requires translated { has_mul_div (body_of body.now).code ≡ false }
    ensures { IfOk result (λ f. (tree : Trees) → tree_of (body_of body.now).code ≡ Some tree → function_view f ≡ modules.own_function (module_of «module».now) number (type_of function_type.now) (body_of body.now).locals tree) }
{
    let params = function_type.params.as_slice();
    let locals = body.local_types(alloc, params)?;
    let flat = Body::of(alloc, &body.code)?;
    let scope = BodyScope {
        types: module.types.as_slice(),
        forms: facts.forms.as_slice(),
        functions: facts.functions.as_slice(),
        table: facts.table,
        memory: facts.memory,
        globals: facts.globals.as_slice(),
        locals: locals.as_slice(),
        returns: result_type(function_type),
    };
    let made = function_in(alloc, facts.sizes, &scope, number, params, &flat)?;
    Ok(made)
}
