//! The places of the nodes of a module: a whole before its parts, in text order.

ghost use Rattle.std.specs.Prelude.{◌≡◌, ◌++◌, map, IfOk};
ghost use Rattle.sem_words.specs.Lists.{list_items};
ghost use Rattle.asm_lang.specs.Modules.{variables_places, params_places, functions_places, tables_places, exports_places, module_places};
ghost use Rattle.asm_grammar_places.specs.Parts.{function_places};
ghost use Rattle.asm_grammar_nodes.specs.Views.{variable_view, param_view, function_view, table_view, export_view, exports_view, module_view};

use crate::places::{stmts_places, with_place};
use asm_grammar_nodes::{
    ExportTree, ExportsTree, FunctionTree, ModuleTree, ParamTree, TableTree, VariableTree,
};
use sem_words::List;
use std::alloc::{AllocError, Global};

fn variables_places(places: List<u64>, trees: &[VariableTree]) -> Result<List<u64>, AllocError>
    ensures { IfOk result (λ r. list_items r ≡ list_items places ++ variables_places (map variable_view trees.now)) }
{
    let mut places = places;
    for tree in trees {
        places = with_place(places, tree.at)?;
    }
    Ok(places)
}

fn params_places(places: List<u64>, trees: &[ParamTree]) -> Result<List<u64>, AllocError>
    ensures { IfOk result (λ r. list_items r ≡ list_items places ++ params_places (map param_view trees.now)) }
{
    let mut places = places;
    for tree in trees {
        places = with_place(places, tree.at)?;
    }
    Ok(places)
}

fn function_places(places: List<u64>, tree: &FunctionTree) -> Result<List<u64>, AllocError>
    ensures { IfOk result (λ r. list_items r ≡ list_items places ++ function_places (function_view tree.now)) }
{
    let places = with_place(places, tree.at)?;
    let places = params_places(places, tree.params.as_slice())?;
    let mut places = variables_places(places, tree.locals.as_slice())?;
    match stmts_places(&mut places, tree.body.as_slice()) {
        Ok(()) => Ok(places),
        Err(_) => Err(AllocError),
    }
}

fn functions_places(places: List<u64>, trees: &[FunctionTree]) -> Result<List<u64>, AllocError>
    ensures { IfOk result (λ r. list_items r ≡ list_items places ++ functions_places (map function_view trees.now)) }
{
    let mut places = places;
    for tree in trees {
        places = function_places(places, tree)?;
    }
    Ok(places)
}

fn tables_places(places: List<u64>, trees: &[TableTree]) -> Result<List<u64>, AllocError>
    ensures { IfOk result (λ r. list_items r ≡ list_items places ++ tables_places (map table_view trees.now)) }
{
    let mut places = places;
    for tree in trees {
        places = with_place(places, tree.at)?;
    }
    Ok(places)
}

fn export_list_places(places: List<u64>, trees: &[ExportTree]) -> Result<List<u64>, AllocError>
    ensures { IfOk result (λ r. list_items r ≡ list_items places ++ map (λ t. t.at) (map export_view trees.now)) }
{
    let mut places = places;
    for tree in trees {
        places = with_place(places, tree.at)?;
    }
    Ok(places)
}

fn exports_places(places: List<u64>, tree: &ExportsTree) -> Result<List<u64>, AllocError>
    ensures { IfOk result (λ r. list_items r ≡ list_items places ++ exports_places (exports_view tree.now)) }
{
    match tree {
        ExportsTree::One(at, _) => with_place(places, *at),
        ExportsTree::Many(exports) => export_list_places(places, exports.as_slice()),
    }
}

/// The places of the nodes of a module: a whole before its parts, in text order, as offsets in bytes.
pub fn module_places(alloc: Global, tree: &ModuleTree) -> Result<List<u64>, AllocError>
    ensures { IfOk result (λ r. list_items r ≡ module_places (module_view tree.now)) }
{
    let places = with_place(List::new(alloc), 0)?;
    let places = variables_places(places, tree.globals.as_slice())?;
    let places = functions_places(places, tree.functions.as_slice())?;
    let places = tables_places(places, tree.tables.as_slice())?;
    exports_places(places, &tree.exports)
}
