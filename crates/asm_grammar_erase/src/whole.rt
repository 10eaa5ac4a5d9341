//! A whole module.

ghost use Rattle.std.specs.Prelude.{◌≡◌, IfOk};
ghost use Rattle.sem_words.specs.Lists.{list_items};
ghost use Rattle.asm_lang.specs.Modules.{module_of, module_places};
ghost use Rattle.asm_grammar_nodes.specs.Views as placed;
ghost use Rattle.asm_tree.specs.Views as plain;

use crate::declarations::{
    erased_exports, erased_globals, erased_tables, erased_texts, used_functions,
};
use crate::wholes::copied_option;
use asm_grammar_nodes::ModuleTree;
use asm_grammar_places::module_places;
use asm_tree::{Module, Parsed};
use std::alloc::{AllocError, Global};

fn used_module(alloc: Global, tree: ModuleTree) -> Result<Module, AllocError>
    ensures { IfOk result (λ r. plain.module_view r ≡ module_of (placed.module_view tree)) }
{
    let ModuleTree {
        heading,
        globals,
        functions,
        tables,
        exports,
    } = tree;
    let name = copied_option(alloc, &heading.name)?;
    let params = erased_texts(alloc, heading.params.as_slice())?;
    let globals = erased_globals(alloc, globals.as_slice())?;
    let functions = used_functions(alloc, functions)?;
    let tables = erased_tables(alloc, tables.as_slice())?;
    let exports = erased_exports(alloc, &exports)?;
    Ok(Module {
        name,
        params,
        globals,
        functions,
        tables,
        exports,
    })
}

/// The module that a tree says, and the places of its nodes: a whole before its parts, in text order.
pub fn erased(alloc: Global, tree: ModuleTree) -> Result<Parsed, AllocError>
    ensures same { IfOk result (λ p. plain.module_view p.module ≡ module_of (placed.module_view tree)) }
    ensures places { IfOk result (λ p. list_items p.places ≡ module_places (placed.module_view tree)) }
{
    let places = module_places(alloc, &tree)?;
    let module = used_module(alloc, tree)?;
    Ok(Parsed { module, places })
}
