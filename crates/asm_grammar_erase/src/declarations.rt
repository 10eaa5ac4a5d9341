//! From declarations with places to the declarations that they say.

ghost use Rattle.std.specs.Prelude.{◌≡◌, ◌∷◌, map, if◌then◌else◌, IfOk};
ghost use Rattle.sem_words.specs.Lists.{list_items, text_bytes};
ghost use Rattle.asm_lang.specs.Trees.{view};
ghost use Rattle.asm_lang.specs.Modules.{init_of, variable_of, param_of, function_of, table_of, export_of, exports_of};
ghost use Rattle.asm_grammar_nodes.specs.Views as placed;
ghost use Rattle.asm_tree.specs.Views as plain;

use crate::lists::pushed;
use crate::nodes::copied;
use crate::number::nearest;
use crate::statements::used_stmts;
use asm_grammar_nodes::{
    ExportTree, ExportsTree, FunctionTree, InitTree, ParamTree, TableTree, VariableTree,
};
use asm_tree::{Export, Exports, Function, Global_, Init, Local, Param, Table};
use sem_words::{List, Text};
use std::alloc::{AllocError, Global};

/// The text, after a minus sign where there is one.
fn signed(alloc: Global, minus: bool, text: &Text) -> Result<Text, AllocError>
    ensures { IfOk result (λ r. text_bytes r ≡ (if minus then 45 ∷ (text_bytes text.now) else (text_bytes text.now))) }
{
    if minus {
        let mut bytes = Vec::new(alloc);
        bytes.push(b'-')?;
        bytes.extend_from_slice(text.as_bytes())?;
        Text::from_bytes(alloc, bytes.as_slice())
    } else {
        copied(alloc, text)
    }
}

/// The copies of two texts.
fn both_copied(alloc: Global, first: &Text, second: &Text) -> Result<(Text, Text), AllocError>
    ensures before { IfOk result (λ r. text_bytes r.0 ≡ text_bytes first.now) }
    ensures after { IfOk result (λ r. text_bytes r.1 ≡ text_bytes second.now) }
{
    let first = copied(alloc, first)?;
    let second = copied(alloc, second)?;
    Ok((first, second))
}

/// The view of the heap that a member of the standard library makes.
fn erased_view(alloc: Global, stdlib: &Text, member: &Text, heap: &Text) -> Result<Init, AllocError>
    ensures { IfOk result (λ r. plain.init_view r ≡ view (text_bytes stdlib.now) (text_bytes member.now) (text_bytes heap.now)) }
{
    let (stdlib, member) = both_copied(alloc, stdlib, member)?;
    let heap = copied(alloc, heap)?;
    Ok(Init::View(stdlib, member, heap))
}

fn erased_init(alloc: Global, init: &InitTree) -> Result<Init, AllocError>
    ensures { IfOk result (λ r. plain.init_view r ≡ init_of (placed.init_view init.now)) }
{
    match init {
        InitTree::Number(value) => Ok(Init::Number(nearest(*value))),
        InitTree::Decimal(minus, text) => {
            let text = signed(alloc, *minus, text)?;
            Ok(Init::Decimal(text))
        }
        InitTree::ForeignInt(foreign, member) => {
            let (foreign, member) = both_copied(alloc, foreign, member)?;
            Ok(Init::ForeignInt(foreign, member))
        }
        InitTree::ForeignDouble(foreign, member) => {
            let (foreign, member) = both_copied(alloc, foreign, member)?;
            Ok(Init::ForeignDouble(foreign, member))
        }
        InitTree::Member(module, member) => {
            let (module, member) = both_copied(alloc, module, member)?;
            Ok(Init::Member(module, member))
        }
        InitTree::Math(stdlib, member) => {
            let (stdlib, member) = both_copied(alloc, stdlib, member)?;
            Ok(Init::Math(stdlib, member))
        }
        InitTree::View(stdlib, member, heap) => erased_view(alloc, stdlib, member, heap),
    }
}

pub(crate) fn erased_texts(alloc: Global, texts: &[Text]) -> Result<List<Text>, AllocError>
    ensures { IfOk result (λ r. map text_bytes (list_items r) ≡ map text_bytes texts.now) }
{
    let mut copies = List::new(alloc);
    for text in texts {
        let copy = copied(alloc, text)?;
        copies = pushed(copies, copy)?;
    }
    Ok(copies)
}

fn erased_global(alloc: Global, tree: &VariableTree) -> Result<Global_, AllocError>
    ensures { IfOk result (λ r. plain.global_view r ≡ variable_of (placed.variable_view tree.now)) }
{
    let name = copied(alloc, &tree.name)?;
    let init = erased_init(alloc, &tree.init)?;
    Ok(Global_ { name, init })
}

pub(crate) fn erased_globals(
    alloc: Global,
    trees: &[VariableTree],
) -> Result<List<Global_>, AllocError>
    ensures { IfOk result (λ r. map plain.global_view (list_items r) ≡ map variable_of (map placed.variable_view trees.now)) }
{
    let mut globals = List::new(alloc);
    for tree in trees {
        let global = erased_global(alloc, tree)?;
        globals = pushed(globals, global)?;
    }
    Ok(globals)
}

fn erased_local(alloc: Global, tree: &VariableTree) -> Result<Local, AllocError>
    ensures { IfOk result (λ r. plain.local_view r ≡ variable_of (placed.variable_view tree.now)) }
{
    let name = copied(alloc, &tree.name)?;
    let init = erased_init(alloc, &tree.init)?;
    Ok(Local { name, init })
}

fn erased_locals(alloc: Global, trees: &[VariableTree]) -> Result<List<Local>, AllocError>
    ensures { IfOk result (λ r. map plain.local_view (list_items r) ≡ map variable_of (map placed.variable_view trees.now)) }
{
    let mut locals = List::new(alloc);
    for tree in trees {
        let local = erased_local(alloc, tree)?;
        locals = pushed(locals, local)?;
    }
    Ok(locals)
}

fn erased_params(alloc: Global, trees: &[ParamTree]) -> Result<List<Param>, AllocError>
    ensures { IfOk result (λ r. map plain.param_view (list_items r) ≡ map param_of (map placed.param_view trees.now)) }
{
    let mut params = List::new(alloc);
    for tree in trees {
        let name = copied(alloc, &tree.name)?;
        let double = tree.double;
        params = pushed(params, Param { name, double })?;
    }
    Ok(params)
}

fn used_function(alloc: Global, tree: FunctionTree) -> Result<Function, AllocError>
    ensures { IfOk result (λ r. plain.function_view r ≡ function_of (placed.function_view tree)) }
{
    let FunctionTree {
        at: _,
        name,
        params,
        locals,
        body,
    } = tree;
    let params = erased_params(alloc, params.as_slice())?;
    let locals = erased_locals(alloc, locals.as_slice())?;
    let body = used_stmts(alloc, body)?;
    Ok(Function {
        name,
        params,
        locals,
        body,
    })
}

/// The functions. Each is let go as soon as it is erased.
pub(crate) fn used_functions(
    alloc: Global,
    trees: List<FunctionTree>,
) -> Result<List<Function>, AllocError>
    ensures { IfOk result (λ r. map plain.function_view (list_items r) ≡ map function_of (map placed.function_view (list_items trees))) }
{
    let empty = List::with_capacity(alloc, trees.len())?;
    let mut functions = empty;
    let mut left = trees.into_vec();
    left.reverse();
    while let Some(tree) = left.pop() {
        let function = used_function(alloc, tree)?;
        functions = pushed(functions, function)?;
    }
    Ok(functions)
}

pub(crate) fn erased_tables(alloc: Global, trees: &[TableTree]) -> Result<List<Table>, AllocError>
    ensures { IfOk result (λ r. map plain.table_view (list_items r) ≡ map table_of (map placed.table_view trees.now)) }
{
    let mut tables = List::new(alloc);
    for tree in trees {
        let name = copied(alloc, &tree.name)?;
        let members = erased_texts(alloc, tree.members.as_slice())?;
        tables = pushed(tables, Table { name, members })?;
    }
    Ok(tables)
}

fn erased_export_list(alloc: Global, trees: &[ExportTree]) -> Result<List<Export>, AllocError>
    ensures { IfOk result (λ r. map plain.export_view (list_items r) ≡ map export_of (map placed.export_view trees.now)) }
{
    let mut exports = List::new(alloc);
    for tree in trees {
        let key = copied(alloc, &tree.key)?;
        let function = copied(alloc, &tree.function)?;
        exports = pushed(exports, Export { key, function })?;
    }
    Ok(exports)
}

pub(crate) fn erased_exports(alloc: Global, tree: &ExportsTree) -> Result<Exports, AllocError>
    ensures { IfOk result (λ r. plain.exports_view r ≡ exports_of (placed.exports_view tree.now)) }
{
    match tree {
        ExportsTree::One(_, function) => {
            let function = copied(alloc, function)?;
            Ok(Exports::One(function))
        }
        ExportsTree::Many(exports) => {
            let exports = erased_export_list(alloc, exports.as_slice())?;
            Ok(Exports::Many(exports))
        }
    }
}
