//! The tables, whose members are names of functions.
ghost use Rattle.std.specs.Prelude.{◌≡◌, ◌++◌, ◌∷◌, [], List, map, None, IfOk};
ghost use Rattle.sem_words.specs.Lists.{list_items, text_bytes};
ghost use Rattle.wasm_tree.specs.Views.{type_of};
ghost use Rattle.wasm_lang_valid.specs.Profile.{outside_profile};
ghost use Rattle.asm_tree.specs.Views.{table_view};
ghost use Rattle.wasm2js_translation.specs.Names.{spelled};
ghost use Rattle.wasm2js_translation.specs.Tables;
ghost use Rattle.wasm2js_nodes.specs.Names.{name_view};
ghost use Rattle.wasm2js_tables.specs.Views.{cell_view, masked_view};
ghost use Rattle.wasm2js_stubs.specs.Few.{TakeFew};
ghost use Rattle.wasm2js_stubs.specs.Members.{table_in, table_with};

use crate::numbers::stub_of;
use asm_tree::Table;
use sem_words::{List, Text};
use std::alloc::{AllocError, Global};
use wasm_tree::FuncType;
use wasm_validate::Valid;
use wasm2js_nodes::{Name, Numbered, spell};
use wasm2js_tables::{Cell, MaskedTable};

/// The tables of a module in the profile, from its masked ones.
pub fn tables(
    alloc: Global,
    valid: &Valid<'_>,
    masked: &[MaskedTable],
) -> Result<List<Table>, AllocError>
    requires profile { outside_profile valid.now ≡ None }
    requires masked { map masked_view masked.now ≡ Tables.masked valid.now }
    ensures { IfOk result (λ tables. map table_view (list_items tables) ≡ Tables.tables_for valid.now) }
{
    let types = valid.module().types.as_slice();
    tables_of(alloc, types, masked)
}

fn tables_of(
    alloc: Global,
    types: &[FuncType],
    masked: &[MaskedTable],
) -> Result<List<Table>, AllocError>
    requires { TakeFew (map type_of types.now) }
    ensures { IfOk result (λ tables. map table_view (list_items tables) ≡ map (table_in (map type_of types.now)) (map masked_view masked.now)) }
{
    let mut tables = List::new(alloc);
    for table in masked {
        let stub = stub_of(types, table.function_type);
        let table = table_of(alloc, stub, table)?;
        tables = with_table(tables, table)?;
    }
    Ok(tables)
}

// The list with one more item at its end.
fn with_table(tables: List<Table>, table: Table) -> Result<List<Table>, AllocError>
    ensures { IfOk result (λ more. map table_view (list_items more) ≡ map table_view (list_items tables) ++ table_view table ∷ []) }
{
    let mut tables = tables;
    match tables.push(table) {
        Ok(()) => Ok(tables),
        Err(_) => Err(AllocError),
    }
}

fn table_of(alloc: Global, stub: u64, table: &MaskedTable) -> Result<Table, AllocError>
    ensures { IfOk result (λ t. table_view t ≡ table_with stub (masked_view table.now)) }
{
    let name = Name::Counted(Numbered::Table, u64::from(table.function_type));
    let name = spell(alloc, name)?;
    let members = members_of(alloc, stub, table.cells.as_slice())?;
    Ok(Table { name, members })
}

fn members_of(alloc: Global, stub: u64, cells: &[Cell]) -> Result<List<Text>, AllocError>
    ensures { IfOk result (λ members. map text_bytes (list_items members) ≡ map (λ x. spelled (Tables.cell_name stub x)) (map cell_view cells.now)) }
{
    let mut members = List::new(alloc);
    for cell in cells {
        let member = spell(alloc, name_of(stub, *cell))?;
        members = with_member(members, member)?;
    }
    Ok(members)
}

// The list with one more item at its end.
fn with_member(members: List<Text>, member: Text) -> Result<List<Text>, AllocError>
    ensures { IfOk result (λ more. map text_bytes (list_items more) ≡ map text_bytes (list_items members) ++ text_bytes member ∷ []) }
{
    let mut members = members;
    match members.push(member) {
        Ok(()) => Ok(members),
        Err(_) => Err(AllocError),
    }
}

fn name_of(stub: u64, cell: Cell) -> Name
    ensures { name_view result ≡ Tables.cell_name stub (cell_view cell) }
{
    match cell {
        Cell::Function(function) => Name::Counted(Numbered::Function, u64::from(function)),
        Cell::Empty => Name::Counted(Numbered::NoEntry, stub),
        Cell::Other => Name::Counted(Numbered::OtherEntry, stub),
    }
}
