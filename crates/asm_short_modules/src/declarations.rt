//! Declarations with new names.

ghost use Rattle.std.specs.Prelude.{◌≡◌, IfOk, map};
ghost use Rattle.sem_words.specs.Lists.{list_items, text_bytes};
ghost use Rattle.asm_lang.specs.Trees.{view};
ghost use Rattle.asm_tree.specs.Views.{init_view, global_view, table_view, export_view, exports_view, texts_view, text_option};
ghost use Rattle.asm_short_lang.specs.Renaming.{init_with};
ghost use Rattle.asm_short_tree.specs.Looking.{declared_by};
ghost use Rattle.asm_short_modules.specs.NewDeclared.{global_with, table_with, export_with, exports_with};

use crate::lists::pushed;
use asm_short_tree::Names;
use asm_tree::{Export, Exports, Global_, Init, Table};
use sem_words::{List, Text};
use std::alloc::{AllocError, Global};

fn copied(alloc: Global, text: &Text) -> Result<Text, AllocError>
    ensures { IfOk result (λ r. text_bytes r ≡ text_bytes text.now) }
{
    Text::from_bytes(alloc, text.as_bytes())
}

pub(crate) fn copied_option(alloc: Global, text: &Option<Text>) -> Result<Option<Text>, AllocError>
    ensures { IfOk result (λ r. text_option r ≡ text_option text.now) }
{
    match text {
        None => Ok(None),
        Some(text) => {
            let text = copied(alloc, text)?;
            Ok(Some(text))
        }
    }
}

// The new name of an object, and the name of its member, which stays.
fn renamed_member(
    alloc: Global,
    names: &Names<'_>,
    object: &Text,
    member: &Text,
) -> Result<(Text, Text), AllocError>
    ensures object { IfOk result (λ r. text_bytes r.0 ≡ declared_by names.now (text_bytes object.now)) }
    ensures member { IfOk result (λ r. text_bytes r.1 ≡ text_bytes member.now) }
{
    let object = names.text(alloc, object)?;
    let member = copied(alloc, member)?;
    Ok((object, member))
}

fn renamed_view(
    alloc: Global,
    names: &Names<'_>,
    stdlib: &Text,
    member: &Text,
    heap: &Text,
) -> Result<Init, AllocError>
    ensures { IfOk result (λ r. init_view r ≡ view (declared_by names.now (text_bytes stdlib.now)) (text_bytes member.now) (declared_by names.now (text_bytes heap.now))) }
{
    let (stdlib, member) = renamed_member(alloc, names, stdlib, member)?;
    let heap = names.text(alloc, heap)?;
    Ok(Init::View(stdlib, member, heap))
}

/// What a variable begins with. The parameters of the module that it names have new names; members keep theirs.
pub(crate) fn renamed_init(
    alloc: Global,
    names: &Names<'_>,
    init: &Init,
) -> Result<Init, AllocError>
    ensures { IfOk result (λ r. init_view r ≡ init_with (declared_by names.now) (init_view init.now)) }
{
    match init {
        Init::Number(value) => Ok(Init::Number(*value)),
        Init::Decimal(text) => {
            let text = copied(alloc, text)?;
            Ok(Init::Decimal(text))
        }
        Init::ForeignInt(foreign, member) => {
            let (foreign, member) = renamed_member(alloc, names, foreign, member)?;
            Ok(Init::ForeignInt(foreign, member))
        }
        Init::ForeignDouble(foreign, member) => {
            let (foreign, member) = renamed_member(alloc, names, foreign, member)?;
            Ok(Init::ForeignDouble(foreign, member))
        }
        Init::Member(object, member) => {
            let (object, member) = renamed_member(alloc, names, object, member)?;
            Ok(Init::Member(object, member))
        }
        Init::Math(stdlib, member) => {
            let (stdlib, member) = renamed_member(alloc, names, stdlib, member)?;
            Ok(Init::Math(stdlib, member))
        }
        Init::View(stdlib, member, heap) => renamed_view(alloc, names, stdlib, member, heap),
    }
}

/// Names of declarations, as they become.
pub(crate) fn renamed_texts(
    alloc: Global,
    names: &Names<'_>,
    texts: &[Text],
) -> Result<List<Text>, AllocError>
    ensures { IfOk result (λ r. texts_view (list_items r) ≡ map (declared_by names.now) (texts_view texts.now)) }
{
    let empty = List::with_capacity(alloc, texts.len())?;
    let mut list = empty;
    for text in texts {
        let text = names.text(alloc, text)?;
        list = pushed(list, text)?;
    }
    Ok(list)
}

pub(crate) fn renamed_globals(
    alloc: Global,
    names: &Names<'_>,
    globals: &[Global_],
) -> Result<List<Global_>, AllocError>
    ensures { IfOk result (λ r. map global_view (list_items r) ≡ map (global_with (declared_by names.now)) (map global_view globals.now)) }
{
    let empty = List::with_capacity(alloc, globals.len())?;
    let mut list = empty;
    for global in globals {
        let name = names.text(alloc, &global.name)?;
        let init = renamed_init(alloc, names, &global.init)?;
        list = pushed(list, Global_ { name, init })?;
    }
    Ok(list)
}

pub(crate) fn renamed_table(
    alloc: Global,
    names: &Names<'_>,
    table: &Table,
) -> Result<Table, AllocError>
    ensures { IfOk result (λ r. table_view r ≡ table_with (declared_by names.now) (table_view table.now)) }
{
    let name = names.text(alloc, &table.name)?;
    let members = renamed_texts(alloc, names, table.members.as_slice())?;
    Ok(Table { name, members })
}

fn renamed_export_list(
    alloc: Global,
    names: &Names<'_>,
    exports: &[Export],
) -> Result<List<Export>, AllocError>
    ensures { IfOk result (λ r. map export_view (list_items r) ≡ map (export_with (declared_by names.now)) (map export_view exports.now)) }
{
    let empty = List::with_capacity(alloc, exports.len())?;
    let mut list = empty;
    for export in exports {
        let key = copied(alloc, &export.key)?;
        let function = names.text(alloc, &export.function)?;
        list = pushed(list, Export { key, function })?;
    }
    Ok(list)
}

/// Exports, whose keys stay.
pub(crate) fn renamed_exports(
    alloc: Global,
    names: &Names<'_>,
    exports: &Exports,
) -> Result<Exports, AllocError>
    ensures { IfOk result (λ r. exports_view r ≡ exports_with (declared_by names.now) (exports_view exports.now)) }
{
    match exports {
        Exports::One(function) => {
            let function = names.text(alloc, function)?;
            Ok(Exports::One(function))
        }
        Exports::Many(exports) => {
            let exports = renamed_export_list(alloc, names, exports.as_slice())?;
            Ok(Exports::Many(exports))
        }
    }
}
