//! The text of a module.

ghost use Rattle.std.specs.Prelude.{◌≡◌, [], ◌∷◌, OnOk, IfOk, map, false};
ghost use Rattle.sem_words.specs.Lists.{list_items};
ghost use Rattle.asm_lang.specs.Heights.{IsWellFormed};
ghost use Rattle.asm_lang.specs.Texts.{IsTextOf};
ghost use Rattle.asm_lang.specs.Printing.{globals_text, functions_text, table_text, tables_text, export_pieces, exports_text, module_name_text, module_pieces, canonical_text};
ghost use Rattle.asm_tree.specs.Views.{text_option, texts_view, global_view, function_view, table_view, export_view, exports_view, module_view};
ghost use Rattle.asm_grammar_print.specs.Put.{written, put, directive_text, heading_text, front_text, back_text};

use crate::declarations::{put_function, put_names, put_variable};
use crate::output::Output;
use asm_tree::{Export, Exports, Function, Global_, Module, Table};
use sem_words::Text;
use std::alloc::{AllocError, Global};

#[tactic(auto, using(crate::proofs::Puts::puts, crate::proofs::ModulePuts::puts))]
fn put_globals(out: &mut Output, globals: &[Global_]) -> Result<(), AllocError>
    ensures { OnOk result (written out.new ≡ put (written out.old) (globals_text (map global_view globals.now))) }
{
    for global in globals {
        put_variable(out, &global.name, &global.init)?;
        out.line_feed()?;
    }
    Ok(())
}

/// Functions, each with the end of its line.
#[tactic(auto, using(crate::proofs::Puts::puts, crate::proofs::ModulePuts::puts))]
pub fn put_functions(out: &mut Output, functions: &[Function]) -> Result<(), AllocError>
    ensures { OnOk result (written out.new ≡ put (written out.old) (functions_text (map function_view functions.now))) }
{
    for function in functions {
        put_function(out, function)?;
        out.line_feed()?;
    }
    Ok(())
}

#[tactic(auto, using(crate::proofs::Puts::puts, crate::proofs::ModulePuts::puts))]
fn put_table(out: &mut Output, table: &Table) -> Result<(), AllocError>
    ensures { OnOk result (written out.new ≡ put (written out.old) (table_text (table_view table.now))) }
{
    out.word(b"var")?;
    out.word(table.name.as_bytes())?;
    out.word(b"=")?;
    out.word(b"[")?;
    put_names(out, table.members.as_slice())?;
    out.word(b"]")?;
    out.word(b";")
}

#[tactic(auto, using(crate::proofs::Puts::puts, crate::proofs::ModulePuts::puts))]
fn put_tables(out: &mut Output, tables: &[Table]) -> Result<(), AllocError>
    ensures { OnOk result (written out.new ≡ put (written out.old) (tables_text (map table_view tables.now))) }
{
    for table in tables {
        put_table(out, table)?;
        out.line_feed()?;
    }
    Ok(())
}

#[tactic(auto, using(crate::proofs::Puts::puts, crate::proofs::ModulePuts::puts))]
fn put_export(out: &mut Output, export: &Export) -> Result<(), AllocError>
    ensures { OnOk result (written out.new ≡ put (written out.old) (export_pieces false (export_view export.now ∷ []))) }
{
    out.word(export.key.as_bytes())?;
    out.word(b":")?;
    out.word(export.function.as_bytes())
}

#[tactic(auto, using(crate::proofs::Puts::puts, crate::proofs::ModulePuts::puts))]
fn put_export_list(out: &mut Output, exports: &[Export]) -> Result<(), AllocError>
    ensures { OnOk result (written out.new ≡ put (written out.old) (export_pieces false (map export_view exports.now))) }
{
    match exports {
        [] => Ok(()),
        [first, others @ ..] => {
            put_export(out, first)?;
            for export in others {
                out.word(b",")?;
                put_export(out, export)?;
            }
            Ok(())
        }
    }
}

#[tactic(auto, using(crate::proofs::Puts::puts, crate::proofs::ModulePuts::puts))]
fn put_exports(out: &mut Output, exports: &Exports) -> Result<(), AllocError>
    ensures { OnOk result (written out.new ≡ put (written out.old) (exports_text (exports_view exports.now))) }
{
    out.word(b"return")?;
    match exports {
        Exports::One(function) => {
            out.word(function.as_bytes())?;
            out.word(b";")
        }
        Exports::Many(exports) => {
            out.word(b"{")?;
            put_export_list(out, exports.as_slice())?;
            out.word(b"}")?;
            out.word(b";")
        }
    }
}

#[tactic(auto, using(crate::proofs::Puts::puts, crate::proofs::ModulePuts::puts))]
fn put_module_name(out: &mut Output, name: &Option<Text>) -> Result<(), AllocError>
    ensures { OnOk result (written out.new ≡ put (written out.old) (module_name_text (text_option name.now))) }
{
    match name {
        None => Ok(()),
        Some(name) => out.word(name.as_bytes()),
    }
}

/// The first line of the module.
#[tactic(auto, using(crate::proofs::Puts::puts, crate::proofs::ModulePuts::puts))]
fn put_heading(out: &mut Output, module: &Module) -> Result<(), AllocError>
    ensures { OnOk result (written out.new
        ≡ put (written out.old) (heading_text (text_option «module».now.name) (texts_view (list_items «module».now.params)))) }
{
    out.word(b"function")?;
    put_module_name(out, &module.name)?;
    out.word(b"(")?;
    put_names(out, module.params.as_slice())?;
    out.word(b")")?;
    put_directive(out)
}

/// The rest of the first line, after the parameters.
#[tactic(auto, using(crate::proofs::Puts::puts, crate::proofs::ModulePuts::puts))]
fn put_directive(out: &mut Output) -> Result<(), AllocError>
    ensures { OnOk result (written out.new ≡ put (written out.old) directive_text) }
{
    out.word(b"{")?;
    out.word(b"\"use asm\"")?;
    out.word(b";")?;
    out.line_feed()
}

/// What stands before a module's functions: its first line and its variables. The functions themselves aren't looked at.
#[tactic(auto, using(crate::proofs::Puts::puts, crate::proofs::ModulePuts::puts))]
pub fn put_front(out: &mut Output, module: &Module) -> Result<(), AllocError>
    ensures { OnOk result (written out.new ≡ put (written out.old) (front_text (module_view «module».now))) }
{
    put_heading(out, module)?;
    put_globals(out, module.globals.as_slice())
}

/// What stands behind a module's functions: its tables, its exports and its end.
#[tactic(auto, using(crate::proofs::Puts::puts, crate::proofs::ModulePuts::puts))]
pub fn put_back(out: &mut Output, module: &Module) -> Result<(), AllocError>
    ensures { OnOk result (written out.new ≡ put (written out.old) (back_text (module_view «module».now))) }
{
    put_tables(out, module.tables.as_slice())?;
    put_exports(out, &module.exports)?;
    out.word(b"}")?;
    out.line_feed()
}

fn put_module(out: &mut Output, module: &Module) -> Result<(), AllocError>
    ensures { OnOk result (written out.new ≡ put (written out.old) (module_pieces (module_view «module».now))) }
{
    put_front(out, module)?;
    put_functions(out, module.functions.as_slice())?;
    put_back(out, module)
}

/// The bytes of the canonical text.
#[tactic(auto, using(crate::proofs::Puts::puts, crate::proofs::ModulePuts::puts))]
fn canonical(alloc: Global, module: &Module) -> Result<Vec<u8>, AllocError>
    ensures { IfOk result (λ text. text.items ≡ canonical_text (module_view «module».now)) }
{
    let mut out = Output::new(alloc);
    put_module(&mut out, module)?;
    Ok(out.into_bytes())
}

/// The canonical text of a module, which reads as a well-formed module again.
///
/// What is written is what stands: no line is broken but after a declaration, and no space stands but where two tokens would
/// run together without it. An error is want of memory.
pub fn print(alloc: Global, module: &Module) -> Result<Vec<u8>, AllocError>
    ensures canonical { IfOk result (λ text. text.items ≡ canonical_text (module_view «module».now)) }
    ensures again { IfOk result (λ text. IsWellFormed (module_view «module».now) → IsTextOf text.items (module_view «module».now)) }
{
    canonical(alloc, module)
}
