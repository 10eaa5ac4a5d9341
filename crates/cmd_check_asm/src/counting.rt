//! The counts of an accepted module.

ghost use Rattle.std.specs.Prelude.{◌≡◌, length, IfOk, IfErr};
ghost use Rattle.asm_tree.specs.Views.{module_view};
ghost use Rattle.asm_lang_valid.specs.LimitRows.{foreign_calls};
ghost use Rattle.asm_lang_valid.specs.Rows.{exports_count};
ghost use Rattle.bridge_lang.specs.AsmVerdicts as verdicts;
ghost use Rattle.bridge_lang.specs.AsmVerdicts.{IsCounted};
ghost use Rattle.cmd_check_asm.specs.Verdicts.{IsRefusal};

use crate::checking::check_text;
use crate::fault::CheckFault;
use asm_validate::Checked;
use itoa::Buffer;
use std::alloc::{AllocError, Global};
use std::mem;

fn function_count(checked: &Checked) -> usize
    ensures { result ≡ length (module_view checked.now).functions }
{
    checked.module().functions.len()
}

fn table_count(checked: &Checked) -> usize
    ensures { result ≡ length (module_view checked.now).tables }
{
    checked.module().tables.len()
}

fn export_count(checked: &Checked) -> usize
    ensures { result ≡ exports_count (module_view checked.now).exports }
{
    checked.exports().len()
}

// Of foreign functions.
fn call_count(checked: &Checked) -> usize
    ensures { result ≡ length (foreign_calls (module_view checked.now)) }
{
    checked.foreign_calls().len()
}

/// The line of counts: functions, tables, exports and calls of foreign functions.
pub fn counts_line(alloc: Global, checked: &Checked) -> Result<Vec<u8>, AllocError>
    ensures { IfOk result (λ line. line.items ≡ verdicts.counts_line (module_view checked.now)) }
{
    let mut functions = Buffer::new();
    let mut tables = Buffer::new();
    let mut exports = Buffer::new();
    let mut foreign = Buffer::new();
    let mut line = Vec::from_slice(alloc, b"asm.js functions ")?;
    line.extend_from_slice(functions.format(function_count(checked)).as_bytes())?;
    line.extend_from_slice(b" tables ")?;
    line.extend_from_slice(tables.format(table_count(checked)).as_bytes())?;
    line.extend_from_slice(b" exports ")?;
    line.extend_from_slice(exports.format(export_count(checked)).as_bytes())?;
    line.extend_from_slice(b" foreign ")?;
    line.extend_from_slice(foreign.format(call_count(checked)).as_bytes())?;
    line.extend_from_slice(b"\n")?;
    Ok(line)
}

/// The counts line of the accepted module that a text says.
pub fn counts(alloc: Global, text: &[u8]) -> Result<Vec<u8>, CheckFault>
    ensures counted { IfOk result (λ line. IsCounted text.now line.items) }
    ensures refused { IfErr result (λ fault. IsRefusal text.now fault) }
{
    let checked = check_text(alloc, text)?;
    let line = counts_line(alloc, &checked);
    // The command ends here, and the system takes the memory back faster than piece by piece.
    mem::forget(checked);
    match line {
        Ok(line) => Ok(line),
        Err(_) => Err(CheckFault::Memory),
    }
}
