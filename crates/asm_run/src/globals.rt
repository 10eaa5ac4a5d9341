// The values of imported globals.

ghost use Rattle.std.specs.Prelude.{◌≡◌, [], IfOk, take};
ghost use Rattle.session_lang.specs.Views.{global_of};
ghost use Rattle.asm_tree.specs.Views.{module_view, texts_view};
ghost use Rattle.asm_lang_valid.specs.Refusal.{foreign_globals};
ghost use Rattle.asm_lang_valid.specs.Scope.{is_in};
ghost use Rattle.session_lang.specs.Fits as parts;
ghost use Rattle.name_slots.specs.Names.{names_in};
ghost use Rattle.asm_run.specs.Globals.{fits_line};

use crate::ranges::in_range;
use asm_validate::Checked;
use name_slots::Slots;
use script_lines::Lines;
use sem_words::Text;
use session_lang::{GlobalLine, lesser};
use std::alloc::{AllocError, Global};

/// The names of the imported globals, each found by a map.
pub fn imported_globals<'a>(alloc: Global, checked: &'a Checked) -> Result<Slots<'a>, AllocError>
    ensures { IfOk result (λ imported. imported ≡ foreign_globals (module_view checked.now)) }
{
    let names = names_of(alloc, checked.foreign_globals())?;
    Slots::new(alloc, names)
}

fn names_of<'a>(alloc: Global, texts: &'a [Text]) -> Result<Vec<&'a [u8]>, AllocError>
    ensures { IfOk result (λ names. names_in names.items ≡ texts_view texts.now) }
{
    let mut names = Vec::new(alloc);
    for text in texts {
        names.push(text.as_bytes())?;
    }
    Ok(names)
}

// Whether a global of this name is imported.
#[tactic(auto, using(crate::proofs::Named::named_here, crate::proofs::Named::named_nowhere))]
fn is_imported(imported: &Slots<'_>, name: &[u8]) -> bool
    ensures { result ≡ is_in name.now imported.now }
{
    match imported.slot(name) {
        Some(_) => true,
        None => false,
    }
}

// Whether a line names an imported global, with a value in range, and no line before this place does.
fn fits_global(imported: &Slots<'_>, lines: &Lines<'_>, place: usize, line: &GlobalLine) -> bool
    ensures { result ≡ fits_line imported.now (take place lines.now) (global_of line.now) }
{
    let name = line.name.as_bytes();
    is_imported(imported, name) && in_range(line.value) && !lines.is_given_before(place, name)
}

/// The first line of a global that doesn't fit.
#[tactic(auto, using(session_lang::proofs::FirstLines::earlier_none))]
pub fn first_global(imported: &Slots<'_>, lines: &Lines<'_>) -> Option<u64>
    ensures { result ≡ parts.least (parts.global_lines (fits_line imported.now) [] lines.now) }
{
    let globals = lines.as_slice();
    let mut first = None;
    for (i, line) in globals.iter().enumerate() {
        if !fits_global(imported, lines, i, line) {
            first = lesser(line.line, first);
        }
    }
    first
}

// Whether each of these names has a line.
fn have_lines(names: &[Text], lines: &Lines<'_>) -> bool
    ensures { result ≡ parts.are_given (texts_view names.now) lines.now }
{
    for name in names {
        if !lines.is_given(name.as_bytes()) {
            return false;
        }
    }
    true
}

/// Whether each imported global has a line.
pub fn are_given(checked: &Checked, lines: &Lines<'_>) -> bool
    ensures { result ≡ parts.are_given (foreign_globals (module_view checked.now)) lines.now }
{
    have_lines(checked.foreign_globals(), lines)
}
