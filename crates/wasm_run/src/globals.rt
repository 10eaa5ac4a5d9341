// Lines of globals that don't fit.

ghost use Rattle.std.specs.Prelude.{◌≡◌, [], take};
ghost use Rattle.session_lang.specs.Views.{global_of};
ghost use Rattle.session_lang.specs.Fits as parts;
ghost use Rattle.wasm_run.specs.Globals.{fits_line};

use crate::imported::Imported;
use script_lines::Lines;
use session_lang::{GlobalLine, lesser};

// Whether a line names an imported global, with a value in its range, and no line before this place does.
fn fits_global(imported: &Imported<'_>, lines: &Lines<'_>, place: usize, line: &GlobalLine) -> bool
    ensures { result ≡ fits_line imported.now (take place lines.now) (global_of line.now) }
{
    let name = line.name.as_bytes();
    imported.takes(name, line.value) && !lines.is_given_before(place, name)
}

/// The first line of a global that doesn't fit.
#[tactic(auto, using(session_lang::proofs::FirstLines::earlier_none))]
pub fn first_global(imported: &Imported<'_>, lines: &Lines<'_>) -> Option<u64>
    ensures { result ≡ parts.least (parts.global_lines (fits_line imported.now) [] lines.now) }
{
    let globals = lines.as_slice();
    let mut first = None;
    for (i, line) in globals.iter().enumerate() {
        if !fits_global(imported, lines, i, line) {
            first = lesser(line.line, first);
        }
    }
    first
}
