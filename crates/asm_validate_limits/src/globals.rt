// The limits on global variables.

ghost use Rattle.std.specs.Prelude.{◌≡◌, ◌+◌, ◌<◌, ◌^◌, length, map};
ghost use Rattle.sem_words.specs.Lists.{text_bytes};
ghost use Rattle.asm_tree.specs.Views.{module_view, init_view, global_view};
ghost use Rattle.asm_lang_valid.specs.LimitRows.{member_length, globals_marks};
ghost use Rattle.asm_lang_valid.specs.Scope as scopes;
ghost use Rattle.asm_validate_limits.specs.declared.tally.Tally.{Tally};
ghost use Rattle.asm_validate_limits.specs.Passes.{Tallied};
ghost use Rattle.asm_validate_limits.specs.Declarations.{global_marks};

use crate::numbers::{LONGEST_NAME, MOST_GLOBALS};
use crate::tally::{Tally, needs};
use asm_tree::{Global_, Init, Module};
use asm_validate_names::AsmRefusal;
use sem_words::Text;

// Whether this is the name of the module's second parameter.
#[tactic(auto, using(crate::proofs::Parameters::nth_is))]
fn is_foreign(home: &Module, name: &Text) -> bool
    ensures { result ≡ scopes.is_foreign (module_view home.now) (text_bytes name.now) }
{
    match home.params.get(1) {
        None => false,
        Some(parameter) => parameter.as_bytes() == name.as_bytes(),
    }
}

// The bytes of the name of the foreign member that is imported, if one is.
fn member_bytes(home: &Module, init: &Init) -> usize
    ensures { result ≡ member_length (module_view home.now) (init_view init.now) }
{
    match init {
        Init::Number(_) | Init::Decimal(_) | Init::Math(_, _) | Init::View(_, _, _) => 0,
        Init::ForeignInt(_, field) | Init::ForeignDouble(_, field) => field.as_bytes().len(),
        Init::Member(object, field) if is_foreign(home, object) => field.as_bytes().len(),
        Init::Member(_, _) => 0,
    }
}

// A global variable, before which there are so many, as the next node.
fn global_limits(
    home: &Module,
    before: usize,
    global: &Global_,
    node: u64,
) -> Result<(), AsmRefusal>
    ensures { (t : Tally) → Tallied (global_marks (module_view home.now) before node (global_view global.now)) 0 t t result }
{
    needs(before < MOST_GLOBALS, node)?;
    needs(member_bytes(home, &global.init) <= LONGEST_NAME, node)
}

/// The first limit that is passed in global variables.
pub fn globals_limits(
    home: &Module,
    globals: &[Global_],
    tally: &mut Tally<'_>,
) -> Result<(), AsmRefusal>
    requires { tally.old.at + length globals.now < 2 ^ 64 }
    ensures { Tallied (globals_marks (module_view home.now) 0 tally.old.at (map global_view globals.now)) (length globals.now) tally.old tally.new result }
{
    for (before, global) in globals.iter().enumerate() {
        global_limits(home, before, global, tally.at)?;
        tally.at += 1;
    }
    Ok(())
}
