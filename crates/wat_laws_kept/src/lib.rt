//! The text form of WebAssembly: marks that stand for the form alone say nothing, so a reader need not keep them; and what marks that come one by one say.
#![tactic(auto)]

ghost use Rattle.std.specs.Prelude.{◌≡◌, List};
ghost use Rattle.wat_lang.specs.Grammar.{Marked};
ghost use Rattle.wat_lang.specs.Modules.{module_of};
ghost use Rattle.wat_lang.specs.Rows.{rows_of};
ghost use Rattle.wat_laws_kept.specs.Kept.{kept};

/// The marks that are kept have the rows and the module of all.
pub fn kept_marks()
    ensures rows { (ms : List Marked) → rows_of (kept ms) ≡ rows_of ms }
    ensures modules { (ms : List Marked) → module_of (kept ms) ≡ module_of ms }
{}
