//! The end of input within an expression.

ghost use Rattle.std.specs.Prelude.{◌≡◌, []};
ghost use Rattle.asm_lang.specs.Trees.{ExprTree};
ghost use Rattle.asm_lang.specs.Machine.{State, ended, failed, grammar};
ghost use Rattle.asm_grammar_exprs.specs.declared.state.ExprReading.{ExprReading};
ghost use Rattle.asm_grammar_exprs.specs.Views.{reading_view};

/// No module ends within an expression, where none ends right after it.
pub fn expressions_end_no_module()
    ensures { (r : ExprReading) (k : ExprTree → State) → ((e : ExprTree) → ended (k e) ≡ failed grammar []) → ended (reading_view r k) ≡ failed grammar [] }
{}
