//! The end of input within a body.

ghost use Rattle.std.specs.Prelude.{◌≡◌, []};
ghost use Rattle.asm_lang.specs.Trees.{StmtTrees};
ghost use Rattle.asm_lang.specs.Machine.{Step, stops, failed, grammar};
ghost use Rattle.asm_grammar_stmts.specs.declared.state.BodyReading.{BodyReading};
ghost use Rattle.asm_grammar_stmts.specs.Views.{body_view};

/// No module ends within the body of a function.
pub fn bodies_end_no_module()
    ensures { (r : BodyReading) (k : StmtTrees → Step) → stops (body_view r k) ≡ failed grammar [] }
{
    asm_grammar_exprs::expressions_end_no_module();
}
