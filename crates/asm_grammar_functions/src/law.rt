//! The end of input within a function.

ghost use Rattle.std.specs.Prelude.{◌≡◌, []};
ghost use Rattle.asm_lang.specs.Trees.{FunctionTree};
ghost use Rattle.asm_lang.specs.Machine.{State, stops, failed, grammar};
ghost use Rattle.asm_grammar_functions.specs.declared.function.FunctionReading.{FunctionReading};
ghost use Rattle.asm_grammar_functions.specs.Bodies.{function_reading_view};

/// No module ends within a function.
pub fn functions_end_no_module()
    ensures { (r : FunctionReading) (k : FunctionTree → State) → stops (function_reading_view r k) ≡ failed grammar [] }
{
    asm_grammar_stmts::bodies_end_no_module();
}
