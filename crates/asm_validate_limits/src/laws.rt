//! What follows where a module is within the limits.

ghost use Rattle.std.specs.Prelude.{◌≡◌, ◌≤◌, ℕ, [], Some, length, slice_get};
ghost use Rattle.asm_lang.specs.Modules.{Function, Module};
ghost use Rattle.asm_lang_valid.specs.LimitRows.{limit_rows, most_functions, most_params};

/// A module within the limits has few functions, each with few parameters.
pub fn limit_laws()
    ensures functions { (m : Module) → limit_rows m ≡ [] → length m.functions ≤ most_functions }
    ensures params { (m : Module) (i : ℕ) (f : Function) → limit_rows m ≡ [] → slice_get m.functions i ≡ Some f → length f.params ≤ most_params }
{}
