//! Exports by their names, and the functions that calls name. The function does nothing, and its contract is what the check computes.
ghost use Rattle.std.specs.Prelude.{◌≡◌, ◌∷◌, [], Some, None, true, false, codes};
ghost use Rattle.wasm_lang_exec.specs.Session.{function_named};
ghost use Rattle.wasm_run.specs.Exports.{is_named_at, place_named};
ghost use Rattle.wasm_worked.specs.Callees.{named};

/// Of the exports `a`, a function, `b`, a global, and `a` once more, which no valid module has, the first `a` counts, though the third is
/// named `a` too; `b` names no function, and none is named `c`.
pub fn callees()
    ensures first { place_named named (codes "a") ≡ Some 0 }
    ensures other { place_named named (codes "b") ≡ Some 1 }
    ensures none { place_named named (codes "c") ≡ None }
    ensures there { is_named_at named 2 (codes "a") ≡ true }
    ensures not_there { is_named_at named 1 (codes "a") ≡ false }
    ensures past { is_named_at named 3 (codes "a") ≡ false }
    ensures function { function_named named (codes "a") ≡ Some 4 }
    ensures global { function_named named (codes "b") ≡ None }
{}
