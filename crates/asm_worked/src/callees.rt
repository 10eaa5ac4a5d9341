//! Exports by their keys, and the functions that calls name. The function does nothing, and its contract is what the check computes.
ghost use Rattle.std.specs.Prelude.{◌≡◌, ◌∷◌, [], Some, None, true, false, codes};
ghost use Rattle.asm2wasm_translation.specs.Numbers.{slot_of};
ghost use Rattle.asm_run.specs.Exports.{is_key_at, keys_in};
ghost use Rattle.asm_run_state.specs.Session.{callees_of};
ghost use Rattle.asm_worked.specs.Callees.{asked, keyed};
ghost use Rattle.asm_worked.specs.Rows as rows;

/// Of `return{a:f,b:g,a:h};`, which no accepted module has, the first `a` counts, though the third key is `a` too; no key is `c`. Of
/// calls of `f`, `d` and `f` of a module that exports `f` the first and the last name its function, the other none.
pub fn callees()
    ensures first { slot_of (keys_in keyed) (codes "a") ≡ Some 0 }
    ensures other { slot_of (keys_in keyed) (codes "b") ≡ Some 1 }
    ensures none { slot_of (keys_in keyed) (codes "c") ≡ None }
    ensures there { is_key_at keyed 2 (codes "a") ≡ true }
    ensures not_there { is_key_at keyed 1 (codes "a") ≡ false }
    ensures past { is_key_at keyed 3 (codes "a") ≡ false }
    ensures callees { callees_of rows.sum asked ≡ Some 0 ∷ None ∷ Some 0 ∷ [] }
{}
