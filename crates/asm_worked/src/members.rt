//! Members of the foreign object, by their numbers. The function does nothing, and its contract is what the check computes.
ghost use Rattle.std.specs.Prelude.{◌≡◌, codes};
ghost use Rattle.asm_names.specs.Members.{first_import, import_at};
ghost use Rattle.asm_worked.specs.Members.{imports};

/// In `var a=o.f,b=1,c=o.g,d=o.f;` the members `f` and `g` have the numbers of the declarations of `a` and `c`, `d` imports `f` once
/// more, and no declaration imports a member `h`.
pub fn members()
    ensures first { first_import imports (codes "f") ≡ 0 }
    ensures later { first_import imports (codes "g") ≡ 2 }
    ensures none { first_import imports (codes "h") ≡ 4 }
    ensures again { import_at imports 3 ≡ codes "f" }
    ensures nothing { import_at imports 1 ≡ codes "" }
{}
