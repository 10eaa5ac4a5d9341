//! The rows of types and the typing say the same, and a module is refused for its first row.

ghost use Rattle.std.specs.Prelude.{◌≡◌, ◌↔◌, ℕ, Bool, [], length, None, Some, IsTrue, is_some};
ghost use Rattle.asm_lang.specs.Trees.{ModuleTree};
ghost use Rattle.asm_lang.specs.Modules.{Expr, Stmt, Function, Module, module_of, module_places};
ghost use Rattle.asm_lang_valid.specs.Rows.{Met, first, module_count};
ghost use Rattle.asm_lang_valid.specs.Typing.{Scope, Around, type_of, is_call, call_fits, typed};
ghost use Rattle.asm_lang_valid.specs.Typed.{function_typed, module_typed};
ghost use Rattle.asm_lang_valid.specs.NameRows.{name_rows};
ghost use Rattle.asm_lang_valid.specs.TypeRows.{expr_rows, call_rows, stmt_rows, function_rows, type_rows};
ghost use Rattle.asm_lang_valid.specs.LimitRows.{limit_rows};
ghost use Rattle.asm_lang_valid.specs.Refusal.{refusal, IsAccepted};

/// There is no row of types exactly where there is a type, whatever the node's number.
pub fn type_laws()
    ensures expressions { (c : Scope) (at : ℕ) (e : Expr) → (expr_rows c at e ≡ []) ↔ IsTrue (is_some (type_of c e)) }
    ensures calls { (c : Scope) (result : Bool) (at : ℕ) (e : Expr) → IsTrue (is_call c e) → (call_rows c result at e ≡ []) ↔ IsTrue (call_fits c result e) }
    ensures statements { (c : Scope) (a : Around) (at : ℕ) (s : Stmt) → (stmt_rows c a at s ≡ []) ↔ IsTrue (typed c a s) }
    ensures functions { (m : Module) (at : ℕ) (f : Function) → (function_rows m at f ≡ []) ↔ IsTrue (function_typed m f) }
    ensures modules { (m : Module) → (type_rows m ≡ []) ↔ IsTrue (module_typed m) }
{}

/// A module is accepted exactly where it breaks no rule of names, is typed and is within the limits. Any other is
/// refused for the first row of the first phase that has one.
pub fn refusal_laws()
    ensures accepted { (m : Module) → IsAccepted m ↔ ((name_rows m ≡ []) × IsTrue (module_typed m) × (limit_rows m ≡ [])) }
    ensures without_rows { (m : Module) → (refusal m ≡ None) ↔ ((name_rows m ≡ []) × (type_rows m ≡ []) × (limit_rows m ≡ [])) }
    ensures for_names { (m : Module) (x : Met) → first (name_rows m) ≡ Some x → refusal m ≡ Some x }
    ensures for_types { (m : Module) (x : Met) → name_rows m ≡ [] → first (type_rows m) ≡ Some x → refusal m ≡ Some x }
    ensures for_limits { (m : Module) (x : Met) → name_rows m ≡ [] → type_rows m ≡ [] → first (limit_rows m) ≡ Some x → refusal m ≡ Some x }
{}

/// A module that was read has as many nodes as places.
#[tactic(auto, using(crate::proofs::Places::module_counted))]
pub fn place_laws()
    ensures { (m : ModuleTree) → length (module_places m) ≡ module_count (module_of m) }
{}
