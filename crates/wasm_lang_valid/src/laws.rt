//! Laws of the definitions, as contracts of functions that do nothing.
ghost use Rattle.std.specs.Prelude.{◌≡◌, ◌⊎◌, ◌≤◌, ◌<◌, ◌+◌, ℕ, List, [], All, Ok, Err, Some, None, true, false, length, take, slice_get};
ghost use Rattle.wasm_lang.specs.Instructions.{Instruction, IsExpression};
ghost use Rattle.wasm_lang_valid.specs.declared.rule.Rule.{Rule};
ghost use Rattle.wasm_lang_valid.specs.declared.section.Section.{Section};
ghost use Rattle.wasm_lang.specs.Modules.{FunctionType, WasmModule};
ghost use Rattle.wasm_lang_valid.specs.ModuleRules.{function_types, type_of_function, item_rule};
ghost use Rattle.wasm_lang_valid.specs.Broken.{item_breaks};
ghost use Rattle.wasm_lang_valid.specs.Rules.{number};
ghost use Rattle.wasm_lang_valid.specs.Refusal.{Refuses};
ghost use Rattle.wasm_lang_valid.specs.Validity.{IsValidModule, RefusesModule, IsRefused};
ghost use Rattle.wasm_lang_valid.specs.State.{Level, step, steps, at_start};
ghost use Rattle.wasm_lang_valid.specs.Typing.{Context, IsValid};

/// A pass over an expression goes to its end exactly where it is valid, and stops at the first place where it can't be.
pub fn body_laws()
    ensures valid { (base : Context) (code : List Instruction) (place : ℕ) (last : List Level) → IsExpression code → length code ≤ place → steps base (at_start base.returns) (take place code) ≡ Ok last → IsValid base code }
    ensures only { (base : Context) (code : List Instruction) → IsValid base code → steps base (at_start base.returns) code ≡ Ok [] }
    ensures goes_on { (base : Context) (code : List Instruction) (place : ℕ) (instr : Instruction) (levels next : List Level) → slice_get code place ≡ Some instr → steps base (at_start base.returns) (take place code) ≡ Ok levels → step base levels instr ≡ Ok next → steps base (at_start base.returns) (take (place + 1) code) ≡ Ok next }
    ensures refuses { (base : Context) (code : List Instruction) (place : ℕ) (instr : Instruction) (levels : List Level) (rule : Rule) → IsExpression code → slice_get code place ≡ Some instr → steps base (at_start base.returns) (take place code) ≡ Ok levels → step base levels instr ≡ Err rule → Refuses base code place rule }
{}

/// Each function of a valid module has a type.
pub fn module_laws()
    ensures { (m : WasmModule) (f : ℕ) → IsValidModule m → f < length (function_types m) → (t : FunctionType) × (type_of_function m f ≡ Some t) }
{}

/// A module whose bodies are expressions is either valid or refused, and not both, and a refusal is one rule at one place.
pub fn refusal_laws()
    ensures some { (m : WasmModule) → All (λ b. IsExpression b.code) m.bodies → IsValidModule m ⊎ IsRefused m }
    ensures not_both { (m : WasmModule) (rule : Rule) (section : Section) (index instruction : ℕ) → IsValidModule m → RefusesModule m rule section index instruction → ⊥ }
    ensures one { (m : WasmModule) (rule other : Rule) (section section2 : Section) (index index2 instruction instruction2 : ℕ) → RefusesModule m rule section index instruction → RefusesModule m other section2 index2 instruction2 → (rule ≡ other) × (section ≡ section2) × (index ≡ index2) × (instruction ≡ instruction2) }
{}

/// The rule of an item is, of the rules that it breaks, the one of the least number.
pub fn item_laws()
    ensures breaks { (m : WasmModule) (section : Section) (index : ℕ) (rule : Rule) → item_rule m section index ≡ Some rule → item_breaks m section index rule ≡ true }
    ensures least { (m : WasmModule) (section : Section) (index : ℕ) (rule lower : Rule) → item_rule m section index ≡ Some rule → number lower < number rule → item_breaks m section index lower ≡ false }
    ensures fine { (m : WasmModule) (section : Section) (index : ℕ) (rule : Rule) → item_rule m section index ≡ None → item_breaks m section index rule ≡ false }
{}
