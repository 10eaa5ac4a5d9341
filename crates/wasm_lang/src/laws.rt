//! Laws of the definitions, as contracts of functions that do nothing.
ghost use Rattle.std.specs.Prelude.{◌≡◌, ℕ, ◌≤◌, List, [], ◌++◌, Ok};
ghost use Rattle.wasm_lang.specs.Instructions.{Instruction};
ghost use Rattle.wasm_lang.specs.Numbers.{IsUnsigned, IsInteger};
ghost use Rattle.wasm_lang.specs.Grammar.{IsInstruction, IsCode};
ghost use Rattle.wasm_lang.specs.Limits.{levels, most_levels};
ghost use Rattle.wasm_lang.specs.Reading.{Input, unsigned_at, integer_at};
ghost use Rattle.wasm_lang.specs.ReadingCode.{instruction_field, code_field, spelled};

/// Numbers are read exactly where they are spelled, and what is left is an end of the bytes.
pub fn number_laws()
    ensures unsigned_reads { (bits n : ℕ) (xs ys : List ℕ) → IsUnsigned bits n xs ys → unsigned_at bits xs ≡ Ok (n, ys) }
    ensures unsigned_is { (bits n : ℕ) (xs ys : List ℕ) → unsigned_at bits xs ≡ Ok (n, ys) → IsUnsigned bits n xs ys }
    ensures unsigned_front { (bits n : ℕ) (xs ys : List ℕ) → IsUnsigned bits n xs ys → (front : List ℕ) × (xs ≡ front ++ ys) }
    ensures integer_reads { (bits n : ℕ) (xs ys : List ℕ) → IsInteger bits n xs ys → integer_at bits xs ≡ Ok (n, ys) }
    ensures integer_is { (bits n : ℕ) (xs ys : List ℕ) → integer_at bits xs ≡ Ok (n, ys) → IsInteger bits n xs ys }
    ensures integer_front { (bits n : ℕ) (xs ys : List ℕ) → IsInteger bits n xs ys → (front : List ℕ) × (xs ≡ front ++ ys) }
{}

/// Instructions are read exactly where they are spelled. Expressions are, within the limit on levels; and
/// the instructions that the bytes of an expression spell are those of the expression.
pub fn code_laws()
    ensures instruction_reads { (i : Instruction) (at : ℕ) (xs ys : List ℕ) → IsInstruction i xs ys → (next : ℕ) × (instruction_field (record { at = at; bytes = xs }) ≡ Ok (i, record { at = next; bytes = ys })) }
    ensures instruction_is { (i : Instruction) (from to : Input) → instruction_field from ≡ Ok (i, to) → IsInstruction i from.bytes to.bytes }
    ensures code_reads { (code : List Instruction) (at : ℕ) (xs ys : List ℕ) → IsCode code xs ys → levels code ≤ most_levels → (next : ℕ) × (code_field (record { at = at; bytes = xs }) ≡ Ok (code, record { at = next; bytes = ys })) }
    ensures code_is { (code : List Instruction) (from to : Input) → code_field from ≡ Ok (code, to) → IsCode code from.bytes to.bytes × (levels code ≤ most_levels) }
    ensures spelled_is { (code : List Instruction) (bytes : List ℕ) → IsCode code bytes [] → spelled bytes ≡ code }
{}
