//! From WebAssembly to asm.js: instructions on words of 64 bits, whose code does on low and high words what they do on operands.

ghost use Rattle.std.specs.Prelude.{ℕ, ◌^◌, ◌<◌, true};
ghost use Rattle.sem_words.specs.declared.word.Bin.TheVariants.{Add, Sub, And, Or, Xor, Shl, ShrS, ShrU, Rotl, Rotr};
ghost use Rattle.sem_words.specs.declared.word.Un.TheVariants.{Clz, Ctz, Popcnt};
ghost use Rattle.sem_words.specs.declared.word.Rel.{Rel};
ghost use Rattle.wasm_lang.specs.Instructions.{bin64, rel64, eqz64, un64, const64, extend_s, extend_u, sign_extend};
ghost use Rattle.wasm2js_laws_preservation.specs.InstructionsPlain.{Always};

/// Sums and differences.
pub fn sums()
    ensures sum { Always (bin64 Add) }
    ensures difference { Always (bin64 Sub) }
{}

/// Operators that go bit by bit.
pub fn bits()
    ensures conjunction { Always (bin64 And) }
    ensures disjunction { Always (bin64 Or) }
    ensures exclusion { Always (bin64 Xor) }
{}

/// Comparisons, and the test for zero.
pub fn comparisons()
    ensures each { (op : Rel) → Always (rel64 op) }
    ensures zero { Always eqz64 }
{}

/// Shifts and rotations.
pub fn turns()
    ensures shift_left { Always (bin64 Shl) }
    ensures shift_right_signed { Always (bin64 ShrS) }
    ensures shift_right { Always (bin64 ShrU) }
    ensures rotation_left { Always (bin64 Rotl) }
    ensures rotation_right { Always (bin64 Rotr) }
{}

/// Counts of bits.
pub fn counts()
    ensures leading { Always (un64 Clz) }
    ensures trailing { Always (un64 Ctz) }
    ensures set { Always (un64 Popcnt) }
{}

/// Words that become words of 64 bits, and low bits that are extended with their sign.
pub fn extensions()
    ensures signed { Always extend_s }
    ensures unsigned { Always extend_u }
    ensures byte { Always (sign_extend true 8) }
    ensures half { Always (sign_extend true 16) }
    ensures word { Always (sign_extend true 32) }
{}

/// Constants that are words.
pub fn constants()
    ensures { (n : ℕ) → n < 2 ^ 64 → Always (const64 n) }
{}
