//! From WebAssembly to asm.js: instructions on words of 32 bits, whose code does on words what they do on operands.

ghost use Rattle.std.specs.Prelude.{ℕ, ◌^◌, ◌<◌, false};
ghost use Rattle.sem_words.specs.declared.word.Bin.TheVariants.{Add, Sub, Mul, DivS, DivU, RemS, RemU, And, Or, Xor, Shl, ShrS, ShrU, Rotl, Rotr};
ghost use Rattle.sem_words.specs.declared.word.Un.TheVariants.{Clz, Ctz, Popcnt};
ghost use Rattle.sem_words.specs.declared.word.Rel.{Rel};
ghost use Rattle.wasm_lang.specs.Instructions.{bin32, rel32, eqz32, un32, const32, nop, drop_operand, wrap, sign_extend};
ghost use Rattle.wasm2js_laws_preservation.specs.InstructionsPlain.{Always};

/// Sums, differences and products.
pub fn arithmetic()
    ensures sum { Always (bin32 Add) }
    ensures difference { Always (bin32 Sub) }
    ensures product { Always (bin32 Mul) }
{}

/// Quotients and remainders, which trap where the operators do.
pub fn division()
    ensures quotient_signed { Always (bin32 DivS) }
    ensures quotient { Always (bin32 DivU) }
    ensures rest_signed { Always (bin32 RemS) }
    ensures rest { Always (bin32 RemU) }
{}

/// Operators that go bit by bit, and shifts.
pub fn bits()
    ensures conjunction { Always (bin32 And) }
    ensures disjunction { Always (bin32 Or) }
    ensures exclusion { Always (bin32 Xor) }
    ensures shift_left { Always (bin32 Shl) }
    ensures shift_right_signed { Always (bin32 ShrS) }
    ensures shift_right { Always (bin32 ShrU) }
{}

/// Comparisons of two words, and of one with zero.
pub fn comparisons()
    ensures relation { (op : Rel) → Always (rel32 op) }
    ensures zero_test { Always eqz32 }
{}

/// Rotations.
pub fn turns()
    ensures rotation_left { Always (bin32 Rotl) }
    ensures rotation_right { Always (bin32 Rotr) }
{}

/// Counts of bits.
pub fn counts()
    ensures leading { Always (un32 Clz) }
    ensures trailing { Always (un32 Ctz) }
    ensures set { Always (un32 Popcnt) }
{}

/// Constants that are words.
pub fn constants()
    ensures { (n : ℕ) → n < 2 ^ 32 → Always (const32 n) }
{}

/// The low bits of a word, extended with their sign.
pub fn extensions()
    ensures byte { Always (sign_extend false 8) }
    ensures half { Always (sign_extend false 16) }
{}

/// Instructions without code.
pub fn silent()
    ensures nothing { Always nop }
    ensures dropped { Always drop_operand }
    ensures wrapped { Always wrap }
{}
