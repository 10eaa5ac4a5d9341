//! From WebAssembly to asm.js: a translated module meets no limit.

ghost use Rattle.wasm2js_laws_acceptance.specs.LimitsLaws.{CountsAreFew, NamesAreShort, LimitsHold};

/// How many variables, functions, foreign calls and entries of tables there are, and how long names of foreign members.
pub fn counts()
    ensures few { CountsAreFew }
    ensures short { NamesAreShort }
{}

/// No row of a limit is met.
pub fn limits()
    ensures { LimitsHold }
{}
