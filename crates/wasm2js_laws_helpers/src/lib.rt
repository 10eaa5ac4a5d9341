//! The helper functions of what WebAssembly is translated to do what their operators mean.
#![tactic(auto)]

pub mod access_laws;

ghost use Rattle.wasm2js_laws_helpers.specs.Laws.{ShiftLeftHelps, ShiftRightSignedHelps, ShiftRightHelps, RotateLeftHelps, LeadingZerosHelp, TrailingZerosHelp, SetBitsHelp, FewUnits, DivideSignedHelps, DivideHelps, RemainderSignedHelps, RemainderHelps};

/// Shifts and rotations of words of 64 bits.
pub fn turns()
    ensures left { ShiftLeftHelps }
    ensures right_signed { ShiftRightSignedHelps }
    ensures right { ShiftRightHelps }
    ensures rotation { RotateLeftHelps }
{}

/// Counts of the bits of words of 64 bits, and of the set bits of a word of 32 bits, which takes at most 34 units.
pub fn counts()
    ensures leading { LeadingZerosHelp }
    ensures trailing { TrailingZerosHelp }
    ensures set { SetBitsHelp }
    ensures few { FewUnits }
{}

/// Quotients and remainders of words of 32 bits, which trap exactly where the operators do.
pub fn division()
    ensures quotient_signed { DivideSignedHelps }
    ensures quotient { DivideHelps }
    ensures rest_signed { RemainderSignedHelps }
    ensures rest { RemainderHelps }
{}
