//! From WebAssembly to asm.js: the statements of operators on words of 64 bits compute what their operators mean.
#![tactic(auto)]

ghost use Rattle.wasm2js_laws_wide.specs.Laws.{BinariesCompute, UnariesCompute, ExtensionsCompute, RelationsCompute, ZeroTestsCompute};

/// Operators with two operands, of which a product, a quotient and a remainder have no statements.
pub fn binaries()
    ensures { BinariesCompute }
{}

/// Operators with one operand.
pub fn unaries()
    ensures { UnariesCompute }
{}

/// Low bits that are extended with their sign.
pub fn extensions()
    ensures { ExtensionsCompute }
{}

/// Comparisons, and the test for zero.
pub fn comparisons()
    ensures each { RelationsCompute }
    ensures zero { ZeroTestsCompute }
{}
