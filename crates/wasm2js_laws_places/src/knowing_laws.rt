//! From WebAssembly to asm.js: tests that are needless by what is known of variables.

ghost use Rattle.wasm2js_laws_places.specs.Knowing.{TermsAreBounded, LeanIsAlike};

/// What is known of variables bounds terms, and code without the tests that cannot fail by it does what the whole
/// code does, and takes as many units.
pub fn knowing()
    ensures terms { TermsAreBounded }
    ensures lean { LeanIsAlike }
{}
