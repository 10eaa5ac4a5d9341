//! From WebAssembly to asm.js: words that wait before they are written.

ghost use Rattle.wasm2js_laws_places.specs.Delaying.{LateIsAlike, WrittenIsSeen, StandingIsSeen, OthersAreSeen, SomeAreSeen};

/// Code whose words are written late does what the code does that writes each at once, and takes as many units.
/// Where all is written but what one operand is to have, the word that stands for the operand comes to that.
pub fn delaying()
    ensures late { LateIsAlike }
    ensures written { WrittenIsSeen }
    ensures standing { StandingIsSeen }
    ensures others { OthersAreSeen }
    ensures some { SomeAreSeen }
{}
