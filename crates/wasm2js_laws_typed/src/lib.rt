//! From WebAssembly to asm.js: the code of instructions and bodies is typed.
#![tactic(auto)]

ghost use Rattle.wasm2js_laws_typed.specs.Laws.{PlainIsSound, PlainIsShallow};
ghost use Rattle.wasm2js_laws_typed.specs.Constructs.{BlocksAreFine, LoopsAreFine, ArmsAreFine, TestsAreFine, LabelsAreNew, ReturnsAreFine, JumpsAreFine, CallsAreFine, EntryCallsAreFine, SwitchesAreFine};
ghost use Rattle.wasm2js_laws_typed.specs.Bodies.{CodeIsFine};
ghost use Rattle.wasm2js_laws_typed.specs.Waiting.{LateIsSound, LateIsShallow, LeanIsSound, LeanIsShallow, WrittenIsSound, StandingIsSound};

/// Instructions that compute, and read and write locals, globals and the memory.
pub fn instructions()
    ensures sound { PlainIsSound }
    ensures shallow { PlainIsShallow }
{}

/// Code whose words are written late, the words that wait then, and code without the tests that are needless.
pub fn waiting()
    ensures sound { LateIsSound }
    ensures shallow { LateIsShallow }
    ensures lean_sound { LeanIsSound }
    ensures lean_shallow { LeanIsShallow }
    ensures written { WrittenIsSound }
    ensures standing { StandingIsSound }
{}

/// Blocks, loops and arms, where what stands in them is fine.
pub fn blocks()
    ensures plain { BlocksAreFine }
    ensures repeated { LoopsAreFine }
    ensures arms { ArmsAreFine }
    ensures tests { TestsAreFine }
{}

/// Labels, returns, and branches with what their labels carry.
pub fn jumps()
    ensures labels { LabelsAreNew }
    ensures returned { ReturnsAreFine }
    ensures branches { JumpsAreFine }
{}

/// Calls of functions, and of entries of a table.
pub fn calls()
    ensures functions { CallsAreFine }
    ensures entries { EntryCallsAreFine }
{}

/// Branches by an index, whatever the number of labels.
pub fn switches()
    ensures { SwitchesAreFine }
{}

/// The statements of typed code, by induction on its tree.
pub fn code()
    ensures { CodeIsFine }
{}
