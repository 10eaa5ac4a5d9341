//! The code that bodies of asm.js are translated to: its size, its depth and locals, and its types.
#![tactic(auto)]

ghost use Rattle.asm2wasm_laws_typed.specs.Laws.{ExpressionsAreSmall, StatementsAreSmall, FunctionsAreSmall, ExpressionsAreFlat, StatementsAreFlat, FunctionsAreFlat, ExpressionsReach, StatementsReach, FunctionsReach, ValuesAreTyped, CallsAreTyped, EffectsAreTyped, StatementsAreTyped, FunctionsAreValid, LabelsAreJoined, UsesAreListed};

/// A body has at most 14 instructions for each node and clause.
pub fn sizes()
    ensures expressions { ExpressionsAreSmall }
    ensures statements { StatementsAreSmall }
    ensures functions { FunctionsAreSmall }
{}

/// Blocks lie at most 282 deep for each level of the text.
pub fn levels()
    ensures expressions { ExpressionsAreFlat }
    ensures statements { StatementsAreFlat }
    ensures functions { FunctionsAreFlat }
{}

/// Beside its variables a body names as many locals as it is high.
pub fn locals()
    ensures expressions { ExpressionsReach }
    ensures statements { StatementsReach }
    ensures functions { FunctionsReach }
{}

/// Where an expression of asm.js has a type, its code leaves an int, or nothing where none is wanted.
pub fn values()
    ensures typed { ValuesAreTyped }
    ensures calls { CallsAreTyped }
    ensures effects { EffectsAreTyped }
{}

/// The code of a typed statement is typed, and that of a function is a valid body.
pub fn bodies()
    ensures statements { StatementsAreTyped }
    ensures functions { FunctionsAreValid }
{}

/// What the other laws ask of a body holds in a module that a text says.
pub fn texts()
    ensures labels { LabelsAreJoined }
    ensures uses { UsesAreListed }
{}
