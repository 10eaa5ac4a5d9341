//! The module that a pair is linked to: its numbers, that it is valid, within limits and called as asked, and which scripts fit it.
#![tactic(auto)]

ghost use Rattle.wasm_link_laws_modules.specs.Laws.{ChainsEnd, NumbersAreTyped, NumbersAreCallees, LinkedIsValid, LinkedIsWhole, LinkedIsCalled, ScriptsFit, LinkedIsWithin, LinkedCanRun};

/// Where no import leads back to itself, each function stands for one that isn't bound. Its number names a function of its
/// type, which is the function that it stands for with its code moved, or the same import.
pub fn numbers()
    ensures chains_end { ChainsEnd }
    ensures typed { NumbersAreTyped }
    ensures callees { NumbersAreCallees }
{}

/// The module that a pair is linked to is valid, and each of its functions has a body.
pub fn validity()
    ensures valid { LinkedIsValid }
    ensures whole { LinkedIsWhole }
{}

/// It is called as is asked for the pair, and takes the scripts that fit the pair.
pub fn calling()
    ensures as_asked { LinkedIsCalled }
    ensures scripts { ScriptsFit }
{}

/// It is within the limits of a reader where both modules are, and can be run.
pub fn limits()
    ensures reader { LinkedIsWithin }
    ensures run { LinkedCanRun }
{}
