//! WebAssembly: how many operands stand in a valid body.
#![tactic(auto)]

ghost use Rattle.wasm_laws_widths.specs.Laws.{TypedCodePasses, PeakIsKept, PeakIsAbove, OperandsStayKnown, DepthIsWithin, WideIsWithin, NamedLocalsExist, LevelsAreWithin, BodiesAreWithin};

/// The pass over typed code, and the greatest number of operands that stand in it.
pub fn passing()
    ensures typed { TypedCodePasses }
    ensures kept { PeakIsKept }
    ensures above { PeakIsAbove }
    ensures known { OperandsStayKnown }
{}

/// What reached code of a body needs: its operands, in all open blocks, are no more than the pass counts, wide ones
/// stand among them, and the locals that it names are there.
pub fn needs()
    ensures operands { DepthIsWithin }
    ensures wide { WideIsWithin }
    ensures locals { NamedLocalsExist }
{}

/// What is counted of a module holds what its bodies need: levels of blocks, and locals with operands.
pub fn measures()
    ensures levels { LevelsAreWithin }
    ensures bodies { BodiesAreWithin }
{}
