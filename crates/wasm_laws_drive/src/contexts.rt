//! Laws of surroundings. Each function does nothing, and its contract is the law.
ghost use Rattle.wasm_laws_drive.specs.Steps.{PlainStep, UnreachableStep, BlockStep, LoopStep, IfStep, BrStep, BrIfStep, BrTableStep, ReturnStep, CallStep, CallIndirectStep, EndOfLabel, EndOfFrame, BranchPastLabel, BranchToLabel, BranchOutOfFrame, ReturnPastLabel, ReturnOutOfFrame};
ghost use Rattle.wasm_laws_drive.specs.ContextLaws.{ThroughSurroundings, EndsStay, StuckStays, SpentStays, PaidInside, NumberInside, ValuesInside, EffectInside, ChoiceInside};

/// A configuration in its surroundings comes to what they make of what comes of it, and they keep what
/// goes no further.
pub fn surroundings()
    ensures through { ThroughSurroundings }
    ensures ends { EndsStay }
    ensures stuck { StuckStays }
    ensures spent { SpentStays }
{}

/// What an instruction takes before it goes on, it takes inside.
pub fn going_on()
    ensures paid { PaidInside }
    ensures number { NumberInside }
    ensures values { ValuesInside }
    ensures effect { EffectInside }
    ensures choice { ChoiceInside }
{}

/// What each instruction does in its surroundings.
pub fn steps()
    ensures plain_instruction { PlainStep }
    ensures unreachable { UnreachableStep }
    ensures block { BlockStep }
    ensures loop_start { LoopStep }
    ensures if_block { IfStep }
    ensures br { BrStep }
    ensures br_if { BrIfStep }
    ensures br_table { BrTableStep }
    ensures return_leaves { ReturnStep }
    ensures call { CallStep }
    ensures call_indirect { CallIndirectStep }
{}

/// How labels and frames are left.
pub fn exits()
    ensures end_of_label { EndOfLabel }
    ensures end_of_frame { EndOfFrame }
    ensures branch_past_label { BranchPastLabel }
    ensures branch_to_label { BranchToLabel }
    ensures branch_out_of_frame { BranchOutOfFrame }
    ensures return_past_label { ReturnPastLabel }
    ensures return_out_of_frame { ReturnOutOfFrame }
{}
