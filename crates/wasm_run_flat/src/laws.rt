//! Laws of places. Each function does nothing, and its contract is the law.
ghost use Rattle.wasm_run_flat.specs.Laws.{TreeStands, StandsInside, CodesAfter, SingleGoesOn, BlockOpens, LoopOpens, FirstArmOpens, SecondArmOpens, BlockGoesOn, LoopGoesOn, EndLeaves, ElseLeaves, LastEnds, ElseStandsInside, BranchGoesOn};

/// The tree of an expression stands at its first place, and what stands anywhere stands inside the body.
pub fn standing()
    ensures start { TreeStands }
    ensures inside { StandsInside }
    ensures codes { CodesAfter }
{}

/// From an instruction to the next one, and into blocks.
pub fn going_on()
    ensures single { SingleGoesOn }
    ensures block { BlockOpens }
    ensures loop_start { LoopOpens }
    ensures first_arm { FirstArmOpens }
    ensures second_arm { SecondArmOpens }
{}

/// What a branch to a block goes on with.
pub fn continuations()
    ensures block { BlockGoesOn }
    ensures loop_start { LoopGoesOn }
{}

/// Out of blocks.
pub fn leaving()
    ensures end_mark { EndLeaves }
    ensures else_mark { ElseLeaves }
    ensures last { LastEnds }
    ensures else_inside { ElseStandsInside }
    ensures branch { BranchGoesOn }
{}
