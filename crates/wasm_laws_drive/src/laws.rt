//! The equations of `drive`, for every module and state. Each function does nothing, and its
//! contract is the law.
ghost use Rattle.wasm_laws_drive.specs.Laws.{NoCode, NarrowConstant, WideConstant, PlainInstruction, Sequence, Unreachable, Block, Loop, LoopTurn, If, Br, BrIf, BrTable, Return, Call, CallIndirect, ThroughLabel, ThroughFrame, NoMoreAreLeft, MoreOnlyAdd, EventsStay, RunIsDriven, HostCall, SessionsAreMonotone, SessionsGrow, EndedSessionsStay};

/// What comes of the inside of a label or a frame is what comes of the whole.
pub fn contexts()
    ensures label { ThroughLabel }
    ensures frame { ThroughFrame }
{}

/// No code, constants, plain instructions, and code that other code follows.
pub fn code()
    ensures none { NoCode }
    ensures narrow_constant { NarrowConstant }
    ensures wide_constant { WideConstant }
    ensures plain_instruction { PlainInstruction }
    ensures sequence { Sequence }
{}

/// Each control instruction, and the turn of a loop.
pub fn control()
    ensures unreachable { Unreachable }
    ensures block { Block }
    ensures loop_start { Loop }
    ensures loop_turn { LoopTurn }
    ensures if_block { If }
    ensures br { Br }
    ensures br_if { BrIf }
    ensures br_table { BrTable }
    ensures return_leaves { Return }
{}

/// Calls of functions and imports, by number and by an entry of the table.
pub fn calls()
    ensures call { Call }
    ensures call_indirect { CallIndirect }
{}

/// No more reductions are left than were given; more only add to what is left and seen; and the
/// events that were there stay.
pub fn counts()
    ensures within { NoMoreAreLeft }
    ensures more { MoreOnlyAdd }
    ensures events { EventsStay }
{}

/// The run of a host's call is what its configuration comes to.
pub fn host_calls()
    ensures run { RunIsDriven }
    ensures call { HostCall }
{}

/// More reductions only add to what is seen of a session, and change nothing once it has ended.
pub fn sessions_grow()
    ensures any { SessionsGrow }
    ensures monotone { SessionsAreMonotone }
    ensures ended { EndedSessionsStay }
{}
