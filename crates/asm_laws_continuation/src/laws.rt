//! The laws. Each function does nothing, and its contract is the law.
ghost use Rattle.asm_laws_continuation.specs.Laws.{ExpressionsFollow, StatementsFollow, CallsFollow, SessionsFollow, CallsAreBounded, TurnsAreBounded, DoTurnsAreBounded};

/// A construct that is given what comes after it does what the construct does, and then that.
pub fn following_laws()
    ensures expressions { ExpressionsFollow }
    ensures statements { StatementsFollow }
    ensures calls { CallsFollow }
    ensures sessions { SessionsFollow }
{}

/// A call and a loop with at least as large a bound as there are units do the same with a larger one.
pub fn bound_laws()
    ensures calls { CallsAreBounded }
    ensures turns { TurnsAreBounded }
    ensures do_turns { DoTurnsAreBounded }
{}
