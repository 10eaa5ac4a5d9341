//! The laws. Each function does nothing, and its contract is the law.
ghost use Rattle.asm_laws_sound.specs.Laws.{AcceptedNeverGoWrong, ChecksChangeNothing, AcceptedSessionsGrow};

/// A session of an accepted module, with a script that fits it, never goes wrong; the checked meaning
/// is the same; and one unit more only adds to what is seen.
pub fn accepted_modules()
    ensures never_wrong { AcceptedNeverGoWrong }
    ensures types_hold { ChecksChangeNothing }
    ensures grow { AcceptedSessionsGrow }
{}
