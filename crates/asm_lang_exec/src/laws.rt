//! The laws. Each function does nothing, and its contract is the law.
ghost use Rattle.asm_lang_exec.specs.Laws.{BoundsChangeNothing, SessionsGrow, CheckedSessionsGrow};
ghost use Rattle.asm_lang_exec.specs.FitLaws.{NoMisfitFits, WhatFitsHasNoMisfit, MisfitIsFirst, WhatFitsWritesBytes};

/// There is no misfit exactly where each part of the script fits and no global is missing; and a
/// misfit is the first line of a part that doesn't fit, or 0 where all fit and a global is missing. What fits
/// writes bytes.
pub fn fitting_laws()
    ensures none { NoMisfitFits }
    ensures fits { WhatFitsHasNoMisfit }
    ensures first { MisfitIsFirst }
    ensures bytes { WhatFitsWritesBytes }
{}

/// A larger bound on the depth of calls and on the turns of a loop changes nothing, since each takes a
/// unit; and more units only add to what is seen of a session.
pub fn sessions_grow()
    ensures bounds { BoundsChangeNothing }
    ensures meaning { SessionsGrow }
    ensures checked { CheckedSessionsGrow }
{}
