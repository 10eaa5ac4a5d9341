//! What a misfit is.
ghost use Rattle.session_lang.specs.FitLaws.{NoMisfitFits, WhatFitsHasNoMisfit, MisfitIsFirst};
ghost use Rattle.session_lang.specs.Written.{WhatFitsWritesBytes};

/// There is no misfit exactly where each part of the script fits and no global is missing; and a
/// misfit is the first line of a part that doesn't fit, or 0 where all fit and a global is missing.
pub fn fitting_laws()
    ensures none { NoMisfitFits }
    ensures fits { WhatFitsHasNoMisfit }
    ensures first { MisfitIsFirst }
{}

/// Where a module's tests ask for bytes, a script that fits it writes bytes.
pub fn written_laws()
    ensures { WhatFitsWritesBytes }
{}
