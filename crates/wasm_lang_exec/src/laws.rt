//! What a misfit is.
ghost use Rattle.wasm_lang_exec.specs.FitLaws.{NoMisfitFits, WhatFitsHasNoMisfit, MisfitIsFirst, WhatFitsWritesBytes};

/// There is no misfit exactly where each part of the script fits and no global is missing; and a
/// misfit is the first line of a part that doesn't fit, or 0 where all fit and a global is missing. What fits
/// writes bytes.
pub fn fitting_laws()
    ensures none { NoMisfitFits }
    ensures fits { WhatFitsHasNoMisfit }
    ensures first { MisfitIsFirst }
    ensures bytes { WhatFitsWritesBytes }
{}
