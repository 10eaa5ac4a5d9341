//! asm.js: the short form of an accepted module is accepted, is the same to its callers, is one module, and its own short form.
#![tactic(auto)]

ghost use Rattle.asm_laws_short.specs.Laws.{ShortIsSameOutside, ShortIsOne, ShortIsAccepted, ShortIsWellFormed, ShortIsItsOwn};

/// The short form of an accepted module has the same heap, imported globals, export keys and signatures; the same scripts fit
/// it, and show the same at every budget; and it is accepted. That of a well-formed module is well formed. A module has one
/// short form at most, and a short form of an accepted module is its own.
pub fn short_forms()
    ensures outside { ShortIsSameOutside }
    ensures one { ShortIsOne }
    ensures accepted { ShortIsAccepted }
    ensures well_formed { ShortIsWellFormed }
    ensures again { ShortIsItsOwn }
{}
