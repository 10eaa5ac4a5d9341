//! A module of asm.js with one of its functions as its one export: it is accepted and well formed where the module is, and
//! its translation is that of the module, with that function as its one export.

ghost use Rattle.asm2wasm_laws_acceptance.specs.Exports.Laws.{ExportingIsAccepted, ExportingIsWellFormed, ExportingIsTranslated};

/// Each function of a module may be its one export, and its translation changes in its exports alone.
pub fn one_export()
    ensures accepted { ExportingIsAccepted }
    ensures well_formed { ExportingIsWellFormed }
    ensures translated { ExportingIsTranslated }
{}
