//! How far numbers go.
ghost use Rattle.asm2wasm_sections.specs.Few.{AcceptedHaveFewTypes, AcceptedHaveFewFunctions, AcceptedHaveFewEntries, AcceptedHaveFewGlobals};

/// The numbers of an accepted module have 32 bits.
pub fn numbers_are_few()
    ensures types { AcceptedHaveFewTypes }
    ensures functions { AcceptedHaveFewFunctions }
    ensures entries { AcceptedHaveFewEntries }
    ensures globals { AcceptedHaveFewGlobals }
{}
