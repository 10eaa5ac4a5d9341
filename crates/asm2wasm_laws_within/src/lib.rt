//! What the limits on counts say of an accepted module of asm.js, and what stands behind its names.
#![tactic(auto)]

ghost use Rattle.asm2wasm_laws_within.specs.Laws.{AcceptedAreWithin, ForeignNamesAreShort, UsesAreListed, ListedInParts, SameCallsAreEqual, ViewsMeanAHeap, FewSignatures};

/// An accepted module has few declarations, and names of foreign members are short.
pub fn limits()
    ensures within { AcceptedAreWithin }
    ensures names { ForeignNamesAreShort }
{}

/// Each call of a foreign function in a body is listed among those of the module.
pub fn foreign_uses()
    ensures listed { UsesAreListed }
    ensures parts { ListedInParts }
    ensures equal { SameCallsAreEqual }
{}

/// A function that names a view is of a module with a heap.
pub fn views()
    ensures { ViewsMeanAHeap }
{}

/// Signatures of few parameters that differ are few.
pub fn types()
    ensures { FewSignatures }
{}
