//! The reductions of a pair of modules, and those of the module that it is linked to.
#![tactic(auto)]

ghost use Rattle.wasm_link_laws_sessions.specs.Laws.{GlobalsAreKept, CalleesAreAlike, ReductionsAreFollowed};

/// One reduction of a pair that isn't refused is one to six reductions of the module that it is linked to, from each
/// configuration that stands for the pair's: to one that stands for what the pair comes to, or to the same end, over the same
/// memory, events and replies. Globals stand at their new numbers, and functions of the table are named by theirs.
pub fn reductions()
    ensures globals { GlobalsAreKept }
    ensures callees { CalleesAreAlike }
    ensures followed { ReductionsAreFollowed }
{}
