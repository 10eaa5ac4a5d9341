//! The sessions of a pair of modules, and those of the module that it is linked to.
#![tactic(auto)]

ghost use Rattle.wasm_link_laws_simulation.specs.Laws.{InstancesAreAlike, PairsAreLinked, LinkedIsAllowed, LinkedIsBounded};

/// Both modules of a pair that isn't refused are instantiated in full, and so is the module that it is linked to: to the
/// pair's memory, with the globals in their new order and the functions of the table by their new numbers.
pub fn instances()
    ensures alike { InstancesAreAlike }
{}

/// What a pair that isn't refused shows after some reductions, with any script, is what the module that it is linked to shows
/// after some: at most six times as many and two, and no fewer while the session runs.
pub fn pairs()
    ensures linked { PairsAreLinked }
{}

/// So each shows the same as the other, within these bounds. The linked module is valid and called as asked, and a script that
/// fits one of both fits the other.
pub fn sessions()
    ensures allowed { LinkedIsAllowed }
    ensures bounded { LinkedIsBounded }
{}
