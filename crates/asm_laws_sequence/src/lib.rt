//! Laws of the sequence of names that short forms of asm.js take theirs from: names that differ, in order, none skipped.
#![tactic(auto)]

ghost use Rattle.asm_laws_sequence.specs.Laws.{NumbersHaveDistinctNames, NamesAreInOrder, FirstNamesAreAsMany, FirstNamesAreDistinct, FirstNamesAreAllowed, NoNameIsSkipped};

/// Numbers that differ have names that differ, and the lesser has the earlier one.
pub fn numbers()
    ensures distinct { NumbersHaveDistinctNames }
    ensures order { NamesAreInOrder }
{}

/// The first names that aren't excluded are as many as asked for. No two are equal, none is forbidden or excluded, and no other
/// such name is earlier.
pub fn first()
    ensures count { FirstNamesAreAsMany }
    ensures distinct { FirstNamesAreDistinct }
    ensures allowed { FirstNamesAreAllowed }
    ensures whole { NoNameIsSkipped }
{}
