//! Worked sessions. Each function does nothing, and its contract is what the check computes of a module with several budgets: what
//! is seen by its flat code and by its meaning.
ghost use Rattle.std.specs.Prelude.{◌≡◌, ◌∷◌, []};
ghost use Rattle.asm2wasm_translation.specs.Pieces.{dividing, operating, operating_script, small_elements, small_script, storing, storing_script, tabled, tabled_script};
ghost use Rattle.asm_run_code.specs.Worked.{AreAlike, assigning, assigning_script, jumping, jumping_script, waiting, waiting_script, storing_a_value, storing_a_value_script, dividing_script};

/// `x+(x=5)+x`: the first operand is read before the second is evaluated, and the third after it.
#[tactic(none)]
pub fn an_assignment_in_an_operand()
    ensures { AreAlike assigning 0 assigning_script 100 (0 ∷ 1 ∷ 2 ∷ []) }
{}

/// `a(g()|0)`: the import is called also where no unit is left for the call; in the second call no reply is left.
#[tactic(none)]
pub fn an_import_in_an_argument()
    ensures { AreAlike waiting 0 waiting_script 100 (0 ∷ 1 ∷ 2 ∷ 3 ∷ []) }
{}

/// `x=(U[x|0]=y)`, inside the heap and outside.
#[tactic(none)]
pub fn a_store_as_a_value()
    ensures { AreAlike storing_a_value 8 storing_a_value_script 100 (1 ∷ 2 ∷ []) }
{}

/// A store in a store, and elements of one and two bytes.
#[tactic(none)]
pub fn elements()
    ensures stores { AreAlike storing 8 storing_script 100 (0 ∷ 1 ∷ 2 ∷ []) }
    ensures small { AreAlike small_elements 8 small_script 100 (4 ∷ []) }
{}

/// `(a|0)/(b|0)|0` by 0, of the least number by -1, and of -7 by 2.
#[tactic(none)]
pub fn quotients()
    ensures { AreAlike dividing 0 dividing_script 100 (3 ∷ []) }
{}

/// `do` with `continue`, and `continue` in a `switch` in a `for`; operators of all kinds.
#[tactic(none)]
pub fn loops()
    ensures { AreAlike operating 0 operating_script 1000 (4 ∷ 5 ∷ 8 ∷ 9 ∷ 10 ∷ 11 ∷ 100 ∷ []) }
{}

/// Calls of entries in the arguments of a call of an entry, a foreign function, and a labelled loop.
#[tactic(none)]
pub fn entries()
    ensures { AreAlike tabled 0 tabled_script 1000 (0 ∷ 3 ∷ 4 ∷ 5 ∷ 6 ∷ 100 ∷ []) }
{}

/// A switch of values that lie close together, of which one is missing.
#[tactic(none)]
pub fn a_table_of_jumps()
    ensures { AreAlike jumping 0 jumping_script 100 (7 ∷ 8 ∷ []) }
{}
