// What statements have beside their parts.

ghost use Rattle.std.specs.Prelude.{◌≡◌, ◌+◌, ◌<◌, ◌≤◌, ◌^◌, nat_le};
ghost use Rattle.asm_tree.specs.Views.{expr_option, clauses_view};
ghost use Rattle.asm_lang_valid.specs.Rows.{option_count};
ghost use Rattle.asm_lang_valid.specs.LimitRows.{clauses_length, most_clauses};
ghost use Rattle.asm_names.specs.Scopes.{scope_view, IsCompleteScope};
ghost use Rattle.asm_validate_limits.specs.Passes.{IsOf, Tallied, limited};
ghost use Rattle.asm_validate_limits.specs.Places as places;
ghost use Rattle.asm_validate_limits.specs.Places.{option_placed};

use crate::callee::Place;
use crate::expressions::placed_limits;
use crate::numbers::MOST_CASES;
use crate::tally::{Tally, needs};
use asm_names::Scope;
use asm_tree::{Clause, Expr};
use asm_validate_names::AsmRefusal;

/// The first limit that is passed in an expression at this place, which may be left out.
pub fn option_limits<'a>(
    scope: &Scope<'_, 'a>,
    tally: &mut Tally<'a>,
    place: Place,
    expr: &Option<Expr>,
) -> Result<(), AsmRefusal>
    requires known { IsCompleteScope scope.now }
    requires of { IsOf (scope_view scope.now).home tally.old }
    requires room { tally.old.at + option_count (expr_option expr.now) < 2 ^ 64 }
    ensures { Tallied (option_placed (scope_view scope.now) place tally.old.at (expr_option expr.now)) (option_count (expr_option expr.now)) tally.old tally.new result }
{
    match expr {
        None => Ok(()),
        Some(expr) => placed_limits(scope, tally, place, expr),
    }
}

/// The number of cases of a switch, which is a node.
pub fn check_cases(clauses: &[Clause], node: u64) -> Result<(), AsmRefusal>
    ensures { result ≡ limited (nat_le (clauses_length (clauses_view clauses.now)) most_clauses) node }
{
    let count = case_count(clauses);
    needs(count <= MOST_CASES, node)
}

// How many clauses are no default.
fn case_count(clauses: &[Clause]) -> usize
    ensures { result ≡ clauses_length (clauses_view clauses.now) }
{
    let mut count = 0;
    for clause in clauses {
        count += as_case(&clause.value);
    }
    count
}

// A clause counts where it is no default.
fn as_case(value: &Option<i64>) -> usize
    ensures value { result ≡ places.as_case value.now }
    ensures small { result ≤ 1 }
{
    match value {
        Some(_) => 1,
        None => 0,
    }
}
