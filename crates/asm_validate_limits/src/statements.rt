// The limits in statements.

ghost use Rattle.std.specs.Prelude.{◌+◌, ◌++◌, ◌<◌, ◌^◌, nat_le};
ghost use Rattle.asm_tree.specs.Views.{expr_view, expr_option, stmt_view, stmts_view, clauses_view};
ghost use Rattle.asm_lang_valid.specs.declared.rule.Rule.TheVariants.{PastLimit};
ghost use Rattle.asm_lang_valid.specs.Rows.{need, expr_count, option_count, stmt_count, stmts_count, clauses_count};
ghost use Rattle.asm_lang_valid.specs.LimitRows.{expr_marks, stmt_marks, stmts_marks, clauses_marks, clauses_length, most_clauses, rows_of};
ghost use Rattle.asm_names.specs.Scopes.{scope_view, IsCompleteScope};
ghost use Rattle.asm_validate_limits.specs.Passes.{IsOf, Tallied};
ghost use Rattle.asm_validate_limits.specs.Places.{option_placed};
ghost use Rattle.asm_validate_limits.specs.declared.callee.Place.TheVariants.{Operand, Effect};

use crate::callee::Place;
use crate::clauses::{check_cases, option_limits};
use crate::expressions::{expr_limits, placed_limits};
use crate::tally::Tally;
use asm_names::Scope;
use asm_tree::{Clause, Expr, ForHead, Stmt};
use asm_validate_names::AsmRefusal;

/// The first limit that is passed in a statement.
#[cycle(statements)]
pub fn stmt_limits<'a>(
    scope: &Scope<'_, 'a>,
    tally: &mut Tally<'a>,
    stmt: &Stmt,
) -> Result<(), AsmRefusal>
    requires known { IsCompleteScope scope.now }
    requires of { IsOf (scope_view scope.now).home tally.old }
    requires room { tally.old.at + stmt_count (stmt_view stmt.now) < 2 ^ 64 }
    ensures { Tallied (stmt_marks (scope_view scope.now) tally.old.at (stmt_view stmt.now)) (stmt_count (stmt_view stmt.now)) tally.old tally.new result }
{
    let node = tally.at;
    tally.at += 1;
    match stmt {
        Stmt::Empty | Stmt::Break(_) | Stmt::Continue(_) => Ok(()),
        Stmt::Block(body) => stmts_limits(scope, tally, body.as_slice()),
        Stmt::Plain(expr) => placed_limits(scope, tally, Place::Effect, expr),
        Stmt::If(yes, no, condition) => match no {
            None => guarded_limits(scope, tally, condition, yes),
            Some(no) => choice_limits(scope, tally, condition, yes, no),
        },
        Stmt::Return(value) => option_limits(scope, tally, Place::Operand, value),
        Stmt::While(condition, body) => guarded_limits(scope, tally, condition, body),
        Stmt::DoWhile(body, condition) => until_limits(scope, tally, body, condition),
        Stmt::For(head, body) => {
            let head: &ForHead = head;
            for_limits(scope, tally, &head.start, &head.condition, &head.step, body)
        }
        Stmt::Labelled(_, body) => stmt_limits(scope, tally, body),
        Stmt::Switch(clauses, subject) => {
            switch_limits(scope, tally, subject, clauses.as_slice(), node)
        }
    }
}

/// .. in statements.
#[cycle(statements)]
pub fn stmts_limits<'a>(
    scope: &Scope<'_, 'a>,
    tally: &mut Tally<'a>,
    stmts: &[Stmt],
) -> Result<(), AsmRefusal>
    requires known { IsCompleteScope scope.now }
    requires of { IsOf (scope_view scope.now).home tally.old }
    requires room { tally.old.at + stmts_count (stmts_view stmts.now) < 2 ^ 64 }
    ensures { Tallied (stmts_marks (scope_view scope.now) tally.old.at (stmts_view stmts.now)) (stmts_count (stmts_view stmts.now)) tally.old tally.new result }
{
    for stmt in stmts {
        stmt_limits(scope, tally, stmt)?;
    }
    Ok(())
}

// A condition, and then a statement.
#[cycle(statements)]
fn guarded_limits<'a>(
    scope: &Scope<'_, 'a>,
    tally: &mut Tally<'a>,
    condition: &Expr,
    body: &Stmt,
) -> Result<(), AsmRefusal>
    requires known { IsCompleteScope scope.now }
    requires of { IsOf (scope_view scope.now).home tally.old }
    requires room { tally.old.at + (expr_count (expr_view condition.now) + stmt_count (stmt_view body.now)) < 2 ^ 64 }
    ensures { Tallied (expr_marks (scope_view scope.now) tally.old.at (expr_view condition.now) ++ stmt_marks (scope_view scope.now) (tally.old.at + expr_count (expr_view condition.now)) (stmt_view body.now)) (expr_count (expr_view condition.now) + stmt_count (stmt_view body.now)) tally.old tally.new result }
{
    expr_limits(scope, tally, condition)?;
    stmt_limits(scope, tally, body)
}

#[cycle(statements)]
fn choice_limits<'a>(
    scope: &Scope<'_, 'a>,
    tally: &mut Tally<'a>,
    condition: &Expr,
    yes: &Stmt,
    no: &Stmt,
) -> Result<(), AsmRefusal>
    requires known { IsCompleteScope scope.now }
    requires of { IsOf (scope_view scope.now).home tally.old }
    requires room { tally.old.at + (expr_count (expr_view condition.now) + (stmt_count (stmt_view yes.now) + stmt_count (stmt_view no.now))) < 2 ^ 64 }
    ensures { Tallied (expr_marks (scope_view scope.now) tally.old.at (expr_view condition.now) ++ (stmt_marks (scope_view scope.now) (tally.old.at + expr_count (expr_view condition.now)) (stmt_view yes.now) ++ stmt_marks (scope_view scope.now) (tally.old.at + expr_count (expr_view condition.now) + stmt_count (stmt_view yes.now)) (stmt_view no.now))) (expr_count (expr_view condition.now) + (stmt_count (stmt_view yes.now) + stmt_count (stmt_view no.now))) tally.old tally.new result }
{
    expr_limits(scope, tally, condition)?;
    pair_limits(scope, tally, yes, no)
}

#[cycle(statements)]
fn pair_limits<'a>(
    scope: &Scope<'_, 'a>,
    tally: &mut Tally<'a>,
    yes: &Stmt,
    no: &Stmt,
) -> Result<(), AsmRefusal>
    requires known { IsCompleteScope scope.now }
    requires of { IsOf (scope_view scope.now).home tally.old }
    requires room { tally.old.at + (stmt_count (stmt_view yes.now) + stmt_count (stmt_view no.now)) < 2 ^ 64 }
    ensures { Tallied (stmt_marks (scope_view scope.now) tally.old.at (stmt_view yes.now) ++ stmt_marks (scope_view scope.now) (tally.old.at + stmt_count (stmt_view yes.now)) (stmt_view no.now)) (stmt_count (stmt_view yes.now) + stmt_count (stmt_view no.now)) tally.old tally.new result }
{
    stmt_limits(scope, tally, yes)?;
    stmt_limits(scope, tally, no)
}

// A statement, and then a condition.
#[cycle(statements)]
fn until_limits<'a>(
    scope: &Scope<'_, 'a>,
    tally: &mut Tally<'a>,
    body: &Stmt,
    condition: &Expr,
) -> Result<(), AsmRefusal>
    requires known { IsCompleteScope scope.now }
    requires of { IsOf (scope_view scope.now).home tally.old }
    requires room { tally.old.at + (stmt_count (stmt_view body.now) + expr_count (expr_view condition.now)) < 2 ^ 64 }
    ensures { Tallied (stmt_marks (scope_view scope.now) tally.old.at (stmt_view body.now) ++ expr_marks (scope_view scope.now) (tally.old.at + stmt_count (stmt_view body.now)) (expr_view condition.now)) (stmt_count (stmt_view body.now) + expr_count (expr_view condition.now)) tally.old tally.new result }
{
    stmt_limits(scope, tally, body)?;
    expr_limits(scope, tally, condition)
}

#[cycle(statements)]
fn for_limits<'a>(
    scope: &Scope<'_, 'a>,
    tally: &mut Tally<'a>,
    start: &Option<Expr>,
    condition: &Option<Expr>,
    step: &Option<Expr>,
    body: &Stmt,
) -> Result<(), AsmRefusal>
    requires known { IsCompleteScope scope.now }
    requires of { IsOf (scope_view scope.now).home tally.old }
    requires room { tally.old.at + (option_count (expr_option start.now) + (option_count (expr_option condition.now) + (option_count (expr_option step.now) + stmt_count (stmt_view body.now)))) < 2 ^ 64 }
    ensures { Tallied (option_placed (scope_view scope.now) Effect tally.old.at (expr_option start.now) ++ (option_placed (scope_view scope.now) Operand (tally.old.at + option_count (expr_option start.now)) (expr_option condition.now) ++ (option_placed (scope_view scope.now) Effect (tally.old.at + option_count (expr_option start.now) + option_count (expr_option condition.now)) (expr_option step.now) ++ stmt_marks (scope_view scope.now) (tally.old.at + option_count (expr_option start.now) + option_count (expr_option condition.now) + option_count (expr_option step.now)) (stmt_view body.now)))) (option_count (expr_option start.now) + (option_count (expr_option condition.now) + (option_count (expr_option step.now) + stmt_count (stmt_view body.now)))) tally.old tally.new result }
{
    option_limits(scope, tally, Place::Effect, start)?;
    turn_limits(scope, tally, condition, step, body)
}

// What a loop does in each turn: its condition, its step and its body, in text order.
#[cycle(statements)]
fn turn_limits<'a>(
    scope: &Scope<'_, 'a>,
    tally: &mut Tally<'a>,
    condition: &Option<Expr>,
    step: &Option<Expr>,
    body: &Stmt,
) -> Result<(), AsmRefusal>
    requires known { IsCompleteScope scope.now }
    requires of { IsOf (scope_view scope.now).home tally.old }
    requires room { tally.old.at + (option_count (expr_option condition.now) + (option_count (expr_option step.now) + stmt_count (stmt_view body.now))) < 2 ^ 64 }
    ensures { Tallied (option_placed (scope_view scope.now) Operand tally.old.at (expr_option condition.now) ++ (option_placed (scope_view scope.now) Effect (tally.old.at + option_count (expr_option condition.now)) (expr_option step.now) ++ stmt_marks (scope_view scope.now) (tally.old.at + option_count (expr_option condition.now) + option_count (expr_option step.now)) (stmt_view body.now))) (option_count (expr_option condition.now) + (option_count (expr_option step.now) + stmt_count (stmt_view body.now))) tally.old tally.new result }
{
    option_limits(scope, tally, Place::Operand, condition)?;
    stepped_limits(scope, tally, step, body)
}

#[cycle(statements)]
fn stepped_limits<'a>(
    scope: &Scope<'_, 'a>,
    tally: &mut Tally<'a>,
    step: &Option<Expr>,
    body: &Stmt,
) -> Result<(), AsmRefusal>
    requires known { IsCompleteScope scope.now }
    requires of { IsOf (scope_view scope.now).home tally.old }
    requires room { tally.old.at + (option_count (expr_option step.now) + stmt_count (stmt_view body.now)) < 2 ^ 64 }
    ensures { Tallied (option_placed (scope_view scope.now) Effect tally.old.at (expr_option step.now) ++ stmt_marks (scope_view scope.now) (tally.old.at + option_count (expr_option step.now)) (stmt_view body.now)) (option_count (expr_option step.now) + stmt_count (stmt_view body.now)) tally.old tally.new result }
{
    option_limits(scope, tally, Place::Effect, step)?;
    stmt_limits(scope, tally, body)
}

// The subject of a switch, which is a node, and its clauses.
#[cycle(statements)]
fn switch_limits<'a>(
    scope: &Scope<'_, 'a>,
    tally: &mut Tally<'a>,
    subject: &Expr,
    clauses: &[Clause],
    node: u64,
) -> Result<(), AsmRefusal>
    requires known { IsCompleteScope scope.now }
    requires of { IsOf (scope_view scope.now).home tally.old }
    requires room { tally.old.at + (expr_count (expr_view subject.now) + clauses_count (clauses_view clauses.now)) < 2 ^ 64 }
    ensures { Tallied (expr_marks (scope_view scope.now) tally.old.at (expr_view subject.now) ++ (rows_of (need (nat_le (clauses_length (clauses_view clauses.now)) most_clauses) PastLimit node) ++ clauses_marks (scope_view scope.now) (tally.old.at + expr_count (expr_view subject.now)) (clauses_view clauses.now))) (expr_count (expr_view subject.now) + clauses_count (clauses_view clauses.now)) tally.old tally.new result }
{
    expr_limits(scope, tally, subject)?;
    check_cases(clauses, node)?;
    clauses_limits(scope, tally, clauses)
}

#[cycle(statements)]
fn clauses_limits<'a>(
    scope: &Scope<'_, 'a>,
    tally: &mut Tally<'a>,
    clauses: &[Clause],
) -> Result<(), AsmRefusal>
    requires known { IsCompleteScope scope.now }
    requires of { IsOf (scope_view scope.now).home tally.old }
    requires room { tally.old.at + clauses_count (clauses_view clauses.now) < 2 ^ 64 }
    ensures { Tallied (clauses_marks (scope_view scope.now) tally.old.at (clauses_view clauses.now)) (clauses_count (clauses_view clauses.now)) tally.old tally.new result }
{
    for clause in clauses {
        stmts_limits(scope, tally, clause.body.as_slice())?;
    }
    Ok(())
}
