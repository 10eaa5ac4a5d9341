// The first node in statements that breaks a rule of types.

ghost use Rattle.std.specs.Prelude.{◌≡◌, ◌+◌, ◌<◌, ◌^◌, None, IfOk, MatchResult};
ghost use Rattle.asm_tree.specs.Views.{expr_view, stmt_view, stmts_view, clauses_view, texts_view};
ghost use Rattle.asm_lang.specs.Modules.{labelled, switches};
ghost use Rattle.asm_lang_valid.specs.Rows.{first, expr_count, stmt_count, stmts_count, clauses_count};
ghost use Rattle.asm_lang_valid.specs.TypeRows as rows;
ghost use Rattle.asm_names.specs.Scopes.{scope_view};
ghost use Rattle.asm_validate_exprs.specs.Contexts.{IsContext};
ghost use Rattle.asm_validate_labels.specs.Arounds.{around_view};
ghost use Rattle.asm_validate_names.specs.Refusals.{IsRow};

use crate::conditions::{condition, optional_condition, optional_part, returned, subject};
use asm_lang_valid::Rule;
use asm_tree::{Clause, Expr, Stmt};
use asm_validate_exprs::{Context, judge_effect, needs};
use asm_validate_labels::{
    Labels, Place, break_fits, cases_fit, continue_fits, in_a_loop, in_a_switch, is_loop,
    open_labels,
};
use asm_validate_names::AsmRefusal;
use sem_words::Text;

/// The first row in a statement. `at` is the number of the next node.
#[cycle(statements)]
#[tactic(auto, using(crate::proofs::Order::order))]
pub fn judge_stmt<'a>(
    context: &Context<'_, 'a>,
    labels: &mut Labels<'a>,
    place: Place,
    stmt: &'a Stmt,
    at: &mut u64,
) -> Result<(), AsmRefusal>
    requires known { IsContext context.now }
    requires room { at.old + stmt_count (stmt_view stmt.now) < 2 ^ 64 }
    ensures row { MatchResult result (λ _. first (rows.stmt_rows (scope_view context.now.scope) (around_view place labels.old.open.entries) at.old (stmt_view stmt.now)) ≡ None) (IsRow (rows.stmt_rows (scope_view context.now.scope) (around_view place labels.old.open.entries) at.old (stmt_view stmt.now))) }
    ensures kept { IfOk result (λ _. labels.new.open.entries ≡ labels.old.open.entries) }
    ensures counted { IfOk result (λ _. at.new ≡ at.old + stmt_count (stmt_view stmt.now)) }
{
    let node = *at;
    *at += 1;
    match stmt {
        Stmt::Block(body) => judge_stmts(context, labels, place, body.as_slice(), at),
        Stmt::Plain(expr) => Ok(judge_effect(context, expr, at)?),
        Stmt::Empty => Ok(()),
        Stmt::If(yes, no, test) => {
            condition(context, test, at)?;
            judge_stmt(context, labels, place, yes, at)?;
            match no {
                None => Ok(()),
                Some(no) => judge_stmt(context, labels, place, no, at),
            }
        }
        Stmt::Return(value) => Ok(returned(context, value, node, at)?),
        Stmt::While(test, body) => {
            condition(context, test, at)?;
            judge_stmt(context, labels, in_a_loop(), body, at)
        }
        Stmt::DoWhile(body, test) => {
            judge_stmt(context, labels, in_a_loop(), body, at)?;
            Ok(condition(context, test, at)?)
        }
        Stmt::For(head, body) => {
            optional_part(context, &head.start, at)?;
            optional_condition(context, &head.condition, at)?;
            optional_part(context, &head.step, at)?;
            judge_stmt(context, labels, in_a_loop(), body, at)
        }
        Stmt::Break(label) => {
            let fits = break_fits(labels, place, label);
            Ok(needs(fits, Rule::Label, node)?)
        }
        Stmt::Continue(label) => {
            let fits = continue_fits(labels, place, label);
            Ok(needs(fits, Rule::Label, node)?)
        }
        Stmt::Labelled(names, body) => {
            judge_labelled(context, labels, place, names.as_slice(), body, node, at)
        }
        Stmt::Switch(clauses, test) => {
            judge_switch(context, labels, place, test, clauses.as_slice(), node, at)
        }
    }
}

#[cycle(statements)]
#[tactic(auto, using(crate::proofs::Order::order))]
fn judge_labelled<'a>(
    context: &Context<'_, 'a>,
    labels: &mut Labels<'a>,
    place: Place,
    names: &'a [Text],
    body: &'a Stmt,
    node: u64,
    at: &mut u64,
) -> Result<(), AsmRefusal>
    requires known { IsContext context.now }
    requires begun { at.old ≡ node + 1 }
    requires room { at.old + stmt_count (stmt_view body.now) < 2 ^ 64 }
    ensures row { MatchResult result (λ _. first (rows.stmt_rows (scope_view context.now.scope) (around_view place labels.old.open.entries) node (labelled (texts_view names.now) (stmt_view body.now))) ≡ None) (IsRow (rows.stmt_rows (scope_view context.now.scope) (around_view place labels.old.open.entries) node (labelled (texts_view names.now) (stmt_view body.now)))) }
    ensures kept { IfOk result (λ _. labels.new.open.entries ≡ labels.old.open.entries) }
    ensures counted { IfOk result (λ _. at.new ≡ at.old + stmt_count (stmt_view body.now)) }
{
    let count = labels.len();
    let are_new = open_labels(labels, names, is_loop(body))?;
    needs(are_new, Rule::Label, node)?;
    judge_stmt(context, labels, place, body, at)?;
    labels.close(count);
    Ok(())
}

#[cycle(statements)]
#[tactic(auto, using(crate::proofs::Order::order))]
fn judge_switch<'a>(
    context: &Context<'_, 'a>,
    labels: &mut Labels<'a>,
    place: Place,
    test: &'a Expr,
    clauses: &'a [Clause],
    node: u64,
    at: &mut u64,
) -> Result<(), AsmRefusal>
    requires known { IsContext context.now }
    requires begun { at.old ≡ node + 1 }
    requires room { at.old + (expr_count (expr_view test.now) + clauses_count (clauses_view clauses.now)) < 2 ^ 64 }
    ensures row { MatchResult result (λ _. first (rows.stmt_rows (scope_view context.now.scope) (around_view place labels.old.open.entries) node (switches (expr_view test.now) (clauses_view clauses.now))) ≡ None) (IsRow (rows.stmt_rows (scope_view context.now.scope) (around_view place labels.old.open.entries) node (switches (expr_view test.now) (clauses_view clauses.now)))) }
    ensures kept { IfOk result (λ _. labels.new.open.entries ≡ labels.old.open.entries) }
    ensures counted { IfOk result (λ _. at.new ≡ at.old + (expr_count (expr_view test.now) + clauses_count (clauses_view clauses.now))) }
{
    subject(context, test, at)?;
    let fits = cases_fit(context.alloc(), clauses)?;
    needs(fits, Rule::SwitchCases, node)?;
    judge_clauses(context, labels, in_a_switch(place), clauses, at)
}

/// .. in statements.
#[cycle(statements)]
#[tactic(auto, using(crate::proofs::Order::order))]
pub fn judge_stmts<'a>(
    context: &Context<'_, 'a>,
    labels: &mut Labels<'a>,
    place: Place,
    stmts: &'a [Stmt],
    at: &mut u64,
) -> Result<(), AsmRefusal>
    requires known { IsContext context.now }
    requires room { at.old + stmts_count (stmts_view stmts.now) < 2 ^ 64 }
    ensures row { MatchResult result (λ _. first (rows.stmts_rows (scope_view context.now.scope) (around_view place labels.old.open.entries) at.old (stmts_view stmts.now)) ≡ None) (IsRow (rows.stmts_rows (scope_view context.now.scope) (around_view place labels.old.open.entries) at.old (stmts_view stmts.now))) }
    ensures kept { IfOk result (λ _. labels.new.open.entries ≡ labels.old.open.entries) }
    ensures counted { IfOk result (λ _. at.new ≡ at.old + stmts_count (stmts_view stmts.now)) }
{
    for stmt in stmts {
        judge_stmt(context, labels, place, stmt, at)?;
    }
    Ok(())
}

#[cycle(statements)]
#[tactic(auto, using(crate::proofs::Order::order))]
fn judge_clauses<'a>(
    context: &Context<'_, 'a>,
    labels: &mut Labels<'a>,
    place: Place,
    clauses: &'a [Clause],
    at: &mut u64,
) -> Result<(), AsmRefusal>
    requires known { IsContext context.now }
    requires room { at.old + clauses_count (clauses_view clauses.now) < 2 ^ 64 }
    ensures row { MatchResult result (λ _. first (rows.clauses_rows (scope_view context.now.scope) (around_view place labels.old.open.entries) at.old (clauses_view clauses.now)) ≡ None) (IsRow (rows.clauses_rows (scope_view context.now.scope) (around_view place labels.old.open.entries) at.old (clauses_view clauses.now))) }
    ensures kept { IfOk result (λ _. labels.new.open.entries ≡ labels.old.open.entries) }
    ensures counted { IfOk result (λ _. at.new ≡ at.old + clauses_count (clauses_view clauses.now)) }
{
    for clause in clauses {
        judge_stmts(context, labels, place, clause.body.as_slice(), at)?;
    }
    Ok(())
}
