// The limits in expressions.

ghost use Rattle.std.specs.Prelude.{◌+◌, ◌++◌, ◌<◌, ◌^◌};
ghost use Rattle.sem_words.specs.Lists.{text_bytes};
ghost use Rattle.asm_tree.specs.Views.{expr_view, exprs_view, links_view};
ghost use Rattle.asm_lang_valid.specs.Rows.{expr_count, exprs_count, links_count};
ghost use Rattle.asm_lang_valid.specs.Typing.{named, exprs_length};
ghost use Rattle.asm_lang_valid.specs.LimitRows.{expr_marks, exprs_marks, links_marks, comma_marks};
ghost use Rattle.asm_names.specs.Scopes.{scope_view, IsCompleteScope};
ghost use Rattle.asm_validate_limits.specs.Passes.{IsOf, Tallied};
ghost use Rattle.asm_validate_limits.specs.Places.{placed_marks, called_marks, left_place as place_before};

use crate::callee::{Place, callee_limits, left_place, part_place};
use crate::tally::Tally;
use asm_names::Scope;
use asm_tree::{Expr, Link};
use asm_validate_names::AsmRefusal;
use sem_words::{JsOp, Text};

/// The first limit that is passed in an expression that is no call in a place for calls.
#[cycle(expressions)]
pub fn expr_limits<'a>(
    scope: &Scope<'_, 'a>,
    tally: &mut Tally<'a>,
    expr: &Expr,
) -> Result<(), AsmRefusal>
    requires known { IsCompleteScope scope.now }
    requires of { IsOf (scope_view scope.now).home tally.old }
    requires room { tally.old.at + expr_count (expr_view expr.now) < 2 ^ 64 }
    ensures { Tallied (expr_marks (scope_view scope.now) tally.old.at (expr_view expr.now)) (expr_count (expr_view expr.now)) tally.old tally.new result }
{
    tally.at += 1;
    match expr {
        Expr::Lit(_) | Expr::Decimal(_) | Expr::Var(_) => Ok(()),
        Expr::Index(_, index) => expr_limits(scope, tally, index),
        Expr::Assign(_, value) => expr_limits(scope, tally, value),
        Expr::Unary(_, operand) => expr_limits(scope, tally, operand),
        Expr::Call(_, arguments) => exprs_limits(scope, tally, arguments.as_slice()),
        Expr::TableCall(_, index, arguments) => {
            indexed_limits(scope, tally, index, arguments.as_slice())
        }
        Expr::Store(_, index, value) => both_limits(scope, tally, index, value),
        Expr::Binary(op, left, right) => binary_limits(scope, tally, *op, left, right),
        Expr::Chain(first, links) => chain_limits(scope, tally, first, links.as_slice()),
        Expr::Cond(condition, yes, no) => cond_limits(scope, tally, condition, yes, no),
        Expr::Comma(parts) => comma_limits(scope, tally, parts.as_slice()),
    }
}

#[cycle(expressions)]
fn both_limits<'a>(
    scope: &Scope<'_, 'a>,
    tally: &mut Tally<'a>,
    left: &Expr,
    right: &Expr,
) -> Result<(), AsmRefusal>
    requires known { IsCompleteScope scope.now }
    requires of { IsOf (scope_view scope.now).home tally.old }
    requires room { tally.old.at + (expr_count (expr_view left.now) + expr_count (expr_view right.now)) < 2 ^ 64 }
    ensures { Tallied (expr_marks (scope_view scope.now) tally.old.at (expr_view left.now) ++ expr_marks (scope_view scope.now) (tally.old.at + expr_count (expr_view left.now)) (expr_view right.now)) (expr_count (expr_view left.now) + expr_count (expr_view right.now)) tally.old tally.new result }
{
    expr_limits(scope, tally, left)?;
    expr_limits(scope, tally, right)
}

#[cycle(expressions)]
fn binary_limits<'a>(
    scope: &Scope<'_, 'a>,
    tally: &mut Tally<'a>,
    op: JsOp,
    left: &Expr,
    right: &Expr,
) -> Result<(), AsmRefusal>
    requires known { IsCompleteScope scope.now }
    requires of { IsOf (scope_view scope.now).home tally.old }
    requires room { tally.old.at + (expr_count (expr_view left.now) + expr_count (expr_view right.now)) < 2 ^ 64 }
    ensures { Tallied (placed_marks (scope_view scope.now) (place_before op (expr_view right.now)) tally.old.at (expr_view left.now) ++ expr_marks (scope_view scope.now) (tally.old.at + expr_count (expr_view left.now)) (expr_view right.now)) (expr_count (expr_view left.now) + expr_count (expr_view right.now)) tally.old tally.new result }
{
    placed_limits(scope, tally, left_place(op, right), left)?;
    expr_limits(scope, tally, right)
}

#[cycle(expressions)]
fn cond_limits<'a>(
    scope: &Scope<'_, 'a>,
    tally: &mut Tally<'a>,
    condition: &Expr,
    yes: &Expr,
    no: &Expr,
) -> Result<(), AsmRefusal>
    requires known { IsCompleteScope scope.now }
    requires of { IsOf (scope_view scope.now).home tally.old }
    requires room { tally.old.at + (expr_count (expr_view condition.now) + (expr_count (expr_view yes.now) + expr_count (expr_view no.now))) < 2 ^ 64 }
    ensures { Tallied (expr_marks (scope_view scope.now) tally.old.at (expr_view condition.now) ++ (expr_marks (scope_view scope.now) (tally.old.at + expr_count (expr_view condition.now)) (expr_view yes.now) ++ expr_marks (scope_view scope.now) (tally.old.at + expr_count (expr_view condition.now) + expr_count (expr_view yes.now)) (expr_view no.now))) (expr_count (expr_view condition.now) + (expr_count (expr_view yes.now) + expr_count (expr_view no.now))) tally.old tally.new result }
{
    expr_limits(scope, tally, condition)?;
    both_limits(scope, tally, yes, no)
}

// The index of a call of a table, and the arguments.
#[cycle(expressions)]
fn indexed_limits<'a>(
    scope: &Scope<'_, 'a>,
    tally: &mut Tally<'a>,
    index: &Expr,
    arguments: &[Expr],
) -> Result<(), AsmRefusal>
    requires known { IsCompleteScope scope.now }
    requires of { IsOf (scope_view scope.now).home tally.old }
    requires room { tally.old.at + (expr_count (expr_view index.now) + exprs_count (exprs_view arguments.now)) < 2 ^ 64 }
    ensures { Tallied (expr_marks (scope_view scope.now) tally.old.at (expr_view index.now) ++ exprs_marks (scope_view scope.now) (tally.old.at + expr_count (expr_view index.now)) (exprs_view arguments.now)) (expr_count (expr_view index.now) + exprs_count (exprs_view arguments.now)) tally.old tally.new result }
{
    expr_limits(scope, tally, index)?;
    exprs_limits(scope, tally, arguments)
}

#[cycle(expressions)]
fn chain_limits<'a>(
    scope: &Scope<'_, 'a>,
    tally: &mut Tally<'a>,
    first: &Expr,
    links: &[Link],
) -> Result<(), AsmRefusal>
    requires known { IsCompleteScope scope.now }
    requires of { IsOf (scope_view scope.now).home tally.old }
    requires room { tally.old.at + (expr_count (expr_view first.now) + links_count (links_view links.now)) < 2 ^ 64 }
    ensures { Tallied (expr_marks (scope_view scope.now) tally.old.at (expr_view first.now) ++ links_marks (scope_view scope.now) (tally.old.at + expr_count (expr_view first.now)) (links_view links.now)) (expr_count (expr_view first.now) + links_count (links_view links.now)) tally.old tally.new result }
{
    expr_limits(scope, tally, first)?;
    links_limits(scope, tally, links)
}

#[cycle(expressions)]
fn exprs_limits<'a>(
    scope: &Scope<'_, 'a>,
    tally: &mut Tally<'a>,
    exprs: &[Expr],
) -> Result<(), AsmRefusal>
    requires known { IsCompleteScope scope.now }
    requires of { IsOf (scope_view scope.now).home tally.old }
    requires room { tally.old.at + exprs_count (exprs_view exprs.now) < 2 ^ 64 }
    ensures { Tallied (exprs_marks (scope_view scope.now) tally.old.at (exprs_view exprs.now)) (exprs_count (exprs_view exprs.now)) tally.old tally.new result }
{
    for expr in exprs {
        expr_limits(scope, tally, expr)?;
    }
    Ok(())
}

#[cycle(expressions)]
fn links_limits<'a>(
    scope: &Scope<'_, 'a>,
    tally: &mut Tally<'a>,
    links: &[Link],
) -> Result<(), AsmRefusal>
    requires known { IsCompleteScope scope.now }
    requires of { IsOf (scope_view scope.now).home tally.old }
    requires room { tally.old.at + links_count (links_view links.now) < 2 ^ 64 }
    ensures { Tallied (links_marks (scope_view scope.now) tally.old.at (links_view links.now)) (links_count (links_view links.now)) tally.old tally.new result }
{
    for link in links {
        expr_limits(scope, tally, &link.operand)?;
    }
    Ok(())
}

#[cycle(expressions)]
fn comma_limits<'a>(
    scope: &Scope<'_, 'a>,
    tally: &mut Tally<'a>,
    parts: &[Expr],
) -> Result<(), AsmRefusal>
    requires known { IsCompleteScope scope.now }
    requires of { IsOf (scope_view scope.now).home tally.old }
    requires room { tally.old.at + exprs_count (exprs_view parts.now) < 2 ^ 64 }
    ensures { Tallied (comma_marks (scope_view scope.now) tally.old.at (exprs_view parts.now)) (exprs_count (exprs_view parts.now)) tally.old tally.new result }
{
    for (i, part) in parts.iter().enumerate() {
        placed_limits(scope, tally, part_place(i, parts.len()), part)?;
    }
    Ok(())
}

/// The first limit that is passed in an expression at this place.
#[cycle(expressions)]
pub fn placed_limits<'a>(
    scope: &Scope<'_, 'a>,
    tally: &mut Tally<'a>,
    place: Place,
    expr: &Expr,
) -> Result<(), AsmRefusal>
    requires known { IsCompleteScope scope.now }
    requires of { IsOf (scope_view scope.now).home tally.old }
    requires room { tally.old.at + expr_count (expr_view expr.now) < 2 ^ 64 }
    ensures { Tallied (placed_marks (scope_view scope.now) place tally.old.at (expr_view expr.now)) (expr_count (expr_view expr.now)) tally.old tally.new result }
{
    match expr {
        Expr::Call(name, arguments) => {
            direct_limits(scope, tally, place, name, arguments.as_slice())
        }
        _ => expr_limits(scope, tally, expr),
    }
}

// A call by name.
#[cycle(expressions)]
fn direct_limits<'a>(
    scope: &Scope<'_, 'a>,
    tally: &mut Tally<'a>,
    place: Place,
    name: &Text,
    arguments: &[Expr],
) -> Result<(), AsmRefusal>
    requires known { IsCompleteScope scope.now }
    requires of { IsOf (scope_view scope.now).home tally.old }
    requires room { tally.old.at + (1 + exprs_count (exprs_view arguments.now)) < 2 ^ 64 }
    ensures { Tallied (exprs_marks (scope_view scope.now) (tally.old.at + 1) (exprs_view arguments.now) ++ called_marks place (named (scope_view scope.now) (text_bytes name.now)) (exprs_length (exprs_view arguments.now)) tally.old.at) (1 + exprs_count (exprs_view arguments.now)) tally.old tally.new result }
{
    let node = tally.at;
    tally.at += 1;
    exprs_limits(scope, tally, arguments)?;
    let callee = scope.meaning(name.as_bytes());
    callee_limits(tally, place, callee, arguments.len(), node)
}
