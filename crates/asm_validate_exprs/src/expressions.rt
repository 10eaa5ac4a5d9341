// The types of expressions, or the first node that breaks a rule.

ghost use Rattle.std.specs.Prelude.{◌≡◌, ◌+◌, ◌<◌, ◌^◌, Some, true, IfOk};
ghost use Rattle.sem_words.specs.Lists.{text_bytes};
ghost use Rattle.asm_tree.specs.Views.{expr_view, exprs_view, links_view};
ghost use Rattle.asm_lang.specs.Modules.{store, binary, chain, cond};
ghost use Rattle.asm_lang_valid.specs.Rows.{first, expr_count, exprs_count, links_count};
ghost use Rattle.asm_lang_valid.specs.Typing as typing;
ghost use Rattle.asm_lang_valid.specs.TypeRows as rows;
ghost use Rattle.asm_names.specs.Scopes.{scope_view};
ghost use Rattle.asm_validate_exprs.specs.Contexts.{IsContext};
ghost use Rattle.asm_validate_exprs.specs.Found.{row_of};

use crate::calls::{builtin_called, called, is_call, is_coerced_call, table_called, table_refused};
use crate::context::Context;
use crate::literals::literal_type;
use crate::node::{needs, typed};
use crate::operands::{
    applied, assigned, chained, conditional, loaded, operated, stored, variable,
};
use crate::signatures::Arguments;
use asm_lang_valid::{Met, Rule};
use asm_tree::{Expr, Link};
use asm_types::{ValueType, below};
use sem_words::{JsOp, Text};

/// The type of an expression where no call may stand, or the first row in it. `at` is the number of the next node.
#[cycle(judging)]
#[tactic(auto, using(crate::proofs::Steps::steps))]
pub fn judge(context: &Context<'_, '_>, expr: &Expr, at: &mut u64) -> Result<ValueType, Met>
    requires known { IsContext context.now }
    requires room { at.old + expr_count (expr_view expr.now) < 2 ^ 64 }
    ensures row { first (rows.expr_rows (scope_view context.now.scope) at.old (expr_view expr.now)) ≡ row_of result }
    ensures typed { IfOk result (λ t. typing.type_of (scope_view context.now.scope) (expr_view expr.now) ≡ Some t) }
    ensures counted { IfOk result (λ _. at.new ≡ at.old + expr_count (expr_view expr.now)) }
{
    let node = *at;
    *at += 1;
    match expr {
        Expr::Lit(value) => typed(literal_type(*value), Rule::LiteralRange, node),
        Expr::Decimal(_) => Err(Met {
            rule: Rule::OutsideInteger,
            node,
        }),
        Expr::Var(name) => variable(context.meaning(name), node),
        Expr::Index(name, index) => {
            let t = judge(context, index, at)?;
            loaded(context.meaning(name), index, t, node)
        }
        Expr::Call(name, arguments) => {
            let known = judge_all(context, arguments.as_slice(), at)?;
            builtin_called(context.meaning(name), known, node)
        }
        Expr::TableCall(name, index, arguments) => {
            judge(context, index, at)?;
            judge_all(context, arguments.as_slice(), at)?;
            Err(table_refused(context.meaning(name), node))
        }
        Expr::Assign(name, value) => {
            let t = judge(context, value, at)?;
            assigned(context.meaning(name), t, node)
        }
        Expr::Store(name, index, value) => judge_store(context, name, index, value, node, at),
        Expr::Unary(op, operand) => {
            let t = judge(context, operand, at)?;
            applied(*op, t, node)
        }
        Expr::Binary(op, left, right) => judge_binary(context, *op, left, right, node, at),
        Expr::Chain(head, links) => judge_chain(context, head, links.as_slice(), node, at),
        Expr::Cond(condition, yes, no) => judge_cond(context, condition, yes, no, node, at),
        Expr::Comma(parts) => judge_comma(context, parts.as_slice(), at),
    }
}

#[cycle(judging)]
#[tactic(auto, using(crate::proofs::Steps::steps))]
fn judge_store(
    context: &Context<'_, '_>,
    name: &Text,
    index: &Expr,
    value: &Expr,
    node: u64,
    at: &mut u64,
) -> Result<ValueType, Met>
    requires known { IsContext context.now }
    requires begun { at.old ≡ node + 1 }
    requires room { at.old + (expr_count (expr_view index.now) + expr_count (expr_view value.now)) < 2 ^ 64 }
    ensures row { first (rows.expr_rows (scope_view context.now.scope) node (store (text_bytes name.now) (expr_view index.now) (expr_view value.now))) ≡ row_of result }
    ensures typed { IfOk result (λ t. typing.type_of (scope_view context.now.scope) (store (text_bytes name.now) (expr_view index.now) (expr_view value.now)) ≡ Some t) }
    ensures counted { IfOk result (λ _. at.new ≡ at.old + (expr_count (expr_view index.now) + expr_count (expr_view value.now))) }
{
    let s = judge(context, index, at)?;
    let t = judge(context, value, at)?;
    stored(context.meaning(name), index, s, t, node)
}

#[cycle(judging)]
#[tactic(auto, using(crate::proofs::Steps::steps))]
fn judge_binary(
    context: &Context<'_, '_>,
    op: JsOp,
    left: &Expr,
    right: &Expr,
    node: u64,
    at: &mut u64,
) -> Result<ValueType, Met>
    requires known { IsContext context.now }
    requires begun { at.old ≡ node + 1 }
    requires room { at.old + (expr_count (expr_view left.now) + expr_count (expr_view right.now)) < 2 ^ 64 }
    ensures row { first (rows.expr_rows (scope_view context.now.scope) node (binary op (expr_view left.now) (expr_view right.now))) ≡ row_of result }
    ensures typed { IfOk result (λ t. typing.type_of (scope_view context.now.scope) (binary op (expr_view left.now) (expr_view right.now)) ≡ Some t) }
    ensures counted { IfOk result (λ _. at.new ≡ at.old + (expr_count (expr_view left.now) + expr_count (expr_view right.now))) }
{
    let coerced = is_coerced_call(context, op, left, right);
    if coerced {
        judge_call(context, true, left, at)?;
        *at += 1;
        return Ok(ValueType::Signed);
    }
    let a = judge(context, left, at)?;
    let b = judge(context, right, at)?;
    operated(op, left, right, a, b, node)
}

#[cycle(judging)]
#[tactic(auto, using(crate::proofs::Steps::steps))]
fn judge_chain(
    context: &Context<'_, '_>,
    head: &Expr,
    links: &[Link],
    node: u64,
    at: &mut u64,
) -> Result<ValueType, Met>
    requires known { IsContext context.now }
    requires begun { at.old ≡ node + 1 }
    requires room { at.old + (expr_count (expr_view head.now) + links_count (links_view links.now)) < 2 ^ 64 }
    ensures row { first (rows.expr_rows (scope_view context.now.scope) node (chain (expr_view head.now) (links_view links.now))) ≡ row_of result }
    ensures typed { IfOk result (λ t. typing.type_of (scope_view context.now.scope) (chain (expr_view head.now) (links_view links.now)) ≡ Some t) }
    ensures counted { IfOk result (λ _. at.new ≡ at.old + (expr_count (expr_view head.now) + links_count (links_view links.now))) }
{
    let t = judge(context, head, at)?;
    let known = judge_links(context, links, at)?;
    chained(t, known.ints, known.count, node)
}

#[cycle(judging)]
#[tactic(auto, using(crate::proofs::Steps::steps))]
fn judge_cond(
    context: &Context<'_, '_>,
    condition: &Expr,
    yes: &Expr,
    no: &Expr,
    node: u64,
    at: &mut u64,
) -> Result<ValueType, Met>
    requires known { IsContext context.now }
    requires begun { at.old ≡ node + 1 }
    requires room { at.old + (expr_count (expr_view condition.now) + (expr_count (expr_view yes.now) + expr_count (expr_view no.now))) < 2 ^ 64 }
    ensures row { first (rows.expr_rows (scope_view context.now.scope) node (cond (expr_view condition.now) (expr_view yes.now) (expr_view no.now))) ≡ row_of result }
    ensures typed { IfOk result (λ t. typing.type_of (scope_view context.now.scope) (cond (expr_view condition.now) (expr_view yes.now) (expr_view no.now)) ≡ Some t) }
    ensures counted { IfOk result (λ _. at.new ≡ at.old + (expr_count (expr_view condition.now) + (expr_count (expr_view yes.now) + expr_count (expr_view no.now)))) }
{
    let condition_node = *at;
    let t = judge(context, condition, at)?;
    needs(below(t, ValueType::Int), Rule::Operand, condition_node)?;
    let a = judge(context, yes, at)?;
    let b = judge(context, no, at)?;
    conditional(a, b, node)
}

/// The last part of a comma has its type.
#[cycle(judging)]
#[tactic(auto, using(crate::proofs::Steps::steps))]
fn judge_comma(context: &Context<'_, '_>, parts: &[Expr], at: &mut u64) -> Result<ValueType, Met>
    requires known { IsContext context.now }
    requires room { at.old + exprs_count (exprs_view parts.now) < 2 ^ 64 }
    ensures row { first (rows.comma_rows (scope_view context.now.scope) at.old (exprs_view parts.now)) ≡ row_of result }
    ensures typed { IfOk result (λ t. typing.last_type (scope_view context.now.scope) (exprs_view parts.now) ≡ Some t) }
    ensures counted { IfOk result (λ _. at.new ≡ at.old + exprs_count (exprs_view parts.now)) }
{
    let count = parts.len();
    if count == 0 {
        return Err(Met {
            rule: Rule::Operand,
            node: *at,
        });
    }
    let last = count - 1;
    for i in 0..last {
        judge_effect(context, &parts[i], at)?;
    }
    judge(context, &parts[last], at)
}

/// What is known of arguments.
#[cycle(judging)]
#[tactic(auto, using(crate::proofs::Steps::steps))]
fn judge_all(context: &Context<'_, '_>, exprs: &[Expr], at: &mut u64) -> Result<Arguments, Met>
    requires known { IsContext context.now }
    requires room { at.old + exprs_count (exprs_view exprs.now) < 2 ^ 64 }
    ensures row { first (rows.exprs_rows (scope_view context.now.scope) at.old (exprs_view exprs.now)) ≡ row_of result }
    ensures count { IfOk result (λ a. a.count ≡ typing.exprs_length (exprs_view exprs.now)) }
    ensures ints { IfOk result (λ a. a.ints ≡ typing.all_below (scope_view context.now.scope) ValueType.Int (exprs_view exprs.now)) }
    ensures externs { IfOk result (λ a. a.externs ≡ typing.all_below (scope_view context.now.scope) ValueType.Extern (exprs_view exprs.now)) }
    ensures counted { IfOk result (λ _. at.new ≡ at.old + exprs_count (exprs_view exprs.now)) }
{
    let mut known = Arguments::unseen(exprs.len());
    for expr in exprs {
        let t = judge(context, expr, at)?;
        known = known.seen(t);
    }
    Ok(known)
}

/// What is known of the further operands of a chain.
#[cycle(judging)]
#[tactic(auto, using(crate::proofs::Steps::steps))]
fn judge_links(context: &Context<'_, '_>, links: &[Link], at: &mut u64) -> Result<Arguments, Met>
    requires known { IsContext context.now }
    requires room { at.old + links_count (links_view links.now) < 2 ^ 64 }
    ensures row { first (rows.links_rows (scope_view context.now.scope) at.old (links_view links.now)) ≡ row_of result }
    ensures count { IfOk result (λ a. a.count ≡ typing.links_length (links_view links.now)) }
    ensures ints { IfOk result (λ a. a.ints ≡ typing.links_fit (scope_view context.now.scope) (links_view links.now)) }
    ensures counted { IfOk result (λ _. at.new ≡ at.old + links_count (links_view links.now)) }
{
    let mut known = Arguments::unseen(links.len());
    for link in links {
        let t = judge(context, &link.operand, at)?;
        known = known.seen(t);
    }
    Ok(known)
}

/// An expression whose value isn't used, or a call without a result.
#[cycle(judging)]
#[tactic(auto, using(crate::proofs::Steps::steps))]
pub fn judge_effect(context: &Context<'_, '_>, expr: &Expr, at: &mut u64) -> Result<(), Met>
    requires known { IsContext context.now }
    requires room { at.old + expr_count (expr_view expr.now) < 2 ^ 64 }
    ensures row { first (rows.effect_rows (scope_view context.now.scope) at.old (expr_view expr.now)) ≡ row_of result }
    ensures fits { IfOk result (λ _. typing.effect_fits (scope_view context.now.scope) (expr_view expr.now) ≡ true) }
    ensures counted { IfOk result (λ _. at.new ≡ at.old + expr_count (expr_view expr.now)) }
{
    let call = is_call(context, expr);
    if call {
        return judge_call(context, false, expr, at);
    }
    judge(context, expr, at)?;
    Ok(())
}

/// A call, where one may stand, with a result or without.
#[cycle(judging)]
#[tactic(auto, using(crate::proofs::Steps::steps))]
fn judge_call(context: &Context<'_, '_>, asked: bool, call: &Expr, at: &mut u64) -> Result<(), Met>
    requires known { IsContext context.now }
    requires call { typing.is_call (scope_view context.now.scope) (expr_view call.now) ≡ true }
    requires room { at.old + expr_count (expr_view call.now) < 2 ^ 64 }
    ensures row { first (rows.call_rows (scope_view context.now.scope) asked at.old (expr_view call.now)) ≡ row_of result }
    ensures fits { IfOk result (λ _. typing.call_fits (scope_view context.now.scope) asked (expr_view call.now) ≡ true) }
    ensures counted { IfOk result (λ _. at.new ≡ at.old + expr_count (expr_view call.now)) }
{
    let node = *at;
    *at += 1;
    match call {
        Expr::Call(name, arguments) => {
            let known = judge_all(context, arguments.as_slice(), at)?;
            called(context.meaning(name), asked, known, node)
        }
        Expr::TableCall(name, index, arguments) => {
            judge(context, index, at)?;
            let known = judge_all(context, arguments.as_slice(), at)?;
            let meaning = context.meaning(name);
            table_called(context, meaning, asked, known, index, node)
        }
        Expr::Lit(_)
        | Expr::Decimal(_)
        | Expr::Var(_)
        | Expr::Index(_, _)
        | Expr::Assign(_, _)
        | Expr::Store(_, _, _)
        | Expr::Unary(_, _)
        | Expr::Binary(_, _, _)
        | Expr::Chain(_, _)
        | Expr::Cond(_, _, _)
        | Expr::Comma(_) => Ok(()),
    }
}
