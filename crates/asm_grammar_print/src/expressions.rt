//! The tokens of an expression.

ghost use Rattle.std.specs.Prelude.{◌≡◌, [], ◌∷◌, false, OnOk, codes};
ghost use Rattle.sem_words.specs.Lists.{text_bytes};
ghost use Rattle.asm_lang.specs.Grammar.{level_of};
ghost use Rattle.asm_lang.specs.Modules.{lit, unary, index};
ghost use Rattle.asm_lang.specs.Printing.{word, between, operator_text, prefix_text, minus_text, expr_level, at_level, is_literal, expr_text, exprs_text, links_text, option_text};
ghost use Rattle.asm_tree.specs.Views.{expr_view, exprs_view, links_view, expr_option};
ghost use Rattle.asm_grammar_print.specs.Put.{written, put};

use crate::output::Output;
use asm_tree::{Expr, Link};
use sem_words::{JsOp, JsUnary, Text};
use std::alloc::AllocError;

fn operator_text(op: JsOp) -> &'static [u8]
    ensures { result.now ≡ operator_text op }
{
    match op {
        JsOp::Add => b"+",
        JsOp::Sub => b"-",
        JsOp::Mul => b"*",
        JsOp::Div => b"/",
        JsOp::Rem => b"%",
        JsOp::Or => b"|",
        JsOp::And => b"&",
        JsOp::Xor => b"^",
        JsOp::Shl => b"<<",
        JsOp::Sar => b">>",
        JsOp::Shr => b">>>",
        JsOp::Lt => b"<",
        JsOp::Le => b"<=",
        JsOp::Gt => b">",
        JsOp::Ge => b">=",
        JsOp::Eq => b"==",
        JsOp::Ne => b"!=",
    }
}

fn prefix_text(op: JsUnary) -> &'static [u8]
    ensures { result.now ≡ prefix_text op }
{
    match op {
        JsUnary::Neg => b"-",
        JsUnary::BitNot => b"~",
        JsUnary::Not => b"!",
        JsUnary::Plus => b"+",
    }
}

fn minus_text(minus: bool) -> &'static [u8]
    ensures { result.now ≡ minus_text minus }
{
    if minus { b"-" } else { b"+" }
}

/// How strongly a binary operator binds.
fn level_of(op: JsOp) -> u8
    ensures { result ≡ level_of op }
{
    match op {
        JsOp::Or => 5,
        JsOp::Xor => 6,
        JsOp::And => 7,
        JsOp::Eq | JsOp::Ne => 8,
        JsOp::Lt | JsOp::Le | JsOp::Gt | JsOp::Ge => 9,
        JsOp::Shl | JsOp::Sar | JsOp::Shr => 10,
        JsOp::Add | JsOp::Sub => 11,
        JsOp::Mul | JsOp::Div | JsOp::Rem => 12,
    }
}

/// The level of an expression, that of its weakest operator outside parentheses.
#[tactic(auto, using(asm_tree::proofs::Views::views))]
fn level(expr: &Expr) -> u8
    ensures { result ≡ expr_level (expr_view expr.now) }
{
    match expr {
        Expr::Comma(_) => 0,
        Expr::Assign(_, _) | Expr::Store(_, _, _) => 1,
        Expr::Cond(_, _, _) => 2,
        Expr::Binary(op, _, _) => level_of(*op),
        Expr::Chain(_, _) => 11,
        Expr::Unary(_, _) => 13,
        Expr::Lit(value) => literal_level(*value),
        Expr::Decimal(_) | Expr::Var(_) | Expr::Index(_, _) => 14,
        Expr::Call(_, _) | Expr::TableCall(_, _, _) => 14,
    }
}

fn literal_level(value: i128) -> u8
    ensures { result ≡ expr_level (lit value) }
{
    if value < 0 { 13 } else { 14 }
}

/// Whether it is a number without a sign.
#[tactic(auto, using(asm_tree::proofs::Views::views))]
fn is_literal(expr: &Expr) -> bool
    ensures { result ≡ is_literal (expr_view expr.now) }
{
    match expr {
        Expr::Lit(value) => *value >= 0,
        Expr::Decimal(_) | Expr::Var(_) | Expr::Index(_, _) => false,
        Expr::Call(_, _) | Expr::TableCall(_, _, _) => false,
        Expr::Assign(_, _) | Expr::Store(_, _, _) => false,
        Expr::Unary(_, _) | Expr::Binary(_, _, _) | Expr::Chain(_, _) => false,
        Expr::Cond(_, _, _) | Expr::Comma(_) => false,
    }
}

#[cycle(expr)]
#[tactic(auto, using(asm_tree::proofs::Views::views, crate::proofs::Puts::puts, crate::proofs::ExprPuts::puts))]
pub fn put_expr(out: &mut Output, expr: &Expr) -> Result<(), AllocError>
    ensures { OnOk result (written out.new ≡ put (written out.old) (expr_text (expr_view expr.now))) }
{
    match expr {
        Expr::Lit(value) => out.literal(*value),
        Expr::Decimal(text) | Expr::Var(text) => out.word(text.as_bytes()),
        Expr::Index(name, index) => put_index(out, name, index),
        Expr::Call(name, arguments) => {
            out.word(name.as_bytes())?;
            put_arguments(out, arguments.as_slice())
        }
        Expr::TableCall(name, index, arguments) => {
            put_index(out, name, index)?;
            put_arguments(out, arguments.as_slice())
        }
        Expr::Assign(name, value) => {
            out.word(name.as_bytes())?;
            put_assigned(out, value)
        }
        Expr::Store(name, index, value) => {
            put_index(out, name, index)?;
            put_assigned(out, value)
        }
        Expr::Unary(op, operand) => put_prefixed(out, *op, operand),
        Expr::Binary(op, left, right) => {
            put_operand(out, level_of(*op), left)?;
            out.word(operator_text(*op))?;
            put_operand(out, level_of(*op) + 1, right)
        }
        Expr::Chain(first, links) => {
            put_operand(out, 11, first)?;
            put_links(out, links.as_slice())
        }
        Expr::Cond(condition, yes, no) => {
            put_operand(out, 3, condition)?;
            out.word(b"?")?;
            put_operand(out, 1, yes)?;
            out.word(b":")?;
            put_operand(out, 1, no)
        }
        Expr::Comma(exprs) => put_list(out, exprs.as_slice()),
    }
}

/// In a place that needs this level, with parentheses where the expression is of a weaker one.
#[cycle(expr)]
#[tactic(auto, using(asm_tree::proofs::Views::views, crate::proofs::Puts::puts, crate::proofs::ExprPuts::puts))]
fn put_operand(out: &mut Output, place: u8, expr: &Expr) -> Result<(), AllocError>
    ensures { OnOk result (written out.new
        ≡ put (written out.old) (at_level place (expr_level (expr_view expr.now)) (expr_text (expr_view expr.now)))) }
{
    if level(expr) < place {
        put_in_parens(out, expr)
    } else {
        put_expr(out, expr)
    }
}

#[cycle(expr)]
#[tactic(auto, using(asm_tree::proofs::Views::views, crate::proofs::Puts::puts, crate::proofs::ExprPuts::puts))]
fn put_in_parens(out: &mut Output, expr: &Expr) -> Result<(), AllocError>
    ensures { OnOk result (written out.new
        ≡ put (written out.old) (between (codes "(") (expr_text (expr_view expr.now)) (codes ")"))) }
{
    out.word(b"(")?;
    put_expr(out, expr)?;
    out.word(b")")
}

/// A `-` directly before a number would make a literal of the two, so the number stands in parentheses.
#[cycle(expr)]
#[tactic(auto, using(asm_tree::proofs::Views::views, crate::proofs::Puts::puts, crate::proofs::ExprPuts::puts))]
fn put_prefixed(out: &mut Output, op: JsUnary, operand: &Expr) -> Result<(), AllocError>
    ensures { OnOk result (written out.new
        ≡ put (written out.old) (expr_text (unary op (expr_view operand.now)))) }
{
    out.word(prefix_text(op))?;
    if op == JsUnary::Neg && is_literal(operand) {
        put_in_parens(out, operand)
    } else {
        put_operand(out, 13, operand)
    }
}

#[cycle(expr)]
#[tactic(auto, using(asm_tree::proofs::Views::views, crate::proofs::Puts::puts, crate::proofs::ExprPuts::puts))]
fn put_index(out: &mut Output, name: &Text, place: &Expr) -> Result<(), AllocError>
    ensures { OnOk result (written out.new
        ≡ put (written out.old) (expr_text (index (text_bytes name.now) (expr_view place.now)))) }
{
    out.word(name.as_bytes())?;
    out.word(b"[")?;
    put_expr(out, place)?;
    out.word(b"]")
}

#[cycle(expr)]
#[tactic(auto, using(asm_tree::proofs::Views::views, crate::proofs::Puts::puts, crate::proofs::ExprPuts::puts))]
fn put_arguments(out: &mut Output, exprs: &[Expr]) -> Result<(), AllocError>
    ensures { OnOk result (written out.new
        ≡ put (written out.old) (between (codes "(") (exprs_text false (exprs_view exprs.now)) (codes ")"))) }
{
    out.word(b"(")?;
    put_list(out, exprs)?;
    out.word(b")")
}

/// An equals sign and what is assigned.
#[cycle(expr)]
#[tactic(auto, using(asm_tree::proofs::Views::views, crate::proofs::Puts::puts, crate::proofs::ExprPuts::puts))]
fn put_assigned(out: &mut Output, value: &Expr) -> Result<(), AllocError>
    ensures { OnOk result (written out.new
        ≡ put (written out.old) (word (codes "=") ∷ at_level 1 (expr_level (expr_view value.now)) (expr_text (expr_view value.now)))) }
{
    out.word(b"=")?;
    put_operand(out, 1, value)
}

/// Expressions with commas between.
#[cycle(expr)]
#[tactic(auto, using(asm_tree::proofs::Views::views, crate::proofs::Puts::puts, crate::proofs::ExprPuts::puts))]
fn put_list(out: &mut Output, exprs: &[Expr]) -> Result<(), AllocError>
    ensures { OnOk result (written out.new ≡ put (written out.old) (exprs_text false (exprs_view exprs.now))) }
{
    match exprs {
        [] => Ok(()),
        [first, others @ ..] => {
            put_operand(out, 1, first)?;
            for expr in others {
                out.word(b",")?;
                put_operand(out, 1, expr)?;
            }
            Ok(())
        }
    }
}

#[cycle(expr)]
#[tactic(auto, using(asm_tree::proofs::Views::views, crate::proofs::Puts::puts, crate::proofs::ExprPuts::puts))]
fn put_links(out: &mut Output, links: &[Link]) -> Result<(), AllocError>
    ensures { OnOk result (written out.new ≡ put (written out.old) (links_text (links_view links.now))) }
{
    for link in links {
        out.word(minus_text(link.minus))?;
        put_operand(out, 12, &link.operand)?;
    }
    Ok(())
}

#[tactic(auto, using(asm_tree::proofs::Views::views, crate::proofs::Puts::puts, crate::proofs::ExprPuts::puts))]
pub fn put_option(out: &mut Output, expr: &Option<Expr>) -> Result<(), AllocError>
    ensures { OnOk result (written out.new ≡ put (written out.old) (option_text (expr_option expr.now))) }
{
    match expr {
        None => Ok(()),
        Some(expr) => put_expr(out, expr),
    }
}
