//! The tokens of a statement.

ghost use Rattle.std.specs.Prelude.{◌≡◌, OnOk};
ghost use Rattle.asm_lang.specs.Printing.{word, condition_text, target_text, labels_text, value_text, stmt_text, stmts_text, clauses_text};
ghost use Rattle.asm_tree.specs.Views.{expr_view, expr_option, text_option, texts_view, stmt_view, stmts_view, clauses_view};
ghost use Rattle.asm_grammar_print.specs.Put.{written, put, for_heading};

use crate::expressions::{put_expr, put_option};
use crate::output::Output;
use asm_tree::{Clause, Expr, Stmt};
use sem_words::Text;
use std::alloc::AllocError;

#[cycle(stmt)]
#[tactic(auto, using(asm_tree::proofs::Views::views, crate::proofs::Puts::puts, crate::proofs::StmtPuts::puts))]
fn put_stmt(out: &mut Output, stmt: &Stmt) -> Result<(), AllocError>
    ensures { OnOk result (written out.new ≡ put (written out.old) (stmt_text (stmt_view stmt.now))) }
{
    match stmt {
        Stmt::Block(body) => {
            out.word(b"{")?;
            put_stmts(out, body.as_slice())?;
            out.word(b"}")
        }
        Stmt::Plain(expr) => {
            put_expr(out, expr)?;
            out.word(b";")
        }
        Stmt::Empty => out.word(b";"),
        Stmt::If(body, other, condition) => {
            put_condition(out, b"if", condition)?;
            put_stmt(out, body)?;
            match other {
                None => Ok(()),
                Some(other) => {
                    out.word(b"else")?;
                    put_stmt(out, other)
                }
            }
        }
        Stmt::Return(value) => {
            out.word(b"return")?;
            put_option(out, value)?;
            out.word(b";")
        }
        Stmt::While(condition, body) => {
            put_condition(out, b"while", condition)?;
            put_stmt(out, body)
        }
        Stmt::DoWhile(body, condition) => {
            out.word(b"do")?;
            put_stmt(out, body)?;
            put_condition(out, b"while", condition)?;
            out.word(b";")
        }
        Stmt::For(head, body) => {
            put_heading(out, &head.start, &head.condition, &head.step)?;
            put_stmt(out, body)
        }
        Stmt::Break(label) => put_target(out, b"break", label),
        Stmt::Continue(label) => put_target(out, b"continue", label),
        Stmt::Labelled(labels, body) => {
            put_labels(out, labels.as_slice())?;
            put_stmt(out, body)
        }
        Stmt::Switch(clauses, subject) => {
            put_condition(out, b"switch", subject)?;
            out.word(b"{")?;
            put_clauses(out, clauses.as_slice())?;
            out.word(b"}")
        }
    }
}

#[cycle(stmt)]
#[tactic(auto, using(asm_tree::proofs::Views::views, crate::proofs::Puts::puts, crate::proofs::StmtPuts::puts))]
pub fn put_stmts(out: &mut Output, stmts: &[Stmt]) -> Result<(), AllocError>
    ensures { OnOk result (written out.new ≡ put (written out.old) (stmts_text (stmts_view stmts.now))) }
{
    for stmt in stmts {
        put_stmt(out, stmt)?;
    }
    Ok(())
}

#[cycle(stmt)]
#[tactic(auto, using(asm_tree::proofs::Views::views, crate::proofs::Puts::puts, crate::proofs::StmtPuts::puts))]
fn put_clauses(out: &mut Output, clauses: &[Clause]) -> Result<(), AllocError>
    ensures { OnOk result (written out.new ≡ put (written out.old) (clauses_text (clauses_view clauses.now))) }
{
    for clause in clauses {
        put_value(out, clause.value)?;
        put_stmts(out, clause.body.as_slice())?;
    }
    Ok(())
}

/// A word and a condition in parentheses.
#[tactic(auto, using(asm_tree::proofs::Views::views, crate::proofs::Puts::puts, crate::proofs::StmtPuts::puts))]
fn put_condition(out: &mut Output, token: &[u8], condition: &Expr) -> Result<(), AllocError>
    ensures { OnOk result (written out.new
        ≡ put (written out.old) (condition_text token.now (expr_view condition.now))) }
{
    out.word(token)?;
    out.word(b"(")?;
    put_expr(out, condition)?;
    out.word(b")")
}

/// A `for` up to the `)`.
#[tactic(auto, using(asm_tree::proofs::Views::views, crate::proofs::Puts::puts, crate::proofs::StmtPuts::puts))]
fn put_heading(
    out: &mut Output,
    first: &Option<Expr>,
    test: &Option<Expr>,
    step: &Option<Expr>,
) -> Result<(), AllocError>
    ensures { OnOk result (written out.new
        ≡ put (written out.old) (for_heading (expr_option first.now) (expr_option test.now) (expr_option step.now))) }
{
    out.word(b"for")?;
    out.word(b"(")?;
    put_option(out, first)?;
    out.word(b";")?;
    put_option(out, test)?;
    out.word(b";")?;
    put_option(out, step)?;
    out.word(b")")
}

/// A word and a label, if there is one.
#[tactic(auto, using(asm_tree::proofs::Views::views, crate::proofs::Puts::puts, crate::proofs::StmtPuts::puts))]
fn put_target(out: &mut Output, token: &[u8], label: &Option<Text>) -> Result<(), AllocError>
    ensures { OnOk result (written out.new
        ≡ put (written out.old) (target_text token.now (text_option label.now))) }
{
    out.word(token)?;
    match label {
        None => out.word(b";"),
        Some(label) => {
            out.word(label.as_bytes())?;
            out.word(b";")
        }
    }
}

#[tactic(auto, using(asm_tree::proofs::Views::views, crate::proofs::Puts::puts, crate::proofs::StmtPuts::puts))]
fn put_labels(out: &mut Output, labels: &[Text]) -> Result<(), AllocError>
    ensures { OnOk result (written out.new ≡ put (written out.old) (labels_text (texts_view labels.now))) }
{
    for label in labels {
        out.word(label.as_bytes())?;
        out.word(b":")?;
    }
    Ok(())
}

#[tactic(auto, using(asm_tree::proofs::Views::views, crate::proofs::Puts::puts, crate::proofs::StmtPuts::puts))]
fn put_value(out: &mut Output, value: Option<i64>) -> Result<(), AllocError>
    ensures { OnOk result (written out.new ≡ put (written out.old) (value_text value)) }
{
    match value {
        None => {
            out.word(b"default")?;
            out.word(b":")
        }
        Some(value) => {
            out.word(b"case")?;
            out.literal(value as i128)?;
            out.word(b":")
        }
    }
}
