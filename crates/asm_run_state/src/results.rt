//! Whether a function has a result.
ghost use Rattle.std.specs.Prelude.{◌≡◌};
ghost use Rattle.asm_tree.specs.Views.{function_view, stmt_view, stmts_view};
ghost use Rattle.asm_lang_valid.specs.Scope as scopes;
ghost use Rattle.asm_lang_valid.specs.Scope.{signature_of};

use asm_tree::{Function, Stmt};

/// Whether a function has a result: its last statement is a return with an expression.
pub fn has_result(function: &Function) -> bool
    ensures { result ≡ (signature_of (function_view function.now)).result }
{
    last_gives_value(function.body.as_slice())
}

#[tactic(auto, using(crate::proofs::Lasts::lasts))]
fn last_gives_value(stmts: &[Stmt]) -> bool
    ensures { result ≡ scopes.last_gives_value (stmts_view stmts.now) }
{
    match stmts.last() {
        None => false,
        Some(last) => gives_value(last),
    }
}

#[tactic(auto, using(crate::proofs::Lasts::shapes))]
fn gives_value(stmt: &Stmt) -> bool
    ensures { result ≡ scopes.gives_value (stmt_view stmt.now) }
{
    match stmt {
        Stmt::Return(value) => value.is_some(),
        Stmt::Block(_)
        | Stmt::Plain(_)
        | Stmt::Empty
        | Stmt::If(_, _, _)
        | Stmt::While(_, _)
        | Stmt::DoWhile(_, _)
        | Stmt::For(_, _)
        | Stmt::Break(_)
        | Stmt::Continue(_)
        | Stmt::Labelled(_, _)
        | Stmt::Switch(_, _) => false,
    }
}
