// How many nodes a module has, or None where 64 bits don't hold the number. Each count goes on from the nodes before.

ghost use Rattle.std.specs.Prelude.{◌≡◌, ◌+◌, ◌<◌, ◌^◌, SomeIff, map};
ghost use Rattle.asm_tree.specs.Views.{expr_view, exprs_view, links_view, expr_option, stmt_view, stmts_view, clauses_view, function_view, exports_view, module_view};
ghost use Rattle.asm_lang_valid.specs.Rows.{expr_count, exprs_count, links_count, option_count, stmt_count, stmts_count, clauses_count, function_count, functions_count, exports_count, module_count};

use asm_tree::{Clause, Exports, Expr, Function, Link, Module, Stmt};

/// The number of nodes of a module, or None where 64 bits don't hold it.
pub fn node_count(module: &Module) -> Option<u64>
    ensures { SomeIff result (module_count (module_view «module».now) < 2 ^ 64) (module_count (module_view «module».now)) }
{
    let at = 1 + module.globals.len() as u64;
    let at = count_functions(module.functions.as_slice(), at)?;
    let at = at.checked_add(module.tables.len() as u64)?;
    at.checked_add(count_exports(&module.exports))
}

fn count_exports(exports: &Exports) -> u64
    ensures { result ≡ exports_count (exports_view exports.now) }
{
    match exports {
        Exports::One(_) => 1,
        Exports::Many(exports) => exports.len() as u64,
    }
}

#[tactic(auto, using(crate::proofs::NodeCounts::counts))]
fn count_functions(functions: &[Function], before: u64) -> Option<u64>
    ensures { SomeIff result (before + functions_count (map function_view functions.now) < 2 ^ 64) (before + functions_count (map function_view functions.now)) }
{
    let mut at = before;
    for function in functions {
        at = count_function(function, at)?;
    }
    Some(at)
}

#[tactic(auto, using(crate::proofs::NodeCounts::counts))]
fn count_function(function: &Function, before: u64) -> Option<u64>
    ensures { SomeIff result (before + function_count (function_view function.now) < 2 ^ 64) (before + function_count (function_view function.now)) }
{
    let heading = 1 + function.params.len() as u64 + function.locals.len() as u64;
    let at = before.checked_add(heading)?;
    count_stmts(function.body.as_slice(), at)
}

#[cycle(statements)]
#[tactic(auto, using(crate::proofs::NodeCounts::counts))]
fn count_stmt(stmt: &Stmt, before: u64) -> Option<u64>
    ensures { SomeIff result (before + stmt_count (stmt_view stmt.now) < 2 ^ 64) (before + stmt_count (stmt_view stmt.now)) }
{
    let at = before.checked_add(1)?;
    match stmt {
        Stmt::Empty | Stmt::Break(_) | Stmt::Continue(_) => Some(at),
        Stmt::Block(body) => count_stmts(body.as_slice(), at),
        Stmt::Plain(expr) => count_expr(expr, at),
        Stmt::If(yes, no, condition) => {
            let at = count_expr(condition, at)?;
            let at = count_stmt(yes, at)?;
            match no {
                None => Some(at),
                Some(no) => count_stmt(no, at),
            }
        }
        Stmt::Return(value) => count_option(value, at),
        Stmt::While(condition, body) => {
            let at = count_expr(condition, at)?;
            count_stmt(body, at)
        }
        Stmt::DoWhile(body, condition) => {
            let at = count_stmt(body, at)?;
            count_expr(condition, at)
        }
        Stmt::For(head, body) => {
            let at = count_option(&head.start, at)?;
            let at = count_option(&head.condition, at)?;
            let at = count_option(&head.step, at)?;
            count_stmt(body, at)
        }
        Stmt::Labelled(_, body) => count_stmt(body, at),
        Stmt::Switch(clauses, subject) => {
            let at = count_expr(subject, at)?;
            count_clauses(clauses.as_slice(), at)
        }
    }
}

#[cycle(statements)]
#[tactic(auto, using(crate::proofs::NodeCounts::counts))]
fn count_stmts(stmts: &[Stmt], before: u64) -> Option<u64>
    ensures { SomeIff result (before + stmts_count (stmts_view stmts.now) < 2 ^ 64) (before + stmts_count (stmts_view stmts.now)) }
{
    let mut at = before;
    for stmt in stmts {
        at = count_stmt(stmt, at)?;
    }
    Some(at)
}

#[cycle(statements)]
#[tactic(auto, using(crate::proofs::NodeCounts::counts))]
fn count_clauses(clauses: &[Clause], before: u64) -> Option<u64>
    ensures { SomeIff result (before + clauses_count (clauses_view clauses.now) < 2 ^ 64) (before + clauses_count (clauses_view clauses.now)) }
{
    let mut at = before;
    for clause in clauses {
        at = count_stmts(clause.body.as_slice(), at)?;
    }
    Some(at)
}

#[tactic(auto, using(crate::proofs::NodeCounts::counts))]
fn count_option(expr: &Option<Expr>, before: u64) -> Option<u64>
    ensures { SomeIff result (before + option_count (expr_option expr.now) < 2 ^ 64) (before + option_count (expr_option expr.now)) }
{
    match expr {
        None => Some(before),
        Some(expr) => count_expr(expr, before),
    }
}

#[cycle(expressions)]
#[tactic(auto, using(crate::proofs::NodeCounts::counts))]
fn count_expr(expr: &Expr, before: u64) -> Option<u64>
    ensures { SomeIff result (before + expr_count (expr_view expr.now) < 2 ^ 64) (before + expr_count (expr_view expr.now)) }
{
    let at = before.checked_add(1)?;
    match expr {
        Expr::Lit(_) | Expr::Decimal(_) | Expr::Var(_) => Some(at),
        Expr::Index(_, index) => count_expr(index, at),
        Expr::Call(_, arguments) => count_exprs(arguments.as_slice(), at),
        Expr::TableCall(_, index, arguments) => {
            let at = count_expr(index, at)?;
            count_exprs(arguments.as_slice(), at)
        }
        Expr::Assign(_, value) => count_expr(value, at),
        Expr::Store(_, index, value) => {
            let at = count_expr(index, at)?;
            count_expr(value, at)
        }
        Expr::Unary(_, operand) => count_expr(operand, at),
        Expr::Binary(_, left, right) => {
            let at = count_expr(left, at)?;
            count_expr(right, at)
        }
        Expr::Chain(first, links) => {
            let at = count_expr(first, at)?;
            count_links(links.as_slice(), at)
        }
        Expr::Cond(condition, yes, no) => {
            let at = count_expr(condition, at)?;
            let at = count_expr(yes, at)?;
            count_expr(no, at)
        }
        Expr::Comma(parts) => count_exprs(parts.as_slice(), at),
    }
}

#[cycle(expressions)]
#[tactic(auto, using(crate::proofs::NodeCounts::counts))]
fn count_exprs(exprs: &[Expr], before: u64) -> Option<u64>
    ensures { SomeIff result (before + exprs_count (exprs_view exprs.now) < 2 ^ 64) (before + exprs_count (exprs_view exprs.now)) }
{
    let mut at = before;
    for expr in exprs {
        at = count_expr(expr, at)?;
    }
    Some(at)
}

#[cycle(expressions)]
#[tactic(auto, using(crate::proofs::NodeCounts::counts))]
fn count_links(links: &[Link], before: u64) -> Option<u64>
    ensures { SomeIff result (before + links_count (links_view links.now) < 2 ^ 64) (before + links_count (links_view links.now)) }
{
    let mut at = before;
    for link in links {
        at = count_expr(&link.operand, at)?;
    }
    Some(at)
}
