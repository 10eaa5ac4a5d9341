//! The places of the nodes of expressions and statements: a whole before its parts, in text order.

ghost use Rattle.std.specs.Prelude.{◌≡◌, ◌&&◌, ◌++◌, ◌∷◌, [], map, IfOk, OnOk};
ghost use Rattle.sem_words.specs.Lists.{list_items};
ghost use Rattle.asm_lang.specs.Modules.{is_sum, expr_of, expr_places, exprs_places, option_places, stmt_places, stmts_places, clauses_places};
ghost use Rattle.asm_grammar_nodes.specs.Heights.{is_chain};
ghost use Rattle.asm_grammar_nodes.specs.Views.{expr_view, addend_view, exprs_view, expr_option, stmt_view, stmts_view, clauses_view};
ghost use Rattle.asm_grammar_places.specs.Parts.{own_place, sum_place, addends_places, head_places, below_labels};

use asm_grammar_nodes::{Addend, ClauseTree, ExprTree, ForHeadTree, StmtTree, is_chain, is_sum};
use sem_words::{JsOp, List};
use std::alloc::AllocError;

/// The list with one more place at its end.
pub(crate) fn with_place(places: List<u64>, at: u64) -> Result<List<u64>, AllocError>
    ensures { IfOk result (λ r. list_items r ≡ list_items places ++ at ∷ []) }
{
    let mut places = places;
    match places.push(at) {
        Ok(()) => Ok(places),
        Err(_) => Err(AllocError),
    }
}

/// Puts one more place at the list's end.
fn put_place(places: &mut List<u64>, at: u64) -> Result<(), AllocError>
    ensures { OnOk result (list_items places.new ≡ list_items places.old ++ at ∷ []) }
{
    match places.push(at) {
        Ok(()) => Ok(()),
        Err(_) => Err(AllocError),
    }
}

/// Puts the places of an expression at the list's end. A tree may be 1,000 high, so a level takes little of the machine's stack.
#[cycle(exprs)]
#[inline(never)]
#[tactic(auto, using(crate::proofs::PlaceLemmas::expressions))]
pub(crate) fn expr_places(places: &mut List<u64>, tree: &ExprTree) -> Result<(), AllocError>
    ensures { OnOk result (list_items places.new ≡ list_items places.old ++ expr_places (expr_view tree.now)) }
{
    match tree {
        ExprTree::Literal(at, _) => put_place(places, *at),
        ExprTree::Negative(at, _) => put_place(places, *at),
        ExprTree::Decimals(at, _) => put_place(places, *at),
        ExprTree::Variable(at, _) => put_place(places, *at),
        ExprTree::Element(at, _, index) => {
            put_place(places, *at)?;
            expr_places(places, index)
        }
        ExprTree::Call(at, _, arguments) => {
            put_place(places, *at)?;
            exprs_places(places, arguments.as_slice())
        }
        ExprTree::TableCall(at, _, index, arguments) => {
            put_place(places, *at)?;
            expr_places(places, index)?;
            exprs_places(places, arguments.as_slice())
        }
        ExprTree::Assignment(at, _, value) => {
            put_place(places, *at)?;
            expr_places(places, value)
        }
        ExprTree::Store(at, _, index, value) => {
            put_place(places, *at)?;
            expr_places(places, index)?;
            expr_places(places, value)
        }
        ExprTree::Unary(at, _, operand) => {
            put_place(places, *at)?;
            expr_places(places, operand)
        }
        ExprTree::Binary(at, left, operator, right) => {
            binary_place(places, *at, *operator, left)?;
            expr_places(places, left)?;
            expr_places(places, right)
        }
        ExprTree::Sum(first, others) => {
            sum_place(places, is_chain(first), others.as_slice())?;
            expr_places(places, first)?;
            addends_places(places, others.as_slice())
        }
        ExprTree::Conditional(at, condition, first, second) => {
            put_place(places, *at)?;
            expr_places(places, condition)?;
            expr_places(places, first)?;
            expr_places(places, second)
        }
        ExprTree::Listed(at, parts) => {
            put_place(places, *at)?;
            exprs_places(places, parts.as_slice())
        }
    }
}

/// The place of a node is that of its first operand, where it goes on with a chain.
#[tactic(auto, using(crate::proofs::PlaceLemmas::own_places))]
fn place_unless(goes_on: bool, places: &mut List<u64>, at: u64) -> Result<(), AllocError>
    ensures { OnOk result (list_items places.new ≡ list_items places.old ++ own_place goes_on at) }
{
    if goes_on {
        Ok(())
    } else {
        put_place(places, at)
    }
}

/// The place of a binary node, unless it goes on with the chain that is its first operand.
fn binary_place(
    places: &mut List<u64>,
    at: u64,
    operator: JsOp,
    left: &ExprTree,
) -> Result<(), AllocError>
    ensures { OnOk result (list_items places.new ≡ list_items places.old ++ own_place (is_sum operator && is_chain (expr_of (expr_view left.now))) at) }
{
    place_unless(is_sum(operator) && is_chain(left), places, at)
}

/// The place of a sum is its first operator, and that of its first operand where that is a chain.
#[tactic(auto, using(crate::proofs::PlaceLemmas::own_places))]
fn sum_place(places: &mut List<u64>, goes_on: bool, others: &[Addend]) -> Result<(), AllocError>
    ensures { OnOk result (list_items places.new ≡ list_items places.old ++ sum_place goes_on (map addend_view others.now)) }
{
    match others.split_first() {
        None => Ok(()),
        Some((addend, _)) => place_unless(goes_on, places, addend.at),
    }
}

#[cycle(exprs)]
#[inline(never)]
pub(crate) fn exprs_places(places: &mut List<u64>, trees: &[ExprTree]) -> Result<(), AllocError>
    ensures { OnOk result (list_items places.new ≡ list_items places.old ++ exprs_places (exprs_view trees.now)) }
{
    for tree in trees {
        expr_places(places, tree)?;
    }
    Ok(())
}

#[cycle(exprs)]
#[inline(never)]
fn addends_places(places: &mut List<u64>, addends: &[Addend]) -> Result<(), AllocError>
    ensures { OnOk result (list_items places.new ≡ list_items places.old ++ addends_places (map addend_view addends.now)) }
{
    for addend in addends {
        expr_places(places, &addend.operand)?;
    }
    Ok(())
}

#[tactic(auto, using(crate::proofs::PlaceLemmas::own_places))]
fn option_places(places: &mut List<u64>, tree: &Option<Box<ExprTree>>) -> Result<(), AllocError>
    ensures { OnOk result (list_items places.new ≡ list_items places.old ++ option_places (expr_option tree.now)) }
{
    match tree {
        None => Ok(()),
        Some(tree) => expr_places(places, tree),
    }
}

#[tactic(auto, using(crate::proofs::PlaceLemmas::own_places))]
fn head_places(places: &mut List<u64>, head: &ForHeadTree) -> Result<(), AllocError>
    ensures { OnOk result (list_items places.new ≡ list_items places.old ++ head_places head.now) }
{
    option_places(places, &head.start)?;
    option_places(places, &head.condition)?;
    option_places(places, &head.step)
}

/// Puts the places of a statement at the list's end. A level takes little of the machine's stack here too.
#[cycle(stmts)]
#[inline(never)]
#[tactic(auto, using(crate::proofs::PlaceLemmas::statements))]
pub(crate) fn stmt_places(places: &mut List<u64>, tree: &StmtTree) -> Result<(), AllocError>
    ensures { OnOk result (list_items places.new ≡ list_items places.old ++ stmt_places (stmt_view tree.now)) }
{
    match tree {
        StmtTree::Block(at, body) => {
            put_place(places, *at)?;
            stmts_places(places, body.as_slice())
        }
        StmtTree::Plain(at, expr) => {
            put_place(places, *at)?;
            expr_places(places, expr)
        }
        StmtTree::Empty(at) => put_place(places, *at),
        StmtTree::If(at, condition, first, second) => {
            put_place(places, *at)?;
            expr_places(places, condition)?;
            stmt_places(places, first)?;
            match second {
                None => Ok(()),
                Some(second) => stmt_places(places, second),
            }
        }
        StmtTree::Return(at, value) => {
            put_place(places, *at)?;
            option_places(places, value)
        }
        StmtTree::While(at, condition, body) => {
            put_place(places, *at)?;
            expr_places(places, condition)?;
            stmt_places(places, body)
        }
        StmtTree::DoWhile(at, body, condition) => {
            put_place(places, *at)?;
            stmt_places(places, body)?;
            expr_places(places, condition)
        }
        StmtTree::For(at, head, body) => {
            put_place(places, *at)?;
            head_places(places, head)?;
            stmt_places(places, body)
        }
        StmtTree::Break(at, _) => put_place(places, *at),
        StmtTree::Continue(at, _) => put_place(places, *at),
        StmtTree::Labelled(labels, body) => match labels.as_slice().split_first() {
            None => stmt_places(places, body),
            Some((label, _)) => {
                put_place(places, label.at)?;
                places_within(places, body)
            }
        },
        StmtTree::Switch(at, subject, clauses) => {
            put_place(places, *at)?;
            expr_places(places, subject)?;
            clauses_places(places, clauses.as_slice())
        }
    }
}

/// Without the place of its own labels: those of labels one in another are one node.
#[cycle(stmts)]
#[inline(never)]
#[tactic(auto, using(crate::proofs::PlaceLemmas::statements))]
fn places_within(places: &mut List<u64>, tree: &StmtTree) -> Result<(), AllocError>
    ensures { OnOk result (list_items places.new ≡ list_items places.old ++ below_labels (stmt_view tree.now)) }
{
    match tree {
        StmtTree::Labelled(_, body) => places_within(places, body),
        StmtTree::Block(..)
        | StmtTree::Plain(..)
        | StmtTree::Empty(..)
        | StmtTree::If(..)
        | StmtTree::Return(..)
        | StmtTree::While(..)
        | StmtTree::DoWhile(..)
        | StmtTree::For(..)
        | StmtTree::Break(..)
        | StmtTree::Continue(..)
        | StmtTree::Switch(..) => stmt_places(places, tree),
    }
}

#[cycle(stmts)]
#[inline(never)]
pub(crate) fn stmts_places(places: &mut List<u64>, trees: &[StmtTree]) -> Result<(), AllocError>
    ensures { OnOk result (list_items places.new ≡ list_items places.old ++ stmts_places (stmts_view trees.now)) }
{
    for tree in trees {
        stmt_places(places, tree)?;
    }
    Ok(())
}

#[cycle(stmts)]
#[inline(never)]
fn clauses_places(places: &mut List<u64>, clauses: &[ClauseTree]) -> Result<(), AllocError>
    ensures { OnOk result (list_items places.new ≡ list_items places.old ++ clauses_places (clauses_view clauses.now)) }
{
    for clause in clauses {
        stmts_places(places, clause.body.as_slice())?;
    }
    Ok(())
}
