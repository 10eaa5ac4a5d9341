// The rows of one node, by the types of its parts.

ghost use Rattle.std.specs.Prelude.{◌≡◌, ◌&&◌, Some, is_some, IfOk};
ghost use Rattle.asm_tree.specs.Views.{expr_view};
ghost use Rattle.asm_types.specs.Types as types;
ghost use Rattle.asm_types.specs.Rows.{row, unary_row_of};
ghost use Rattle.asm_lang_valid.specs.declared.rule.Rule.TheVariants as rules;
ghost use Rattle.asm_lang_valid.specs.Rows.{first, need};
ghost use Rattle.asm_lang_valid.specs.Typing as typing;
ghost use Rattle.asm_lang_valid.specs.TypeRows as rows;
ghost use Rattle.asm_names.specs.Meanings.{meaning_view};
ghost use Rattle.asm_validate_exprs.specs.Forms.{assigned_rows, assigned_type, stored_rows, stored_type, chain_rows, chain_type};
ghost use Rattle.asm_validate_exprs.specs.Found.{row_of};

use crate::calls::used;
use crate::elements::element;
use crate::literals::is_factor;
use crate::node::{needs, typed};
use asm_lang_valid::{Met, Rule};
use asm_names::Meaning;
use asm_tree::Expr;
use asm_types::{ValueType, below, binary_row, unary_row};
use sem_words::{JsOp, JsUnary};

fn is_int(meaning: Option<Meaning<'_>>) -> bool
    ensures { result ≡ typing.is_int (meaning_view meaning.entry) }
{
    matches!(meaning, Some(Meaning::Int))
}

/// A variable's type.
#[tactic(auto, using(crate::proofs::Sequences::sequences))]
pub fn variable(meaning: Option<Meaning<'_>>, node: u64) -> Result<ValueType, Met>
    ensures row { first (need (typing.is_int (meaning_view meaning.entry)) rules.OutsideInteger node) ≡ row_of result }
    ensures typed { IfOk result (λ t. row (typing.is_int (meaning_view meaning.entry)) ValueType.Int ≡ Some t) }
{
    needs(is_int(meaning), Rule::OutsideInteger, node)?;
    Ok(ValueType::Int)
}

/// The type of an assignment of a value of type `t`.
#[tactic(auto, using(crate::proofs::Sequences::sequences))]
pub fn assigned(meaning: Option<Meaning<'_>>, t: ValueType, node: u64) -> Result<ValueType, Met>
    ensures row { first (assigned_rows (meaning_view meaning.entry) t node) ≡ row_of result }
    ensures typed { IfOk result (λ u. assigned_type (meaning_view meaning.entry) (Some t) ≡ Some u) }
{
    needs(is_int(meaning), Rule::OutsideInteger, node)?;
    needs(below(t, ValueType::Int), Rule::Operand, node)?;
    Ok(t)
}

/// The type of an element at an index of type `t`.
#[tactic(auto, using(crate::proofs::Sequences::sequences))]
pub fn loaded(
    meaning: Option<Meaning<'_>>,
    index: &Expr,
    t: ValueType,
    node: u64,
) -> Result<ValueType, Met>
    ensures row { first (rows.element_rows (meaning_view meaning.entry) (expr_view index.now) (Some t) node) ≡ row_of result }
    ensures typed { IfOk result (λ u. row (typing.index_fits (meaning_view meaning.entry) (expr_view index.now) (Some t)) ValueType.Intish ≡ Some u) }
{
    element(meaning, index, t, node)?;
    Ok(ValueType::Intish)
}

/// The type of a store at an index of type `s` of a value of type `t`.
#[tactic(auto, using(crate::proofs::Sequences::sequences))]
pub fn stored(
    meaning: Option<Meaning<'_>>,
    index: &Expr,
    s: ValueType,
    t: ValueType,
    node: u64,
) -> Result<ValueType, Met>
    ensures row { first (stored_rows (meaning_view meaning.entry) (expr_view index.now) s t node) ≡ row_of result }
    ensures typed { IfOk result (λ u. stored_type (meaning_view meaning.entry) (expr_view index.now) (Some s) (Some t) ≡ Some u) }
{
    used(meaning, node)?;
    needs(below(t, ValueType::Intish), Rule::Operand, node)?;
    element(meaning, index, s, node)?;
    Ok(t)
}

fn unary_rule(op: JsUnary) -> Rule
    ensures { result ≡ rows.unary_rule op }
{
    match op {
        JsUnary::Plus => Rule::OutsideInteger,
        JsUnary::Neg | JsUnary::BitNot | JsUnary::Not => Rule::Operand,
    }
}

/// The type of a prefix operator's result.
pub fn applied(op: JsUnary, t: ValueType, node: u64) -> Result<ValueType, Met>
    ensures row { first (need (is_some (unary_row_of op t)) (rows.unary_rule op) node) ≡ row_of result }
    ensures typed { IfOk result (λ u. unary_row_of op t ≡ Some u) }
{
    typed(unary_row(op, t), unary_rule(op), node)
}

/// A product of an int and a literal below 2^20 in magnitude.
fn product(left: &Expr, right: &Expr, a: ValueType, b: ValueType) -> Option<ValueType>
    ensures { result ≡ typing.product (expr_view left.now) (expr_view right.now) (Some a) (Some b) }
{
    let ints = below(a, ValueType::Int) && below(b, ValueType::Int);
    (ints && (is_factor(left) || is_factor(right))).then_some(ValueType::Intish)
}

fn operator_type(
    op: JsOp,
    left: &Expr,
    right: &Expr,
    a: ValueType,
    b: ValueType,
) -> Option<ValueType>
    ensures { result ≡ typing.operated op (expr_view left.now) (expr_view right.now) (Some a) (Some b) }
{
    if op == JsOp::Mul {
        product(left, right, a, b)
    } else {
        binary_row(op, a, b)
    }
}

/// The type of the result of an operator of two operands, which have the types `a` and `b`.
pub fn operated(
    op: JsOp,
    left: &Expr,
    right: &Expr,
    a: ValueType,
    b: ValueType,
    node: u64,
) -> Result<ValueType, Met>
    ensures row { first (need (is_some (typing.operated op (expr_view left.now) (expr_view right.now) (Some a) (Some b))) rules.Operand node) ≡ row_of result }
    ensures typed { IfOk result (λ t. typing.operated op (expr_view left.now) (expr_view right.now) (Some a) (Some b) ≡ Some t) }
{
    typed(operator_type(op, left, right, a, b), Rule::Operand, node)
}

/// The type of a chain whose first operand has the type `t`, with so many others that are all below int or not.
#[tactic(auto, using(crate::proofs::Sequences::sequences))]
pub fn chained(t: ValueType, fit: bool, count: usize, node: u64) -> Result<ValueType, Met>
    ensures row { first (chain_rows (types.is_below t ValueType.Int && fit) count node) ≡ row_of result }
    ensures typed { IfOk result (λ u. chain_type (types.is_below t ValueType.Int && fit) count ≡ Some u) }
{
    let all = below(t, ValueType::Int) && fit;
    needs(all, Rule::Operand, node)?;
    needs(count <= 1 << 20, Rule::ChainLong, node)?;
    Ok(ValueType::Intish)
}

/// The type of a conditional whose two arms have the types `a` and `b`.
#[tactic(auto, using(crate::proofs::Sequences::sequences))]
pub fn conditional(a: ValueType, b: ValueType, node: u64) -> Result<ValueType, Met>
    ensures row { first (need (types.is_below a ValueType.Int && types.is_below b ValueType.Int) rules.Operand node) ≡ row_of result }
    ensures typed { IfOk result (λ t. row (types.is_below a ValueType.Int && types.is_below b ValueType.Int) ValueType.Int ≡ Some t) }
{
    let ints = below(a, ValueType::Int) && below(b, ValueType::Int);
    needs(ints, Rule::Operand, node)?;
    Ok(ValueType::Int)
}
