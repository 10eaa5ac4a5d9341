// Indexes of views.

ghost use Rattle.std.specs.Prelude.{◌≡◌, Some, true, IfOk};
ghost use Rattle.asm_tree.specs.Views.{expr_view};
ghost use Rattle.asm_lang_valid.specs.Scope as scopes;
ghost use Rattle.asm_lang_valid.specs.Rows.{first};
ghost use Rattle.asm_lang_valid.specs.Typing as typing;
ghost use Rattle.asm_lang_valid.specs.TypeRows as rows;
ghost use Rattle.asm_names.specs.Meanings.{meaning_view};
ghost use Rattle.asm_validate_exprs.specs.Indexes.{index_of, index_form_by, index_rule_by, index_view};
ghost use Rattle.asm_validate_exprs.specs.Found.{row_of};

use crate::literals::is_literal;
use crate::node::needs;
use asm_lang_valid::{Element, Met, Rule};
use asm_names::Meaning;
use asm_tree::Expr;
use asm_types::{ValueType, below};
use sem_words::JsOp;

/// An index as the rules see it.
#[derive(Clone, Copy)]
pub enum Index<'a> {
    Literal(i128),
    /// A shift to the right by this.
    Shift(&'a Expr),
    Bare,
}

#[tactic(auto, using(asm_tree::proofs::Views::views))]
fn index_of(index: &Expr) -> Index<'_>
    ensures { index_view result ≡ index_of (expr_view index.now) }
{
    match index {
        Expr::Lit(value) => Index::Literal(*value),
        Expr::Binary(op, _, shift) => {
            if *op == JsOp::Sar {
                Index::Shift(shift)
            } else {
                Index::Bare
            }
        }
        Expr::Decimal(_)
        | Expr::Var(_)
        | Expr::Index(_, _)
        | Expr::Call(_, _)
        | Expr::TableCall(_, _, _)
        | Expr::Assign(_, _)
        | Expr::Store(_, _, _)
        | Expr::Unary(_, _)
        | Expr::Chain(_, _)
        | Expr::Cond(_, _, _)
        | Expr::Comma(_) => Index::Bare,
    }
}

/// An element has 2 to the power of this bytes.
fn shift_of(element: Element) -> u64
    ensures { result ≡ scopes.shift_of element }
{
    match element {
        Element::Int8 | Element::Uint8 => 0,
        Element::Int16 | Element::Uint16 => 1,
        Element::Int32 | Element::Uint32 => 2,
    }
}

/// Whether a literal is an index below 2^31 bytes.
fn literal_index(element: Element, value: i128) -> bool
    ensures { result ≡ typing.literal_index (scopes.shift_of element) value }
{
    match element {
        Element::Int8 | Element::Uint8 => value < 1 << 31,
        Element::Int16 | Element::Uint16 => value < 1 << 30,
        Element::Int32 | Element::Uint32 => value < 1 << 29,
    }
}

fn bare_index(element: Element, t: ValueType) -> bool
    ensures { result ≡ typing.bare_index (scopes.shift_of element) (Some t) }
{
    shift_of(element) == 0 && (below(t, ValueType::Signed) || below(t, ValueType::Unsigned))
}

fn form_fits(element: Element, index: Index<'_>, t: ValueType) -> bool
    ensures { result ≡ index_form_by (scopes.shift_of element) (index_view index.entry) (Some t) }
{
    match index {
        Index::Literal(value) => literal_index(element, value),
        Index::Shift(shift) => is_literal(shift_of(element), shift),
        Index::Bare => bare_index(element, t),
    }
}

fn index_rule(element: Element, index: Index<'_>) -> Rule
    ensures { result ≡ index_rule_by (scopes.shift_of element) (index_view index.entry) }
{
    match index {
        Index::Literal(_) | Index::Shift(_) => Rule::ViewShift,
        Index::Bare => {
            if shift_of(element) == 0 {
                Rule::BareByteIndex
            } else {
                Rule::ViewShift
            }
        }
    }
}

/// The row of an element of a view at an index of type `t`.
fn view_element(element: Element, index: &Expr, t: ValueType, node: u64) -> Result<(), Met>
    ensures row { first (rows.element_rows (scopes.a_view element) (expr_view index.now) (Some t) node) ≡ row_of result }
    ensures fits { IfOk result (λ _. typing.index_fits (scopes.a_view element) (expr_view index.now) (Some t) ≡ true) }
{
    let form = index_of(index);
    needs(form_fits(element, form, t), index_rule(element, form), node)
}

/// .. of an element of what a name means.
pub fn element(
    meaning: Option<Meaning<'_>>,
    index: &Expr,
    t: ValueType,
    node: u64,
) -> Result<(), Met>
    ensures row { first (rows.element_rows (meaning_view meaning.entry) (expr_view index.now) (Some t) node) ≡ row_of result }
    ensures fits { IfOk result (λ _. typing.index_fits (meaning_view meaning.entry) (expr_view index.now) (Some t) ≡ true) }
{
    match meaning {
        Some(Meaning::View(element)) => view_element(element, index, t, node),
        None
        | Some(
            Meaning::Int
            | Meaning::Outside
            | Meaning::Foreign(_)
            | Meaning::Builtin(_)
            | Meaning::Function(_)
            | Meaning::Table(_)
            | Meaning::Parameter,
        ) => Err(Met {
            rule: Rule::OutsideInteger,
            node,
        }),
    }
}
