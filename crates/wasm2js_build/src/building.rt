//! From terms to expressions.
ghost use Rattle.std.specs.Prelude.{◌≡◌, true, false, IfOk, if◌then◌else◌};
ghost use Rattle.sem_words.specs.Lists.{list_items};
ghost use Rattle.asm_lang.specs.Modules as plain;
ghost use Rattle.asm_tree.specs.Views.{expr_view, exprs_view, links_view};
ghost use Rattle.wasm2js_translation.specs.Names as plain_names;
ghost use Rattle.wasm2js_translation.specs.Names.{spelled};
ghost use Rattle.wasm2js_translation.specs.Words as words;
ghost use Rattle.wasm2js_translation.specs.Words.{bit_operator, relation_operator, as_number, test_of, byte_view, name_of, indexed, arguments, expr as expr_for, int_of};
ghost use Rattle.wasm2js_nodes.specs.Names.{name_view};
ghost use Rattle.wasm2js_translation.specs.Delays.{at_hand as at_hand_view};
ghost use Rattle.wasm2js_terms.specs.Views.{bit_view, relation_view, term_view};
ghost use Rattle.wasm2js_terms.specs.Atoms.{atom_view};
ghost use Rattle.wasm2js_terms.specs.Waits.{delays_view, late_term, late_terms};

use crate::forms::{Form, atom_form, int_form, number_form, own_form, test_form};
use asm_tree::{Expr, Link};
use sem_words::{JsOp, List};
use std::alloc::{AllocError, Global};
use wasm2js_nodes::{
    Fixed, Name, binary, call_of_one, call_of_two, chain, chosen, element, flipped, literal,
    shifted, variable, with_expr,
};
use wasm2js_terms::{Atom, BitOp, Delayed, Relation, Term, at_hand};

/// The expression of a term, as it is.
#[tactic(auto, using(crate::proofs::Replacing::nothing_waits))]
pub fn expr(alloc: Global, term: &Term<'_>) -> Result<Expr, AllocError>
    ensures { IfOk result (λ e. expr_view e ≡ expr_for (term_view term.now)) }
{
    late_expr(alloc, &[], term)
}

/// The expression of a term, of type int.
#[tactic(auto, using(crate::proofs::Replacing::nothing_waits))]
pub fn int_expr(alloc: Global, term: &Term<'_>) -> Result<Expr, AllocError>
    ensures { IfOk result (λ e. expr_view e ≡ int_of (term_view term.now)) }
{
    late_int(alloc, &[], term)
}

/// The expression of a term as it is, where these words wait.
#[cycle(building)]
#[inline(never)]
#[tactic(auto, using(wasm2js_terms::proofs::Views::terms))]
pub(crate) fn late_expr(
    alloc: Global,
    waits: &[Delayed],
    term: &Term<'_>,
) -> Result<Expr, AllocError>
    ensures { IfOk result (λ e. expr_view e ≡ expr_for (late_term waits.now term.now)) }
{
    match term {
        Term::Read(name) => atom_expr(alloc, at_hand(waits, *name)),
        Term::Number(value) => Ok(literal(*value)),
        Term::Both(operator, a, b) => both(alloc, waits, *operator, a, b),
        Term::BothNumber(operator, a, value) => {
            let a = late_expr(alloc, waits, a)?;
            binary(alloc, js_bit(*operator), a, literal(*value))
        }
        Term::BothRead(operator, a, b) => both_read(alloc, waits, *operator, *a, *b),
        Term::Flip(a) => {
            let a = late_expr(alloc, waits, a)?;
            flipped(alloc, a)
        }
        Term::SumOfTwo(a, minus, b) => two(alloc, waits, a, *minus, b),
        Term::SumOfThree(a, first, b, second, c) => three(alloc, waits, a, *first, b, *second, c),
        Term::SumOfFour(a, b, c, d) => four(alloc, waits, a, b, c, d),
        Term::SumNumber(a, minus, value) => {
            let a = late_int(alloc, waits, a)?;
            sum_of_two(alloc, a, *minus, literal(*value))
        }
        Term::SumRead(a, minus, b) => sum_read(alloc, waits, *a, *minus, *b),
        Term::Product(a, b) => product(alloc, waits, a, b),
        Term::Zeros(a) => {
            let a = late_int(alloc, waits, a)?;
            call_of_one(alloc, Name::Always(Fixed::Clz32), a)
        }
        Term::Compare(is_signed, relation, a, b) => compared(
            alloc, waits, *is_signed, *relation, a, b,
        ),
        Term::CompareNumber(is_signed, relation, a, value) => {
            let a = late_number(alloc, waits, a, *is_signed)?;
            compared_number(alloc, *is_signed, *relation, a, *value)
        }
        Term::CompareRead(is_signed, relation, a, b) => {
            compared_read(alloc, waits, *is_signed, *relation, *a, *b)
        }
        Term::Choose(test, a, b) => choice(alloc, waits, test, a, b),
        Term::Byte(is_signed, at) => {
            let at = late_expr(alloc, waits, at)?;
            byte(alloc, *is_signed, at)
        }
        Term::Whole(at) => {
            let at = late_expr(alloc, waits, at)?;
            whole(alloc, at)
        }
    }
}

#[cycle(building)]
#[inline(never)]
fn both(
    alloc: Global,
    waits: &[Delayed],
    operator: BitOp,
    a: &Term<'_>,
    b: &Term<'_>,
) -> Result<Expr, AllocError>
    ensures { IfOk result (λ e. expr_view e ≡ plain.binary (bit_operator (bit_view operator)) (expr_for (late_term waits.now a.now)) (expr_for (late_term waits.now b.now))) }
{
    let a = late_expr(alloc, waits, a)?;
    let b = late_expr(alloc, waits, b)?;
    binary(alloc, js_bit(operator), a, b)
}

#[inline(never)]
fn both_read(
    alloc: Global,
    waits: &[Delayed],
    operator: BitOp,
    a: Name,
    b: Name,
) -> Result<Expr, AllocError>
    ensures { IfOk result (λ e. expr_view e ≡ plain.binary (bit_operator (bit_view operator)) (expr_for (at_hand_view (delays_view waits.now) (name_view a))) (expr_for (at_hand_view (delays_view waits.now) (name_view b)))) }
{
    let a = atom_expr(alloc, at_hand(waits, a))?;
    let b = atom_expr(alloc, at_hand(waits, b))?;
    binary(alloc, js_bit(operator), a, b)
}

#[cycle(building)]
#[inline(never)]
fn two(
    alloc: Global,
    waits: &[Delayed],
    a: &Term<'_>,
    minus: bool,
    b: &Term<'_>,
) -> Result<Expr, AllocError>
    ensures { IfOk result (λ e. expr_view e ≡ plain.chain (int_of (late_term waits.now a.now)) (plain.links minus (int_of (late_term waits.now b.now)) plain.no_links)) }
{
    let a = late_int(alloc, waits, a)?;
    let b = late_int(alloc, waits, b)?;
    sum_of_two(alloc, a, minus, b)
}

#[inline(never)]
fn sum_read(
    alloc: Global,
    waits: &[Delayed],
    a: Name,
    minus: bool,
    b: Name,
) -> Result<Expr, AllocError>
    ensures { IfOk result (λ e. expr_view e ≡ plain.chain (int_of (at_hand_view (delays_view waits.now) (name_view a))) (plain.links minus (int_of (at_hand_view (delays_view waits.now) (name_view b))) plain.no_links)) }
{
    let a = atom_expr(alloc, at_hand(waits, a))?;
    let b = atom_expr(alloc, at_hand(waits, b))?;
    sum_of_two(alloc, a, minus, b)
}

#[cycle(building)]
#[inline(never)]
fn three(
    alloc: Global,
    waits: &[Delayed],
    a: &Term<'_>,
    first: bool,
    b: &Term<'_>,
    second: bool,
    c: &Term<'_>,
) -> Result<Expr, AllocError>
    ensures { IfOk result (λ e. expr_view e ≡ plain.chain (int_of (late_term waits.now a.now)) (plain.links first (int_of (late_term waits.now b.now)) (plain.links second (int_of (late_term waits.now c.now)) plain.no_links))) }
{
    let a = late_int(alloc, waits, a)?;
    let b = late_int(alloc, waits, b)?;
    let c = late_int(alloc, waits, c)?;
    sum_of_three(alloc, a, (first, b), (second, c))
}

#[cycle(building)]
#[inline(never)]
fn four(
    alloc: Global,
    waits: &[Delayed],
    a: &Term<'_>,
    b: &Term<'_>,
    c: &Term<'_>,
    d: &Term<'_>,
) -> Result<Expr, AllocError>
    ensures { IfOk result (λ e. expr_view e ≡ plain.chain (int_of (late_term waits.now a.now)) (plain.links false (int_of (late_term waits.now b.now)) (plain.links false (int_of (late_term waits.now c.now)) (plain.links false (int_of (late_term waits.now d.now)) plain.no_links)))) }
{
    let a = late_int(alloc, waits, a)?;
    let b = late_int(alloc, waits, b)?;
    let c = late_int(alloc, waits, c)?;
    let d = late_int(alloc, waits, d)?;
    sum_of_four(alloc, a, b, c, d)
}

#[cycle(building)]
#[inline(never)]
fn product(alloc: Global, waits: &[Delayed], a: &Term<'_>, b: &Term<'_>) -> Result<Expr, AllocError>
    ensures { IfOk result (λ e. expr_view e ≡ plain.call (name_of plain_names.imul) (plain.exprs (int_of (late_term waits.now a.now)) (plain.exprs (int_of (late_term waits.now b.now)) plain.no_exprs))) }
{
    let a = late_int(alloc, waits, a)?;
    let b = late_int(alloc, waits, b)?;
    call_of_two(alloc, Name::Always(Fixed::Imul), a, b)
}

#[cycle(building)]
#[inline(never)]
fn compared(
    alloc: Global,
    waits: &[Delayed],
    is_signed: bool,
    relation: Relation,
    a: &Term<'_>,
    b: &Term<'_>,
) -> Result<Expr, AllocError>
    ensures { IfOk result (λ e. expr_view e ≡ plain.binary (relation_operator (relation_view relation)) (as_number is_signed (late_term waits.now a.now) (expr_for (late_term waits.now a.now))) (as_number is_signed (late_term waits.now b.now) (expr_for (late_term waits.now b.now)))) }
{
    let a = late_number(alloc, waits, a, is_signed)?;
    let b = late_number(alloc, waits, b, is_signed)?;
    binary(alloc, js_relation(relation), a, b)
}

#[inline(never)]
fn compared_number(
    alloc: Global,
    is_signed: bool,
    relation: Relation,
    a: Expr,
    value: i64,
) -> Result<Expr, AllocError>
    ensures { IfOk result (λ e. expr_view e ≡ plain.binary (relation_operator (relation_view relation)) (expr_view a) (as_number is_signed (words.number value) (plain.lit value))) }
{
    let value = number_literal(alloc, value, is_signed)?;
    binary(alloc, js_relation(relation), a, value)
}

#[inline(never)]
fn compared_read(
    alloc: Global,
    waits: &[Delayed],
    is_signed: bool,
    relation: Relation,
    a: Name,
    b: Name,
) -> Result<Expr, AllocError>
    ensures { IfOk result (λ e. expr_view e ≡ plain.binary (relation_operator (relation_view relation)) (as_number is_signed (at_hand_view (delays_view waits.now) (name_view a)) (expr_for (at_hand_view (delays_view waits.now) (name_view a)))) (as_number is_signed (at_hand_view (delays_view waits.now) (name_view b)) (expr_for (at_hand_view (delays_view waits.now) (name_view b))))) }
{
    let a = atom_number(alloc, at_hand(waits, a), is_signed)?;
    let b = atom_number(alloc, at_hand(waits, b), is_signed)?;
    binary(alloc, js_relation(relation), a, b)
}

#[cycle(building)]
#[inline(never)]
fn choice(
    alloc: Global,
    waits: &[Delayed],
    test: &Term<'_>,
    a: &Term<'_>,
    b: &Term<'_>,
) -> Result<Expr, AllocError>
    ensures { IfOk result (λ e. expr_view e ≡ plain.cond (test_of (late_term waits.now test.now)) (int_of (late_term waits.now a.now)) (int_of (late_term waits.now b.now))) }
{
    let test = late_test(alloc, waits, test)?;
    let a = late_int(alloc, waits, a)?;
    let b = late_int(alloc, waits, b)?;
    chosen(alloc, test, a, b)
}

/// The expression of a term, of type int.
#[cycle(building)]
#[inline(never)]
#[tactic(auto, using(crate::proofs::OwnForms::int_is))]
pub(crate) fn late_int(
    alloc: Global,
    waits: &[Delayed],
    term: &Term<'_>,
) -> Result<Expr, AllocError>
    ensures { IfOk result (λ e. expr_view e ≡ int_of (late_term waits.now term.now)) }
{
    let e = late_expr(alloc, waits, term)?;
    int_form(alloc, own_form(waits, term), e)
}

fn js_bit(operator: BitOp) -> JsOp
    ensures { result ≡ bit_operator (bit_view operator) }
{
    match operator {
        BitOp::And => JsOp::And,
        BitOp::Or => JsOp::Or,
        BitOp::Xor => JsOp::Xor,
        BitOp::Shl => JsOp::Shl,
        BitOp::Sar => JsOp::Sar,
        BitOp::Shr => JsOp::Shr,
    }
}

fn js_relation(relation: Relation) -> JsOp
    ensures { result ≡ relation_operator (relation_view relation) }
{
    match relation {
        Relation::Equal => JsOp::Eq,
        Relation::Unequal => JsOp::Ne,
        Relation::Less => JsOp::Lt,
        Relation::AtMost => JsOp::Le,
        Relation::Greater => JsOp::Gt,
        Relation::AtLeast => JsOp::Ge,
    }
}

/// The number of a term, with its sign or without.
#[cycle(building)]
#[inline(never)]
#[tactic(auto, using(crate::proofs::OwnForms::number_is))]
pub(crate) fn late_number(
    alloc: Global,
    waits: &[Delayed],
    term: &Term<'_>,
    is_signed: bool,
) -> Result<Expr, AllocError>
    ensures { IfOk result (λ e. expr_view e ≡ as_number is_signed (late_term waits.now term.now) (expr_for (late_term waits.now term.now))) }
{
    let e = late_expr(alloc, waits, term)?;
    number_form(alloc, own_form(waits, term), e, is_signed)
}

/// A variable or a literal, which is of type int.
pub(crate) fn atom_expr(alloc: Global, atom: Atom) -> Result<Expr, AllocError>
    ensures bare { IfOk result (λ e. expr_view e ≡ expr_for (atom_view atom)) }
    ensures int { IfOk result (λ e. expr_view e ≡ int_of (atom_view atom)) }
{
    match atom {
        Atom::Read(name) => variable(alloc, name),
        Atom::Number(value) => Ok(literal(value)),
    }
}

// The number of a variable or a literal, with its sign or without.
#[tactic(auto, using(crate::proofs::OwnForms::number_is))]
fn atom_number(alloc: Global, atom: Atom, is_signed: bool) -> Result<Expr, AllocError>
    ensures { IfOk result (λ e. expr_view e ≡ as_number is_signed (atom_view atom) (expr_for (atom_view atom))) }
{
    let e = atom_expr(alloc, atom)?;
    number_form(alloc, atom_form(atom), e, is_signed)
}

// A literal as an operand of a comparison.
#[tactic(auto, using(crate::proofs::OwnForms::number_is))]
fn number_literal(alloc: Global, value: i64, is_signed: bool) -> Result<Expr, AllocError>
    ensures { IfOk result (λ e. expr_view e ≡ as_number is_signed (words.number value) (plain.lit value)) }
{
    number_form(alloc, Form::Literal(value), literal(value), is_signed)
}

/// The expression of a term as a condition.
#[cycle(building)]
#[inline(never)]
#[tactic(auto, using(crate::proofs::OwnForms::test_is))]
pub(crate) fn late_test(
    alloc: Global,
    waits: &[Delayed],
    term: &Term<'_>,
) -> Result<Expr, AllocError>
    ensures { IfOk result (λ e. expr_view e ≡ test_of (late_term waits.now term.now)) }
{
    let e = late_expr(alloc, waits, term)?;
    test_form(alloc, own_form(waits, term), e)
}

// A byte at the place of an expression.
fn byte(alloc: Global, is_signed: bool, at: Expr) -> Result<Expr, AllocError>
    ensures { IfOk result (λ e. expr_view e ≡ plain.index (name_of (byte_view is_signed)) (indexed 0 (expr_view at))) }
{
    let at = shifted(alloc, at, 0)?;
    let view = if is_signed {
        Fixed::ViewOfSignedBytes
    } else {
        Fixed::ViewOfBytes
    };
    element(alloc, Name::Always(view), at)
}

fn whole(alloc: Global, at: Expr) -> Result<Expr, AllocError>
    ensures { IfOk result (λ e. expr_view e ≡ plain.index (name_of plain_names.view_of_words) (indexed 2 (expr_view at))) }
{
    let at = shifted(alloc, at, 2)?;
    element(alloc, Name::Always(Fixed::ViewOfWords), at)
}

fn sum_of_two(alloc: Global, a: Expr, minus: bool, b: Expr) -> Result<Expr, AllocError>
    ensures { IfOk result (λ e. expr_view e ≡ plain.chain (expr_view a) (plain.links minus (expr_view b) plain.no_links)) }
{
    let links = with_link(List::with_capacity(alloc, 1)?, minus, b)?;
    chain(alloc, a, links)
}

fn sum_of_three(
    alloc: Global,
    a: Expr,
    b: (bool, Expr),
    c: (bool, Expr),
) -> Result<Expr, AllocError>
    ensures { IfOk result (λ e. expr_view e ≡ plain.chain (expr_view a) (plain.links b.0 (expr_view b.1) (plain.links c.0 (expr_view c.1) plain.no_links))) }
{
    let links = with_link(List::with_capacity(alloc, 2)?, b.0, b.1)?;
    let links = with_link(links, c.0, c.1)?;
    chain(alloc, a, links)
}

fn sum_of_four(alloc: Global, a: Expr, b: Expr, c: Expr, d: Expr) -> Result<Expr, AllocError>
    ensures { IfOk result (λ e. expr_view e ≡ plain.chain (expr_view a) (plain.links false (expr_view b) (plain.links false (expr_view c) (plain.links false (expr_view d) plain.no_links)))) }
{
    let links = with_link(List::with_capacity(alloc, 3)?, false, b)?;
    let links = with_link(links, false, c)?;
    let links = with_link(links, false, d)?;
    chain(alloc, a, links)
}

// One more operand of a sum.
#[inline(never)]
#[tactic(auto, using(asm_tree::proofs::Views::views))]
fn with_link(links: List<Link>, minus: bool, operand: Expr) -> Result<List<Link>, AllocError>
    ensures { IfOk result (λ r. links_view (list_items r) ≡ plain.more_links (links_view (list_items links)) minus (expr_view operand)) }
{
    let mut links = links;
    match links.push(Link { minus, operand }) {
        Ok(()) => Ok(links),
        Err(_) => Err(AllocError),
    }
}

/// The arguments of a call, each of type int.
#[tactic(auto, using(crate::proofs::Lists::arguments_are))]
pub(crate) fn argument_list(
    alloc: Global,
    waits: &[Delayed],
    terms: &[Term<'_>],
) -> Result<List<Expr>, AllocError>
    ensures { IfOk result (λ r. exprs_view (list_items r) ≡ arguments (late_terms waits.now terms.now)) }
{
    let mut exprs = List::with_capacity(alloc, terms.len())?;
    for term in terms {
        let e = late_int(alloc, waits, term)?;
        exprs = with_expr(exprs, e)?;
    }
    Ok(exprs)
}
