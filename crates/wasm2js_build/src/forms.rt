//! What the expression of a term is by itself, as asm.js types it, and what is written where a number, an int or a condition is asked for.
ghost use Rattle.std.specs.Prelude.{◌≡◌, IfOk};
ghost use Rattle.asm_types.specs.declared.value_type.ValueType.TheVariants.{Signed, Unsigned};
ghost use Rattle.asm_lang_valid.specs.Typing.{typed_below, literal_type};
ghost use Rattle.asm_tree.specs.Views.{expr_view};
ghost use Rattle.wasm2js_translation.specs.Words as words;
ghost use Rattle.wasm2js_translation.specs.Words.{as_signed, as_unsigned};
ghost use Rattle.wasm2js_terms.specs.Views.{bit_view};
ghost use Rattle.wasm2js_terms.specs.Atoms.{atom_view};
ghost use Rattle.wasm2js_terms.specs.Waits.{late_term};
ghost use Rattle.wasm2js_terms.specs.Held.{of_two_view, word_view};
ghost use Rattle.wasm2js_build.specs.OwnForms.{bits_form, form_of, signed_by, unsigned_by, number_by, int_by, test_by};

use asm_tree::Expr;
use std::alloc::{AllocError, Global};
use wasm2js_nodes::{signed, unsigned};
use wasm2js_terms::{Atom, BitOp, Delayed, OfTwo, Term, Word, at_hand};

/// The type of an expression, as far as it decides where the expression is converted.
#[derive(Clone, Copy)]
pub enum Form {
    /// Of a variable, and of a choice.
    Int,
    /// Of a comparison.
    Truth,
    Signed,
    Unsigned,
    /// Signed and unsigned.
    Fixnum,
    /// Of a sum, and of what the heap holds.
    Intish,
    /// Of a literal, by its value.
    Literal(i64),
}

fn bits(operator: BitOp) -> Form
    ensures { result ≡ bits_form (bit_view operator) }
{
    match operator {
        BitOp::Shr => Form::Unsigned,
        BitOp::And | BitOp::Or | BitOp::Xor | BitOp::Shl | BitOp::Sar => Form::Signed,
    }
}

/// What the expression of a variable or a literal is.
pub(crate) fn atom_form(atom: Atom) -> Form
    ensures { result ≡ form_of (atom_view atom) }
{
    match atom {
        Atom::Read(_) => Form::Int,
        Atom::Number(value) => Form::Literal(value),
    }
}

fn of_two_form(word: OfTwo) -> Form
    ensures { result ≡ form_of (of_two_view word) }
{
    match word {
        OfTwo::Bits(operator, _, _) => bits(operator),
        OfTwo::Sum(_, _, _) => Form::Intish,
        OfTwo::Product(_, _) => Form::Signed,
        OfTwo::Compare(_, _, _, _) => Form::Truth,
    }
}

/// What the expression of a word is that stands for a variable.
pub(crate) fn word_form(word: Word) -> Form
    ensures { result ≡ form_of (word_view word) }
{
    match word {
        Word::Atom(atom) => atom_form(atom),
        Word::OfTwo(word) => of_two_form(word),
    }
}

/// What the expression of a term is, where these words wait.
#[tactic(auto, using(wasm2js_terms::proofs::Views::terms))]
pub(crate) fn own_form(waits: &[Delayed], term: &Term<'_>) -> Form
    ensures { result ≡ form_of (late_term waits.now term.now) }
{
    match term {
        Term::Read(name) => atom_form(at_hand(waits, *name)),
        Term::Number(value) => Form::Literal(*value),
        Term::Both(operator, _, _)
        | Term::BothNumber(operator, _, _)
        | Term::BothRead(operator, _, _) => bits(*operator),
        Term::Flip(_) | Term::Product(_, _) => Form::Signed,
        Term::Zeros(_) => Form::Fixnum,
        Term::Choose(_, _, _) => Form::Int,
        Term::SumOfTwo(_, _, _)
        | Term::SumOfThree(_, _, _, _, _)
        | Term::SumNumber(_, _, _)
        | Term::SumRead(_, _, _)
        | Term::SumOfFour(_, _, _, _)
        | Term::Byte(_, _)
        | Term::Whole(_) => Form::Intish,
        Term::Compare(_, _, _, _)
        | Term::CompareNumber(_, _, _, _)
        | Term::CompareRead(_, _, _, _) => Form::Truth,
    }
}

#[tactic(auto, using(crate::proofs::Literals::is_signed))]
fn is_signed_literal(value: i64) -> bool
    ensures { result ≡ typed_below Signed (literal_type value) }
{
    -2147483648 <= value && value < 2147483648
}

#[tactic(auto, using(crate::proofs::Literals::is_unsigned))]
fn is_unsigned_literal(value: i64) -> bool
    ensures { result ≡ typed_below Unsigned (literal_type value) }
{
    0 <= value && value < 4294967296
}

fn signed_literal(alloc: Global, value: i64, e: Expr) -> Result<Expr, AllocError>
    ensures { IfOk result (λ r. expr_view r ≡ as_signed (words.number value) (expr_view e)) }
{
    if is_signed_literal(value) {
        Ok(e)
    } else {
        signed(alloc, e)
    }
}

fn unsigned_literal(alloc: Global, value: i64, e: Expr) -> Result<Expr, AllocError>
    ensures { IfOk result (λ r. expr_view r ≡ as_unsigned (words.number value) (expr_view e)) }
{
    if is_unsigned_literal(value) {
        Ok(e)
    } else {
        unsigned(alloc, e)
    }
}

fn signed_form(alloc: Global, form: Form, e: Expr) -> Result<Expr, AllocError>
    ensures { IfOk result (λ r. expr_view r ≡ signed_by form (expr_view e)) }
{
    match form {
        Form::Signed | Form::Fixnum => Ok(e),
        Form::Literal(value) => signed_literal(alloc, value, e),
        Form::Int | Form::Truth | Form::Unsigned | Form::Intish => signed(alloc, e),
    }
}

fn unsigned_form(alloc: Global, form: Form, e: Expr) -> Result<Expr, AllocError>
    ensures { IfOk result (λ r. expr_view r ≡ unsigned_by form (expr_view e)) }
{
    match form {
        Form::Unsigned | Form::Fixnum => Ok(e),
        Form::Literal(value) => unsigned_literal(alloc, value, e),
        Form::Int | Form::Truth | Form::Signed | Form::Intish => unsigned(alloc, e),
    }
}

/// As a number, with its sign or without.
pub(crate) fn number_form(
    alloc: Global,
    form: Form,
    e: Expr,
    is_signed: bool,
) -> Result<Expr, AllocError>
    ensures { IfOk result (λ r. expr_view r ≡ number_by is_signed form (expr_view e)) }
{
    if is_signed {
        signed_form(alloc, form, e)
    } else {
        unsigned_form(alloc, form, e)
    }
}

/// As an int.
pub(crate) fn int_form(alloc: Global, form: Form, e: Expr) -> Result<Expr, AllocError>
    ensures { IfOk result (λ r. expr_view r ≡ int_by form (expr_view e)) }
{
    match form {
        Form::Intish => signed(alloc, e),
        Form::Int | Form::Truth | Form::Signed | Form::Unsigned | Form::Fixnum | Form::Literal(_) =>
            Ok(e),
    }
}

/// As a condition.
pub(crate) fn test_form(alloc: Global, form: Form, e: Expr) -> Result<Expr, AllocError>
    ensures { IfOk result (λ r. expr_view r ≡ test_by form (expr_view e)) }
{
    match form {
        Form::Truth | Form::Signed | Form::Unsigned | Form::Fixnum => Ok(e),
        Form::Int | Form::Intish | Form::Literal(_) => signed(alloc, e),
    }
}
