//! Expressions of words that stand for variables.
ghost use Rattle.std.specs.Prelude.{◌≡◌, IfOk};
ghost use Rattle.asm_tree.specs.Views.{expr_view};
ghost use Rattle.wasm2js_translation.specs.Words.{int_of, test_of, signed_number, expr as expr_for};
ghost use Rattle.wasm2js_terms.specs.Held.{of_two_view, word_view};

use crate::building::{atom_expr, expr};
use crate::forms::{int_form, test_form, word_form};
use crate::light::{sum_of_two, term_of};
use asm_tree::Expr;
use std::alloc::{AllocError, Global};
use wasm2js_nodes::signed;
use wasm2js_terms::{OfTwo, Term, Word};

// The expression of a word of two others.
fn of_two_expr(alloc: Global, word: OfTwo) -> Result<Expr, AllocError>
    ensures { IfOk result (λ e. expr_view e ≡ expr_for (of_two_view word)) }
{
    match word {
        OfTwo::Bits(operator, a, b) => {
            let a = term_of(a);
            let b = term_of(b);
            expr(alloc, &Term::both(operator, &a, &b))
        }
        OfTwo::Sum(a, minus, b) => {
            let a = term_of(a);
            let b = term_of(b);
            expr(alloc, &sum_of_two(&a, minus, &b))
        }
        OfTwo::Product(a, b) => {
            let a = term_of(a);
            let b = term_of(b);
            expr(alloc, &Term::product(&a, &b))
        }
        OfTwo::Compare(is_signed, relation, a, b) => {
            let a = term_of(a);
            let b = term_of(b);
            expr(alloc, &Term::compare(is_signed, relation, &a, &b))
        }
    }
}

fn word_expr(alloc: Global, word: Word) -> Result<Expr, AllocError>
    ensures { IfOk result (λ e. expr_view e ≡ expr_for (word_view word)) }
{
    match word {
        Word::Atom(atom) => atom_expr(alloc, atom),
        Word::OfTwo(word) => of_two_expr(alloc, word),
    }
}

/// A word that stands for a variable, as a condition.
#[tactic(auto, using(crate::proofs::OwnForms::test_is))]
pub fn condition(alloc: Global, word: Word) -> Result<Expr, AllocError>
    ensures { IfOk result (λ e. expr_view e ≡ test_of (word_view word)) }
{
    let e = word_expr(alloc, word)?;
    test_form(alloc, word_form(word), e)
}

/// A word that stands for a variable, as what a call passes.
#[tactic(auto, using(crate::proofs::OwnForms::int_is))]
pub fn argument(alloc: Global, word: Word) -> Result<Expr, AllocError>
    ensures { IfOk result (λ e. expr_view e ≡ int_of (word_view word)) }
{
    let e = word_expr(alloc, word)?;
    int_form(alloc, word_form(word), e)
}

/// A word that stands for a variable, as what a function gives.
pub fn result_number(alloc: Global, word: Word) -> Result<Expr, AllocError>
    ensures { IfOk result (λ e. expr_view e ≡ signed_number (expr_for (word_view word))) }
{
    let e = word_expr(alloc, word)?;
    signed(alloc, e)
}
