//! Quotients and remainders of words of 32 bits, which trap.
ghost use Rattle.std.specs.Prelude.{◌≡◌, ◌++◌, ◌∷◌, [], List, map, Some, IfOk};
ghost use Rattle.sem_words.specs.Lists.{list_items};
ghost use Rattle.asm_lang.specs.Modules as plain;
ghost use Rattle.asm_tree.specs.Views.{expr_view, stmt_view, function_view};
ghost use Rattle.wasm2js_translation.specs.Names as names;
ghost use Rattle.wasm2js_translation.specs.Words as words;
ghost use Rattle.wasm2js_translation.specs.Helpers as helpers;
ghost use Rattle.wasm2js_helpers.specs.Pieces.{divide_signed_function, divide_function, remainder_signed_function, remainder_function};
ghost use Rattle.wasm2js_nodes.specs.Names.{fixed_view};
ghost use Rattle.wasm2js_build.specs.Blocks.{statements_of};
ghost use Rattle.wasm2js_helpers.specs.Choices.{choice, chosen, quotient_choices, remainder_choices, division_choices};

use crate::short::{add, first, of_two, second};
use asm_tree::{Expr, Function, Stmt};
use sem_words::{JsOp, List};
use std::alloc::{AllocError, Global};
use wasm2js_build::{Block, expr};
use wasm2js_needs::Needs;
use wasm2js_nodes::{Fixed, binary, natural, returns, signed};
use wasm2js_terms::{BitOp, Relation, Term};

/// Adds the helpers that are asked for.
#[tactic(auto, using(crate::proofs::Chosen::one_more))]
pub fn division_helpers(
    alloc: Global,
    needs: &Needs,
    functions: &mut List<Function>,
) -> Result<(), AllocError>
    ensures { IfOk result (λ _. map function_view (list_items functions.new) ≡ map function_view (list_items functions.old) ++ chosen (division_choices needs.now)) }
{
    add_quotients(alloc, needs, functions)?;
    add_remainders(alloc, needs, functions)
}

#[tactic(auto, using(crate::proofs::Chosen::one_more))]
fn add_quotients(
    alloc: Global,
    needs: &Needs,
    functions: &mut List<Function>,
) -> Result<(), AllocError>
    ensures { IfOk result (λ _. map function_view (list_items functions.new) ≡ map function_view (list_items functions.old) ++ chosen (quotient_choices needs.now)) }
{
    add_signed_quotient(alloc, needs.signed_quotient, functions)?;
    add_quotient(alloc, needs.quotient, functions)
}

#[tactic(auto, using(crate::proofs::Chosen::one_more))]
fn add_remainders(
    alloc: Global,
    needs: &Needs,
    functions: &mut List<Function>,
) -> Result<(), AllocError>
    ensures { IfOk result (λ _. map function_view (list_items functions.new) ≡ map function_view (list_items functions.old) ++ chosen (remainder_choices needs.now)) }
{
    add_signed_remainder(alloc, needs.signed_remainder, functions)?;
    add_remainder(alloc, needs.remainder, functions)
}

fn add_signed_quotient(
    alloc: Global,
    asked: bool,
    functions: &mut List<Function>,
) -> Result<(), AllocError>
    ensures { IfOk result (λ _. map function_view (list_items functions.new) ≡ map function_view (list_items functions.old) ++ chosen (choice asked divide_signed_function ∷ [])) }
{
    if asked {
        add(functions, divide_signed(alloc)?)
    } else {
        Ok(())
    }
}

fn add_quotient(
    alloc: Global,
    asked: bool,
    functions: &mut List<Function>,
) -> Result<(), AllocError>
    ensures { IfOk result (λ _. map function_view (list_items functions.new) ≡ map function_view (list_items functions.old) ++ chosen (choice asked divide_function ∷ [])) }
{
    if asked {
        add(functions, divide(alloc)?)
    } else {
        Ok(())
    }
}

fn add_signed_remainder(
    alloc: Global,
    asked: bool,
    functions: &mut List<Function>,
) -> Result<(), AllocError>
    ensures { IfOk result (λ _. map function_view (list_items functions.new) ≡ map function_view (list_items functions.old) ++ chosen (choice asked remainder_signed_function ∷ [])) }
{
    if asked {
        add(functions, remainder_signed(alloc)?)
    } else {
        Ok(())
    }
}

fn add_remainder(
    alloc: Global,
    asked: bool,
    functions: &mut List<Function>,
) -> Result<(), AllocError>
    ensures { IfOk result (λ _. map function_view (list_items functions.new) ≡ map function_view (list_items functions.old) ++ chosen (choice asked remainder_function ∷ [])) }
{
    if asked {
        add(functions, remainder(alloc)?)
    } else {
        Ok(())
    }
}

fn divide_signed(alloc: Global) -> Result<Function, AllocError>
    ensures { IfOk result (λ f. function_view f ≡ divide_signed_function) }
{
    let mut block = Block::new(alloc);
    test_divisor(&mut block)?;
    test_overflow(&mut block)?;
    block.push(signed_result(alloc, JsOp::Div)?)?;
    of_two(alloc, Fixed::DivideSigned, block)
}

fn divide(alloc: Global) -> Result<Function, AllocError>
    ensures { IfOk result (λ f. function_view f ≡ divide_function) }
{
    plain_function(alloc, Fixed::Divide, JsOp::Div)
}

// The least number by -1 has the remainder 0.
fn remainder_signed(alloc: Global) -> Result<Function, AllocError>
    ensures { IfOk result (λ f. function_view f ≡ remainder_signed_function) }
{
    let mut block = Block::new(alloc);
    test_divisor(&mut block)?;
    block.push(signed_result(alloc, JsOp::Rem)?)?;
    of_two(alloc, Fixed::RemainderSigned, block)
}

fn remainder(alloc: Global) -> Result<Function, AllocError>
    ensures { IfOk result (λ f. function_view f ≡ remainder_function) }
{
    plain_function(alloc, Fixed::Remainder, JsOp::Rem)
}

fn plain_function(alloc: Global, name: Fixed, operator: JsOp) -> Result<Function, AllocError>
    ensures { IfOk result (λ f. function_view f ≡ helpers.function_of (names.fixed (fixed_view name)) helpers.two_arguments [] (helpers.divisor_test ∷ helpers.plain_result operator ∷ [])) }
{
    let mut block = Block::new(alloc);
    test_divisor(&mut block)?;
    block.push(plain_result(alloc, operator)?)?;
    of_two(alloc, name, block)
}

// Trap 3 for a divisor 0.
fn test_divisor(block: &mut Block) -> Result<(), AllocError>
    ensures { IfOk result (λ _. statements_of block.new ≡ statements_of block.old ++ helpers.divisor_test ∷ []) }
{
    let divisor = second();
    let test = Term::compare_number(true, Relation::Equal, &divisor, 0);
    block.trap_when(&test, 3)
}

// Trap 4 for the least number by -1.
fn test_overflow(block: &mut Block) -> Result<(), AllocError>
    ensures { IfOk result (λ _. statements_of block.new ≡ statements_of block.old ++ helpers.overflow_test ∷ []) }
{
    let (dividend, divisor) = (first(), second());
    let is_least = Term::compare_number(true, Relation::Equal, &dividend, -2_147_483_648);
    let is_minus_one = Term::compare_number(true, Relation::Equal, &divisor, -1);
    let test = Term::both(BitOp::And, &is_least, &is_minus_one);
    block.trap_when(&test, 4)
}

fn signed_result(alloc: Global, operator: JsOp) -> Result<Stmt, AllocError>
    ensures { IfOk result (λ s. stmt_view s ≡ helpers.signed_result operator) }
{
    let dividend = signed(alloc, expr(alloc, &first())?)?;
    let divisor = signed(alloc, expr(alloc, &second())?)?;
    result_of(alloc, operator, dividend, divisor)
}

fn plain_result(alloc: Global, operator: JsOp) -> Result<Stmt, AllocError>
    ensures { IfOk result (λ s. stmt_view s ≡ helpers.plain_result operator) }
{
    let dividend = unsigned(alloc, expr(alloc, &first())?)?;
    let divisor = unsigned(alloc, expr(alloc, &second())?)?;
    result_of(alloc, operator, dividend, divisor)
}

// `return (left operator right)|0;`
fn result_of(alloc: Global, operator: JsOp, left: Expr, right: Expr) -> Result<Stmt, AllocError>
    ensures { IfOk result (λ s. stmt_view s ≡ plain.returns (Some (words.signed_number (plain.binary operator (expr_view left) (expr_view right))))) }
{
    let value = signed(alloc, binary(alloc, operator, left, right)?)?;
    Ok(returns(value))
}

// `e>>>0`
fn unsigned(alloc: Global, e: Expr) -> Result<Expr, AllocError>
    ensures { IfOk result (λ r. expr_view r ≡ words.plain_number (expr_view e)) }
{
    binary(alloc, JsOp::Shr, e, natural(0))
}
