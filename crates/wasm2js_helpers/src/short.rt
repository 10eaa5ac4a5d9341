//! What helpers take and name, and the statements that several of them have.
ghost use Rattle.std.specs.Prelude.{◌≡◌, ◌++◌, ◌∷◌, [], List, map, IfOk};
ghost use Rattle.sem_words.specs.Lists.{list_items};
ghost use Rattle.asm_tree.specs.Views.{function_view};
ghost use Rattle.wasm2js_translation.specs.Names.{fixed};
ghost use Rattle.wasm2js_translation.specs.Words as words;
ghost use Rattle.wasm2js_translation.specs.Helpers as helpers;
ghost use Rattle.wasm2js_nodes.specs.Names.{name_view, fixed_view};
ghost use Rattle.wasm2js_terms.specs.Views.{bit_view, term_view};
ghost use Rattle.wasm2js_build.specs.Blocks.{statements_of};

use asm_tree::Function;
use sem_words::List;
use std::alloc::{AllocError, Global};
use wasm2js_build::{Block, function};
use wasm2js_nodes::{Fixed, Name, Numbered};
use wasm2js_terms::{BitOp, Term};

/// An argument, by its number.
pub fn argument(number: u64) -> Name
    ensures { name_view result ≡ helpers.argument number }
{
    Name::Counted(Numbered::LocalLow, number)
}

/// A variable of the helper's own, by its number.
pub fn own(number: u64) -> Name
    ensures { name_view result ≡ helpers.own number }
{
    Name::Counted(Numbered::OperandLow, number)
}

/// Where a high word is left.
pub fn spare() -> Name
    ensures { name_view result ≡ helpers.spare }
{
    Name::Always(Fixed::SpareHigh)
}

pub fn first() -> Term<'static>
    ensures { term_view result ≡ helpers.first }
{
    Term::read(argument(0))
}

pub fn second() -> Term<'static>
    ensures { term_view result ≡ helpers.second }
{
    Term::read(argument(1))
}

pub fn third() -> Term<'static>
    ensures { term_view result ≡ helpers.third }
{
    Term::read(argument(2))
}

/// `to=a operator b;`, of two variables.
pub fn put_both(
    block: &mut Block,
    to: Name,
    operator: BitOp,
    a: Name,
    b: Name,
) -> Result<(), AllocError>
    ensures { IfOk result (λ _. statements_of block.new ≡ statements_of block.old ++ helpers.sets (name_view to) (words.both (bit_view operator) (words.read (name_view a)) (words.read (name_view b))) ∷ []) }
{
    block.put(to, &Term::both_read(operator, a, b))
}

/// `to=a operator value;`, of a variable and a literal.
pub fn put_both_number(
    block: &mut Block,
    to: Name,
    operator: BitOp,
    a: Name,
    value: i64,
) -> Result<(), AllocError>
    ensures { IfOk result (λ _. statements_of block.new ≡ statements_of block.old ++ helpers.sets (name_view to) (words.both (bit_view operator) (words.read (name_view a)) (words.number value)) ∷ []) }
{
    let a = Term::read(a);
    block.put(to, &Term::both_number(operator, &a, value))
}

/// `return (a operator b)|0;`, of two variables.
pub fn gives_both(block: &mut Block, operator: BitOp, a: Name, b: Name) -> Result<(), AllocError>
    ensures { IfOk result (λ _. statements_of block.new ≡ statements_of block.old ++ helpers.gives (words.both (bit_view operator) (words.read (name_view a)) (words.read (name_view b))) ∷ []) }
{
    block.gives(&Term::both_read(operator, a, b))
}

/// A helper of one argument.
pub fn of_one(
    alloc: Global,
    name: Fixed,
    locals: &[Name],
    body: Block,
) -> Result<Function, AllocError>
    ensures { IfOk result (λ f. function_view f ≡ helpers.function_of (fixed (fixed_view name)) helpers.one_argument (map name_view locals.now) (statements_of body)) }
{
    function(alloc, Name::Always(name), &[argument(0)], locals, body)
}

/// A helper of two arguments.
pub fn of_two(alloc: Global, name: Fixed, body: Block) -> Result<Function, AllocError>
    ensures { IfOk result (λ f. function_view f ≡ helpers.function_of (fixed (fixed_view name)) helpers.two_arguments [] (statements_of body)) }
{
    let params = [argument(0), argument(1)];
    function(alloc, Name::Always(name), &params, &[], body)
}

/// A helper of three arguments.
pub fn of_three(
    alloc: Global,
    name: Fixed,
    locals: &[Name],
    body: Block,
) -> Result<Function, AllocError>
    ensures { IfOk result (λ f. function_view f ≡ helpers.function_of (fixed (fixed_view name)) helpers.three_arguments (map name_view locals.now) (statements_of body)) }
{
    let params = [argument(0), argument(1), argument(2)];
    function(alloc, Name::Always(name), &params, locals, body)
}

/// One more function at the end.
pub fn add(functions: &mut List<Function>, function: Function) -> Result<(), AllocError>
    ensures { IfOk result (λ _. map function_view (list_items functions.new) ≡ map function_view (list_items functions.old) ++ function_view function ∷ []) }
{
    match functions.push(function) {
        Ok(()) => Ok(()),
        Err(_) => Err(AllocError),
    }
}
