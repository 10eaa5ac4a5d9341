//! Functions that call the imported ones.
ghost use Rattle.std.specs.Prelude.{◌≡◌, ◌++◌, ◌∷◌, [], map, Some, IfOk};
ghost use Rattle.sem_words.specs.Lists.{list_items};
ghost use Rattle.asm_lang.specs.Modules as plain;
ghost use Rattle.asm_tree.specs.Views.{expr_view, exprs_view, function_view};
ghost use Rattle.wasm_tree.specs.Views.{type_of};
ghost use Rattle.wasm_lang.specs.declared.types.ValType.TheVariants.{I64};
ghost use Rattle.wasm2js_translation.specs.Bodies as bodies;
ghost use Rattle.wasm2js_translation.specs.Modules as modules;
ghost use Rattle.wasm2js_translation.specs.Names.{numbered, foreign, high, spelled};
ghost use Rattle.wasm2js_translation.specs.Words as words;
ghost use Rattle.wasm2js_nodes.specs.Names.{name_view};
ghost use Rattle.wasm2js_build.specs.Blocks.{statements_of};
ghost use Rattle.wasm2js_functions.specs.Sending.{sent_word};

use asm_tree::{Expr, Function};
use sem_words::List;
use std::alloc::{AllocError, Global};
use wasm_lang::ValType;
use wasm_tree::FuncType;
use wasm2js_build::{Block, function};
use wasm2js_jumps::{result_type, signed_word};
use wasm2js_nodes::{Fixed, Name, Numbered, call, plainly, put_in, returns, signed, variable};
use wasm2js_rooms::param_names;

// What is sent of a variable, after others.
fn send(alloc: Global, name: Name, sent: &mut List<Expr>) -> Result<(), AllocError>
    ensures { IfOk result (λ _. map expr_view (list_items sent.new) ≡ map expr_view (list_items sent.old) ++ sent_word (name_view name) ∷ []) }
{
    let read = variable(alloc, name)?;
    let word = signed(alloc, read)?;
    match sent.push(word) {
        Ok(()) => Ok(()),
        Err(_) => Err(AllocError),
    }
}

// What is sent of variables.
fn sent_words(alloc: Global, names: &[Name]) -> Result<List<Expr>, AllocError>
    ensures { IfOk result (λ es. map expr_view (list_items es) ≡ map sent_word (map name_view names.now)) }
{
    let mut sent = List::new(alloc);
    for name in names {
        send(alloc, *name, &mut sent)?;
    }
    Ok(sent)
}

#[tactic(auto, using(crate::proofs::Sent::words_are_sent))]
fn sent(alloc: Global, names: &[Name]) -> Result<List<Expr>, AllocError>
    ensures { IfOk result (λ es. exprs_view (list_items es) ≡ modules.sent (map name_view names.now)) }
{
    sent_words(alloc, names)
}

// The call of an imported function.
fn foreign_call(alloc: Global, number: u64, params: &[Name]) -> Result<Expr, AllocError>
    ensures { IfOk result (λ e. expr_view e ≡ plain.call (spelled (numbered foreign number)) (modules.sent (map name_view params.now))) }
{
    let arguments = sent(alloc, params)?;
    call(alloc, Name::Counted(Numbered::Foreign, number), arguments)
}

// A signed number becomes the value of a variable.
fn keep(alloc: Global, name: Name, value: Expr, block: &mut Block) -> Result<(), AllocError>
    ensures { IfOk result (λ _. statements_of block.new ≡ statements_of block.old ++ words.put_in (name_view name) (words.signed_number (expr_view value)) ∷ []) }
{
    let value = signed(alloc, value)?;
    let statement = put_in(alloc, name, value)?;
    block.push(statement)
}

// The high word of the last result is asked for.
fn keep_high(alloc: Global, block: &mut Block) -> Result<(), AllocError>
    ensures { IfOk result (λ _. statements_of block.new ≡ statements_of block.old ++ words.put_in bodies.high_result (words.signed_number (plain.call (words.name_of high) plain.no_exprs)) ∷ []) }
{
    let none = List::new(alloc);
    let high = call(alloc, Name::Always(Fixed::High), none)?;
    keep(alloc, Name::Always(Fixed::ResultHigh), high, block)
}

fn give_word(alloc: Global, call: Expr, block: &mut Block) -> Result<(), AllocError>
    ensures { IfOk result (λ _. statements_of block.new ≡ statements_of block.old ++ plain.returns (Some (words.signed_number (expr_view call))) ∷ []) }
{
    let word = signed(alloc, call)?;
    block.push(returns(word))
}

fn give_wide(alloc: Global, call: Expr, block: &mut Block) -> Result<(), AllocError>
    ensures { IfOk result (λ _. statements_of block.new ≡ statements_of block.old ++ modules.wrapper_body (Some I64) (expr_view call)) }
{
    keep(alloc, Name::Counted(Numbered::OperandLow, 0), call, block)?;
    keep_high(alloc, block)?;
    let word = signed_word(alloc, 0)?;
    block.push(returns(word))
}

// What a wrapper does, whose call of the imported function this is.
fn wrapper_body(
    alloc: Global,
    gives: Option<ValType>,
    call: Expr,
    block: &mut Block,
) -> Result<(), AllocError>
    ensures { IfOk result (λ _. statements_of block.new ≡ statements_of block.old ++ modules.wrapper_body gives (expr_view call)) }
{
    match gives {
        None => block.push(plainly(call)),
        Some(ValType::I32) => give_word(alloc, call, block),
        Some(ValType::I64) => give_wide(alloc, call, block),
    }
}

fn wrapper_locals(alloc: Global, gives: Option<ValType>) -> Result<Vec<Name>, AllocError>
    ensures { IfOk result (λ ns. map name_view ns.items ≡ modules.wrapper_locals gives) }
{
    match gives {
        Some(ValType::I64) => Ok(vec![in alloc; Name::Counted(Numbered::OperandLow, 0)]?),
        Some(ValType::I32) | None => Ok(Vec::new(alloc)),
    }
}

/// The function that calls the imported function of this number.
pub fn wrapper(alloc: Global, number: u64, function_type: &FuncType) -> Result<Function, AllocError>
    ensures { IfOk result (λ f. function_view f ≡ modules.wrapper number (type_of function_type.now)) }
{
    let gives = result_type(function_type);
    let params = param_names(alloc, function_type.params.as_slice())?;
    let locals = wrapper_locals(alloc, gives)?;
    let call = foreign_call(alloc, number, params.as_slice())?;
    let mut body = Block::new(alloc);
    wrapper_body(alloc, gives, call, &mut body)?;
    function(
        alloc,
        Name::Counted(Numbered::Function, number),
        params.as_slice(),
        locals.as_slice(),
        body,
    )
}
