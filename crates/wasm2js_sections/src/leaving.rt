//! The function that gives the high word of the last result of 64 bits.
ghost use Rattle.std.specs.Prelude.{◌≡◌, [], Some, IfOk};
ghost use Rattle.asm_lang.specs.Modules.{returns};
ghost use Rattle.asm_tree.specs.Views.{stmt_view, function_view};
ghost use Rattle.wasm2js_translation.specs.Words.{signed_number};
ghost use Rattle.wasm2js_translation.specs.Bodies.{word_in, high_result};
ghost use Rattle.wasm2js_translation.specs.Modules as modules;

use asm_tree::{Function, Stmt};
use std::alloc::{AllocError, Global};
use wasm2js_build::{Block, function};
use wasm2js_nodes::{Fixed, Name, returns, signed, variable};

/// `$hi`, which is the same in each module.
pub fn high_function(alloc: Global) -> Result<Function, AllocError>
    ensures { IfOk result (λ f. function_view f ≡ modules.high_function) }
{
    let mut body = Block::new(alloc);
    body.push(gives_high(alloc)?)?;
    function(alloc, Name::Always(Fixed::LastHigh), &[], &[], body)
}

fn gives_high(alloc: Global) -> Result<Stmt, AllocError>
    ensures { IfOk result (λ s. stmt_view s ≡ returns (Some (signed_number (word_in high_result)))) }
{
    let word = variable(alloc, Name::Always(Fixed::ResultHigh))?;
    Ok(returns(signed(alloc, word)?))
}
