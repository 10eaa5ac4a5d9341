// Validation of a body, in one pass.

ghost use Rattle.std.specs.Prelude.{◌≡◌, ◌<◌, ◌^◌, map, IfOk, MatchResult};
ghost use Rattle.wasm_lang.specs.Instructions.{IsExpression};
ghost use Rattle.wasm_tree.specs.Views.{instr_of};
ghost use Rattle.wasm_lang_valid.specs.Measures.{peak};
ghost use Rattle.wasm_lang_valid.specs.State.{at_start};
ghost use Rattle.wasm_lang_valid.specs.Typing.{IsValid};
ghost use Rattle.wasm_validate_bodies.specs.Bodies.{IsRefusal, refusal_of};
ghost use Rattle.wasm_validate_bodies.specs.Scopes.{outside};

use crate::blocks::Blocks;
use crate::counts::larger;
use crate::fault::{BodyFault, Fault};
use crate::instructions::check;
use crate::scope::Scope;
use std::alloc::Global;
use wasm_lang_valid::body_laws;
use wasm_tree::Instr;

/// Says whether a body is valid. If it isn't, the refusal has the first instruction such that no valid body
/// begins with the instructions up to it, and of the rules that it breaks the one of the least number.
///
/// Where it is valid, the answer is the greatest number of operands that stand before an instruction, in all open blocks.
pub fn check_body(alloc: Global, scope: &Scope<'_>, code: &[Instr]) -> Result<usize, BodyFault>
    requires { IsExpression (map instr_of code.now) }
    ensures peak { IfOk result (λ n. n ≡ peak (outside scope.now) (at_start scope.now.result) (map instr_of code.now)) }
    ensures fits { IfOk result (λ n. n < 2 ^ 63) }
    ensures exactly { MatchResult result (λ _. IsValid (outside scope.now) (map instr_of code.now)) (λ e. IsRefusal (outside scope.now) (map instr_of code.now) e) }
{
    body_laws();
    let mut blocks = match Blocks::new(alloc, scope.result) {
        Ok(blocks) => blocks,
        Err(_) => return Err(BodyFault::Memory),
    };
    let mut most = 0;
    for (i, instr) in code.iter().enumerate() {
        most = larger(most, blocks.standing());
        match check(&mut blocks, scope, instr) {
            Ok(()) => {}
            Err(fault) => return Err(refusal(fault, i)),
        }
    }
    Ok(most)
}

// The refusal at this place.
fn refusal(fault: Fault, instruction: usize) -> BodyFault
    ensures { result ≡ refusal_of fault instruction }
{
    match fault {
        Fault::Broken(rule) => BodyFault::Broken { rule, instruction },
        Fault::Memory => BodyFault::Memory,
    }
}
