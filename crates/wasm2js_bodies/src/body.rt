//! The whole body of a function.
ghost use Rattle.std.specs.Prelude.{◌≡◌, ◌∷◌, [], ◌++◌, false, Some, IsSome, IfOk};
ghost use Rattle.wasm_lang_valid.specs.Measures.{has_mul_div};
ghost use Rattle.wasm_lang_exec.specs.Code.{Trees, tree_of};
ghost use Rattle.wasm_run_flat.specs.Places.{code_at};
ghost use Rattle.wasm2js_translation.specs.Bodies as bodies;
ghost use Rattle.wasm2js_build.specs.Blocks.{statements_of};
ghost use Rattle.wasm2js_operands.specs.Scopes.{context_in};
ghost use Rattle.wasm2js_bodies.specs.Walks.{IsInside};

use crate::closing::{close, enter};
use crate::singles::{Sizes, Walk};
use crate::walk::put_code;
use std::alloc::{AllocError, Global};
use wasm_run_flat::Body;
use wasm2js_build::{Block, LateBlock};
use wasm2js_jumps::Aim;
use wasm2js_operands::BodyScope;

// The statements of the code of a body, and whether its end is reached. A branch to its label leaves the function.
fn all_statements(walk: &Walk<'_>, body: &Body) -> Result<(Block, bool), AllocError>
    requires { IsInside body.now 0 }
    ensures statements { IfOk result (λ made. statements_of made.0 ≡ bodies.stmts_of walk.now.sizes.bytes walk.now.sizes.cells (context_in walk.now.scope.now) (code_at body.now 0) (bodies.out walk.now.scope.now.returns ∷ []) 0 [] [] []) }
    ensures reached { IfOk result (λ made. made.1 ≡ bodies.comes_to_end (code_at body.now 0)) }
{
    let mut types = Vec::new(walk.alloc);
    let mut aims = Vec::new(walk.alloc);
    let leaves = Aim::Out {
        result: walk.scope.returns,
    };
    enter(&mut aims, leaves)?;
    let mut text = LateBlock::new(walk.alloc);
    let reached = put_code(walk, body, &mut types, &mut aims, 0, 0, &mut text)?;
    Ok((text.block, reached))
}

/// The statements of the body of a function, which is an expression without products, quotients and remainders of words of 64 bits: its blocks are closed and it ends with its own end.
pub fn body_statements(
    alloc: Global,
    sizes: Sizes,
    scope: &BodyScope<'_>,
    body: &Body,
) -> Result<Block, AllocError>
    requires expression { IsSome (tree_of body.now) }
    requires translated { has_mul_div body.now ≡ false }
    ensures { (tree : Trees) → tree_of body.now ≡ Some tree → IfOk result (λ block. statements_of block ≡ bodies.body_stmts sizes.bytes sizes.cells (context_in scope.now) tree) }
{
    let walk = Walk {
        alloc,
        sizes,
        scope,
    };
    let (mut block, reached) = all_statements(&walk, body)?;
    close(alloc, scope.returns, reached, &mut block)?;
    Ok(block)
}
