//! Places in the memory.
ghost use Rattle.std.specs.Prelude.{◌≡◌, ◌<◌, ◌^◌, ◌==◌, if◌then◌else◌, IfOk};
ghost use Rattle.wasm2js_translation.specs.Words.{both, conjunction, either};
ghost use Rattle.wasm2js_translation.specs.Pairs as pairs;
ghost use Rattle.wasm2js_terms.specs.Views.{term_view};
ghost use Rattle.wasm2js_build.specs.Steps.{steps_view};
ghost use Rattle.wasm2js_build.specs.Growing.{one, state_of};

use std::alloc::AllocError;
use wasm2js_build::{Step, Straight};
use wasm2js_terms::{BitOp, Term};

/// The place so many bytes past the address.
pub fn place<'a>(address: &'a Term<'a>, offset: u64) -> Term<'a>
    requires { offset < 2 ^ 33 }
    ensures { term_view result ≡ (if offset == 0 then term_view address.now else pairs.plus (term_view address.now) (pairs.literal offset)) }
{
    if offset == 0 {
        *address
    } else {
        Term::plus_number(address, offset as i64)
    }
}

/// The second steps where this is a multiple of four, and else the first.
pub fn by_place<'a, 's>(
    straight: &mut Straight,
    test: &Term<'_>,
    apart: &'a [Step<'s>],
    together: &'a [Step<'s>],
) -> Result<(), AllocError>
    ensures { IfOk result (λ _. state_of straight.new ≡ one (state_of straight.old) (either (both conjunction (term_view test.now) (pairs.literal 3)) (steps_view apart.now) (steps_view together.now))) }
{
    straight.either(&Term::both_number(BitOp::And, test, 3), apart, together)
}
