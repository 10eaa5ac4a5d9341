//! Literals.
ghost use Rattle.std.specs.Prelude.{◌≡◌, [], ◌∷◌, IfOk};
ghost use Rattle.wasm2js_translation.specs.Words as words;
ghost use Rattle.wasm2js_translation.specs.Pairs.{simples};
ghost use Rattle.wasm2js_nodes.specs.Names.{name_view};
ghost use Rattle.wasm2js_build.specs.Growing.{run, state_of};

use std::alloc::AllocError;
use wasm2js_build::Straight;
use wasm2js_nodes::Name;
use wasm2js_terms::Term;

/// A literal.
pub fn put_number(straight: &mut Straight, to: Name, value: i64) -> Result<(), AllocError>
    ensures { IfOk result (λ _. state_of straight.new ≡ run (state_of straight.old) (simples (words.put (name_view to) (words.number value) ∷ []))) }
{
    straight.put(to, &Term::number(value))
}
