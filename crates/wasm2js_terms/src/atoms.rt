//! Words without operators, and those that wait in place of the variables of operands.
ghost use Rattle.std.specs.Prelude.{◌≡◌, true};
ghost use Rattle.wasm2js_translation.specs.Delays.{is_light};
ghost use Rattle.wasm2js_terms.specs.Atoms.{atom_view};

use wasm2js_nodes::Name;

/// A word without operators.
#[derive(Clone, Copy)]
pub enum Atom {
    /// Of a variable.
    Read(Name),
    /// A literal of asm.js.
    Number(i64),
}

/// A variable of an operand, and the word that it is to have: a number, or a variable of no operand.
#[derive(Clone, Copy)]
pub struct Delayed {
    pub name: Name,
    pub word: Atom,
    pub ghost light: { is_light (atom_view word) ≡ true },
}
