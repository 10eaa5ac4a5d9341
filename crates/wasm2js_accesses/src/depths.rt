//! The variables of operands.
ghost use Rattle.std.specs.Prelude.{◌≡◌};
ghost use Rattle.wasm2js_translation.specs.Pairs as pairs;
ghost use Rattle.wasm2js_translation.specs.Actions as code;
ghost use Rattle.wasm2js_nodes.specs.Names.{name_view};

use split_words::operand_pair;
use wasm2js_nodes::Name;

/// The variable of the word, or of the low word, of an operand.
pub fn low(d: u64) -> Name
    ensures { name_view result ≡ code.low d }
{
    operand_pair(d).low
}

/// That of its high word.
pub fn high(d: u64) -> Name
    ensures { name_view result ≡ (pairs.operand_pair d).high }
{
    operand_pair(d).high
}
