//! Where the words of values stand.
ghost use Rattle.std.specs.Prelude.{◌≡◌};
ghost use Rattle.wasm2js_translation.specs.Pairs as pairs;
ghost use Rattle.split_words.specs.Views.{pair_view};

use wasm2js_nodes::{Name, Numbered};

/// The variables of a value: that of its word, or of its low word, and that of its high word where it has 64 bits.
#[derive(Clone, Copy, PartialEq, Eq, Debug)]
pub struct Pair {
    pub low: Name,
    pub high: Name,
}

/// Of a local variable.
pub fn local_pair(x: u64) -> Pair
    ensures { pair_view result ≡ pairs.local_pair x }
{
    Pair {
        low: Name::Counted(Numbered::LocalLow, x),
        high: Name::Counted(Numbered::LocalHigh, x),
    }
}

/// Of the operand above so many others.
pub fn operand_pair(d: u64) -> Pair
    ensures { pair_view result ≡ pairs.operand_pair d }
{
    Pair {
        low: Name::Counted(Numbered::OperandLow, d),
        high: Name::Counted(Numbered::OperandHigh, d),
    }
}

pub fn global_pair(g: u64) -> Pair
    ensures { pair_view result ≡ pairs.global_pair g }
{
    Pair {
        low: Name::Counted(Numbered::GlobalLow, g),
        high: Name::Counted(Numbered::GlobalHigh, g),
    }
}
