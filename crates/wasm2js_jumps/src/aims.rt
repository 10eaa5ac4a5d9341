//! What branches do.
ghost use Rattle.std.specs.Prelude.{◌≡◌, ◌∷◌, [], suc, drop, option_map, slice_get};
ghost use Rattle.wasm2js_translation.specs.Names.{numbered, label as label_kind};
ghost use Rattle.wasm2js_translation.specs.Bodies.{labels_round};
ghost use Rattle.wasm2js_nodes.specs.Names.{name_view};
ghost use Rattle.wasm2js_jumps.specs.Aims.{aim_view, aims_view, gives_a_word};

use wasm_lang::ValType;
use wasm2js_nodes::{Name, Numbered};

/// What a branch to a label does. A base is how many operands lie below those of the label's block.
#[derive(Clone, Copy)]
pub enum Aim {
    /// It leaves a block or an `if`, with its result.
    Past { base: u64, result: Option<ValType> },
    /// It goes on with a loop.
    Again { base: u64 },
    /// It leaves the function.
    Out { result: Option<ValType> },
}

/// What a branch to this label does. The innermost aim is the last.
pub fn aim_at(aims: &[Aim], label: u32) -> Option<Aim>
    ensures { option_map aim_view result ≡ slice_get (aims_view aims.now) label }
{
    let label = label as usize;
    if label < aims.len() {
        Some(aims[aims.len() - 1 - label])
    } else {
        None
    }
}

/// The name of the label.
pub fn label_of(aims: &[Aim], label: u32) -> Name
    ensures { name_view result ≡ numbered label_kind (labels_round (drop (suc label) (aims_view aims.now))) }
{
    let label = label as usize;
    let count = aims.len();
    let round = if label + 2 <= count {
        count - label - 2
    } else {
        0
    };
    Name::Counted(Numbered::Label, round as u64)
}

/// Whether the only aim leaves the function with a word of 32 bits.
pub fn gives_word(aims: &[Aim]) -> bool
    ensures { result ≡ gives_a_word (aims_view aims.now) }
{
    match aims {
        [aim] => leaves_with_word(*aim),
        _ => false,
    }
}

fn leaves_with_word(aim: Aim) -> bool
    ensures { result ≡ gives_a_word (aim_view aim ∷ []) }
{
    match aim {
        Aim::Out {
            result: Some(ValType::I32),
        } => true,
        _ => false,
    }
}
