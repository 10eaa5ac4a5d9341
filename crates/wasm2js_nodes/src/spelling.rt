//! How names are spelled.
ghost use Rattle.std.specs.Prelude.{◌≡◌, ◌∷◌, IfOk};
ghost use Rattle.sem_words.specs.Lists.{text_bytes};
ghost use Rattle.wasm2js_translation.specs.Names as plain;
ghost use Rattle.wasm2js_translation.specs.Names.{spelled, numeral};
ghost use Rattle.wasm2js_nodes.specs.Names.{numbered_view, fixed_view, name_view};

use crate::names::{Fixed, Name, Numbered};
use itoa::Buffer;
use sem_words::Text;
use std::alloc::{AllocError, Global};

/// How a name is spelled.
pub fn spell(alloc: Global, name: Name) -> Result<Text, AllocError>
    ensures { IfOk result (λ text. text_bytes text ≡ spelled (name_view name)) }
{
    match name {
        Name::Counted(kind, number) => counted(alloc, letter(kind), number),
        Name::Always(fixed) => Text::from_bytes(alloc, word(fixed)),
    }
}

// The letter, and the number in decimal digits.
#[tactic(auto, using(crate::proofs::Numerals::decimal_is_numeral))]
fn counted(alloc: Global, letter: u8, number: u64) -> Result<Text, AllocError>
    ensures { IfOk result (λ text. text_bytes text ≡ letter ∷ numeral number) }
{
    let mut digits = Buffer::new();
    joined(alloc, letter, digits.format(number).as_bytes())
}

fn joined(alloc: Global, letter: u8, digits: &[u8]) -> Result<Text, AllocError>
    ensures { IfOk result (λ text. text_bytes text ≡ letter ∷ digits.now) }
{
    let mut bytes = Vec::new(alloc);
    bytes.push(letter)?;
    bytes.extend_from_slice(digits)?;
    Text::from_bytes(alloc, bytes.as_slice())
}

pub(crate) fn letter(kind: Numbered) -> u8
    ensures { result ≡ plain.letter (numbered_view kind) }
{
    match kind {
        Numbered::LocalLow => b'x',
        Numbered::LocalHigh => b'X',
        Numbered::OperandLow => b's',
        Numbered::OperandHigh => b'S',
        Numbered::GlobalLow => b'g',
        Numbered::GlobalHigh => b'G',
        Numbered::Function => b'f',
        Numbered::Foreign => b'i',
        Numbered::Table => b't',
        Numbered::NoEntry => b'e',
        Numbered::OtherEntry => b'o',
        Numbered::Label => b'L',
    }
}

fn word(fixed: Fixed) -> &'static [u8]
    ensures { result.now ≡ plain.word (fixed_view fixed) }
{
    match fixed {
        Fixed::ViewOfBytes => b"$u8",
        Fixed::ViewOfSignedBytes => b"$i8",
        Fixed::ViewOfWords => b"$w",
        Fixed::Imul => b"$imul",
        Fixed::Clz32 => b"$clz32",
        Fixed::Trap => b"$trap",
        Fixed::High => b"$high",
        Fixed::SpareHigh => b"$q",
        Fixed::ResultHigh => b"$h",
        Fixed::ShiftLeft => b"$shl",
        Fixed::ShiftRightSigned => b"$shrs",
        Fixed::ShiftRight => b"$shru",
        Fixed::RotateLeft => b"$rotl",
        Fixed::LeadingZeros => b"$clz",
        Fixed::TrailingZeros => b"$ctz",
        Fixed::SetBits => b"$pop",
        Fixed::DivideSigned => b"$divs",
        Fixed::Divide => b"$divu",
        Fixed::RemainderSigned => b"$rems",
        Fixed::Remainder => b"$remu",
        Fixed::Load32 => b"$load32",
        Fixed::Load64 => b"$load64",
        Fixed::Store32 => b"$store32",
        Fixed::Store64 => b"$store64",
        Fixed::Copy => b"$copy",
        Fixed::Fill => b"$fill",
        Fixed::DataWords => b"$put",
        Fixed::DataZeros => b"$zero",
        Fixed::Init => b"$init",
        Fixed::LastHigh => b"$hi",
    }
}
