//! Which names are the same.
ghost use Rattle.std.specs.Prelude.{◌≡◌};
ghost use Rattle.wasm2js_translation.specs.Names as plain;
ghost use Rattle.wasm2js_nodes.specs.Names.{fixed_view, name_view};

use crate::names::{Fixed, Name};
use crate::spelling::letter;

pub fn same_name(a: Name, b: Name) -> bool
    ensures { result ≡ plain.same_name (name_view a) (name_view b) }
{
    match (a, b) {
        (Name::Counted(kind, number), Name::Counted(other, count)) => {
            letter(kind) == letter(other) && number == count
        }
        (Name::Counted(_, _), Name::Always(_)) => false,
        (Name::Always(_), Name::Counted(_, _)) => false,
        (Name::Always(fixed), Name::Always(other)) => same_fixed(fixed, other),
    }
}

fn same_fixed(a: Fixed, b: Fixed) -> bool
    ensures { result ≡ plain.same_fixed (fixed_view a) (fixed_view b) }
{
    group(a) == group(b) && place(a) == place(b)
}

// By which names are declared, group by group.
fn group(fixed: Fixed) -> u8
    ensures { result ≡ (plain.fixed_rank (fixed_view fixed)).group }
{
    match fixed {
        Fixed::ViewOfBytes
        | Fixed::ViewOfSignedBytes
        | Fixed::ViewOfWords
        | Fixed::Imul
        | Fixed::Clz32
        | Fixed::Trap
        | Fixed::High
        | Fixed::SpareHigh
        | Fixed::ResultHigh => 0,
        Fixed::Init | Fixed::LastHigh => 6,
        _ => 3,
    }
}

// And in each group by their places.
fn place(fixed: Fixed) -> u8
    ensures { result ≡ (plain.fixed_rank (fixed_view fixed)).place }
{
    match fixed {
        Fixed::ViewOfBytes | Fixed::ShiftLeft | Fixed::Init => 0,
        Fixed::ViewOfSignedBytes | Fixed::ShiftRightSigned | Fixed::LastHigh => 1,
        Fixed::ViewOfWords | Fixed::ShiftRight => 2,
        Fixed::Imul | Fixed::RotateLeft => 3,
        Fixed::Clz32 | Fixed::LeadingZeros => 4,
        Fixed::Trap | Fixed::TrailingZeros => 5,
        Fixed::High | Fixed::SetBits => 6,
        Fixed::SpareHigh | Fixed::DivideSigned => 7,
        Fixed::ResultHigh | Fixed::Divide => 8,
        Fixed::RemainderSigned => 9,
        Fixed::Remainder => 10,
        Fixed::Load32 => 11,
        Fixed::Load64 => 12,
        Fixed::Store32 => 13,
        Fixed::Store64 => 14,
        Fixed::Copy => 15,
        Fixed::Fill => 16,
        Fixed::DataWords => 17,
        Fixed::DataZeros => 18,
    }
}
