//! The kinds of view.
ghost use Rattle.std.specs.Prelude.{◌≡◌, ◌<◌, ◌^◌};
ghost use Rattle.heap_lang.specs.Numbers.{signed_reading};

/// How a view reads its elements: of 8, 16 or 32 bits, with a sign or without.
#[derive(Clone, Copy, Debug, PartialEq, Eq)]
pub enum ViewKind {
    I8,
    U8,
    I16,
    U16,
    I32,
    U32,
}

impl ViewKind {
    ghost use Rattle.heap_lang.specs.Heap.{element_size, element_of, IsElement};

    /// The bytes of one element.
    pub fn size(self) -> u32
        ensures { result ≡ element_size self }
    {
        match self {
            ViewKind::I8 | ViewKind::U8 => 1,
            ViewKind::I16 | ViewKind::U16 => 2,
            ViewKind::I32 | ViewKind::U32 => 4,
        }
    }

    /// The element that the number of its bytes stands for.
    pub fn element(self, number: u64) -> i64
        requires { number < 256 ^ element_size self }
        ensures value { result ≡ element_of self number }
        ensures in_range { IsElement self result }
    {
        match self {
            ViewKind::I8 => signed_byte(number),
            ViewKind::I16 => signed_half(number),
            ViewKind::I32 => signed_word(number),
            ViewKind::U8 | ViewKind::U16 | ViewKind::U32 => number as i64,
        }
    }
}

fn signed_byte(number: u64) -> i64
    requires { number < 256 }
    ensures { result ≡ signed_reading 8 number }
{
    if number < 0x80 {
        number as i64
    } else {
        number as i64 - 0x100
    }
}

fn signed_half(number: u64) -> i64
    requires { number < 65536 }
    ensures { result ≡ signed_reading 16 number }
{
    if number < 0x8000 {
        number as i64
    } else {
        number as i64 - 0x1_0000
    }
}

fn signed_word(number: u64) -> i64
    requires { number < 4294967296 }
    ensures { result ≡ signed_reading 32 number }
{
    if number < 0x8000_0000 {
        number as i64
    } else {
        number as i64 - 0x1_0000_0000
    }
}
