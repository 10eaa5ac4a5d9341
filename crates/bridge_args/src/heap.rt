//! Lengths of heaps.

ghost use Rattle.std.specs.Prelude.{◌≡◌, ◌^◌, ◌%◌, ◌≤◌, true};
ghost use Rattle.bridge_lang.specs.Number.{is_heap};

/// A heap's length in bytes: a power of two from 4 KiB to 8 MiB, or a multiple of 16 MiB up to 256 MiB.
#[derive(Clone, Copy, Debug)]
pub struct HeapLength {
    pub bytes: u32,
    ghost allowed: { is_heap bytes ≡ true },
    ghost fits: { (bytes % 4 ≡ 0) × (bytes ≤ 2 ^ 28) },
}
