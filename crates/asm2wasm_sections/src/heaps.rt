//! The lengths of heaps that a module is translated for, and the pages that hold one.
ghost use Rattle.std.specs.Prelude.{◌≡◌};
ghost use Rattle.asm2wasm_lang.specs.Heaps.{is_heap_length, pages_for};

const SHORT: [u32; 12] = [
    4096, 8192, 16384, 32768, 65536, 131072, 262144, 524288, 1048576, 2097152, 4194304, 8388608,
];

/// Whether a heap may have so many bytes: 2^k for a k from 12 to 23, or a multiple of 2^24 from 2^24 to 2^28.
#[tactic(auto, unfolding(asm2wasm_lang::specs::Heaps::is_heap_length))]
pub fn is_heap_len(n: u32) -> bool
    ensures { result ≡ is_heap_length n }
{
    SHORT.contains(&n) || (n % 16_777_216 == 0 && 16_777_216 <= n && n <= 268_435_456)
}

/// The least number of pages of 65,536 bytes that hold a heap of so many bytes.
pub fn pages_for(heap_len: u32) -> u32
    ensures { result ≡ pages_for heap_len }
{
    heap_len.div_ceil(65_536)
}
