// The heap that holds a memory.

ghost use Rattle.std.specs.Prelude.{◌≡◌, ◌≤◌};
ghost use Rattle.wasm2js_lang.specs.Heaps;

// The lengths of heaps that aren't multiples of 2^24.
const SHORT_LENGTHS: [u32; 12] = [
    0x1000, 0x2000, 0x4000, 0x8000, 0x1_0000, 0x2_0000, 0x4_0000, 0x8_0000, 0x10_0000, 0x20_0000,
    0x40_0000, 0x80_0000,
];

/// The length of the shortest heap that holds a memory of so many pages.
pub fn heap_for(pages: u32) -> u32
    requires { pages ≤ 4096 }
    ensures { result ≡ Heaps.heap_for pages }
{
    let bytes = pages * 65_536;
    for length in SHORT_LENGTHS.iter() {
        if bytes <= *length {
            return *length;
        }
    }
    (bytes + 0xff_ffff) / 0x100_0000 * 0x100_0000
}
