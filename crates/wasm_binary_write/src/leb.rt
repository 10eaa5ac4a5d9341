//! Numbers in their shortest form (WebAssembly Core 1.0, section 5.2.2).
ghost use Rattle.std.specs.Prelude.{◌≡◌, ◌+◌, ◌-◌, ◌<◌, ◌≤◌, ◌++◌, OnOk};
ghost use Rattle.wasm_binary_write.specs.Spelling.{groups, unsigned, integer, seven_bits};

use std::alloc::AllocError;

/// Appends an unsigned number.
pub fn push_unsigned(out: &mut Vec<u8>, number: usize) -> Result<(), AllocError>
    ensures { OnOk result (out.new.items ≡ out.old.items ++ unsigned number) }
{
    push_groups(out, number as u128, 128, false)
}

/// Appends an unsigned number, which may be too large for a size.
pub fn push_wide(out: &mut Vec<u8>, number: u128) -> Result<(), AllocError>
    ensures { OnOk result (out.new.items ≡ out.old.items ++ unsigned number) }
{
    push_groups(out, number, 128, false)
}

/// Appends a word of 32 bits as the signed number that it stands for.
pub fn push_s32(out: &mut Vec<u8>, word: u32) -> Result<(), AllocError>
    ensures { OnOk result (out.new.items ≡ out.old.items ++ integer 32 word) }
{
    if word < 0x8000_0000 {
        push_groups(out, u128::from(word), 64, false)
    } else {
        push_groups(out, u128::from(u32::MAX - word), 64, true)
    }
}

/// Appends a word of 64 bits as the signed number that it stands for.
pub fn push_s64(out: &mut Vec<u8>, word: u64) -> Result<(), AllocError>
    ensures { OnOk result (out.new.items ≡ out.old.items ++ integer 64 word) }
{
    if word < 0x8000_0000_0000_0000 {
        push_groups(out, u128::from(word), 64, false)
    } else {
        push_groups(out, u128::from(u64::MAX - word), 64, true)
    }
}

// Seven bits of a number in a byte, as they are or turned round, the last below the limit.
fn push_groups(out: &mut Vec<u8>, number: u128, limit: u128, turned: bool) -> Result<(), AllocError>
    requires { (0 < limit) × (limit ≤ 128) }
    ensures { OnOk result (out.new.items ≡ out.old.items ++ groups limit turned number) }
{
    let mut rest = number;
    while rest >= limit {
        out.push(group(turned, (rest % 128) as u8) + 128)?;
        rest /= 128;
    }
    out.push(group(turned, rest as u8))?;
    Ok(())
}

fn group(turned: bool, bits: u8) -> u8
    requires { bits < 128 }
    ensures below { result < 128 }
    ensures value { result ≡ seven_bits turned bits }
{
    if turned { 127 - bits } else { bits }
}
