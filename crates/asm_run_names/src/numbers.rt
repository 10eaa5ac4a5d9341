//! Numbers of 32 bits. One that has more is want of memory: its code, or the words of a call, would take 16 GiB and more.
ghost use Rattle.std.specs.Prelude.{◌≡◌, suc, IfOk};

use std::alloc::AllocError;

/// A number of 32 bits.
pub fn small(n: usize) -> Result<u32, AllocError>
    ensures { IfOk result (λ m. m ≡ n) }
{
    if n > 0xffff_ffff {
        return Err(AllocError);
    }
    Ok(n as u32)
}

/// The slot after this one.
pub fn next(slot: u32) -> Result<u32, AllocError>
    ensures { IfOk result (λ n. n ≡ suc slot) }
{
    if slot == 0xffff_ffff {
        return Err(AllocError);
    }
    Ok(slot + 1)
}
