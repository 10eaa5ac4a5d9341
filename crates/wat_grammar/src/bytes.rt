//! Whether two slices of bytes are the same: many at a time, since each word of a text is compared.

ghost use Rattle.std.specs.Prelude.{◌≡◌, ◌≤◌, ◌+◌, length, bytes_eq};
ghost use Rattle.wat_grammar.specs.Same.{same_from};

fn same_two(a: &[u8], b: &[u8], at: usize) -> bool
    requires { (at + 2 ≤ length a.now) × (at + 2 ≤ length b.now) }
    ensures { result ≡ same_from a.now b.now at 2 }
{
    (a[at] == b[at]) & (a[at + 1] == b[at + 1])
}

fn same_four(a: &[u8], b: &[u8], at: usize) -> bool
    requires { (at + 4 ≤ length a.now) × (at + 4 ≤ length b.now) }
    ensures { result ≡ same_from a.now b.now at 4 }
{
    same_two(a, b, at) & same_two(a, b, at + 2)
}

fn same_eight(a: &[u8], b: &[u8], at: usize) -> bool
    requires { (at + 8 ≤ length a.now) × (at + 8 ≤ length b.now) }
    ensures { result ≡ same_from a.now b.now at 8 }
{
    same_four(a, b, at) & same_four(a, b, at + 4)
}

/// Byte by byte, for the shortest.
#[tactic(auto, using(crate::proofs::Same::same_more, crate::proofs::Same::same_not))]
fn same_short(a: &[u8], b: &[u8]) -> bool
    requires { length a.now ≡ length b.now }
    ensures { result ≡ same_from a.now b.now 0 (length a.now) }
{
    let mut at = 0;
    while at < a.len() {
        if a[at] != b[at] {
            return false;
        }
        at += 1;
    }
    true
}

/// Eight by eight. The last eight may have bytes of those before them.
#[tactic(auto, using(crate::proofs::Same::same_more))]
fn same_long(a: &[u8], b: &[u8]) -> bool
    requires { (8 ≤ length a.now) × (length a.now ≡ length b.now) }
    ensures { result ≡ same_from a.now b.now 0 (length a.now) }
{
    let last = a.len() - 8;
    let mut at = 0;
    while at < last {
        if !same_eight(a, b, at) {
            return false;
        }
        at += 8;
    }
    same_eight(a, b, last)
}

#[tactic(auto, using(crate::proofs::Same::same_ends))]
fn same_of_length(a: &[u8], b: &[u8]) -> bool
    requires { length a.now ≡ length b.now }
    ensures { result ≡ same_from a.now b.now 0 (length a.now) }
{
    if a.len() >= 8 {
        same_long(a, b)
    } else if a.len() >= 4 {
        same_four(a, b, 0) && same_four(a, b, a.len() - 4)
    } else {
        same_short(a, b)
    }
}

/// Whether the bytes are the same.
#[inline(always)]
#[tactic(auto, using(crate::proofs::Same::same_all, crate::proofs::Same::other_length))]
pub fn same_bytes(a: &[u8], b: &[u8]) -> bool
    ensures { result ≡ bytes_eq a.now b.now }
{
    a.len() == b.len() && same_of_length(a, b)
}
