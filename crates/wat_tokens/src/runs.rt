//! Runs of bytes of one kind.

ghost use Rattle.std.specs.Prelude.{◌≡◌, ◌+◌, ◌<◌, ◌≤◌, length, drop};
ghost use Rattle.std.specs.List.{prefix_len};
ghost use Rattle.wat_lang.specs.Tokens as spec;
ghost use Rattle.wat_tokens.specs.Fronts.{is_plain};
ghost use Rattle.wat_tokens.specs.Runs.{is_of};

use crate::bytes::{is_atom_byte, is_plain};
use crate::lanes::{LANES, plain_run};

/// What the bytes of a run are.
#[derive(Clone, Copy)]
pub enum Kind {
    /// Those of an atom.
    Atom,
    /// Those that stand in a string for themselves.
    Plain,
}

#[inline(always)]
fn is_of(kind: Kind, b: u8) -> bool
    ensures { result ≡ is_of kind b }
{
    match kind {
        Kind::Atom => is_atom_byte(b),
        Kind::Plain => is_plain(b),
    }
}

/// The end of the run that begins at n, byte by byte.
#[inline(always)]
fn near_end(kind: Kind, s: &[u8], from: usize) -> usize
    requires { from ≤ length s.now }
    ensures value { result ≡ from + prefix_len (is_of kind) (drop from s.now) }
    ensures within { result ≤ length s.now }
{
    let mut n = from;
    while n < s.len() && is_of(kind, s[n]) {
        n += 1;
    }
    n
}

/// How many of four bytes from n on stand in an atom.
#[inline(always)]
fn atoms_in_four(s: &[u8], n: usize) -> usize
    requires { n + 4 ≤ length s.now }
    ensures four { result ≡ 4 → prefix_len spec.is_atom_byte (drop n s.now) ≡ 4 + prefix_len spec.is_atom_byte (drop (n + 4) s.now) }
    ensures fewer { result < 4 → prefix_len spec.is_atom_byte (drop n s.now) ≡ result }
    ensures most { result ≤ 4 }
{
    if !is_atom_byte(s[n]) {
        0
    } else if !is_atom_byte(s[n + 1]) {
        1
    } else if !is_atom_byte(s[n + 2]) {
        2
    } else if !is_atom_byte(s[n + 3]) {
        3
    } else {
        4
    }
}

/// The end of the atom's bytes that begin at an offset. Four bytes a turn spare the loop's own test.
#[inline(always)]
pub fn atom_end(s: &[u8], from: usize) -> usize
    requires { from ≤ length s.now }
    ensures value { result ≡ from + prefix_len spec.is_atom_byte (drop from s.now) }
    ensures within { result ≤ length s.now }
{
    let mut n = from;
    while s.len() - n >= 4 {
        let more = atoms_in_four(s, n);
        n += more;
        if more < 4 {
            return n;
        }
    }
    near_end(Kind::Atom, s, n)
}

/// The end of the bytes from an offset on that stand in a string for themselves.
#[inline(always)]
pub fn plain_end(s: &[u8], from: usize) -> usize
    requires { from ≤ length s.now }
    ensures value { result ≡ from + prefix_len is_plain (drop from s.now) }
    ensures within { result ≤ length s.now }
{
    let mut n = from;
    while s.len() - n >= LANES {
        let more = plain_run(s, n);
        n += more;
        if more < LANES {
            return n;
        }
    }
    near_end(Kind::Plain, s, n)
}
