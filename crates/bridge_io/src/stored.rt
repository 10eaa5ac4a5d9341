// The files of a map in memory.
ghost use Rattle.std.specs.Prelude.{◌≡◌, ◌≢◌, ℕ, List, length, Some, None, OnOk, OnErr, MatchOption};
ghost use Rattle.bridge_io.specs.Outside.{content_of};
ghost use Rattle.bridge_io.specs.InMemory.{files_of, read_len, read_into};

use std::alloc::{AllocError, Global};
use std::collections::BTreeMap;

/// Files by their names.
pub type Stored = BTreeMap<String, Vec<u8>>;

/// Puts the bytes under the name, in place of those that are there.
pub fn put_file(
    alloc: Global,
    stored: &mut Stored,
    name: &str,
    bytes: &[u8],
) -> Result<(), AllocError>
    ensures named { OnOk result (content_of (files_of stored.new) name.now ≡ Some bytes.now) }
    ensures others { OnOk result ((other : List ℕ) → other ≢ name.now →
        content_of (files_of stored.new) other ≡ content_of (files_of stored.old) other) }
    ensures err { OnErr result (files_of stored.new ≡ files_of stored.old) }
{
    let key = String::from_str(alloc, name)?;
    let content = Vec::from_slice(alloc, bytes)?;
    stored.insert(key, content)?;
    Ok(())
}

/// Puts the bytes of a file, from `at` on, at the front of `buf`, if there is such a file.
pub fn read_file(stored: &Stored, name: &str, at: u64, buf: &mut [u8]) -> Option<usize>
    ensures { MatchOption result
        ((content_of (files_of stored.now) name.now ≡ None) × (buf.new ≡ buf.old))
        (λ n. (content : List ℕ) × (content_of (files_of stored.now) name.now ≡ Some content)
        × (n ≡ read_len content at (length buf.old)) × (buf.new ≡ read_into content at buf.old)) }
{
    match stored.get(name) {
        None => None,
        Some(content) => Some(copy_piece(content, at, buf)),
    }
}

/// Puts bytes, from `at` on, at the front of `buf`. Answers how many.
fn copy_piece(content: &[u8], at: u64, buf: &mut [u8]) -> usize
    ensures count { result ≡ read_len content.now at (length buf.old) }
    ensures bytes { buf.new ≡ read_into content.now at buf.old }
{
    if at >= content.len() as u64 {
        return 0;
    }
    let left = &content[at as usize..];
    let n = left.len().min(buf.len());
    buf[..n].copy_from_slice(&left[..n]);
    n
}
