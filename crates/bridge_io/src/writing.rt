// A sink as a program sees it, and writing all of some bytes.
ghost use Rattle.std.specs.Prelude.{◌≡◌, ℕ, ◌+◌, ◌<◌, ◌≤◌, length, take, List, Option, IfOk, OnOk, OnErr};
ghost use Rattle.bridge_io.specs.Outside.{Rose, NeverFalls, appended};

use thiserror::Error;

/// A write failed, and appended nothing.
#[derive(Clone, Copy, Debug, PartialEq, Eq, Error)]
#[error("the write failed")]
pub struct Failed;

/// What bytes are written to. What was written so far may be told.
pub trait Sink {
    /// The bytes so far, where they are told.
    ghost told: { Self → Option (List ℕ) };

    /// How many writes failed.
    ghost faults: { Self → ℕ };

    /// That so many more bytes may be written.
    ghost takes: { Self → ℕ → Type 0 };

    /// How many writes were made, where that is counted.
    ghost calls: { Self → ℕ };

    /// Appends bytes of the front of `bytes`. Answers how many.
    fn write(&mut self, bytes: &[u8]) -> Result<usize, Failed>
        requires { takes self.old (length bytes.now) }

        ensures faults { NeverFalls (faults self.old) (faults self.new) }
        ensures calls { calls self.new ≤ calls self.old + 1 }

        ensures within { IfOk result (λ n. n ≤ length bytes.now) }
        ensures progress { IfOk result (λ n. 0 < length bytes.now → 0 < n) }
        ensures appends { IfOk result (λ n. told self.new ≡ appended (told self.old) (take n bytes.now)) }
        ensures room { IfOk result (λ n. (more : ℕ) → takes self.old (n + more) → takes self.new more) }

        ensures failed { OnErr result (Rose (faults self.old) (faults self.new)) }
        ensures unchanged { OnErr result (told self.new ≡ told self.old) }
        ensures room_stays { OnErr result ((more : ℕ) → takes self.old more → takes self.new more) };
}

/// Writes all the bytes, or those of a front of them where a write fails.
pub fn put_all<S: Sink>(sink: &mut S, bytes: &[u8]) -> Result<(), Failed>
    requires { S.takes sink.old (length bytes.now) }

    ensures faults { S.faults sink.old ≤ S.faults sink.new }
    ensures calls { S.calls sink.new ≤ S.calls sink.old + length bytes.now }

    ensures all { OnOk result (S.told sink.new ≡ appended (S.told sink.old) bytes.now) }
    ensures room { OnOk result ((more : ℕ) → S.takes sink.old (length bytes.now + more) → S.takes sink.new more) }

    ensures failed { OnErr result (Rose (S.faults sink.old) (S.faults sink.new)) }
    ensures front { OnErr result ((n : ℕ) × (n < length bytes.now)
        × (S.told sink.new ≡ appended (S.told sink.old) (take n bytes.now))
        × ((more : ℕ) → S.takes sink.old (n + more) → S.takes sink.new more)) }

    // A sink that takes any number of bytes still does.
    ensures unlimited { ((n : ℕ) → S.takes sink.old n) → (n : ℕ) → S.takes sink.new n }
{
    let mut done = 0;
    while done < bytes.len() {
        let n = sink.write(&bytes[done..])?;
        done += n;
    }
    Ok(())
}
