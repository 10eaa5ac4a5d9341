//! Standard output and standard error.
ghost use Rattle.std.specs.Prelude.{◌≡◌, ◌≤◌, ◌<◌, length, None, IfSome};
ghost use Rattle.bridge_io.specs.Outside.{last_count};

use bridge_io::{Failed, Sink};
use std::io::{ErrorKind, Print};

/// A stream of the system. It tells nothing of the bytes that it took.
#[derive(Drop)]
pub struct Stream<P> {
    stream: P,
    faults: u64,
    ghost faults_fit: { faults ≤ last_count },
}

impl<P: Print> Stream<P> {
    /// The stream, of which no write has failed yet.
    pub fn new(stream: P) -> Self
        ensures { result.faults ≡ 0 }
    {
        Stream { stream, faults: 0 }
    }

    /// One write that isn't interrupted, or None where it fails or takes nothing.
    fn write_once(&self, bytes: &[u8]) -> Option<usize>
        ensures within { IfSome result (λ n. n ≤ length bytes.now) }
        ensures some { IfSome result (λ n. 0 < n) }
    {
        for _ in 0..u64::MAX {
            match self.stream.write_some(bytes) {
                Ok(0) => return None,
                Ok(n) => return Some(n),
                Err(error) if error.kind() == ErrorKind::Interrupted => {}
                Err(_) => return None,
            }
        }
        None
    }
}

impl<P: Print> Sink for Stream<P> {
    ghost told = { λ _. None };

    ghost faults = { λ s. s.faults };

    ghost takes = { λ _ _. Unit {0} };

    ghost calls = { λ _. 0 };

    fn write(&mut self, bytes: &[u8]) -> Result<usize, Failed> {
        if bytes.is_empty() {
            return Ok(0);
        }
        match self.write_once(bytes) {
            Some(n) => Ok(n),
            None => {
                self.faults = self.faults.saturating_add(1);
                Err(Failed)
            }
        }
    }
}
