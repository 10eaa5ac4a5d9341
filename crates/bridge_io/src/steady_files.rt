// Files in memory whose reads never fail.
ghost use Rattle.std.specs.Prelude.{◌≡◌, ◌≢◌, ℕ, ◌+◌, ◌<◌, ◌≤◌, List, [], length, take, Some, None, Ok, Err, OnOk, OnErr, IfOk, IsErrOf};
ghost use Rattle.bridge_io.specs.Outside.{Told, content_of, raised, Rose, RoseBy, NeverFalls, GivesFrom};

use crate::stored::{Stored, put_file, read_file};
use crate::{Files, ReadAnswer};
use std::alloc::{AllocError, Global};
use std::collections::BTreeMap;
use std::marker::Model;

/// Files in memory. Its count of faults is 0.
#[derive(Drop)]
pub struct SteadyFiles {
    alloc: Global,
    stored: Stored,
    reads: u64,
    missed: u64,
    handed: u64,
}

impl Model for SteadyFiles {
    ghost use Rattle.std.specs.Prelude.{◌≤◌};
    ghost use Rattle.bridge_io.specs.Outside.{last_count};
    ghost use Rattle.bridge_io.specs.InMemory.{SteadyFilesState, files_of};

    ghost Value = { SteadyFilesState };

    ghost view = { λ a. record {
      files = files_of a.stored;
      calls = a.reads;
      absences = a.missed;
      given = a.handed;
    } };

    // What a `u64` is anyway, said for the counts that a call doesn't touch.
    ghost invariant = { λ a. (a.missed ≤ last_count) × (a.handed ≤ last_count) };
}

impl SteadyFiles {
    /// No files.
    pub fn new(alloc: Global) -> SteadyFiles
        ensures { result ≡ record { files = []; calls = 0; absences = 0; given = 0 } }
    {
        SteadyFiles {
            alloc,
            stored: BTreeMap::new(alloc),
            reads: 0,
            missed: 0,
            handed: 0,
        }
    }

    /// Puts the bytes under the name, in place of those that are there.
    pub fn add(&mut self, name: &str, bytes: &[u8]) -> Result<(), AllocError>
        ensures named { OnOk result (content_of self.new.files name.now ≡ Some bytes.now) }
        ensures others { OnOk result ((other : List ℕ) → other ≢ name.now →
            content_of self.new.files other ≡ content_of self.old.files other) }
        ensures rest { self.new ≡ record self.old { files = self.new.files } }
        ensures err { OnErr result (self.new ≡ self.old) }
    {
        put_file(self.alloc, &mut self.stored, name, bytes)
    }
}

impl Files for SteadyFiles {
    ghost use Rattle.bridge_io.specs.InMemory.{read_len, read_into};

    ghost told = { λ s. Some s.files };

    ghost faults = { λ _. 0 };

    ghost absences = { λ s. s.absences };

    ghost given = { λ s. s.given };

    ghost calls = { λ s. s.calls };

    fn read(&mut self, name: &str, at: u64, buf: &mut [u8]) -> Result<usize, ReadAnswer>
        requires { 0 < length buf.old }

        ensures told { self.new.files ≡ self.old.files }
        ensures absences { NeverFalls self.old.absences self.new.absences }
        ensures given { NeverFalls self.old.given self.new.given }
        ensures calls { self.new.calls ≤ self.old.calls + 1 }
        ensures within { IfOk result (λ n. n ≤ length buf.old) }
        ensures raises { IfOk result (λ n. RoseBy n self.old.given self.new.given) }
        ensures bytes { (map : Told) → Some self.old.files ≡ Some map → IfOk result (λ n.
            (content : List ℕ) × (content_of map name.now ≡ Some content) × GivesFrom content at n (take n buf.new)) }
        ensures failed { ¬ (IsErrOf result ReadAnswer.Failed) }
        ensures missing { IsErrOf result ReadAnswer.Missing → Rose self.old.absences self.new.absences }
        ensures absent { (map : Told) → Some self.old.files ≡ Some map →
            IsErrOf result ReadAnswer.Missing → content_of map name.now ≡ None }

        ensures nowhere { content_of self.old.files name.now ≡ None →
            (result ≡ Err ReadAnswer.Missing) × (buf.new ≡ buf.old)
            × (self.new ≡ record self.old { calls = raised 1 self.old.calls; absences = raised 1 self.old.absences }) }
        ensures there { (content : List ℕ) → content_of self.old.files name.now ≡ Some content →
            let n = read_len content at (length buf.old) in
            (result ≡ Ok n) × (buf.new ≡ read_into content at buf.old)
            × (self.new ≡ record self.old { calls = raised 1 self.old.calls; given = raised n self.old.given }) }
    {
        self.reads = self.reads.saturating_add(1);
        match read_file(&self.stored, name, at, buf) {
            None => {
                self.missed = self.missed.saturating_add(1);
                Err(ReadAnswer::Missing)
            }
            Some(n) => {
                self.handed = self.handed.saturating_add(n as u64);
                Ok(n)
            }
        }
    }
}
