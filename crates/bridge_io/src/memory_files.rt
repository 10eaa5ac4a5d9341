// Files in memory, of which listed reads fail.
ghost use Rattle.std.specs.Prelude.{◌≡◌, ◌≢◌, ℕ, ◌+◌, ◌<◌, ◌≤◌, List, [], ◌∷◌, ◌++◌, length, take, Some, None, Ok, Err, OnOk, OnErr, IfOk, IsErrOf};
ghost use Rattle.bridge_io.specs.Outside.{Told, content_of, raised, Rose, RoseBy, NeverFalls, GivesFrom};

use crate::stored::{Stored, put_file, read_file};
use crate::{Files, ReadAnswer};
use std::alloc::{AllocError, Global};
use std::collections::BTreeMap;
use std::marker::Model;

/// Files in memory. Its reads are counted from 1 on, and the listed ones fail.
#[derive(Drop)]
pub struct MemFiles {
    alloc: Global,
    stored: Stored,
    fails: Vec<u64>,
    reads: u64,
    failed: u64,
    missed: u64,
    handed: u64,
}

impl Model for MemFiles {
    ghost use Rattle.std.specs.Prelude.{◌≤◌};
    ghost use Rattle.bridge_io.specs.Outside.{last_count};
    ghost use Rattle.bridge_io.specs.InMemory.{FilesState, files_of};

    ghost Value = { FilesState };

    ghost view = { λ a. record {
      files = files_of a.stored;
      listed = a.fails.items;
      calls = a.reads;
      faults = a.failed;
      absences = a.missed;
      given = a.handed;
    } };

    // What a `u64` is anyway, said for the counts that a call doesn't touch.
    ghost invariant = { λ a. (a.failed ≤ last_count) × (a.missed ≤ last_count) × (a.handed ≤ last_count) };
}

impl MemFiles {
    /// No files.
    pub fn new(alloc: Global) -> MemFiles
        ensures { result ≡ record { files = []; listed = []; calls = 0; faults = 0; absences = 0; given = 0 } }
    {
        MemFiles {
            alloc,
            stored: BTreeMap::new(alloc),
            fails: Vec::new(alloc),
            reads: 0,
            failed: 0,
            missed: 0,
            handed: 0,
        }
    }

    /// Puts the bytes under the name, in place of those that are there.
    pub fn add(&mut self, name: &str, bytes: &[u8]) -> Result<(), AllocError>
        ensures named { OnOk result (content_of self.new.files name.now ≡ Some bytes.now) }
        ensures others { OnOk result ((other : List ℕ) → other ≢ name.now →
            content_of self.new.files other ≡ content_of self.old.files other) }
        ensures rest { self.new ≡ record self.old { files = self.new.files } }
        ensures err { OnErr result (self.new ≡ self.old) }
    {
        put_file(self.alloc, &mut self.stored, name, bytes)
    }

    /// Lists a read that fails. The first is number 1.
    pub fn fail_at(&mut self, call: u64) -> Result<(), AllocError>
        ensures ok { OnOk result (self.new ≡ record self.old { listed = self.old.listed ++ call ∷ [] }) }
        ensures err { OnErr result (self.new ≡ self.old) }
    {
        self.fails.push(call)?;
        Ok(())
    }
}

impl Files for MemFiles {
    ghost use Rattle.bridge_io.specs.InMemory.{FailsNext, read_len, read_into};

    ghost told = { λ s. Some s.files };

    ghost faults = { λ s. s.faults };

    ghost absences = { λ s. s.absences };

    ghost given = { λ s. s.given };

    ghost calls = { λ s. s.calls };

    fn read(&mut self, name: &str, at: u64, buf: &mut [u8]) -> Result<usize, ReadAnswer>
        requires { 0 < length buf.old }

        ensures told { self.new.files ≡ self.old.files }
        ensures faults { NeverFalls self.old.faults self.new.faults }
        ensures absences { NeverFalls self.old.absences self.new.absences }
        ensures given { NeverFalls self.old.given self.new.given }
        ensures calls { self.new.calls ≤ self.old.calls + 1 }
        ensures within { IfOk result (λ n. n ≤ length buf.old) }
        ensures raises { IfOk result (λ n. RoseBy n self.old.given self.new.given) }
        ensures bytes { (map : Told) → Some self.old.files ≡ Some map → IfOk result (λ n.
            (content : List ℕ) × (content_of map name.now ≡ Some content) × GivesFrom content at n (take n buf.new)) }
        ensures failed { IsErrOf result ReadAnswer.Failed → Rose self.old.faults self.new.faults }
        ensures missing { IsErrOf result ReadAnswer.Missing → Rose self.old.absences self.new.absences }
        ensures absent { (map : Told) → Some self.old.files ≡ Some map →
            IsErrOf result ReadAnswer.Missing → content_of map name.now ≡ None }

        // Exactly the listed reads fail.
        ensures listed { FailsNext self.old.listed self.old.calls →
            (result ≡ Err ReadAnswer.Failed) × (buf.new ≡ buf.old)
            × (self.new ≡ record self.old { calls = raised 1 self.old.calls; faults = raised 1 self.old.faults }) }
        ensures nowhere { ¬ (FailsNext self.old.listed self.old.calls) → content_of self.old.files name.now ≡ None →
            (result ≡ Err ReadAnswer.Missing) × (buf.new ≡ buf.old)
            × (self.new ≡ record self.old { calls = raised 1 self.old.calls; absences = raised 1 self.old.absences }) }
        ensures there { (content : List ℕ) →
            ¬ (FailsNext self.old.listed self.old.calls) → content_of self.old.files name.now ≡ Some content →
            let n = read_len content at (length buf.old) in
            (result ≡ Ok n) × (buf.new ≡ read_into content at buf.old)
            × (self.new ≡ record self.old { calls = raised 1 self.old.calls; given = raised n self.old.given }) }
    {
        self.reads = self.reads.saturating_add(1);
        if self.fails.contains(&self.reads) {
            self.failed = self.failed.saturating_add(1);
            return Err(ReadAnswer::Failed);
        }
        match read_file(&self.stored, name, at, buf) {
            None => {
                self.missed = self.missed.saturating_add(1);
                Err(ReadAnswer::Missing)
            }
            Some(n) => {
                self.handed = self.handed.saturating_add(n as u64);
                Ok(n)
            }
        }
    }
}
