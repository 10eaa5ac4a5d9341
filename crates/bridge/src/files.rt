//! The files of the system.
ghost use Rattle.std.specs.Prelude.{◌≡◌, ◌≤◌, ◌<◌, length, None, IfOk};
ghost use Rattle.bridge_io.specs.Outside.{last_count};

use bridge_io::{Files, ReadAnswer};
use std::fs::File;
use std::io::{self, ErrorKind, Read, Seek, SeekFrom};

/// The first of the words that is this name.
fn place_of(words: &[String], name: &str) -> Option<usize> {
    for (place, word) in words.iter().enumerate() {
        if word.as_str() == name {
            return Some(place);
        }
    }
    None
}

/// An open file, the place of its name among the words, and that of its next byte.
#[derive(Drop)]
struct OpenFile {
    word: Option<usize>,
    file: File,
    at: u64,
}

impl OpenFile {
    fn open(rt: &HostRuntime, word: Option<usize>, name: &str, at: u64) -> io::Result<OpenFile> {
        let mut file = File::open(rt, name)?;
        if at > 0 {
            file.seek(SeekFrom::Start(at))?;
        }
        Ok(OpenFile { word, file, at })
    }

    /// Whether the file of this word goes on here.
    fn goes_on(&self, word: Option<usize>, at: u64) -> bool {
        match (self.word, word) {
            (Some(open), Some(named)) => open == named && self.at == at,
            _ => false,
        }
    }

    /// One read that isn't interrupted.
    fn read(&mut self, buf: &mut [u8]) -> io::Result<usize>
        ensures { IfOk result (λ n. n ≤ length buf.old) }
    {
        for _ in 0..u64::MAX {
            match self.file.read(buf) {
                Ok(n) => {
                    self.at = self.at.saturating_add(n as u64);
                    return Ok(n);
                }
                Err(error) if error.kind() == ErrorKind::Interrupted => {}
                Err(error) => return Err(error),
            }
        }
        Err(io::Error::from(ErrorKind::Interrupted))
    }
}

/// The files of the system, under their paths. It tells nothing of their bytes.
///
/// A file that is read from its front on is opened once, so that a pipe can be read too. Its name is one of the words, so that nothing has
/// to be kept of it but where it stands, and no memory is asked for.
#[derive(Drop)]
pub struct SystemFiles<'a> {
    rt: &'a HostRuntime,
    words: &'a [String],
    current: Option<OpenFile>,
    faults: u64,
    absences: u64,
    given: u64,
    ghost faults_fit: { faults ≤ last_count },
    ghost absences_fit: { absences ≤ last_count },
    ghost given_fit: { given ≤ last_count },
}

impl<'a> SystemFiles<'a> {
    /// The files that these words name. Nothing is counted yet.
    pub fn new(rt: &'a HostRuntime, words: &'a [String]) -> Self
        ensures faults { result.faults ≡ 0 }
        ensures absences { result.absences ≡ 0 }
        ensures given { result.given ≡ 0 }
    {
        SystemFiles {
            rt,
            words,
            current: None,
            faults: 0,
            absences: 0,
            given: 0,
        }
    }

    fn read_part(&mut self, name: &str, at: u64, buf: &mut [u8]) -> io::Result<usize>
        ensures within { IfOk result (λ n. n ≤ length buf.old) }
        ensures faults { self.new.faults ≡ self.old.faults }
        ensures absences { self.new.absences ≡ self.old.absences }
        ensures given { self.new.given ≡ self.old.given }
    {
        let word = place_of(self.words, name);
        let mut open = match self.current.take() {
            Some(open) if open.goes_on(word, at) => open,
            _ => OpenFile::open(self.rt, word, name, at)?,
        };
        let n = open.read(buf)?;
        self.current = Some(open);
        Ok(n)
    }
}

impl Files for SystemFiles<'_> {
    ghost told = { λ _. None };

    ghost faults = { λ s. s.faults };

    ghost absences = { λ s. s.absences };

    ghost given = { λ s. s.given };

    ghost calls = { λ _. 0 };

    fn read(&mut self, name: &str, at: u64, buf: &mut [u8]) -> Result<usize, ReadAnswer> {
        match self.read_part(name, at, buf) {
            Ok(n) => {
                self.given = self.given.saturating_add(n as u64);
                Ok(n)
            }
            Err(error) if error.kind() == ErrorKind::NotFound => {
                self.absences = self.absences.saturating_add(1);
                Err(ReadAnswer::Missing)
            }
            Err(_) => {
                self.faults = self.faults.saturating_add(1);
                Err(ReadAnswer::Failed)
            }
        }
    }
}
