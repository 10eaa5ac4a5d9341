//! The program: the commands of Bridge over the files and streams of the system.
#![tactic(auto)]

mod files;
mod streams;

use bridge_cmd::{Status, bridge};
use files::SystemFiles;
use std::process::ExitCode;
use std::{env, io, iter};
use streams::Stream;

/// The words of the command line. Words that aren't UTF-8 are no command, as no words are.
fn words(rt: &HostRuntime) -> io::Result<Vec<String>> {
    match env::args(rt) {
        Ok(words) => Ok(words.collect(rt.alloc())?),
        Err(error) if error.kind() == io::ErrorKind::InvalidData => Ok(Vec::new(rt.alloc())),
        Err(error) => Err(error),
    }
}

fn main(rt: HostRuntime) -> ExitCode {
    let Ok(words) = words(&rt) else {
        return ExitCode::from(Status::Memory.code());
    };
    let mut files = SystemFiles::new(&rt, &words);
    let mut out = Stream::new(rt.stdout());
    let mut report = Stream::new(rt.stderr());
    let status = bridge(rt.alloc(), &words, &mut files, &mut out, &mut report);
    ExitCode::from(status.code())
}
