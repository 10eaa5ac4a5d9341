//! The whole program, over files in memory.
ghost use Rattle.std.specs.Prelude.{◌<◌};

use crate::rows::holds;
use bridge_cmd::bridge;
use bridge_io::{MemFiles, MemSink};
use std::alloc::{AllocError, Global};
use std::process::Abort;

/// The words of a check of the file `m`.
pub(crate) const CHECK_ASM: &[&str] = &["check-asm", "m"];

pub(crate) const CHECK_WASM: &[&str] = &["check-wasm", "m"];

/// The words of a run of the script `s` on the file `m`.
pub(crate) const RUN_ASM: &[&str] = &["run-asm", "m", "s"];

pub(crate) const RUN_WASM: &[&str] = &["run-wasm", "m", "s"];

/// A session: what it shows, the module, the options, the script, and what is printed.
pub(crate) struct Row {
    pub(crate) name: &'static str,
    pub(crate) module: &'static [u8],
    pub(crate) options: &'static [&'static str],
    pub(crate) script: &'static [u8],
    pub(crate) printed: &'static [u8],
}

/// The files `m` and `s`, the status of a call, and what it writes.
pub(crate) type End = (&'static [u8], &'static [u8], u8, &'static [u8]);

/// A call of the program: the words after its name, options behind them, and the files by their names.
#[derive(Clone, Copy)]
pub(crate) struct Call<'w, 'o, 'f> {
    pub(crate) words: &'w [&'w str],
    pub(crate) options: &'o [&'o str],
    pub(crate) files: &'f [(&'f str, &'f [u8])],
    /// Which read fails, which write of the output and which of the report: the first is 1, and 0 none. Where one does, the output
    /// takes one byte at a time.
    pub(crate) faults: [u64; 3],
}

/// The faults of a call that has none.
pub(crate) const NO_FAULTS: [u64; 3] = [0, 0, 0];

/// The status of a call, and what it wrote: to its output where it was done or a write failed, and else to its report.
#[derive(Drop)]
pub(crate) struct Told {
    pub(crate) status: u8,
    pub(crate) written: Vec<u8>,
}

impl Told {
    /// The call ended with this status, and wrote this.
    pub(crate) fn is(&self, status: u8, written: &[u8]) -> bool {
        self.status == status && self.written.as_slice() == written
    }
}

fn push_words(all: &mut Vec<String>, alloc: Global, words: &[&str]) -> Result<(), AllocError> {
    for word in words {
        all.push(String::from_str(alloc, word)?)?;
    }
    Ok(())
}

/// The program's name, the words and the options.
fn all_words(alloc: Global, call: &Call<'_, '_, '_>) -> Result<Vec<String>, AllocError> {
    let mut all = Vec::new(alloc);
    push_words(&mut all, alloc, &["bridge"])?;
    push_words(&mut all, alloc, call.words)?;
    push_words(&mut all, alloc, call.options)?;
    Ok(all)
}

fn all_files(alloc: Global, call: &Call<'_, '_, '_>) -> Result<MemFiles, AllocError> {
    let mut files = MemFiles::new(alloc);
    files.fail_at(call.faults[0])?;
    for (name, content) in call.files {
        files.add(name, content)?;
    }
    Ok(files)
}

/// How many bytes the output takes at a time.
fn piece(faults: &[u64; 3]) -> usize
    ensures { 0 < result }
{
    if *faults == NO_FAULTS { 1000 } else { 1 }
}

/// How many bytes a sink has room for.
const ROOM: usize = 4_000_000;

/// A sink that takes so many bytes at a time, and of which this write fails.
fn sink(alloc: Global, piece: usize, fault: u64) -> Result<MemSink, AllocError>
    requires { 0 < piece }
{
    let mut sink = MemSink::new(alloc, ROOM, piece)?;
    sink.fail_at(fault)?;
    Ok(sink)
}

/// The status of the call, which writes to these sinks.
fn run(
    alloc: Global,
    call: &Call<'_, '_, '_>,
    out: &mut MemSink,
    report: &mut MemSink,
) -> Result<u8, AllocError> {
    let words = all_words(alloc, call)?;
    let mut files = all_files(alloc, call)?;
    Ok(bridge(alloc, &words, &mut files, out, report).code())
}

/// What is told of a call that ended so and wrote this; the status is 255 where it wrote to the sink that isn't the status's.
fn of_sinks(alloc: Global, status: u8, out: &[u8], report: &[u8]) -> Result<Told, AllocError> {
    let is_output = status == 0 || status == 6;
    let (written, other) = if is_output {
        (out, report)
    } else {
        (report, out)
    };
    Ok(Told {
        status: if other.is_empty() { status } else { 255 },
        written: Vec::from_slice(alloc, written)?,
    })
}

fn try_told(alloc: Global, call: &Call<'_, '_, '_>) -> Result<Told, AllocError> {
    let mut out = sink(alloc, piece(&call.faults), call.faults[1])?;
    let mut report = sink(alloc, 1000, call.faults[2])?;
    let status = run(alloc, call, &mut out, &mut report)?;
    of_sinks(alloc, status, out.bytes(), report.bytes())
}

/// What is told of the call; the status is 255 where there is no memory for it.
pub(crate) fn called(alloc: Global, call: &Call<'_, '_, '_>) -> Told {
    match try_told(alloc, call) {
        Ok(told) => told,
        Err(_) => Told {
            status: 255,
            written: Vec::new(alloc),
        },
    }
}

/// What is told of a call with these words and options over the files `m` and `s`.
pub(crate) fn over<'w, 'o, 'f>(
    alloc: Global,
    words: &'w [&'w str],
    options: &'o [&'o str],
    module: &'f [u8],
    script: &'f [u8],
) -> Told {
    let files = [("m", module), ("s", script)];
    let call = Call {
        words,
        options,
        files: &files,
        faults: NO_FAULTS,
    };
    called(alloc, &call)
}

/// Calls with these words end as the rows say.
pub(crate) fn all_end<'w>(rt: &impl Abort, alloc: Global, words: &'w [&'w str], rows: &[End]) {
    for (number, (module, script, status, written)) in rows.iter().enumerate() {
        let told = over(alloc, words, &[], module, script);
        holds(rt, number, told.is(*status, written));
    }
}

/// Calls with these words print the rows' sessions.
pub(crate) fn all_print<'w>(rt: &impl Abort, alloc: Global, words: &'w [&'w str], rows: &[Row]) {
    for (number, row) in rows.iter().enumerate() {
        let told = over(alloc, words, row.options, row.module, row.script);
        holds(rt, number, told.is(0, row.printed));
    }
}
