use crate::rows::{holds, made};
use bridge_io::*;
use std::alloc::Global;
use std::test::Fail;

/// A gather of at most so many bytes of a file ends so.
fn gathers<F: Files>(
    alloc: Global,
    files: &mut F,
    name: &str,
    most: u8,
    wanted: Result<&[u8], GatherFault>,
) -> bool {
    match (gather(alloc, files, name, u64::from(most)), wanted) {
        (Ok(bytes), Ok(wanted)) => bytes.as_slice() == wanted,
        (Err(fault), Err(wanted)) => fault == wanted,
        _ => false,
    }
}

#[test]
fn a_listed_read_ends_a_gather(rt: HostRuntime) {
    let alloc = rt.alloc();
    let mut files = MemFiles::new(alloc);
    holds(&rt, 0, files.add("a", b"old").is_ok());
    holds(&rt, 1, files.add("a", b"new!").is_ok());
    holds(&rt, 2, files.fail_at(2).is_ok());
    holds(
        &rt,
        3,
        gathers(alloc, &mut files, "a", 9, Err(GatherFault::Read)),
    );
    holds(&rt, 4, gathers(alloc, &mut files, "a", 9, Ok(b"new!")));
}

/// The name of a file, how many bytes of it are gathered at most, and the end of that.
type Gather = (&'static str, u8, Result<&'static [u8], GatherFault>);

static OF_FIVE_BYTES: [Gather; 3] = [
    ("none", 4, Err(GatherFault::Missing)),
    ("long", 4, Err(GatherFault::TooLarge)),
    ("long", 5, Ok(b"12345")),
];

#[test]
fn a_file_fits_the_limit_or_is_too_large(rt: HostRuntime) {
    let mut files = SteadyFiles::new(rt.alloc());
    holds(&rt, 3, files.add("long", b"12345").is_ok());
    for (number, (name, most, wanted)) in OF_FIVE_BYTES.iter().enumerate() {
        holds(
            &rt,
            number,
            gathers(rt.alloc(), &mut files, name, *most, *wanted),
        );
    }
}

/// The write of these bytes fails, and then the sink holds so many.
fn fails(sink: &mut MemSink, bytes: &[u8], held: &[u8]) -> bool {
    put_all(sink, bytes).is_err() && sink.bytes() == held
}

#[test]
fn a_listed_write_leaves_a_front(rt: HostRuntime) {
    let mut sink = made(&rt, MemSink::new(rt.alloc(), 8, 1));
    holds(&rt, 0, sink.fail_at(2).is_ok());
    holds(&rt, 1, fails(&mut sink, b"xyz", b"x"));
    holds(&rt, 2, fails(&mut sink, b"12345678", b"x1234567"));
}

#[test]
fn a_steady_sink_takes_all(rt: HostRuntime) -> Result<(), Fail> {
    let mut sink = SteadySink::new(rt.alloc(), 1, 2)?;
    // That there is room is what `put_all` asks.
    sink.ready(3)?;
    holds(&rt, 0, put_all(&mut sink, b"xyz").is_ok());
    holds(&rt, 1, sink.bytes() == b"xyz".as_slice());
    Ok(())
}
