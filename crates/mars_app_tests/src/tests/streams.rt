//! Streams that fail or break off.

use super::{answer, memory_files, run_args};
use mars_app::Streams;
use std::alloc::Global;
use std::io;
use std::io::{ErrorKind, Read, Write};
use std::process::Abort;
use std::test::Fail;

/// Returns the status of a run over the files of the tests.
fn run_over<R: Read, W: Write, E: Write>(
    alloc: Global,
    words: &[&str],
    streams: &mut Streams<R, W>,
    faults: &mut E,
) -> Result<u8, Fail> {
    let files = memory_files(alloc)?;
    let status = run_args(alloc, &files, words, streams, faults);
    drop(files);
    status
}

/// Returns streams with an empty input and this output.
fn unread<W: Write>(output: W) -> Streams<&'static [u8], W> {
    Streams { input: b"", output }
}

/// A writer that counts its writes.
#[derive(Drop)]
struct Counted {
    bytes: Vec<u8>,
    writes: u32,
}

impl Write for Counted {
    fn write(&mut self, buf: &[u8]) -> io::Result<usize> {
        self.bytes.extend_from_slice(buf)?;
        self.writes = self.writes.saturating_add(1);
        Ok(buf.len())
    }

    fn flush(&mut self) -> io::Result<()> {
        Ok(())
    }
}

#[test]
fn a_fault_is_one_line_and_one_write(rt: HostRuntime) -> Result<(), Fail> {
    let alloc = rt.alloc();
    let words = ["-b", "no\nsuch\x1b[1m file\x7f\u{80}\u{9f}\u{a0}.red"];
    let mut streams = unread(Vec::new(alloc));
    let mut faults = Counted {
        bytes: Vec::new(alloc),
        writes: 0,
    };
    let status = run_over(alloc, &words, &mut streams, &mut faults)?;
    assert_eq!(rt; status, 1);
    assert_eq!(rt; faults.writes, 1);
    let line = "mars: no?such?[1m file???\u{a0}.red: cannot read\n".as_bytes();
    assert!(rt; faults.bytes.as_slice() == line);
    Ok(())
}

/// A stream that always fails.
#[derive(Drop)]
struct Broken;

impl Read for Broken {
    fn read(&mut self, _buf: &mut [u8]) -> io::Result<usize> {
        Err(io::Error::from(ErrorKind::TimedOut))
    }
}

impl Write for Broken {
    fn write(&mut self, _buf: &[u8]) -> io::Result<usize> {
        Err(io::Error::from(ErrorKind::TimedOut))
    }

    fn flush(&mut self) -> io::Result<()> {
        Ok(())
    }
}

const IMP_DEBUGGED: [&str; 8] = ["-e", "-s", "8", "-l", "1", "-d", "1", "imp.load"];

#[test]
fn broken_streams(rt: HostRuntime) -> Result<(), Fail> {
    let alloc = rt.alloc();
    let mut faults = Vec::new(alloc);
    let mut streams = Streams {
        input: Broken,
        output: Vec::new(alloc),
    };
    let status = run_over(alloc, &IMP_DEBUGGED, &mut streams, &mut faults)?;
    assert_eq!(rt; status, 1);
    assert!(rt; faults.as_slice() == b"mars: cannot read the commands\n".as_slice());
    faults.clear();
    let mut streams = Streams {
        input: b"step\n".as_slice(),
        output: Broken,
    };
    let status = run_over(alloc, &IMP_DEBUGGED, &mut streams, &mut faults)?;
    assert_eq!(rt; status, 1);
    assert!(rt; faults.as_slice() == b"mars: cannot write\n".as_slice());
    let mut streams = unread(Vec::new(alloc));
    let status = run_over(alloc, &["-e"], &mut streams, &mut Broken)?;
    assert_eq!(rt; status, 2);
    Ok(())
}

/// A writer that takes a number of bytes and then fails.
#[derive(Drop)]
struct Full {
    bytes: Vec<u8>,
    room: usize,
    /// Whether the writer takes no byte when it is full, instead of returning an error.
    idles: bool,
}

impl Write for Full {
    fn write(&mut self, buf: &[u8]) -> io::Result<usize> {
        let count = buf.len().min(self.room);
        if count == 0 && !self.idles && !buf.is_empty() {
            return Err(io::Error::from(ErrorKind::TimedOut));
        }
        self.bytes.extend_from_slice(&buf[..count])?;
        self.room -= count;
        Ok(count)
    }

    fn flush(&mut self) -> io::Result<()> {
        Ok(())
    }
}

/// Checks that a run with these arguments writes as much of its output as the writer has room for, and reports the error.
fn check_room(
    rt: &impl Abort,
    alloc: Global,
    words: &[&str],
    whole: &[u8],
    output: Full,
) -> Result<(), Fail> {
    let room = output.room;
    let mut faults = Vec::new(alloc);
    let mut streams = Streams {
        input: b"step\n".as_slice(),
        output,
    };
    let status = run_over(alloc, words, &mut streams, &mut faults)?;
    assert_eq!(rt; status, 1, "{words:?}");
    let line = b"mars: cannot write\n".as_slice();
    assert!(rt; faults.as_slice() == line, "{words:?}");
    assert_eq!(rt; streams.output.bytes.len(), room);
    assert!(rt; whole.starts_with(&streams.output.bytes), "{words:?}");
    Ok(())
}

/// Arguments of runs that write.
const WRITING: &[&[&str]] = &[
    &["--help"],
    &["--load", "two.load"],
    &["-c", "10", "imp.load", "stay.load"],
    &["-b", "-c", "10", "imp.load", "stay.load"],
    &["-b", "-c", "10", "--league", "imp.load", "stay.load"],
    &["-e", "imp.load"],
];

#[test]
fn output_that_breaks_off(rt: HostRuntime) -> Result<(), Fail> {
    let alloc = rt.alloc();
    for row in WRITING {
        let whole = answer(alloc, row, b"step\n")?;
        assert_eq!(rt; whole.status, 0);
        let last = whole.output.len().saturating_sub(1);
        for (room, idles) in [
            (0, false),
            (1, true),
            (20, false),
            (last, true),
            (last, false),
        ] {
            let bytes = Vec::new(alloc);
            let output = Full { bytes, room, idles };
            check_room(&rt, alloc, row, &whole.output, output)?;
        }
    }
    Ok(())
}

/// A reader that returns its bytes two at a time and then fails.
#[derive(Drop)]
struct CutOff<'a> {
    rest: &'a [u8],
}

impl Read for CutOff<'_> {
    fn read(&mut self, buf: &mut [u8]) -> io::Result<usize> {
        if self.rest.is_empty() {
            return Err(io::Error::from(ErrorKind::TimedOut));
        }
        let count = buf.len().min(self.rest.len()).min(2);
        let (front, rest) = self.rest.split_at(count);
        buf[..count].copy_from_slice(front);
        self.rest = rest;
        Ok(count)
    }
}

/// Returns the complete lines of an input, without the last LF.
fn whole_lines(came: &[u8]) -> &[u8] {
    match came.iter().rposition(|byte| *byte == b'\n') {
        Some(last) => &came[..last],
        None => &came[..0],
    }
}

/// Checks that the complete lines are executed if the read after `came` fails.
fn check_came(rt: &impl Abort, alloc: Global, came: &[u8]) -> Result<(), Fail> {
    let expected = answer(alloc, &IMP_DEBUGGED, whole_lines(came))?;
    let mut faults = Vec::new(alloc);
    let mut streams = Streams {
        input: CutOff { rest: came },
        output: Vec::new(alloc),
    };
    let status = run_over(alloc, &IMP_DEBUGGED, &mut streams, &mut faults)?;
    let end = came.len();
    assert_eq!(rt; status, 1, "{end}");
    let line = b"mars: cannot read the commands\n".as_slice();
    assert!(rt; faults.as_slice() == line, "{end}");
    assert!(rt;
        streams.output.as_slice() == expected.output.as_slice(),
        "{end}"
    );
    Ok(())
}

#[test]
fn input_that_breaks_off(rt: HostRuntime) -> Result<(), Fail> {
    let input = b"step\nundo\nstep";
    for (end, _) in input.iter().enumerate() {
        let (came, _) = input.split_at(end);
        check_came(&rt, rt.alloc(), came)?;
    }
    Ok(())
}
