//! Runs over files in memory.
//!
//! Functions borrow the files, and then the files are passed to `drop`. If they went out of scope implicitly, how they
//! are dropped would be proved again for each such body.

mod battles;
mod contests;
mod debugger;
mod files;
mod streams;
mod words;

use mars_app::{MemoryFiles, Streams, run};
use std::alloc::Global;
use std::io::{Read, Write};
use std::process::Abort;
use std::test::Fail;

const IMP: &[u8] = b"ORG 0\nMOV.I $0, $1\n";

const DWARF: &[u8] = b"ADD #4, 3\nMOV 2, @2\nJMP -2\nDAT #0, #0\n";

/// The result of a run: its status, and what it wrote.
#[derive(Drop)]
struct Outcome {
    status: u8,
    output: Vec<u8>,
    faults: Vec<u8>,
}

fn words_of(alloc: Global, words: &[&str]) -> Result<Vec<String>, Fail> {
    let mut all = Vec::new(alloc);
    for word in words {
        all.push(String::from_str(alloc, word)?)?;
    }
    Ok(all)
}

/// Appends a text `count` times.
fn repeat(all: &mut Vec<u8>, text: &[u8], count: u32) -> Result<(), Fail> {
    for _ in 0..count {
        all.extend_from_slice(text)?;
    }
    Ok(())
}

/// Returns a text, repeated `count` times.
fn repeated(alloc: Global, text: &[u8], count: u32) -> Result<Vec<u8>, Fail> {
    let mut all = Vec::new(alloc);
    repeat(&mut all, text, count)?;
    Ok(all)
}

const FILES: &[(&str, &[u8])] = &[
    ("imp.load", IMP),
    ("stay.load", b"JMP 0, 0"),
    ("dead.load", b"DAT 0, 0"),
    ("half.load", b"MOV 0"),
    ("two.load", b"NOP 0, 0\nNOP 0, 0"),
    ("empty.load", b""),
    ("far.load", b"ORG 1\nNOP 0, 0"),
    ("future.load", b";load 3 8000\nNOP 0, 0\n"),
    (
        "headless.load",
        b";load 2 8\n;author Dewdney\nORG 0\nMOV.I $0, $7\n",
    ),
    ("named.load", NAMED),
    ("imp.red", b";name Imp\n;author Dewdney\nMOV 0, 1\n"),
    ("stay.red", b";name Stay\nJMP 0\n"),
    ("dead.red", b";name Dead\nDAT 0, 0\n"),
    ("dwarf.red", DWARF),
    ("sized.red", b";assert CORESIZE==8000\nADD.F }0, {0\n"),
    ("pair.red", b";assert WARRIORS == 2 && ROUNDS == 3\nNOP\n"),
    ("open.red", b"NOP\nFOR 2\nNOP\n"),
    ("zero.red", b"FOR 1/0\nROF\n"),
    ("far.red", b"ORG 4\nNOP\n"),
    ("words.red", b"NOP\nNOP\nHOP 1\n"),
    ("bare.red", b"JMP"),
    ("sum.red", b"JMP 1+"),
    ("none.red", b"; nothing"),
    ("two.red", b"NOP\nNOP"),
    ("given.red", GIVEN),
    ("least.red", LEAST),
    ("greatest.red", GREATEST),
    ("limited.load", LIMITED),
];

fn add_files(alloc: Global, files: &mut MemoryFiles) -> Result<(), Fail> {
    for (name, bytes) in FILES {
        files.add(alloc, name, bytes)?;
    }
    Ok(())
}

fn memory_files(alloc: Global) -> Result<MemoryFiles, Fail> {
    let mut files = MemoryFiles::new(alloc);
    add_files(alloc, &mut files)?;
    Ok(files)
}

/// A load file that was written for a core of 8 cells, in which 7 addresses the cell before.
const NAMED: &[u8] = b";load 2 8\n;name Imp\n;author Dewdney\nORG 0\nMOV.I $0, $7\n";

/// The read limit of 4 folds the offset 3 to -1; the write limit of 8 leaves it as it is.
const LIMITED: &[u8] = b"MOV.A {3, $1\nDAT 0, 0\nDAT 0, 0\nDAT.F $2, $0\n";

/// Asserts the defaults of the parameters.
const GIVEN: &[u8] = b";assert CORESIZE==8000 && MAXPROCESSES==8000 && MAXCYCLES==80000
;assert MAXLENGTH==100 && MINDISTANCE==100 && ROUNDS==1 && WARRIORS==1
NOP
";

/// Asserts the minimum of each parameter.
const LEAST: &[u8] = b";assert CORESIZE==1 && MAXPROCESSES==1 && MAXCYCLES==1
;assert MAXLENGTH==1 && MINDISTANCE==1 && ROUNDS==1
NOP
";

/// Asserts the maximum of each parameter.
const GREATEST: &[u8] = b";assert CORESIZE==1048576 && MAXPROCESSES==65536 && MAXCYCLES==10000000
;assert MAXLENGTH==1048576 && MINDISTANCE==1048576 && ROUNDS==100000
NOP
";

/// Returns the status of a run over these files.
fn run_args<R: Read, W: Write, E: Write>(
    alloc: Global,
    files: &MemoryFiles,
    words: &[&str],
    streams: &mut Streams<R, W>,
    faults: &mut E,
) -> Result<u8, Fail> {
    let words = words_of(alloc, words)?;
    let status = run(alloc, words.as_slice(), files, streams, faults);
    drop(words);
    Ok(status)
}

fn answer(alloc: Global, words: &[&str], input: &[u8]) -> Result<Outcome, Fail> {
    let files = memory_files(alloc)?;
    let answer = answer_over(alloc, &files, words, input);
    drop(files);
    answer
}

fn answer_over(
    alloc: Global,
    files: &MemoryFiles,
    words: &[&str],
    input: &[u8],
) -> Result<Outcome, Fail> {
    let output = Vec::new(alloc);
    let mut streams = Streams { input, output };
    let mut faults = Vec::new(alloc);
    let status = run_args(alloc, files, words, &mut streams, &mut faults)?;
    Ok(Outcome {
        status,
        output: streams.output,
        faults,
    })
}

fn check_output(
    rt: &impl Abort,
    alloc: Global,
    words: &[&str],
    input: &[u8],
    output: &[u8],
) -> Result<(), Fail> {
    let answer = answer(alloc, words, input)?;
    assert_eq!(rt; answer.status, 0, "{words:?}");
    assert!(rt; answer.output.as_slice() == output, "{words:?}");
    assert!(rt; answer.faults.is_empty(), "{words:?}");
    Ok(())
}

/// Arguments, the input, and the output of a run with status 0.
type Played = (&'static [&'static str], &'static [u8], &'static [u8]);

/// Checks that each run has status 0 and writes exactly this output.
fn check_played(rt: &impl Abort, alloc: Global, runs: &[Played]) -> Result<(), Fail> {
    for (words, input, output) in runs {
        check_output(rt, alloc, words, input, output)?;
    }
    Ok(())
}

fn check_fault(
    rt: &impl Abort,
    alloc: Global,
    words: &[&str],
    status: u8,
    line: &[u8],
) -> Result<(), Fail> {
    let answer = answer(alloc, words, b"step\n")?;
    assert_eq!(rt; answer.status, status, "{words:?}");
    assert!(rt; answer.faults.as_slice() == line, "{words:?}");
    assert!(rt; answer.output.is_empty(), "{words:?}");
    Ok(())
}

/// Checks that each run has status 0.
fn check_success(rt: &impl Abort, alloc: Global, runs: &[&[&str]]) -> Result<(), Fail> {
    for words in runs {
        let answer = answer(alloc, words, b"show\n")?;
        assert_eq!(rt; answer.status, 0, "{words:?}");
    }
    Ok(())
}
