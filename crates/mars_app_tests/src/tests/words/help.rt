//! The help, and the arguments after the name of the program.
use crate::tests::{Outcome, answer, check_fault, memory_files};
use mars_app::{Streams, start};
use std::alloc::Global;
use std::env::{Env, FillError};
use std::test::Fail;

/// The whole help.
const HELP: &str =
    "Core War: run matches and leagues of warriors, and debug battles forwards and backwards

Usage: mars [OPTIONS] <FILE>...

Arguments:
  <FILE>...  1 to 16 warriors: Redcode sources, or load files (.load)

Match:
  -r <N>                 Number of rounds, 1 to 100000 [default: 1]
  -F <N>                 Position of warrior 2, from the minimum distance to the core size minus it
      --seed <N>         Seed for the starting positions, 1 to 2147483646 [default: 1]
      --score <FORMULA>  Score of each survivor, with W warriors and S survivors [default: (W*W-1)/S]
      --league           Run a league: every pair of warriors plays a match

Core:
  -s <N>                 Core size, 1 to 1048576 [default: 8000]
  -c <N>                 Cycle limit, 1 to 10000000 [default: 80000]
  -p <N>                 Process limit, 1 to 65536 [default: 8000]
  -l <N>                 Maximum length of a warrior, 1 to the core size [default: 100]
  -d <N>                 Minimum distance, from the maximum length to the core size [default: 100]
      --read-limit <N>   Read limit, 1 to the core size [default: core size]
      --write-limit <N>  Write limit, 1 to the core size [default: core size]

Debugger:
  -e                 Debug the first round with commands from standard input
      --history <N>  Size of the debugger's history, 1 to 1000000 places [default: 200000]

Output:
  -b          Omit the listing of the warriors
  -o          Sort the results by points
      --load  Assemble one warrior and print its load file
      --help  Print this help

-e, --league and --load exclude each other. -F requires two warriors and no league.

Debugger commands, one per line:
  step, run N, until C, undo, redo, goto T
  edit A CELL, fill A B CELL, move W I A, kill W I, spawn W A
  list A N, queue W, show, quit

Exit status: 0 success, 1 error in input or files, 2 usage error.

Example: mars -r 100 -b -o imp.red dwarf.red
See README.md and docs/user/REFERENCE.md; `corewar explain` explains errors.
";

#[test]
fn help(rt: HostRuntime) -> Result<(), Fail> {
    let answer = answer(rt.alloc(), &["--help"], b"")?;
    assert_eq!(rt; answer.status, 0);
    assert!(rt; answer.faults.is_empty());
    assert!(rt; answer.output.as_slice() == HELP.as_bytes());
    // An invalid argument or a number out of its range before `--help` is reported first.
    for word in ["x", "0", "100001"] {
        check_fault(
            &rt,
            rt.alloc(),
            &["-r", word, "--help"],
            2,
            b"mars: bad words\n",
        )?;
    }
    Ok(())
}

/// An environment with these arguments, of which the first is the program's name, and without variables.
#[derive(Drop)]
struct Arguments(&'static [&'static [u8]]);

impl Env for Arguments {
    fn arg(&self, i: usize, buf: &mut [u8]) -> Result<usize, FillError> {
        let Some(argument) = self.0.get(i) else {
            return Err(FillError::NotPresent);
        };
        if argument.len() > buf.len() {
            return Err(FillError::TooLong);
        }
        buf[..argument.len()].copy_from_slice(argument);
        Ok(argument.len())
    }

    fn var(&self, _name: &str, _buf: &mut [u8]) -> Result<usize, FillError> {
        Err(FillError::NotPresent)
    }

    fn var_at(&self, _i: usize, _buf: &mut [u8]) -> Result<usize, FillError> {
        Err(FillError::NotPresent)
    }
}

/// Runs a program that is started with these arguments, and returns its result.
fn started(alloc: Global, arguments: &'static [&'static [u8]]) -> Result<Outcome, Fail> {
    let (input, output) = (b"".as_slice(), Vec::new(alloc));
    let mut streams = Streams { input, output };
    let mut faults = Vec::new(alloc);
    let files = memory_files(alloc)?;
    let environment = Arguments(arguments);
    let status = start(alloc, &environment, &files, &mut streams, &mut faults);
    drop(files);
    Ok(Outcome {
        status,
        output: streams.output,
        faults,
    })
}

/// Arguments, the exit status, the output and the line of the error.
type Start = (&'static [&'static [u8]], u8, &'static [u8], &'static [u8]);

/// The program's name need not be text and is no argument. Each argument must be text, and every argument is read.
const STARTS: &[Start] = &[
    (
        &[b"\xff", b"--load", b"imp.load"],
        0,
        b";load 2 8000\n;name Unknown\n;author Anonymous\nORG 0\nMOV.I $0, $1\n",
        b"",
    ),
    (
        &[b"mars", b"imp.load", b"\xff"],
        2,
        b"",
        b"mars: bad words\n",
    ),
    (
        &[
            b"mars",
            b"-r",
            b"1",
            b"--seed",
            b"1",
            b"--score",
            b"W",
            b"-s",
            b"8000",
            b"-c",
            b"10",
            b"-p",
            b"2",
            b"-l",
            b"1",
            b"-d",
            b"1",
            b"--read-limit",
            b"8",
            b"--write-limit",
            b"8",
            b"--history",
            b"5",
            b"-b",
            b"-o",
            b"--league",
            b"imp.load",
            b"imp.load",
            b"imp.load",
            b"imp.load",
            b"imp.load",
            b"imp.load",
            b"imp.load",
            b"imp.load",
            b"imp.load",
            b"imp.load",
            b"imp.load",
            b"imp.load",
            b"imp.load",
            b"imp.load",
            b"imp.load",
            b"none.load",
        ],
        1,
        b"",
        b"mars: none.load: cannot read\n",
    ),
    (&[b"--help"], 2, b"", b"mars: bad words\n"),
];

#[test]
fn words_after_the_program(rt: HostRuntime) -> Result<(), Fail> {
    for (arguments, status, output, faults) in STARTS {
        let answer = started(rt.alloc(), arguments)?;
        let written = (answer.output.as_slice(), answer.faults.as_slice());
        let is_right = answer.status == *status && written == (*output, *faults);
        drop(answer);
        assert!(&rt; is_right, "{status}");
    }
    Ok(())
}
