//! The arguments of the program: which are accepted, their defaults and ranges, and the help.

use super::{Played, answer, check_fault, check_played, check_success};
use std::alloc::Global;
use std::process::Abort;
use std::test::Fail;

mod help;

const BAD_WORDS: &[&[&str]] = &[
    &[],
    &["-e"],
    &["-e", "-e", "imp.load"],
    &["-e", "-s", "0", "imp.load"],
    &["-e", "-s", "1048577", "imp.load"],
    &["-e", "-s", "x", "imp.load"],
    &["-e", "-s", "8", "-s", "8", "imp.load"],
    &["-e", "--read-limit", "0", "imp.load"],
    &["-e", "--write-limit", "4294967297", "imp.load"],
    &["-e", "-h", "imp.load"],
    &["-e", "-q", "imp.load"],
    &["-e", "--load", "imp.load"],
    &["--league", "imp.load"],
    &["-e", "--league", "imp.load", "stay.load"],
    &["--league", "--load", "imp.load"],
    &["-F", "200", "--league", "imp.load", "stay.load"],
    &["--load", "imp.load", "stay.load"],
    &["-F", "99", "imp.load", "stay.load"],
    &["-F", "7901", "imp.load", "stay.load"],
    &["-F", "200", "imp.load"],
    &["-r", "100001", "imp.load"],
    &["--seed", "2147483647", "imp.load"],
];

#[test]
fn bad_words(rt: HostRuntime) -> Result<(), Fail> {
    for row in BAD_WORDS {
        check_fault(&rt, rt.alloc(), row, 2, b"mars: bad words\n")?;
    }
    Ok(())
}

/// Options, each with a number below its range and one above it.
const OUT_OF_RANGE: &[(&str, &str, &str)] = &[
    ("-r", "0", "100001"),
    ("-s", "0", "1048577"),
    ("-c", "0", "10000001"),
    ("-p", "0", "65537"),
    ("-l", "0", "1048577"),
    ("-d", "0", "1048577"),
    ("--seed", "0", "2147483647"),
    ("--read-limit", "0", "1048577"),
    ("--write-limit", "0", "1048577"),
    ("--history", "0", "1000001"),
];

#[test]
fn numbers_out_of_their_ranges(rt: HostRuntime) -> Result<(), Fail> {
    for (word, below, above) in OUT_OF_RANGE {
        for number in [below, above] {
            let words = ["-e", word, number, "imp.load"];
            check_fault(&rt, rt.alloc(), &words, 2, b"mars: bad words\n")?;
        }
    }
    Ok(())
}

/// Checks that the arguments are accepted: the only warrior asserts their values, and its load file is written.
fn check_taken(rt: &impl Abort, alloc: Global, words: &[&str]) -> Result<(), Fail> {
    let answer = answer(alloc, words, b"")?;
    assert_eq!(rt; answer.status, 0);
    assert!(rt; answer.output.as_slice().starts_with(b";load 2 "));
    assert!(rt;
        answer
            .output
            .as_slice()
            .ends_with(b"\nORG 0\nNOP.F $0, $0\n")
    );
    Ok(())
}

const DEFAULT_LIMITS: &[Played] = &[
    // The limits are the core size, so neither a read nor a write at half the core is folded.
    (
        &["-e", "imp.load"],
        b"edit 0 MOV.I $4000, $1\nedit 4000 NOP.F $1, $1\nstep\nlist 1 1\nedit 2 MOV.I $7999, $4000\nstep\nstep\nlist 4002 1\n",
        b"turn 0 cycle 0 next 0 alive 1 at 1/1
turn 0 cycle 0 next 0 alive 1 at 2/2
turn 1 cycle 1 next 0 alive 1 at 3/3
1 NOP.F $1, $1
turn 1 cycle 1 next 0 alive 1 at 4/4
turn 2 cycle 2 next 0 alive 1 at 5/5
turn 3 cycle 3 next 0 alive 1 at 6/6
4002 NOP.F $1, $1
",
    ),
    // The history keeps 200,000 places beside the last one.
    (
        &["-e", "-c", "300000", "imp.load"],
        b"run 200001\ngoto 0\n",
        b"turn 200001 cycle 200001 next 0 alive 1 at 200000/200000
refused 12 NotInHistory 1 200001
",
    ),
];

#[test]
fn parameters_that_hold_where_no_word_gives_another(rt: HostRuntime) -> Result<(), Fail> {
    check_taken(&rt, rt.alloc(), &["--load", "given.red"])?;
    check_played(&rt, rt.alloc(), DEFAULT_LIMITS)
}

const LEAST_WORDS: &[&str] = &[
    "--load",
    "-r",
    "1",
    "-s",
    "1",
    "-c",
    "1",
    "-p",
    "1",
    "-l",
    "1",
    "-d",
    "1",
    "--seed",
    "1",
    "--read-limit",
    "1",
    "--write-limit",
    "1",
    "--history",
    "1",
    "least.red",
];

const GREATEST_WORDS: &[&str] = &[
    "--load",
    "-r",
    "100000",
    "-s",
    "1048576",
    "-c",
    "10000000",
    "-p",
    "65536",
    "-l",
    "1048576",
    "-d",
    "1048576",
    "--seed",
    "2147483646",
    "--read-limit",
    "1048576",
    "--write-limit",
    "1048576",
    "--history",
    "1000000",
    "greatest.red",
];

const MAX_HISTORY: &[Played] = &[(
    &[
        "-e",
        "--history",
        "1000000",
        "-s",
        "8",
        "-l",
        "1",
        "-d",
        "1",
        "dead.load",
    ],
    b"run 1000000\n",
    b"turn 1 cycle 0 next 0 alive 0 at 1/1\n",
)];

const LEAST_AND_GREATEST_POSITION: &[&[&str]] = &[
    &["-b", "-c", "1", "-F", "100", "imp.load", "stay.load"],
    &["-b", "-c", "1", "-F", "7900", "imp.load", "stay.load"],
];

#[test]
fn least_and_greatest_numbers(rt: HostRuntime) -> Result<(), Fail> {
    check_taken(&rt, rt.alloc(), LEAST_WORDS)?;
    check_taken(&rt, rt.alloc(), GREATEST_WORDS)?;
    check_played(&rt, rt.alloc(), MAX_HISTORY)?;
    check_success(&rt, rt.alloc(), LEAST_AND_GREATEST_POSITION)
}

const LIMITS_OF_THEIR_OWN: &[Played] = &[(
    &[
        "-e",
        "-s",
        "8",
        "-l",
        "4",
        "-d",
        "4",
        "--read-limit",
        "4",
        "--write-limit",
        "8",
        "limited.load",
    ],
    b"step\nlist 1 1\nlist 3 1\nlist 7 1\n",
    b"turn 1 cycle 1 next 0 alive 1 at 1/1
1 DAT.F $0, $0
3 DAT.F $1, $0
7 DAT.F $0, $0
",
)];

#[test]
fn reading_and_writing_have_limits_of_their_own(rt: HostRuntime) -> Result<(), Fail> {
    check_played(&rt, rt.alloc(), LIMITS_OF_THEIR_OWN)
}

const PROCESSES_AND_CYCLES: &[Played] = &[(
    &["-e", "-p", "2", "-c", "3", "stay.load"],
    b"spawn 0 1\nspawn 0 2\nundo\nrun 9\nshow\n",
    b"turn 0 cycle 0 next 0 alive 1 at 1/1
refused 7 QueueFull
turn 0 cycle 0 next 0 alive 1 at 0/1
turn 3 cycle 3 next 0 alive 1 at 3/3
turn 3 cycle 3 next 0 alive 1 at 3/3
warrior 0 processes 1
battle over
",
)];

#[test]
fn processes_and_cycles_have_limits_of_their_own(rt: HostRuntime) -> Result<(), Fail> {
    check_played(&rt, rt.alloc(), PROCESSES_AND_CYCLES)
}

#[test]
fn at_most_sixteen_files(rt: HostRuntime) -> Result<(), Fail> {
    let mut words = ["imp.load"; 17];
    check_fault(&rt, rt.alloc(), &words, 2, b"mars: bad words\n")?;
    words[0] = "-b";
    let answer = answer(rt.alloc(), &words, b"")?;
    assert_eq!(rt; answer.status, 0);
    Ok(())
}

/// The largest core, the longest listing, and a help that is requested beside a file.
const WELL: &[&[&str]] = &[
    &["-e", "-s", "1048576", "imp.load"],
    &[
        "-c", "10", "imp.load", "imp.load", "imp.load", "imp.load", "imp.load", "imp.load",
        "imp.load", "imp.load", "imp.load", "imp.load", "imp.load", "imp.load", "imp.load",
        "imp.load", "imp.load", "imp.load",
    ],
    &["imp.load", "--help"],
];

#[test]
fn what_is_large_ends_well(rt: HostRuntime) -> Result<(), Fail> {
    check_success(&rt, rt.alloc(), WELL)
}

const NUMBERS_AS_WORDS: &[&[&str]] = &[&["-e", "-s", "+8", "-l", "001", "-d", "1", "imp.load"]];

#[test]
fn numbers_as_words(rt: HostRuntime) -> Result<(), Fail> {
    check_success(&rt, rt.alloc(), NUMBERS_AS_WORDS)
}
