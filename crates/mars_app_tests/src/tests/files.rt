//! Files of warriors: their sizes, files of the file system, load files, and the errors of each.

use super::{Played, answer_over, check_fault, check_played, repeat, repeated};
use mars_app::{FileFault, MemoryFiles, RunFault, SystemFiles, WarriorFiles};
use mars_core::BattleFault;
use std::alloc::Global;
use std::fs;
use std::process::Abort;
use std::test::Fail;

/// Checks that a file of `count` spaces is rejected with this line.
fn check_blanks(rt: &impl Abort, alloc: Global, count: usize, line: &[u8]) -> Result<(), Fail> {
    let blanks = vec![in alloc; b' '; count]?;
    let mut files = MemoryFiles::new(alloc);
    files.add(alloc, "blank.red", &blanks)?;
    let answer = answer_over(alloc, &files, &["blank.red"], b"");
    drop(files);
    let answer = answer?;
    assert_eq!(rt; answer.status, 1);
    assert!(rt; answer.faults.as_slice() == line);
    Ok(())
}

#[test]
fn files_of_as_many_bytes_as_are_allowed(rt: HostRuntime) -> Result<(), Fail> {
    let alloc = rt.alloc();
    check_blanks(&rt, alloc, 1_048_576, b"mars: blank.red: line 0: 7 Empty\n")?;
    check_blanks(&rt, alloc, 1_048_577, b"mars: blank.red: too large\n")
}

/// Returns the content of a file of the file system, which is created for the test and removed after it.
fn read_system_file(
    rt: &HostRuntime,
    name: &str,
    size: usize,
    limit: usize,
) -> Result<Result<Vec<u8>, FileFault>, Fail> {
    let bytes = vec![in rt.alloc(); b'x'; size]?;
    fs::write(rt, name, bytes.as_slice())?;
    let read = SystemFiles(rt).read(rt.alloc(), name, limit);
    fs::remove_file(rt, name)?;
    Ok(read)
}

#[test]
fn files_of_the_system(rt: HostRuntime) -> Result<(), Fail> {
    let name = "a file of the test.red";
    for size in [0, 1, 4096, 4097, 70_000] {
        let bytes = read_system_file(&rt, name, size, size)?;
        assert_eq!(rt; bytes.map(|bytes| bytes.len()), Ok(size));
    }
    let larger = read_system_file(&rt, name, 4098, 4097)?;
    assert_eq!(rt; larger.err(), Some(FileFault::TooLarge));
    let files = SystemFiles(&rt);
    for name in ["no such file.red", "."] {
        let fault = files.read(rt.alloc(), name, 4097).err();
        assert_eq!(rt; fault, Some(FileFault::CannotRead));
    }
    Ok(())
}

const LOAD_FILES: &[Played] = &[
    (
        &["--load", "two.load"],
        b"",
        b";load 2 8000\n;name Unknown\n;author Anonymous\nORG 0\nNOP.F $0, $0\nNOP.F $0, $0\n",
    ),
    (
        &["--load", "dwarf.red"],
        b"",
        b";load 2 8000\n;name Unknown\n;author Anonymous\nORG 0\nADD.AB #4, $3\nMOV.I $2, @2\nJMP.B $-2, $0\nDAT.F #0, #0\n",
    ),
];

#[test]
fn load_files(rt: HostRuntime) -> Result<(), Fail> {
    check_played(&rt, rt.alloc(), LOAD_FILES)
}

/// Checks the load file of this source.
fn check_load_file(
    rt: &impl Abort,
    alloc: Global,
    source: &[u8],
    expected: &[u8],
) -> Result<(), Fail> {
    let mut files = MemoryFiles::new(alloc);
    files.add(alloc, "long.red", source)?;
    let words = ["--load", "-l", "300", "-d", "300", "long.red"];
    let answer = answer_over(alloc, &files, &words, b"");
    drop(files);
    let answer = answer?;
    assert_eq!(rt; answer.status, 0);
    assert!(rt; answer.output.as_slice() == expected);
    Ok(())
}

const HEAD: &[u8] = b";load 2 8000\n;name Unknown\n;author Anonymous\nORG 0\n";

#[test]
fn a_load_file_of_more_than_4096_bytes(rt: HostRuntime) -> Result<(), Fail> {
    let alloc = rt.alloc();
    let source = repeated(alloc, b"NOP 9, 10\n", 300)?;
    let mut text = Vec::from_slice(alloc, HEAD)?;
    repeat(&mut text, b"NOP.F $9, $10\n", 300)?;
    check_load_file(&rt, alloc, &source, &text)
}

/// The load file was written for a core of 8 cells.
const ANOTHER_CORE: &[Played] = &[
    (
        &["--load", "-s", "8", "-l", "1", "-d", "1", "named.load"],
        b"",
        b";load 2 8\n;name Imp\n;author Dewdney\nORG 0\nMOV.I $0, $-1\n",
    ),
    (
        &["--load", "named.load"],
        b"",
        b";load 2 8000\n;name Imp\n;author Dewdney\nORG 0\nMOV.I $0, $-1\n",
    ),
    (
        &["-c", "10", "named.load"],
        b"",
        b"warrior 0: Imp by Dewdney, 1 instructions
;load 2 8000
;name Imp
;author Dewdney
ORG 0
MOV.I $0, $-1

  points   wins   ties losses  warrior
       0      0      0      1  Imp by Dewdney
",
    ),
];

#[test]
fn a_load_file_of_another_core(rt: HostRuntime) -> Result<(), Fail> {
    check_played(&rt, rt.alloc(), ANOTHER_CORE)
}

const FAULTS: &[(&[&str], u8, &[u8])] = &[
    (
        &["-e", "-s", "50", "--score", "1+", "imp.load"],
        2,
        b"mars: parameters 5 Length\n",
    ),
    (
        &["-e", "-s", "50", "imp.load"],
        2,
        b"mars: parameters 5 Length\n",
    ),
    (
        &["-e", "-l", "200", "imp.load"],
        2,
        b"mars: parameters 6 Distance\n",
    ),
    (
        &["-e", "--read-limit", "8001", "imp.load"],
        2,
        b"mars: parameters 4 Limit\n",
    ),
    (
        &["--score", "1+", "imp.load"],
        2,
        b"mars: formula 1 Expression 1 Syntax\n",
    ),
    (
        &["-e", "--score", "Q", "no.load"],
        2,
        b"mars: formula 1 Expression 2 Unknown\n",
    ),
    (
        &["-b", "-s", "199", "imp.load", "stay.load"],
        1,
        b"mars: placement 1 NoRoom\n",
    ),
    (
        &[
            "-b",
            "--score",
            "1/(S-2)",
            "-c",
            "10",
            "imp.load",
            "stay.load",
        ],
        1,
        b"mars: score 3 DivideByZero\n",
    ),
    (
        &["-e", "-s", "199", "imp.load", "stay.load"],
        1,
        b"mars: placement 1 NoRoom\n",
    ),
    (&["-e", "no.load"], 1, b"mars: no.load: cannot read\n"),
    (
        &["-b", "k\u{e4}fer.red"],
        1,
        b"mars: k\xc3\xa4fer.red: cannot read\n",
    ),
    (
        &[
            "-b",
            "longlonglonglonglonglonglonglonglonglonglonglonglonglonglonglonglonglonglonglonglonglonglonglonglonglonglonglonglonglonglonglonglonglonglonglonglonglonglonglonglonglonglonglonglonglonglonglonglonglonglonglonglonglonglonglonglonglonglonglonglonglonglonglonglonglonglonglonglonglonglonglonglonglonglong.red",
        ],
        1,
        b"mars: longlonglonglonglonglonglonglonglonglonglonglonglonglonglonglonglonglonglonglonglonglonglonglonglonglonglonglonglonglonglonglonglonglonglonglonglonglonglonglonglonglonglonglonglonglonglonglonglonglonglonglonglonglonglonglonglonglonglonglonglonglonglonglonglonglonglonglonglonglonglonglonglonglonglong.red: cannot read\n",
    ),
    (
        &["-e", "half.load"],
        1,
        b"mars: half.load: line 1: load 1 Syntax\n",
    ),
    (
        &["-e", "-l", "1", "two.load"],
        1,
        b"mars: two.load: line 0: load 2 TooLong\n",
    ),
    (
        &["-e", "empty.load"],
        1,
        b"mars: empty.load: line 0: load 3 Empty\n",
    ),
    (
        &["-e", "far.load"],
        1,
        b"mars: far.load: line 0: load 4 BadOrigin\n",
    ),
    (
        &["--load", "future.load"],
        1,
        b"mars: future.load: line 0: load 6 Version\n",
    ),
    (
        &["-b", "headless.load"],
        1,
        b"mars: headless.load: line 2: load 1 Syntax\n",
    ),
];

#[test]
fn faults(rt: HostRuntime) -> Result<(), Fail> {
    for (words, status, line) in FAULTS {
        check_fault(&rt, rt.alloc(), words, *status, line)?;
    }
    Ok(())
}

const FAULTS_OF_SOURCES: &[(&[&str], &[u8])] = &[
    (
        &["open.red"],
        b"mars: open.red: line 2: 1 Text 3 UnclosedFor\n",
    ),
    (
        &["zero.red"],
        b"mars: zero.red: line 1: 1 Text 10 Expression 3 DivideByZero\n",
    ),
    (&["words.red"], b"mars: words.red: line 3: 2 Operation\n"),
    (&["bare.red"], b"mars: bare.red: line 1: 3 Operand\n"),
    (
        &["sum.red"],
        b"mars: sum.red: line 1: 4 Expression 1 Syntax\n",
    ),
    (
        &["-s", "1", "-l", "1", "-d", "1", "sized.red"],
        b"mars: sized.red: line 1: 5 AssertFailed\n",
    ),
    (&["far.red"], b"mars: far.red: line 1: 6 BadOrigin\n"),
    (&["none.red"], b"mars: none.red: line 0: 7 Empty\n"),
    (
        &["-l", "1", "two.red"],
        b"mars: two.red: line 2: 8 TooLong\n",
    ),
    (
        &["-r", "3", "pair.red"],
        b"mars: pair.red: line 1: 5 AssertFailed\n",
    ),
    (
        &["-r", "2", "pair.red", "pair.red"],
        b"mars: pair.red: line 1: 5 AssertFailed\n",
    ),
];

#[test]
fn faults_of_sources(rt: HostRuntime) -> Result<(), Fail> {
    for (words, line) in FAULTS_OF_SOURCES {
        check_fault(&rt, rt.alloc(), words, 1, line)?;
    }
    Ok(())
}

const FIRST_FAULTS: &[(&[&str], &[u8])] = &[
    (&["imp.red", "no.red"], b"mars: no.red: cannot read\n"),
    (
        &["bare.red", "no.red"],
        b"mars: bare.red: line 1: 3 Operand\n",
    ),
    (&["no.red", "bare.red"], b"mars: no.red: cannot read\n"),
];

#[test]
fn the_first_fault_of_several_files(rt: HostRuntime) -> Result<(), Fail> {
    for (words, line) in FIRST_FAULTS {
        check_fault(&rt, rt.alloc(), words, 1, line)?;
    }
    Ok(())
}

#[test]
fn lines_of_faults_that_no_words_bring_about(rt: HostRuntime) -> Result<(), Fail> {
    let memory = format!(in rt.alloc(); "{}", RunFault::OutOfMemory)?;
    assert_eq!(rt; memory.as_str(), "mars: out of memory");
    let battle = format!(in rt.alloc(); "{}", RunFault::Battle(BattleFault::Overlap))?;
    assert_eq!(rt; battle.as_str(), "mars: battle 3 Overlap");
    Ok(())
}
