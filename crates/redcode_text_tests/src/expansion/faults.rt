//! The errors of sources, with their lines and tokens.
use super::{
    COPIES, LOOPS, NAMES, at, check_faults, check_no_faults, copies, fault_of, joined, located,
};
use redcode_text::{ExprFault, Program, Span, TextProblem, expand};
use std::alloc::Global;
use std::process::Abort;
use std::test::Fail;

const FAULTS_OF_LOOPS: &[(&[u8], usize, TextProblem)] = &[
    (b"FOR -1\nROF\n", 1, TextProblem::BadCount),
    (b"FOR 10001\nROF\n", 1, TextProblem::BadCount),
    (b"FOR lab\nROF\nlab DAT 0\n", 1, TextProblem::LabelInCount),
    (
        b"FOR 1/0\nROF\n",
        1,
        TextProblem::Expression(ExprFault::DivideByZero),
    ),
    (b"DAT 0\nROF\n", 2, TextProblem::RofAlone),
    (b"5 FOR 1\nROF\n", 1, TextProblem::BadToken),
    (b"i FOR 1\ni FOR 1\nROF\nROF\n", 2, TextProblem::BadToken),
    (b"i FOR 1\nROF\nx&i DAT 0\n", 3, TextProblem::BadToken),
];

#[test]
fn faults_of_loops(rt: HostRuntime) {
    check_faults(&rt, rt.alloc(), FAULTS_OF_LOOPS);
    let read: [&[u8]; 2] = [b"FOR 10000\nROF\n", b"FOR WARRIORS+CURLINE-2\nROF\n"];
    check_no_faults(&rt, rt.alloc(), &read);
}

const FAULTS_OF_EQUATES: &[(&[u8], usize, TextProblem)] = &[
    (b"CORESIZE EQU 1\n", 1, TextProblem::Duplicate),
    (b"DAT 0\n EQU 1\n", 2, TextProblem::BadToken),
    (b"a EQU 1\nFOR 0\nROF\n EQU 2\n", 4, TextProblem::BadToken),
    (b"a EQU 1\na EQU 2\n", 2, TextProblem::Duplicate),
    (b"a DAT 0\na EQU 2\n", 2, TextProblem::Duplicate),
    (b"a\na DAT 0\n", 2, TextProblem::Duplicate),
    (b"a a DAT 0\n", 1, TextProblem::Duplicate),
    (b"a EQU 1\n EQU 2\nFOR a\nROF\n", 3, TextProblem::BadToken),
    (b"x EQU x\nx\n", 2, TextProblem::EquDepth),
    (b"x EQU x\nFOR x\nROF\n", 2, TextProblem::EquDepth),
];

#[test]
fn faults_of_equates(rt: HostRuntime) {
    check_faults(&rt, rt.alloc(), FAULTS_OF_EQUATES);
    let read: [&[u8]; 1] = [b"a EQU 1\n; here\n\n EQU 2\n"];
    check_no_faults(&rt, rt.alloc(), &read);
}

const FIRST_FAULTS: &[(&[u8], usize, TextProblem)] = &[
    (b"\xC8 ? DAT\n", 1, TextProblem::NotAscii),
    (b"? \xC8 DAT\n", 1, TextProblem::BadToken),
    (b"a a ?\n", 1, TextProblem::BadToken),
    (b"5 FOR 10001\nROF\n", 1, TextProblem::BadToken),
    (b"FOR x/0\nROF\n", 1, TextProblem::LabelInCount),
    (b"FOR ?\n", 1, TextProblem::UnclosedFor),
    (b"ROF ?\n", 1, TextProblem::RofAlone),
    (b"FOR 0\nROF ?\n", 2, TextProblem::BadToken),
    (b"CORESIZE EQU 1 ?\n", 1, TextProblem::BadToken),
    (b"x EQU x\na a x\n", 2, TextProblem::Duplicate),
    (b"DAT \xC8\nROF\n", 1, TextProblem::NotAscii),
];

#[test]
fn the_first_fault_of_a_line(rt: HostRuntime) {
    check_faults(&rt, rt.alloc(), FIRST_FAULTS);
}

/// Sources, each with the token of its error: from the first offset up to, but excluding, the second.
const TOKENS_OF_FAULTS: &[(&[u8], usize, usize)] = &[
    (b"a \xC8\xC8", 2, 3),
    (b"NOP a==?=", 7, 8),
    (b"NOP\n NOP 0x1F, 2", 9, 13),
    (b"i FOR 2\na&i&j NOP\nROF\n", 8, 13),
    (b"DAT 9223372036854775808", 4, 23),
    (b"k: FOR 2\nNOP\n", 3, 6),
    (b"NOP\n  rof ; no FOR\n", 6, 9),
    (b"FOR 10001\nROF\n", 4, 9),
    (b"n EQU 2-3\n i FOR n\nROF\n", 6, 7),
    (b"FOR 1+CORESIZE-lab\nROF\n", 15, 18),
    (b"FOR 2*(3\nROF\n", 7, 8),
    (b"NOP\nk FOR\nROF\n", 6, 9),
    (b"FOR 4%0\nROF\n", 4, 5),
    (b": FOR 1\nROF\n", 0, 1),
    (b"1 EQU 2\n", 0, 1),
    (b"NOP\n EQU 2\n", 5, 8),
    (b"CORESIZE: EQU 2\n", 0, 8),
    (b"a: NOP\nb: a: NOP\n", 10, 11),
    (b"x EQU y\ny EQU x\nNOP\nl x 5\n", 14, 15),
    (b"x EQU 1-x\nFOR 2-x\nROF\n", 8, 9),
];

#[test]
fn tokens_of_faults(rt: HostRuntime) -> Result<(), Fail> {
    for (source, from, to) in TOKENS_OF_FAULTS {
        let fault = expand(rt.alloc(), source, &NAMES).err().ok_or("fault")?;
        let expected = Some(Span {
            from: *from,
            to: *to,
        });
        assert_eq!(rt; fault.token, expected, "in {source:?}");
    }
    Ok(())
}

/// Checks that the first and the last token of the first line have the line number 4, and that replacing EQU names
/// nests too deep.
fn check_use(rt: &impl Abort, alloc: Global, program: &Program) -> Result<(), Fail> {
    let line = program.lines().first().ok_or("line")?;
    assert_eq!(rt; line.rest.first().map(|token| token.line), Some(4));
    assert_eq!(rt; line.rest.last().map(|token| token.line), Some(4));
    let fault = program.substitute(alloc, &line.rest).err().map(located);
    assert_eq!(rt; fault, at(4, TextProblem::EquDepth));
    Ok(())
}

#[test]
fn a_fault_has_the_line_of_the_use(rt: HostRuntime) -> Result<(), Fail> {
    let source = b"x EQU x\nm EQU DAT x\nn EQU m\nn x\n";
    let program = expand(rt.alloc(), source, &NAMES)?;
    let checked = check_use(&rt, rt.alloc(), &program);
    drop(program);
    checked
}

#[test]
fn long_words_that_are_no_tokens(rt: HostRuntime) -> Result<(), Fail> {
    let alloc = rt.alloc();
    let bad = at(1, TextProblem::BadToken);
    let zeros = joined(alloc, &[&copies(alloc, b"0", 300)?, b"x"])?;
    assert_eq!(rt; fault_of(alloc, &zeros), bad);
    let word = joined(alloc, &[&copies(alloc, b"x", 300)?, b"&i"])?;
    assert_eq!(rt; fault_of(alloc, &word), bad);
    Ok(())
}

/// Each prefix of `LOOPS` has a program or an error that isn't `OutOfMemory`, and each prefix of `COPIES` has a
/// program.
#[test]
fn each_beginning_of_a_source_is_answered(rt: HostRuntime) {
    for len in 0..LOOPS.len() {
        let fault = fault_of(rt.alloc(), &LOOPS[..len]);
        assert!(rt; fault != at(0, TextProblem::OutOfMemory));
    }
    for len in 0..COPIES.len() {
        assert_eq!(rt; fault_of(rt.alloc(), &COPIES[..len]), None);
    }
}
