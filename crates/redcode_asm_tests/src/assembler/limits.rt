//! The limits of a source, at their value and one beyond.
use crate::assembler::{UNKNOWN, check_faults, check_listing, core_of, fault_of};
use redcode_asm::{AsmFault, AsmProblem};
use redcode_text::{ExprFault, Span, TextProblem};
use std::alloc::Global;
use std::process::Abort;
use std::test::Fail;

/// Returns the text `front`, then `count` copies of `part`, then the text `end`.
fn repeated(
    alloc: Global,
    front: &[u8],
    part: &[u8],
    count: usize,
    end: &[u8],
) -> Result<Vec<u8>, Fail> {
    let mut text = Vec::from_slice(alloc, front)?;
    for _ in 0..count {
        text.extend_from_slice(part)?;
    }
    text.extend_from_slice(end)?;
    Ok(text)
}

/// Returns `e0 EQU 1`, then names up to number `last`, each twice the previous one, then a DAT of the last one.
fn doublings(alloc: Global, last: usize) -> Result<Vec<u8>, Fail> {
    let mut text = Vec::from_slice(alloc, b"e0 EQU 1\n")?;
    for number in 0..last {
        let line = format!(in alloc; "e{} EQU e{number}+e{number}\n", number + 1)?;
        text.extend_from_slice(line.as_bytes())?;
    }
    text.extend_from_slice(format!(in alloc; "DAT e{last}\n")?.as_bytes())?;
    Ok(text)
}

/// Returns `e0 EQU 1`, then names up to number `last`, each equal to the previous one, then a DAT of the last one.
fn chain(alloc: Global, last: usize) -> Result<Vec<u8>, Fail> {
    let mut text = Vec::from_slice(alloc, b"e0 EQU 1\n")?;
    for number in 0..last {
        text.extend_from_slice(format!(in alloc; "e{} EQU e{number}\n", number + 1)?.as_bytes())?;
    }
    text.extend_from_slice(format!(in alloc; "DAT e{last}\n")?.as_bytes())?;
    Ok(text)
}

const DEPTH_OF_EQU: AsmProblem = AsmProblem::Text(TextProblem::EquDepth);

const TOO_LONG: AsmProblem = AsmProblem::Text(TextProblem::TooLong);

#[test]
fn limits_of_equ_names(rt: HostRuntime) -> Result<(), Fail> {
    let params = core_of(8000)?;
    let refused = [
        ("x EQU x\nx", 2, DEPTH_OF_EQU),
        ("x EQU y+y\ny EQU x+x\nDAT x", 3, DEPTH_OF_EQU),
    ];
    check_faults(&rt, rt.alloc(), &params, &refused);
    Ok(())
}

#[test]
fn doubled_names(rt: HostRuntime) -> Result<(), Fail> {
    let params = core_of(8000)?;
    let most = doublings(rt.alloc(), 15)?;
    let listed = check_listing(&rt, rt.alloc(), &params, &most, "ORG 0\nDAT.F $0, $768\n");
    drop(most);
    listed?;
    let more = doublings(rt.alloc(), 16)?;
    let fault = fault_of(rt.alloc(), &params, &more);
    drop(more);
    let expected = AsmFault {
        line: 18,
        problem: TOO_LONG,
        token: Some(Span { from: 232, to: 235 }),
    };
    assert_eq!(rt; fault, Some(expected));
    Ok(())
}

#[test]
fn nested_names(rt: HostRuntime) -> Result<(), Fail> {
    let params = core_of(8000)?;
    let most = chain(rt.alloc(), 31)?;
    let found = fault_of(rt.alloc(), &params, &most);
    drop(most);
    assert_eq!(rt; found, None);
    let more = chain(rt.alloc(), 32)?;
    let fault = fault_of(rt.alloc(), &params, &more);
    drop(more);
    let expected = AsmFault {
        line: 34,
        problem: DEPTH_OF_EQU,
        token: Some(Span { from: 16, to: 18 }),
    };
    assert_eq!(rt; fault, Some(expected));
    Ok(())
}

/// The arguments of `repeated` for a source, in order; then the line of its error and the error, if it has one.
type Repeated = (
    &'static [u8],
    &'static [u8],
    usize,
    &'static [u8],
    Option<(usize, AsmProblem)>,
);

/// Checks that each source has its error, or none.
fn check_repeated(rt: &impl Abort, alloc: Global, rows: &[Repeated]) -> Result<(), Fail> {
    let params = core_of(8000)?;
    for (front, part, count, end, expected) in rows {
        let source = repeated(alloc, front, part, *count, end)?;
        let found = fault_of(alloc, &params, &source);
        drop(source);
        let found = found.map(|fault| (fault.line, fault.problem));
        assert_eq!(rt; found, *expected);
    }
    Ok(())
}

const DEPTH: AsmProblem = AsmProblem::Expression(ExprFault::Depth);

const LINES_AND_SIGNS: [Repeated; 6] = [
    (
        b"FOR 10000\nFOR 10000\nNOP\nROF\nROF",
        b"\n",
        1,
        b"",
        Some((3, TOO_LONG)),
    ),
    (b"DAT ", b"(", 10_000, b"", Some((1, DEPTH))),
    (b"DAT ", b"-", 65, b"1", Some((1, DEPTH))),
    (b"", b"\n", 65_537, b"", Some((65_537, TOO_LONG))),
    (b"", b" ", 1_048_576, b"", Some((0, AsmProblem::Empty))),
    (
        b"",
        b"1",
        1_048_576,
        b"",
        Some((1, AsmProblem::Text(TextProblem::BadToken))),
    ),
];

#[test]
fn limits_of_lines_and_signs(rt: HostRuntime) -> Result<(), Fail> {
    check_repeated(&rt, rt.alloc(), &LINES_AND_SIGNS)
}

#[test]
fn max_signs(rt: HostRuntime) -> Result<(), Fail> {
    let params = core_of(8000)?;
    let source = repeated(rt.alloc(), b"DAT ", b"-", 64, b"1")?;
    let listed = check_listing(&rt, rt.alloc(), &params, &source, "ORG 0\nDAT.F $0, $1\n");
    drop(source);
    listed
}

/// Sources without an instruction that have exactly as many lines or tokens as may be read, or one more. The lines and
/// tokens of an EQU definition count at each use, and the error has the line of the use. Tokens of asserts count too.
const LINES_AND_TOKENS_OF_NAMES: [Repeated; 6] = [
    (
        b"x EQU\n\n",
        b"x\n",
        32_767,
        b"",
        Some((0, AsmProblem::Empty)),
    ),
    (b"x EQU\n", b"x\n", 32_768, b"", Some((32_769, TOO_LONG))),
    (
        b"x EQU ORG 0\n",
        b"x\n",
        21_844,
        b"",
        Some((0, AsmProblem::Empty)),
    ),
    (
        b"x EQU ORG 0\nORG 0\n",
        b"x\n",
        21_844,
        b"",
        Some((21_846, TOO_LONG)),
    ),
    (
        b";assert 1\n",
        b";assert 1+1\n",
        21_845,
        b"",
        Some((0, AsmProblem::Empty)),
    ),
    (
        b";assert 1\n",
        b";assert 1+1\n",
        21_845,
        b";assert 1",
        Some((21_847, TOO_LONG)),
    ),
];

#[test]
fn limits_of_lines_and_tokens_of_names(rt: HostRuntime) -> Result<(), Fail> {
    check_repeated(&rt, rt.alloc(), &LINES_AND_TOKENS_OF_NAMES)
}

const LONGEST: [Repeated; 3] = [
    (b"", b"NOP\n", 8000, b"", None),
    (b"", b"NOP\n", 8001, b"NOP x", Some((8002, UNKNOWN))),
    (b"", b"NOP\n", 8002, b"", Some((8001, AsmProblem::TooLong))),
];

#[test]
fn longest_warriors(rt: HostRuntime) -> Result<(), Fail> {
    check_repeated(&rt, rt.alloc(), &LONGEST)
}
