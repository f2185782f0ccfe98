//! Limits of a source, at their value and one beyond.
use super::{Located, NAMES, at, check_copies, copies, fault_of, first_labels, joined, located};
use redcode_text::{Program, Span, TextProblem, expand};
use std::alloc::Global;
use std::process::Abort;
use std::test::Fail;

#[test]
fn as_many_lines_as_may_be_read(rt: HostRuntime) -> Result<(), Fail> {
    let alloc = rt.alloc();
    check_copies(&rt, alloc, b"\n", 65_536, None)?;
    let too_long = at(65_537, TextProblem::TooLong);
    check_copies(&rt, alloc, b"\n", 65_537, too_long)?;
    let empty = b"FOR 10000\nFOR 10000\nROF\nROF\n";
    assert_eq!(rt; fault_of(alloc, empty), None);
    let eight = b"FOR 10000\n\n\n\n\n\n\n\n\nROF\n";
    assert_eq!(rt; fault_of(alloc, eight), at(9, TextProblem::TooLong));
    Ok(())
}

#[test]
fn as_many_tokens_as_may_be_read(rt: HostRuntime) -> Result<(), Fail> {
    check_copies(&rt, rt.alloc(), b"0 ", 65_536, None)?;
    let too_long = at(1, TextProblem::TooLong);
    check_copies(&rt, rt.alloc(), b"0 ", 65_537, too_long)
}

/// Returns the token of the error of a source.
fn token_of(alloc: Global, source: &[u8]) -> Option<Span> {
    expand(alloc, source, &NAMES).err()?.token
}

/// Checks the token at which each limit is exceeded. For the limit of lines there is none.
#[test]
fn tokens_beyond_limits(rt: HostRuntime) -> Result<(), Fail> {
    let alloc = rt.alloc();
    let tokens = joined(alloc, &[&copies(alloc, b"0 ", 65_536)?, b"here"])?;
    let last = Span {
        from: 131_072,
        to: 131_076,
    };
    assert_eq!(rt; token_of(alloc, &tokens), Some(last));
    let loops = joined(
        alloc,
        &[
            &copies(alloc, b"FOR 1\n", 33)?,
            &copies(alloc, b"ROF\n", 33)?,
        ],
    )?;
    let last = Span { from: 192, to: 195 };
    assert_eq!(rt; token_of(alloc, &loops), Some(last));
    assert_eq!(rt; token_of(alloc, &copies(alloc, b"\n", 65_537)?), None);
    Ok(())
}

/// Checks that `count` nested loops around the lines `within` have the error `fault`, or none.
fn check_loops(
    rt: &impl Abort,
    alloc: Global,
    count: usize,
    within: &[u8],
    fault: Option<Located>,
) -> Result<(), Fail> {
    let opened = copies(alloc, b"FOR 1\n", count)?;
    let closed = copies(alloc, b"ROF\n", count)?;
    let source = joined(alloc, &[&opened, within, &closed])?;
    assert_eq!(rt; fault_of(alloc, &source), fault);
    Ok(())
}

#[test]
fn as_many_loops_as_may_be_open(rt: HostRuntime) -> Result<(), Fail> {
    check_loops(&rt, rt.alloc(), 32, b"DAT 0\n", None)?;
    let too_long = at(33, TextProblem::TooLong);
    check_loops(&rt, rt.alloc(), 33, b"", too_long)
}

/// Returns EQU names from `e0`, which is defined as `leaf`, up to the number `last`, each defined as the sum of two of
/// the previous one; then the text `behind`.
fn doublings(alloc: Global, leaf: &str, last: usize, behind: &str) -> Result<Vec<u8>, Fail> {
    let first = format!(in alloc; "e0 EQU {leaf}\n")?;
    let mut source = Vec::from_slice(alloc, first.as_bytes())?;
    for before in 0..last {
        let index = before + 1;
        let line = format!(in alloc; "e{index} EQU e{before}+e{before}\n")?;
        source.extend_from_slice(line.as_bytes())?;
    }
    source.extend_from_slice(behind.as_bytes())?;
    Ok(source)
}

/// Returns the number of tokens of the last line of a program, without its operation, after EQU names are replaced.
fn last_len(alloc: Global, program: &Program) -> Result<usize, Located> {
    let mut len = 0;
    for line in program.lines() {
        len = program
            .substitute(alloc, &line.rest)
            .map_err(located)?
            .len();
    }
    Ok(len)
}

/// Returns the number of tokens of the last line of a source's program, after EQU names are replaced.
fn substituted_len(alloc: Global, source: &[u8]) -> Result<usize, Located> {
    let program = expand(alloc, source, &NAMES).map_err(located)?;
    let len = last_len(alloc, &program);
    drop(program);
    len
}

/// Checks the number of tokens of the last line, or the error, for `last` doublings of 1 followed by a text.
fn check_doublings(
    rt: &impl Abort,
    alloc: Global,
    last: usize,
    behind: &str,
    len: Result<usize, Located>,
) -> Result<(), Fail> {
    let source = doublings(alloc, "1", last, behind)?;
    assert_eq!(rt; substituted_len(alloc, &source), len);
    Ok(())
}

#[test]
fn as_many_names_as_may_be_replaced(rt: HostRuntime) -> Result<(), Fail> {
    let alloc = rt.alloc();
    check_doublings(&rt, alloc, 15, "DAT e15\n", Ok(65_535))?;
    let too_long = (18, TextProblem::TooLong);
    check_doublings(&rt, alloc, 16, "DAT e16\n", Err(too_long))?;
    let depth = (3, TextProblem::EquDepth);
    let len = substituted_len(alloc, b"x EQU y+y\ny EQU x+x\nDAT x\n");
    assert_eq!(rt; len, Err(depth));
    let several = (3, TextProblem::BadToken);
    let len = substituted_len(alloc, b"x EQU 1\n EQU 2\nDAT x\n");
    assert_eq!(rt; len, Err(several));
    Ok(())
}

/// `e15` needs 65,535 replacements and yields 65,535 tokens.
#[test]
fn as_many_tokens_as_replacements_may_make(rt: HostRuntime) -> Result<(), Fail> {
    let alloc = rt.alloc();
    check_doublings(&rt, alloc, 15, "DAT e15 1\n", Ok(65_536))?;
    let too_long = (17, TextProblem::TooLong);
    check_doublings(&rt, alloc, 15, "DAT e15 1 1\n", Err(too_long))?;
    check_doublings(&rt, alloc, 15, "z EQU\nDAT z e15\n", Ok(65_535))?;
    let too_long = (18, TextProblem::TooLong);
    check_doublings(&rt, alloc, 15, "z EQU\nDAT z z e15\n", Err(too_long))
}

#[test]
fn as_long_as_names_may_be(rt: HostRuntime) -> Result<(), Fail> {
    for len in 60..62 {
        let name = copies(rt.alloc(), b"x", len)?;
        let source = joined(rt.alloc(), &[b";name ", &name])?;
        let program = expand(rt.alloc(), &source, &NAMES)?;
        assert_eq!(rt; program.name().len(), 60);
        drop(program);
    }
    Ok(())
}

/// Returns `count` EQU names, each defined as the previous one, a line that uses the last name as its operation, and a
/// DAT that has the last name as its operand.
fn chain(alloc: Global, count: usize) -> Result<Vec<u8>, Fail> {
    let mut source = Vec::from_slice(alloc, b"e1 EQU DAT 5\n")?;
    for before in 1..count {
        let index = before + 1;
        let line = format!(in alloc; "e{index} EQU e{before}\n")?;
        source.extend_from_slice(line.as_bytes())?;
    }
    let use_line = format!(in alloc; "e{count}\nDAT e{count}\n")?;
    source.extend_from_slice(use_line.as_bytes())?;
    Ok(source)
}

#[test]
fn as_deep_as_names_may_be_replaced(rt: HostRuntime) -> Result<(), Fail> {
    let alloc = rt.alloc();
    let most = chain(alloc, 32)?;
    assert_eq!(rt; fault_of(alloc, &most), None);
    assert_eq!(rt; substituted_len(alloc, &most), Ok(2));
    let more = chain(alloc, 33)?;
    assert_eq!(rt; fault_of(alloc, &more), at(34, TextProblem::EquDepth));
    Ok(())
}

/// Returns `count` names, `a0`, `a1` and so on, each followed by `behind`.
fn numbered(alloc: Global, count: usize, behind: &str) -> Result<Vec<u8>, Fail> {
    let mut source = Vec::new(alloc);
    for index in 0..count {
        let name = format!(in alloc; "a{index}{behind}")?;
        source.extend_from_slice(name.as_bytes())?;
    }
    Ok(source)
}

#[test]
fn as_many_labels_as_there_may_be(rt: HostRuntime) -> Result<(), Fail> {
    let alloc = rt.alloc();
    let lines = numbered(alloc, 65_536, "\n")?;
    assert_eq!(rt; fault_of(alloc, &lines), None);
    let line = numbered(alloc, 65_536, " ")?;
    assert_eq!(rt; first_labels(alloc, &line)?, 65_536);
    let equates = numbered(alloc, 32_768, " EQU\n")?;
    assert_eq!(rt; fault_of(alloc, &equates), None);
    Ok(())
}

/// Checks the number of lines for five doublings of `leaf`, followed by the text `behind`.
fn check_count(
    rt: &impl Abort,
    alloc: Global,
    leaf: &str,
    behind: &str,
    count: usize,
) -> Result<(), Fail> {
    let source = doublings(alloc, leaf, 5, behind)?;
    let program = expand(alloc, &source, &NAMES)?;
    assert_eq!(rt; program.lines().len(), count);
    drop(program);
    Ok(())
}

/// Checks the same count of many tokens in several loops. Its value may be the same, or differ because of CURLINE.
#[test]
fn counts_that_are_met_again(rt: HostRuntime) -> Result<(), Fail> {
    let alloc = rt.alloc();
    let loops = "FOR e5\nDAT 0\nROF\nx EQU 2\nFOR e5\nDAT 0\nROF\nFOR e5\nDAT 0\nROF\n";
    check_count(&rt, alloc, "1", loops, 96)?;
    check_count(&rt, alloc, "WARRIORS", loops, 192)?;
    let lines = "FOR e5\nROF\nDAT 0\nFOR e5\nDAT 1\nROF\nFOR e5\nDAT 1\nROF\n";
    check_count(&rt, alloc, "CURLINE", lines, 1 + 32 + 32 * 33)?;
    let labels = doublings(alloc, "1", 5, "FOR e5\nROF\nFOR e5+y\nROF\n")?;
    assert_eq!(rt; fault_of(alloc, &labels), at(9, TextProblem::LabelInCount));
    Ok(())
}
