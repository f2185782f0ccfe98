//! The line and the labels of each instruction in a source.

use mars_cell::Params;
use redcode_asm::{AsmFault, AsmProblem, assemble_with_lines};
use std::alloc::Global;
use std::test::Fail;

fn params() -> Result<Params, Fail> {
    let params = Params::new(8000, 8, 10, 8000, 8000, 4, 4)
        .ok()
        .ok_or("parameters")?;
    Ok(params)
}

/// A source, the row of each cell (line, begin and end of its labels), and the labels.
type Example = (&'static [u8], &'static [(u64, u64, u64)], &'static [u8]);

const SOURCES: [Example; 5] = [
    // Nested loops with counters and joins.
    (
        b"FOR 0\nprose\nROF\ni FOR 2\nx&i DAT i\nj FOR 1\ny&i&j DAT x02\nROF\nROF",
        &[(5, 0, 4), (7, 4, 10), (5, 10, 14), (7, 14, 20)],
        b"x01\0y0101\0x02\0y0201\0",
    ),
    // An EQU name with a definition of several lines, one of which has a label.
    (
        b"copy EQU MOV 0, 1\n EQU b ADD #4, a\n EQU\na DAT 0\nfirst copy\nNOP",
        &[(4, 0, 2), (5, 2, 8), (5, 8, 10), (6, 10, 10)],
        b"a\0first\0b\0",
    ),
    // Labels on lines of their own, of an ORG, and after the last instruction.
    (
        b";redcode\na\n\nb: Caps:\ngo ORG d\nd_1: NOP\nd NOP\nlast\nend_of_it END go",
        &[(6, 0, 16), (7, 16, 18)],
        b"a\0b\0Caps\0go\0d_1\0d\0",
    ),
    (b"NOP\r\n\n NOP ; x\n", &[(1, 0, 0), (3, 0, 0)], b""),
    (b"\n\n\n\n\n\n\n\n\nNOP", &[(10, 0, 0)], b""),
];

/// Returns whether a source has these lines and labels.
fn has_lines(
    alloc: Global,
    source: &[u8],
    params: &Params,
    rows: &[(u64, u64, u64)],
    labels: &[u8],
) -> Result<bool, Fail> {
    let found = assemble_with_lines(alloc, source, params, 1, 2)?;
    let mut is_it = found.labels.as_slice() == labels && found.lines.len() == rows.len();
    for (line, (number, begin, end)) in found.lines.iter().zip(rows) {
        is_it = is_it && line.line == *number && line.begin == *begin && line.end == *end;
    }
    drop(found);
    Ok(is_it)
}

#[test]
fn lines_of_sources(rt: HostRuntime) -> Result<(), Fail> {
    let params = params()?;
    for (source, rows, labels) in SOURCES {
        assert!(rt; has_lines(rt.alloc(), source, &params, rows, labels)?);
    }
    Ok(())
}

#[test]
fn faults_of_sources(rt: HostRuntime) -> Result<(), Fail> {
    let params = params()?;
    let rows = [
        (b"".as_slice(), 0, AsmProblem::Empty),
        (b"NOP\nSTP 1".as_slice(), 2, AsmProblem::Operation),
        (
            b"NOP\nNOP\nNOP\nNOP\nNOP".as_slice(),
            5,
            AsmProblem::TooLong,
        ),
        (b"NOP\nORG 1".as_slice(), 2, AsmProblem::BadOrigin),
        (
            b";assert WARRIORS==1\nNOP".as_slice(),
            1,
            AsmProblem::AssertFailed,
        ),
    ];
    for (source, line, problem) in rows {
        let found = assemble_with_lines(rt.alloc(), source, &params, 1, 2)
            .err()
            .ok_or("fault")?;
        assert_eq!(rt; (found.line, found.problem), (line, problem));
    }
    Ok(())
}

/// Returns the lines of a source, and tries again if memory runs out: `dev/checks/memory` lets each allocation fail in
/// turn.
#[test]
fn lines_are_made(rt: HostRuntime) -> Result<(), Fail> {
    let params = params()?;
    let source = b"i FOR 2\nx&i NOP\nROF";
    let made = match assemble_with_lines(rt.alloc(), source, &params, 1, 1) {
        Err(fault) => {
            let of_memory = AsmFault {
                line: 0,
                problem: AsmProblem::OutOfMemory,
                token: None,
            };
            assert_eq!(rt; fault, of_memory);
            assemble_with_lines(rt.alloc(), source, &params, 1, 1)?
        }
        Ok(made) => made,
    };
    assert!(rt; made.lines.len() == 2);
    assert!(rt; made.labels.as_slice() == b"x01\0x02\0".as_slice());
    Ok(())
}
