//! Sources and their warriors, and functions that the modules of tests share.

use mars_cell::{Params, Warrior};
use redcode_asm::{AsmFault, AsmProblem, assemble, assemble_load};
use redcode_text::ExprFault;
use std::alloc::Global;
use std::process::Abort;
use std::test::Fail;

mod faults;
mod limits;
mod memory;

/// Returns the parameters of a core of this size, which a warrior may fill.
fn core_of(core_size: u32) -> Result<Params, Fail> {
    let params = Params::new(
        core_size, 8000, 80_000, core_size, core_size, core_size, core_size,
    )
    .ok()
    .ok_or("parameters")?;
    Ok(params)
}

/// Returns the parameters of a core of 8000 cells, with warriors of at most 4 instructions.
fn short_warriors() -> Result<Params, Fail> {
    let params = Params::new(8000, 8000, 80_000, 8000, 8000, 4, 4)
        .ok()
        .ok_or("parameters")?;
    Ok(params)
}

/// Returns the load file of the warrior of a source that gives no name and no author, without the lines of the header.
fn listing(alloc: Global, params: &Params, source: &[u8]) -> Result<String, Fail> {
    let file = assemble_load(alloc, source, params, 2, 3)?;
    let text = str::from_utf8(&file).ok().ok_or("text")?;
    let (_, statements) = text
        .split_once("\n;name Unknown\n;author Anonymous\n")
        .ok_or("head")?;
    Ok(String::from_str(alloc, statements)?)
}

fn fault_of(alloc: Global, params: &Params, source: &[u8]) -> Option<AsmFault> {
    assemble(alloc, source, params, 2, 3).err()
}

/// Returns the line of the error of a source, and the error, if it has one.
fn problem_of(alloc: Global, params: &Params, source: &[u8]) -> Option<(usize, AsmProblem)> {
    let fault = fault_of(alloc, params, source)?;
    Some((fault.line, fault.problem))
}

/// A source, the line of its error, and the error.
type Faulty = (&'static str, usize, AsmProblem);

/// Checks that each source has its error.
fn check_faults(rt: &impl Abort, alloc: Global, params: &Params, rows: &[Faulty]) {
    for (source, line, problem) in rows {
        let expected = Some((*line, *problem));
        assert_eq!(rt; problem_of(alloc, params, source.as_bytes()), expected);
    }
}

/// Checks that the listing of a source is this text.
fn check_listing(
    rt: &impl Abort,
    alloc: Global,
    params: &Params,
    source: &[u8],
    text: &str,
) -> Result<(), Fail> {
    let found = listing(alloc, params, source)?;
    assert_eq!(rt; found.as_str(), text);
    drop(found);
    Ok(())
}

/// Prose that is never read, a loop of two iterations, and a line that uses the labels that the loop made.
const LOOPS: &[u8] = b"FOR 0\nthis is prose\nROF\ni FOR 2\nx&i DAT i, 0\nROF\nDAT x02, x01\n";

/// An EQU name with a definition of two lines, used as an operation.
const COPIES: &[u8] =
    b"step EQU 4\ncopy EQU MOV.I target, step\n     EQU ADD.AB #step, target\ntarget DAT 0, 0\ncopy\nEND target\n";

#[test]
fn listings(rt: HostRuntime) -> Result<(), Fail> {
    let params = core_of(8000)?;
    for (source, text) in LISTINGS {
        check_listing(&rt, rt.alloc(), &params, source, text)?;
    }
    Ok(())
}

const LISTINGS: [(&[u8], &str); 9] = [
    (
        b"ADD #4, 3\nMOV 2, @2\nJMP -2\nDAT #0, #0\n",
        "ORG 0\nADD.AB #4, $3\nMOV.I $2, @2\nJMP.B $-2, $0\nDAT.F #0, #0\n",
    ),
    (
        b"DAT 5\nSPL 2\nCMP 1, #2\nNOP\n",
        "ORG 0\nDAT.F $0, $5\nSPL.B $2, $0\nSEQ.B $1, #2\nNOP.F $0, $0\n",
    ),
    (
        b"SLT 1, #2\nSLT #1, 2\nmov . ba * 1, { -1",
        "ORG 0\nSLT.B $1, #2\nSLT.AB #1, $2\nMOV.BA *1, {-1\n",
    ),
    (
        b"DAT 8000, -8000\nDAT 8001, -1\nDAT 4000, 4001",
        "ORG 0\nDAT.F $0, $0\nDAT.F $1, $-1\nDAT.F $4000, $-3999\n",
    ),
    (
        b"a NOP a, b\nNOP a, b\nb: NOP a, CURLINE\nORG b-CURLINE+1",
        "ORG 0\nNOP.F $0, $2\nNOP.F $-1, $1\nNOP.F $-2, $2\n",
    ),
    (
        b"NOP\nb NOP\nEND b\nNOP 1x",
        "ORG 1\nNOP.F $0, $0\nNOP.F $0, $0\n",
    ),
    (
        b"NOP ROUNDS, WARRIORS\nNOP VERSION, MAXCYCLES-80000\n;assert CURLINE==2\nNOP",
        "ORG 0\nNOP.F $2, $3\nNOP.F $80, $0\nNOP.F $0, $0\n",
    ),
    (LOOPS, "ORG 0\nDAT.F $1, $0\nDAT.F $2, $0\nDAT.F $-1, $-2\n"),
    (
        COPIES,
        "ORG 0\nDAT.F $0, $0\nMOV.I $-1, $4\nADD.AB #4, $-2\n",
    ),
];

/// Returns whether a warrior has this name and this author.
fn is_by(warrior: &Warrior, name: &str, author: &str) -> bool {
    (warrior.name(), warrior.author()) == (name, author)
}

#[test]
fn names_of_warriors(rt: HostRuntime) -> Result<(), Fail> {
    let params = core_of(8000)?;
    let rows: [(&[u8], &str, &str); 2] = [
        (
            b";name One\n;author Two\nNOP\n;name Three \n",
            "Three",
            "Two",
        ),
        (b"NOP", "Unknown", "Anonymous"),
    ];
    for (source, name, author) in rows {
        let warrior = assemble(rt.alloc(), source, &params, 1, 1)?;
        let is_right = is_by(&warrior, name, author);
        drop(warrior);
        assert!(rt; is_right);
    }
    Ok(())
}

const UNKNOWN: AsmProblem = AsmProblem::Expression(ExprFault::Unknown);

const SYNTAX: AsmProblem = AsmProblem::Expression(ExprFault::Syntax);

#[test]
fn one_cell(rt: HostRuntime) -> Result<(), Fail> {
    let params = core_of(1)?;
    let refused = [(
        ";assert CORESIZE==8000\nADD.F }0, {0",
        1,
        AsmProblem::AssertFailed,
    )];
    check_faults(&rt, rt.alloc(), &params, &refused);
    check_listing(
        &rt,
        rt.alloc(),
        &params,
        b"ADD.F }5, {-7",
        "ORG 0\nADD.F }0, {0\n",
    )
}

/// The errors of the prefixes of a source: each applies from its length on, up to the next length. `None` is no error.
type Beginnings = &'static [(usize, Option<(usize, AsmProblem)>)];
