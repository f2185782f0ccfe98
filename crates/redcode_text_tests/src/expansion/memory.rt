//! Calls whose allocations fail. Each test tries the call again if memory runs out, so it passes whichever allocation
//! fails. dev/checks/memory lets each allocation fail in turn.
use super::NAMES;
use redcode_text::{
    Line, LineTokens, Program, TextFault, TextProblem, Token, TokenKind, expand, scan,
};
use std::alloc::Global;
use std::process::Abort;
use std::test::Fail;

/// Names, labels, nested loops, joins, EQU lines, an operation that is an EQU name, directives and an assert.
const SOURCE: &[u8] =
    b";redcode\n;name Loops\n;author Somebody\n;assert CORESIZE == 8000\nstep EQU 4\ncopy EQU MOV.I #step, target\n     EQU ADD.AB #step, target\ni FOR 2\nj FOR step-3\nx&i&j DAT i, step\nROF\nROF\ntarget copy\nEND target\n";

const OF_MEMORY: TextFault = TextFault {
    line: 0,
    problem: TextProblem::OutOfMemory,
    token: None,
};

/// Returns the numbers of lines and asserts of a program, and of the labels and tokens of its lines.
fn sizes(program: &Program) -> [usize; 4] {
    let lines = program.lines();
    let labels = lines
        .iter()
        .map(|line| line.labels.len())
        .fold(0, usize::wrapping_add);
    let tokens = lines
        .iter()
        .map(|line| line.rest.len())
        .fold(0, usize::wrapping_add);
    [lines.len(), program.asserts().len(), labels, tokens]
}

/// Returns the program, and tries again if memory runs out.
fn program_of(rt: &impl Abort, alloc: Global) -> Result<Program, Fail> {
    match expand(alloc, SOURCE, &NAMES) {
        Err(fault) => {
            assert_eq!(rt; fault, OF_MEMORY);
            Ok(expand(alloc, SOURCE, &NAMES)?)
        }
        Ok(program) => Ok(program),
    }
}

fn check_program(rt: &impl Abort, program: &Program) {
    assert_eq!(rt; program.name(), "Loops");
    assert_eq!(rt; program.author(), "Somebody");
    assert_eq!(rt; sizes(program), [5, 1, 3, 19]);
}

#[test]
fn a_source_is_expanded(rt: HostRuntime) -> Result<(), Fail> {
    let program = program_of(&rt, rt.alloc())?;
    check_program(&rt, &program);
    drop(program);
    Ok(())
}

/// Returns the tokens of a line with its EQU names replaced, and tries again if memory runs out.
fn substituted(
    rt: &impl Abort,
    alloc: Global,
    program: &Program,
    line: &Line,
) -> Result<Vec<Token>, Fail> {
    match program.substitute(alloc, &line.rest) {
        Err(fault) => {
            assert_eq!(rt; fault, OF_MEMORY);
            Ok(program.substitute(alloc, &line.rest)?)
        }
        Ok(tokens) => Ok(tokens),
    }
}

fn check_substituted(rt: &impl Abort, alloc: Global, program: &Program) -> Result<(), Fail> {
    let line = program.lines().get(2).ok_or("line")?;
    let tokens = substituted(rt, alloc, program, line)?;
    assert!(rt;
        tokens
            .iter()
            .any(|token| token.kind == TokenKind::Number(4))
    );
    assert_eq!(rt; tokens.len(), line.rest.len());
    Ok(())
}

#[test]
fn tokens_are_substituted(rt: HostRuntime) -> Result<(), Fail> {
    let program = program_of(&rt, rt.alloc())?;
    let checked = check_substituted(&rt, rt.alloc(), &program);
    drop(program);
    checked
}

/// Returns the tokens of a text, and tries again if memory runs out.
fn scanned(rt: &impl Abort, alloc: Global, text: &[u8]) -> Result<LineTokens, Fail> {
    match scan(alloc, text) {
        Err(fault) => {
            assert_eq!(rt; fault, OF_MEMORY);
            Ok(scan(alloc, text)?)
        }
        Ok(scanned) => Ok(scanned),
    }
}

#[test]
fn a_text_is_scanned(rt: HostRuntime) -> Result<(), Fail> {
    let scanned = scanned(&rt, rt.alloc(), b"one + two + one + 300")?;
    assert_eq!(rt; scanned.tokens.len(), 7);
    assert_eq!(rt; scanned.names.len(), 2);
    drop(scanned);
    Ok(())
}
