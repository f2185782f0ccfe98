//! Calls that don't allocate. Each test allocates once, and passes whether or not that allocation and all later ones
//! fail: dev/checks/memory lets all allocations from each one on fail. If the program of a test can't be allocated,
//! there is nothing to check.
use super::{NAMES, NoNames};
use redcode_text::{
    ExprFault, Line, Program, Sign, Token, TokenKind, check_shape, eval, expand, is_instruction,
    is_keyword,
};
use std::alloc::Global;
use std::process::Abort;
use std::test::Fail;

/// Allocates once. In some runs, this allocation is the first that fails.
fn ask(alloc: Global) {
    let _asked: Result<Vec<u64>, _> = Vec::with_capacity(alloc, 1);
}

fn token(kind: TokenKind) -> Token {
    Token {
        kind,
        line: 1,
        from: 0,
        to: 0,
    }
}

#[test]
fn values(rt: HostRuntime) {
    ask(rt.alloc());
    let tokens = [
        token(TokenKind::Sign(Sign::OpenParen)),
        token(TokenKind::Number(2)),
        token(TokenKind::Sign(Sign::CloseParen)),
        token(TokenKind::Sign(Sign::Slash)),
        token(TokenKind::Number(0)),
    ];
    assert_eq!(rt; eval(&tokens[..3], &NoNames), Ok(2));
    assert_eq!(rt; eval(&tokens, &NoNames), Err(ExprFault::DivideByZero));
    assert_eq!(rt; check_shape(&tokens[..2]), Err(ExprFault::Syntax));
}

const SOURCE: &[u8] =
    b";name Loops\n;author Somebody\n;assert 1\nstep EQU 4\nfirst DAT step\n      DAT step\nEND first\n";

fn check_texts(rt: &impl Abort, program: &Program) {
    assert_eq!(rt; program.name(), "Loops");
    assert_eq!(rt; program.author(), "Somebody");
    assert_eq!(rt; program.asserts().len(), 1);
    assert_eq!(rt; program.names().len(), 5);
    assert!(rt; program.equate_lines(0).is_some());
}

/// Checks that a line is a DAT instruction.
fn check_line(rt: &impl Abort, program: &Program, line: &Line) {
    assert!(rt; is_keyword(program.names(), b"dat", line.operation));
    assert!(rt; is_instruction(program.names(), line.operation, &line.rest));
}

fn check_lines(rt: &impl Abort, program: &Program) -> Result<(), Fail> {
    let [first, second, _] = program.lines() else {
        return Err("lines".into());
    };
    check_line(rt, program, first);
    check_line(rt, program, second);
    Ok(())
}

#[test]
fn readers_of_a_program(rt: HostRuntime) -> Result<(), Fail> {
    let Ok(program) = expand(rt.alloc(), SOURCE, &NAMES) else {
        return Ok(());
    };
    ask(rt.alloc());
    check_texts(&rt, &program);
    let lines = check_lines(&rt, &program);
    drop(program);
    lines
}
