//! The tokens of texts: known tokens and their bytes, errors, joins and counters.
use crate::expansion::NAMES;
use redcode_text::{
    LineTokens, NameTable, Program, Sign, Span, TextFault, TextProblem, Token, TokenKind, expand,
    scan,
};
use std::alloc::Global;
use std::process::Abort;
use std::test::Fail;

fn kinds_in(alloc: Global, tokens: &[Token]) -> Result<Vec<TokenKind>, Fail> {
    let mut kinds = Vec::new(alloc);
    for token in tokens {
        kinds.push(token.kind)?;
    }
    Ok(kinds)
}

/// Returns the kinds of the tokens of a text outside loops.
fn kinds_of(alloc: Global, text: &[u8]) -> Result<Vec<TokenKind>, Fail> {
    let read = scan(alloc, text)?;
    let kinds = kinds_in(alloc, &read.tokens);
    drop(read);
    kinds
}

fn problem_of(alloc: Global, text: &[u8]) -> Option<TextProblem> {
    Some(scan(alloc, text).err()?.problem)
}

/// Checks that each text has the error `problem`.
fn check_problems(rt: &impl Abort, alloc: Global, texts: &[&[u8]], problem: TextProblem) {
    for text in texts {
        assert_eq!(rt; problem_of(alloc, text), Some(problem), "in {text:?}");
    }
}

#[test]
fn each_kind_of_token(rt: HostRuntime) -> Result<(), Fail> {
    let kinds = kinds_of(rt.alloc(), b"DAT x_1, -007")?;
    assert_eq!(rt;
        kinds.as_slice(),
        [
            TokenKind::Name(0),
            TokenKind::Name(1),
            TokenKind::Sign(Sign::Comma),
            TokenKind::Sign(Sign::Minus),
            TokenKind::Number(7),
        ]
        .as_slice()
    );
    let signs = kinds_of(rt.alloc(), b"+-*/%!<>(),.:#$@{}")?;
    assert_eq!(rt; signs.len(), 18);
    assert_eq!(rt; signs[17], TokenKind::Sign(Sign::CloseBrace));
    Ok(())
}

#[test]
fn the_longest_token_is_taken(rt: HostRuntime) -> Result<(), Fail> {
    let signs = kinds_of(rt.alloc(), b"<=<>=!!=")?;
    assert_eq!(rt;
        signs.as_slice(),
        [
            TokenKind::Sign(Sign::LessEqual),
            TokenKind::Sign(Sign::Less),
            TokenKind::Sign(Sign::GreaterEqual),
            TokenKind::Sign(Sign::Bang),
            TokenKind::Sign(Sign::NotEqual),
        ]
        .as_slice()
    );
    let and = kinds_of(rt.alloc(), b"a&&b")?;
    assert_eq!(rt; and.get(1).copied(), Some(TokenKind::Sign(Sign::And)));
    let most = kinds_of(rt.alloc(), b"9223372036854775807")?;
    assert_eq!(rt; most.first().copied(), Some(TokenKind::Number(i64::MAX)));
    Ok(())
}

#[test]
fn what_begins_no_token(rt: HostRuntime) {
    let bad: [&[u8]; 9] = [
        b"9223372036854775808",
        b"1x",
        b"1_",
        b"a = b",
        b"a & b",
        b"a;b",
        b"a\nb",
        b"x&i",
        b"?\xC8",
    ];
    check_problems(&rt, rt.alloc(), &bad, TextProblem::BadToken);
    let problem = problem_of(rt.alloc(), b"a\xC8");
    assert_eq!(rt; problem, Some(TextProblem::NotAscii));
}

/// A line in three loops, last read in iteration 12 of `j`, iteration 3 of a loop without a counter, and iteration 1 of
/// `i`.
const JOINS: &[u8] = b"j FOR 12\nFOR 3\ni FOR 1\nDAT x&i x&i&j &i 5&i j\nROF\nROF\nROF\n";

/// A join to `x`, which isn't a counter, in the same three loops as in `JOINS`.
const NO_COUNTER: &[u8] = b"j FOR 12\nFOR 3\ni FOR 1\nDAT &i&x\nROF\nROF\nROF\n";

/// Checks that a token is the name `name`.
fn check_name(rt: &impl Abort, names: &NameTable, token: &Token, name: &[u8]) {
    let found = match token.kind {
        TokenKind::Name(index) => names.name(index),
        _ => b"".as_slice(),
    };
    assert_eq!(rt; found, name);
}

/// Checks the tokens of the last line: two names and three numbers.
fn check_joined(rt: &impl Abort, program: &Program) -> Result<(), Fail> {
    let last = program.lines().last().ok_or("line")?;
    let [name, longer, counter, number, alone] = last.rest.as_slice() else {
        return Err("tokens".into());
    };
    check_name(rt, program.names(), name, b"x01");
    check_name(rt, program.names(), longer, b"x0112");
    assert_eq!(rt; counter.kind, TokenKind::Number(1));
    assert_eq!(rt; number.kind, TokenKind::Number(501));
    assert_eq!(rt; alone.kind, TokenKind::Number(12));
    Ok(())
}

#[test]
fn joins_and_counters(rt: HostRuntime) -> Result<(), Fail> {
    let program = expand(rt.alloc(), JOINS, &NAMES)?;
    let checked = check_joined(&rt, &program);
    drop(program);
    let bad = TextFault {
        line: 4,
        problem: TextProblem::BadToken,
        token: Some(Span { from: 27, to: 31 }),
    };
    assert_eq!(rt; expand(rt.alloc(), NO_COUNTER, &NAMES).err(), Some(bad));
    checked
}

fn check_read(rt: &impl Abort, read: &LineTokens) {
    assert_eq!(rt; read.names.name(0), b"ab".as_slice());
    assert_eq!(rt; read.names.name(1), b"".as_slice());
    let last = Token {
        kind: TokenKind::Number(12),
        line: 1,
        from: 5,
        to: 7,
    };
    assert_eq!(rt; read.tokens.last().copied(), Some(last));
}

#[test]
fn tokens_have_their_bytes(rt: HostRuntime) -> Result<(), Fail> {
    let read = scan(rt.alloc(), b" ab+ 12")?;
    check_read(&rt, &read);
    drop(read);
    Ok(())
}

/// If an allocation fails, the error is `OutOfMemory` with line 0.
#[test]
fn out_of_memory_has_no_line(rt: HostRuntime) {
    match scan(rt.alloc(), b"first second third + 4") {
        Ok(read) => {
            assert_eq!(rt; read.tokens.len(), 5);
            drop(read);
        }
        Err(fault) => assert_eq!(rt;
            fault,
            TextFault {
                line: 0,
                problem: TextProblem::OutOfMemory,
                token: None,
            }
        ),
    }
}
