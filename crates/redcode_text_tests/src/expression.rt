//! Expressions: known values, errors, and limits.
use redcode_text::{Env, ExprFault, Sign, TextFault, TextProblem, Token, TokenKind, eval};
use std::test::Fail;

/// Values of names: the name 0 has the value 5, and no other name has a value.
struct OneName;

impl Env for OneName {
    ghost use Rattle.std.specs.Prelude.{None, Some, pos, if◌then◌else◌, ◌==◌};

    ghost value_of = { λ _ name. if name == 0 then Some (pos 5) else None };

    fn value(&self, name: usize) -> Option<i64> {
        if name == 0 { Some(5) } else { None }
    }
}

fn token(kind: TokenKind) -> Token {
    Token {
        kind,
        line: 1,
        from: 0,
        to: 0,
    }
}

fn number(value: i64) -> Token {
    token(TokenKind::Number(value))
}

fn sign(sign: Sign) -> Token {
    token(TokenKind::Sign(sign))
}

/// Returns `count` copies of one sign, followed by 1.
fn signs_before_one(rt: HostRuntime, count: usize, with: Sign) -> Result<Vec<Token>, Fail> {
    let mut tokens = Vec::new(rt.alloc());
    for _ in 0..count {
        tokens.push(sign(with))?;
    }
    tokens.push(number(1))?;
    Ok(tokens)
}

#[test]
fn operators_group_to_the_left(rt: HostRuntime) -> Result<(), Fail> {
    let minus = [
        number(10),
        sign(Sign::Minus),
        number(3),
        sign(Sign::Minus),
        number(2),
    ];
    assert_eq!(rt; eval(&minus, &OneName), Ok(5));
    let levels = [
        number(2),
        sign(Sign::Plus),
        number(3),
        sign(Sign::Star),
        number(4),
        sign(Sign::Percent),
        number(5),
    ];
    assert_eq!(rt; eval(&levels, &OneName), Ok(4));
    let compared = [
        number(1),
        sign(Sign::Less),
        number(2),
        sign(Sign::Equal),
        number(1),
    ];
    assert_eq!(rt; eval(&compared, &OneName), Ok(1));
    let not_and = [sign(Sign::Bang), number(0), sign(Sign::And), number(2)];
    assert_eq!(rt; eval(&not_and, &OneName), Ok(1));
    Ok(())
}

#[test]
fn division_truncates_towards_zero(rt: HostRuntime) -> Result<(), Fail> {
    let quotient = [sign(Sign::Minus), number(7), sign(Sign::Slash), number(2)];
    assert_eq!(rt; eval(&quotient, &OneName), Ok(-3));
    let rest = [sign(Sign::Minus), number(7), sign(Sign::Percent), number(2)];
    assert_eq!(rt; eval(&rest, &OneName), Ok(-1));
    Ok(())
}

#[test]
fn values_out_of_range(rt: HostRuntime) -> Result<(), Fail> {
    let sum = [number(i64::MAX), sign(Sign::Plus), number(1)];
    assert_eq!(rt; eval(&sum, &OneName), Err(ExprFault::Range));
    let rest = [
        sign(Sign::OpenParen),
        sign(Sign::Minus),
        number(i64::MAX),
        sign(Sign::Minus),
        number(1),
        sign(Sign::CloseParen),
        sign(Sign::Percent),
        sign(Sign::Minus),
        number(1),
    ];
    assert_eq!(rt; eval(&rest, &OneName), Err(ExprFault::Range));
    Ok(())
}

#[test]
fn shape_comes_before_values(rt: HostRuntime) -> Result<(), Fail> {
    let closed = [
        number(1),
        sign(Sign::Slash),
        number(0),
        sign(Sign::CloseParen),
    ];
    assert_eq!(rt; eval(&closed, &OneName), Err(ExprFault::Syntax));
    let divided = [number(1), sign(Sign::Slash), number(0)];
    assert_eq!(rt; eval(&divided, &OneName), Err(ExprFault::DivideByZero));
    Ok(())
}

#[test]
fn names_stand_for_values(rt: HostRuntime) -> Result<(), Fail> {
    let known = [token(TokenKind::Name(0)), sign(Sign::Star), number(2)];
    assert_eq!(rt; eval(&known, &OneName), Ok(10));
    let unknown = [token(TokenKind::Name(1))];
    assert_eq!(rt; eval(&unknown, &OneName), Err(ExprFault::Unknown));
    Ok(())
}

#[test]
fn sixty_four_signs_are_allowed(rt: HostRuntime) -> Result<(), Fail> {
    let allowed = signs_before_one(rt, 64, Sign::Minus)?;
    assert_eq!(rt; eval(&allowed, &OneName), Ok(1));
    let refused = signs_before_one(rt, 65, Sign::Minus)?;
    assert_eq!(rt; eval(&refused, &OneName), Err(ExprFault::Depth));
    Ok(())
}

#[test]
fn sixty_four_parentheses_are_allowed(rt: HostRuntime) -> Result<(), Fail> {
    let mut allowed = signs_before_one(rt, 64, Sign::OpenParen)?;
    for _ in 0..64 {
        allowed.push(sign(Sign::CloseParen))?;
    }
    assert_eq!(rt; eval(&allowed, &OneName), Ok(1));
    let refused = signs_before_one(rt, 65, Sign::OpenParen)?;
    assert_eq!(rt; eval(&refused, &OneName), Err(ExprFault::Depth));
    Ok(())
}

#[test]
fn faults_are_displayed_by_number_and_name(rt: HostRuntime) -> Result<(), Fail> {
    let fault = TextFault {
        line: 3,
        problem: TextProblem::Expression(ExprFault::DivideByZero),
        token: None,
    };
    assert_eq!(rt;
        format!(in rt.alloc(); "{fault}")?.as_str(),
        "10 Expression 3 DivideByZero"
    );
    let fault = TextFault {
        line: 0,
        problem: TextProblem::OutOfMemory,
        token: None,
    };
    assert_eq!(rt;
        format!(in rt.alloc(); "{fault}")?.as_str(),
        "11 OutOfMemory"
    );
    assert_eq!(rt;
        format!(in rt.alloc(); "{}", ExprFault::Depth)?.as_str(),
        "5 Depth"
    );
    Ok(())
}
