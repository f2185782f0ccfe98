//! Formulas: known values, and errors.

use redcode_asm::{Formula, FormulaFault};
use redcode_text::ExprFault;
use std::alloc::Global;
use std::test::Fail;

fn formula(alloc: Global, text: &str) -> Result<Formula, Fail> {
    let formula = Formula::new(alloc, text.as_bytes()).ok().ok_or("formula")?;
    Ok(formula)
}

fn fault_of(alloc: Global, text: &[u8]) -> Option<FormulaFault> {
    Formula::new(alloc, text).err()
}

/// Returns the value of the formula `text`, or the error of its value.
fn score(
    alloc: Global,
    text: &str,
    warriors: i64,
    survivors: i64,
) -> Result<Result<i64, ExprFault>, Fail> {
    let formula = formula(alloc, text)?;
    let score = formula.score(warriors, survivors);
    drop(formula);
    Ok(score)
}

/// Formulas, numbers of warriors and survivors, and the value or its error.
const SCORES: [(&str, i64, i64, Result<i64, ExprFault>); 7] = [
    ("(W*W-1)/S", 2, 1, Ok(3)),
    ("(W*W-1)/S", 2, 2, Ok(1)),
    ("(W*W-1)/S", 3, 1, Ok(8)),
    ("(W*W-1)/S", 3, 2, Ok(4)),
    ("(W*W-1)/S", 3, 3, Ok(2)),
    ("1/(S-2)", 2, 2, Err(ExprFault::DivideByZero)),
    ("9223372036854775807+W", 1, 1, Err(ExprFault::Range)),
];

#[test]
fn scores(rt: HostRuntime) -> Result<(), Fail> {
    for (text, warriors, survivors, expected) in SCORES {
        assert_eq!(rt; score(rt.alloc(), text, warriors, survivors)?, expected);
    }
    Ok(())
}

const NO_FORMULAS: [(&[u8], ExprFault); 11] = [
    (b"", ExprFault::Syntax),
    (b"1+", ExprFault::Syntax),
    (b"W;", ExprFault::Syntax),
    (b"x+", ExprFault::Syntax),
    (b"1x", ExprFault::Syntax),
    (b"W\n", ExprFault::Syntax),
    (b"(W", ExprFault::Syntax),
    (b"\xC8", ExprFault::Syntax),
    (b"x+1", ExprFault::Unknown),
    (b"w", ExprFault::Unknown),
    (b"W+S*CORESIZE", ExprFault::Unknown),
];

#[test]
fn texts_that_are_no_formulas(rt: HostRuntime) {
    for (text, fault) in NO_FORMULAS {
        assert_eq!(rt;
            fault_of(rt.alloc(), text),
            Some(FormulaFault::Expression(fault))
        );
    }
}

/// Returns the error of the formula `W` with `count` spaces after it, if it has one.
fn fault_before_blanks(alloc: Global, count: u32) -> Result<Option<FormulaFault>, Fail> {
    let mut text = Vec::from_slice(alloc, b"W")?;
    for _ in 0..count {
        text.push(b' ')?;
    }
    let fault = fault_of(alloc, &text);
    drop(text);
    Ok(fault)
}

#[test]
fn length_of_a_formula(rt: HostRuntime) -> Result<(), Fail> {
    let syntax = FormulaFault::Expression(ExprFault::Syntax);
    for (blanks, fault) in [(255, None), (256, Some(syntax))] {
        assert_eq!(rt; fault_before_blanks(rt.alloc(), blanks)?, fault);
    }
    Ok(())
}

#[test]
fn faults_as_they_are_displayed(rt: HostRuntime) -> Result<(), Fail> {
    let fault = FormulaFault::Expression(ExprFault::Syntax);
    assert_eq!(rt;
        format!(in rt.alloc(); "{fault}")?.as_str(),
        "1 Expression 1 Syntax"
    );
    assert_eq!(rt;
        format!(in rt.alloc(); "{}", FormulaFault::OutOfMemory)?.as_str(),
        "2 OutOfMemory"
    );
    Ok(())
}
