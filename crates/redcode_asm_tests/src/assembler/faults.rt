//! Errors of sources: their order, their tokens, the error of every prefix of a source, and how errors are displayed.
use super::{
    Beginnings, COPIES, Faulty, LOOPS, SYNTAX, UNKNOWN, check_faults, check_listing, core_of,
    fault_of, problem_of, short_warriors,
};
use mars_cell::Params;
use redcode_asm::{AsmFault, AsmProblem};
use redcode_text::{ExprFault, Span, TextProblem};
use std::alloc::Global;
use std::process::Abort;
use std::test::Fail;

macro_rules! fault {
    ($line:expr, $problem:expr) => {
        Some(($line, $problem))
    };
}

#[test]
fn each_fault(rt: HostRuntime) -> Result<(), Fail> {
    let params = core_of(8000)?;
    check_faults(&rt, rt.alloc(), &params, &EACH_FAULT);
    Ok(())
}

const EACH_FAULT: [Faulty; 21] = [
    ("JMP", 1, AsmProblem::Operand),
    ("NOP 1, 2, 3", 1, AsmProblem::Operand),
    ("NOP\nNOP 1,", 2, AsmProblem::Operand),
    ("STP 1, 2", 1, AsmProblem::Operation),
    ("MOV.Q 1, 2", 1, AsmProblem::Operation),
    ("5 NOP", 1, AsmProblem::Operation),
    ("NOP 1, #", 1, SYNTAX),
    ("NOP x, 1/0", 1, UNKNOWN),
    (
        "NOP 1/0, x",
        1,
        AsmProblem::Expression(ExprFault::DivideByZero),
    ),
    (
        "NOP 9223372036854775807+1",
        1,
        AsmProblem::Expression(ExprFault::Range),
    ),
    ("NOP\nORG 4\nNOP\nNOP\nNOP", 2, AsmProblem::BadOrigin),
    (
        "ORG 4\nADD #4, 3\nMOV 2, @2\nJMP -2\nDAT #0, #0",
        1,
        AsmProblem::BadOrigin,
    ),
    ("NOP\nORG -1", 2, AsmProblem::BadOrigin),
    ("NOP\nORG", 2, SYNTAX),
    ("NOP\nEND x", 2, UNKNOWN),
    (";assert 0\nNOP", 1, AsmProblem::AssertFailed),
    (";assert a\na NOP", 1, UNKNOWN),
    (";assert 1\n", 0, AsmProblem::Empty),
    ("", 0, AsmProblem::Empty),
    (
        "x EQU 1\n EQU 2\nDAT x",
        3,
        AsmProblem::Text(TextProblem::BadToken),
    ),
    (
        "FOR 0\nthis is prose\nROF\ni FOR 2\nx&i DAT i, 0\n",
        4,
        AsmProblem::Text(TextProblem::UnclosedFor),
    ),
];

#[test]
fn order_of_faults(rt: HostRuntime) -> Result<(), Fail> {
    let params = short_warriors()?;
    check_faults(&rt, rt.alloc(), &params, &ORDER_OF_FAULTS);
    Ok(())
}

const ORDER_OF_FAULTS: [Faulty; 8] = [
    ("NOP x\nNOP 1x", 2, AsmProblem::Text(TextProblem::BadToken)),
    (
        ";assert 0\nORG 9\nNOP\nNOP\nNOP\nNOP\nNOP\nNOP x\n",
        8,
        UNKNOWN,
    ),
    (
        ";assert 0\nORG 9\nNOP\nNOP\nNOP\nNOP\nNOP\nNOP 1\n",
        7,
        AsmProblem::TooLong,
    ),
    (";assert 0\nORG 9\nNOP\n", 2, AsmProblem::BadOrigin),
    (
        ";assert 1\n;assert 0\n;assert x\nNOP\n",
        2,
        AsmProblem::AssertFailed,
    ),
    (
        "m EQU 1\n EQU 2\nMOV m",
        3,
        AsmProblem::Text(TextProblem::BadToken),
    ),
    ("m EQU 1\n EQU 2\nMOV.Q m", 3, AsmProblem::Operation),
    ("m EQU\nJMP m", 2, AsmProblem::Operand),
];

/// Checks the token of each error: `from` up to, but excluding, `to`; 0 and 0 if there is none.
#[test]
fn tokens_of_faults(rt: HostRuntime) -> Result<(), Fail> {
    let params = short_warriors()?;
    for (source, from, to) in TOKENS_OF_FAULTS {
        let fault = fault_of(rt.alloc(), &params, source.as_bytes()).ok_or("fault")?;
        let expected = if to == 0 {
            None
        } else {
            Some(Span { from, to })
        };
        assert_eq!(rt; fault.token, expected, "{source}");
    }
    Ok(())
}

const TOKENS_OF_FAULTS: [(&str, usize, usize); 26] = [
    ("here: MVO 1, 2", 6, 9),
    ("NOP\n5", 4, 5),
    ("MOV.ab.ba 1, 2", 6, 7),
    ("MOV .", 4, 5),
    ("m EQU\nJMP m ; to m", 6, 9),
    ("JMP , 1, 2, 3", 7, 8),
    ("c EQU ,\nNOP c", 6, 7),
    ("NOP 1 2", 6, 7),
    ("NOP -", 4, 5),
    ("NOP 1, @", 7, 8),
    ("NOP 1)", 5, 6),
    ("NOP 0, 5+(n-m)", 10, 11),
    ("NOP 0, #3%0", 8, 9),
    ("NOP\nORG $0", 8, 9),
    ("NOP\nEND m\n m EQU 3", 8, 9),
    ("m EQU 3 + 4\nNOP\nORG m", 6, 7),
    (";assert MAXLENGTH-MAXLENGTH\nNOP", 8, 17),
    (";assert\nNOP", 0, 0),
    ("i FOR 3\nj FOR 2\nNOP 1, k&i&j\nROF\nROF", 23, 28),
    ("a EQU b\nb EQU c-1\nNOP a", 14, 15),
    ("i FOR 9\nNOP\nROF", 8, 11),
    ("\n\n", 0, 0),
    ("NOP\nNOP 3 ? 4", 10, 11),
    ("NOP\na NOP\na NOP", 10, 11),
    ("NOP\ni FOR CORESIZE/0", 6, 9),
    ("x EQU 1-x\nNOP 3, 2-x", 8, 9),
];

#[test]
fn bytes_outside_ascii(rt: HostRuntime) -> Result<(), Fail> {
    let params = core_of(8000)?;
    let expected = AsmFault {
        line: 1,
        problem: AsmProblem::Text(TextProblem::NotAscii),
        token: Some(Span { from: 4, to: 5 }),
    };
    assert_eq!(rt; fault_of(rt.alloc(), &params, b"NOP \xC8"), Some(expected));
    for source in [
        b"NOP ;\xC8".as_slice(),
        b"FOR 0\n\xC8\nROF\nNOP\n".as_slice(),
        b"\xC8\n;redcode\nNOP\n".as_slice(),
    ] {
        check_listing(&rt, rt.alloc(), &params, source, "ORG 0\nNOP.F $0, $0\n")?;
    }
    Ok(())
}

const BEGINNINGS_OF_LOOPS: Beginnings = &[
    (0, fault!(0, AsmProblem::Empty)),
    // `FOR`
    (3, fault!(1, AsmProblem::Text(TextProblem::UnclosedFor))),
    // `ROF`, and then `i FOR`
    (23, fault!(0, AsmProblem::Empty)),
    (29, fault!(4, AsmProblem::Text(TextProblem::UnclosedFor))),
    (48, None),
    // `DAT x`, and then `DAT x02`
    (54, fault!(7, AsmProblem::Expression(ExprFault::Unknown))),
    (56, None),
    // `DAT x02,`, and then `DAT x02, x`
    (57, fault!(7, AsmProblem::Operand)),
    (59, fault!(7, AsmProblem::Expression(ExprFault::Unknown))),
    (61, None),
];

const BEGINNINGS_OF_COPIES: Beginnings = &[
    (0, fault!(0, AsmProblem::Empty)),
    // `target DAT`, and then `target DAT 0,`
    (79, None),
    (82, fault!(4, AsmProblem::Operand)),
    (84, None),
    // `END t`
    (95, fault!(6, AsmProblem::Expression(ExprFault::Unknown))),
    (100, None),
];

/// Checks that each prefix of the source has its error.
fn check_beginnings(
    rt: &impl Abort,
    alloc: Global,
    params: &Params,
    source: &[u8],
    beginnings: Beginnings,
) {
    let mut expected = None;
    for end in 0..=source.len() {
        if let Some((_, fault)) = beginnings.iter().find(|(from, _)| *from == end) {
            expected = *fault;
        }
        assert_eq!(rt;
            problem_of(alloc, params, &source[..end]),
            expected,
            "{end}"
        );
    }
}

#[test]
fn beginnings(rt: HostRuntime) -> Result<(), Fail> {
    let params = core_of(8000)?;
    check_beginnings(&rt, rt.alloc(), &params, LOOPS, BEGINNINGS_OF_LOOPS);
    check_beginnings(&rt, rt.alloc(), &params, COPIES, BEGINNINGS_OF_COPIES);
    Ok(())
}

#[test]
fn faults_as_they_are_displayed(rt: HostRuntime) -> Result<(), Fail> {
    let cases = [
        (
            AsmProblem::Text(TextProblem::UnclosedFor),
            "1 Text 3 UnclosedFor",
        ),
        (AsmProblem::Operation, "2 Operation"),
        (AsmProblem::Operand, "3 Operand"),
        (
            AsmProblem::Expression(ExprFault::Depth),
            "4 Expression 5 Depth",
        ),
        (AsmProblem::AssertFailed, "5 AssertFailed"),
        (AsmProblem::BadOrigin, "6 BadOrigin"),
        (AsmProblem::Empty, "7 Empty"),
        (AsmProblem::TooLong, "8 TooLong"),
        (AsmProblem::OutOfMemory, "9 OutOfMemory"),
    ];
    for (problem, text) in cases {
        let fault = AsmFault {
            line: 7,
            problem,
            token: None,
        };
        assert_eq!(rt; format!(in rt.alloc(); "{fault}")?.as_str(), text);
    }
    Ok(())
}
