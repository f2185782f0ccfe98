//! Whole sources: their lines, directives and asserts, their errors, and their limits.
//!
//! A test passes its program to functions that borrow it, and then to `drop`. If the program went out of scope by
//! itself, the proof of each test would include how a program is dropped.
use redcode_text::{
    Assert, Env, Line, NameTable, PredefinedNames, Program, Sign, TextFault, TextProblem, Token,
    TokenKind, eval, expand,
};
use std::alloc::Global;
use std::process::Abort;
use std::test::Fail;

mod faults;
mod limits;
mod memory;
mod no_memory;
mod words;

/// The values of the predefined names.
pub const NAMES: PredefinedNames = PredefinedNames {
    core_size: 8000,
    max_processes: 8000,
    max_cycles: 80_000,
    max_length: 100,
    min_distance: 100,
    rounds: 1,
    warriors: 2,
    version: 80,
};

/// Prose that is never read, a loop of two iterations, and a line that uses the labels that the loop made.
const LOOPS: &[u8] =
    b"FOR 0\nthis is prose, 100\xE2\x82\xAC\nROF\ni FOR 2\nx&i DAT i, 0\nROF\nDAT x02, x01\n";

/// An EQU name with a definition of two lines, used as an operation.
const COPIES: &[u8] =
    b"step EQU 4\ncopy EQU MOV.I target, step\n     EQU ADD.AB #step, target\ntarget DAT 0, 0\ncopy\nEND target\n";

/// The line and the problem of an error.
type Located = (usize, TextProblem);

fn located(fault: TextFault) -> Located {
    (fault.line, fault.problem)
}

fn fault_of(alloc: Global, source: &[u8]) -> Option<Located> {
    expand(alloc, source, &NAMES).err().map(located)
}

fn at(line: usize, problem: TextProblem) -> Option<Located> {
    Some((line, problem))
}

/// Checks that each source has its error, on the given line.
fn check_faults(rt: &impl Abort, alloc: Global, rows: &[(&[u8], usize, TextProblem)]) {
    for (source, line, problem) in rows {
        let fault = at(*line, *problem);
        assert_eq!(rt; fault_of(alloc, source), fault, "in {source:?}");
    }
}

/// Checks that no source has an error.
fn check_no_faults(rt: &impl Abort, alloc: Global, sources: &[&[u8]]) {
    for source in sources {
        assert_eq!(rt; fault_of(alloc, source), None, "in {source:?}");
    }
}

fn push_word(text: &mut String, word: &str) -> Result<(), Fail> {
    text.push_str(word)?;
    text.push_str(" ")?;
    Ok(())
}

/// Appends the name with this index, and a space.
fn push_named(text: &mut String, names: &NameTable, name: usize) -> Result<(), Fail> {
    match str::from_utf8(names.name(name)) {
        Ok(word) => push_word(text, word),
        Err(_) => Err("name".into()),
    }
}

/// Appends tokens, with a space after each.
fn push_tokens(
    alloc: Global,
    text: &mut String,
    names: &NameTable,
    tokens: &[Token],
) -> Result<(), Fail> {
    for token in tokens {
        match token.kind {
            TokenKind::Number(number) => push_word(text, &format!(in alloc; "{number}")?)?,
            TokenKind::Name(name) => push_named(text, names, name)?,
            TokenKind::Sign(Sign::Comma) => push_word(text, ",")?,
            TokenKind::Sign(Sign::Plus) => push_word(text, "+")?,
            TokenKind::Sign(Sign::Dot) => push_word(text, ".")?,
            TokenKind::Sign(Sign::Hash) => push_word(text, "#")?,
            TokenKind::Sign(_) => push_word(text, "sign")?,
        }
    }
    Ok(())
}

/// Returns a line as text: its number, its labels, each with a colon, its operation, and the remaining tokens after a
/// bar.
fn shown(alloc: Global, names: &NameTable, line: &Line) -> Result<String, Fail> {
    let number = line.number;
    let mut text = format!(in alloc; "{number} ")?;
    for label in &line.labels {
        push_named(&mut text, names, *label)?;
        push_word(&mut text, ":")?;
    }
    if let Some(operation) = line.operation {
        push_named(&mut text, names, operation)?;
    }
    push_word(&mut text, "|")?;
    push_tokens(alloc, &mut text, names, &line.rest)?;
    Ok(text)
}

/// Returns lines as text, with LF after each.
fn all_shown(alloc: Global, names: &NameTable, lines: &[Line]) -> Result<String, Fail> {
    let mut text = String::new(alloc);
    for line in lines {
        text.push_str(&shown(alloc, names, line)?)?;
        text.push_str("\n")?;
    }
    Ok(text)
}

/// Returns all lines of the program of a source, as text.
fn lines_of(alloc: Global, source: &[u8]) -> Result<String, Fail> {
    let program = expand(alloc, source, &NAMES)?;
    let text = all_shown(alloc, program.names(), program.lines());
    drop(program);
    text
}

/// Checks that the program of a source has these lines.
fn check_lines(rt: &impl Abort, alloc: Global, source: &[u8], expected: &str) -> Result<(), Fail> {
    let text = lines_of(alloc, source)?;
    assert_eq!(rt; text.as_str(), expected);
    Ok(())
}

/// Returns `count` copies of a text.
fn copies(alloc: Global, text: &[u8], count: usize) -> Result<Vec<u8>, Fail> {
    let mut made = Vec::new(alloc);
    for _ in 0..count {
        made.extend_from_slice(text)?;
    }
    Ok(made)
}

/// Checks that the source of `count` copies of a text has the error `fault`, or none.
fn check_copies(
    rt: &impl Abort,
    alloc: Global,
    text: &[u8],
    count: usize,
    fault: Option<Located>,
) -> Result<(), Fail> {
    let source = copies(alloc, text, count)?;
    assert_eq!(rt; fault_of(alloc, &source), fault);
    Ok(())
}

/// Returns texts, one after another.
fn joined(alloc: Global, texts: &[&[u8]]) -> Result<Vec<u8>, Fail> {
    let mut made = Vec::new(alloc);
    for text in texts {
        made.extend_from_slice(text)?;
    }
    Ok(made)
}

#[test]
fn loops_are_read_and_prose_is_not(rt: HostRuntime) -> Result<(), Fail> {
    let lines = "5 x01 : DAT | 1 , 0 \n5 x02 : DAT | 2 , 0 \n7 DAT | x02 , x01 \n";
    check_lines(&rt, rt.alloc(), LOOPS, lines)?;
    let unclosed = b"FOR 0\nthis is prose\nROF\ni FOR 2\nx&i DAT i, 0\nDAT x02, x01\n";
    let fault = fault_of(rt.alloc(), unclosed);
    assert_eq!(rt; fault, at(4, TextProblem::UnclosedFor));
    Ok(())
}

#[test]
fn an_operation_stands_for_lines(rt: HostRuntime) -> Result<(), Fail> {
    let lines =
        "4 target : DAT | 0 , 0 \n5 MOV | . I target , step \n5 ADD | . AB # step , target \n6 END | target \n";
    check_lines(&rt, rt.alloc(), COPIES, lines)?;
    let source = b"m EQU MOV 0\n EQU\n EQU DAT\na b: m , 1\n";
    let lines = "4 a : b : MOV | 0 \n4 | \n4 DAT | , 1 \n";
    check_lines(&rt, rt.alloc(), source, lines)
}

/// Checks that there are 100 lines without labels, all from line 2.
fn check_rounds(rt: &impl Abort, lines: &[Line]) {
    assert_eq!(rt; lines.len(), 100);
    for line in lines {
        assert_eq!(rt; line.number, 2);
        assert_eq!(rt; line.labels.len(), 0);
    }
}

fn last_shown(alloc: Global, program: &Program) -> Result<String, Fail> {
    let last = program.lines().last().ok_or("line")?;
    shown(alloc, program.names(), last)
}

#[test]
fn a_counter_has_the_number_of_the_round(rt: HostRuntime) -> Result<(), Fail> {
    let program = expand(rt.alloc(), b"i FOR 100\nDAT i\nROF\n", &NAMES)?;
    check_rounds(&rt, program.lines());
    let last = last_shown(rt.alloc(), &program);
    drop(program);
    assert_eq!(rt; last?.as_str(), "2 DAT | 100 ");
    Ok(())
}

#[test]
fn end_stops_the_reading(rt: HostRuntime) -> Result<(), Fail> {
    let inside = b"i FOR 3\nDAT i\nEND 1\nDAT ?\nROF ?\nDAT ?\n";
    check_lines(&rt, rt.alloc(), inside, "2 DAT | 1 \n3 END | 1 \n")?;
    let used = b"e EQU DAT 1\n EQU eNd 2\n EQU DAT 3\ne\nROF\n";
    check_lines(&rt, rt.alloc(), used, "4 DAT | 1 \n4 eNd | 2 \n")
}

/// Directives among prose, before and after the `;redcode` line, and an instruction between two asserts.
const DIRECTIVES: &[u8] =
    b"prose \xC8\n;name first\n ;RedCode-94 ?\n;name  An \xC8imp \n;AUTHOR\n;assert CORESIZE ;comment\nMOV 0\n;assert x\n;name\n";

fn check_said(rt: &impl Abort, program: &Program, name: &str) {
    assert_eq!(rt; program.name(), name);
    assert_eq!(rt; program.author(), "Anonymous");
}

#[test]
fn what_directives_say(rt: HostRuntime) -> Result<(), Fail> {
    let cases = [(DIRECTIVES, "An ?imp"), (b"".as_slice(), "Unknown")];
    for (source, name) in cases {
        let program = expand(rt.alloc(), source, &NAMES)?;
        check_said(&rt, &program, name);
        drop(program);
    }
    Ok(())
}

#[test]
fn lines_among_directives(rt: HostRuntime) -> Result<(), Fail> {
    check_lines(&rt, rt.alloc(), DIRECTIVES, "7 MOV | 0 \n")?;
    let none = expand(rt.alloc(), b"", &NAMES)?;
    assert_eq!(rt; none.names().len(), 0);
    drop(none);
    Ok(())
}

/// Checks the line of an assert, the number of instructions before it, and its number of tokens.
fn check_assert(rt: &impl Abort, assert: &Assert, number: usize, before: u32, tokens: usize) {
    assert_eq!(rt; assert.number, number);
    assert_eq!(rt; assert.current_line, before);
    assert_eq!(rt; assert.tokens.len(), tokens);
}

fn check_asserts(rt: &impl Abort, asserts: &[Assert]) {
    assert_eq!(rt; asserts.len(), 2);
    check_assert(rt, &asserts[0], 6, 0, 1);
    check_assert(rt, &asserts[1], 8, 1, 1);
}

#[test]
fn what_is_asserted(rt: HostRuntime) -> Result<(), Fail> {
    let program = expand(rt.alloc(), DIRECTIVES, &NAMES)?;
    check_asserts(&rt, program.asserts());
    drop(program);
    Ok(())
}

/// Checks that there are two asserts, with three tokens and one token.
fn check_assert_lens(rt: &impl Abort, asserts: &[Assert]) {
    assert_eq!(rt; asserts.len(), 2);
    assert_eq!(rt; asserts[0].tokens.len(), 3);
    assert_eq!(rt; asserts[1].tokens.len(), 1);
}

#[test]
fn an_assert_ends_at_a_comment(rt: HostRuntime) -> Result<(), Fail> {
    let source = b" ;assert 1 + 1;2;3\n;assert\t2\n;assert;4\n;asserts 5\n";
    let program = expand(rt.alloc(), source, &NAMES)?;
    check_assert_lens(&rt, program.asserts());
    drop(program);
    Ok(())
}

/// Values of names: no name has a value.
struct NoNames;

impl Env for NoNames {
    ghost use Rattle.std.specs.Prelude.{None};

    ghost value_of = { λ _ _. None };

    fn value(&self, _: usize) -> Option<i64> {
        None
    }
}

/// Checks that there is one line, whose operand has the value 8 after its EQU names are replaced.
fn check_operand(rt: &impl Abort, alloc: Global, program: &Program) -> Result<(), Fail> {
    assert_eq!(rt; program.lines().len(), 1);
    for line in program.lines() {
        let operand = program.substitute(alloc, &line.rest)?;
        assert_eq!(rt; eval(&operand, &NoNames), Ok(8));
    }
    Ok(())
}

#[test]
fn an_operand_is_replaced_and_has_a_value(rt: HostRuntime) -> Result<(), Fail> {
    let program = expand(rt.alloc(), b"step EQU 4\nfirst DAT step*2\n", &NAMES)?;
    let checked = check_operand(&rt, rt.alloc(), &program);
    drop(program);
    checked
}

/// Returns the number of labels of the first line of a source.
fn first_labels(alloc: Global, source: &[u8]) -> Result<usize, Fail> {
    let program = expand(alloc, source, &NAMES)?;
    let labels = match program.lines() {
        [first, ..] => first.labels.len(),
        [] => 0,
    };
    drop(program);
    Ok(labels)
}
