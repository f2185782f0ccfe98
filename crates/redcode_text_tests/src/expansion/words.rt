//! Long words, and words after joins.
use super::{NAMES, at, check_copies, copies, first_labels, joined};
use redcode_text::{Line, NameTable, TextProblem, TokenKind, expand};
use std::alloc::Global;
use std::process::Abort;
use std::test::Fail;

#[test]
fn long_lines(rt: HostRuntime) -> Result<(), Fail> {
    let alloc = rt.alloc();
    check_copies(&rt, alloc, b" \t  \r", 200_000, None)?;
    let bad = at(1, TextProblem::BadToken);
    check_copies(&rt, alloc, b"0123456789", 100_000, bad)?;
    let word = copies(alloc, b"x", 1_000_000)?;
    assert_eq!(rt; first_labels(alloc, &word)?, 1);
    Ok(())
}

/// Returns a source with long words in a loop: its counter, a name with a join to the counter, a name without a join,
/// and a number.
fn long_words_in_loop(alloc: Global) -> Result<Vec<u8>, Fail> {
    let word = copies(alloc, b"x", 300)?;
    let zeros = copies(alloc, b"0", 300)?;
    let texts: [&[u8]; 12] = [
        &word,
        b" FOR 3\n",
        &word,
        b"y&",
        &word,
        b" DAT ",
        &word,
        b"y ",
        &word,
        b" ",
        &zeros,
        b"70\nROF\n",
    ];
    joined(alloc, &texts)
}

/// Checks that there are three lines, and that the last one has three tokens after its operation, of which the last two
/// are 3 and 70.
fn check_long_words(rt: &impl Abort, lines: &[Line]) {
    assert_eq!(rt; lines.len(), 3);
    let rest = lines[2].rest.as_slice();
    assert_eq!(rt; rest.len(), 3);
    assert_eq!(rt; rest[1].kind, TokenKind::Number(3));
    assert_eq!(rt; rest[2].kind, TokenKind::Number(70));
}

#[test]
fn long_words_in_each_round(rt: HostRuntime) -> Result<(), Fail> {
    let source = long_words_in_loop(rt.alloc())?;
    let program = expand(rt.alloc(), &source, &NAMES)?;
    check_long_words(&rt, program.lines());
    drop(program);
    Ok(())
}

/// Returns a loop of two iterations, with a label of `len` letters and the digits of the iteration, and then a line
/// that uses both labels.
fn joined_in_loop(alloc: Global, len: usize) -> Result<Vec<u8>, Fail> {
    let word = copies(alloc, b"x", len)?;
    let texts: [&[u8]; 7] = [
        b"i FOR 2
",
        &word,
        b"&i NOP
ROF
JMP ",
        &word,
        b"02, ",
        &word,
        b"01
",
    ];
    joined(alloc, &texts)
}

/// Appends a name of a program to a text, and a space.
fn push_name(names: &NameTable, name: usize, text: &mut Vec<u8>) -> Result<(), Fail> {
    text.extend_from_slice(names.name(name))?;
    text.push(b' ')?;
    Ok(())
}

/// Returns the labels of lines and the names after their operations, with a space after each.
fn names_of_lines(alloc: Global, names: &NameTable, lines: &[Line]) -> Result<Vec<u8>, Fail> {
    let mut text = Vec::new(alloc);
    for line in lines {
        for label in &line.labels {
            push_name(names, *label, &mut text)?;
        }
        for token in &line.rest {
            if let TokenKind::Name(name) = token.kind {
                push_name(names, name, &mut text)?;
            }
        }
    }
    Ok(text)
}

fn check_joined_names(rt: &impl Abort, alloc: Global, len: usize) -> Result<(), Fail> {
    let word = copies(alloc, b"x", len)?;
    let texts: [&[u8]; 8] = [&word, b"01 ", &word, b"02 ", &word, b"02 ", &word, b"01 "];
    let expected = joined(alloc, &texts)?;
    let source = joined_in_loop(alloc, len)?;
    let program = expand(alloc, &source, &NAMES)?;
    let names = names_of_lines(alloc, program.names(), program.lines());
    drop(program);
    assert_eq!(rt; names?.as_slice(), expected.as_slice());
    Ok(())
}

#[test]
fn joined_names_of_any_length(rt: HostRuntime) -> Result<(), Fail> {
    for len in [1, 253, 254, 255, 256, 300] {
        check_joined_names(&rt, rt.alloc(), len)?;
    }
    Ok(())
}
