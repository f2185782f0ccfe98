//! Directives: comments with a meaning.
ghost use Rattle.std.specs.Prelude.{◌≡◌, ◌≤◌, ◌<◌, ◌+◌, length, map, reverse, string_bytes, take, true, nat_eq, IfOk, IfSome, Ok};
ghost use Rattle.std.specs.List.{starts_with};
ghost use Rattle.std.specs.Str.{str_to_ascii_lowercase};
ghost use Rattle.redcode_text.specs.Lines.{printable};
ghost use Rattle.redcode_text.specs.Code.Comments.{assert_place, meaning, meaning_of, printed_value, text_found, trimmed};
ghost use Rattle.redcode_text.specs.Code.Problems.{Gives};
ghost use Rattle.redcode_text.specs.Programs.{IsPrinted};
ghost use Rattle.redcode_text.specs.Source.{blank_len, without_blanks};

use crate::characters::{blank_len, is_blank, is_word};
use crate::fault::{TextProblem, TextTokenProblem};
use crate::limits::MAX_NAME;
use std::alloc::Global;

/// Returns whether a line begins, after whitespace, with `directive`, ignoring case. `directive` is in lower case.
pub fn has_directive(directive: &[u8], bytes: &[u8]) -> bool
    requires { str_to_ascii_lowercase directive.now ≡ directive.now }
    ensures value { result ≡ starts_with nat_eq (str_to_ascii_lowercase (without_blanks bytes.now)) directive.now }
    ensures within { result ≡ true → blank_len bytes.now + length directive.now ≤ length bytes.now }
{
    let text = &bytes[blank_len(bytes)..];
    if text.len() < directive.len() {
        return false;
    }
    is_word(directive, &text[..directive.len()])
}

/// Returns the offset after `directive`, if the line begins, after whitespace, with `directive` as a whole word, in
/// either case. `directive` is in lower case and includes the `;`.
fn directive_text_at(directive: &[u8], bytes: &[u8]) -> Option<usize>
    requires { str_to_ascii_lowercase directive.now ≡ directive.now }
    ensures value { result ≡ text_found directive.now bytes.now }
    ensures within { IfSome result (λ at. at ≤ length bytes.now) }
{
    if !has_directive(directive, bytes) {
        return None;
    }
    let at = blank_len(bytes) + directive.len();
    match &bytes[at..] {
        [first, ..] if !is_blank(*first) => None,
        _ => Some(at),
    }
}

/// Returns the byte to use in a name: `?` if it isn't printable.
fn printable(byte: u8) -> u8
    ensures value { result ≡ printable byte }
    ensures ascii { result < 128 }
{
    if b' ' <= byte && byte <= b'~' {
        byte
    } else {
        b'?'
    }
}

/// Returns the number of bytes before the whitespace at the end.
fn trimmed_len(text: &[u8]) -> usize
    ensures value { take result text.now ≡ reverse (without_blanks (reverse text.now)) }
    ensures within { result ≤ length text.now }
{
    let mut len = text.len();
    while len > 0 {
        if !is_blank(text[len - 1]) {
            return len;
        }
        len -= 1;
    }
    0
}

/// Returns bytes as a string for a name, with `?` for bytes that aren't printable.
fn printed(alloc: Global, bytes: &[u8]) -> Result<String, TextTokenProblem>
    ensures { Gives (λ text. string_bytes text) result (Ok (map printable bytes.now)) }
{
    let mut text = String::new(alloc);
    for byte in bytes {
        text.push(char::from(printable(*byte)))?;
    }
    Ok(text)
}

/// Returns the text of `;name` or `;author` without the whitespace at both ends.
fn trimmed(text: &[u8]) -> &[u8]
    ensures { result.now ≡ trimmed text.now }
{
    let front = &text[blank_len(text)..];
    &front[..trimmed_len(front)]
}

/// Returns the value of `;name` or `;author`: the printable form of at most the first 60 bytes of `trimmed`, which has
/// whitespace at neither end.
pub fn directive_value(alloc: Global, trimmed: &[u8]) -> Result<String, TextTokenProblem>
    ensures value { Gives (λ value. string_bytes value) result (Ok (printed_value trimmed.now)) }
    ensures printed { IfOk result (λ value. IsPrinted (string_bytes value)) }
{
    printed(alloc, &trimmed[..trimmed.len().min(MAX_NAME)])
}

/// The meaning of a comment.
#[derive(Clone, Copy)]
pub enum Comment<'a> {
    /// `;name`, with its text without whitespace at both ends.
    Name(&'a [u8]),
    /// `;author`, with its text without whitespace at both ends.
    Author(&'a [u8]),
    /// `;assert`, with the offset of its expression.
    Assert(usize),
    Other,
}

/// Returns the meaning of a line as a comment.
pub fn comment_of(bytes: &[u8]) -> Comment<'_>
    ensures value { meaning_of result ≡ meaning bytes.now }
    ensures inside { assert_place result ≤ length bytes.now }
{
    if let Some(at) = directive_text_at(b";name", bytes) {
        return Comment::Name(trimmed(&bytes[at..]));
    }
    if let Some(at) = directive_text_at(b";author", bytes) {
        return Comment::Author(trimmed(&bytes[at..]));
    }
    match directive_text_at(b";assert", bytes) {
        Some(at) => Comment::Assert(at),
        None => Comment::Other,
    }
}
