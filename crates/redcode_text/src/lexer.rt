//! Reads the tokens of a line.
ghost use Rattle.std.specs.Prelude.{◌≡◌, ◌≤◌, ◌<◌, ◌+◌, ◌^◌, [], drop, length, vec_len, IfOk, OnOk};
ghost use Rattle.redcode_text.specs.Outcomes.{IsResult};
ghost use Rattle.redcode_text.specs.Views.{scan_of};
ghost use Rattle.redcode_text.specs.Code.Problems.{Gives, GivesBare};
ghost use Rattle.redcode_text.specs.Code.Scanning.{found_without_names, one_token, with_names};
ghost use Rattle.redcode_text.specs.Code.SourceLoops.{loops_of};
ghost use Rattle.redcode_text.specs.Tokens.{begins_word, is_blank, scan_from, scanned, sign_token, span_at, token_at, unread_len};

pub mod open_loops;
pub mod source_names;
mod words;

use crate::characters::{begins_word, is_blank, word_len};
use crate::fault::{TextFault, TextProblem, TextTokenProblem};
use crate::lexer::source_names::SourceNames;
use crate::lexer::words::read_word;
use crate::names::NameTable;
use crate::token::{Span, Spelled, Token, TokenKind, one_byte_sign, two_byte_sign};
use std::alloc::Global;

/// The part of a line that is read as tokens.
#[derive(Clone, Copy)]
pub struct Text<'a> {
    /// The line number, from 1.
    pub number: usize,
    /// The offset of the first byte in the source.
    pub at: usize,
    pub bytes: &'a [u8],
}

/// Reads the sign at the start of `bytes`. A sign of two bytes has precedence over a sign of one byte.
fn read_sign(bytes: &[u8]) -> Result<Spelled, TextProblem>
    ensures value { found_without_names result ≡ sign_token [] bytes.now }
    ensures len { IfOk result (λ s. (1 ≤ s.len) × (s.len ≤ length bytes.now)) }
{
    let [first, rest @ ..] = bytes else {
        return Err(TextProblem::BadToken);
    };
    if let [second, ..] = rest {
        if let Some(sign) = two_byte_sign(*first, *second) {
            return Ok(Spelled {
                kind: TokenKind::Sign(sign),
                len: 2,
            });
        }
    }
    match one_byte_sign(*first) {
        Some(sign) => Ok(Spelled {
            kind: TokenKind::Sign(sign),
            len: 1,
        }),
        None => Err(TextProblem::BadToken),
    }
}

/// Reads the token at the start of `bytes`, which don't start with whitespace.
fn read_token(alloc: Global, names: &mut SourceNames, bytes: &[u8]) -> Result<Spelled, TextProblem>
    ensures value { GivesBare (with_names names.new.table) result (token_at (loops_of names.old) names.old.table bytes.now) }
    ensures len { IfOk result (λ s. (1 ≤ s.len) × (s.len ≤ length bytes.now)) }
    ensures loops { OnOk result (loops_of names.new ≡ loops_of names.old) }
{
    let [first, ..] = bytes else {
        return Err(TextProblem::BadToken);
    };
    if !first.is_ascii() {
        return Err(TextProblem::NotAscii);
    }
    if begins_word(bytes) {
        return read_word(alloc, names, &bytes[..word_len(bytes)]);
    }
    read_sign(bytes)
}

/// Returns how many bytes an error at the start of `bytes` concerns: all bytes of the word there, or else one.
fn unread_len(bytes: &[u8]) -> usize
    requires { 1 ≤ length bytes.now }
    ensures value { result ≡ unread_len bytes.now }
    ensures within { result ≤ length bytes.now }
{
    if begins_word(bytes) {
        word_len(bytes)
    } else {
        1
    }
}

/// Returns the `len` bytes of a source from the offset `at` on.
fn span_at(at: usize, len: usize) -> Option<Span>
    requires { at + len < 2 ^ 64 }
    ensures { result ≡ span_at at len }
{
    Some(Span {
        from: at,
        to: at + len,
    })
}

/// Reads the token at the offset `at` of a text, appends it if there are fewer than `room` tokens, and returns its
/// number of bytes.
fn add_token(
    alloc: Global,
    text: Text<'_>,
    at: usize,
    room: usize,
    names: &mut SourceNames,
    tokens: &mut Vec<Token>,
) -> Result<usize, TextTokenProblem>
    requires within { at < length text.bytes.now }
    requires fits { text.at + length text.bytes.now < 2 ^ 64 }
    ensures value { Gives (λ len. (len, scan_of tokens.new names.new.table)) result
        (one_token (loops_of names.old) text.entry.number room (text.entry.at + at) (drop at text.entry.bytes.now) (scan_of tokens.old names.old.table)) }
    ensures len { IfOk result (λ len. (1 ≤ len) × (at + len ≤ length text.entry.bytes.now)) }
    ensures room { vec_len tokens.old ≤ room → vec_len tokens.new ≤ room }
    ensures loops { OnOk result (loops_of names.new ≡ loops_of names.old) }
{
    let from = text.at + at;
    let bytes = &text.bytes[at..];
    let Spelled { kind, len } = match read_token(alloc, names, bytes) {
        Ok(found) => found,
        Err(problem) => return Err(problem.at_token(span_at(from, unread_len(bytes)))),
    };
    if tokens.len() >= room {
        return Err(TextProblem::TooLong.at_token(span_at(from, len)));
    }
    let token = Token {
        kind,
        line: text.number,
        from,
        to: from + len,
    };
    match tokens.push(token) {
        Ok(()) => Ok(len),
        Err(_) => Err(TextProblem::OutOfMemory.at_token(None)),
    }
}

/// Reads the tokens of a text and appends them to `tokens`, which may have at most `room` in total.
pub fn read_tokens(
    alloc: Global,
    text: Text<'_>,
    room: usize,
    names: &mut SourceNames,
    tokens: &mut Vec<Token>,
) -> Result<(), TextTokenProblem>
    requires fits { text.at + length text.bytes.now < 2 ^ 64 }
    requires room { vec_len tokens.old ≤ room }
    ensures value { Gives (λ _. scan_of tokens.new names.new.table) result
        (scan_from (loops_of names.old) text.entry.number room text.entry.at 0 text.entry.bytes.now (scan_of tokens.old names.old.table)) }
    ensures room { vec_len tokens.new ≤ room }
    ensures loops { OnOk result (loops_of names.new ≡ loops_of names.old) }
{
    let mut at = 0;
    while at < text.bytes.len() {
        if is_blank(text.bytes[at]) {
            at += 1;
        } else {
            match add_token(alloc, text, at, room, names, tokens) {
                Ok(len) => at += len,
                Err(problem) => return Err(problem),
            }
        }
    }
    Ok(())
}

/// The tokens and the names of a text of one line.
#[derive(Drop)]
pub struct LineTokens {
    pub tokens: Vec<Token>,
    /// The names; the tokens refer to them by index.
    pub names: NameTable,
}

/// Reads the tokens of a text of one line, outside loops. The line number is 1.
///
/// The longest possible token is read.
///
/// # Errors
///
/// - `NotAscii` or `BadToken` for the first byte or word that is no token; LF and `;` are no tokens
/// - `OutOfMemory`, with the line 0, replaces any error that would have been found after the allocation that failed
pub fn scan(alloc: Global, text: &[u8]) -> Result<LineTokens, TextFault>
    ensures { IsResult (λ s. scan_of s.tokens s.names) result (scanned text.now) }
{
    let mut tokens = Vec::new(alloc);
    let mut names = SourceNames::new(alloc);
    let line = Text {
        number: 1,
        at: 0,
        bytes: text,
    };
    match read_tokens(alloc, line, text.len(), &mut names, &mut tokens) {
        Ok(()) => Ok(LineTokens {
            tokens,
            names: names.into_table(),
        }),
        Err(problem) => Err(problem.at_line(1)),
    }
}
