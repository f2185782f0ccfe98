//! A line of a source, and its kind.
ghost use Rattle.std.specs.Prelude.{◌≡◌, ◌≤◌, ◌<◌, ◌+◌, ◌^◌, ◌==◌, length, not, IfSome};
ghost use Rattle.std.specs.List.{prefix_len};
ghost use Rattle.redcode_text.specs.Bytes.{semicolon};
ghost use Rattle.redcode_text.specs.Code.Kinds.{IsKind, kind_of, word_place};
ghost use Rattle.redcode_text.specs.Lines.{before_comment};
ghost use Rattle.redcode_text.specs.Source.{is_comment, first_word_at, has_word, leading_word_at, line_kind, past_blanks, past_colon, past_word, second_word_at, loop_word, word_span};

use crate::characters::{blank_len, is_word, word_len};
use crate::token::Span;

/// The kind of a line, with the offset of its word FOR or EQU.
#[derive(Clone, Copy, PartialEq, Eq)]
pub enum LineKind {
    Rof,
    For(usize),
    Equ(usize),
    Other,
}

/// Returns the offset after the whitespace, if there is any, at the offset `at`.
fn past_blanks(bytes: &[u8], at: usize) -> usize
    requires { at ≤ length bytes.now }
    ensures value { result ≡ past_blanks bytes.now at }
    ensures within { result ≤ length bytes.now }
{
    at + blank_len(&bytes[at..])
}

fn past_word(bytes: &[u8], at: usize) -> usize
    requires { at ≤ length bytes.now }
    ensures value { result ≡ past_word bytes.now at }
    ensures within { result ≤ length bytes.now }
{
    at + word_len(&bytes[at..])
}

fn past_colon(bytes: &[u8], at: usize) -> usize
    requires { at ≤ length bytes.now }
    ensures value { result ≡ past_colon bytes.now at }
    ensures within { result ≤ length bytes.now }
{
    match &bytes[at..] {
        [b':', ..] => at + 1,
        _ => at,
    }
}

fn first_word_at(bytes: &[u8]) -> usize
    ensures value { result ≡ first_word_at bytes.now }
    ensures within { result ≤ length bytes.now }
{
    past_blanks(bytes, 0)
}

/// Returns the offset of the second word of a line. A colon may separate it from the first word.
fn second_word_at(bytes: &[u8]) -> usize
    ensures value { result ≡ second_word_at bytes.now }
    ensures within { result ≤ length bytes.now }
{
    let behind = past_blanks(bytes, past_word(bytes, first_word_at(bytes)));
    past_blanks(bytes, past_colon(bytes, behind))
}

/// Returns whether the word at the offset `at` is `word`, ignoring case.
fn has_word(word: &[u8], bytes: &[u8], at: usize) -> bool
    requires { at ≤ length bytes.now }
    ensures { result ≡ has_word word.now bytes.now at }
{
    let rest = &bytes[at..];
    is_word(&rest[..word_len(rest)], word)
}

/// Returns the offset of `word`, if it is the first or the second word of a line.
fn leading_word_at(word: &[u8], bytes: &[u8]) -> Option<usize>
    ensures value { result ≡ leading_word_at word.now bytes.now }
    ensures within { IfSome result (λ at. at ≤ length bytes.now) }
{
    let first = first_word_at(bytes);
    if has_word(word, bytes, first) {
        return Some(first);
    }
    let second = second_word_at(bytes);
    if has_word(word, bytes, second) {
        return Some(second);
    }
    None
}

/// Returns the kind of a line, which its first two words decide.
fn line_kind(bytes: &[u8]) -> LineKind
    ensures value { kind_of result ≡ line_kind bytes.now }
    ensures inside { word_place result ≤ length bytes.now }
{
    if has_word(b"rof", bytes, first_word_at(bytes)) {
        return LineKind::Rof;
    }
    if let Some(at) = leading_word_at(b"for", bytes) {
        return LineKind::For(at);
    }
    match leading_word_at(b"equ", bytes) {
        Some(at) => LineKind::Equ(at),
        None => LineKind::Other,
    }
}

/// Returns the number of bytes before the first `;`, or of all bytes if there is none.
fn code_len(bytes: &[u8]) -> usize
    ensures value { result ≡ prefix_len (λ b. not (b == semicolon)) bytes.now }
    ensures within { result ≤ length bytes.now }
{
    bytes.iter().take_while(|byte| **byte != b';').count()
}

/// Returns the bytes before the first `;`, or all bytes if there is none.
pub fn before_comment(bytes: &[u8]) -> &[u8]
    ensures value { result.now ≡ before_comment bytes.now }
    ensures within { length result.now ≤ length bytes.now }
{
    &bytes[..code_len(bytes)]
}

/// A line of a source, without its LF.
#[derive(Clone, Copy)]
pub struct SourceRow<'a> {
    /// The line number, from 1.
    pub number: usize,
    /// The offset of the line's first byte in the source.
    pub at: usize,
    pub bytes: &'a [u8],
    /// The kind, stored because a line of a loop is read again in each iteration.
    kind: LineKind,
    ghost kind_is: { IsKind kind bytes.now },
}

impl<'a> SourceRow<'a> {
    ghost use Rattle.redcode_text.specs.Code.Rows.{row_of};

    /// Returns the line with this number, whose first byte has the offset `at` in the source.
    pub fn new(number: usize, at: usize, bytes: &'a [u8]) -> Self
        ensures { row_of result ≡ record { number = number; at = at; bytes = bytes.now } }
    {
        SourceRow {
            number,
            at,
            bytes,
            kind: line_kind(bytes),
        }
    }

    /// Returns whether the line has only a comment.
    pub fn is_comment(&self) -> bool
        ensures { result ≡ is_comment self.now.bytes.now }
    {
        match &self.bytes[blank_len(self.bytes)..] {
            [b';', ..] => true,
            _ => false,
        }
    }

    /// Returns the bytes of the word at the offset `at` of the line.
    fn word_span(&self, at: usize) -> Option<Span>
        requires within { at ≤ length self.now.bytes.now }
        requires fits { self.now.at + length self.now.bytes.now < 2 ^ 64 }
        ensures { result ≡ word_span (row_of self.now) at }
    {
        Some(Span {
            from: self.at + at,
            to: self.at + past_word(self.bytes, at),
        })
    }

    /// Returns the bytes of the word FOR of a FOR line, or else of the line's first word, which is ROF in a ROF line.
    pub fn loop_word(&self) -> Option<Span>
        requires { self.now.at + length self.now.bytes.now < 2 ^ 64 }
        ensures { result ≡ loop_word (row_of self.now) }
    {
        match self.kind {
            LineKind::For(at) => self.word_span(at),
            _ => self.word_span(first_word_at(self.bytes)),
        }
    }

    /// Returns the kind of the line.
    pub fn kind(&self) -> LineKind
        ensures value { kind_of result ≡ line_kind self.now.bytes.now }
        ensures inside { word_place result ≤ length self.now.bytes.now }
    {
        self.kind
    }
}
