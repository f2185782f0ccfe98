//! Words: numbers, names and counters, with their joins.
ghost use Rattle.std.specs.Prelude.{◌≡◌, ◌++◌, ◌≤◌, ◌^◌, length, true, IfOk, OnOk, IsAscii, MatchOption};
ghost use Rattle.std.specs.Char.{is_ascii_digit};
ghost use Rattle.std.specs.List.{list_all};
ghost use Rattle.std.specs.Str.Parse.{digits_value};
ghost use Rattle.redcode_text.specs.Code.Problems.{GivesBare};
ghost use Rattle.redcode_text.specs.Code.Scanning.{with_names};
ghost use Rattle.redcode_text.specs.Code.SourceLoops.{loops_of};
ghost use Rattle.redcode_text.specs.Tokens.{joined, number_kind, plain_word_found, round_digits, round_of, word_found, word_token};

use crate::characters::{are_digits, begins_name, part_len};
use crate::fault::TextProblem;
use crate::lexer::source_names::SourceNames;
use crate::token::{Spelled, TokenKind};
use itoa::Buffer;
use std::alloc::{AllocError, Global};

/// Returns the value of decimal digits, if it is below 2^64.
fn number_of(digits: &[u8]) -> Option<u64>
    requires { list_all is_ascii_digit digits.now ≡ true }
    ensures { MatchOption result (2 ^ 64 ≤ digits_value 10 digits.now) (λ n. n ≡ digits_value 10 digits.now) }
{
    let mut number: u64 = 0;
    for digit in digits {
        number = number
            .checked_mul(10)?
            .checked_add(u64::from(*digit - b'0'))?;
    }
    Some(number)
}

/// Returns the kind of the token of a number, which must be below 2^63.
fn number_kind(digits: &[u8]) -> Result<TokenKind, TextProblem>
    requires { list_all is_ascii_digit digits.now ≡ true }
    ensures { result ≡ number_kind (digits_value 10 digits.now) }
{
    match number_of(digits) {
        Some(number) if number <= i64::MAX as u64 => Ok(TokenKind::Number(number as i64)),
        _ => Err(TextProblem::BadToken),
    }
}

/// Returns the token of `word`, which isn't a counter. The word has `len` bytes in the source.
fn plain_word(
    alloc: Global,
    names: &mut SourceNames,
    word: &[u8],
    len: usize,
) -> Result<Spelled, TextProblem>
    requires { IsAscii word.now }
    ensures value { GivesBare (with_names names.new.table) result (plain_word_found names.old.table len word.now) }
    ensures len { IfOk result (λ s. s.len ≡ len) }
    ensures loops { OnOk result (loops_of names.new ≡ loops_of names.old) }
{
    if are_digits(word) {
        let kind = number_kind(word)?;
        return Ok(Spelled { kind, len });
    }
    if !begins_name(word) {
        return Err(TextProblem::BadToken);
    }
    match names.index_of(alloc, word) {
        Ok(index) => Ok(Spelled {
            kind: TokenKind::Name(index),
            len,
        }),
        Err(_) => Err(TextProblem::OutOfMemory),
    }
}

/// Returns the token of a word after its joins were replaced. The word has `len` bytes in the source.
fn joined_word(
    alloc: Global,
    names: &mut SourceNames,
    word: &[u8],
    len: usize,
) -> Result<Spelled, TextProblem>
    requires { IsAscii word.now }
    ensures value { GivesBare (with_names names.new.table) result (word_found names.old.table len word.now (round_of (loops_of names.old) word.now)) }
    ensures len { IfOk result (λ s. s.len ≡ len) }
    ensures loops { OnOk result (loops_of names.new ≡ loops_of names.old) }
{
    match names.round_of(word) {
        Some(round) => Ok(Spelled {
            kind: TokenKind::Number(i64::from(round)),
            len,
        }),
        None => plain_word(alloc, names, word, len),
    }
}

/// Appends the digits of the iteration number `round`, at least two, to a word.
fn push_round(word: &mut Vec<u8>, round: u32) -> Result<(), AllocError>
    ensures digits { OnOk result (word.new.items ≡ word.old.items ++ round_digits round) }
    ensures ascii { IsAscii word.old.items → OnOk result (IsAscii word.new.items) }
{
    if round < 10 {
        word.push(b'0')?;
    }
    let mut buffer = Buffer::new();
    word.extend_from_slice(buffer.format(round).as_bytes())?;
    Ok(())
}

/// Returns a word with each join replaced by the digits of the counter's iteration.
fn join_word(alloc: Global, names: &SourceNames, word: &[u8]) -> Result<Vec<u8>, TextProblem>
    requires { IsAscii word.now }
    ensures value { GivesBare (λ w. w.items) result (joined (loops_of names.now) word.now) }
    ensures ascii { IfOk result (λ w. IsAscii w.items) }
{
    let mut at = part_len(word);
    let mut joined = Vec::from_slice(alloc, &word[..at])?;
    while at < word.len() {
        let from = at + 1;
        let to = from + part_len(&word[from..]);
        let Some(round) = names.round_of(&word[from..to]) else {
            return Err(TextProblem::BadToken);
        };
        push_round(&mut joined, round)?;
        at = to;
    }
    Ok(joined)
}

/// Returns the token of `word`, which is given as in the source, with its joins.
pub fn read_word(
    alloc: Global,
    names: &mut SourceNames,
    word: &[u8],
) -> Result<Spelled, TextProblem>
    requires { IsAscii word.now }
    ensures value { GivesBare (with_names names.new.table) result (word_token (loops_of names.old) names.old.table word.now) }
    ensures len { IfOk result (λ s. s.len ≡ length word.now) }
    ensures loops { OnOk result (loops_of names.new ≡ loops_of names.old) }
{
    if !word.contains(&b'&') {
        return joined_word(alloc, names, word, word.len());
    }
    let joined = join_word(alloc, names, word)?;
    joined_word(alloc, names, &joined, word.len())
}
