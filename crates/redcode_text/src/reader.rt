//! Everything that has been read of a source: what a line adds to it, and the kind of each name.
ghost use Rattle.std.specs.Prelude.{◌≡◌, ◌≤◌, ◌<◌, ◌+◌, ◌^◌, length, string_bytes, vec_len, [], false, IfOk, OnOk, ◌∷◌, MatchOption};
ghost use Rattle.redcode_text.specs.Code.Labels.{AreLabels};
ghost use Rattle.redcode_text.specs.Programs.{IsPrinted};
ghost use Rattle.redcode_text.specs.declared.limits.TheConstants.{MAX_LINES, MAX_TOKENS};
ghost use Rattle.std.specs.List.{list_any};
ghost use Rattle.std.specs.Str.{str_eq_ignore_ascii_case};
ghost use Rattle.redcode_text.specs.Lines.{misplaced, operations, name_in_front, tokens_after, tokens_before};

mod comment;
mod line;
mod ordinary;
pub mod repeat;
mod used_lines;

use crate::characters::is_word;
use crate::equates::Equates;
use crate::fault::{TextProblem, TextTokenProblem};
use crate::lexer::source_names::SourceNames;
use crate::lexer::{Text, read_tokens};
use crate::limits::{MAX_LINES, MAX_TOKENS};
use crate::names::predefined::PredefinedNames;
use crate::names::set::NameSet;
use crate::program::{Assert, Line};
use crate::source::row::{SourceRow, before_comment};
use crate::token::{Sign, Token, TokenKind};
use std::alloc::{AllocError, Global};

/// Everything that has been read.
#[derive(Drop)]
pub struct Reading {
    pub names: SourceNames,
    pub equates: Equates,
    /// Whether an EQU line without a name continues the last EQU definition.
    pub equate_grows: bool,
    pub lines: Vec<Line>,
    /// The labels of all lines.
    pub labels: NameSet,
    pub instructions: usize,
    pub lines_read: usize,
    pub tokens_read: usize,
    pub name: String,
    pub author: String,
    pub asserts: Vec<Assert>,
    /// Whether END was read.
    pub ended: bool,
    ghost few_lines: { lines_read ≤ MAX_LINES },
    ghost few_tokens: { tokens_read ≤ MAX_TOKENS },
    ghost each_read: { vec_len lines ≤ lines_read },
    ghost each_counted: { instructions ≤ vec_len lines },
    ghost known_labels: { AreLabels (λ l. l.labels.items) labels lines.items },
    ghost printed_name: { IsPrinted (string_bytes name) },
    ghost printed_author: { IsPrinted (string_bytes author) },
}

/// The words that are operations without being EQU names, ignoring case. LDP, STP and PIN belong to the P-space of
/// pMARS: they aren't opcodes here, but as in pMARS, they can't be labels.
const OPERATIONS: [&str; 25] = [
    "dat", "mov", "add", "sub", "mul", "div", "mod", "jmp", "jmz", "jmn", "djn", "seq", "sne",
    "slt", "spl", "nop", "cmp", "org", "end", "equ", "for", "rof", "ldp", "stp", "pin",
];

/// Returns whether a word is among `words`, ignoring case.
fn is_among(word: &[u8], words: &[&str]) -> bool
    ensures { result ≡ list_any (λ other. str_eq_ignore_ascii_case word.now other.now) words.now }
{
    words.iter().any(|other| is_word(word, other.as_bytes()))
}

/// Returns whether a word is among `OPERATIONS`, ignoring case.
fn is_operation_word(name: &[u8]) -> bool
    ensures { result ≡ list_any (str_eq_ignore_ascii_case name.now) operations }
{
    is_among(name, &OPERATIONS)
}

impl Reading {
    ghost use Rattle.redcode_text.specs.Code.Readings.{reading_of};
    ghost use Rattle.redcode_text.specs.Code.SourceLoops.{loops_of};
    ghost use Rattle.redcode_text.specs.Expansion.{nothing_read};
    ghost use Rattle.redcode_text.specs.Lines.{is_equate, is_label, is_operation, is_predefined, line_read, row_tokens, tokens_counted};
    ghost use Rattle.redcode_text.specs.Code.Problems.{Gives};
    ghost use Rattle.redcode_text.specs.Code.Rows.{row_of};
    ghost use Rattle.redcode_text.specs.Views.{predefined_of};

    /// Returns the state before anything is read.
    pub fn new(alloc: Global) -> Result<Reading, AllocError>
        ensures value { IfOk result (λ reading. reading_of reading ≡ nothing_read) }
        ensures loops { IfOk result (λ reading. loops_of reading.names ≡ []) }
        ensures going { IfOk result (λ reading. reading.ended ≡ false) }
    {
        let name = String::from_str(alloc, "Unknown")?;
        let author = String::from_str(alloc, "Anonymous")?;
        Ok(Reading {
            names: SourceNames::new(alloc),
            equates: Equates::new(alloc),
            equate_grows: false,
            lines: Vec::new(alloc),
            labels: NameSet::new(alloc),
            instructions: 0,
            lines_read: 0,
            tokens_read: 0,
            name,
            author,
            asserts: Vec::new(alloc),
            ended: false,
        })
    }

    /// Counts one more line, unless the limit is reached.
    pub fn count_line(&mut self) -> Result<(), TextTokenProblem>
        ensures value { Gives (λ _. reading_of self.new) result (line_read (reading_of self.old)) }
        ensures equates { self.new.equates ≡ self.old.equates }
        ensures room { OnOk result (vec_len self.new.lines < self.new.lines_read) }
    {
        if self.lines_read >= MAX_LINES {
            return Err(TextProblem::TooLong.at_token(None));
        }
        self.lines_read += 1;
        Ok(())
    }

    /// Counts the tokens of a line that comes from EQU, unless they exceed the limit.
    pub fn count_tokens(&mut self, tokens: &[Token]) -> Result<(), TextTokenProblem>
        ensures value { Gives (λ _. reading_of self.new) result (tokens_counted tokens.now (reading_of self.old)) }
        ensures equates { self.new.equates ≡ self.old.equates }
        ensures lines { vec_len self.new.lines ≡ vec_len self.old.lines }
        ensures lines_read { self.new.lines_read ≡ self.old.lines_read }
    {
        if tokens.len() > MAX_TOKENS - self.tokens_read {
            return Err(TextProblem::TooLong.at_token(None));
        }
        self.tokens_read += tokens.len();
        Ok(())
    }

    /// Reads the tokens of a row from the offset `at` on, up to a comment.
    pub fn row_tokens(
        &mut self,
        alloc: Global,
        row: SourceRow<'_>,
        at: usize,
    ) -> Result<Vec<Token>, TextTokenProblem>
        requires within { at ≤ length row.bytes.now }
        requires fits { row.at + length row.bytes.now < 2 ^ 64 }
        ensures value { Gives (λ tokens. (tokens.items, reading_of self.new)) result
            (row_tokens (row_of row.entry) at (reading_of self.old)) }
        ensures lines { vec_len self.new.lines ≡ vec_len self.old.lines }
        ensures lines_read { self.new.lines_read ≡ self.old.lines_read }
    {
        let code = Text {
            number: row.number,
            at: row.at + at,
            bytes: before_comment(&row.bytes[at..]),
        };
        let mut tokens = Vec::new(alloc);
        let room = MAX_TOKENS - self.tokens_read;
        match read_tokens(alloc, code, room, &mut self.names, &mut tokens) {
            Ok(()) => {
                self.tokens_read += tokens.len();
                Ok(tokens)
            }
            Err(problem) => Err(problem),
        }
    }

    /// Returns whether a name is an EQU name.
    pub fn is_equate(&self, name: usize) -> bool
        ensures { result ≡ is_equate (reading_of self.now) name }
    {
        self.equates.lines_of(name).is_some()
    }

    /// Returns whether a name is a label of a line that was read.
    #[tactic(auto, using(crate::proofs::NameSets::label_known))]
    pub fn is_label(&self, name: usize) -> bool
        ensures { result ≡ is_label (reading_of self.now) name }
    {
        self.labels.contains(name)
    }

    /// Returns whether a name is predefined.
    pub fn is_predefined(&self, names: &PredefinedNames, name: usize) -> bool
        ensures { result ≡ is_predefined (predefined_of names.now) (reading_of self.now) name }
    {
        // Only the presence of a value matters, so CURLINE may have any value.
        names.value_at(0, self.names.table.name(name)).is_some()
    }

    /// Returns whether a name is an EQU name or, ignoring case, one of `OPERATIONS`.
    pub fn is_operation(&self, name: usize) -> bool
        ensures { result ≡ is_operation (reading_of self.now) name }
    {
        self.is_equate(name) || is_operation_word(self.names.table.name(name))
    }
}

/// Returns the first token that starts before the offset `at` of the source, and the tokens after it.
fn next_before(tokens: &[Token], at: usize) -> Option<(Token, &[Token])>
    ensures { MatchOption result (tokens_before at tokens.now ≡ []) (λ r. tokens_before at tokens.now ≡ r.0 ∷ tokens_before at r.1.now) }
{
    for index in 0..tokens.len() {
        if tokens[index].from < at {
            return Some((tokens[index], &tokens[index + 1..]));
        }
    }
    None
}

/// Returns the error of a token that isn't allowed in its place.
fn misplaced(token: Token) -> TextTokenProblem
    ensures { result ≡ misplaced token }
{
    TextProblem::BadToken.at_token(Some(token.span()))
}

/// Returns the name before the offset `at` of the source, if there is one. A colon may follow the name; any other token
/// is an error.
pub fn name_in_front(tokens: &[Token], at: usize) -> Result<Option<usize>, TextTokenProblem>
    ensures { result ≡ name_in_front (tokens_before at tokens.now) }
{
    let Some((first, rest)) = next_before(tokens, at) else {
        return Ok(None);
    };
    let TokenKind::Name(name) = first.kind else {
        return Err(misplaced(first));
    };
    let Some((second, rest)) = next_before(rest, at) else {
        return Ok(Some(name));
    };
    if second.kind != TokenKind::Sign(Sign::Colon) {
        return Err(misplaced(second));
    }
    match next_before(rest, at) {
        None => Ok(Some(name)),
        Some((third, _)) => Err(misplaced(third)),
    }
}

/// Retains the tokens that start after the offset `at` of the source.
pub fn keep_after(tokens: &mut Vec<Token>, at: usize)
    ensures { tokens.new.items ≡ tokens_after at tokens.old.items }
{
    tokens.retain(|token| at < token.from);
}
