//! The header of a loop: its counter and its count.
ghost use Rattle.std.specs.Prelude.{◌≡◌, ◌<◌, ◌+◌, ◌^◌, length, ◌≤◌, IfOk};
ghost use Rattle.redcode_text.specs.Expansion.{as_count, count_of, count_span, counted, head_line, is_undefined, label_span, replaced_count};
ghost use Rattle.redcode_text.specs.Expression.{kinds, value_of};
ghost use Rattle.redcode_text.specs.Code.Counters.{IsThere};
ghost use Rattle.redcode_text.specs.Code.Heads.{head_of};
ghost use Rattle.redcode_text.specs.Views.{predefined_of};
ghost use Rattle.redcode_text.specs.Code.Readings.{reading_of};
ghost use Rattle.redcode_text.specs.Code.Problems.{Gives};
ghost use Rattle.redcode_text.specs.Code.Rows.{row_of};
ghost use Rattle.redcode_text.specs.Source.{ForLine, line_kind};

use crate::expression::positions::fault_span;
use crate::expression::{Env, eval};
use crate::fault::{ExprFault, TextProblem, TextTokenProblem};
use crate::limits::{MAX_COUNT, MAX_LOOPS};
use crate::names::NameTable;
use crate::names::predefined::PredefinedNames;
use crate::reader::{Reading, keep_after, name_in_front};
use crate::source::row::SourceRow;
use crate::token::{Span, Token, TokenKind, first_span};
use std::alloc::Global;

/// The header of a loop.
#[derive(Clone, Copy)]
pub struct Head {
    /// The counter, as an index into the names, if there is one.
    pub counter: Option<usize>,
    /// The number of iterations.
    pub count: u32,
}

/// The values of names in a count.
#[derive(Clone, Copy)]
struct CountNames<'a> {
    pub predefined: &'a PredefinedNames,
    pub names: &'a NameTable,
    pub current_line: u32,
}

impl<'a> Env for CountNames<'a> {
    ghost use Rattle.redcode_text.specs.Views.{predefined_of};
    ghost use Rattle.redcode_text.specs.Lines.{name_at, predefined_value, with_current_line};

    ghost value_of = { λ c n. predefined_value (with_current_line (predefined_of c.predefined.now) c.current_line) (name_at c.names.now n) };

    fn value(&self, name: usize) -> Option<i64> {
        self.predefined
            .value_at(self.current_line, self.names.name(name))
    }
}

/// Converts the value of an expression to a count, from 0 to 10,000.
fn as_count(value: Result<i64, ExprFault>) -> Result<u32, TextProblem>
    ensures { result ≡ as_count value }
{
    match value {
        Ok(count) if 0 <= count && count <= MAX_COUNT => Ok(count as u32),
        Ok(_) => Err(TextProblem::BadCount),
        Err(fault) => Err(TextProblem::Expression(fault)),
    }
}

/// Returns the bytes of the token at which a count has the error `problem`: the token at which its expression has the
/// error, or its first token if its value is no count. A count without tokens has its error at the token `before`.
fn count_span<E: Env>(
    names: &E,
    before: Option<Span>,
    tokens: &[Token],
    problem: TextProblem,
) -> Option<Span>
    ensures { result ≡ count_span (E.value_of names.now) before tokens.now problem }
{
    match problem {
        TextProblem::Expression(fault) => fault_span(names, before, tokens, fault),
        _ => first_span(tokens),
    }
}

/// Returns the value of a count whose EQU names are replaced. `before` has the bytes of the token before the count.
fn counted<E: Env>(
    names: &E,
    before: Option<Span>,
    tokens: &[Token],
) -> Result<u32, TextTokenProblem>
    ensures { result ≡ counted (count_span (E.value_of names.now) before tokens.now) (as_count (value_of (E.value_of names.now) (kinds tokens.now))) }
{
    match as_count(eval(tokens, names)) {
        Ok(count) => Ok(count),
        Err(problem) => Err(problem.at_token(count_span(names, before, tokens, problem))),
    }
}

impl Reading {
    /// Returns whether a token is a name that isn't predefined.
    fn is_undefined(&self, names: &PredefinedNames, kind: TokenKind) -> bool
        ensures { result ≡ is_undefined (predefined_of names.now) (reading_of self.now) kind }
    {
        match kind {
            TokenKind::Name(name) => !self.is_predefined(names, name),
            _ => false,
        }
    }

    /// Returns the bytes of the first name among the tokens that isn't predefined, if there is one.
    fn label_span(&self, names: &PredefinedNames, tokens: &[Token]) -> Option<Span>
        ensures { result ≡ label_span (predefined_of names.now) (reading_of self.now) tokens.now }
    {
        for token in tokens {
            if self.is_undefined(names, token.kind) {
                return Some(token.span());
            }
        }
        None
    }

    /// Returns the values of names in a count after everything that has been read.
    fn count_names<'a>(&'a self, predefined: &'a PredefinedNames) -> CountNames<'a>
        ensures predefined { result.predefined.now ≡ predefined.now }
        ensures names { result.names.now ≡ self.now.names.table }
        ensures line { result.current_line ≡ self.now.instructions }
    {
        CountNames {
            predefined,
            names: &self.names.table,
            current_line: self.instructions as u32,
        }
    }

    /// Returns the number of iterations, from the tokens of the count after their EQU names were replaced.
    fn replaced_count(
        &self,
        names: &PredefinedNames,
        before: Option<Span>,
        tokens: &[Token],
    ) -> Result<u32, TextTokenProblem>
        ensures { result ≡ replaced_count (predefined_of names.now) (reading_of self.now) before tokens.now }
    {
        match self.label_span(names, tokens) {
            Some(span) => Err(TextProblem::LabelInCount.at_token(Some(span))),
            None => counted(&self.count_names(names), before, tokens),
        }
    }

    /// Returns the number of iterations for the tokens of a count, which follow the word FOR with the bytes `before`.
    #[tactic(auto, using(crate::proofs::Failing::fails_bare))]
    fn count_of(
        &self,
        alloc: Global,
        names: &PredefinedNames,
        before: Option<Span>,
        tokens: &[Token],
    ) -> Result<u32, TextTokenProblem>
        ensures { Gives (λ count. count) result (count_of (predefined_of names.now) (reading_of self.now) before tokens.now) }
    {
        let replaced = match self.equates.substitute(alloc, tokens) {
            Ok(replaced) => replaced,
            Err(fault) => return Err(fault.without_line()),
        };
        self.replaced_count(names, before, &replaced)
    }
}

impl Reading {
    /// Reads a FOR line, whose word FOR is at the offset `word_at` of the line.
    pub fn read_head(
        &mut self,
        alloc: Global,
        names: &PredefinedNames,
        row: SourceRow<'_>,
        word_at: usize,
    ) -> Result<Head, TextTokenProblem>
        requires fits { row.at + length row.bytes.now < 2 ^ 64 }
        requires inside { word_at ≤ length row.bytes.now }
        requires word { ForLine word_at ≡ line_kind row.bytes.now }
        ensures value { Gives (head_of (reading_of self.new)) result
            (head_line (predefined_of names.now) (row_of row.entry) (reading_of self.old)) }
        ensures there { IfOk result (λ head. IsThere self.new.names.table head.counter) }
    {
        self.count_line()?;
        let mut tokens = self.row_tokens(alloc, row, 0)?;
        let at = row.at + word_at;
        let name = name_in_front(&tokens, at)?;
        if self.names.depth() >= MAX_LOOPS {
            return Err(TextProblem::TooLong.at_token(row.loop_word()));
        }
        keep_after(&mut tokens, at);
        let count = self.count_of(alloc, names, row.loop_word(), &tokens)?;
        self.equate_grows = false;
        Ok(Head {
            counter: name,
            count,
        })
    }
}
