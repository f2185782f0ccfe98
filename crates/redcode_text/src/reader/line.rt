//! Lines that are neither FOR nor ROF.
ghost use Rattle.std.specs.Prelude.{◌≡◌, ◌≤◌, ◌<◌, ◌+◌, ◌^◌, length, vec_len};
ghost use Rattle.redcode_text.specs.Views.{predefined_of};
ghost use Rattle.redcode_text.specs.Code.Readings.{reading_of};
ghost use Rattle.redcode_text.specs.Lines.{plain_line, tokens_line, equ_line};
ghost use Rattle.redcode_text.specs.Code.Problems.{Gives};
ghost use Rattle.redcode_text.specs.Code.Kinds.{kind_of, word_place};
ghost use Rattle.redcode_text.specs.Code.Rows.{row_of};

use crate::fault::{TextProblem, TextTokenProblem};
use crate::limits::MAX_NESTING;
use crate::names::predefined::PredefinedNames;
use crate::reader::{Reading, keep_after, name_in_front};
use crate::source::row::{LineKind, SourceRow};
use crate::token::{Token, first_span};
use std::alloc::Global;

impl Reading {
    /// Reads the tokens of an EQU line, whose word EQU is at the offset `at` in the source.
    pub fn read_equ(
        &mut self,
        alloc: Global,
        names: &PredefinedNames,
        at: usize,
        mut tokens: Vec<Token>,
    ) -> Result<(), TextTokenProblem>
        ensures value { Gives (λ _. reading_of self.new) result (equ_line (predefined_of names.now) at tokens.items (reading_of self.old)) }
    {
        let name = name_in_front(&tokens, at)?;
        let first = first_span(&tokens);
        keep_after(&mut tokens, at);
        let Some(name) = name else {
            if !self.equate_grows {
                return Err(TextProblem::BadToken.at_token(first));
            }
            return self.equates.add_line(tokens);
        };
        if self.is_equate(name) || self.is_label(name) || self.is_predefined(names, name) {
            return Err(TextProblem::Duplicate.at_token(first));
        }
        self.equates.define(alloc, name, tokens)?;
        self.equate_grows = true;
        Ok(())
    }

    /// Reads the tokens of a line of this kind, which is neither FOR nor ROF.
    fn read_kind(
        &mut self,
        alloc: Global,
        names: &PredefinedNames,
        kind: LineKind,
        row: SourceRow<'_>,
        tokens: Vec<Token>,
    ) -> Result<(), TextTokenProblem>
        requires room { vec_len self.old.lines < self.old.lines_read }
        requires fits { row.at + length row.bytes.now < 2 ^ 64 }
        requires inside { word_place kind ≤ length row.bytes.now }
        ensures value { Gives (λ _. reading_of self.new) result
            (tokens_line (predefined_of names.now) (kind_of kind) (row_of row.entry) tokens.items (reading_of self.old)) }
    {
        if tokens.is_empty() {
            return Ok(());
        }
        match kind {
            LineKind::Equ(at) => self.read_equ(alloc, names, row.at + at, tokens),
            _ => self.read_ordinary(alloc, names, row.number, MAX_NESTING, &tokens),
        }
    }

    /// Reads a line that is neither FOR nor ROF.
    pub fn read_plain(
        &mut self,
        alloc: Global,
        names: &PredefinedNames,
        row: SourceRow<'_>,
    ) -> Result<(), TextTokenProblem>
        requires fits { row.at + length row.bytes.now < 2 ^ 64 }
        ensures value { Gives (λ _. reading_of self.new) result
            (plain_line (predefined_of names.now) (row_of row.entry) (reading_of self.old)) }
    {
        self.count_line()?;
        if row.is_comment() {
            return self.read_comment(alloc, row);
        }
        let tokens = self.row_tokens(alloc, row, 0)?;
        self.read_kind(alloc, names, row.kind(), row, tokens)
    }
}
