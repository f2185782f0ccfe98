//! Comment lines, which include directives.
ghost use Rattle.std.specs.Prelude.{◌≡◌, ◌≤◌, ◌<◌, ◌+◌, ◌^◌, length, Ok};
ghost use Rattle.redcode_text.specs.Code.Comments.{assert_at, with_author_text, with_name_text};
ghost use Rattle.redcode_text.specs.Code.Readings.{reading_of};
ghost use Rattle.redcode_text.specs.Lines.{comment_line};
ghost use Rattle.redcode_text.specs.Code.Problems.{Gives};
ghost use Rattle.redcode_text.specs.Code.Rows.{row_of};

use crate::fault::{TextProblem, TextTokenProblem};
use crate::program::Assert;
use crate::reader::Reading;
use crate::source::directives::{Comment, comment_of, directive_value};
use crate::source::row::SourceRow;
use std::alloc::Global;

impl Reading {
    /// Reads a comment line: `;name`, `;author`, `;assert`, or a comment without a meaning.
    pub fn read_comment(
        &mut self,
        alloc: Global,
        row: SourceRow<'_>,
    ) -> Result<(), TextTokenProblem>
        requires fits { row.at + length row.bytes.now < 2 ^ 64 }
        ensures value { Gives (λ _. reading_of self.new) result (comment_line (row_of row.entry) (reading_of self.old)) }
    {
        match comment_of(row.bytes) {
            Comment::Name(text) => self.take_name(alloc, text),
            Comment::Author(text) => self.take_author(alloc, text),
            Comment::Assert(at) => self.read_assert(alloc, row, at),
            Comment::Other => Ok(()),
        }
    }

    /// Sets the name from the text of `;name` without whitespace at both ends, unless the text is empty.
    fn take_name(&mut self, alloc: Global, text: &[u8]) -> Result<(), TextTokenProblem>
        ensures value { Gives (λ _. reading_of self.new) result (Ok (with_name_text text.now (reading_of self.old))) }
    {
        let name = directive_value(alloc, text)?;
        if !name.is_empty() {
            self.name = name;
        }
        Ok(())
    }

    /// Sets the author from the text of `;author` without whitespace at both ends, unless the text is empty.
    fn take_author(&mut self, alloc: Global, text: &[u8]) -> Result<(), TextTokenProblem>
        ensures value { Gives (λ _. reading_of self.new) result (Ok (with_author_text text.now (reading_of self.old))) }
    {
        let author = directive_value(alloc, text)?;
        if !author.is_empty() {
            self.author = author;
        }
        Ok(())
    }

    /// Reads the expression of an assert, which starts at the offset `at` of a row.
    fn read_assert(
        &mut self,
        alloc: Global,
        row: SourceRow<'_>,
        at: usize,
    ) -> Result<(), TextTokenProblem>
        requires within { at ≤ length row.bytes.now }
        requires fits { row.at + length row.bytes.now < 2 ^ 64 }
        ensures value { Gives (λ _. reading_of self.new) result (assert_at (row_of row.entry) at (reading_of self.old)) }
    {
        let tokens = match self.row_tokens(alloc, row, at) {
            Ok(tokens) => tokens,
            Err(problem) => return Err(problem),
        };
        let assert = Assert {
            number: row.number,
            current_line: self.instructions as u32,
            tokens,
        };
        match self.asserts.push(assert) {
            Ok(()) => Ok(()),
            Err(_) => Err(TextProblem::OutOfMemory.at_token(None)),
        }
    }
}
