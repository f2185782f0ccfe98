//! Programs: the part of a source that the assembler needs, with its lines and asserts.
ghost use Rattle.std.specs.Prelude.{◌≡◌};
ghost use Rattle.redcode_text.specs.Lines.{is_end, is_instruction, is_keyword};

use crate::equates::Equates;
use crate::fault::TextFault;
use crate::names::NameTable;
use crate::token::{Span, Token};
use std::alloc::Global;
use std::marker::Model;

/// A line that was read.
#[derive(Drop)]
pub struct Line {
    /// The line number in the source, from 1.
    pub number: usize,
    /// The labels, as indices into the names.
    pub labels: Vec<usize>,
    /// The operation, as an index into the names, if there is one.
    pub operation: Option<usize>,
    /// The bytes in the source of the operation or, if there is none, of the last token before `rest`, because an
    /// unknown operation is read as a label.
    pub operation_span: Option<Span>,
    /// The tokens after the operation, or after the labels if there is no operation.
    pub rest: Vec<Token>,
}

/// An assert.
#[derive(Drop)]
pub struct Assert {
    /// The line number in the source, from 1.
    pub number: usize,
    /// The number of instructions before the assert.
    pub current_line: u32,
    /// The expression.
    pub tokens: Vec<Token>,
}

/// A source after FOR loops, and EQU names that are used as operations, were expanded: its lines, names and asserts.
///
/// A program has at most 65,536 lines. Its name and its author have at most 60 bytes, each from 32 to 126.
#[derive(Drop)]
pub struct Program {
    pub(crate) names: NameTable,
    pub(crate) equates: Equates,
    pub(crate) lines: Vec<Line>,
    pub(crate) name: String,
    pub(crate) author: String,
    pub(crate) asserts: Vec<Assert>,
}

impl Model for Program {
    ghost use Rattle.std.specs.Prelude.{map, string_bytes};
    ghost use Rattle.redcode_text.specs.Expansion.{ProgramValue};
    ghost use Rattle.redcode_text.specs.Views.{assert_of, line_of};
    ghost use Rattle.redcode_text.specs.Programs.{IsProgram};

    ghost Value = { ProgramValue };

    ghost view = { λ p. record {
      names = p.names;
      equates = p.equates;
      lines = map line_of p.lines.items;
      name = string_bytes p.name;
      author = string_bytes p.author;
      asserts = map assert_of p.asserts.items;
    } };

    ghost invariant = { λ p. IsProgram (record {
      names = p.names;
      equates = p.equates;
      lines = map line_of p.lines.items;
      name = string_bytes p.name;
      author = string_bytes p.author;
      asserts = map assert_of p.asserts.items;
    }) };
}

impl Program {
    ghost use Rattle.std.specs.Prelude.{◌≡◌, ◌≤◌, IfOk, length, map, option_map, vec_len};
    ghost use Rattle.redcode_text.specs.Equates.{equate_lines, limit, substitution};
    ghost use Rattle.redcode_text.specs.Views.{assert_of, line_of};
    ghost use Rattle.redcode_text.specs.Outcomes.{IsResult};
    ghost use Rattle.redcode_text.specs.Programs.{IsPrinted};

    /// Returns the names, in the order of their first use. Tokens refer to them by index.
    pub fn names(&self) -> &NameTable
        ensures { result.now ≡ self.now.names }
    {
        &self.names
    }

    /// Returns the ordinary lines, at most 65,536, in the order of reading.
    ///
    /// A line that comes from an empty line of an EQU definition may have no label, no operation and no other token.
    pub fn lines(&self) -> &[Line]
        ensures value { map line_of result.now ≡ self.now.lines }
        ensures few { length result.now ≤ limit }
    {
        &self.lines
    }

    /// Returns the name: at most 60 bytes, each from 32 to 126; `Unknown` if the source gives none.
    pub fn name(&self) -> &str
        ensures value { result.now ≡ self.now.name }
        ensures printed { IsPrinted self.now.name }
    {
        self.name.as_str()
    }

    /// Returns the author: at most 60 bytes, each from 32 to 126; `Anonymous` if the source gives none.
    pub fn author(&self) -> &str
        ensures value { result.now ≡ self.now.author }
        ensures printed { IsPrinted self.now.author }
    {
        self.author.as_str()
    }

    /// Returns the asserts, in the order of reading.
    pub fn asserts(&self) -> &[Assert]
        ensures { map assert_of result.now ≡ self.now.asserts }
    {
        &self.asserts
    }

    /// Returns the lines of an EQU name's definition, by its index among the names, or `None` if it isn't an EQU name.
    pub fn equate_lines(&self, name: usize) -> Option<&[Vec<Token>]>
        ensures { option_map (λ lines. map (λ line. line.items) lines.now) result ≡ equate_lines self.now.equates name }
    {
        self.equates.lines_of(name)
    }

    /// Replaces each EQU name among tokens by its definition, and the names in the definition in turn.
    ///
    /// The result has at most 65,536 tokens.
    ///
    /// # Errors
    ///
    /// Returns the first error, from left to right: `EquDepth` if expansions nest more than 32 deep, `BadToken` for a
    /// name whose definition has several lines, or `TooLong` for more than 65,536 tokens or replacements. The error has
    /// the line of the token among `tokens` that caused it, which is the line of the use, and the bytes of the token at
    /// which it arises, which may be in a definition. `OutOfMemory` has the line 0 and no token.
    pub fn substitute(&self, alloc: Global, tokens: &[Token]) -> Result<Vec<Token>, TextFault>
        ensures value { IsResult (λ made. made.items) result (substitution self.now.equates tokens.now) }
        ensures few { IfOk result (λ made. vec_len made ≤ limit) }
    {
        self.equates.substitute(alloc, tokens)
    }
}

/// Returns whether an operation, given as an index into the names, is `word`, ignoring case.
pub fn is_keyword(names: &NameTable, word: &[u8], operation: Option<usize>) -> bool
    ensures { result ≡ is_keyword names.now word.now operation }
{
    match operation {
        Some(name) => names.is_word(name, word),
        None => false,
    }
}

/// Returns whether an operation is END.
pub(crate) fn is_end(names: &NameTable, operation: Option<usize>) -> bool
    ensures { result ≡ is_end names.now operation }
{
    is_keyword(names, b"end", operation)
}

/// Returns whether a line is an instruction: it has an operation or other tokens after its labels, and isn't ORG or END.
pub fn is_instruction(names: &NameTable, operation: Option<usize>, rest: &[Token]) -> bool
    ensures { result ≡ is_instruction names.now operation rest.now }
{
    (operation.is_some() || !rest.is_empty())
        && !(is_keyword(names, b"org", operation) || is_end(names, operation))
}
