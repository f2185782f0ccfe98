//! Ordinary lines: their labels, operation and other tokens, and the lines that replace an EQU name.
ghost use Rattle.std.specs.Prelude.{◌≡◌, ◌≤◌, drop, length, take, IfOk, ◌<◌, ◌+◌, [], ◌∷◌, ◌++◌, map, option_map, vec_len, Ok, OnErr, OnOk};
ghost use Rattle.redcode_text.specs.Views.{predefined_of};
ghost use Rattle.redcode_text.specs.Code.Readings.{parts_at, reading_of};
ghost use Rattle.redcode_text.specs.Code.Labels.{AreLabels};
ghost use Rattle.redcode_text.specs.Lines.{may_label, parts_of, split_colon, each_line, line_added, on_line, operation_lines, ordinary_line};
ghost use Rattle.redcode_text.specs.Code.Problems.{Gives};
ghost use Rattle.redcode_text.specs.Code.Used.{lines_under, read_one, used};

use crate::fault::{TextProblem, TextTokenProblem};
use crate::names::predefined::PredefinedNames;
use crate::names::set::NameSet;
use crate::program::{Line, is_end, is_instruction};
use crate::reader::Reading;
use crate::reader::used_lines::used_line;
use crate::token::{Sign, Span, Token, TokenKind, last_span};
use std::alloc::{AllocError, Global};

/// The parts of a line, as indices of its tokens.
#[derive(Drop)]
pub struct Parts {
    /// The labels, as indices into the names.
    pub labels: Vec<usize>,
    /// The index after the last label and its colon.
    pub labels_end: usize,
    /// The operation, as an index into the names, if there is one.
    pub operation: Option<usize>,
    /// The index of the first of the remaining tokens.
    pub rest_at: usize,
}

/// Returns the number of colons at the start of the tokens that belong to a label: 0 or 1.
fn colons(tokens: &[Token]) -> usize
    ensures value { split_colon tokens.now ≡ (take result tokens.now, drop result tokens.now) }
    ensures within { result ≤ length tokens.now }
{
    match tokens {
        [token, ..] if token.kind == TokenKind::Sign(Sign::Colon) => 1,
        _ => 0,
    }
}

impl Reading {
    /// Returns whether a name may be a label on a line that has `labels` so far.
    fn may_label(&self, names: &PredefinedNames, labels: &NameSet, name: usize) -> bool
        ensures { result ≡ may_label (predefined_of names.now) (reading_of self.now) labels.now name }
    {
        !(self.is_label(name) || self.is_predefined(names, name) || labels.contains(name))
    }

    /// Splits a line into its parts, and inserts its labels into the empty set `known`.
    fn parts_with(
        &self,
        alloc: Global,
        names: &PredefinedNames,
        tokens: &[Token],
        known: &mut NameSet,
    ) -> Result<Parts, TextTokenProblem>
        requires { known.old ≡ [] }
        ensures value { Gives (parts_at tokens.now) result (parts_of (predefined_of names.now) (reading_of self.now) tokens.now) }
        ensures within { IfOk result (λ parts. (parts.labels_end ≤ length tokens.now) × (parts.rest_at ≤ length tokens.now)) }
    {
        let mut labels = Vec::new(alloc);
        let mut at = 0;
        while at < tokens.len() {
            let TokenKind::Name(name) = tokens[at].kind else {
                return Ok(Parts {
                    labels,
                    labels_end: at,
                    operation: None,
                    rest_at: at,
                });
            };
            if self.is_operation(name) {
                return Ok(Parts {
                    labels,
                    labels_end: at,
                    operation: Some(name),
                    rest_at: at + 1,
                });
            }
            if !self.may_label(names, known, name) {
                return Err(TextProblem::Duplicate.at_token(Some(tokens[at].span())));
            }
            labels.push(name)?;
            known.insert(name)?;
            at = at + 1 + colons(&tokens[at + 1..]);
        }
        Ok(Parts {
            labels,
            labels_end: at,
            operation: None,
            rest_at: at,
        })
    }

    /// Splits a line into its parts.
    pub fn parts_of(
        &self,
        alloc: Global,
        names: &PredefinedNames,
        tokens: &[Token],
    ) -> Result<Parts, TextTokenProblem>
        ensures value { Gives (parts_at tokens.now) result (parts_of (predefined_of names.now) (reading_of self.now) tokens.now) }
        ensures within { IfOk result (λ parts. (parts.labels_end ≤ length tokens.now) × (parts.rest_at ≤ length tokens.now)) }
    {
        let mut known = NameSet::new(alloc);
        self.parts_with(alloc, names, tokens, &mut known)
    }
}

/// Appends a line to the lines, and its labels to the labels of all lines.
fn add_labelled(lines: &mut Vec<Line>, labels: &mut NameSet, line: Line) -> Result<(), AllocError>
    requires { AreLabels (λ l. l.labels.items) labels.old lines.old.items }
    ensures known { AreLabels (λ l. l.labels.items) labels.new lines.new.items }
    ensures lines { OnOk result (lines.new.items ≡ lines.old.items ++ line ∷ []) }
    ensures len { OnOk result (vec_len lines.new ≡ vec_len lines.old + 1) }
    ensures err { OnErr result (vec_len lines.new ≡ vec_len lines.old) }
{
    // Capacity is reserved first, so that the set gets no label without its line if memory runs out.
    lines.reserve(1)?;
    labels.insert_all(&line.labels)?;
    lines.push_reserved(line);
    Ok(())
}

impl Reading {
    /// Adds a line whose operation isn't an EQU name.
    fn add_line(&mut self, line: Line) -> Result<(), TextTokenProblem>
        requires { vec_len self.old.lines < self.old.lines_read }
        ensures equates { self.new.equates ≡ self.old.equates }
        ensures value { Gives (λ _. reading_of self.new) result
            (Ok (line_added line.number
            (record { labels = line.labels.items; label_tokens = []; operation = line.operation; operation_span = line.operation_span; rest = line.rest.items })
            (reading_of self.old))) }
    {
        let counts = is_instruction(&self.names.table, line.operation, &line.rest);
        let ends = is_end(&self.names.table, line.operation);
        add_labelled(&mut self.lines, &mut self.labels, line)?;
        if counts {
            self.instructions += 1;
        }
        self.equate_grows = false;
        self.ended = ends;
        Ok(())
    }
}

/// An operation that is an EQU name, with the tokens of the labels before it and the tokens after it.
#[derive(Clone, Copy)]
struct Operation<'a> {
    name: Option<usize>,
    before: &'a [Token],
    behind: &'a [Token],
}

/// Copies tokens and gives them the line number `number`, so that an error in a token from EQU has the line of the use.
fn on_line(alloc: Global, number: usize, tokens: &[Token]) -> Result<Vec<Token>, TextTokenProblem>
    ensures { Gives (λ made. made.items) result (Ok (on_line number tokens.now)) }
{
    let mut made = Vec::new(alloc);
    for token in tokens {
        let Ok(()) = made.push(Token {
            line: number,
            ..*token
        }) else {
            return Err(TextProblem::OutOfMemory.at_token(None));
        };
    }
    Ok(made)
}

impl Reading {
    /// Returns the lines of the definition of an operation, if it is an EQU name.
    fn operation_lines(&self, operation: Option<usize>) -> Option<&[Vec<Token>]>
        ensures { option_map (λ lines. map (λ line. line.items) lines.now) result ≡ operation_lines (reading_of self.now) operation }
    {
        match operation {
            Some(name) => self.equates.lines_of(name),
            None => None,
        }
    }

    /// Returns the lines of the definition of an operation, or no lines if it isn't an EQU name.
    fn lines_under(&self, operation: Option<usize>) -> &[Vec<Token>]
        ensures { map (λ line. line.items) result.now ≡ lines_under (reading_of self.now) operation }
    {
        match self.operation_lines(operation) {
            Some(lines) => lines,
            None => &[],
        }
    }

    /// Adds a line, given in parts, whose operation isn't an EQU name.
    fn add_ordinary(
        &mut self,
        alloc: Global,
        number: usize,
        parts: Parts,
        operation_span: Option<Span>,
        rest: &[Token],
    ) -> Result<(), TextTokenProblem>
        requires { vec_len self.old.lines < self.old.lines_read }
        ensures equates { self.new.equates ≡ self.old.equates }
        ensures value { Gives (λ _. reading_of self.new) result
            (Ok (line_added number (record { labels = parts.labels.items; label_tokens = []; operation = parts.operation; operation_span = operation_span; rest = on_line number rest.now }) (reading_of self.old))) }
    {
        let rest = on_line(alloc, number, rest)?;
        let Parts {
            labels,
            operation,
            ..
        } = parts;
        self.add_line(Line {
            number,
            labels,
            operation,
            operation_span,
            rest,
        })
    }

    /// Reads the tokens of an ordinary line with the line number `number`.
    ///
    /// If its operation is an EQU name, the lines of the definition replace the name; EQU names may nest `depth` deep.
    #[cycle(ordinary)]
    pub fn read_ordinary(
        &mut self,
        alloc: Global,
        names: &PredefinedNames,
        number: usize,
        depth: usize,
        tokens: &[Token],
    ) -> Result<(), TextTokenProblem>
        requires { vec_len self.old.lines < self.old.lines_read }
        ensures value { Gives (λ _. reading_of self.new) result
            (ordinary_line (predefined_of names.now) number depth tokens.now (reading_of self.old)) }
        ensures equates { self.new.equates ≡ self.old.equates }
    {
        let parts = match self.parts_of(alloc, names, tokens) {
            Ok(parts) => parts,
            Err(problem) => return Err(problem),
        };
        let rest = &tokens[parts.rest_at..];
        let operation_span = last_span(None, &tokens[..parts.rest_at]);
        let Some(lines) = self.operation_lines(parts.operation) else {
            return self.add_ordinary(alloc, number, parts, operation_span, rest);
        };
        if depth == 0 {
            return Err(TextProblem::EquDepth.at_token(operation_span));
        }
        let operation = Operation {
            name: parts.operation,
            before: &tokens[..parts.labels_end],
            behind: rest,
        };
        self.read_used(alloc, names, number, depth - 1, operation)
    }

    /// Counts a line that comes from EQU and its tokens, and reads them as an ordinary line.
    #[cycle(ordinary)]
    fn read_line(
        &mut self,
        alloc: Global,
        names: &PredefinedNames,
        number: usize,
        depth: usize,
        line: &[Token],
    ) -> Result<(), TextTokenProblem>
        ensures value { Gives (λ _. reading_of self.new) result
            (read_one (ordinary_line (predefined_of names.now) number depth) line.now (reading_of self.old)) }
        ensures equates { self.new.equates ≡ self.old.equates }
    {
        self.count_line()?;
        self.count_tokens(line)?;
        self.read_ordinary(alloc, names, number, depth, line)
    }

    /// Reads the lines that replace an EQU name, each as an ordinary line, up to END. Each line is built when it is read.
    #[cycle(ordinary)]
    fn read_used(
        &mut self,
        alloc: Global,
        names: &PredefinedNames,
        number: usize,
        depth: usize,
        operation: Operation<'_>,
    ) -> Result<(), TextTokenProblem>
        ensures value { Gives (λ _. reading_of self.new) result
            (each_line (ordinary_line (predefined_of names.now) number depth) (used operation.entry.before.now (lines_under (reading_of self.old) operation.entry.name) operation.entry.behind.now) (reading_of self.old)) }
        ensures equates { self.new.equates ≡ self.old.equates }
    {
        let Operation {
            name,
            before,
            behind,
        } = operation;
        let count = self.lines_under(name).len().max(1);
        for at in 0..count {
            let line = used_line(alloc, before, self.lines_under(name), behind, at)?;
            self.read_line(alloc, names, number, depth, &line)?;
            if self.ended {
                return Ok(());
            }
        }
        Ok(())
    }
}
