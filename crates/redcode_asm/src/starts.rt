//! Finds the start of a warrior, from ORG and END.
ghost use Rattle.std.specs.Prelude.{◌≡◌, ◌<◌, IfOk, option_map};
ghost use Rattle.redcode_text.specs.Spans.{first_span};
ghost use Rattle.redcode_text.specs.Views.{predefined_of};
ghost use Rattle.redcode_asm.specs.Assembly.{as_start, at_line, at_token, end_start, org_start, start_at, start_by, start_of};
ghost use Rattle.redcode_asm.specs.Outcomes.{IsResult};
ghost use Rattle.redcode_asm.specs.Code.Problems.{Gives};
ghost use Rattle.redcode_asm.specs.Code.Sources.{placed_of};

use crate::expressions::value_in;
use crate::fault::{AsmFault, AsmProblem, AsmTokenProblem};
use crate::places::Place;
use crate::sources::Source;
use redcode_text::{Token, first_span};
use std::alloc::Global;

/// Converts the value of an expression to a start, which is below `count`, the number of instructions.
fn as_start(value: i64, count: u32) -> Result<u32, AsmProblem>
    ensures value { result ≡ as_start count value }
    ensures below { IfOk result (λ start. start < count) }
{
    if 0 <= value && value < i64::from(count) {
        Ok(value as u32)
    } else {
        Err(AsmProblem::BadOrigin)
    }
}

/// Converts the value of an expression to a start, and adds the first token to an error.
fn start_from(value: i64, count: u32, tokens: &[Token]) -> Result<u32, AsmTokenProblem>
    ensures value { result ≡ at_token (first_span tokens.now) (as_start count value) }
    ensures below { IfOk result (λ start. start < count) }
{
    match as_start(value, count) {
        Ok(start) => Ok(start),
        Err(problem) => Err(problem.at_token(first_span(tokens))),
    }
}

impl<'a> Source<'a> {
    /// Evaluates the expression of an ORG or END to a start below `count`, the number of instructions.
    fn start_at(
        &self,
        count: u32,
        place: Place<'_>,
        tokens: &[Token],
    ) -> Result<u32, AsmTokenProblem>
        ensures value { result ≡ start_at (predefined_of self.now.predefined.now) self.now.program.now count
            (placed_of place.entry) tokens.now }
        ensures below { IfOk result (λ start. start < count) }
    {
        let line_names = self.start_names(place.index);
        let value = value_in(&line_names, place.line.operation_span, tokens)?;
        start_from(value, count, tokens)
    }

    /// Returns the start that an ORG sets.
    fn org_start(&self, alloc: Global, count: u32, place: Place<'_>) -> Result<u32, AsmTokenProblem>
        ensures value { Gives (λ start. start) result
            (org_start (predefined_of self.now.predefined.now) self.now.program.now count (placed_of place.entry)) }
        ensures below { IfOk result (λ start. start < count) }
    {
        let tokens = self.replace(alloc, &place.line.rest)?;
        self.start_at(count, place, &tokens)
    }

    /// Returns the start that an END sets: 0 if it has no operand.
    fn end_start(&self, alloc: Global, count: u32, place: Place<'_>) -> Result<u32, AsmTokenProblem>
        ensures value { Gives (λ start. start) result
            (end_start (predefined_of self.now.predefined.now) self.now.program.now count (placed_of place.entry)) }
        ensures below { 0 < count → IfOk result (λ start. start < count) }
    {
        let tokens = self.replace(alloc, &place.line.rest)?;
        if tokens.is_empty() {
            return Ok(0);
        }
        self.start_at(count, place, &tokens)
    }

    /// Returns the start that an ORG sets, and adds its line to an error.
    fn org_start_at(&self, alloc: Global, count: u32, place: Place<'_>) -> Result<u32, AsmFault>
        ensures below { IfOk result (λ start. start < count) }
        ensures value { let placed = placed_of place.entry in IsResult (λ start. start) result
            (at_line placed.line.number (org_start (predefined_of self.now.predefined.now) self.now.program.now count placed)) }
    {
        match self.org_start(alloc, count, place) {
            Ok(start) => Ok(start),
            Err(problem) => Err(problem.at_line(place.line.number)),
        }
    }

    /// Returns the start that an END sets, and adds its line to an error.
    fn end_start_at(&self, alloc: Global, count: u32, place: Place<'_>) -> Result<u32, AsmFault>
        ensures below { 0 < count → IfOk result (λ start. start < count) }
        ensures value { let placed = placed_of place.entry in IsResult (λ start. start) result
            (at_line placed.line.number (end_start (predefined_of self.now.predefined.now) self.now.program.now count placed)) }
    {
        match self.end_start(alloc, count, place) {
            Ok(start) => Ok(start),
            Err(problem) => Err(problem.at_line(place.line.number)),
        }
    }

    /// Returns the start that `org` sets, or else `end`, or else 0.
    fn start_by(
        &self,
        alloc: Global,
        count: u32,
        org: Option<Place<'_>>,
        end: Option<Place<'_>>,
    ) -> Result<u32, AsmFault>
        ensures below { 0 < count → IfOk result (λ start. start < count) }
        ensures value { IsResult (λ start. start) result
            (start_by (predefined_of self.now.predefined.now) self.now.program.now count (option_map placed_of org.entry) (option_map placed_of end.entry)) }
    {
        match (org, end) {
            (Some(place), _) => self.org_start_at(alloc, count, place),
            (None, Some(place)) => self.end_start_at(alloc, count, place),
            (None, None) => Ok(0),
        }
    }

    /// Returns the start that the last ORG sets, or else the last END, or else 0, for `count` instructions.
    pub fn start(&self, alloc: Global, count: u32) -> Result<u32, AsmFault>
        ensures value { IsResult (λ start. start) result (start_of (predefined_of self.now.predefined.now) self.now.program.now count) }
        ensures below { 0 < count → IfOk result (λ start. start < count) }
    {
        self.start_by(alloc, count, self.last_line(b"org"), self.last_line(b"end"))
    }
}
