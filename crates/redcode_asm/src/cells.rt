//! Assembles all instructions of a source to cells.
ghost use Rattle.std.specs.Prelude.{◌≡◌, ◌<◌, ◌≤◌, All, IfOk, length, map, vec_len};
ghost use Rattle.mars_cell.specs.Cells.{FitsCore};
ghost use Rattle.redcode_text.specs.Equates.{limit};
ghost use Rattle.redcode_text.specs.Views.{line_of, predefined_of};
ghost use Rattle.redcode_text.specs.Lines.{is_instruction};
ghost use Rattle.redcode_asm.specs.Assembly.{at_line, cell_of, cells_of, instructions};
ghost use Rattle.redcode_asm.specs.Outcomes.{IsResult};
ghost use Rattle.redcode_asm.specs.Code.Problems.{Gives};
ghost use Rattle.redcode_asm.specs.Code.Sources.{cells_among, placed_of};

use crate::fault::{AsmFault, AsmTokenProblem};
use crate::instruction::{Operation, line_modifier, line_opcode, make_cell};
use crate::places::Place;
use crate::sources::Source;
use mars_cell::Cell;
use redcode_text::{Line, is_instruction};
use std::alloc::Global;

impl<'a> Source<'a> {
    /// Returns whether a line is an instruction.
    fn is_instruction(&self, line: &Line) -> bool
        ensures { let l = line_of line.now in result ≡ is_instruction self.now.program.now.names l.operation l.rest }
    {
        is_instruction(self.program.names(), line.operation, &line.rest)
    }

    /// Assembles one instruction to its cell.
    fn cell_of(
        &self,
        alloc: Global,
        core_size: u32,
        place: Place<'_>,
    ) -> Result<Cell, AsmTokenProblem>
        requires { 0 < core_size }
        ensures value { Gives (λ cell. cell) result
            (cell_of (predefined_of self.now.predefined.now) core_size self.now.program.now (placed_of place.entry)) }
        ensures fits { IfOk result (FitsCore core_size) }
    {
        let names = self.program.names();
        let op = line_opcode(names, place.line)?;
        let (modifier, rest) = line_modifier(names, &place.line.rest)?;
        let operands = self.replace(alloc, rest)?;
        let line_names = self.instruction_names(place.index);
        let operation = Operation {
            op,
            modifier,
            span: place.line.operation_span,
        };
        make_cell(operation, &operands, &line_names, core_size)
    }

    /// Assembles one instruction to its cell, and adds its line to an error.
    fn cell_at(&self, alloc: Global, core_size: u32, place: Place<'_>) -> Result<Cell, AsmFault>
        requires { 0 < core_size }
        ensures value { let placed = placed_of place.entry in IsResult (λ cell. cell) result
            (at_line placed.line.number (cell_of (predefined_of self.now.predefined.now) core_size self.now.program.now placed)) }
        ensures fits { IfOk result (FitsCore core_size) }
    {
        match self.cell_of(alloc, core_size, place) {
            Ok(cell) => Ok(cell),
            Err(problem) => Err(problem.at_line(place.line.number)),
        }
    }

    /// Returns the cells of the instructions among `lines`, or the first error.
    fn cells_among(
        &self,
        alloc: Global,
        core_size: u32,
        lines: &[Line],
    ) -> Result<Vec<Cell>, AsmFault>
        requires core { 0 < core_size }
        requires few { length lines.now ≤ limit }
        ensures value { IsResult (λ cells. cells.items) result
            (cells_among (predefined_of self.now.predefined.now) core_size self.now.program.now 0 (map line_of lines.now)) }
        ensures fits { IfOk result (λ cells. All (FitsCore core_size) cells.items) }
        ensures few { IfOk result (λ cells. vec_len cells ≤ limit) }
    {
        let mut cells = Vec::new(alloc);
        let mut index = 0;
        for line in lines {
            if self.is_instruction(line) {
                let cell = self.cell_at(alloc, core_size, Place { index, line })?;
                cells.push(cell)?;
                index += 1;
            }
        }
        Ok(cells)
    }

    /// Returns the cells of all instructions, or the first error.
    pub fn cells(&self, alloc: Global, core_size: u32) -> Result<Vec<Cell>, AsmFault>
        requires { 0 < core_size }
        ensures value { IsResult (λ cells. cells.items) result
            (cells_of (predefined_of self.now.predefined.now) core_size self.now.program.now
            (instructions self.now.program.now)) }
        ensures fits { IfOk result (λ cells. All (FitsCore core_size) cells.items) }
        ensures few { IfOk result (λ cells. vec_len cells ≤ limit) }
        ensures each { IfOk result (λ cells. vec_len cells ≡ length (instructions self.now.program.now)) }
    {
        self.cells_among(alloc, core_size, self.program.lines())
    }
}
