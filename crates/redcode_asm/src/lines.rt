//! The line and the labels of each instruction in the source.
ghost use Rattle.std.specs.Prelude.{◌≡◌, ◌++◌, All, IfOk, OnOk, length, map};
ghost use Rattle.mars_cell.specs.Cells.{FitsCore};
ghost use Rattle.redcode_text.specs.Views.{line_of, predefined_of};
ghost use Rattle.redcode_asm.specs.Assembly.{assembly, warrior_of};
ghost use Rattle.redcode_asm.specs.Code.Lines.{labels_on, lines_on};
ghost use Rattle.redcode_asm.specs.Outcomes.{IsResult};
ghost use Rattle.redcode_asm.specs.SourceLines.{assembled_lines, labels_text, source_lines};

use crate::assembler::{predefined_names, read_program};
use crate::fault::AsmFault;
use crate::warriors::program_warrior;
use mars_cell::{Params, Warrior};
use redcode_text::{Line, NameTable, PredefinedNames, Program, is_instruction};
use std::alloc::{AllocError, Global};

/// The line of a cell in its source.
#[repr(C)]
#[derive(Clone, Copy, Debug, PartialEq, Eq)]
pub struct CellLine {
    /// Number of the line, from 1.
    pub line: u64,
    /// Offset of the cell's first label in the text of all labels.
    pub begin: u64,
    /// Offset after the zero byte of the cell's last label.
    pub end: u64,
}

// If one of the `push_` functions runs out of memory, a part of the new values may have been appended.

/// Appends the names of labels to a text, with a zero byte after each.
fn push_labels(names: &NameTable, labels: &[usize], text: &mut Vec<u8>) -> Result<(), AllocError>
    ensures { OnOk result (text.new.items ≡ text.old.items ++ labels_text names.now labels.now) }
{
    for label in labels {
        text.extend_from_slice(names.name(*label))?;
        text.push(0)?;
    }
    Ok(())
}

/// Appends the lines of the instructions among `source` to `lines`, and the labels of these instructions to `labels`.
fn push_lines(
    names: &NameTable,
    source: &[Line],
    lines: &mut Vec<CellLine>,
    labels: &mut Vec<u8>,
) -> Result<(), AllocError>
    ensures lines { OnOk result (lines.new.items ≡ lines.old.items
        ++ lines_on names.now (length labels.old.items) labels.old.items (map line_of source.now)) }
    ensures labels { OnOk result (labels.new.items ≡ labels_on names.now (length labels.old.items) labels.old.items (map line_of source.now)) }
{
    let mut begin = labels.len();
    for line in source {
        push_labels(names, &line.labels, labels)?;
        if is_instruction(names, line.operation, &line.rest) {
            let end = labels.len();
            lines.push(CellLine {
                line: line.number as u64,
                begin: begin as u64,
                end: end as u64,
            })?;
            begin = end;
        }
    }
    // Labels after the last instruction belong to no cell.
    labels.truncate(begin);
    Ok(())
}

/// A warrior, and the lines of its cells.
#[derive(Drop)]
pub struct Assembled {
    pub warrior: Warrior,
    /// The line of each cell, as [`assemble_with_lines`] describes it.
    pub lines: Vec<CellLine>,
    /// The labels of all cells, with a zero byte after each.
    pub labels: Vec<u8>,
}

/// Returns the warrior of a program and the lines of its cells, or the first error of the program.
fn program_with_lines(
    alloc: Global,
    program: &Program,
    predefined: &PredefinedNames,
    params: &Params,
) -> Result<Assembled, AsmFault>
    ensures warrior { IsResult (λ made. made.warrior) result (warrior_of (predefined_of predefined.now) params.now program.now) }
    ensures lines { IsResult (λ made. record { lines = made.lines.items; labels = made.labels.items }) result
        (assembled_lines (predefined_of predefined.now) params.now program.now) }
    ensures rows { IfOk result (λ made. length made.lines.items ≡ length made.warrior.cells) }
    ensures fits { IfOk result (λ made. All (FitsCore params.now.core_size) made.warrior.cells) }
{
    let warrior = program_warrior(alloc, program, predefined, params)?;
    let (mut lines, mut labels) = (Vec::new(alloc), Vec::new(alloc));
    match push_lines(program.names(), program.lines(), &mut lines, &mut labels) {
        Ok(()) => Ok(Assembled {
            warrior,
            lines,
            labels,
        }),
        Err(error) => {
            drop(warrior);
            drop(lines);
            drop(labels);
            Err(AsmFault::from(error))
        }
    }
}

/// Assembles a source as `assemble`, and returns its warrior with the line and the labels of each cell, in order.
///
/// `&` joins and loop counters in labels are expanded. A line in a FOR loop is listed once per iteration. If an EQU name is
/// used as an operation, each line of its definition is listed with the line number of the use. A label on a line without an
/// instruction belongs to the next instruction; after the last instruction it is omitted.
///
/// # Errors
///
/// Returns the errors of `assemble`, which takes the same arguments.
#[tactic(auto, unfolding(crate::specs::Assembly::assembly))]
pub fn assemble_with_lines(
    alloc: Global,
    source: &[u8],
    params: &Params,
    rounds: u32,
    warriors: u32,
) -> Result<Assembled, AsmFault>
    ensures warrior { IsResult (λ made. made.warrior) result (assembly params.now rounds warriors source.now) }
    ensures lines { IsResult (λ made. record { lines = made.lines.items; labels = made.labels.items }) result
        (source_lines params.now rounds warriors source.now) }
    ensures rows { IfOk result (λ made. length made.lines.items ≡ length made.warrior.cells) }
    ensures fits { IfOk result (λ made. All (FitsCore params.now.core_size) made.warrior.cells) }
{
    let predefined = predefined_names(params, rounds, warriors);
    let program = read_program(alloc, source, &predefined)?;
    let made = program_with_lines(alloc, &program, &predefined, params);
    // The program is dropped by a call, because dropping each of its fields in this body is expensive to prove.
    drop(program);
    made
}
