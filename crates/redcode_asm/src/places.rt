//! Lines with their indices, and the table of labels.
ghost use Rattle.std.specs.Prelude.{◌≡◌, ◌+◌, ◌<◌, ◌≤◌, length, map, option_map, drop, filter, [], nat_eq, IfOk, OnOk};
ghost use Rattle.redcode_text.specs.Equates.{limit};
ghost use Rattle.redcode_text.specs.Views.{line_of};
ghost use Rattle.redcode_text.specs.Lines.{is_instruction, is_keyword};
ghost use Rattle.redcode_asm.specs.Assembly.{index_after, last_where, none_past, placed_from};
ghost use Rattle.redcode_asm.specs.Code.Sources.{placed_of};
ghost use Rattle.std.specs.Map.{lookup};
ghost use Rattle.redcode_asm.specs.Code.Labels.{table_with, with_label, with_labels};

use crate::fault::{AsmFault, AsmProblem};
use indexmap::IndexMap;
use redcode_text::{Line, NameTable, is_instruction, is_keyword};
use std::alloc::{AllocError, Global};
use std::marker::Model;

/// A line, and the number of instructions before it.
#[derive(Clone, Copy)]
pub struct Place<'a> {
    pub index: u32,
    pub line: &'a Line,
}

/// Returns the number of instructions up to and including this line, if `index` instructions precede it.
pub fn index_after(names: &NameTable, index: u32, line: &Line) -> u32
    requires { index < limit }
    ensures value { result ≡ index_after names.now index (line_of line.now) }
    ensures one_more { result ≤ index + 1 }
{
    if is_instruction(names, line.operation, &line.rest) {
        index + 1
    } else {
        index
    }
}

/// Returns the last line whose operation is `word`, ignoring case.
pub fn last_line<'a>(names: &NameTable, lines: &'a [Line], word: &[u8]) -> Option<Place<'a>>
    requires { length lines.now ≤ limit }
    ensures { option_map placed_of result
        ≡ last_where (λ l. is_keyword names.now word.now l.operation) (placed_from names.now 0 (map line_of lines.now)) }
{
    let mut found = None;
    let mut index = 0;
    for line in lines {
        if is_keyword(names, word, line.operation) {
            found = Some(Place { index, line });
        }
        index = index_after(names, index, line);
    }
    found
}

/// Returns `TooLong` with the line of the first instruction beyond the maximum length, if there is one.
pub fn check_length(names: &NameTable, lines: &[Line], longest: u32) -> Result<(), AsmFault>
    requires { length lines.now ≤ limit }
    ensures { result ≡ none_past (drop longest
        (filter (λ p. is_instruction names.now p.line.operation p.line.rest) (placed_from names.now 0 (map line_of lines.now)))) }
{
    let mut index = 0;
    for line in lines {
        if is_instruction(names, line.operation, &line.rest) {
            if index >= longest {
                return Err(AsmFault {
                    line: line.number,
                    problem: AsmProblem::TooLong,
                    token: line.operation_span,
                });
            }
            index += 1;
        }
    }
    Ok(())
}

/// Labels, by their indices among the names, each with the number of instructions before its line.
#[derive(Drop)]
pub struct Labels {
    indices: IndexMap<usize, u32>,
}

impl Model for Labels {
    ghost use Rattle.redcode_asm.specs.Code.Labels.{Table};

    ghost Value = { Table };

    ghost view = { λ t. t.indices.entries };
}

impl Labels {
    /// Adds a label with the index `index`, unless the label is in the table already.
    fn add(&mut self, label: usize, index: u32) -> Result<(), AllocError>
        ensures { OnOk result (self.new ≡ with_label index self.old label) }
    {
        if self.index_of(label).is_none() {
            self.indices.insert(label, index)?;
        }
        Ok(())
    }

    /// Adds the labels of a line with the index `index`.
    fn add_each(&mut self, labels: &[usize], index: u32) -> Result<(), AllocError>
        ensures { OnOk result (self.new ≡ with_labels index self.old labels.now) }
    {
        for label in labels {
            self.add(*label, index)?;
        }
        Ok(())
    }

    /// Builds the table of the labels of `lines`.
    pub fn of_lines(alloc: Global, names: &NameTable, lines: &[Line]) -> Result<Labels, AllocError>
        requires { length lines.now ≤ limit }
        ensures { IfOk result (λ table. table ≡ table_with [] (placed_from names.now 0 (map line_of lines.now))) }
    {
        let mut labels = Labels {
            indices: IndexMap::new(alloc),
        };
        let mut index = 0;
        for line in lines {
            labels.add_each(&line.labels, index)?;
            index = index_after(names, index, line);
        }
        Ok(labels)
    }

    /// Returns the number of instructions before the line of a label, if the label is in the table.
    pub fn index_of(&self, label: usize) -> Option<u32>
        ensures { result ≡ lookup (nat_eq label) self.now }
    {
        self.indices.get(&label).copied()
    }
}
