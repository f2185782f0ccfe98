//! The items of a source, with the iterations of its loops.
ghost use Rattle.std.specs.Prelude.{◌≡◌, ◌+◌, ◌<◌, ◌≤◌, ◌^◌, false, length, map, option_map, slice_index, IfOk, OnOk};
ghost use Rattle.redcode_text.specs.Expansion.{flat, head_line, rof_line, rounds, unpaired_line};
ghost use Rattle.redcode_text.specs.declared.limits.TheConstants.{MAX_LOOPS};
ghost use Rattle.redcode_text.specs.Code.Counters.{IsThere};
ghost use Rattle.redcode_text.specs.Code.Heads.{head_of};
ghost use Rattle.redcode_text.specs.Views.{predefined_of};
ghost use Rattle.redcode_text.specs.Code.Readings.{reading_of};
ghost use Rattle.redcode_text.specs.Code.SourceLoops.{loops_of};
ghost use Rattle.redcode_text.specs.Lines.{name_at};
ghost use Rattle.redcode_text.specs.Code.Loops.{IsFor, IsPlain, ReadTo, RowsFit};
ghost use Rattle.redcode_text.specs.Outcomes.{IsResult};
ghost use Rattle.redcode_text.specs.Code.Problems.{Gives};
ghost use Rattle.redcode_text.specs.Code.Rows.{row_of};
ghost use Rattle.redcode_text.specs.Code.Pairs.{AreEnds, here_from};
ghost use Rattle.redcode_text.specs.Source.{ForLine, line_kind, tree_of_rows};
ghost use Rattle.redcode_text.specs.Tokens.{at_line};

pub mod head;

use crate::fault::{TextFault, TextProblem, TextTokenProblem};
use crate::names::predefined::PredefinedNames;
use crate::reader::Reading;
use crate::reader::repeat::head::Head;
use crate::source::row::{LineKind, SourceRow};
use crate::source::{end_from, ends_of};
use std::alloc::Global;

impl Reading {
    /// Reads a ROF line, whose tokens have no meaning.
    pub fn read_rof(&mut self, alloc: Global, row: SourceRow<'_>) -> Result<(), TextTokenProblem>
        requires fits { row.at + length row.bytes.now < 2 ^ 64 }
        ensures value { Gives (λ _. reading_of self.new) result (rof_line (row_of row.entry) (reading_of self.old)) }
    {
        self.count_line()?;
        match self.row_tokens(alloc, row, 0) {
            Ok(_) => {
                self.equate_grows = false;
                Ok(())
            }
            Err(problem) => Err(problem),
        }
    }
}

/// Reads the row at the index `at`, which is neither FOR nor ROF, and returns the next index.
fn read_row(
    alloc: Global,
    names: &PredefinedNames,
    rows: &[SourceRow<'_>],
    at: usize,
    reading: &mut Reading,
) -> Result<usize, TextFault>
    requires fits { RowsFit rows.now }
    requires within { at < length rows.now }
    requires plain { IsPlain rows.now at }
    ensures gives { ReadTo (predefined_of names.now) rows.now at (reading_of reading.old) (reading_of reading.new) result }
    ensures loops { OnOk result (loops_of reading.new.names ≡ loops_of reading.old.names) }
{
    let row = rows[at];
    match reading.read_plain(alloc, names, row) {
        Ok(()) => Ok(at + 1),
        Err(problem) => Err(problem.at_line(row.number)),
    }
}

/// Reads a FOR row, whose word FOR is at the offset `word_at` of the row.
fn read_for_row(
    alloc: Global,
    names: &PredefinedNames,
    row: SourceRow<'_>,
    word_at: usize,
    reading: &mut Reading,
) -> Result<Head, TextFault>
    requires fits { row.at + length row.bytes.now < 2 ^ 64 }
    requires inside { word_at ≤ length row.bytes.now }
    requires word { ForLine word_at ≡ line_kind row.bytes.now }
    ensures loops { OnOk result (loops_of reading.new.names ≡ loops_of reading.old.names) }
    ensures depth { OnOk result (length (loops_of reading.old.names) < MAX_LOOPS) }
    ensures there { IfOk result (λ head. IsThere reading.new.names.table head.counter) }
    ensures gives { IsResult (head_of (reading_of reading.new)) result
        (at_line row.entry.number (head_line (predefined_of names.now) (row_of row.entry) (reading_of reading.old))) }
{
    match reading.read_head(alloc, names, row, word_at) {
        Ok(head) => Ok(head),
        Err(problem) => Err(problem.at_line(row.number)),
    }
}

/// Reads a ROF row, whose tokens have no meaning.
fn read_rof_row(alloc: Global, row: SourceRow<'_>, reading: &mut Reading) -> Result<(), TextFault>
    requires fits { row.at + length row.bytes.now < 2 ^ 64 }
    ensures loops { OnOk result (loops_of reading.new.names ≡ loops_of reading.old.names) }
    ensures gives { IsResult (λ _. reading_of reading.new) result
        (at_line row.entry.number (rof_line (row_of row.entry) (reading_of reading.old))) }
{
    match reading.read_rof(alloc, row) {
        Ok(()) => Ok(()),
        Err(problem) => Err(problem.at_line(row.number)),
    }
}

/// Counts the line of a FOR without its ROF, or of a ROF without its FOR, and returns the error `problem`.
fn refuse_unpaired(
    row: SourceRow<'_>,
    problem: TextProblem,
    reading: &mut Reading,
) -> Result<(), TextFault>
    requires fits { row.at + length row.bytes.now < 2 ^ 64 }
    ensures gives { IsResult (λ _. reading_of reading.new) result
        (at_line row.entry.number (unpaired_line problem (row_of row.entry) (reading_of reading.old))) }
{
    match reading.count_line() {
        Ok(()) => Err(problem.at_token(row.loop_word()).at_line(row.number)),
        Err(problem) => Err(problem.at_line(row.number)),
    }
}

/// The rows of a source, and where the items after each row end.
#[derive(Clone, Copy)]
struct PairedRows<'a> {
    rows: &'a [SourceRow<'a>],
    /// For each row, the index of the ROF that ends the items after the row, or the number of rows if none ends them.
    ends: &'a [usize],
    ghost same_length: { length ends.now ≡ length rows.now },
    ghost fit: { RowsFit rows.now },
}

/// Reads the items from `first` on, up to the ROF that ends them, to END or to the end of the source.
#[cycle(items)]
fn read_items(
    alloc: Global,
    names: &PredefinedNames,
    source: PairedRows<'_>,
    first: usize,
    reading: &mut Reading,
) -> Result<(), TextFault>
    requires ends { AreEnds source.rows.now source.ends.now }
    requires within { first ≤ length source.rows.now }
    requires depth { length (loops_of reading.old.names) ≤ MAX_LOOPS }
    ensures gives { IsResult (λ _. reading_of reading.new) result
        (flat (predefined_of names.now) (here_from source.entry.rows.now first) (reading_of reading.old)) }
    ensures loops { OnOk result (loops_of reading.new.names ≡ loops_of reading.old.names) }
{
    let PairedRows { rows, ends } = source;
    let mut at = first;
    while at < rows.len() {
        at = match rows[at].kind() {
            LineKind::Rof => return Ok(()),
            LineKind::For(word_at) => {
                if ends[at] >= rows.len() {
                    return refuse_unpaired(rows[at], TextProblem::UnclosedFor, reading);
                }
                read_loop(alloc, names, source, at, word_at, reading)?
            }
            LineKind::Equ(_) | LineKind::Other => read_row(alloc, names, rows, at, reading)?,
        };
        if reading.ended {
            return Ok(());
        }
    }
    Ok(())
}

/// Reads the loop of the FOR at the index `at`, with its word FOR at `word_at`, and returns the index after its ROF.
#[cycle(items)]
fn read_loop(
    alloc: Global,
    names: &PredefinedNames,
    source: PairedRows<'_>,
    at: usize,
    word_at: usize,
    reading: &mut Reading,
) -> Result<usize, TextFault>
    requires ends { AreEnds source.rows.now source.ends.now }
    requires within { at < length source.rows.now }
    requires closed { slice_index source.ends.now at < length source.rows.now }
    requires word { IsFor source.rows.now at word_at }
    requires depth { length (loops_of reading.old.names) ≤ MAX_LOOPS }
    ensures gives { ReadTo (predefined_of names.now) source.entry.rows.now at (reading_of reading.old) (reading_of reading.new) result }
    ensures loops { OnOk result (loops_of reading.new.names ≡ loops_of reading.old.names) }
{
    let PairedRows { rows, ends } = source;
    let last = ends[at];
    let head = read_for_row(alloc, names, rows[at], word_at, reading)?;
    read_rounds(alloc, names, source, at + 1, head, reading)?;
    if reading.ended {
        return Ok(last + 1);
    }
    read_rof_row(alloc, rows[last], reading)?;
    Ok(last + 1)
}

/// Reads the items from `first` on as many times as `head`, the header of their loop, says, up to END.
#[cycle(items)]
fn read_rounds(
    alloc: Global,
    names: &PredefinedNames,
    source: PairedRows<'_>,
    first: usize,
    head: Head,
    reading: &mut Reading,
) -> Result<(), TextFault>
    requires ends { AreEnds source.rows.now source.ends.now }
    requires within { first < length source.rows.now }
    requires depth { length (loops_of reading.old.names) < MAX_LOOPS }
    requires there { IsThere reading.old.names.table head.counter }
    ensures gives { IsResult (λ _. reading_of reading.new) result
        (rounds (flat (predefined_of names.now) (here_from source.entry.rows.now first)) (option_map (name_at reading.old.names.table) head.counter) 1 head.count (reading_of reading.old)) }
    ensures loops { OnOk result (loops_of reading.new.names ≡ loops_of reading.old.names) }
{
    let rows = source.rows;
    // An empty body adds nothing, however many iterations it has.
    if let LineKind::Rof = rows[first].kind() {
        return Ok(());
    }
    let Head { mut counter, count } = head;
    for round in 1..=count {
        let Ok(()) = reading.names.open_loop(counter, round) else {
            return Err(TextProblem::OutOfMemory.at_token(None).at_line(0));
        };
        read_items(alloc, names, source, first, reading)?;
        counter = reading.names.close_loop();
        if reading.ended {
            return Ok(());
        }
    }
    Ok(())
}

/// Reads all rows, up to END or to the error of a ROF without a FOR.
pub fn read_all(
    alloc: Global,
    names: &PredefinedNames,
    rows: &[SourceRow<'_>],
    reading: &mut Reading,
) -> Result<(), TextFault>
    requires fits { RowsFit rows.now }
    requires depth { length (loops_of reading.old.names) ≤ MAX_LOOPS }
    requires going { reading.old.ended ≡ false }
    ensures { IsResult (λ _. reading_of reading.new) result
        (flat (predefined_of names.now) (tree_of_rows (map row_of rows.now)) (reading_of reading.old)) }
{
    let Ok(ends) = ends_of(alloc, rows) else {
        return Err(TextProblem::OutOfMemory.at_token(None).at_line(0));
    };
    let source = PairedRows {
        rows: &*rows,
        ends: &ends,
    };
    read_items(alloc, names, source, 0, reading)?;
    if reading.ended {
        return Ok(());
    }
    let end = end_from(rows, &ends, 0);
    if end >= rows.len() {
        return Ok(());
    }
    refuse_unpaired(rows[end], TextProblem::RofAlone, reading)
}
