//! Reads a whole source, and returns its program.
ghost use Rattle.std.specs.Prelude.{◌≡◌, map};
ghost use Rattle.redcode_text.specs.Expansion.{expansion, flat, nothing_read, program_of};
ghost use Rattle.redcode_text.specs.Views.{predefined_of};
ghost use Rattle.redcode_text.specs.Code.Readings.{reading_of};
ghost use Rattle.redcode_text.specs.Code.Loops.{RowsFit};
ghost use Rattle.redcode_text.specs.Code.Rows.{row_of};
ghost use Rattle.redcode_text.specs.Outcomes.{IsResult};
ghost use Rattle.redcode_text.specs.Source.{tree_of, tree_of_rows};

use crate::fault::{TextFault, TextProblem};
use crate::names::predefined::PredefinedNames;
use crate::program::Program;
use crate::reader::Reading;
use crate::reader::repeat::read_all;
use crate::source::row::SourceRow;
use crate::source::{read_rows, rows_of};
use std::alloc::Global;

/// Builds the program from everything that was read.
fn program_of(reading: Reading) -> Program
    ensures { result ≡ program_of (reading_of reading) }
{
    let Reading {
        names,
        equates,
        lines,
        labels,
        name,
        author,
        asserts,
        ..
    } = reading;
    // The labels are dropped by a call, because dropping them in this body is expensive to prove.
    drop(labels);
    Program {
        names: names.into_table(),
        equates,
        lines,
        name,
        author,
        asserts,
    }
}

/// Reads rows of a source, up to END. `names` has the values of the predefined names.
fn read_from_rows(
    alloc: Global,
    rows: &[SourceRow<'_>],
    names: &PredefinedNames,
) -> Result<Reading, TextFault>
    requires fits { RowsFit rows.now }
    ensures { IsResult (λ reading. reading_of reading) result
        (flat (predefined_of names.now) (tree_of_rows (map row_of rows.now)) nothing_read) }
{
    let Ok(mut reading) = Reading::new(alloc) else {
        return Err(TextProblem::OutOfMemory.at_token(None).at_line(0));
    };
    match read_all(alloc, names, rows, &mut reading) {
        Ok(()) => Ok(reading),
        Err(fault) => {
            // The reading is dropped by one call, because dropping each field in this body is expensive to prove.
            drop(reading);
            Err(fault)
        }
    }
}

/// Reads a source from its first `;redcode` line on, up to END.
#[tactic(auto, using(crate::proofs::SourceRows::rows_fit))]
fn read_source(alloc: Global, bytes: &[u8], names: &PredefinedNames) -> Result<Reading, TextFault>
    ensures { IsResult (λ reading. reading_of reading) result (flat (predefined_of names.now) (tree_of bytes.now) nothing_read) }
{
    let Ok(rows) = rows_of(alloc, bytes) else {
        return Err(TextProblem::OutOfMemory.at_token(None).at_line(0));
    };
    read_from_rows(alloc, read_rows(&rows), names)
}

/// Reads a source from its first `;redcode` line on, or the whole source if it has none, up to END. Expands FOR loops,
/// and EQU names that are used as operations.
///
/// Unless names collide (`NameTable`), the running time is linear in the number of bytes that are read, where a line of
/// a loop counts once per iteration, and in the number of replacements in counts. Each count has at most 65,536
/// replacements.
///
/// # Errors
///
/// Returns the first error in the order of reading, with its line number in the source, from 1, and its token. The errors
/// of one line come in this order:
///
/// - `TooLong` if 65,536 lines were read before the line
/// - `UnclosedFor` and `RofAlone`
/// - the errors of its tokens, from the left: `NotAscii`, `BadToken`, or `TooLong` for the 65,537th token of the source
/// - in a FOR line: `BadToken` for the tokens before FOR, `TooLong` for the 33rd open loop, `EquDepth`, `BadToken` or
///   `TooLong` for replacing the EQU names in the count, `LabelInCount`, `Expression`, `BadCount`
/// - in an EQU line: `BadToken` for the tokens before EQU, or if there is no name that the line can belong to, then
///   `Duplicate`
/// - in any other line: `Duplicate` for its labels, from the left; then, if its operation is an EQU name, `EquDepth` and
///   the errors of the lines that replace it, in turn
///
/// `OutOfMemory`, with the line 0 and no token, replaces any error that would have been found after the allocation that failed.
#[tactic(auto, unfolding(crate::specs::Expansion::expansion))]
pub fn expand(alloc: Global, bytes: &[u8], names: &PredefinedNames) -> Result<Program, TextFault>
    ensures { IsResult (λ program. program) result (expansion (predefined_of names.now) bytes.now) }
{
    match read_source(alloc, bytes, names) {
        Ok(reading) => Ok(program_of(reading)),
        Err(fault) => Err(fault),
    }
}
