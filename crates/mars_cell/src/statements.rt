//! The statements of a load file, one on each line.
ghost use Rattle.std.specs.Prelude.{◌≡◌, ◌==◌, IfSome, length, not, take_while};
ghost use Rattle.mars_cell.specs.Parts.{parts};
ghost use Rattle.mars_cell.specs.Code.Listing.{StatementFits};
ghost use Rattle.mars_cell.specs.Load.{line_statement, only_number, end_of, statement_of};

use crate::grammar::take_cell;
use crate::instruction::Cell;
use crate::numbers::{Sizes, read_number};
use crate::parts::LineParts;
use crate::words::is_word;

/// The statement of one line of a load file.
#[derive(Clone, Copy)]
pub enum Statement {
    /// A line without parts.
    Nothing,
    /// `ORG` and the start.
    Origin(i64),
    /// `END`, with the start that applies if there is no ORG.
    End(Option<i64>),
    /// A cell.
    Instruction(Cell),
}

/// Reads a number that is the only part of the line.
#[tactic(auto, unfolding(crate::specs::Load::only_number))]
fn read_only_number(line: LineParts<'_>) -> Option<i64>
    ensures { result ≡ only_number (parts line.entry.rest.now) }
{
    let mut line = line;
    let number = line.take_first()?;
    if line.take_first().is_some() {
        return None;
    }
    read_number(number)
}

/// Reads the rest of an END line: nothing or a number.
#[tactic(auto, unfolding(crate::specs::Load::end_of, crate::specs::Load::only_number))]
fn read_end(line: LineParts<'_>) -> Option<Option<i64>>
    ensures { result ≡ end_of (parts line.entry.rest.now) }
{
    let mut after = line;
    if after.take_first().is_none() {
        return Some(None);
    }
    let number = read_only_number(line)?;
    Some(Some(number))
}

/// Reads the statement that the parts of a line form.
#[tactic(auto, unfolding(crate::specs::Load::statement_of))]
fn read_statement(line: LineParts<'_>, sizes: Sizes) -> Option<Statement>
    ensures value { result ≡ statement_of sizes.written sizes.core_size (parts line.entry.rest.now) }
    ensures fits { IfSome result (StatementFits sizes.core_size) }
{
    let mut after = line;
    let Some(first) = after.take_first() else {
        return Some(Statement::Nothing);
    };
    if is_word(first, b"ORG") {
        let number = read_only_number(after)?;
        Some(Statement::Origin(number))
    } else if is_word(first, b"END") {
        let number = read_end(after)?;
        Some(Statement::End(number))
    } else {
        let cell = take_cell(line, sizes)?;
        Some(Statement::Instruction(cell))
    }
}

/// Reads the statement of a line, without its comment.
pub fn read_line(line: &[u8], sizes: Sizes) -> Option<Statement>
    ensures value { result ≡ line_statement sizes.written sizes.core_size line.now }
    ensures fits { IfSome result (StatementFits sizes.core_size) }
{
    let (text, _) = line.split_at(text_len(line));
    read_statement(LineParts::new(text), sizes)
}

/// Returns the number of bytes before the comment.
fn text_len(line: &[u8]) -> usize
    ensures { result ≡ length (take_while (λ b. not (b == 59)) line.now) }
{
    line.iter().take_while(|byte| **byte != b';').count()
}
