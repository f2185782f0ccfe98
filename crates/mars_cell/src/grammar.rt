//! The grammar of the line of a cell.
ghost use Rattle.std.specs.Prelude.{◌≡◌, ◌<◌, IfSome, option_map};
ghost use Rattle.mars_cell.specs.Cells.{FitsCore};
ghost use Rattle.mars_cell.specs.Parts.{parts};
ghost use Rattle.mars_cell.specs.Grammar.{op_at, modifier_at, suffix_at, number_at, mode_at, operand_at, comma_at, default_modifier, cell_of, read_cell};

use crate::instruction::{Cell, Mode, Modifier, Op};
use crate::numbers::{Sizes, by_value, read_number};
use crate::parts::LineParts;
use crate::words::{read_mode, read_modifier, read_op};

/// Returns the modifier of an instruction that names none, by the ICWS'94 draft. NOP has F, and SNE is like SEQ.
#[tactic(auto, unfolding(crate::specs::Grammar::default_modifier))]
pub fn default_modifier(op: Op, a_mode: Mode, b_mode: Mode) -> Modifier
    ensures { result ≡ default_modifier op a_mode b_mode }
{
    match (op, a_mode, b_mode) {
        (Op::Dat | Op::Nop, _, _) => Modifier::F,
        (Op::Jmp | Op::Jmz | Op::Jmn | Op::Djn | Op::Spl, _, _) => Modifier::B,
        (_, Mode::Immediate, _) => Modifier::Ab,
        (Op::Slt, _, _) => Modifier::B,
        (_, _, Mode::Immediate) => Modifier::B,
        (Op::Mov | Op::Seq | Op::Sne, _, _) => Modifier::I,
        _ => Modifier::F,
    }
}

// Each `take_` function below returns what it reads at the front of `line`, and the rest of the line.

#[tactic(auto, unfolding(crate::specs::Grammar::op_at))]
fn take_op<'a>(line: LineParts<'a>) -> Option<(Op, LineParts<'a>)>
    ensures { option_map (λ r. (r.0, parts r.1.rest.now)) result ≡ op_at (parts line.entry.rest.now) }
{
    let mut line = line;
    let op = read_op(line.take_first()?)?;
    Some((op, line))
}

#[tactic(auto, unfolding(crate::specs::Grammar::modifier_at))]
fn take_modifier<'a>(line: LineParts<'a>) -> Option<(Modifier, LineParts<'a>)>
    ensures { option_map (λ r. (r.0, parts r.1.rest.now)) result ≡ modifier_at (parts line.entry.rest.now) }
{
    let mut line = line;
    let modifier = read_modifier(line.take_first()?)?;
    Some((modifier, line))
}

#[tactic(auto, unfolding(crate::specs::Grammar::suffix_at))]
fn take_suffix<'a>(line: LineParts<'a>) -> Option<(Option<Modifier>, LineParts<'a>)>
    ensures { option_map (λ r. (r.0, parts r.1.rest.now)) result ≡ suffix_at (parts line.entry.rest.now) }
{
    let mut after = line;
    match after.take_first() {
        Some(part) if part == b".".as_slice() => {
            let (modifier, rest) = take_modifier(after)?;
            Some((Some(modifier), rest))
        }
        _ => Some((None, line)),
    }
}

#[tactic(auto, unfolding(crate::specs::Grammar::number_at))]
fn take_number<'a>(line: LineParts<'a>) -> Option<(i64, LineParts<'a>)>
    ensures { option_map (λ r. (r.0, parts r.1.rest.now)) result ≡ number_at (parts line.entry.rest.now) }
{
    let mut line = line;
    let number = read_number(line.take_first()?)?;
    Some((number, line))
}

#[tactic(auto, unfolding(crate::specs::Grammar::mode_at))]
fn take_mode<'a>(line: LineParts<'a>) -> (Mode, LineParts<'a>)
    ensures { let r = result in mode_at (parts line.entry.rest.now) ≡ (r.0, parts r.1.rest.now) }
{
    let mut after = line;
    match after.take_first() {
        None => (Mode::Direct, line),
        Some(part) => match read_mode(part) {
            Some(mode) => (mode, after),
            None => (Mode::Direct, line),
        },
    }
}

#[tactic(auto, unfolding(crate::specs::Grammar::operand_at))]
fn take_operand<'a>(line: LineParts<'a>, sizes: Sizes) -> Option<(Mode, u32, LineParts<'a>)>
    ensures value { option_map (λ r. (r.0, r.1, parts r.2.rest.now)) result
        ≡ operand_at sizes.written sizes.core_size (parts line.entry.rest.now) }
    ensures below { IfSome result (λ r. r.1 < sizes.core_size) }
{
    let (mode, line) = take_mode(line);
    let (number, line) = take_number(line)?;
    Some((mode, by_value(number, sizes), line))
}

#[tactic(auto, unfolding(crate::specs::Grammar::comma_at))]
fn take_comma<'a>(line: LineParts<'a>) -> Option<LineParts<'a>>
    ensures { option_map (λ r. parts r.rest.now) result ≡ comma_at (parts line.entry.rest.now) }
{
    let mut line = line;
    if line.take_first()? == b",".as_slice() {
        Some(line)
    } else {
        None
    }
}

/// Returns the cell that the line describes, if the whole line is one cell.
#[tactic(auto, unfolding(crate::specs::Grammar::cell_of))]
pub fn take_cell(line: LineParts<'_>, sizes: Sizes) -> Option<Cell>
    ensures value { result ≡ cell_of sizes.written sizes.core_size (parts line.entry.rest.now) }
    ensures fits { IfSome result (FitsCore sizes.core_size) }
{
    let (op, line) = take_op(line)?;
    let (suffix, line) = take_suffix(line)?;
    let (a_mode, a, line) = take_operand(line, sizes)?;
    let line = take_comma(line)?;
    let (b_mode, b, line) = take_operand(line, sizes)?;
    let mut line = line;
    if line.take_first().is_some() {
        return None;
    }
    let modifier = suffix.unwrap_or(default_modifier(op, a_mode, b_mode));
    Some(Cell {
        op,
        modifier,
        a_mode,
        b_mode,
        a,
        b,
    })
}

/// Reads a cell from `text`, which may be what `Cell::text` prints.
///
/// Upper and lower case are equal, the modes and the modifier may be left out, and whitespace other than LF may be
/// between the parts and at both ends. Numbers are taken modulo the core size. A comment or an LF makes the text
/// invalid.
pub fn read_cell(text: &[u8], core_size: u32) -> Option<Cell>
    requires { 0 < core_size }
    ensures value { result ≡ read_cell core_size text.now }
    ensures fits { IfSome result (FitsCore core_size) }
{
    take_cell(LineParts::new(text), Sizes::same(core_size))
}
