//! Cells as words, three for each cell, and opcodes, modifiers and modes by their numbers.
ghost use Rattle.std.specs.Prelude.{◌≡◌, ◌≢◌, ◌*◌, ◌≤◌, ◌∷◌, [], length, IfErr, IfNone, IfOk, IfSome, List};
ghost use Rattle.mars_cell.specs.Cells.{FitsCore, mode_index, modifier_index, op_index};
ghost use Rattle.mars_cell.specs.declared.instruction.Cell.{Cell as CellValue};
ghost use Rattle.mars_cell.specs.Limits.{max_core_size};
ghost use Rattle.mars_core.specs.Block.{cell_words, core_words, tags_word};
ghost use Rattle.mars_core.specs.Code.Blocks.{IsCellFault};
ghost use Rattle.mars_core.specs.Validity.{IsCore};

use crate::battle::block::BlockFault;
use crate::packed::PackedCell;
use mars_cell::{Cell, Mode, Modifier, Op};
use std::alloc::Global;

/// Returns the opcode with this number, or `None` if there is none.
#[inline(always)]
pub fn op_of(number: u32) -> Option<Op>
    ensures some { IfSome result (λ found. op_index found ≡ number) }
    ensures none { IfNone result ((one : Op) → op_index one ≢ number) }
{
    match number {
        0 => Some(Op::Dat),
        1 => Some(Op::Mov),
        2 => Some(Op::Add),
        3 => Some(Op::Sub),
        4 => Some(Op::Mul),
        5 => Some(Op::Div),
        6 => Some(Op::Mod),
        7 => Some(Op::Jmp),
        8 => Some(Op::Jmz),
        9 => Some(Op::Jmn),
        10 => Some(Op::Djn),
        11 => Some(Op::Seq),
        12 => Some(Op::Sne),
        13 => Some(Op::Slt),
        14 => Some(Op::Spl),
        15 => Some(Op::Nop),
        _ => None,
    }
}

/// Returns the modifier with this number, or `None` if there is none.
#[inline(always)]
pub fn modifier_of(number: u32) -> Option<Modifier>
    ensures some { IfSome result (λ found. modifier_index found ≡ number) }
    ensures none { IfNone result ((one : Modifier) → modifier_index one ≢ number) }
{
    match number {
        0 => Some(Modifier::A),
        1 => Some(Modifier::B),
        2 => Some(Modifier::Ab),
        3 => Some(Modifier::Ba),
        4 => Some(Modifier::F),
        5 => Some(Modifier::X),
        6 => Some(Modifier::I),
        _ => None,
    }
}

/// Returns the mode with this number, or `None` if there is none.
#[inline(always)]
pub fn mode_of(number: u32) -> Option<Mode>
    ensures some { IfSome result (λ found. mode_index found ≡ number) }
    ensures none { IfNone result ((one : Mode) → mode_index one ≢ number) }
{
    match number {
        0 => Some(Mode::Immediate),
        1 => Some(Mode::Direct),
        2 => Some(Mode::AIndirect),
        3 => Some(Mode::BIndirect),
        4 => Some(Mode::APredecrement),
        5 => Some(Mode::BPredecrement),
        6 => Some(Mode::APostincrement),
        7 => Some(Mode::BPostincrement),
        _ => None,
    }
}

/// Returns the tags of a cell: its opcode, modifier and modes in one word.
#[inline(always)]
fn word_of(cell: &Cell) -> u32
    ensures { result ≡ tags_word cell.now }
{
    u32::from(cell.op.index())
        + 256 * u32::from(cell.modifier.index())
        + 65_536 * u32::from(cell.a_mode.index())
        + 16_777_216 * u32::from(cell.b_mode.index())
}

/// Returns a cell with these tags and zeros for its numbers, or `None` if a tag does not exist.
#[inline(always)]
fn cell_of_tags(tags: u32) -> Option<Cell>
    ensures some { IfSome result (λ cell. tags_word cell ≡ tags) }
    ensures none { IfNone result ((cell : CellValue) → tags_word cell ≢ tags) }
{
    Some(Cell {
        op: op_of(tags % 256)?,
        modifier: modifier_of(tags / 256 % 256)?,
        a_mode: mode_of(tags / 65_536 % 256)?,
        b_mode: mode_of(tags / 16_777_216)?,
        a: 0,
        b: 0,
    })
}

/// Returns the cell of three words, or `None` if a tag does not exist or a number is not an address of the core.
#[inline(always)]
fn cell_of(core_size: u32, tags: u32, a: u32, b: u32) -> Option<Cell>
    ensures some { IfSome result (λ cell. cell_words cell ≡ tags ∷ a ∷ b ∷ []) }
    ensures fits { IfSome result (FitsCore core_size) }
    ensures none { IfNone result ((cell : CellValue) → FitsCore core_size cell → cell_words cell ≢ tags ∷ a ∷ b ∷ []) }
{
    if a >= core_size || b >= core_size {
        return None;
    }
    let cell = cell_of_tags(tags)?;
    Some(Cell { a, b, ..cell })
}

/// Writes the three words of each cell to `words`.
pub fn write_cells(cells: &[PackedCell], words: &mut [u32])
    requires { length words.old ≡ 3 * length cells.now }
    ensures { words.new ≡ core_words cells.now }
{
    for i in 0..cells.len() {
        let cell = cells[i].cell();
        words[3 * i] = word_of(&cell);
        words[3 * i + 1] = cell.a;
        words[3 * i + 2] = cell.b;
    }
}

/// Returns the cells with these words, or the error of the first cell that does not fit a core of `core_size` cells.
#[tactic(auto, using(crate::proofs::Words::Back::fits_largest))]
pub fn read_cells(
    alloc: Global,
    core_size: u32,
    words: &[u32],
) -> Result<Vec<PackedCell>, BlockFault>
    requires words { length words.now ≡ 3 * core_size }
    requires size { core_size ≤ max_core_size }
    ensures words { IfOk result (λ cells. core_words cells.items ≡ words.now) }
    ensures core { IfOk result (λ cells. IsCore core_size cells.items) }
    ensures none { IfErr result (λ fault. fault ≢ BlockFault.OutOfMemory
        → (cells : List CellValue) → IsCore core_size cells → core_words cells ≢ words.now) }
    ensures wrong { IfErr result (IsCellFault core_size words.now) }
{
    let Ok(mut cells) = Vec::with_capacity(alloc, core_size as usize) else {
        return Err(BlockFault::OutOfMemory);
    };
    for address in 0..core_size {
        let place = 3 * address as usize;
        match cell_of(core_size, words[place], words[place + 1], words[place + 2]) {
            Some(cell) => cells.push_reserved(PackedCell::new(cell)),
            None => return Err(BlockFault::Cell(address)),
        }
    }
    Ok(cells)
}
