//! Cells as numbers.
ghost use Rattle.std.specs.Prelude.{◌≡◌, ◌≢◌, ◌≤◌, ◌++◌, IfNone, IfSome, drop, length, map};
ghost use Rattle.mars_cell.specs.declared.instruction.Cell.{Cell as CellValue};
ghost use Rattle.mars_c.specs.Cells.{plain_cell};

use mars_cell::Cell;
use mars_core::{mode_of, modifier_of, op_of};

/// A cell of the core. Opcode, modifier and modes are numbers of `include/mars.h`.
#[repr(C)]
#[derive(Clone, Copy)]
pub struct MarsCell {
    pub op: u8,
    pub modifier: u8,
    pub a_mode: u8,
    pub b_mode: u8,
    pub a: u32,
    pub b: u32,
}

impl MarsCell {
    /// Returns a cell as numbers.
    pub fn of(cell: &Cell) -> MarsCell
        ensures { result ≡ plain_cell cell.now }
    {
        MarsCell {
            op: cell.op.index(),
            modifier: cell.modifier.index(),
            a_mode: cell.a_mode.index(),
            b_mode: cell.b_mode.index(),
            a: cell.a,
            b: cell.b,
        }
    }
}

/// Returns the cell with these numbers, or `None` if a number is no opcode, modifier or mode.
pub fn cell_of(numbers: &MarsCell) -> Option<Cell>
    ensures some { IfSome result (λ cell. plain_cell cell ≡ numbers.now) }
    ensures none { IfNone result ((cell : CellValue) → plain_cell cell ≢ numbers.now) }
{
    Some(Cell {
        op: op_of(u32::from(numbers.op))?,
        modifier: modifier_of(u32::from(numbers.modifier))?,
        a_mode: mode_of(u32::from(numbers.a_mode))?,
        b_mode: mode_of(u32::from(numbers.b_mode))?,
        a: numbers.a,
        b: numbers.b,
    })
}

/// Writes the numbers of cells to the front of `places`.
pub fn put_cells(cells: &[Cell], places: &mut [MarsCell])
    requires { length cells.now ≤ length places.old }
    ensures { places.new ≡ map plain_cell cells.now ++ drop (length cells.now) places.old }
{
    for i in 0..cells.len() {
        places[i] = MarsCell::of(&cells[i]);
    }
}
