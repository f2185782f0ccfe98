//! The copy of a whole cell that an execution makes (`specs/Past`).
ghost use Rattle.std.specs.Prelude.{◌≡◌, ◌<◌, ℕ, IfSome, List};
ghost use Rattle.mars_cell.specs.Parameters.{Parameters};
ghost use Rattle.mars_cell.specs.declared.instruction.Cell.{Cell as CellValue};
ghost use Rattle.mars_core.specs.Code.Operands.{AreOperands};
ghost use Rattle.mars_core.specs.Past.{copies as spec_copies, copy_by as spec_copy_by};
ghost use Rattle.mars_core.specs.State.{cell_at};
ghost use Rattle.mars_core.specs.declared.machine.copy.CellCopy.{CellCopy as Copied};

use crate::machine::effect::pairs::takes_whole_cells;
use crate::machine::execution::Operands;
use mars_cell::{Cell, Modifier, Op};

/// A copy of a whole cell: the address from which it is copied, and the address at which it is written.
#[derive(Clone, Copy, Debug)]
pub struct CellCopy {
    pub from: u32,
    pub to: u32,
}

/// Returns whether an instruction copies a whole cell.
#[inline(always)]
fn copies(op: Op, modifier: Modifier) -> bool
    ensures { result ≡ spec_copies op modifier }
{
    match op {
        Op::Mov => takes_whole_cells(modifier),
        _ => false,
    }
}

/// Returns the copy that the execution of an instruction with these operands makes, or `None` if it makes none.
#[inline(always)]
pub fn copy_by(instruction: Cell, operands: Operands) -> Option<CellCopy>
    ensures copy { (p : Parameters) (core : List CellValue) (pc : ℕ) → instruction ≡ cell_at core pc → AreOperands p core pc operands
        → result ≡ spec_copy_by p core pc }
    ensures inside { (p : Parameters) (core : List CellValue) (pc : ℕ) → AreOperands p core pc operands
        → IfSome result (λ (copy : Copied). copy.from < p.core_size × copy.to < p.core_size) }
{
    if !copies(instruction.op, instruction.modifier) {
        return None;
    }
    Some(CellCopy {
        from: operands.a_read,
        to: operands.b_write,
    })
}
