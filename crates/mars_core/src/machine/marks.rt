//! Marks of the cells that a turn executes, writes and touches (`specs/Marks`).
ghost use Rattle.std.specs.Prelude.{◌≡◌, ◌<◌, ◌≤◌, ◌∷◌, [], List, false, if◌then◌else◌, length};
ghost use Rattle.mars_cell.specs.Cells.{FitsCore};
ghost use Rattle.mars_cell.specs.declared.instruction.Cell.{Cell as CellValue};
ghost use Rattle.mars_core.specs.Code.Marks.{marks_by, pointed_writes, with_marks};
ghost use Rattle.mars_core.specs.Code.Operands.{AreOperands, IsUnlimited};
ghost use Rattle.mars_core.specs.Marks.{marks_of};
ghost use Rattle.mars_core.specs.State.{cell_at};
ghost use Rattle.mars_core.specs.Touched.{pointed_addresses};

use crate::machine::address::{address_after, folded_number};
use crate::machine::execution::Operands;
use crate::machine::places::writes_a_field;
use mars_cell::{Cell, Mode, Params};

/// What the marked turns did with a cell.
#[derive(Clone, Copy, Debug)]
pub struct Mark {
    /// Whether a turn executed the cell.
    pub executed: bool,
    /// Whether a turn wrote the cell.
    pub written: bool,
    /// Whether a turn executed, read or wrote the cell.
    pub touched: bool,
}

/// Marks the cells that the execution of an instruction at `pc` with these operands executed, wrote or touched.
#[inline(always)]
pub fn mark_turn<const LIMITED: bool>(
    params: &Params,
    marks: &mut [Mark],
    pc: u32,
    instruction: Cell,
    operands: Operands,
)
    requires unlimited { LIMITED ≡ false → IsUnlimited params.now }
    requires size { length marks.old ≡ params.now.core_size }
    requires pc { pc < params.now.core_size }
    requires instruction { FitsCore params.now.core_size instruction }
    requires a_read { operands.a_read < params.now.core_size }
    requires b_read { operands.b_read < params.now.core_size }
    requires b_write { operands.b_write < params.now.core_size }
    ensures { (core : List CellValue) → instruction ≡ cell_at core pc → AreOperands params.now core pc operands
        → marks_of marks.new ≡ marks_by params.now core pc (marks_of marks.old) }
{
    mark_executed(marks, pc);
    mark_pointed::<LIMITED>(params, marks, pc, instruction.a_mode, instruction.a);
    mark_touched(marks, operands.a_read);
    mark_pointed::<LIMITED>(params, marks, pc, instruction.b_mode, instruction.b);
    mark_touched(marks, operands.b_read);
    mark_target(marks, operands.b_write, operands.written);
}

/// Marks the cells to which the number of an indirect mode leads as touched, and the cell of which the mode writes a
/// field also as written.
#[inline(always)]
#[tactic(auto, unfolding(crate::specs::Touched::pointed_addresses))]
fn mark_pointed<const LIMITED: bool>(
    params: &Params,
    marks: &mut [Mark],
    pc: u32,
    mode: Mode,
    number: u32,
)
    requires unlimited { LIMITED ≡ false → IsUnlimited params.now }
    requires size { length marks.old ≡ params.now.core_size }
    requires pc { pc < params.now.core_size }
    requires number { number < params.now.core_size }
    ensures marks { marks_of marks.new ≡ with_marks [] (pointed_writes params.now pc mode number) (pointed_addresses params.now pc mode number) (marks_of marks.old) }
    ensures size { length marks.new ≡ length marks.old }
{
    if matches!(mode, Mode::Immediate | Mode::Direct) {
        return;
    }
    let core_size = params.core_size();
    let read = folded_number::<LIMITED>(core_size, params.read_limit(), number);
    let write = folded_number::<LIMITED>(core_size, params.write_limit(), number);
    mark_touched(marks, address_after(core_size, pc, read));
    mark_target(
        marks,
        address_after(core_size, pc, write),
        writes_a_field(mode),
    );
}

/// Marks a cell as touched, and also as written if `written`.
#[inline(always)]
fn mark_target(marks: &mut [Mark], address: u32, written: bool)
    requires { address < length marks.old }
    ensures marks { marks_of marks.new ≡ with_marks [] (if written then address ∷ [] else []) (address ∷ []) (marks_of marks.old) }
    ensures size { length marks.new ≡ length marks.old }
{
    mark_touched(marks, address);
    if written {
        mark_written(marks, address);
    }
}

/// Marks a cell as executed, and thereby touched.
#[inline(always)]
#[tactic(auto, using(crate::proofs::Marks::marked_executed))]
fn mark_executed(marks: &mut [Mark], address: u32)
    requires { address < length marks.old }
    ensures marks { marks_of marks.new ≡ with_marks (address ∷ []) [] (address ∷ []) (marks_of marks.old) }
    ensures size { length marks.new ≡ length marks.old }
{
    let mark = marks[address as usize];
    marks[address as usize] = Mark {
        executed: true,
        touched: true,
        ..mark
    };
}

/// Marks a cell as written.
#[inline(always)]
#[tactic(auto, using(crate::proofs::Marks::marked_written))]
fn mark_written(marks: &mut [Mark], address: u32)
    requires { address < length marks.old }
    ensures marks { marks_of marks.new ≡ with_marks [] (address ∷ []) [] (marks_of marks.old) }
    ensures size { length marks.new ≡ length marks.old }
{
    let mark = marks[address as usize];
    marks[address as usize] = Mark {
        written: true,
        ..mark
    };
}

/// Marks a cell as touched.
#[inline(always)]
#[tactic(auto, using(crate::proofs::Marks::marked_touched))]
fn mark_touched(marks: &mut [Mark], address: u32)
    requires { address < length marks.old }
    ensures marks { marks_of marks.new ≡ with_marks [] [] (address ∷ []) (marks_of marks.old) }
    ensures size { length marks.new ≡ length marks.old }
{
    let mark = marks[address as usize];
    marks[address as usize] = Mark {
        touched: true,
        ..mark
    };
}
