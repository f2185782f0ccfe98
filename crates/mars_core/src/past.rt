//! The past of each cell: the warrior and the turn that changed it last, and its instruction's origin (`specs/Past`).
ghost use Rattle.std.specs.Prelude.{◌≡◌, ◌<◌, All, IfSome, length, if◌then◌else◌, not, ℕ};
ghost use Rattle.mars_core.specs.Effect.{are_equal_cells};
ghost use Rattle.mars_core.specs.Past.{comes_from, past_at};
ghost use Rattle.mars_core.specs.Record.{restored};
ghost use Rattle.mars_core.specs.State.{cell_at as spec_cell_at};
ghost use Rattle.mars_core.specs.declared.machine.copy.CellCopy.{CellCopy as Copied};
ghost use Rattle.mars_core.specs.declared.machine.writes.CellChange.{CellChange as Change};

use crate::machine::copy::CellCopy;
use crate::machine::places::cell_at;
use crate::machine::writes::CellChange;
use crate::packed::PackedCell;

/// The past of a cell. The caller chooses the first values. A turn that changes the cell sets `owner` and `turn`, and a
/// turn that copies an instruction to the cell copies `origin`.
#[repr(C)]
#[derive(Clone, Copy, Debug, PartialEq, Eq)]
pub struct Past {
    /// The warrior that changed the cell last.
    pub owner: u32,
    /// The number of the turn that changed the cell last, from 1.
    pub turn: u32,
    /// The address at which the instruction of the cell was at first.
    pub origin: u32,
}

/// Sets the origin of the cell that a copy writes to the origin of the copied cell.
#[inline(always)]
pub fn note_copy(pasts: &mut [Past], copy: Option<CellCopy>)
    requires inside { IfSome copy (λ (one : Copied). one.from < length pasts.old × one.to < length pasts.old) }
    ensures { (a : ℕ) → a < length pasts.old
        → past_at pasts.new a ≡ record (past_at pasts.old a) { origin = (past_at pasts.old (comes_from copy a)).origin } }
{
    if let Some(copy) = copy {
        let origin = pasts[copy.from as usize].origin;
        pasts[copy.to as usize].origin = origin;
    }
}

/// Returns the cell that was at `address` before `writes`, which led to `core`.
#[inline(always)]
pub fn cell_before(core: &[PackedCell], writes: &[CellChange], address: u32) -> PackedCell
    requires inside { address < length core.now }
    ensures { result ≡ spec_cell_at (restored writes.now core.now) address }
{
    for write in writes {
        if write.address == address {
            return write.before;
        }
    }
    cell_at(core, address)
}

/// Returns whether the cell at `address` differs from the cell there before `writes`, which led to `core`.
#[inline(always)]
pub fn is_changed(core: &[PackedCell], writes: &[CellChange], address: u32) -> bool
    requires inside { address < length core.now }
    ensures { result ≡ not (are_equal_cells (spec_cell_at (restored writes.now core.now) address) (spec_cell_at core.now address)) }
{
    !cell_before(core, writes, address).equals(cell_at(core, address))
}

/// Sets the owner and the turn of each cell that differs from the cell before `writes`, which led to `core`.
#[inline(always)]
pub fn note_changes(
    pasts: &mut [Past],
    core: &[PackedCell],
    writes: &[CellChange],
    owner: u32,
    turn: u32,
)
    requires size { length pasts.old ≡ length core.now }
    requires inside { All (λ (write : Change). write.address < length core.now) writes.now }
    ensures { (a : ℕ) → a < length pasts.old → past_at pasts.new a
        ≡ (if not (are_equal_cells (spec_cell_at (restored writes.now core.now) a) (spec_cell_at core.now a))
        then record { owner = owner; turn = turn; origin = (past_at pasts.old a).origin } else past_at pasts.old a) }
{
    for write in writes {
        let address = write.address;
        if is_changed(core, writes, address) {
            let origin = pasts[address as usize].origin;
            pasts[address as usize] = Past {
                owner,
                turn,
                origin,
            };
        }
    }
}
