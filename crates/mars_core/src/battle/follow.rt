//! Executing turns, keeping the past of each cell, and searching for turns.
ghost use Rattle.std.specs.Prelude.{◌≡◌, ◌<◌, All, List, None, Some, false, if◌then◌else◌, length, slice_set, true};
ghost use Rattle.mars_cell.specs.Cells.{FitsCore};
ghost use Rattle.mars_cell.specs.Parameters.{AreInRange};
ghost use Rattle.mars_cell.specs.declared.instruction.Cell.{Cell as CellValue};
ghost use Rattle.mars_core.specs.Code.Operands.{AreOperands};
ghost use Rattle.mars_core.specs.Past.{followed, pasts_after};
ghost use Rattle.mars_core.specs.Search.{are_on as spec_are_on, filled, found_in, found_turn, meets as spec_meets};
ghost use Rattle.mars_core.specs.State.{cell_at as spec_cell_at, is_over_of};
ghost use Rattle.mars_core.specs.Touched.{touched as spec_touched};
ghost use Rattle.mars_core.specs.Turn.{after_turns, turn_of};

use crate::battle::Battle;
use crate::machine::copy::copy_by;
use crate::machine::execution::Operands;
use crate::machine::places::cell_at;
use crate::machine::touched::{MAX_TOUCHED, touched};
use crate::past::{Past, note_changes, note_copy};
use crate::record::Atom;
use crate::search::{Condition, Found, Seen, Way, are_on, meets};
use arrayvec::ArrayVec;
use mars_cell::{Cell, Params};

impl Battle {
    /// Executes `turns` turns, or as many as are left, keeps the past of each cell, and searches for the turns that
    /// meet all conditions. Does not fail or allocate. `pasts` has an entry for each cell.
    ///
    /// Returns the number of turns that meet all conditions. These turns are written to the front of `found`, as far as
    /// there are places.
    pub fn follow(
        &mut self,
        turns: u32,
        pasts: &mut [Past],
        conditions: &[Condition],
        found: &mut [Found],
    ) -> u32
        requires size { length pasts.old ≡ self.old.params.core_size }
        ensures count { result ≡ length (found_in conditions.now turns self.old pasts.old) }
        ensures found { found.new ≡ filled (found_in conditions.now turns self.old pasts.old) found.old }
        ensures pasts { pasts.new ≡ followed turns self.old pasts.old }
        ensures battle { self.new ≡ after_turns turns self.old }
    {
        let mut count = 0;
        for made in 0..turns {
            if self.is_over() {
                return count;
            }
            if let Some(turn) = self.follow_turn(pasts, conditions) {
                put(found, count, turn);
                count += 1;
            }
        }
        count
    }

    /// Executes a turn of a battle that is not over, keeps all pasts, and returns the turn if it meets all conditions.
    #[inline(always)]
    fn follow_turn(&mut self, pasts: &mut [Past], conditions: &[Condition]) -> Option<Found>
        requires running { is_over_of self.old ≡ false }
        requires size { length pasts.old ≡ self.old.params.core_size }
        ensures found { result ≡ (if spec_meets conditions.now self.old pasts.old then Some (found_turn self.old pasts.old) else None) }
        ensures pasts { pasts.new ≡ pasts_after self.old pasts.old }
        ensures battle { self.new ≡ turn_of self.old }
    {
        let pc = self.front();
        let instruction = cell_at(&self.core, pc).cell();
        let owner = self.next;
        let mut atom = Atom::default();
        let operands = self.turn_with_operands(&mut atom);
        let touched = touched_for(&self.params, conditions, pc, instruction, operands);
        let seen = Seen {
            core: &self.core,
            atom: &atom,
            pasts,
        };
        let met = meets(conditions, seen, pc, touched.as_slice());
        let found = met.then_some(Found {
            turn: self.turns,
            warrior: owner,
            queued: atom.queued.len() as u32,
            address: pc,
            past: pasts[pc as usize],
        });
        note_copy(pasts, copy_by(instruction, operands));
        note_changes(pasts, &self.core, atom.cells.as_slice(), owner, self.turns);
        found
    }
}

/// Returns the addresses that the execution of an instruction at `pc` with these operands touches. Returns none if no
/// condition is on cells that a turn reads.
#[inline(always)]
fn touched_for(
    params: &Params,
    conditions: &[Condition],
    pc: u32,
    instruction: Cell,
    operands: Operands,
) -> ArrayVec<u32, MAX_TOUCHED>
    requires params { AreInRange params.now }
    requires pc { pc < params.now.core_size }
    requires instruction { FitsCore params.now.core_size instruction }
    ensures touched { (core : List CellValue) → instruction ≡ spec_cell_at core pc → AreOperands params.now core pc operands
        → spec_are_on Way.Reads conditions.now ≡ true → result.items ≡ spec_touched params.now core pc }
    ensures inside { (core : List CellValue) → instruction ≡ spec_cell_at core pc → AreOperands params.now core pc operands
        → All (λ address. address < params.now.core_size) result.items }
{
    if are_on(Way::Reads, conditions) {
        touched(params, pc, instruction, operands)
    } else {
        ArrayVec::new()
    }
}

/// Writes `value` to the place with this index, if there is such a place.
pub fn put<T: Copy>(places: &mut [T], index: u32, value: T)
    ensures { places.new ≡ slice_set places.old index value }
{
    if (index as usize) < places.len() {
        places[index as usize] = value;
    }
}
