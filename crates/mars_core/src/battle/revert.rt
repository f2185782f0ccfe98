//! Stepping back and forth over a turn or an edit, by its record.
ghost use Rattle.std.specs.Prelude.{◌≡◌};
ghost use Rattle.mars_core.specs.State.{State};
ghost use Rattle.mars_core.specs.Leads.{Leads};

use crate::battle::Battle;
use crate::deaths::remove_last_death;
use crate::record::redo::{note_recorded_death, reapply_to_queue, rewrite_cells};
use crate::record::undo::{restore_cells, restore_queue};
use crate::record::{Atom, cycles_of, turns_of};

impl Battle {
    /// Undoes the turn or edit that `atom` records, restoring the unique state before it.
    ///
    /// `atom` must be a record that leads to the present state. Does not fail or allocate.
    pub fn revert(&mut self, atom: &Atom)
        requires { (before : State) × Leads before atom.now self.old }
        ensures { (before : State) → Leads before atom.now self.old → self.new ≡ before }
    {
        restore_cells(&mut self.core, atom.cells.as_slice());
        restore_queue(&mut self.queues, atom.work, atom.queued.len());
        remove_last_death(&mut self.deaths, atom.died);
        self.next = atom.next_before;
        self.cycle -= cycles_of(atom.cycle_added);
        self.turns -= turns_of(atom.work);
    }

    /// Redoes the turn or edit that `atom` records, restoring the unique state after it.
    ///
    /// `atom` must be a record that leads from the present state. Does not fail or allocate.
    pub fn apply(&mut self, atom: &Atom)
        requires { (after : State) × Leads self.old atom.now after }
        ensures { (after : State) → Leads self.old atom.now after → self.new ≡ after }
    {
        rewrite_cells(&mut self.core, atom.cells.as_slice());
        reapply_to_queue(&mut self.queues, atom.work, atom.queued.as_slice());
        self.turns += turns_of(atom.work);
        note_recorded_death(&mut self.deaths, atom.work, atom.died, self.turns);
        self.next = atom.next_after;
        self.cycle += cycles_of(atom.cycle_added);
    }
}
