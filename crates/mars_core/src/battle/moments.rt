//! A battle at moments after equal steps of turns (`specs/Moments`).
ghost use Rattle.std.specs.Prelude.{◌≡◌, ◌≤◌, ◌*◌, length, map};
ghost use Rattle.std.specs.List.{range_with_len};
ghost use Rattle.mars_cell.specs.Limits.{max_core_size};
ghost use Rattle.mars_core.specs.Limits.{max_warriors};
ghost use Rattle.mars_core.specs.Moments.{moment_of, moments_after, owned_by};
ghost use Rattle.mars_core.specs.Past.{followed};
ghost use Rattle.mars_core.specs.Turn.{after_turns};

use crate::battle::Battle;
use crate::battle::block::put_padded;
use crate::battle::block::queues::count_words;
use crate::deaths::MAX_WARRIORS;
use crate::past::Past;
use crate::search::Condition;

/// A battle at a moment.
#[repr(C)]
#[derive(Clone, Copy, Debug, PartialEq, Eq)]
pub struct Moment {
    /// The number of turns that all warriors together have executed.
    pub turns: u32,
    /// The number of turns since the previous moment that meet the conditions.
    pub found: u32,
    /// The number of cells with each owner from 0 to 15.
    pub cells: [u32; MAX_WARRIORS],
    /// The number of processes of each warrior; 0 after the last warrior.
    pub processes: [u32; MAX_WARRIORS],
}

impl Battle {
    /// Executes `step` turns for each moment, or as many as are left, as [`Battle::follow`] does, and writes the moment
    /// after these turns. Does not fail or allocate.
    pub fn moments(
        &mut self,
        step: u32,
        pasts: &mut [Past],
        conditions: &[Condition],
        moments: &mut [Moment],
    )
        requires size { length pasts.old ≡ self.old.params.core_size }
        ensures moments { moments.new ≡ moments_after (length moments.old) step conditions.now self.old pasts.old }
        ensures pasts { pasts.new ≡ followed (length moments.old * step) self.old pasts.old }
        ensures battle { self.new ≡ after_turns (length moments.old * step) self.old }
    {
        for i in 0..moments.len() {
            let found = self.follow(step, pasts, conditions, &mut []);
            moments[i] = self.moment(pasts, found);
        }
    }

    /// Returns the present moment; `found` is the number of turns since the previous moment that meet the conditions.
    fn moment(&self, pasts: &[Past], found: u32) -> Moment
        requires size { length pasts.now ≡ self.now.params.core_size }
        ensures { result ≡ moment_of self.now pasts.now found }
    {
        let mut processes = [0; MAX_WARRIORS];
        put_padded(count_words(&self.queues).as_slice(), &mut processes);
        Moment {
            turns: self.turns,
            found,
            cells: owned_cells(pasts),
            processes,
        }
    }
}

/// Returns the number of cells with each owner from 0 to 15.
fn owned_cells(pasts: &[Past]) -> [u32; MAX_WARRIORS]
    requires few { length pasts.now ≤ max_core_size }
    ensures { result ≡ map (owned_by pasts.now) (range_with_len 0 max_warriors) }
{
    let mut cells = [0; MAX_WARRIORS];
    for i in 0..pasts.len() {
        let owner = pasts[i].owner as usize;
        if owner < MAX_WARRIORS {
            cells[owner] += 1;
        }
    }
    cells
}
