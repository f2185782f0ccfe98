//! Applying a record to the parts of a battle.
ghost use Rattle.std.specs.Prelude.{◌≡◌, ℕ, ◌<◌, length, All, true};
ghost use Rattle.arrayvec.specs.ArrayVec.{array_vec_len};
ghost use Rattle.mars_core.specs.Limits.{max_warriors};
ghost use Rattle.mars_core.specs.Record.{rewritten, warrior_of as spec_warrior_of, queue_after_work, with_queue, deaths_after};
ghost use Rattle.mars_core.specs.Queue.{addresses_of, Queue as Contents};
ghost use Rattle.mars_core.specs.Code.Records.{CanRequeue, HasQueue};
ghost use Rattle.mars_core.specs.declared.machine.writes.CellChange.{CellChange as Change};

use crate::deaths::{Death, MAX_WARRIORS, note_death};
use crate::machine::writes::CellChange;
use crate::packed::PackedCell;
use crate::queue::ProcessQueue;
use crate::record::{Work, warrior_of};
use arrayvec::ArrayVec;

/// Writes the new cell of each change, in order.
pub fn rewrite_cells(core: &mut [PackedCell], changes: &[CellChange])
    requires { All (λ (c : Change). c.address < length core.old) changes.now }
    ensures { core.new ≡ rewritten changes.now core.old }
{
    for change in changes {
        core[change.address as usize] = change.after;
    }
}

/// Changes the queue of the work's warrior, if there is one, to what it is after the work, which queues `queued`.
pub fn reapply_to_queue(queues: &mut [ProcessQueue], work: Work, queued: &[u32])
    requires { (limit : ℕ) × All (λ (q : Contents). q.limit ≡ limit) queues.old
        × HasQueue (spec_warrior_of work) (CanRequeue limit work (length queued.now)) (addresses_of queues.old) }
    ensures addresses { addresses_of queues.new
        ≡ with_queue (spec_warrior_of work) (queue_after_work work queued.now) (addresses_of queues.old) }
    ensures limits { (limit : ℕ) → All (λ (q : Contents). q.limit ≡ limit) queues.old → All (λ (q : Contents). q.limit ≡ limit) queues.new }
{
    if let Some(warrior) = warrior_of(work) {
        let queue = &mut queues[warrior as usize];
        renew(queue, work, queued);
    }
}

/// Changes a queue to what it is after the work of its warrior, which queues the addresses in `queued`.
fn renew(queue: &mut ProcessQueue, work: Work, queued: &[u32])
    requires { CanRequeue queue.old.limit work (length queued.now) queue.old.addresses }
    ensures { queue.new ≡ record { addresses = queue_after_work work queued.now queue.old.addresses; limit = queue.old.limit } }
{
    match work {
        Work::Turn(_, _) => queue.take_round(queued),
        Work::SetCell => {}
        Work::MoveProcess(_, place, _, to) => {
            let _ = queue.replace(place as usize, to);
        }
        Work::KillProcess(_, place, _) => {
            let _ = queue.remove(place as usize);
        }
        Work::Spawn(_, address) => queue.push(address),
    }
}

/// Appends the death of the work's warrior after `turns` turns, if there is a warrior and `died`.
pub fn note_recorded_death(
    deaths: &mut ArrayVec<Death, MAX_WARRIORS>,
    work: Work,
    died: bool,
    turns: u32,
)
    requires { died ≡ true → array_vec_len deaths.old < max_warriors }
    ensures { deaths.new.items ≡ deaths_after (spec_warrior_of work) died turns deaths.old.items }
{
    if let Some(warrior) = warrior_of(work) {
        note_death(deaths, died, warrior, turns);
    }
}
