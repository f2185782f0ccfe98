//! Undoing a record in the parts of a battle.
ghost use Rattle.std.specs.Prelude.{◌≡◌, ℕ, ◌<◌, length, All};
ghost use Rattle.mars_core.specs.Record.{restored, warrior_of as spec_warrior_of, queue_before, with_queue};
ghost use Rattle.mars_core.specs.Queue.{addresses_of, Queue as Contents};
ghost use Rattle.mars_core.specs.Code.Records.{CanRestore, HasQueue};
ghost use Rattle.mars_core.specs.declared.machine.writes.CellChange.{CellChange as Change};

use crate::machine::writes::CellChange;
use crate::packed::PackedCell;
use crate::queue::ProcessQueue;
use crate::record::{Work, warrior_of};

/// Writes back the previous cell of each change, the last change first.
#[tactic(auto, using(crate::proofs::Inside::restored_step))]
pub fn restore_cells(core: &mut [PackedCell], changes: &[CellChange])
    requires { All (λ (c : Change). c.address < length core.old) changes.now }
    ensures { core.new ≡ restored changes.now core.old }
{
    let mut left = changes.len();
    while left > 0 {
        left -= 1;
        let change = changes[left];
        core[change.address as usize] = change.before;
    }
}

/// Undoes the work, which queued `queued` addresses, in the queue of its warrior, if there is one.
pub fn restore_queue(queues: &mut [ProcessQueue], work: Work, queued: usize)
    requires { (limit : ℕ) × All (λ (q : Contents). q.limit ≡ limit) queues.old
        × HasQueue (spec_warrior_of work) (CanRestore limit work queued) (addresses_of queues.old) }
    ensures addresses { addresses_of queues.new ≡ with_queue (spec_warrior_of work) (queue_before work queued) (addresses_of queues.old) }
    ensures limits { (limit : ℕ) → All (λ (q : Contents). q.limit ≡ limit) queues.old → All (λ (q : Contents). q.limit ≡ limit) queues.new }
{
    if let Some(warrior) = warrior_of(work) {
        let queue = &mut queues[warrior as usize];
        restore(queue, work, queued);
    }
}

/// Changes a queue to what it was before the work of its warrior, which queued `queued` addresses.
fn restore(queue: &mut ProcessQueue, work: Work, queued: usize)
    requires { CanRestore queue.old.limit work queued queue.old.addresses }
    ensures { queue.new ≡ record { addresses = queue_before work queued queue.old.addresses; limit = queue.old.limit } }
{
    match work {
        Work::Turn(_, taken) => queue.put_back(queued, taken),
        Work::SetCell => {}
        Work::MoveProcess(_, place, from, _) => {
            let _ = queue.replace(place as usize, from);
        }
        Work::KillProcess(_, place, address) => queue.insert(place as usize, address),
        Work::Spawn(_, _) => queue.drop_back(),
    }
}
