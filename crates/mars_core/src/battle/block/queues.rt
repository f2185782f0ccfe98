//! Queues as words: the number of processes in each queue, and the addresses of all processes, queue by queue.
ghost use Rattle.std.specs.Prelude.{◌≡◌, ◌≢◌, ◌++◌, ◌≤◌, ℕ, All, IfErr, IfOk, List, drop, length, sum, true};
ghost use Rattle.std.specs.List.{concat};
ghost use Rattle.mars_core.specs.Limits.{max_warriors};
ghost use Rattle.mars_core.specs.Queue.{Queue as Contents, addresses_of};
ghost use Rattle.mars_core.specs.Validity.{IsQueue};
ghost use Rattle.mars_cell.specs.Limits.{max_processes};
ghost use Rattle.mars_core.specs.Block.{lengths_of};
ghost use Rattle.mars_core.specs.Code.Blocks.{IsQueueFault};

use crate::battle::block::BlockFault;
use crate::deaths::MAX_WARRIORS;
use crate::queue::ProcessQueue;
use arrayvec::ArrayVec;
use mars_cell::Params;
use std::alloc::Global;

/// Returns the number of processes in each queue.
pub fn count_words(queues: &[ProcessQueue]) -> ArrayVec<u32, MAX_WARRIORS>
    requires few { length queues.now ≤ max_warriors }
    requires short { All (λ (q : Contents). q.limit ≤ max_processes) queues.now }
    ensures { result.items ≡ lengths_of (addresses_of queues.now) }
{
    let mut counts = ArrayVec::new();
    for queue in queues {
        counts.push(queue.len() as u32);
    }
    counts
}

/// Returns the number of processes in all queues together.
pub fn processes_of(queues: &[ProcessQueue]) -> usize
    requires few { length queues.now ≤ max_warriors }
    requires short { All (λ (q : Contents). q.limit ≤ max_processes) queues.now }
    ensures { result ≡ sum (lengths_of (addresses_of queues.now)) }
{
    let mut count = 0;
    for queue in queues {
        count += queue.len();
    }
    count
}

/// Writes the addresses of all processes to the front of `words`, queue by queue.
pub fn write_queues(queues: &[ProcessQueue], words: &mut [u32])
    requires room { sum (lengths_of (addresses_of queues.now)) ≤ length words.old }
    ensures { words.new ≡ concat (addresses_of queues.now) ++ drop (sum (lengths_of (addresses_of queues.now))) words.old }
{
    let mut place = 0;
    for queue in queues {
        let end = place + queue.len();
        queue.write_to(&mut words[place..end]);
        place = end;
    }
}

/// Reads the queues: `counts` has the number of processes in each queue, `words` the addresses of all processes.
pub fn read_queues(
    alloc: Global,
    params: &Params,
    counts: &[u32],
    words: &[u32],
) -> Result<Vec<ProcessQueue>, BlockFault>
    requires few { length counts.now ≤ max_warriors }
    requires words { sum counts.now ≡ length words.now }
    ensures words { IfOk result (λ queues. concat (addresses_of queues.items) ≡ words.now) }
    ensures counts { IfOk result (λ queues. lengths_of (addresses_of queues.items) ≡ counts.now) }
    ensures limits { IfOk result (λ queues. All (λ (q : Contents). q.limit ≡ params.now.processes) queues.items) }
    ensures queues { IfOk result (λ queues. All (IsQueue params.now.core_size params.now.processes) (addresses_of queues.items)) }
    ensures none { IfErr result (λ fault. fault ≢ BlockFault.OutOfMemory → (queues : List (List ℕ))
        → All (IsQueue params.now.core_size params.now.processes) queues → lengths_of queues ≡ counts.now → concat queues ≢ words.now) }
    ensures wrong { IfErr result (IsQueueFault params.now counts.now words.now) }
{
    let Ok(mut queues) = Vec::with_capacity(alloc, counts.len()) else {
        return Err(BlockFault::OutOfMemory);
    };
    let mut place = 0;
    for i in 0..counts.len() {
        let end = place + counts[i] as usize;
        let addresses = &words[place..end];
        if !is_queue(params, addresses) {
            return Err(BlockFault::Queue(i as u32));
        }
        match ProcessQueue::of(alloc, params.processes() as usize, addresses) {
            Ok(queue) => queues.push_reserved(queue),
            Err(_) => return Err(BlockFault::OutOfMemory),
        }
        place = end;
    }
    Ok(queues)
}

/// Returns whether `addresses` are the processes of a valid queue.
fn is_queue(params: &Params, addresses: &[u32]) -> bool
    ensures yes { result ≡ true → IsQueue params.now.core_size params.now.processes addresses.now }
    ensures no { IsQueue params.now.core_size params.now.processes addresses.now → result ≡ true }
{
    addresses.len() <= params.processes() as usize
        && addresses
            .iter()
            .all(|address| *address < params.core_size())
}
