//! Process queues, and how a queue accepts the addresses at which a process continues.
ghost use Rattle.std.specs.Prelude.{◌≡◌, ℕ, ◌+◌, ◌-◌, ◌<◌, ◌≤◌, ◌∷◌, [], ◌++◌, length, take, drop, All, IfOk, IfSome, IfNone, slice_get, ◌==◌, nat_lt, if◌then◌else◌, false};
ghost use Rattle.mars_core.specs.State.{is_empty as spec_is_empty};
ghost use Rattle.mars_core.specs.Queue.{Queue as Contents};
ghost use Rattle.mars_core.specs.Code.Turns.{addresses_to};

mod edit;

use arrayvec::ArrayVec;
use circular_buffer::HeapCircularBuffer;
use std::alloc::{AllocError, Global};
use std::marker::Model;

/// The processes of a warrior, in the order of their turns. Memory for the maximum number of processes is reserved when
/// the queue is made.
#[derive(Debug, Drop)]
pub struct ProcessQueue {
    ring: HeapCircularBuffer<u32>,
}

impl Model for ProcessQueue {
    ghost use Rattle.mars_core.specs.Queue.{Queue};

    ghost Value = { Queue };

    ghost view = { λ q. record { addresses = q.ring.items; limit = q.ring.capacity } };
}

/// The addresses at which a process continues.
#[derive(Clone, Copy)]
pub enum Continuation {
    /// The process dies.
    Ends,
    /// The process continues at the address.
    Goes(u32),
    /// The process continues at the first address, and a new process starts at the second.
    Splits(u32, u32),
}

impl Continuation {
    /// Returns the addresses, in order.
    pub fn list(&self) -> ArrayVec<u32, 2>
        ensures { result.items ≡ addresses_to self.now }
    {
        let mut list = ArrayVec::new();
        match *self {
            Continuation::Ends => {}
            Continuation::Goes(address) => list.push(address),
            Continuation::Splits(first, second) => {
                list.push(first);
                list.push(second);
            }
        }
        list
    }
}

/// The addresses that a queue accepted, and whether the queue is then empty.
#[derive(Clone, Copy)]
pub struct Accepted {
    pub queued: Continuation,
    pub is_empty: bool,
}

impl ProcessQueue {
    /// Returns an empty queue with capacity for `limit` processes. Fails if the allocation fails.
    pub fn with_limit(alloc: Global, limit: usize) -> Result<ProcessQueue, AllocError>
        ensures { IfOk result (λ q. q ≡ record { addresses = []; limit = limit }) }
    {
        Ok(ProcessQueue {
            ring: HeapCircularBuffer::with_capacity(alloc, limit)?,
        })
    }

    /// Returns the number of processes.
    pub fn len(&self) -> usize
        ensures value { result ≡ length self.now.addresses }
        ensures bound { result ≤ self.now.limit }
    {
        let limit = self.ring.capacity();
        let len = self.ring.len();
        prove!(len <= limit);
        len
    }

    /// Returns the maximum number of processes.
    pub fn limit(&self) -> usize
        ensures { result ≡ self.now.limit }
    {
        self.ring.capacity()
    }

    /// Returns whether there are no processes.
    #[tactic(auto, using(crate::proofs::Live::length_is_empty))]
    pub fn is_empty(&self) -> bool
        ensures { result ≡ spec_is_empty self.now.addresses }
    {
        self.ring.is_empty()
    }

    /// Returns the address of the process with the index `place`, the front being 0.
    pub fn get(&self, place: usize) -> Option<u32>
        ensures { result ≡ slice_get self.now.addresses place }
    {
        self.ring.get(place).copied()
    }

    /// Removes the process at the front and returns its address.
    pub fn take_front(&mut self) -> u32
        requires { 1 ≤ length self.old.addresses }
        ensures front { self.old.addresses ≡ result ∷ self.new.addresses }
        ensures limit { self.new.limit ≡ self.old.limit }
    {
        match self.ring.pop_front() {
            Some(address) => address,
            None => unreachable!(),
        }
    }

    /// Moves the first processes into `row`, which must not be longer than the queue.
    pub fn take_into(&mut self, row: &mut [u32])
        requires { length row.old ≤ length self.old.addresses }
        ensures row { row.new ≡ take (length row.old) self.old.addresses }
        ensures left { self.new.addresses ≡ drop (length row.old) self.old.addresses }
        ensures limit { self.new.limit ≡ self.old.limit }
    {
        let _ = self.ring.read_into(row);
    }

    /// Appends processes, for which there must be capacity.
    pub fn append(&mut self, addresses: &[u32])
        requires { length self.old.addresses + length addresses.now ≤ self.old.limit }
        ensures { self.new ≡ record { addresses = self.old.addresses ++ addresses.now; limit = self.old.limit } }
    {
        let _ = self.ring.fill_from_slice(addresses);
    }

    /// Puts processes, for which there must be capacity, before the others.
    pub fn put_before(&mut self, addresses: &[u32])
        requires { length self.old.addresses + length addresses.now ≤ self.old.limit }
        ensures { self.new ≡ record { addresses = addresses.now ++ self.old.addresses; limit = self.old.limit } }
    {
        for i in 0..addresses.len() {
            let _ = self.ring.try_push_front(addresses[addresses.len() - 1 - i]);
        }
    }

    /// Appends a process. The queue must not be full.
    pub fn push(&mut self, address: u32)
        requires { length self.old.addresses < self.old.limit }
        ensures { self.new ≡ record { addresses = self.old.addresses ++ address ∷ []; limit = self.old.limit } }
    {
        let _ = self.ring.try_push_back(address);
    }

    /// Appends a process if the queue isn't full; returns whether it was appended.
    #[inline(always)]
    pub fn try_push(&mut self, address: u32) -> bool
        ensures answer { result ≡ nat_lt (length self.old.addresses) self.old.limit }
        ensures queue { self.new ≡ (if result
            then record { addresses = self.old.addresses ++ address ∷ []; limit = self.old.limit } else self.old) }
    {
        self.ring.try_push_back(address).is_ok()
    }

    /// Appends the addresses for which there is capacity, and returns them with whether the queue is then empty.
    #[inline(always)]
    #[tactic(auto, using(crate::proofs::Live::filled_by_one, crate::proofs::Live::filled_by_two))]
    pub fn accept(&mut self, continuation: Continuation) -> Accepted
        ensures accepted { addresses_to result.queued ≡ take (self.old.limit - length self.old.addresses) (addresses_to continuation) }
        ensures queue { self.new ≡ record { addresses = self.old.addresses ++ addresses_to result.queued; limit = self.old.limit } }
        ensures empty { result.is_empty ≡ spec_is_empty self.new.addresses }
    {
        match continuation {
            Continuation::Ends => self.accepted(Continuation::Ends),
            Continuation::Goes(address) => {
                if self.try_push(address) {
                    filled(Continuation::Goes(address))
                } else {
                    self.accepted(Continuation::Ends)
                }
            }
            Continuation::Splits(first, second) => {
                if !self.try_push(first) {
                    self.accepted(Continuation::Ends)
                } else if self.try_push(second) {
                    filled(Continuation::Splits(first, second))
                } else {
                    filled(Continuation::Goes(first))
                }
            }
        }
    }

    /// Returns the accepted addresses with whether the queue is empty.
    #[inline(always)]
    fn accepted(&self, queued: Continuation) -> Accepted
        ensures queued { result.queued ≡ queued }
        ensures empty { result.is_empty ≡ spec_is_empty self.now.addresses }
    {
        Accepted {
            queued,
            is_empty: self.is_empty(),
        }
    }

    /// Replaces all processes by a single one at `address`.
    pub fn restart(&mut self, address: u32)
        requires { 1 ≤ self.old.limit }
        ensures { self.new ≡ record { addresses = address ∷ []; limit = self.old.limit } }
    {
        self.ring.clear();
        self.push(address);
    }

    /// Returns a copy with memory of its own. Fails if the allocation fails.
    pub fn copy(&self, alloc: Global) -> Result<ProcessQueue, AllocError>
        ensures { IfOk result (λ queue. queue ≡ self.now) }
    {
        let mut queue = ProcessQueue::with_limit(alloc, self.ring.capacity())?;
        self.copy_over(&mut queue);
        Ok(queue)
    }

    /// Returns a queue of these addresses with capacity for `limit` processes. Fails if the allocation fails.
    pub fn of(alloc: Global, limit: usize, addresses: &[u32]) -> Result<ProcessQueue, AllocError>
        requires { length addresses.now ≤ limit }
        ensures { IfOk result (λ queue. queue ≡ record { addresses = addresses.now; limit = limit }) }
    {
        let mut queue = ProcessQueue::with_limit(alloc, limit)?;
        queue.ring.fill_from_slice(addresses);
        Ok(queue)
    }

    /// Writes the addresses, front first, to `words`, which has one word for each.
    pub fn write_to(&self, words: &mut [u32])
        requires { length words.old ≡ length self.now.addresses }
        ensures { words.new ≡ self.now.addresses }
    {
        let len = self.ring.len();
        let (front, back) = self.ring.as_slices();
        prove!(front.len() + back.len() == len);
        let (first, last) = words.split_at_mut(front.len());
        first.copy_from_slice(front);
        last.copy_from_slice(back);
    }

    /// Copies this queue over another queue of the same limit, without allocating.
    pub fn copy_over(&self, target: &mut ProcessQueue)
        requires { self.now.limit ≡ target.old.limit }
        ensures { target.new ≡ self.now }
    {
        let len = self.ring.len();
        let (front, back) = self.ring.as_slices();
        prove!(front.len() + back.len() == len);
        target.ring.clear();
        target.ring.fill_from_slice(front);
        target.ring.fill_from_slice(back);
    }
}

/// Returns the accepted addresses, of which there is at least one, so the queue is not empty.
#[inline(always)]
fn filled(queued: Continuation) -> Accepted
    ensures queued { result.queued ≡ queued }
    ensures empty { result.is_empty ≡ false }
{
    Accepted {
        queued,
        is_empty: false,
    }
}

/// Returns copies of the queues, each with memory of its own. Fails if an allocation fails.
pub fn copy_queues(alloc: Global, queues: &[ProcessQueue]) -> Result<Vec<ProcessQueue>, AllocError>
    ensures { IfOk result (λ copies. copies.items ≡ queues.now) }
{
    let mut copies = Vec::with_capacity(alloc, queues.len())?;
    for queue in queues {
        let copy = queue.copy(alloc)?;
        copies.push_reserved(copy);
    }
    Ok(copies)
}

/// Copies each queue over the target with the same index, without allocating.
pub fn copy_queues_over(queues: &[ProcessQueue], targets: &mut [ProcessQueue])
    requires count { length queues.now ≡ length targets.old }
    requires limits { (m : ℕ) × All (λ (q : Contents). q.limit ≡ m) queues.now × All (λ (q : Contents). q.limit ≡ m) targets.old }
    ensures { targets.new ≡ queues.now }
{
    for i in 0..queues.len() {
        queues[i].copy_over(&mut targets[i]);
    }
}
