//! Operations of edits and records on a queue: inserting and removing processes at any place.
ghost use Rattle.std.specs.Prelude.{◌≡◌, ◌+◌, ◌-◌, ◌<◌, ◌≤◌, ◌∷◌, ◌++◌, length, drop, take, slice_set, slice_index, remove, insert, ◌==◌};
ghost use Rattle.mars_core.specs.Record.{without_last};

use crate::queue::ProcessQueue;
use std::mem;

impl ProcessQueue {
    /// Replaces the address of the process at `place`, and returns the previous address.
    pub fn replace(&mut self, place: usize, address: u32) -> u32
        requires { place < length self.old.addresses }
        ensures address { result ≡ slice_index self.old.addresses place }
        ensures queue { self.new ≡ record { addresses = slice_set self.old.addresses place address; limit = self.old.limit } }
    {
        match self.ring.get_mut(place) {
            Some(process) => mem::replace(process, address),
            None => unreachable!(),
        }
    }

    /// Removes the process at `place` and returns its address. Other processes are moved in memory only if `place` is
    /// neither the front nor the end.
    pub fn remove(&mut self, place: usize) -> u32
        requires { place < length self.old.addresses }
        ensures address { result ≡ slice_index self.old.addresses place }
        ensures queue { self.new ≡ record { addresses = remove self.old.addresses place; limit = self.old.limit } }
    {
        if place == 0 {
            self.take_front()
        } else if place == self.len() - 1 {
            self.take_back()
        } else {
            self.take_between(place)
        }
    }

    /// Removes the process at `place`, after moving it to the end.
    fn take_between(&mut self, place: usize) -> u32
        requires { place < length self.old.addresses }
        ensures address { result ≡ slice_index self.old.addresses place }
        ensures queue { self.new ≡ record { addresses = remove self.old.addresses place; limit = self.old.limit } }
    {
        self.rotate_from(place, 1);
        self.take_back()
    }

    /// Inserts a process at `place`. The queue must not be full. Other processes are moved in memory only if the place
    /// is neither the front nor the end.
    pub fn insert(&mut self, place: usize, address: u32)
        requires place { place ≤ length self.old.addresses }
        requires room { length self.old.addresses < self.old.limit }
        ensures { self.new ≡ record { addresses = insert self.old.addresses place address; limit = self.old.limit } }
    {
        if place == 0 {
            self.push_front(address);
        } else if place == self.len() {
            self.push(address);
        } else {
            self.put_between(place, address);
        }
    }

    /// Inserts a process at `place`, by appending it and moving the processes from the place on to the end. The queue
    /// must not be full.
    fn put_between(&mut self, place: usize, address: u32)
        requires place { place ≤ length self.old.addresses }
        requires room { length self.old.addresses < self.old.limit }
        ensures { self.new ≡ record { addresses = insert self.old.addresses place address; limit = self.old.limit } }
    {
        let after = self.len() - place;
        self.push(address);
        self.rotate_from(place, after);
    }

    /// Moves the first `count` processes from `place` on to the end, in one move within the slice of the ring.
    fn rotate_from(&mut self, place: usize, count: usize)
        requires { place + count ≤ length self.old.addresses }
        ensures { self.new ≡ record {
          addresses = take place self.old.addresses
              ++ (drop count (drop place self.old.addresses)
              ++ take count (drop place self.old.addresses));
          limit = self.old.limit;
        } }
    {
        let addresses = self.ring.make_contiguous();
        addresses[place..].rotate_left(count);
    }

    /// Removes the process at the end and returns its address.
    fn take_back(&mut self) -> u32
        requires { 1 ≤ length self.old.addresses }
        ensures address { result ≡ slice_index self.old.addresses (length self.old.addresses - 1) }
        ensures queue { self.new ≡ record { addresses = take (length self.old.addresses - 1) self.old.addresses; limit = self.old.limit } }
    {
        match self.ring.pop_back() {
            Some(address) => address,
            None => unreachable!(),
        }
    }

    /// Inserts a process at the front. The queue must not be full.
    fn push_front(&mut self, address: u32)
        requires { length self.old.addresses < self.old.limit }
        ensures { self.new ≡ record { addresses = address ∷ self.old.addresses; limit = self.old.limit } }
    {
        let _ = self.ring.try_push_front(address);
    }

    /// Removes the process at the end, if there is one.
    pub fn drop_back(&mut self)
        ensures { self.new ≡ record { addresses = without_last 1 self.old.addresses; limit = self.old.limit } }
    {
        let _ = self.ring.pop_back();
    }

    /// Removes the last `queued` processes, and inserts a process at the front, for which there must be capacity.
    pub fn put_back(&mut self, queued: usize, address: u32)
        requires queued { queued ≤ length self.old.addresses }
        requires room { length self.old.addresses - queued < self.old.limit }
        ensures { self.new ≡ record { addresses = address ∷ without_last queued self.old.addresses; limit = self.old.limit } }
    {
        let left = self.len() - queued;
        self.ring.truncate_back(left);
        self.push_front(address);
    }

    /// Removes the process at the front, and appends the addresses in `queued`, for which there must be capacity.
    pub fn take_round(&mut self, queued: &[u32])
        requires alive { 1 ≤ length self.old.addresses }
        requires room { length (drop 1 self.old.addresses) + length queued.now ≤ self.old.limit }
        ensures { self.new ≡ record { addresses = drop 1 self.old.addresses ++ queued.now; limit = self.old.limit } }
    {
        let _ = self.take_front();
        match queued {
            [address] => self.push(*address),
            [first, second] => {
                self.push(*first);
                self.push(*second);
            }
            _ => {
                let _ = self.ring.fill_from_slice(queued);
            }
        }
    }
}
