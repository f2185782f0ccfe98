//! The records between the places of a tape that evicts.
ghost use Rattle.std.specs.Prelude.{◌≡◌, ◌+◌, ◌-◌, ◌<◌, ◌≤◌, ◌||◌, ◌++◌, [], ◌∷◌, IfOk, length, slice_set, nat_lt, true, false, if◌then◌else◌};
ghost use Rattle.circular_buffer.specs.Buffer.{buffer, keep_last};
ghost use Rattle.mars_core.specs.State.{is_over_of};
ghost use Rattle.mars_core.specs.Turn.{turn_of, turn_record};
ghost use Rattle.mars_core.specs.Leads.{Leads};
ghost use Rattle.mars_core.specs.Record.{turns_of as spec_turns_of};
ghost use Rattle.mars_session.specs.Limits.{max_history};
ghost use Rattle.mars_session.specs.Code.Journals.{entry_at, mark_at};

use circular_buffer::HeapCircularBuffer;
use mars_core::{Atom, Battle, turns_of};
use std::alloc::{AllocError, Global};

/// The records between the last places, up to a fixed number, each with the mark of the place that it leads to. The
/// capacity for all these records is allocated at the start.
#[derive(Drop)]
pub struct Records {
    /// Records, the oldest first.
    pub ring: HeapCircularBuffer<(Atom, bool)>,
    /// Number of the present place, counted from 0.
    pub at: usize,
    /// Whether the first place is marked.
    pub first_mark: bool,
    /// Whether a place was ever evicted.
    pub forgotten: bool,
    /// Number of turns of the first place.
    pub first_turns: u32,
    /// Number of turns of the last place.
    pub last_turns: u32,
}

impl Records {
    /// Returns an empty list with capacity for `most` records. The first place is marked and has `turns` turns.
    pub fn with_room(alloc: Global, most: usize, turns: u32) -> Result<Records, AllocError>
        ensures { IfOk result (λ r. r ≡ record
            { ring = buffer [] most; at = 0; first_mark = true; forgotten = false; first_turns = turns; last_turns = turns }) }
    {
        Ok(Records {
            ring: HeapCircularBuffer::with_capacity(alloc, most)?,
            at: 0,
            first_mark: true,
            forgotten: false,
            first_turns: turns,
            last_turns: turns,
        })
    }

    /// Returns whether the present place is marked.
    pub fn is_marked(&self) -> bool
        requires { self.now.at ≤ length self.now.ring.items }
        ensures { result ≡ mark_at self.now.first_mark self.now.ring.items self.now.at }
    {
        if self.at == 0 {
            return self.first_mark;
        }
        match self.ring.get(self.at - 1) {
            Some(entry) => entry.1,
            None => unreachable!(),
        }
    }

    /// Marks the present place.
    pub fn set_mark(&mut self)
        requires { self.old.at ≤ length self.old.ring.items }
        ensures at { self.new.at ≡ self.old.at }
        ensures forgotten { self.new.forgotten ≡ self.old.forgotten }
        ensures first_turns { self.new.first_turns ≡ self.old.first_turns }
        ensures last_turns { self.new.last_turns ≡ self.old.last_turns }
        ensures first_mark { self.new.first_mark ≡ (if nat_lt 0 self.old.at then self.old.first_mark else true) }
        ensures ring { self.new.ring ≡ (if nat_lt 0 self.old.at
            then buffer (slice_set self.old.ring.items (self.old.at - 1)
            ((entry_at self.old.ring.items (self.old.at - 1)).0, true)) self.old.ring.capacity else self.old.ring) }
    {
        if self.at == 0 {
            self.first_mark = true;
            return;
        }
        match self.ring.get_mut(self.at - 1) {
            Some(entry) => entry.1 = true,
            None => unreachable!(),
        }
    }

    /// Returns the record that leads to the present place.
    pub fn last(&self) -> &Atom
        requires before { 0 < self.now.at }
        requires inside { self.now.at ≤ length self.now.ring.items }
        ensures { result.now ≡ (entry_at self.now.ring.items (self.now.at - 1)).0 }
    {
        match self.ring.get(self.at - 1) {
            Some(entry) => &entry.0,
            None => unreachable!(),
        }
    }

    /// Returns the record that leads from the present place to the next one.
    pub fn next(&self) -> &Atom
        requires { self.now.at < length self.now.ring.items }
        ensures { result.now ≡ (entry_at self.now.ring.items self.now.at).0 }
    {
        match self.ring.get(self.at) {
            Some(entry) => &entry.0,
            None => unreachable!(),
        }
    }

    /// Appends the record that leads from the last place to a new present place with `turns` turns. Evicts the first
    /// place if the list is full.
    #[inline(always)]
    pub fn push(&mut self, atom: Atom, turns: u32)
        requires last { self.old.at ≡ length self.old.ring.items }
        requires some { 1 ≤ self.old.ring.capacity }
        requires few { self.old.ring.capacity ≤ max_history }
        requires within { length self.old.ring.items ≤ self.old.ring.capacity }
        requires turns { self.old.first_turns + spec_turns_of (entry_at self.old.ring.items 0).0.work ≤ turns }

        // If the ring is full, it evicts the oldest record: then the number of the present place stays, and the second place
        // becomes the first.
        ensures ring { self.new.ring ≡ buffer
            (keep_last self.old.ring.capacity (self.old.ring.items ++ (atom, false) ∷ [])) self.old.ring.capacity }
        ensures at { self.new.at ≡ (if nat_lt self.old.at self.old.ring.capacity then self.old.at + 1 else self.old.at) }
        ensures first_mark { self.new.first_mark ≡ (if nat_lt self.old.at self.old.ring.capacity
            then self.old.first_mark else (entry_at self.old.ring.items 0).1) }
        ensures forgotten { self.new.forgotten ≡ (self.old.forgotten || nat_lt self.old.ring.capacity (self.old.at + 1)) }
        ensures first_turns { self.new.first_turns ≡ (if nat_lt self.old.at self.old.ring.capacity
            then self.old.first_turns else self.old.first_turns + spec_turns_of (entry_at self.old.ring.items 0).0.work) }
        ensures last_turns { self.new.last_turns ≡ turns }
    {
        self.last_turns = turns;
        match self.ring.push_back((atom, false)) {
            None => self.at += 1,
            Some(oldest) => {
                self.first_mark = oldest.1;
                self.forgotten = true;
                self.first_turns += turns_of(oldest.0.work);
            }
        }
    }

    /// Executes a turn of a battle and appends its record, as `push` does. The record is built where it is stored,
    /// without a copy.
    #[inline(always)]
    pub fn push_turn(&mut self, battle: &mut Battle)
        requires last { self.old.at ≡ length self.old.ring.items }
        requires some { 1 ≤ self.old.ring.capacity }
        requires few { self.old.ring.capacity ≤ max_history }
        requires within { length self.old.ring.items ≤ self.old.ring.capacity }
        requires turns { self.old.first_turns + spec_turns_of (entry_at self.old.ring.items 0).0.work ≤ battle.old.turns }
        requires running { is_over_of battle.old ≡ false }
        ensures battle { battle.new ≡ turn_of battle.old }
        ensures leads { Leads battle.old (turn_record battle.old) battle.new }

        // As for `push`.
        ensures ring { self.new.ring ≡ buffer
            (keep_last self.old.ring.capacity (self.old.ring.items ++ (turn_record battle.old, false) ∷ [])) self.old.ring.capacity }
        ensures at { self.new.at ≡ (if nat_lt self.old.at self.old.ring.capacity then self.old.at + 1 else self.old.at) }
        ensures first_mark { self.new.first_mark ≡ (if nat_lt self.old.at self.old.ring.capacity
            then self.old.first_mark else (entry_at self.old.ring.items 0).1) }
        ensures forgotten { self.new.forgotten ≡ (self.old.forgotten || nat_lt self.old.ring.capacity (self.old.at + 1)) }
        ensures first_turns { self.new.first_turns ≡ (if nat_lt self.old.at self.old.ring.capacity
            then self.old.first_turns else self.old.first_turns + spec_turns_of (entry_at self.old.ring.items 0).0.work) }
        ensures last_turns { self.new.last_turns ≡ battle.new.turns }
    {
        self.push(Atom::default(), battle.turns());
        let last = self.ring.len() - 1;
        match self.ring.get_mut(last) {
            Some(entry) => {
                battle.turn_into(&mut entry.0);
                entry.1 = false;
            }
            None => unreachable!(),
        }
        self.last_turns = battle.turns();
    }
}
