//! Where a process comes from: the turns in which it and its ancestors were born (`specs/Ancestors`).
ghost use Rattle.std.specs.Prelude.{◌≡◌, ◌≤◌, ◌<◌, ◌==◌, ◌^◌, Err, IfOk, None, OnErr, OnOk, Some, [], false, if◌then◌else◌, length};
ghost use Rattle.mars_core.specs.Ancestors.{HasProcess, lineage};
ghost use Rattle.mars_core.specs.Code.Ancestors.{own_turn as spec_own_turn, own_turns as spec_own_turns, traced_back};
ghost use Rattle.mars_core.specs.Search.{filled};
ghost use Rattle.mars_core.specs.State.{is_over_of};
ghost use Rattle.mars_core.specs.Turn.{after_turns, turn_of};

use crate::battle::Battle;
use crate::battle::follow::put;
use std::alloc::{AllocError, Global};

/// The number of births in the lineage of a process, and its first ancestor.
#[derive(Clone, Copy, Debug, PartialEq, Eq)]
pub struct Ancestors {
    /// The number of turns in which the process and its ancestors were born.
    pub count: u32,
    /// The place of the first ancestor in its queue before the turns, or of the process itself if it has no ancestor.
    pub first: u32,
}

/// The reason why the ancestors of a process are not returned.
#[derive(Clone, Copy, Debug, PartialEq, Eq)]
pub enum AncestorsFault {
    OutOfMemory,
    /// After the turns the warrior has no such process.
    NoSuchProcess,
}

/// A turn of the warrior whose processes are traced back.
#[derive(Clone, Copy)]
struct OwnTurn {
    /// The number of the turn, from 1.
    turn: u32,
    /// The number of processes of the warrior besides the process that the turn executes.
    waiting: u32,
}

impl Battle {
    /// Finds the turns in which a process and its ancestors were born. The process is given by its warrior and its
    /// place in the queue after `turns` turns, or at the end of the battle if fewer turns are left.
    ///
    /// The numbers of these turns are written to the front of `births`, the last one first, as far as there are places.
    /// The battle itself is not changed: a copy executes the `turns` turns.
    ///
    /// # Errors
    ///
    /// - `OutOfMemory` if an allocation fails
    /// - `NoSuchProcess` if there is no such process after the turns
    ///
    /// After an error `births` is unchanged.
    pub fn ancestors(
        &self,
        alloc: Global,
        turns: u32,
        warrior: u32,
        place: u32,
        births: &mut [u32],
    ) -> Result<Ancestors, AncestorsFault>
        ensures process { OnOk result (HasProcess turns self.now warrior place) }
        ensures count { IfOk result (λ found. found.count ≡ length (lineage turns self.now warrior place).births) }
        ensures first { IfOk result (λ found. found.first ≡ (lineage turns self.now warrior place).place) }
        ensures births { OnOk result (births.new ≡ filled (lineage turns self.now warrior place).births births.old) }
        ensures none { result ≡ Err AncestorsFault.NoSuchProcess → HasProcess turns self.now warrior place → ⊥ }
        ensures kept { OnErr result (births.new ≡ births.old) }
    {
        let Ok(mut battle) = self.copy(alloc) else {
            return Err(AncestorsFault::OutOfMemory);
        };
        let Ok(own) = battle.own_turns(alloc, turns, warrior) else {
            return Err(AncestorsFault::OutOfMemory);
        };
        if place as usize >= battle.queue_len(warrior as usize) {
            return Err(AncestorsFault::NoSuchProcess);
        }
        Ok(trace_back(&own, place, births))
    }

    /// Executes `turns` turns, or as many as are left, and returns those of `warrior`.
    fn own_turns(
        &mut self,
        alloc: Global,
        turns: u32,
        warrior: u32,
    ) -> Result<Vec<OwnTurn>, AllocError>
        ensures turns { IfOk result (λ own. own.items ≡ spec_own_turns turns self.old warrior) }
        ensures few { IfOk result (λ own. length own.items ≤ turns) }
        ensures battle { OnOk result (self.new ≡ after_turns turns self.old) }
    {
        let mut own = Vec::new(alloc);
        for made in 0..turns {
            if self.is_over() {
                return Ok(own);
            }
            if let Some(turn) = self.own_turn(warrior) {
                own.push(turn)?;
            }
        }
        Ok(own)
    }

    /// Executes a turn of a battle that is not over, and returns the turn if it is a turn of `warrior`.
    fn own_turn(&mut self, warrior: u32) -> Option<OwnTurn>
        requires running { is_over_of self.old ≡ false }
        ensures turn { result ≡ (if self.old.next == warrior then Some (spec_own_turn self.old warrior) else None) }
        ensures battle { self.new ≡ turn_of self.old }
    {
        let owner = self.next;
        let waiting = self.queue_len(warrior as usize).saturating_sub(1) as u32;
        self.run(1);
        let own = OwnTurn {
            turn: self.turns,
            waiting,
        };
        (owner == warrior).then_some(own)
    }
}

/// Traces a process back over the turns `own` of its warrior, from its place in the queue after them. Writes the turns
/// in which the process and its ancestors were born to the front of `births`, the last one first.
fn trace_back(own: &[OwnTurn], place: u32, births: &mut [u32]) -> Ancestors
    requires few { length own.now < 2 ^ 32 }
    ensures count { result.count ≡ length (traced_back own.now (record { births = []; place = place })).births }
    ensures first { result.first ≡ (traced_back own.now (record { births = []; place = place })).place }
    ensures births { births.new ≡ filled (traced_back own.now (record { births = []; place = place })).births births.old }
{
    let mut first = place;
    let mut count = 0;
    for i in (0..own.len()).rev() {
        let turn = own[i];
        if first < turn.waiting {
            first += 1;
        } else {
            // The first process that a turn queues is the process that it executed, which continues.
            if first != turn.waiting {
                put(births, count, turn.turn);
                count += 1;
            }
            first = 0;
        }
    }
    Ancestors { count, first }
}
