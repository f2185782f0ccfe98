//! A tape that evicts the oldest places.
ghost use Rattle.std.proofs.Common.{refl, rules};
ghost use Rattle.std.specs.Prelude.{◌≡◌, ◌+◌, ◌-◌, ◌<◌, ◌≤◌, ◌^◌, Some, false, true, MatchResult};
ghost use Rattle.mars_session.specs.Limits.{max_history};
ghost use Rattle.mars_session.specs.History.{beginning, cut, back, forward};

use crate::records::Records;
use crate::tapes::Tape;
use mars_core::{Battle, Edit};
use std::alloc::{AllocError, Global};
use std::marker::Model;

/// A tape that stores the battle of the present place and the records between the last places, up to a fixed number.
///
/// All its memory is allocated when it is created.
#[derive(Drop)]
pub struct RingTape {
    battle: Battle,
    records: Records,
}

impl Model for RingTape {
    ghost use Rattle.mars_session.specs.Tapes.{RingTapeValue};
    ghost use Rattle.mars_session.specs.Code.Journals.{journal_history, IsRing, HasEnds};

    ghost Value = { RingTapeValue };

    ghost view = { λ t. record { history = journal_history t.records.first_mark t.records.ring.items t.records.at t.battle; most = t.records.ring.capacity; forgotten = t.records.forgotten } };

    ghost invariant = { λ t. IsRing t.records.ring.items t.records.ring.capacity t.records.at t.battle × HasEnds (journal_history t.records.first_mark t.records.ring.items t.records.at t.battle) t.records.first_turns t.records.last_turns };
}

impl RingTape {
    /// Creates a tape whose only place has this battle. The place is marked. The tape keeps up to `most` places beside
    /// the last one, 1 to 1,000,000.
    ///
    /// # Errors
    ///
    /// Returns the battle if an allocation fails.
    pub fn new(alloc: Global, battle: Battle, most: usize) -> Result<Self, Battle>
        requires some { 1 ≤ most }
        requires few { most ≤ max_history }
        ensures { MatchResult result (λ t. t ≡ record { history = beginning battle; most = most; forgotten = false }) (λ b. b ≡ battle) }
    {
        match Records::with_room(alloc, most, battle.turns()) {
            Ok(records) => Ok(RingTape { battle, records }),
            Err(_) => Err(battle),
        }
    }
}

// `Tape` documents the methods and has their contracts.
impl Tape for RingTape {
    const FORGETS: bool = true;

    ghost FORGETS = { true };

    ghost history = { λ t. t.history };

    ghost room = { λ t. 2 ^ 64 };

    ghost retention = { λ t. record { most = Some t.most; forgotten = t.forgotten } };

    ghost forgets = { λ t. refl };

    ghost takes_all = { λ t e. Prim.search rules };

    fn now(&self) -> &Battle {
        &self.battle
    }

    fn position(&self) -> u64 {
        self.records.at as u64
    }

    fn len(&self) -> u64 {
        self.records.ring.len() as u64 + 1
    }

    fn first_turns(&self) -> u64 {
        self.records.first_turns as u64
    }

    fn last_turns(&self) -> u64 {
        self.records.last_turns as u64
    }

    fn is_marked(&self) -> bool {
        self.records.is_marked()
    }

    fn forgotten(&self) -> bool {
        self.records.forgotten
    }

    fn set_mark(&mut self) {
        self.records.set_mark();
    }

    fn reserve(&mut self, n: u64) -> Result<(), AllocError> {
        Ok(())
    }

    fn cut(&mut self) {
        self.records.ring.truncate_back(self.records.at);
        self.records.last_turns = self.battle.turns();
    }

    #[inline(always)]
    fn turn(&mut self) {
        self.records.push_turn(&mut self.battle);
    }

    fn edit(&mut self, edit: Edit) {
        let Ok(atom) = self.battle.edit(edit) else {
            unreachable!()
        };
        self.records.push(atom, self.battle.turns());
    }

    fn back(&mut self) {
        if self.records.at > 0 {
            self.battle.revert(self.records.last());
            self.records.at -= 1;
        }
    }

    fn forward(&mut self) {
        if self.records.at < self.records.ring.len() {
            self.battle.apply(self.records.next());
            self.records.at += 1;
        }
    }
}
