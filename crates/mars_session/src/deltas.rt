//! A tape of one battle and the records between its places.
ghost use Rattle.std.proofs.Common.{refl, rules};
ghost use Rattle.std.specs.Prelude.{◌≡◌, ◌+◌, ◌-◌, ◌<◌, ◌≤◌, None, false, true, MatchOption, MatchResult, vec_capacity, IsOk};
ghost use Rattle.mars_session.specs.History.{beginning, places, last_of, cut, back, forward};
ghost use Rattle.mars_session.specs.Retention.{never};
ghost use Rattle.mars_session.specs.Tapes.{LeadsAt};

use crate::tapes::Tape;
use mars_core::{Atom, Battle, Edit};
use std::alloc::{AllocError, Global};
use std::marker::Model;

/// A tape that stores only the battle of the present place and, for each place after the first, its mark and the record that
/// leads to it.
///
/// The turns of the first and the last place are stored too, so that `goto` can reject a number of turns at once. The first
/// place is always marked.
#[derive(Drop)]
pub struct DeltaTape {
    battle: Battle,
    entries: Vec<(Atom, bool)>,
    at: usize,
    first_turns: u32,
    last_turns: u32,
}

impl Model for DeltaTape {
    ghost use Rattle.std.specs.Prelude.{◌-◌, true, vec_capacity};
    ghost use Rattle.mars_session.specs.Tapes.{TapeValue};
    ghost use Rattle.mars_session.specs.Code.Journals.{IsJournal, HasEnds, journal_history};

    ghost Value = { TapeValue };

    ghost view = { λ t. record { history = journal_history true t.entries.items t.at t.battle; room = vec_capacity t.entries - t.at } };

    ghost invariant = { λ t. IsJournal t.entries.items t.at t.battle × HasEnds (journal_history true t.entries.items t.at t.battle) t.first_turns t.last_turns };
}

impl DeltaTape {
    /// Creates a tape whose only place has this battle. The place is marked.
    ///
    /// Does not allocate yet, so it never fails. It returns a `Result` like `new` of the other tapes, so that one tape can
    /// replace another.
    pub fn new(alloc: Global, battle: Battle) -> Result<Self, Battle>
        ensures history { MatchResult result (λ t. t.history ≡ beginning battle) (λ b. b ≡ battle) }
        ensures never { IsOk result }
    {
        let turns = battle.turns();
        Ok(DeltaTape {
            battle,
            entries: Vec::new(alloc),
            at: 0,
            first_turns: turns,
            last_turns: turns,
        })
    }

    /// Returns the record that leads from place `i` to place `i + 1`, or `None` if there is no place `i + 1`.
    pub fn atom(&self, i: u64) -> Option<&Atom>
        ensures { MatchOption result (last_of self.now.history ≤ i)
            (λ atom. (i < last_of self.now.history) × LeadsAt (places self.now.history) i atom.now) }
    {
        match self.entries.get(i as usize) {
            Some(entry) => Some(&entry.0),
            None => None,
        }
    }
}

// `Tape` documents the methods and has their contracts.
impl Tape for DeltaTape {
    const FORGETS: bool = false;

    ghost FORGETS = { false };

    ghost history = { λ t. t.history };

    ghost room = { λ t. t.room };

    ghost retention = { λ t. never };

    ghost forgets = { λ t. refl };

    ghost takes_all = { λ t e. Prim.search rules };

    fn now(&self) -> &Battle {
        &self.battle
    }

    fn position(&self) -> u64 {
        self.at as u64
    }

    fn len(&self) -> u64 {
        self.entries.len() as u64 + 1
    }

    fn first_turns(&self) -> u64 {
        self.first_turns as u64
    }

    fn last_turns(&self) -> u64 {
        self.last_turns as u64
    }

    fn is_marked(&self) -> bool {
        if self.at == 0 {
            return true;
        }
        self.entries[self.at - 1].1
    }

    fn forgotten(&self) -> bool {
        false
    }

    fn set_mark(&mut self) {
        if self.at > 0 {
            let entry = &mut self.entries[self.at - 1];
            entry.1 = true;
        }
    }

    fn reserve(&mut self, n: u64) -> Result<(), AllocError> {
        let after = self.entries.len() - self.at;
        self.entries.reserve((n as usize).saturating_sub(after))
    }

    fn cut(&mut self) {
        self.entries.truncate(self.at);
        self.last_turns = self.battle.turns();
    }

    fn turn(&mut self) {
        let Ok(atom) = self.battle.turn() else {
            unreachable!()
        };
        self.entries.push_reserved((atom, false));
        self.at += 1;
        self.last_turns = self.battle.turns();
    }

    fn edit(&mut self, edit: Edit) {
        let Ok(atom) = self.battle.edit(edit) else {
            unreachable!()
        };
        self.entries.push_reserved((atom, false));
        self.at += 1;
        self.last_turns = self.battle.turns();
    }

    fn back(&mut self) {
        if self.at > 0 {
            self.battle.revert(&self.entries[self.at - 1].0);
            self.at -= 1;
        }
    }

    fn forward(&mut self) {
        if self.at < self.entries.len() {
            self.battle.apply(&self.entries[self.at].0);
            self.at += 1;
        }
    }
}
