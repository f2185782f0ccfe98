//! A tape of whole copies of the battle.
ghost use Rattle.std.proofs.Common.{refl, rules};
ghost use Rattle.std.specs.Prelude.{◌≡◌, ◌+◌, ◌-◌, ◌<◌, ◌≤◌, None, false, true, OnOk, OnErr, IsOk, MatchResult, length, slice_set, vec_len};
ghost use Rattle.mars_core.specs.State.{is_over_of};
ghost use Rattle.mars_core.specs.Turn.{turn_of};
ghost use Rattle.mars_core.specs.Edit.{edit_fault, edited};
ghost use Rattle.mars_core.specs.Shape.{SameShape};
ghost use Rattle.mars_session.specs.History.{beginning, cut, back, forward};
ghost use Rattle.mars_session.specs.Retention.{never};
ghost use Rattle.mars_session.specs.Code.Whole.{snapshot_at, whole_history, IsGrown};

use crate::snapshots::Snapshot;
use crate::tapes::Tape;
use mars_core::{Battle, Edit};
use std::alloc::{AllocError, Global};
use std::marker::Model;

/// A tape that stores a copy of the battle for each place, and spare copies. It is the simplest tape; tests compare the others
/// with it.
#[derive(Drop)]
pub struct WholeTape {
    alloc: Global,
    copies: Vec<Snapshot>,
    at: usize,
    len: usize,
}

impl Model for WholeTape {
    ghost use Rattle.std.specs.Prelude.{◌+◌, ◌-◌, length};
    ghost use Rattle.mars_session.specs.Tapes.{TapeValue};
    ghost use Rattle.mars_session.specs.Code.Whole.{IsWhole, whole_history};

    ghost Value = { TapeValue };

    ghost view = { λ t. record { history = whole_history t.copies.items t.at t.len; room = length t.copies.items - (t.at + 1) } };

    ghost invariant = { λ t. IsWhole t.copies.items t.at t.len };
}

/// Overwrites the copy after index `at` with the battle at `at`, unmarked.
fn append_copy(copies: &mut [Snapshot], at: usize)
    requires next { at + 1 < length copies.old }
    requires shapes { SameShape (snapshot_at copies.old at).battle (snapshot_at copies.old (at + 1)).battle }
    ensures { copies.new ≡ slice_set copies.old (at + 1) (record { battle = (snapshot_at copies.old at).battle; mark = false }) }
{
    let (front, rest) = copies.split_at_mut(at + 1);
    let from = &front[at];
    let to = &mut rest[0];
    from.battle.copy_into(&mut to.battle);
    to.mark = false;
}

/// Overwrites the copy after index `at` with the battle at `at` after a turn.
fn append_turn(copies: &mut Vec<Snapshot>, at: usize)
    requires next { at + 1 < vec_len copies.old }
    requires shapes { SameShape (snapshot_at copies.old.items at).battle (snapshot_at copies.old.items (at + 1)).battle }
    requires runs { is_over_of (snapshot_at copies.old.items at).battle ≡ false }
    ensures { copies.new.items ≡ slice_set copies.old.items (at + 1)
        (record { battle = turn_of (snapshot_at copies.old.items at).battle; mark = false }) }
{
    append_copy(copies, at);
    let snapshot = &mut copies[at + 1];
    let _ = snapshot.battle.turn();
}

/// Overwrites the copy after index `at` with the battle at `at` after an edit.
fn append_edit(copies: &mut Vec<Snapshot>, at: usize, edit: Edit)
    requires next { at + 1 < vec_len copies.old }
    requires shapes { SameShape (snapshot_at copies.old.items at).battle (snapshot_at copies.old.items (at + 1)).battle }
    requires accepted { edit_fault (snapshot_at copies.old.items at).battle edit ≡ None }
    ensures { copies.new.items ≡ slice_set copies.old.items (at + 1)
        (record { battle = edited (snapshot_at copies.old.items at).battle edit; mark = false }) }
{
    append_copy(copies, at);
    let snapshot = &mut copies[at + 1];
    let _ = snapshot.battle.edit(edit);
}

/// Appends copies of the battle at index `at` until at least `n` copies follow it.
fn add_copies(
    alloc: Global,
    copies: &mut Vec<Snapshot>,
    at: usize,
    n: u64,
) -> Result<(), AllocError>
    requires { at < vec_len copies.old }
    ensures grown { IsGrown copies.old.items copies.new.items at }
    ensures ok { OnOk result (n ≤ vec_len copies.new - (at + 1)) }
    ensures enough { n ≤ vec_len copies.old - (at + 1) → IsOk result }
{
    'copies: while ((copies.len() - (at + 1)) as u64) < n {
        let battle = copies[at].battle.copy(alloc)?;
        copies.push(Snapshot {
            battle,
            mark: false,
        })?;
    }
    Ok(())
}

/// Appends copies of the battle at index `at` until at least `n` copies follow it. Drops the new copies again if an
/// allocation fails.
fn grow(alloc: Global, copies: &mut Vec<Snapshot>, at: usize, n: u64) -> Result<(), AllocError>
    requires { at < vec_len copies.old }
    ensures grown { IsGrown copies.old.items copies.new.items at }
    ensures ok { OnOk result (n ≤ vec_len copies.new - (at + 1)) }
    ensures enough { n ≤ vec_len copies.old - (at + 1) → IsOk result }
    ensures err { OnErr result (vec_len copies.new ≡ vec_len copies.old) }
{
    let before = copies.len();
    let added = add_copies(alloc, copies, at, n);
    if added.is_err() {
        copies.truncate(before);
    }
    added
}

impl WholeTape {
    /// Creates a tape whose only place has this battle. The place is marked.
    ///
    /// # Errors
    ///
    /// Returns the battle if an allocation fails.
    pub fn new(alloc: Global, battle: Battle) -> Result<Self, Battle>
        ensures { MatchResult result (λ t. t.history ≡ beginning battle) (λ b. b ≡ battle) }
    {
        let mut copies = Vec::new(alloc);
        match copies.push(Snapshot { battle, mark: true }) {
            Ok(()) => Ok(WholeTape {
                alloc,
                copies,
                at: 0,
                len: 1,
            }),
            Err(refused) => {
                let Snapshot { battle, mark: _ } = refused.value;
                Err(battle)
            }
        }
    }
}

// `Tape` documents the methods and has their contracts.
impl Tape for WholeTape {
    const FORGETS: bool = false;

    ghost FORGETS = { false };

    ghost history = { λ t. t.history };

    ghost room = { λ t. t.room };

    ghost retention = { λ t. never };

    ghost forgets = { λ t. refl };

    ghost takes_all = { λ t e. Prim.search rules };

    fn now(&self) -> &Battle {
        &self.copies[self.at].battle
    }

    fn position(&self) -> u64 {
        self.at as u64
    }

    fn len(&self) -> u64 {
        self.len as u64
    }

    fn first_turns(&self) -> u64 {
        self.copies[0].battle.turns() as u64
    }

    fn last_turns(&self) -> u64 {
        self.copies[self.len - 1].battle.turns() as u64
    }

    fn is_marked(&self) -> bool {
        self.copies[self.at].mark
    }

    fn forgotten(&self) -> bool {
        false
    }

    fn set_mark(&mut self) {
        let snapshot = &mut self.copies[self.at];
        snapshot.mark = true;
    }

    fn reserve(&mut self, n: u64) -> Result<(), AllocError> {
        grow(self.alloc, &mut self.copies, self.at, n)
    }

    fn cut(&mut self) {
        self.len = self.at + 1; // The copies after the last place stay as spare copies.
    }

    fn turn(&mut self) {
        append_turn(&mut self.copies, self.at);
        self.at += 1;
        self.len = self.at + 1;
    }

    fn edit(&mut self, edit: Edit) {
        append_edit(&mut self.copies, self.at, edit);
        self.at += 1;
        self.len = self.at + 1;
    }

    fn back(&mut self) {
        if self.at > 0 {
            self.at -= 1;
        }
    }

    fn forward(&mut self) {
        if self.at + 1 < self.len {
            self.at += 1;
        }
    }
}
