//! The interface between a session and the storage of its history.
ghost use Rattle.std.specs.Prelude.{◌≡◌, ℕ, ◌+◌, ◌^◌, ◌≤◌, Bool, [], None, is_some, true, false, OnOk, OnErr, IsOk};
ghost use Rattle.mars_core.specs.State.{is_over_of};
ghost use Rattle.mars_core.specs.Turn.{turn_of};
ghost use Rattle.mars_core.specs.Edit.{edit_fault, edited};
ghost use Rattle.mars_session.specs.History.{History, position_of, last_of, following, marked, cut, append, back, forward, first_turns, last_turns};
ghost use Rattle.mars_session.specs.Retention.{Retention, retained, retention_after};
ghost use Rattle.mars_session.specs.Tapes.{TurnsRise};

use mars_core::{Battle, Edit};
use std::alloc::AllocError;

/// A tape: the places that a battle has reached, one of which is the present one. Each place may be marked.
///
/// A tape that evicts keeps only the last places, and appends any number of places without allocating.
pub trait Tape {
    /// Whether the oldest places may be evicted.
    const FORGETS: bool;

    ghost FORGETS: { Bool };

    /// The places, and which of them is the present one.
    ghost history: { Self → History };

    /// Number of places that may be appended without allocating, once the places after the present one are dropped.
    ghost room: { Self → ℕ };

    /// How many places are kept, and whether one was ever evicted.
    ghost retention: { Self → Retention };

    /// Returns the battle of the present place.
    fn now(&self) -> &Battle
        ensures { result.now ≡ (history self.now).present.state };

    /// Returns the number of the present place, counted from 0.
    ///
    /// The room is never less than the number of places after the present one, and no place has fewer turns than the one before
    /// it.
    fn position(&self) -> u64
        ensures value { result ≡ position_of (history self.now) }
        ensures covers { following (history self.now) ≤ room self.now }
        ensures rises { TurnsRise (history self.now) };

    /// Returns the number of places.
    fn len(&self) -> u64
        ensures { result ≡ last_of (history self.now) + 1 };

    /// Returns the number of turns of the first place.
    fn first_turns(&self) -> u64
        ensures { result ≡ first_turns (history self.now) };

    /// Returns the number of turns of the last place. Each place has as many turns as the one before it, or one more.
    fn last_turns(&self) -> u64
        ensures value { result ≡ last_turns (history self.now) }
        ensures rises { TurnsRise (history self.now) };

    /// Returns whether the present place is marked.
    fn is_marked(&self) -> bool
        ensures { result ≡ (history self.now).present.mark };

    /// Returns whether a place was ever evicted.
    fn forgotten(&self) -> bool
        ensures { result ≡ (retention self.now).forgotten };

    /// Marks the present place.
    fn set_mark(&mut self)
        ensures retention { retention self.new ≡ retention self.old }
        ensures places { history self.new ≡ marked (history self.old) }
        ensures room { room self.old ≤ room self.new };

    /// Ensures room for `n` places after the present one.
    ///
    /// Does not allocate if there is room already, so that a command that overwrites existing places never runs out of memory.
    ///
    /// # Errors
    ///
    /// Returns an error if the allocation fails; the room is unchanged then.
    fn reserve(&mut self, n: u64) -> Result<(), AllocError>
        ensures retention { retention self.new ≡ retention self.old }
        ensures places { history self.new ≡ history self.old }
        ensures ok { OnOk result (n ≤ room self.new) }
        ensures enough { n ≤ room self.old → IsOk result }
        ensures err { OnErr result (room self.new ≡ room self.old) };

    /// Drops the places after the present one.
    fn cut(&mut self)
        ensures retention { retention self.new ≡ retention self.old }
        ensures places { history self.new ≡ cut (history self.old) }
        ensures room { room self.old ≤ room self.new };

    /// Appends the state after a turn, as the new present place. May evict the first place.
    fn turn(&mut self)
        requires last { (history self.old).after ≡ [] }
        requires room { 1 ≤ room self.old }
        requires runs { is_over_of (history self.old).present.state ≡ false }
        ensures places { history self.new ≡ retained (retention self.old).most
            (append (history self.old) (turn_of (history self.old).present.state)) }
        ensures retention { retention self.new ≡ retention_after (retention self.old) (append (history self.old) (turn_of (history self.old).present.state)) }
        ensures room { room self.old ≤ room self.new + 1 };

    /// Appends the state after an edit, as the new present place. May evict the first place.
    fn edit(&mut self, edit: Edit)
        requires last { (history self.old).after ≡ [] }
        requires room { 1 ≤ room self.old }
        requires accepted { edit_fault (history self.old).present.state edit ≡ None }
        ensures places { history self.new ≡ retained (retention self.old).most
            (append (history self.old) (edited (history self.old).present.state edit)) }
        ensures retention { retention self.new ≡ retention_after (retention self.old)
            (append (history self.old) (edited (history self.old).present.state edit)) }
        ensures room { room self.old ≤ room self.new + 1 };

    /// Goes one place back, if there is one.
    fn back(&mut self)
        ensures places { history self.new ≡ back (history self.old) }
        ensures retention { retention self.new ≡ retention self.old };

    /// Goes one place forward, if there is one.
    fn forward(&mut self)
        ensures places { history self.new ≡ forward (history self.old) }
        ensures retention { retention self.new ≡ retention self.old };

    // A tape evicts exactly if its number of places is limited.
    ghost forgets: { (t : Self) → FORGETS ≡ is_some (retention t).most };

    // A tape that evicts has room for each number of places that a `u64` can have.
    ghost takes_all: { (t : Self) → FORGETS ≡ true → 2 ^ 64 ≤ room t };
}
