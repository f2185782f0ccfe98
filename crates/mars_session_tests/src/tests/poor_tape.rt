//! A tape that can allocate only a number of times, and counts the places that it passes.
ghost use Rattle.std.proofs.Common.{refl, rules};
ghost use Rattle.std.specs.Prelude.{◌≡◌, ◌≤◌, false};
ghost use Rattle.mars_session.specs.History.{following, cut, back, forward};
ghost use Rattle.mars_session.specs.Retention.{never};

use mars_core::{Battle, Edit};
use mars_session::Tape;
use std::alloc::{AllocError, Global};
use std::marker::Model;

/// A tape that keeps all places, has room for `room` more, and may grow `growths` times.
#[derive(Drop)]
pub struct PoorTape<T: Tape> {
    tape: T,
    room: u64,
    growths: u64,
    walked: u64,
}

impl<T: Tape> Model for PoorTape<T> {
    ghost use Rattle.std.specs.Prelude.{◌≡◌, ◌≤◌, false};
    ghost use Rattle.mars_session.specs.History.{following};
    ghost use Rattle.mars_session.specs.Tapes.{TapeValue};

    ghost Value = { TapeValue };

    ghost view = { λ t. record { history = T.history t.tape; room = t.room } };

    ghost invariant = { λ t. (following (T.history t.tape) ≤ t.room) × (t.room ≤ T.room t.tape) × (T.FORGETS ≡ false) };
}

/// Returns the number of places after the present one.
fn places_after<T: Tape>(tape: &T) -> u64
    ensures value { result ≡ following (T.history tape.now) }
    ensures covered { result ≤ T.room tape.now }
{
    tape.len() - 1 - tape.position()
}

impl<T: Tape> PoorTape<T> {
    /// Wraps a tape, with room for only the places that follow, and `growths` allocations that succeed.
    pub fn new(tape: T, growths: u64) -> PoorTape<T>
        requires { T.FORGETS ≡ false }
        ensures { result.history ≡ T.history tape }
    {
        let room = places_after(&tape);
        PoorTape {
            tape,
            room,
            growths,
            walked: 0,
        }
    }

    /// Returns how many steps back and forward the tape took in total.
    pub fn walked(&self) -> u64 {
        self.walked
    }
}

impl<T: Tape> Tape for PoorTape<T> {
    const FORGETS: bool = false;

    ghost FORGETS = { false };

    ghost history = { λ t. t.history };

    ghost room = { λ t. t.room };

    ghost retention = { λ t. never };

    ghost forgets = { λ t. refl };

    ghost takes_all = { λ t e. Prim.search rules };

    fn now(&self) -> &Battle {
        self.tape.now()
    }

    fn position(&self) -> u64 {
        self.tape.position()
    }

    fn len(&self) -> u64 {
        self.tape.len()
    }

    fn first_turns(&self) -> u64 {
        self.tape.first_turns()
    }

    fn last_turns(&self) -> u64 {
        self.tape.last_turns()
    }

    fn is_marked(&self) -> bool {
        self.tape.is_marked()
    }

    fn forgotten(&self) -> bool {
        false
    }

    fn set_mark(&mut self) {
        self.tape.set_mark();
    }

    fn reserve(&mut self, n: u64) -> Result<(), AllocError> {
        if n <= self.room {
            return Ok(());
        }
        if self.growths == 0 {
            return Err(AllocError);
        }
        self.growths -= 1;
        self.tape.reserve(n)?;
        self.room = n;
        Ok(())
    }

    fn cut(&mut self) {
        self.tape.cut();
    }

    fn turn(&mut self) {
        self.tape.turn();
        self.room -= 1;
    }

    fn edit(&mut self, edit: Edit) {
        self.tape.edit(edit);
        self.room -= 1;
    }

    fn back(&mut self) {
        self.tape.back();
        self.walked = self.walked.saturating_add(1);
        self.room = places_after(&self.tape);
    }

    fn forward(&mut self) {
        self.tape.forward();
        self.walked = self.walked.saturating_add(1);
        self.room = places_after(&self.tape);
    }
}
