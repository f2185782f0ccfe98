//! The moves to places in the history, generic over the tape.
ghost use Rattle.std.specs.Prelude.{◌≡◌, ◌≢◌, Err, ◌<◌, ◌≤◌, true, false, Some, IsSome, is_some};
ghost use Rattle.mars_session.specs.History.{position_of, last_of, rewound, undo, redo, goto, first_at_turn, first_turns as turns_of_first, last_turns};
ghost use Rattle.mars_session.specs.Script.{move_outcome, undo_refusal};

use crate::calls::{Refusal, Standing};
use crate::commands::standing;
use crate::tapes::Tape;

/// Goes back to the place with number `position`.
fn go_back<T: Tape>(tape: &mut T, position: u64)
    requires { position ≤ position_of (T.history tape.old) }
    ensures places { rewound (T.history tape.new) ≡ rewound (T.history tape.old) }
    ensures position { position_of (T.history tape.new) ≡ position }
    ensures retention { T.retention tape.new ≡ T.retention tape.old }
{
    'back: while tape.position() > position {
        tape.back();
    }
}

/// Goes forward to the place with number `position`.
fn go_on<T: Tape>(tape: &mut T, position: u64)
    requires after { position_of (T.history tape.old) ≤ position }
    requires inside { position ≤ last_of (T.history tape.old) }
    ensures places { rewound (T.history tape.new) ≡ rewound (T.history tape.old) }
    ensures position { position_of (T.history tape.new) ≡ position }
    ensures retention { T.retention tape.new ≡ T.retention tape.old }
{
    'on: while tape.position() < position {
        tape.forward();
    }
}

/// Returns the refusal of an undo that finds no marked place.
fn no_marked_place<T: Tape>(tape: &T) -> Refusal
    ensures why { result ≡ undo_refusal (T.retention tape.now) }
    ensures never { result ≢ Refusal.OutOfMemory }
{
    if tape.forgotten() {
        Refusal::Forgotten
    } else {
        Refusal::NothingToUndo
    }
}

/// Goes back to the nearest marked place.
pub fn undo<T: Tape>(tape: &mut T) -> Result<Standing, Refusal>
    ensures answer { move_outcome (T.retention tape.old) (T.history tape.old) (undo_refusal (T.retention tape.old)) (undo (T.history tape.old))
        ≡ record { history = T.history tape.new; retention = T.retention tape.new; reply = result } }
    ensures never { result ≢ Err Refusal.OutOfMemory }
{
    let start = tape.position();
    'back: while tape.position() > 0 {
        tape.back();
        if tape.is_marked() {
            return Ok(standing(tape));
        }
    }
    go_on(tape, start);
    Err(no_marked_place(tape))
}

/// Goes forward to the nearest marked place.
pub fn redo<T: Tape>(tape: &mut T) -> Result<Standing, Refusal>
    ensures answer { move_outcome (T.retention tape.old) (T.history tape.old) Refusal.NothingToRedo (redo (T.history tape.old))
        ≡ record { history = T.history tape.new; retention = T.retention tape.new; reply = result } }
    ensures never { result ≢ Err Refusal.OutOfMemory }
{
    let start = tape.position();
    'on: while tape.position() < tape.len() - 1 {
        tape.forward();
        if tape.is_marked() {
            return Ok(standing(tape));
        }
    }
    go_back(tape, start);
    Err(Refusal::NothingToRedo)
}

/// Returns the number of turns of the present place.
fn turns_now<T: Tape>(tape: &T) -> u64
    ensures { result ≡ (T.history tape.now).present.state.turns }
{
    tape.now().turns() as u64
}

/// Returns whether the target of `goto` may be before the present place.
///
/// No target precedes the present place if the present place is the first one or has fewer turns than the target,
/// because the number of turns never decreases along a history.
fn target_may_precede<T: Tape>(tape: &T, turns: u64) -> bool
    ensures back { result ≡ true → 0 < position_of (T.history tape.now) }
    ensures here { result ≡ false → goto turns (T.history tape.now) ≡ first_at_turn turns (T.history tape.now) }
{
    tape.position() > 0 && turns_now(tape) >= turns
}

/// Goes back until the target of `goto` can't be before the present place.
fn go_before<T: Tape>(tape: &mut T, turns: u64)
    ensures places { rewound (T.history tape.new) ≡ rewound (T.history tape.old) }
    ensures sought { first_at_turn turns (T.history tape.new) ≡ goto turns (T.history tape.old) }
    ensures retention { T.retention tape.new ≡ T.retention tape.old }
{
    'back: while target_may_precede(tape, turns) {
        tape.back();
    }
}

/// Goes forward to the first place with this number of turns, which may be the present one. There must be such a place.
fn forward_to<T: Tape>(tape: &mut T, turns: u64)
    requires { IsSome (first_at_turn turns (T.history tape.old)) }
    ensures found { first_at_turn turns (T.history tape.old) ≡ Some (T.history tape.new) }
    ensures retention { T.retention tape.new ≡ T.retention tape.old }
{
    'on: while turns_now(tape) != turns {
        tape.forward();
    }
}

/// Returns whether a place has this number of turns.
///
/// Turns rise by at most one from place to place, so each number from the turns of the first place to those of the last
/// one has a place.
#[tactic(auto, using(crate::proofs::Between::met_past))]
fn is_turn_in_history<T: Tape>(tape: &T, turns: u64) -> bool
    ensures { result ≡ is_some (goto turns (T.history tape.now)) }
{
    turns <= tape.last_turns() && tape.first_turns() <= turns
}

/// Goes to the first place with this number of turns. Goes back while that place may precede the present one, and then
/// forward.
pub fn goto<T: Tape>(tape: &mut T, turns: u64) -> Result<Standing, Refusal>
    ensures answer { move_outcome (T.retention tape.old) (T.history tape.old)
        (Refusal.NotInHistory (turns_of_first (T.history tape.old)) (last_turns (T.history tape.old)))
        (goto turns (T.history tape.old)) ≡ record { history = T.history tape.new; retention = T.retention tape.new; reply = result } }
    ensures never { result ≢ Err Refusal.OutOfMemory }
{
    if !is_turn_in_history(tape, turns) {
        return Err(Refusal::NotInHistory(tape.first_turns(), tape.last_turns()));
    }
    go_before(tape, turns);
    forward_to(tape, turns);
    Ok(standing(tape))
}
