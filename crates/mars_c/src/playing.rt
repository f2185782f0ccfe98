//! Turns of a battle, recorded in rows.
ghost use Rattle.std.specs.Prelude.{◌≡◌, false, length};
ghost use Rattle.mars_core.specs.State.{State, is_over_of};
ghost use Rattle.mars_core.specs.Turn.{after_turns, turn_of};
ghost use Rattle.mars_c.specs.Records.{recorded};

use mars_core::{Atom, Battle};

/// The record of a turn in one row, as the caller gets it.
pub trait TurnRow: Copy {
    ghost row_of: { State → Self };

    /// Executes a turn of a battle that is not over, and writes its row. `atom` is memory for the record of the turn.
    fn record_turn(battle: &mut Battle, atom: &mut Atom, row: &mut Self)
        requires running { is_over_of battle.old ≡ false }
        ensures row { row.new ≡ row_of battle.old }
        ensures battle { battle.new ≡ turn_of battle.old };
}

/// Executes one turn for each row and records the turn in the row. Stops if the battle is over; the other rows are
/// unchanged then.
pub fn fill_turn_rows<R: TurnRow>(battle: &mut Battle, rows: &mut [R])
    ensures rows { rows.new ≡ recorded R.row_of battle.old rows.old }
    ensures battle { battle.new ≡ after_turns (length rows.old) battle.old }
{
    let mut atom = Atom::default();
    for i in 0..rows.len() {
        if battle.is_over() {
            return;
        }
        R::record_turn(battle, &mut atom, &mut rows[i]);
    }
}
