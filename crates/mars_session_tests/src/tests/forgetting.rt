//! A tape that evicts the oldest places.
ghost use Rattle.std.specs.Prelude.{◌≤◌};
ghost use Rattle.mars_session.specs.Limits.{max_history};

use super::{BLANK, Check, IDLE, check_script, gives, imp_battle};
use mars_cell::Cell;
use mars_session::{Call, Refusal, Reply, RingTape, Session, Standing};
use std::alloc::Global;
use std::process::Abort;
use std::test::Fail;

/// Returns a session of the imp over a tape that keeps `most` places beside the last one.
fn forgetful_imp(alloc: Global, most: usize) -> Result<Session<RingTape>, Fail>
    requires some { 1 ≤ most }
    requires few { most ≤ max_history }
{
    let battle = imp_battle(alloc)?;
    let tape = RingTape::new(alloc, battle, most).ok().ok_or("tape")?;
    Ok(Session::new(tape, 0))
}

/// Checks the replies of the imp if two places are kept beside the last one.
fn two_kept_give(rt: &impl Abort, alloc: Global, calls: &[(Call, Reply)]) -> Result<(), Fail> {
    gives(
        rt,
        alloc,
        forgetful_imp(alloc, 2)?,
        forgetful_imp(alloc, 2)?,
        calls,
    )
}

const NOTHING_IS_FORGOTTEN_OF_TWO_PLACES: &[(Call, Reply)] = &[
    (Call::Step, imp_at!(1, 1, 1)),
    (Call::Undo, imp_at!(0, 0, 1)),
    (Call::Run(2), imp_at!(2, 2, 2)),
    (Call::Undo, imp_at!(0, 0, 2)),
    (Call::Undo, Err(Refusal::NothingToUndo)),
];

#[test]
fn nothing_is_forgotten_of_two_places(rt: HostRuntime) -> Result<(), Fail> {
    two_kept_give(&rt, rt.alloc(), NOTHING_IS_FORGOTTEN_OF_TWO_PLACES)
}

const RUN_OF_MORE_PLACES_THAN_ARE_KEPT: &[(Call, Reply)] = &[
    (Call::Run(3), imp_at!(3, 2, 2)),
    (Call::Undo, Err(Refusal::Forgotten)),
    (Call::Goto(0), Err(Refusal::NotInHistory(1, 3))),
    (Call::Goto(1), imp_at!(1, 0, 2)),
    (Call::Step, imp_at!(2, 1, 1)),
    (Call::Undo, imp_at!(1, 0, 1)),
    (Call::Undo, Err(Refusal::Forgotten)),
    (Call::Redo, imp_at!(2, 1, 1)),
];

/// The first place that is kept is not marked, so undo does not stop there.
#[test]
fn run_of_more_places_than_are_kept(rt: HostRuntime) -> Result<(), Fail> {
    two_kept_give(&rt, rt.alloc(), RUN_OF_MORE_PLACES_THAN_ARE_KEPT)
}

const OLDEST_PLACES_ARE_FORGOTTEN: &[(Call, Reply)] = &[
    (Call::Run(3), imp_at!(3, 2, 2)),
    (Call::Run(2), imp_at!(5, 2, 2)),
    (Call::Step, imp_at!(6, 2, 2)),
    (Call::Undo, imp_at!(5, 1, 2)),
    (Call::Undo, Err(Refusal::Forgotten)),
];

#[test]
fn oldest_places_are_forgotten(rt: HostRuntime) -> Result<(), Fail> {
    two_kept_give(&rt, rt.alloc(), OLDEST_PLACES_ARE_FORGOTTEN)
}

const FIRST_PLACE_KEEPS_ITS_MARK: &[(Call, Reply)] = &[
    (Call::Step, imp_at!(1, 1, 1)),
    (Call::Run(2), imp_at!(3, 2, 2)),
    (Call::Undo, imp_at!(1, 0, 2)),
    (Call::Undo, Err(Refusal::Forgotten)),
    (Call::Redo, imp_at!(3, 2, 2)),
    (Call::Redo, Err(Refusal::NothingToRedo)),
    (Call::Run(1_000), imp_at!(1_003, 2, 2)),
    (Call::Fill(2, 4, IDLE), imp_at!(1_003, 2, 2)),
    (Call::Goto(1_003), imp_at!(1_003, 0, 2)),
    (Call::Undo, Err(Refusal::Forgotten)),
];

/// A place keeps its mark, also if it becomes the first one.
#[test]
fn first_place_keeps_its_mark(rt: HostRuntime) -> Result<(), Fail> {
    two_kept_give(&rt, rt.alloc(), FIRST_PLACE_KEEPS_ITS_MARK)
}

const KEPT_PLACES_COME_BACK: &[Check] = &[
    Check::Gives(Call::SetCell(6, IDLE), imp_at!(0, 1, 1)),
    Check::Gives(Call::SetCell(7, IDLE), imp_at!(0, 1, 1)),
    Check::Gives(Call::Undo, imp_at!(0, 0, 1)),
    Check::Cell(6, IDLE),
    Check::Cell(7, BLANK),
    Check::Gives(Call::Undo, Err(Refusal::Forgotten)),
    Check::Gives(Call::Redo, imp_at!(0, 1, 1)),
    Check::Cell(7, IDLE),
];

/// Undo restores the cells and queues of the places that are kept, but never those of evicted places.
#[test]
fn kept_places_come_back(rt: HostRuntime) -> Result<(), Fail> {
    let mut session = forgetful_imp(rt.alloc(), 1)?;
    check_script(&rt, &mut session, KEPT_PLACES_COME_BACK);
    Ok(())
}
