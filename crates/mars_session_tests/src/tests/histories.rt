//! Commands, undo, redo and goto if all places are kept.
ghost use Rattle.std.specs.Prelude.{◌≡◌, false};

use super::poor_tape::PoorTape;
use super::{
    BLANK, Check, IDLE, Start, battle_in, check_call, check_script, check_standing, gives, imp,
    imp_gives, limited_imp_gives, lone_tape, one_cell, params_of, poor_imp, stayers_give,
};
use mars_cell::Cell;
use mars_session::{Call, DeltaTape, Refusal, Reply, RingTape, Session, Standing, Tape, WholeTape};
use std::alloc::Global;
use std::process::Abort;
use std::test::Fail;

const EDIT_IN_THE_MIDDLE_OF_A_RUN: &[(Call, Reply)] = &[
    (Call::Run(4), imp_at!(4, 4, 4)),
    (Call::Goto(2), imp_at!(2, 2, 4)),
    (Call::SetCell(7, IDLE), imp_at!(2, 3, 3)),
    (Call::Undo, imp_at!(2, 2, 3)),
    (Call::Redo, imp_at!(2, 3, 3)),
];

#[test]
fn edit_in_the_middle_of_a_run(rt: HostRuntime) -> Result<(), Fail> {
    imp_gives(&rt, rt.alloc(), EDIT_IN_THE_MIDDLE_OF_A_RUN)
}

const UNDONE_EDIT: &[Check] = &[
    Check::Gives(Call::Run(4), imp_at!(4, 4, 4)),
    Check::Gives(Call::Goto(2), imp_at!(2, 2, 4)),
    Check::Gives(Call::SetCell(7, IDLE), imp_at!(2, 3, 3)),
    Check::Cell(7, IDLE),
    Check::Gives(Call::Undo, imp_at!(2, 2, 3)),
    Check::Cell(7, BLANK),
    Check::Gives(Call::Redo, imp_at!(2, 3, 3)),
    Check::Cell(7, IDLE),
];

fn check_undone_edit<T: Start + Drop>(rt: &impl Abort, alloc: Global) -> Result<(), Fail> {
    let mut session = imp::<T>(alloc, 100)?;
    check_script(rt, &mut session, UNDONE_EDIT);
    check_standing(rt, &session, imp_at!(2, 3, 3));
    Ok(())
}

#[test]
fn cell_of_an_undone_edit(rt: HostRuntime) -> Result<(), Fail> {
    let alloc = rt.alloc();
    check_undone_edit::<WholeTape>(&rt, alloc)?;
    check_undone_edit::<DeltaTape>(&rt, alloc)?;
    check_undone_edit::<RingTape>(&rt, alloc)
}

const UNDO_FROM_THE_MIDDLE_OF_A_RUN: &[(Call, Reply)] = &[
    (Call::Run(4), imp_at!(4, 4, 4)),
    (Call::Goto(2), imp_at!(2, 2, 4)),
    (Call::Goto(9), Err(Refusal::NotInHistory(0, 4))),
    (Call::Undo, imp_at!(0, 0, 4)),
    (Call::Redo, imp_at!(4, 4, 4)),
];

#[test]
fn undo_from_the_middle_of_a_run(rt: HostRuntime) -> Result<(), Fail> {
    imp_gives(&rt, rt.alloc(), UNDO_FROM_THE_MIDDLE_OF_A_RUN)
}

const STEPS_UNDONE_AND_REDONE: &[(Call, Reply)] = &[
    (Call::Step, imp_at!(1, 1, 1)),
    (Call::Step, imp_at!(2, 2, 2)),
    (Call::Undo, imp_at!(1, 1, 2)),
    (Call::Undo, imp_at!(0, 0, 2)),
    (Call::Undo, Err(Refusal::NothingToUndo)),
    (Call::Redo, imp_at!(1, 1, 2)),
    (Call::Redo, imp_at!(2, 2, 2)),
    (Call::Redo, Err(Refusal::NothingToRedo)),
];

#[test]
fn steps_undone_and_redone(rt: HostRuntime) -> Result<(), Fail> {
    imp_gives(&rt, rt.alloc(), STEPS_UNDONE_AND_REDONE)
}

const COVERED_RUN: &[(Call, Reply)] = &[
    (Call::Run(5), imp_at!(5, 5, 5)),
    (Call::Goto(2), imp_at!(2, 2, 5)),
    (Call::Run(4), Err(Refusal::OutOfMemory)),
    (Call::Run(3), imp_at!(5, 5, 5)),
    (Call::Step, Err(Refusal::OutOfMemory)),
];

/// Checks that a run over three places that follow succeeds without an allocation, once an earlier run has reserved room for
/// five places.
fn check_covered_run<T: Start + Drop>(rt: &impl Abort, alloc: Global) -> Result<(), Fail>
    requires { T.FORGETS ≡ false }
{
    let (one, all) = (poor_imp(alloc, 1)?, poor_imp(alloc, 1)?);
    gives::<PoorTape<T>>(rt, alloc, one, all, COVERED_RUN)
}

#[test]
fn run_over_what_follows_needs_no_memory(rt: HostRuntime) -> Result<(), Fail> {
    let alloc = rt.alloc();
    check_covered_run::<WholeTape>(&rt, alloc)?;
    check_covered_run::<DeltaTape>(&rt, alloc)
}

const STEP_FROM_THE_MIDDLE_OF_A_RUN: &[(Call, Reply)] = &[
    (Call::Run(5), at!(5, 1, 2, 3, 5, 5)),
    (Call::Goto(4), at!(4, 1, 1, 3, 4, 5)),
    (Call::Step, at!(5, 1, 2, 3, 5, 5)),
    (Call::Undo, at!(4, 1, 1, 3, 4, 5)),
    (Call::Undo, at!(0, 0, 0, 3, 0, 5)),
];

#[test]
fn step_from_the_middle_of_a_run(rt: HostRuntime) -> Result<(), Fail> {
    stayers_give(&rt, rt.alloc(), STEP_FROM_THE_MIDDLE_OF_A_RUN)
}

const HISTORY_OF_TWO_PLACES: &[(Call, Reply)] = &[
    (Call::Run(3), Err(Refusal::JournalFull(2))),
    (Call::Run(2), imp_at!(2, 2, 2)),
    (Call::Step, Err(Refusal::JournalFull(0))),
    (Call::Undo, imp_at!(0, 0, 2)),
    (Call::Step, imp_at!(1, 1, 1)),
];

/// The room is counted from the present place, not from the last one.
#[test]
fn history_of_two_places(rt: HostRuntime) -> Result<(), Fail> {
    limited_imp_gives(&rt, rt.alloc(), 2, HISTORY_OF_TWO_PLACES)
}

/// A single warrior dies in its first turn: only one place is appended, but the room is checked for the number of turns
/// requested.
const AN_EARLY_END: &[(Call, Reply)] = &[
    (Call::Run(3), Err(Refusal::JournalFull(2))),
    (Call::Until(3), Err(Refusal::JournalFull(2))),
    (Call::Until(2), at!(1, 0, 0, 0, 1, 1)),
    (Call::Step, Err(Refusal::Over)),
    (Call::Run(0), Err(Refusal::Count)),
    (Call::Until(0), Err(Refusal::Over)),
    (Call::Until(2_000_000), Err(Refusal::Count)),
    (Call::SetCell(7, IDLE), at!(1, 0, 0, 0, 2, 2)),
    (Call::Spawn(0, 3), Err(Refusal::WarriorDead)),
    (Call::Kill(0, 0), Err(Refusal::NoSuchProcess)),
    (Call::Undo, at!(1, 0, 0, 0, 1, 2)),
    (Call::Undo, at!(0, 0, 0, 1, 0, 2)),
    (Call::Run(2), at!(1, 0, 0, 0, 1, 1)),
];

fn check_early_end<T: Start + Drop>(rt: &impl Abort, alloc: Global) -> Result<(), Fail>
    requires { T.FORGETS ≡ false }
{
    let one = Session::new(lone_tape::<T>(alloc, 8, &[BLANK])?, 2);
    let all = Session::new(lone_tape::<T>(alloc, 8, &[BLANK])?, 2);
    gives(rt, alloc, one, all, AN_EARLY_END)
}

#[test]
fn battles_that_end_early(rt: HostRuntime) -> Result<(), Fail> {
    let alloc = rt.alloc();
    check_early_end::<WholeTape>(&rt, alloc)?;
    check_early_end::<DeltaTape>(&rt, alloc)
}

const GOTO_FINDS_THE_FIRST_OF_EQUAL_TURNS: &[(Call, Reply)] = &[
    (Call::Fill(2, 4, IDLE), imp_at!(0, 3, 3)),
    (Call::Undo, imp_at!(0, 0, 3)),
    (Call::Redo, imp_at!(0, 3, 3)),
    (Call::Goto(0), imp_at!(0, 0, 3)),
    (Call::Redo, imp_at!(0, 3, 3)),
];

#[test]
fn goto_finds_the_first_of_equal_turns(rt: HostRuntime) -> Result<(), Fail> {
    imp_gives(&rt, rt.alloc(), GOTO_FINDS_THE_FIRST_OF_EQUAL_TURNS)
}

/// Numbers of turns, each with the number of places that a goto to it passes, one goto after another.
const WAYS: &[(u64, u64)] = &[
    (20, 32),
    (40, 20),
    (40, 2),
    (0, 40),
    (0, 0),
    (1, 1),
    (50, 49),
    (51, 0),
];

/// Checks how many places a goto passes, and that a goto to more than 50 turns is refused.
fn check_goto<T: Tape>(rt: &impl Abort, session: &mut Session<PoorTape<T>>, turns: u64, way: u64) {
    let before = session.tape().walked();
    let reply = session.goto(turns);
    assert_eq!(rt; reply.is_ok(), turns <= 50);
    assert_eq!(rt; session.tape().walked(), before.saturating_add(way));
}

/// Checks how many places gotos pass: those on the way, and at most one more there and back. A refused goto passes none.
fn check_way<T: Start + Drop>(rt: &impl Abort, alloc: Global) -> Result<(), Fail>
    requires { T.FORGETS ≡ false }
{
    let mut session = poor_imp::<T>(alloc, 1)?;
    check_call(rt, &mut session, Call::Run(50), imp_at!(50, 50, 50));
    for (turns, way) in WAYS {
        check_goto(rt, &mut session, *turns, *way);
    }
    Ok(())
}

#[test]
fn goto_goes_over_the_places_on_the_way(rt: HostRuntime) -> Result<(), Fail> {
    let alloc = rt.alloc();
    check_way::<WholeTape>(&rt, alloc)?;
    check_way::<DeltaTape>(&rt, alloc)
}

/// A command that appends 600,000 places is not refused for lack of memory, and is undone as a whole.
#[test]
fn many_places(rt: HostRuntime) -> Result<(), Fail> {
    let alloc = rt.alloc();
    let warriors = vec![in alloc; one_cell(alloc, IDLE)?]?;
    let battle = battle_in(alloc, &params_of(1_048_576, 8, 2)?, &warriors, &[0])?;
    let mut session = Session::new(DeltaTape::start(alloc, battle)?, 1_000_000);
    let filled = Call::Fill(0, 599_999, IDLE);
    check_call(&rt, &mut session, filled, imp_at!(0, 600_000, 600_000));
    check_call(&rt, &mut session, Call::Undo, imp_at!(0, 0, 600_000));
    Ok(())
}
