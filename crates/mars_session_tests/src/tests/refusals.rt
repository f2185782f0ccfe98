//! Which calls are refused, that a refused call changes nothing, and the texts of refusals.
ghost use Rattle.std.specs.Prelude.{◌≡◌, false};

use super::{
    BLANK, COPIER, Check, IDLE, Start, check_each, check_list, check_same, check_script,
    check_standing, imp, imp_gives, poor_imp, stayers_give,
};
use mars_cell::{Cell, Mode, Modifier, Op};
use mars_session::{Call, DeltaTape, Refusal, Reply, RingTape, Standing, WholeTape};
use std::alloc::Global;
use std::process::Abort;
use std::test::Fail;

/// A cell whose A-number is outside a core of 8 cells.
const OUTSIDE: Cell = direct!(Op::Dat, Modifier::F, 8, 0);

/// A cell whose B-number is outside a core of 8 cells.
const OUTSIDE_BY_B: Cell = direct!(Op::Dat, Modifier::F, 0, 8);

const REFUSED_RUN: [(Call, Reply); 5] = [
    (Call::Step, imp_at!(1, 1, 1)),
    (Call::Step, imp_at!(2, 2, 2)),
    (Call::Undo, imp_at!(1, 1, 2)),
    (Call::Undo, imp_at!(0, 0, 2)),
    (Call::Run(1000), Err(Refusal::OutOfMemory)),
];

const TWO_REDOS: &[(Call, Reply)] = &[
    (Call::Redo, imp_at!(1, 1, 2)),
    (Call::Redo, imp_at!(2, 2, 2)),
];

/// Checks that a run that runs out of memory changes no cell or queue, and that both steps can still be redone.
fn check_refused_run<T: Start + Drop>(rt: &impl Abort, alloc: Global) -> Result<(), Fail>
    requires { T.FORGETS ≡ false }
{
    let mut before = poor_imp::<T>(alloc, 2)?;
    check_each(rt, &mut before, &REFUSED_RUN[..4]);
    let mut session = poor_imp::<T>(alloc, 2)?;
    check_list(rt, alloc, &mut session, &REFUSED_RUN)?;
    check_standing(rt, &session, Ok(before.standing()));
    check_same(rt, session.battle(), before.battle());
    check_list(rt, alloc, &mut session, TWO_REDOS)
}

#[test]
fn refused_run_is_no_run(rt: HostRuntime) -> Result<(), Fail> {
    let alloc = rt.alloc();
    check_refused_run::<WholeTape>(&rt, alloc)?;
    check_refused_run::<DeltaTape>(&rt, alloc)
}

const REFUSALS_IN_ORDER: &[(Call, Reply)] = &[
    (Call::Kill(1, 0), at!(0, 0, 0, 2, 1, 1)),
    (Call::Kill(1, 0), Err(Refusal::NoSuchProcess)),
    (Call::Kill(3, 0), Err(Refusal::NoSuchWarrior)),
    (Call::Spawn(1, 0), Err(Refusal::WarriorDead)),
    (Call::Spawn(1, 8), Err(Refusal::Address)),
    (Call::Until(400_000), Err(Refusal::Count)),
    (Call::Kill(2, 0), at!(0, 0, 0, 1, 2, 2)),
    (Call::Run(0), Err(Refusal::Count)),
    (Call::Until(0), Err(Refusal::Over)),
];

/// The first refusal that applies is returned, for a dead warrior and for a battle that is over.
#[test]
fn refusals_in_order(rt: HostRuntime) -> Result<(), Fail> {
    stayers_give(&rt, rt.alloc(), REFUSALS_IN_ORDER)
}

const REFUSED_TURNS_AND_MOVES: &[(Call, Reply)] = &[
    (Call::Until(3), imp_at!(3, 3, 3)),
    (Call::Until(3), Err(Refusal::CyclePassed(3))),
    (Call::Goto(9), Err(Refusal::NotInHistory(0, 3))),
    (Call::Run(0), Err(Refusal::Count)),
    (Call::Redo, Err(Refusal::NothingToRedo)),
];

#[test]
fn refused_turns_and_moves(rt: HostRuntime) -> Result<(), Fail> {
    imp_gives(&rt, rt.alloc(), REFUSED_TURNS_AND_MOVES)
}

const NUMBERS_PAST_EVERY_LIMIT: &[(Call, Reply)] = &[
    (Call::Fill(4, 2, IDLE), Err(Refusal::Address)),
    (Call::Fill(0, 8, IDLE), Err(Refusal::Address)),
    (Call::SetCell(1, OUTSIDE), Err(Refusal::FieldOutside)),
    (Call::SetCell(1, OUTSIDE_BY_B), Err(Refusal::FieldOutside)),
    (Call::SetCell(8, OUTSIDE), Err(Refusal::Address)),
    (Call::Fill(0, 7, OUTSIDE), Err(Refusal::FieldOutside)),
    (Call::Fill(0, 1_000_000, IDLE), Err(Refusal::Count)),
    (Call::Run(1_000_001), Err(Refusal::Count)),
    (Call::Until(u64::MAX), Err(Refusal::Count)),
    (Call::Spawn(4_294_967_296, 0), Err(Refusal::NoSuchWarrior)),
    (Call::Kill(0, 4_294_967_296), Err(Refusal::NoSuchProcess)),
    (Call::MoveProcess(0, 1, 5), Err(Refusal::NoSuchProcess)),
    (Call::MoveProcess(0, 1, 8), Err(Refusal::Address)),
    (Call::MoveProcess(1, 1, 8), Err(Refusal::Address)),
    (Call::MoveProcess(1, 1, 5), Err(Refusal::NoSuchWarrior)),
    (Call::Spawn(1, 8), Err(Refusal::Address)),
];

#[test]
fn numbers_past_every_limit(rt: HostRuntime) -> Result<(), Fail> {
    imp_gives(&rt, rt.alloc(), NUMBERS_PAST_EVERY_LIMIT)
}

const CHANGED: Cell = direct!(Op::Nop, Modifier::F, 1, 0);

/// Calls of which only the accepted one changes a cell.
const ONE_EDIT: &[Check] = &[
    Check::Cell(7, BLANK),
    Check::Cell(0, COPIER),
    Check::Gives(Call::SetCell(9, IDLE), Err(Refusal::Address)),
    Check::Gives(Call::SetCell(7, CHANGED), imp_at!(0, 1, 1)),
    Check::Cell(7, CHANGED),
    Check::Gives(Call::Run(1_000_001), Err(Refusal::Count)),
    Check::Gives(Call::Kill(0, 5), Err(Refusal::NoSuchProcess)),
    Check::Cell(7, CHANGED),
    Check::Cell(0, COPIER),
];

fn check_one_edit<T: Start + Drop>(rt: &impl Abort, alloc: Global) -> Result<(), Fail> {
    let mut session = imp::<T>(alloc, 100)?;
    check_script(rt, &mut session, ONE_EDIT);
    Ok(())
}

#[test]
fn cells_among_refusals(rt: HostRuntime) -> Result<(), Fail> {
    let alloc = rt.alloc();
    check_one_edit::<WholeTape>(&rt, alloc)?;
    check_one_edit::<DeltaTape>(&rt, alloc)?;
    check_one_edit::<RingTape>(&rt, alloc)
}

fn check_text(rt: &impl Abort, alloc: Global, refusal: Refusal, text: &str) -> Result<(), Fail> {
    let displayed = format!(in alloc; "{refusal}")?;
    assert_eq!(rt; displayed.as_str(), text);
    Ok(())
}

const TEXTS: &[(Refusal, &str)] = &[
    (Refusal::Count, "1 Count"),
    (Refusal::Address, "2 Address"),
    (Refusal::FieldOutside, "3 FieldOutside"),
    (Refusal::NoSuchWarrior, "4 NoSuchWarrior"),
    (Refusal::NoSuchProcess, "5 NoSuchProcess"),
    (Refusal::WarriorDead, "6 WarriorDead"),
    (Refusal::QueueFull, "7 QueueFull"),
    (Refusal::Over, "8 Over"),
    (Refusal::CyclePassed(3), "9 CyclePassed 3"),
    (Refusal::NothingToUndo, "10 NothingToUndo"),
    (Refusal::NothingToRedo, "11 NothingToRedo"),
    (Refusal::NotInHistory(0, 3), "12 NotInHistory 0 3"),
    (Refusal::JournalFull(2), "13 JournalFull 2"),
    (Refusal::OutOfMemory, "14 OutOfMemory"),
    (Refusal::Forgotten, "15 Forgotten"),
];

/// A refusal is displayed as its number, its name and its values.
#[test]
fn texts_of_refusals(rt: HostRuntime) -> Result<(), Fail> {
    for (refusal, text) in TEXTS {
        check_text(&rt, rt.alloc(), *refusal, text)?;
    }
    Ok(())
}
