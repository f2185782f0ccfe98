//! Edits, copies of battles, and the texts of errors.

use super::{
    NOP, OUTSIDE, check_clock, check_queue, check_rejected, lone_battle, make_edit, make_turns,
    three_stay,
};
use mars_cell::ParamFault;
use mars_core::{Battle, BattleFault, BlockFault, Edit, EditFault, Over};
use std::alloc::Global;
use std::fmt::Display;
use std::process::Abort;
use std::test::Fail;

/// Kills the only process of a warrior, and checks the clock after the kill.
fn check_kill(
    rt: &impl Abort,
    battle: &mut Battle,
    warrior: u64,
    next: u32,
    cycle: u32,
    turns: u32,
) -> Result<(), Fail> {
    let kill = Edit::KillProcess(warrior, 0);
    let atom = battle.edit(kill).ok().ok_or("kill")?;
    assert!(rt; atom.died);
    check_clock(rt, battle, next, cycle, turns);
    Ok(())
}

fn check_kill_of_the_next(rt: &impl Abort, alloc: Global) -> Result<(), Fail> {
    let mut battle = three_stay(alloc, 8, 1)?;
    check_kill(rt, &mut battle, 1, 2, 0, 1)?;
    assert_eq!(rt; battle.survivors(), 2);
    Ok(())
}

fn check_kills_to_the_end(rt: &impl Abort, alloc: Global) -> Result<(), Fail> {
    let mut battle = three_stay(alloc, 8, 2)?;
    check_kill(rt, &mut battle, 2, 0, 1, 2)?;
    check_kill(rt, &mut battle, 0, 1, 1, 2)?;
    assert!(rt; battle.is_over());
    Ok(())
}

#[test]
fn three_warriors_and_kills(rt: HostRuntime) -> Result<(), Fail> {
    check_kill_of_the_next(&rt, rt.alloc())?;
    check_kills_to_the_end(&rt, rt.alloc())
}

/// Edits that are rejected in a battle of one warrior with 3 processes and a process limit of 3, in a core of 8 cells.
const REJECTED_EDITS: &[(Edit, EditFault)] = &[
    (Edit::Spawn(0, 3), EditFault::QueueFull),
    (Edit::Spawn(4_294_967_296, 0), EditFault::NoSuchWarrior),
    (Edit::Spawn(0, 8), EditFault::Address),
    (Edit::SetCell(8, NOP), EditFault::Address),
    (Edit::SetCell(1, OUTSIDE), EditFault::FieldOutside),
    (Edit::KillProcess(0, 3), EditFault::NoSuchProcess),
    (Edit::MoveProcess(1, 0, 0), EditFault::NoSuchWarrior),
];

/// Adds two processes, up to the process limit, tries edits that are rejected, then kills a process and moves another.
fn check_edits(rt: &impl Abort, battle: &mut Battle) -> Result<(), Fail> {
    make_edit(battle, Edit::Spawn(0, 1))?;
    make_edit(battle, Edit::Spawn(0, 2))?;
    check_rejected(rt, battle, REJECTED_EDITS);
    let atom = battle.edit(Edit::KillProcess(0, 1)).ok().ok_or("kill")?;
    assert!(rt; !atom.died);
    check_queue(rt, battle, 0, &[0, 2]);
    make_edit(battle, Edit::MoveProcess(0, 1, 5))?;
    make_turns(battle, 1)?;
    check_queue(rt, battle, 0, &[5, 0]);
    Ok(())
}

#[test]
fn edits_and_copies(rt: HostRuntime) -> Result<(), Fail> {
    let cells = [(0, "JMP.B $0, $0")];
    let mut battle = lone_battle(rt.alloc(), (8, 3, 8, 8), &cells)?;
    let other = battle.copy(rt.alloc())?;
    check_edits(&rt, &mut battle)?;
    check_queue(&rt, &other, 0, &[0]);
    Ok(())
}

fn check_text(
    rt: &impl Abort,
    alloc: Global,
    fault: &impl Display,
    text: &str,
) -> Result<(), Fail> {
    let displayed = format!(in alloc; "{fault}")?;
    assert_eq!(rt; displayed.as_str(), text);
    Ok(())
}

const BATTLE_FAULTS: &[(BattleFault, &str)] = &[
    (BattleFault::NoWarrior, "1 NoWarrior"),
    (BattleFault::TooMany, "2 TooMany"),
    (BattleFault::Overlap, "3 Overlap"),
    (BattleFault::StartOutside, "4 StartOutside"),
    (BattleFault::FieldOutside, "5 FieldOutside"),
    (BattleFault::OutOfMemory, "6 OutOfMemory"),
];

const EDIT_FAULTS: &[(EditFault, &str)] = &[
    (EditFault::Address, "1 Address"),
    (EditFault::FieldOutside, "2 FieldOutside"),
    (EditFault::NoSuchWarrior, "3 NoSuchWarrior"),
    (EditFault::NoSuchProcess, "4 NoSuchProcess"),
    (EditFault::WarriorDead, "5 WarriorDead"),
    (EditFault::QueueFull, "6 QueueFull"),
];

const BLOCK_FAULTS: &[(BlockFault, &str)] = &[
    (BlockFault::Short, "1 Short"),
    (BlockFault::Mark, "2 Mark"),
    (BlockFault::Parameters(ParamFault::Limit), "3 Parameters"),
    (BlockFault::Warriors, "4 Warriors"),
    (BlockFault::Cell(7), "5 Cell"),
    (BlockFault::Queue(1), "6 Queue"),
    (BlockFault::Deaths, "7 Deaths"),
    (BlockFault::Clock, "8 Clock"),
    (BlockFault::Head, "9 Head"),
    (BlockFault::OutOfMemory, "10 OutOfMemory"),
];

#[test]
fn faults_are_displayed(rt: HostRuntime) -> Result<(), Fail> {
    for (fault, text) in BATTLE_FAULTS {
        check_text(&rt, rt.alloc(), fault, text)?;
    }
    for (fault, text) in EDIT_FAULTS {
        check_text(&rt, rt.alloc(), fault, text)?;
    }
    for (fault, text) in BLOCK_FAULTS {
        check_text(&rt, rt.alloc(), fault, text)?;
    }
    check_text(&rt, rt.alloc(), &Over, "the battle is over")
}
