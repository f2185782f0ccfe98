//! Runs, compared with the same turns executed one by one.

use super::{OF_EIGHT, battle_of, check_clock, check_deaths, check_same, turn};
use mars_core::{Battle, Death};
use std::alloc::Global;
use std::process::Abort;
use std::test::Fail;

/// Executes `turns` turns, or as many as are left.
fn step(battle: &mut Battle, turns: u32) {
    for _ in 0..turns {
        if battle.turn().is_err() {
            break;
        }
    }
}

/// Executes turns until the battle is over, at most 1000.
fn step_to_end(battle: &mut Battle) {
    step(battle, 1000);
}

/// Runs a battle to its end, and executes the turns of a copy one by one: both must end alike, after `turns` turns.
fn check_run(rt: &impl Abort, alloc: Global, battle: &mut Battle, turns: u32) -> Result<(), Fail> {
    let mut stepped = battle.copy(alloc)?;
    step_to_end(&mut stepped);
    battle.run_to_end();
    assert!(rt; battle.is_over());
    assert_eq!(rt; battle.turns(), turns);
    check_same(rt, battle, &stepped);
    Ok(())
}

const TWO_DEATHS: &[Death] = &[
    Death {
        warrior: 1,
        turns: 2,
    },
    Death {
        warrior: 2,
        turns: 5,
    },
];

#[test]
fn runs_with_deaths(rt: HostRuntime) -> Result<(), Fail> {
    let cells = [
        (0, "SPL.B $0, }1"),
        (2, "DAT.F $0, $0"),
        (4, "JMP.B $1, <0"),
    ];
    let mut battle = battle_of(rt.alloc(), OF_EIGHT, &cells)?;
    check_run(&rt, rt.alloc(), &mut battle, 5)?;
    check_deaths(&rt, &battle, TWO_DEATHS);
    // The battle is over already.
    check_run(&rt, rt.alloc(), &mut battle, 5)
}

#[test]
fn runs_within_limits(rt: HostRuntime) -> Result<(), Fail> {
    let cells = [
        (0, "MOV.I $3, $3"),
        (3, "SPL.B {2, >5"),
        (6, "DIV.F }1, *7"),
    ];
    let mut battle = battle_of(rt.alloc(), (8, 4, 4, 6), &cells)?;
    let mut turned = battle.copy(rt.alloc())?;
    step_to_end(&mut turned);
    check_run(&rt, rt.alloc(), &mut battle, turned.turns())
}

/// Runs a battle for 1, 0, 2, 1000 and 1 turns, each time compared with a copy whose turns are executed one by one.
fn check_turns(rt: &impl Abort, alloc: Global, battle: &mut Battle) -> Result<(), Fail> {
    let mut stepped = battle.copy(alloc)?;
    for turns in [1, 0, 2, 1000, 1] {
        step(&mut stepped, turns);
        battle.run(turns);
        check_same(rt, battle, &stepped);
    }
    assert!(rt; battle.is_over());
    Ok(())
}

#[test]
fn turns_with_and_without_limits(rt: HostRuntime) -> Result<(), Fail> {
    let cells = [
        (0, "MOV.I $3, $3"),
        (3, "SPL.B {2, >5"),
        (6, "DIV.F }1, *7"),
    ];
    for sizes in [OF_EIGHT, (8, 4, 4, 6)] {
        let mut battle = battle_of(rt.alloc(), sizes, &cells)?;
        check_turns(&rt, rt.alloc(), &mut battle)?;
    }
    Ok(())
}

#[test]
fn a_lone_run(rt: HostRuntime) -> Result<(), Fail> {
    let mut battle = battle_of(rt.alloc(), OF_EIGHT, &[(0, "JMP.B $2, $0")])?;
    check_run(&rt, rt.alloc(), &mut battle, 2)?;
    assert_eq!(rt; battle.survivors(), 0);
    Ok(())
}

#[test]
fn imps_to_the_last_cycle(rt: HostRuntime) -> Result<(), Fail> {
    let cells = [(0, "MOV.I $0, $1"), (8, "MOV.I $0, $1")];
    let mut battle = battle_of(rt.alloc(), (16, 8, 16, 16), &cells)?;
    check_run(&rt, rt.alloc(), &mut battle, 20)?;
    check_clock(&rt, &battle, 0, 10, 20);
    assert_eq!(rt; battle.survivors(), 2);
    Ok(())
}
