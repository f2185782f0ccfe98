//! Rounds: which warriors survive.
ghost use Rattle.std.specs.Prelude.{◌-◌, Some};

use super::{DEAD, STAY, TOO_MANY, fought, one_cells, sizes};
use mars_cell::Warrior;
use mars_core::BattleFault;
use mars_match::{MatchFault, fight, rounds};
use std::alloc::Global;
use std::process::Abort;
use std::test::Fail;

/// Checks which warriors survive a round.
fn check_fight(
    rt: &impl Abort,
    alloc: Global,
    warriors: &[Warrior],
    starts: &[u32],
    (round, expected): (u32, &[bool]),
) -> Result<(), Fail> {
    let params = sizes(8, 1)?;
    let alive = fought(alloc, &params, warriors, starts, round)
        .ok()
        .ok_or("fight")?;
    assert_eq!(rt; alive.as_slice(), expected, "round {round}");
    Ok(())
}

/// Checks which warriors survive, for several rounds of the same warriors.
fn check_fights(
    rt: &impl Abort,
    alloc: Global,
    warriors: &[Warrior],
    starts: &[u32],
    rounds: &[(u32, &[bool])],
) -> Result<(), Fail> {
    for round in rounds {
        check_fight(rt, alloc, warriors, starts, *round)?;
    }
    Ok(())
}

/// Each warrior overwrites the other one with an empty cell, so the first to move survives.
const DUEL: &[&str] = &["MOV.I $1, $4", "MOV.I $1, $4"];

const FIRST_MOVERS: &[(u32, &[bool])] = &[
    (0, &[true, false]),
    (1, &[false, true]),
    (2, &[true, false]),
];

const LIVING: &[(u32, &[bool])] = &[
    (0, &[true, false, true]),
    (1, &[true, false, true]),
    (2, &[true, false, true]),
    (3, &[true, false, true]),
];

#[test]
fn fights_of_two(rt: HostRuntime) -> Result<(), Fail> {
    let duel = one_cells(rt.alloc(), 8, DUEL)?;
    let checked = check_fights(&rt, rt.alloc(), duel.as_slice(), &[0, 4], FIRST_MOVERS);
    drop(duel);
    checked
}

#[test]
fn fights_of_three(rt: HostRuntime) -> Result<(), Fail> {
    let three = one_cells(rt.alloc(), 8, &[STAY, DEAD, STAY])?;
    let checked = check_fights(&rt, rt.alloc(), three.as_slice(), &[0, 2, 4], LIVING);
    drop(three);
    checked
}

/// Checks that the fight of the first few of these warriors, all at one address, is an error.
fn check_refused_fight(
    rt: &impl Abort,
    alloc: Global,
    all: &[Warrior],
    count: usize,
    fault: BattleFault,
) -> Result<(), Fail> {
    let starts: [u32; 17] = [0; 17];
    if count > all.len() || count > 17 {
        return Err("count".into());
    }
    let params = sizes(8, 1)?;
    let refused = fought(alloc, &params, &all[..count], &starts[..count], 1).err();
    assert_eq!(rt;
        refused,
        Some(MatchFault::Battle(fault)),
        "{count} warriors"
    );
    Ok(())
}

fn check_refused_fights(rt: &impl Abort, alloc: Global, all: &[Warrior]) -> Result<(), Fail> {
    check_refused_fight(rt, alloc, all, 0, BattleFault::NoWarrior)?;
    check_refused_fight(rt, alloc, all, 17, BattleFault::TooMany)?;
    check_refused_fight(rt, alloc, all, 2, BattleFault::Overlap)
}

#[test]
fn refused_fights(rt: HostRuntime) -> Result<(), Fail> {
    let alloc = rt.alloc();
    let all = one_cells(alloc, 8, &TOO_MANY)?;
    let checked = check_refused_fights(&rt, alloc, all.as_slice());
    drop(all);
    checked
}
