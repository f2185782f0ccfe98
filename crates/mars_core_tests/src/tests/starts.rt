//! Starts and restarts, and their errors.

use super::memory::one_cells;
use super::{
    NOP, OF_EIGHT, OUTSIDE, battle_at, battle_of, cell, check_cells, check_clock, check_deaths,
    check_queue, check_restart, one_cell, params,
};
use mars_cell::{Cell, Params, Warrior};
use mars_core::{Battle, BattleFault};
use std::alloc::Global;
use std::process::Abort;
use std::test::Fail;

/// Checks that a battle of warriors of one cell is rejected with this error.
fn check_start(
    rt: &impl Abort,
    alloc: Global,
    cells: &[Cell],
    starts: &[u32],
    fault: BattleFault,
) -> Result<(), Fail> {
    let params = params(8, 8, 8, 8)?;
    let mut warriors = Vec::new(alloc);
    for cell in cells {
        warriors.push(one_cell(alloc, *cell)?)?;
    }
    if starts.len() != warriors.len() {
        return Err("starts".into());
    }
    let started = Battle::new(alloc, &params, warriors.as_slice(), starts);
    assert_eq!(rt; started.err(), Some(fault));
    Ok(())
}

#[test]
fn starts(rt: HostRuntime) -> Result<(), Fail> {
    let alloc = rt.alloc();
    check_start(&rt, alloc, &[], &[], BattleFault::NoWarrior)?;
    check_start(&rt, alloc, &[NOP, NOP], &[0, 8], BattleFault::Overlap)?;
    check_start(&rt, alloc, &[NOP], &[8], BattleFault::StartOutside)?;
    check_start(&rt, alloc, &[OUTSIDE], &[7], BattleFault::FieldOutside)
}

fn check_progress(rt: &impl Abort, battle: &Battle, turns: u32, deaths: usize) {
    assert_eq!(rt; battle.turns(), turns);
    assert_eq!(rt; battle.deaths().len(), deaths);
}

const RESTARTED: &[(u32, &str)] = &[
    (0, "DAT.F $0, $0"),
    (1, "MOV.I $0, $4"),
    (4, "DAT.F $0, $0"),
];

/// Checks that a restart that is rejected changes nothing, and that the next restart loads the warriors.
fn check_restarts(rt: &impl Abort, battle: &mut Battle, warriors: &[Warrior]) -> Result<(), Fail> {
    let outside = Err(BattleFault::StartOutside);
    check_restart(rt, battle, warriors, [0, 9], outside)?;
    check_progress(rt, battle, 3, 1);
    check_restart(rt, battle, warriors, [1, 6], Ok(()))?;
    check_progress(rt, battle, 0, 0);
    check_queue(rt, battle, 0, &[1]);
    check_queue(rt, battle, 1, &[6]);
    check_cells(rt, battle, RESTARTED)
}

#[test]
fn restarts(rt: HostRuntime) -> Result<(), Fail> {
    let (imp, stay) = ("MOV.I $0, $4", "JMP.B $0, $0");
    let warriors = one_cells(rt.alloc(), &[imp, stay]).ok_or("warriors")?;
    let mut battle = battle_of(rt.alloc(), OF_EIGHT, &[(0, imp), (4, stay)])?;
    battle.run_to_end();
    check_progress(&rt, &battle, 3, 1);
    check_restarts(&rt, &mut battle, &warriors)
}

/// Returns a warrior of the cells `texts` that starts at the cell with index `start`.
fn several_cells(alloc: Global, texts: &[&str], start: u32) -> Result<Warrior, Fail> {
    let mut cells = Vec::new(alloc);
    for text in texts {
        cells.push(cell(8, text)?)?;
    }
    let name = String::from_str(alloc, "Test")?;
    let author = String::from_str(alloc, "")?;
    let warrior = Warrior::new(name, author, cells, start)
        .ok()
        .ok_or("warrior")?;
    Ok(warrior)
}

/// The cells of warriors, each with the index of the cell at which the warrior starts.
const SEVERAL: &[(&[&str], u32)] = &[
    (&["NOP.F $1, $0", "NOP.F $2, $0"], 1),
    (&["JMP.B $1, $0", "JMP.B $2, $0", "JMP.B $3, $0"], 2),
    (&["DAT.F $4, $4"], 0),
];

const ROUND_THE_END: &[(u32, &str)] = &[
    (0, "NOP.F $2, $0"),
    (1, "DAT.F $0, $0"),
    (2, "JMP.B $1, $0"),
    (3, "JMP.B $2, $0"),
    (4, "JMP.B $3, $0"),
    (5, "DAT.F $4, $4"),
    (6, "DAT.F $0, $0"),
    (7, "NOP.F $1, $0"),
];

/// Returns a battle of three warriors, the first of which extends past the end of the core.
fn three_of_several(alloc: Global) -> Result<Battle, Fail> {
    let params = Params::new(8, 8, 10, 8, 8, 3, 3).ok().ok_or("parameters")?;
    let mut warriors = Vec::new(alloc);
    for (texts, start) in SEVERAL {
        warriors.push(several_cells(alloc, texts, *start)?)?;
    }
    battle_at(alloc, &params, &warriors, &[7, 2, 5])
}

#[test]
fn warriors_lie_round_the_end_of_the_core(rt: HostRuntime) -> Result<(), Fail> {
    let battle = three_of_several(rt.alloc())?;
    check_cells(&rt, &battle, ROUND_THE_END)?;
    check_queue(&rt, &battle, 0, &[0]);
    check_queue(&rt, &battle, 1, &[4]);
    check_queue(&rt, &battle, 2, &[5]);
    check_clock(&rt, &battle, 0, 0, 0);
    assert_eq!(rt; battle.survivors(), 3);
    check_deaths(&rt, &battle, &[]);
    Ok(())
}
