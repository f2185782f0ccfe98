//! Calls whose allocations fail. Each test tries the call again if memory runs out, so it passes whichever allocation
//! fails. dev/checks/memory lets each allocation fail in turn.
ghost use Rattle.std.specs.Prelude.{◌≡◌, ◌≤◌, IfOk, None, length};

use super::{BY_DEFAULT, DEAD, STAY, fought, sizes};
use mars_cell::{Warrior, read_cell};
use mars_core::BattleFault;
use mars_match::{
    Fate, MatchFault, PlaceFault, Plan, Setup, Sum, Table, fight_rounds, league, place, population,
    rounds,
};
use redcode_asm::Formula;
use std::alloc::Global;
use std::process::Abort;
use std::test::Fail;

const IMP: &str = "MOV.I $0, $1";

/// Returns whether an error means that memory ran out.
fn is_of_memory(fault: MatchFault) -> bool {
    matches!(
        fault,
        MatchFault::OutOfMemory
            | MatchFault::Place(PlaceFault::OutOfMemory)
            | MatchFault::Battle(BattleFault::OutOfMemory)
    )
}

/// Returns warriors of one cell each in a core of 8000 cells, if there is memory for them.
fn one_cells(alloc: Global, texts: &[&str]) -> Option<Vec<Warrior>> {
    let mut warriors = Vec::new(alloc);
    for text in texts {
        let cell = read_cell(text.as_bytes(), 8000)?;
        let mut cells = Vec::new(alloc);
        cells.push(cell).ok()?;
        let warrior = Warrior::new(String::new(alloc), String::new(alloc), cells, 0).ok()?;
        warriors.push(warrior).ok()?;
    }
    Some(warriors)
}

/// Returns warriors of one cell each in a core of 8000 cells; tries again if memory runs out.
fn warriors_of(alloc: Global, texts: &[&str]) -> Result<Vec<Warrior>, Fail> {
    match one_cells(alloc, texts) {
        Some(warriors) => Ok(warriors),
        None => Ok(one_cells(alloc, texts).ok_or("warriors")?),
    }
}

/// Returns the setup of `count` rounds with the first seed and no fixed position; tries again if memory runs out.
fn setup_of(alloc: Global, count: u32) -> Result<Setup, Fail>
    ensures { IfOk result (λ setup. setup.plan.fixed ≡ None) }
{
    let params = sizes(8000, 100)?;
    let formula = match Formula::new(alloc, BY_DEFAULT.as_bytes()) {
        Ok(formula) => formula,
        Err(_) => Formula::new(alloc, BY_DEFAULT.as_bytes())?,
    };
    Ok(Setup {
        params,
        plan: Plan {
            rounds: count,
            seed: 1,
            fixed: None,
        },
        formula,
    })
}

/// Returns the points, wins, ties and losses of each row.
fn sums(table: &Table) -> [(i64, [u64; 3]); 3] {
    let mut sums = [(0, [0, 0, 0]); 3];
    for (sum, row) in sums.iter_mut().zip(table.rows.as_slice()) {
        *sum = (row.points(), [row.wins(), row.ties(), row.losses()]);
    }
    sums
}

#[test]
fn warriors_are_placed(rt: HostRuntime) -> Result<(), Fail> {
    let params = sizes(8000, 100)?;
    let placed = match place(rt.alloc(), &params, 3, 1) {
        Err(fault) => {
            assert_eq!(rt; fault, PlaceFault::OutOfMemory);
            place(rt.alloc(), &params, 3, 1).ok()
        }
        Ok(placed) => Some(placed),
    };
    let (starts, next) = placed.ok_or("placement")?;
    assert_eq!(rt; starts.as_slice(), [0, 1505, 2769].as_slice());
    assert_eq!(rt; next, 1622650073);
    Ok(())
}

/// Checks which warriors survive the second round of three.
fn check_fight(rt: &impl Abort, alloc: Global, warriors: &[Warrior]) -> Result<(), Fail> {
    let params = sizes(8000, 100)?;
    let starts = [0, 100, 200];
    let alive = match fought(alloc, &params, warriors, &starts, 1) {
        Err(fault) => {
            assert!(rt; is_of_memory(fault));
            fought(alloc, &params, warriors, &starts, 1)
                .ok()
                .ok_or("fight")?
        }
        Ok(alive) => alive,
    };
    assert_eq!(rt; alive.as_slice(), [true, false, true].as_slice());
    Ok(())
}

#[test]
fn a_round_is_fought(rt: HostRuntime) -> Result<(), Fail> {
    let warriors = warriors_of(rt.alloc(), &[STAY, DEAD, IMP])?;
    let checked = check_fight(&rt, rt.alloc(), warriors.as_slice());
    drop(warriors);
    checked
}

/// Returns the table of a match; tries again if memory runs out.
fn table_of_rounds(
    rt: &impl Abort,
    alloc: Global,
    setup: &Setup,
    warriors: &[Warrior],
) -> Result<Table, MatchFault>
    requires { setup.now.plan.fixed ≡ None }
{
    match rounds(alloc, setup, warriors) {
        Err(fault) => {
            assert!(rt; is_of_memory(fault));
            rounds(alloc, setup, warriors)
        }
        Ok(table) => Ok(table),
    }
}

/// Returns the fates of a match; tries again if memory runs out.
fn fates_of_rounds(
    rt: &impl Abort,
    alloc: Global,
    setup: &Setup,
    texts: &[&str],
) -> Result<Vec<Fate>, Fail>
    requires { setup.now.plan.fixed ≡ None }
{
    match fight_rounds(
        alloc,
        &setup.params,
        &setup.plan,
        warriors_of(alloc, texts)?,
        true,
        None,
    ) {
        Err(fault) => {
            assert!(rt; is_of_memory(fault));
            let warriors = warriors_of(alloc, texts)?;
            let fought = fight_rounds(alloc, &setup.params, &setup.plan, warriors, true, None)
                .ok()
                .ok_or("fates")?;
            Ok(fought.fates)
        }
        Ok(fought) => Ok(fought.fates),
    }
}

#[test]
fn fates_are_reported(rt: HostRuntime) -> Result<(), Fail> {
    let setup = setup_of(rt.alloc(), 2)?;
    let fates = fates_of_rounds(&rt, rt.alloc(), &setup, &[STAY, DEAD, IMP])?;
    assert_eq!(rt; fates.len(), 6);
    assert!(rt; fates[0].survived && !fates[1].survived && fates[2].survived);
    Ok(())
}

/// Returns the table of a league; tries again if memory runs out.
fn table_of_league(
    rt: &impl Abort,
    alloc: Global,
    setup: &Setup,
    warriors: &[Warrior],
) -> Result<Table, MatchFault>
    requires fixed { setup.now.plan.fixed ≡ None }
    requires warriors { length warriors.now ≤ 65536 }
{
    match league(alloc, setup, warriors) {
        Err(fault) => {
            assert!(rt; is_of_memory(fault));
            league(alloc, setup, warriors)
        }
        Ok(table) => Ok(table),
    }
}

fn check_sums(rt: &impl Abort, table: &Result<Table, MatchFault>, expected: [(i64, [u64; 3]); 3]) {
    match table {
        Ok(table) => assert_eq!(rt; sums(table), expected),
        Err(fault) => assert!(rt; false, "{fault}"),
    }
}

fn check_match(rt: &impl Abort, alloc: Global, warriors: &[Warrior]) -> Result<(), Fail> {
    let setup = setup_of(alloc, 3)?;
    let table = table_of_rounds(rt, alloc, &setup, warriors);
    let expected = [(12, [0, 3, 0]), (12, [0, 3, 0]), (0, [0, 0, 3])];
    check_sums(rt, &table, expected);
    drop(table);
    drop(setup);
    Ok(())
}

#[test]
fn rounds_are_fought(rt: HostRuntime) -> Result<(), Fail> {
    let warriors = warriors_of(rt.alloc(), &[IMP, STAY, DEAD])?;
    let checked = check_match(&rt, rt.alloc(), warriors.as_slice());
    drop(warriors);
    checked
}

fn check_league(rt: &impl Abort, alloc: Global, warriors: &[Warrior]) -> Result<(), Fail> {
    if warriors.len() > 65536 {
        return Err("warriors".into());
    }
    let setup = setup_of(alloc, 1)?;
    let table = table_of_league(rt, alloc, &setup, warriors);
    let expected = [(4, [1, 1, 0]), (4, [1, 1, 0]), (0, [0, 0, 2])];
    check_sums(rt, &table, expected);
    drop(table);
    drop(setup);
    Ok(())
}

#[test]
fn a_league_is_fought(rt: HostRuntime) -> Result<(), Fail> {
    let warriors = warriors_of(rt.alloc(), &[IMP, STAY, DEAD])?;
    let checked = check_league(&rt, rt.alloc(), warriors.as_slice());
    drop(warriors);
    checked
}

/// Returns the sums of the first two of some warriors against the others; tries again if memory runs out.
fn sums_of_two(
    rt: &impl Abort,
    alloc: Global,
    setup: &Setup,
    warriors: &[Warrior],
) -> Result<Vec<Sum>, MatchFault>
    requires { setup.now.plan.fixed ≡ None }
{
    let (candidates, opponents) = warriors.split_at(warriors.len().min(2));
    match population(alloc, setup, candidates, opponents) {
        Err(fault) => {
            assert!(rt; is_of_memory(fault));
            population(alloc, setup, candidates, opponents)
        }
        Ok(sums) => Ok(sums),
    }
}

/// A tie and a win, and two losses.
const OF_TWO: [Sum; 2] = [
    Sum {
        points: 4,
        wins: 1,
        ties: 1,
        losses: 0,
    },
    Sum {
        points: 0,
        wins: 0,
        ties: 0,
        losses: 2,
    },
];

fn check_population(rt: &impl Abort, alloc: Global, warriors: &[Warrior]) -> Result<(), Fail> {
    let setup = setup_of(alloc, 1)?;
    match sums_of_two(rt, alloc, &setup, warriors) {
        Ok(sums) => assert_eq!(rt; sums.as_slice(), OF_TWO.as_slice()),
        Err(fault) => assert!(rt; false, "{fault}"),
    }
    drop(setup);
    Ok(())
}

#[test]
fn a_population_is_fought(rt: HostRuntime) -> Result<(), Fail> {
    let warriors = warriors_of(rt.alloc(), &[STAY, DEAD, STAY, DEAD])?;
    let checked = check_population(&rt, rt.alloc(), warriors.as_slice());
    drop(warriors);
    checked
}
