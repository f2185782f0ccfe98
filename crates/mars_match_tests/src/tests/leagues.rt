//! Leagues: every pair once.
ghost use Rattle.std.specs.Prelude.{◌-◌, Some};

use super::{
    BY_DEFAULT, DEAD, ONE_ROUND, Outcome, Plans, STAY, check_outcome, fits_two, imp_and_stay,
    one_cell, one_cells, setup_of, sizes,
};
use mars_cell::{Params, Warrior};
use mars_match::{MatchFault, PlaceFault, Table, league};
use redcode_text::ExprFault;
use std::alloc::Global;
use std::process::Abort;
use std::test::Fail;

/// Runs a league and returns its table, or its error.
fn league_held(
    alloc: Global,
    params: &Params,
    warriors: &[Warrior],
    plans: Plans,
) -> Option<Result<Table, MatchFault>> {
    if warriors.len() > 65536 || !fits_two(params, warriors.len(), plans.2) {
        return None;
    }
    let setup = setup_of(alloc, params, plans)?;
    let table = league(alloc, &setup, warriors);
    drop(setup);
    Some(table)
}

fn check_league(
    rt: &impl Abort,
    alloc: Global,
    warriors: &[Warrior],
    plan: Plans,
    expected: Outcome,
) -> Result<(), Fail> {
    let params = sizes(8000, 100)?;
    let table = league_held(alloc, &params, warriors, plan);
    check_outcome(rt, alloc, &table, expected);
    drop(table);
    Ok(())
}

#[test]
fn several_leagues(rt: HostRuntime) -> Result<(), Fail> {
    let mut warriors = imp_and_stay(rt.alloc())?;
    warriors.push(one_cell(rt.alloc(), "Dead", "Anonymous", 8000, DEAD)?)?;
    let lines =
        "       4      1      1      0  Imp by Dewdney\n       4      1      1      0  Stay by Anonymous\n       0      0      0      2  Dead by Anonymous\n";
    let checked = check_league(&rt, rt.alloc(), warriors.as_slice(), ONE_ROUND, Ok(lines));
    drop(warriors);
    checked
}

/// A league of fewer than two warriors has no match, so even an invalid seed is no error.
#[test]
fn leagues_without_a_pair(rt: HostRuntime) -> Result<(), Fail> {
    let plan = (1, 0, None, BY_DEFAULT);
    check_league(&rt, rt.alloc(), &[], plan, Ok(""))?;
    let alone = one_cells(rt.alloc(), 8000, &[STAY])?;
    let line = "       0      0      0      0  Test by \n";
    let checked = check_league(&rt, rt.alloc(), alone.as_slice(), plan, Ok(line));
    drop(alone);
    checked
}

/// Positions of the second warrior, and the results of a league of two.
const POSITIONS: &[(Option<u32>, &str)] = &[
    (
        Some(200),
        "       3      1      0      0  Test by \n       0      0      0      1  Test by \n",
    ),
    (
        Some(201),
        "       1      0      1      0  Test by \n       1      0      1      0  Test by \n",
    ),
    (
        None,
        "       1      0      1      0  Test by \n       1      0      1      0  Test by \n",
    ),
];

fn check_positions(rt: &impl Abort, alloc: Global, both: &[Warrior]) -> Result<(), Fail> {
    for (fixed, lines) in POSITIONS {
        check_league(rt, alloc, both, (1, 1, *fixed, BY_DEFAULT), Ok(lines))?;
    }
    Ok(())
}

#[test]
fn a_league_of_two_at_a_fixed_position(rt: HostRuntime) -> Result<(), Fail> {
    // If the second warrior starts 200 cells after the first one, the first one decrements the number by which the
    // second one jumps.
    let both = one_cells(rt.alloc(), 8000, &["JMP.B $0, <200", "JMP.B @0, $0"])?;
    let checked = check_positions(&rt, rt.alloc(), both.as_slice());
    drop(both);
    checked
}

/// Checks the result of a league of warriors of one cell each.
fn check_league_of(
    rt: &impl Abort,
    alloc: Global,
    texts: &[&str],
    plan: Plans,
    expected: Outcome,
) -> Result<(), Fail> {
    let warriors = one_cells(alloc, 8000, texts)?;
    let checked = check_league(rt, alloc, warriors.as_slice(), plan, expected);
    drop(warriors);
    checked
}

#[test]
fn sums_of_leagues(rt: HostRuntime) -> Result<(), Fail> {
    // The formula gives the only survivor of a pair the maximum number, and two survivors its negative. The first
    // warrior's sum doesn't fit 64 bits after two matches, and is zero in the end. If both warriors of a pair would
    // die, the warrior with the second turn survives.
    let plan = (1, 1, None, "9223372036854775807*(3-2*S)");
    let expected =
        "       0      2      2      0  Test by \n       0      0      0      4  Test by \n9223372036854775807      1      0      3  Test by \n       0      2      2      0  Test by \n       0      2      2      0  Test by \n";
    let five: [&str; 5] = [STAY, DEAD, DEAD, STAY, STAY];
    check_league_of(&rt, rt.alloc(), &five, plan, Ok(expected))?;
    let range = Err(MatchFault::Score(ExprFault::Range));
    check_league_of(&rt, rt.alloc(), &[STAY, DEAD, DEAD], plan, range)
}

/// The formula divides by zero if both warriors survive. If one is the only survivor of both rounds, its points don't
/// fit. If both would die, each survives one round.
const NEITHER: &str = "9223372036854775807/(2-S)";

const REFUSED_LEAGUES: &[(&[&str], u32, MatchFault)] = &[
    (
        &[DEAD, DEAD, STAY, STAY],
        1,
        MatchFault::Score(ExprFault::Range),
    ),
    (
        &[STAY, STAY, DEAD, DEAD],
        1,
        MatchFault::Score(ExprFault::DivideByZero),
    ),
    (
        &[DEAD, STAY, STAY, DEAD],
        1,
        MatchFault::Score(ExprFault::Range),
    ),
    (
        &[STAY, STAY, DEAD, DEAD],
        0,
        MatchFault::Place(PlaceFault::BadSeed),
    ),
];

#[test]
fn refused_leagues(rt: HostRuntime) -> Result<(), Fail> {
    for (texts, seed, fault) in REFUSED_LEAGUES {
        check_league_of(
            &rt,
            rt.alloc(),
            texts,
            (2, *seed, None, NEITHER),
            Err(*fault),
        )?;
    }
    Ok(())
}
