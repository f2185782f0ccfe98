//! Matches: points, wins, ties and losses.
ghost use Rattle.std.specs.Prelude.{◌-◌, Some};

use super::{
    BY_DEFAULT, DEAD, ONE_ROUND, Outcome, Plans, STAY, TOO_MANY, check_outcome, held, imp_and_stay,
    one_cells, sizes,
};
use mars_cell::{Params, Warrior};
use mars_core::BattleFault;
use mars_match::{MatchFault, PlaceFault};
use redcode_text::ExprFault;
use std::alloc::Global;
use std::process::Abort;
use std::test::Fail;

fn check_match(
    rt: &impl Abort,
    alloc: Global,
    params: &Params,
    warriors: &[Warrior],
    (plan, expected): (Plans, Outcome),
) {
    let table = held(alloc, params, warriors, plan);
    check_outcome(rt, alloc, &table, expected);
    drop(table);
}

#[test]
fn several_matches(rt: HostRuntime) -> Result<(), Fail> {
    let params = sizes(8000, 100)?;
    let warriors = imp_and_stay(rt.alloc())?;
    let expected =
        "       1      0      1      0  Imp by Dewdney\n       1      0      1      0  Stay by Anonymous\n";
    let one = (ONE_ROUND, Ok(expected));
    check_match(&rt, rt.alloc(), &params, warriors.as_slice(), one);
    drop(warriors);
    Ok(())
}

/// Warriors of one cell each, and the results of one round.
const DEFAULT_SCORES: &[(&[&str], &str)] = &[
    (
        &[STAY, DEAD],
        "       3      1      0      0  Test by \n       0      0      0      1  Test by \n",
    ),
    (
        &[STAY, STAY],
        "       1      0      1      0  Test by \n       1      0      1      0  Test by \n",
    ),
    (
        &[STAY, DEAD, DEAD],
        "       8      1      0      0  Test by \n       0      0      0      1  Test by \n       0      0      0      1  Test by \n",
    ),
    (
        &[STAY, STAY, DEAD],
        "       4      0      1      0  Test by \n       4      0      1      0  Test by \n       0      0      0      1  Test by \n",
    ),
    (
        &[STAY, STAY, STAY],
        "       2      0      1      0  Test by \n       2      0      1      0  Test by \n       2      0      1      0  Test by \n",
    ),
];

/// Checks the results of one round of warriors of one cell each.
fn check_score(
    rt: &impl Abort,
    alloc: Global,
    texts: &[&str],
    lines: &'static str,
) -> Result<(), Fail> {
    let params = sizes(8000, 100)?;
    let warriors = one_cells(alloc, 8000, texts)?;
    let one = ((1, 7, None, BY_DEFAULT), Ok(lines));
    check_match(rt, alloc, &params, warriors.as_slice(), one);
    drop(warriors);
    Ok(())
}

#[test]
fn default_scores(rt: HostRuntime) -> Result<(), Fail> {
    for (texts, lines) in DEFAULT_SCORES {
        check_score(&rt, rt.alloc(), texts, lines)?;
    }
    Ok(())
}

/// A win gives six eighths of 2^63 points, a tie minus three eighths.
const OPPOSITE: &str = "3458764513820540928*(5-3*S)";

#[test]
fn exact_sums(rt: HostRuntime) -> Result<(), Fail> {
    // In a battle of one cycle, the first warrior kills the second one only if it has the first turn. Its points don't
    // fit 64 bits after three rounds, but do after four.
    let params = Params::new(8, 8, 1, 8, 8, 1, 1).ok().ok_or("parameters")?;
    let duel = one_cells(rt.alloc(), 8, &["MOV.I $1, $4", STAY])?;
    let expected =
        "6917529027641081856      2      2      0  Test by \n-6917529027641081856      0      2      2  Test by \n";
    let range = Err(MatchFault::Score(ExprFault::Range));
    let four = ((4, 0, Some(4), OPPOSITE), Ok(expected));
    let three = ((3, 0, Some(4), OPPOSITE), range);
    check_match(&rt, rt.alloc(), &params, duel.as_slice(), four);
    check_match(&rt, rt.alloc(), &params, duel.as_slice(), three);
    drop(duel);
    Ok(())
}

/// The number of warriors, their plan, and the error of their match.
const REFUSED_MATCHES: &[(usize, Plans, MatchFault)] = &[
    (
        0,
        (0, 1, None, BY_DEFAULT),
        MatchFault::Battle(BattleFault::NoWarrior),
    ),
    (
        17,
        (0, 0, None, BY_DEFAULT),
        MatchFault::Battle(BattleFault::TooMany),
    ),
    (
        2,
        (1, 0, None, BY_DEFAULT),
        MatchFault::Place(PlaceFault::BadSeed),
    ),
    (
        2,
        (1, 1, None, "1/(S-2)"),
        MatchFault::Score(ExprFault::DivideByZero),
    ),
    (
        1,
        (2, 1, None, "9223372036854775807"),
        MatchFault::Score(ExprFault::Range),
    ),
    (
        2,
        (3, 1, None, "9223372036854775807+S"),
        MatchFault::Score(ExprFault::Range),
    ),
];

/// Checks that each match of the first few of these warriors is an error.
fn check_refused_matches(rt: &impl Abort, alloc: Global, all: &[Warrior]) -> Result<(), Fail> {
    let params = Params::new(1700, 8, 1, 8, 8, 1, 100)
        .ok()
        .ok_or("parameters")?;
    for (count, plan, fault) in REFUSED_MATCHES {
        if *count > all.len() {
            return Err("count".into());
        }
        let refused = (*plan, Err(*fault));
        check_match(rt, alloc, &params, &all[..*count], refused);
    }
    Ok(())
}

#[test]
fn refused_matches(rt: HostRuntime) -> Result<(), Fail> {
    let all = one_cells(rt.alloc(), 1700, &TOO_MANY)?;
    let checked = check_refused_matches(&rt, rt.alloc(), all.as_slice());
    drop(all);
    checked
}
