//! Populations, in which each candidate plays a match with each opponent.
ghost use Rattle.std.specs.Prelude.{◌≡◌, ◌+◌, ◌<◌, ◌^◌, IfOk, MatchOption, Vec, false, length, true, vec_len};
ghost use Rattle.std.specs.Global.{Global};
ghost use Rattle.mars_match.specs.CallResults.{IsResult};
ghost use Rattle.mars_match.specs.Code.Keeping.{IsKept};
ghost use Rattle.mars_match.specs.Code.Tallies.{IsOf, IsSumOf, max_rounds, summed};
ghost use Rattle.mars_match.specs.Placement.{FitsTwo};
ghost use Rattle.mars_match.specs.Populations.{candidate_sum, fits, no_matches as spec_no_matches, population_of};
ghost use Rattle.mars_match.specs.Rounds.{fits_in_64};
ghost use Rattle.mars_match.specs.declared.table.Sum.{Sum as SumNumbers};

use crate::fault::MatchFault;
use crate::fights::Lineup;
use crate::matches::{Matches, fitting};
use crate::setup::Setup;
use crate::table::{Sum, Tally};
use mars_cell::Warrior;
use redcode_text::ExprFault;
use std::alloc::Global;
use std::marker::Model;

/// The results of a candidate in the matches so far. The numbers have 128 bits, so that they are exact for any number
/// of opponents that a slice can have.
#[derive(Drop)]
struct Total {
    points: i128,
    wins: u128,
    ties: u128,
    losses: u128,
}

impl Model for Total {
    ghost use Rattle.mars_match.specs.declared.table.Sum.{Sum};

    ghost Value = { Sum };

    ghost view = { λ t. record { points = t.points; wins = t.wins; ties = t.ties; losses = t.losses } };
}

/// Returns the total of no matches.
fn no_matches() -> Total
    ensures sum { result ≡ spec_no_matches }
    ensures bounds { IsSumOf 0 result }
{
    Total {
        points: 0,
        wins: 0,
        ties: 0,
        losses: 0,
    }
}

/// Returns the sum of the total of `matches` matches and the tally of one more match.
fn added(total: Total, matches: usize, tally: Tally) -> Total
    requires before { IsSumOf matches total }
    requires few { matches + 1 < 2 ^ 64 }
    requires rounds { IsOf max_rounds tally }
    requires points { fits_in_64 tally.points ≡ true }
    ensures sum { result ≡ summed total tally }
    ensures bounds { IsSumOf (matches + 1) result }
{
    Total {
        points: total.points + tally.points,
        wins: total.wins + u128::from(tally.wins),
        ties: total.ties + u128::from(tally.ties),
        losses: total.losses + u128::from(tally.losses),
    }
}

/// Returns the sum of all matches, if its numbers fit 64 bits.
fn fitting_sum(total: Total) -> Option<Sum>
    ensures { MatchOption result (fits total ≡ false) (λ sum. (fits total ≡ true) × (sum ≡ total)) }
{
    Some(Sum {
        points: fitting(total.points)?,
        wins: u64::try_from(total.wins).ok()?,
        ties: u64::try_from(total.ties).ok()?,
        losses: u64::try_from(total.losses).ok()?,
    })
}

impl Matches {
    /// Plays the matches of a candidate with the opponents, and returns its sum.
    fn sum_of(
        &mut self,
        setup: &Setup,
        candidate: &Warrior,
        opponents: &[Warrior],
    ) -> Result<Sum, MatchFault>
        requires kept { IsKept setup.now 2 self.old }
        ensures sum { let plan = setup.now.plan in IsResult (λ (sum : SumNumbers). sum)
            (candidate_sum setup.now.params setup.now.formula plan.fixed plan.rounds plan.seed opponents.now candidate.now) result }
        ensures kept { IfOk result (λ _. IsKept setup.now 2 self.new) }
    {
        let mut lineup = Lineup::twice(self.alloc, candidate)?;
        let mut total = no_matches();
        for (i, opponent) in opponents.iter().enumerate() {
            lineup.replace_second(opponent)?;
            let (own, _others) = self.play_pair(setup, &lineup)?;
            total = added(total, i, own);
        }
        match fitting_sum(total) {
            Some(sum) => Ok(sum),
            None => Err(MatchFault::Score(ExprFault::Range)),
        }
    }
}

/// Plays a match of each candidate with each opponent, and returns the sum of each candidate's results.
///
/// Each match has the plan's rounds and begins with the plan's seed. The candidate is the first warrior, and a fixed
/// position is that of the opponent. Allocates memory for one match at a time, and a sum for each candidate.
///
/// # Errors
///
/// Returns the error of the first candidate that has one: the first error of its matches, or an error if its whole sum
/// doesn't fit 64 bits. `OutOfMemory` is returned if an allocation fails.
pub fn population(
    alloc: Global,
    setup: &Setup,
    candidates: &[Warrior],
    opponents: &[Warrior],
) -> Result<Vec<Sum>, MatchFault>
    requires fixed { FitsTwo setup.now.params 2 setup.now.plan.fixed }
    ensures many { IfOk result (λ sums. vec_len sums ≡ length candidates.now) }
    ensures sums { let plan = setup.now.plan in IsResult (λ (sums : Vec SumNumbers Global). sums.items)
        (population_of setup.now.params setup.now.formula plan.fixed plan.rounds plan.seed opponents.now candidates.now) result }
{
    let mut sums = Vec::with_capacity(alloc, candidates.len())?;
    let mut matches = Matches::new(alloc);
    for candidate in candidates {
        let sum = matches.sum_of(setup, candidate, opponents)?;
        sums.push(sum)?;
    }
    Ok(sums)
}
