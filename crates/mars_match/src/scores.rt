//! The points of each survivor of a round.
ghost use Rattle.std.specs.Prelude.{◌≡◌, ◌≤◌, ◌≢◌, length, IfErr};
ghost use Rattle.mars_core.specs.Limits.{max_warriors};
ghost use Rattle.mars_match.specs.Battles.{lives};
ghost use Rattle.mars_match.specs.Code.Keeping.{AreScores};
ghost use Rattle.mars_match.specs.Rounds.{round_score};

use crate::fault::MatchFault;
use mars_core::{Battle, MAX_WARRIORS};
use redcode_asm::Formula;

/// The points of each survivor, by the number of survivors, if they were computed. The item 0 is for one survivor.
pub type Scores = [Option<i64>; MAX_WARRIORS];

/// Returns the points of each survivor of a battle. They are computed once for each number of survivors.
pub fn score_round(
    formula: &Formula,
    battle: &Battle,
    scores: &mut Scores,
) -> Result<i64, MatchFault>
    requires few { length battle.now.queues ≤ max_warriors }
    requires scores { AreScores formula.now (length battle.now.queues) scores.old }
    ensures value { result ≡ round_score formula.now (lives battle.now) }
    ensures scores { AreScores formula.now (length battle.now.queues) scores.new }
    ensures no_memory { IfErr result (λ fault. fault ≢ MatchFault.OutOfMemory) }
{
    let survivors = battle.survivors();
    if survivors == 0 {
        return Ok(0);
    }
    if let Some(score) = scores[survivors - 1] {
        return Ok(score);
    }
    match formula.score(battle.warriors() as i64, survivors as i64) {
        Ok(score) => {
            scores[survivors - 1] = Some(score);
            Ok(score)
        }
        Err(fault) => Err(MatchFault::Score(fault)),
    }
}
