//! Matches of several rounds, and leagues, in which every pair of warriors plays a match.
ghost use Rattle.std.specs.Prelude.{◌≡◌, ℕ, ◌+◌, ◌%◌, ◌<◌, ◌≤◌, All, length, ℤ, ◌-◌, Some, None, Ok, Err, IfSome, IfOk, IfErr, ◌≢◌, MatchOption, true, false, MatchResult, Vec, replicate, ◌*◌, drop, [], ◌∷◌, Box};
ghost use Rattle.mars_core.specs.State.{State};
ghost use Rattle.mars_cell.specs.Warriors.{WarriorValue};
ghost use Rattle.mars_match.specs.CallResults.{IsResult};
ghost use Rattle.mars_match.specs.Battles.{count_fault};
ghost use Rattle.mars_match.specs.Code.Keeping.{AreScores, IsKept};
ghost use Rattle.mars_match.specs.Code.Lineups.{HasRoom};
ghost use Rattle.mars_match.specs.Placement.{FitsTwo};
ghost use Rattle.mars_match.specs.Rounds.{round_outcome, fits_in_64, checked_rows, table_of};
ghost use Rattle.mars_match.specs.declared.setup.Setup.{Setup as SetupValue};
ghost use Rattle.mars_match.specs.declared.table.Table.{Table};
ghost use Rattle.mars_match.specs.Tables.{RowValue};
ghost use Rattle.mars_match.specs.Code.Tallies.{no_rounds as spec_no_rounds, max_rounds_before, max_rounds, max_row_rounds, outcome_by, tallied, IsOf, row_with, rows_with};
ghost use Rattle.std.specs.Global.{Global};
ghost use Rattle.mars_core.specs.Limits.{max_warriors};
ghost use Rattle.mars_match.specs.Leagues.{all_pairs, league_of, max_league_warriors};
ghost use Rattle.mars_match.specs.Code.LeagueSteps.{joined as spec_joined, pairs_of_first, after_matches};
ghost use Rattle.mars_match.specs.declared.table.Tally.{Tally};

use crate::fault::MatchFault;
use crate::fights::{Lineup, Round, check_count, fight_round};
use crate::scores::{Scores, score_round};
use crate::setup::Setup;
use crate::table::{Row, Sum, Table, Tally, add_round, no_rounds};
use mars_cell::Warrior;
use mars_core::{Battle, MAX_WARRIORS};
use redcode_text::ExprFault;
use std::alloc::Global;

/// Returns `count` tallies of no rounds.
pub fn first_tallies(alloc: Global, count: usize) -> Result<Vec<Tally>, MatchFault>
    ensures { MatchResult result (λ tallies. tallies.items ≡ replicate count spec_no_rounds) (λ fault. fault ≡ MatchFault.OutOfMemory) }
{
    let mut tallies = Vec::with_capacity(alloc, count)?;
    for _warrior in 0..count {
        tallies.push(no_rounds())?;
    }
    Ok(tallies)
}

/// Returns the points as a 64-bit number, if they fit.
pub fn fitting(points: i128) -> Option<i64>
    ensures { MatchOption result (fits_in_64 points ≡ false) (λ same. (fits_in_64 points ≡ true) × (same ≡ points)) }
{
    i64::try_from(points).ok()
}

/// Returns the row of a warrior with its tally, if its points fit 64 bits.
fn row_of(warrior: &Warrior, tally: Tally) -> Result<Row, MatchFault>
    ensures { MatchResult result (λ row. (fits_in_64 tally.points ≡ true) × (row ≡ row_with warrior.now tally))
        (λ fault. (fault ≡ MatchFault.Score ExprFault.Range) × (fits_in_64 tally.points ≡ false)) }
{
    let Some(points) = fitting(tally.points) else {
        return Err(MatchFault::Score(ExprFault::Range));
    };
    let sum = Sum {
        points,
        wins: tally.wins,
        ties: tally.ties,
        losses: tally.losses,
    };
    Ok(Row::new(warrior.name(), warrior.author(), sum))
}

/// Returns the row of each warrior with its tally, if all points fit 64 bits.
pub fn rows_of(
    alloc: Global,
    warriors: &[Warrior],
    tallies: &[Tally],
) -> Result<Vec<Row>, MatchFault>
    requires { length tallies.now ≡ length warriors.now }
    ensures { IsResult (λ (rows : Vec RowValue Global). rows.items) (checked_rows (rows_with warriors.now tallies.now)) result }
{
    let mut rows = Vec::with_capacity(alloc, warriors.len())?;
    for i in 0..warriors.len() {
        let row = row_of(&warriors[i], tallies[i])?;
        rows.push(row)?;
    }
    Ok(rows)
}

/// Returns the sum of a warrior's tally of earlier matches of a league and its tally of one more match.
fn joined(tally: Tally, more: Tally) -> Tally
    requires before { IsOf max_rounds_before tally }
    requires one { IsOf max_rounds more }
    ensures { result ≡ spec_joined tally more }
{
    Tally {
        points: tally.points + more.points,
        wins: tally.wins + more.wins,
        ties: tally.ties + more.ties,
        losses: tally.losses + more.losses,
    }
}

/// Checks that the points of a tally fit 64 bits.
fn check_points(tally: Tally) -> Result<(), MatchFault>
    ensures { MatchResult result (λ _. fits_in_64 tally.points ≡ true)
        (λ fault. (fault ≡ MatchFault.Score ExprFault.Range) × (fits_in_64 tally.points ≡ false)) }
{
    if i64::try_from(tally.points).is_err() {
        return Err(MatchFault::Score(ExprFault::Range));
    }
    Ok(())
}

/// The matches of one call: the allocator, and what each match leaves to the next one.
#[derive(Drop)]
pub struct Matches {
    pub alloc: Global,
    /// A battle in whose memory another one with the same number of warriors can start. It is boxed, so that passing it
    /// from round to round doesn't copy it.
    pub last: Option<Box<Battle>>,
    pub scores: Scores,
}

impl Matches {
    /// Returns the state before the first match.
    pub fn new(alloc: Global) -> Matches
        ensures { (setup : SetupValue) (count : ℕ) → IsKept setup count result }
    {
        Matches {
            alloc,
            last: None,
            scores: [None; MAX_WARRIORS],
        }
    }

    /// Executes the battle of a round until it is over, and returns it with the points of each survivor. Doesn't
    /// allocate if an earlier round left its battle in `last`.
    fn play_round(
        &mut self,
        setup: &Setup,
        round: Round<'_>,
    ) -> Result<(Box<Battle>, i64), MatchFault>
        requires kept { IsKept setup.now (length round.lineup.now) self.old }
        ensures outcome { let r = round.entry in IsResult (λ (played : Box State Global × ℤ). outcome_by (r.number % length r.lineup.now) played.0.value played.1)
            (round_outcome setup.now.params r.lineup.now setup.now.formula r.starts.now r.number) result }
        ensures room { IfOk result (λ played. HasRoom setup.now.params (length round.entry.lineup.now) played.0.value) }
        ensures scores { IfOk result (λ _. AreScores setup.now.formula (length round.entry.lineup.now) self.new.scores) }
        ensures no_memory { IfSome self.old.last (λ _. IfErr result (λ fault. fault ≢ MatchFault.OutOfMemory)) }
    {
        let battle = fight_round(self.alloc, &setup.params, round, self.last.take())?;
        let score = score_round(&setup.formula, &battle, &mut self.scores)?;
        Ok((battle, score))
    }

    /// Plays the rounds of a match, and adds each round to the tallies.
    fn play_rounds(
        &mut self,
        setup: &Setup,
        lineup: &Lineup,
        tallies: &mut [Tally],
    ) -> Result<(), MatchFault>
        requires some { 1 ≤ length lineup.now }
        requires few { length lineup.now ≤ max_warriors }
        requires fixed { IfSome setup.now.plan.fixed (λ position. length lineup.now ≡ 2) }
        requires many { length tallies.old ≡ length lineup.now }
        requires fresh { All (IsOf 0) tallies.old }
        requires kept { IsKept setup.now (length lineup.now) self.old }
        ensures sums { let plan = setup.now.plan in IsResult (λ _. tallies.new)
            (tallied setup.now.params lineup.now setup.now.formula plan.fixed plan.rounds 0 plan.seed tallies.old) result }
        ensures bounds { IfOk result (λ _. All (IsOf max_rounds) tallies.new) }
        ensures kept { IfOk result (λ _. IsKept setup.now (length lineup.now) self.new) }
    {
        let mut starts = vec![in self.alloc; 0u32; lineup.len()]?;
        let mut seed = setup.plan.seed;
        for number in 0..setup.plan.rounds {
            seed = setup
                .plan
                .place_round(&setup.params, seed, starts.as_mut_slice())?;
            let starts = starts.as_slice();
            let round = Round {
                lineup,
                starts,
                number,
            };
            let (battle, score) = self.play_round(setup, round)?;
            add_round(tallies, &battle, number, score);
            self.last = Some(battle);
        }
        Ok(())
    }

    /// Plays the match of the two warriors of a lineup, and returns their tallies.
    pub fn play_pair(
        &mut self,
        setup: &Setup,
        lineup: &Lineup,
    ) -> Result<(Tally, Tally), MatchFault>
        requires two { length lineup.now ≡ 2 }
        requires kept { IsKept setup.now (length lineup.now) self.old }
        ensures table { let plan = setup.now.plan in (first second : WarriorValue) → lineup.now ≡ first ∷ second ∷ []
            → IsResult (λ (both : Tally × Tally). row_with first both.0 ∷ row_with second both.1 ∷ [])
            (table_of setup.now.params (first ∷ second ∷ []) setup.now.formula plan.fixed plan.rounds plan.seed) result }
        ensures bounds { IfOk result (λ both. IsOf max_rounds both.0 × IsOf max_rounds both.1) }
        ensures points { IfOk result (λ both. fits_in_64 both.0.points ≡ true) }
        ensures kept { IfOk result (λ _. IsKept setup.now (length lineup.now) self.new) }
    {
        let mut tallies = [no_rounds(), no_rounds()];
        self.play_rounds(setup, lineup, &mut tallies)?;
        check_points(tallies[0])?;
        check_points(tallies[1])?;
        Ok((tallies[0], tallies[1]))
    }

    /// Plays the matches of warrior `i` with each warrior after it, and adds them to the tallies.
    fn play_others(
        &mut self,
        setup: &Setup,
        warriors: &[Warrior],
        i: usize,
        tallies: &mut [Tally],
    ) -> Result<(), MatchFault>
        requires few { length warriors.now ≤ max_league_warriors }
        requires inside { i < length warriors.now }
        requires many { length tallies.old ≡ length warriors.now }
        requires bounds { All (IsOf (i * max_row_rounds)) tallies.old }
        requires kept { IsKept setup.now 2 self.old }
        ensures sums { let plan = setup.now.plan in IsResult (λ _. tallies.new)
            (after_matches setup.now.params setup.now.formula plan.fixed plan.rounds plan.seed (pairs_of_first i (drop i warriors.now)) tallies.old) result }
        ensures bounds { IfOk result (λ _. All (IsOf ((i + 1) * max_row_rounds)) tallies.new) }
        ensures kept { IfOk result (λ _. IsKept setup.now 2 self.new) }
    {
        let mut lineup = Lineup::twice(self.alloc, &warriors[i])?;
        for j in i + 1..warriors.len() {
            lineup.replace_second(&warriors[j])?;
            let (one, other) = self.play_pair(setup, &lineup)?;
            tallies[i] = joined(tallies[i], one);
            tallies[j] = joined(tallies[j], other);
        }
        Ok(())
    }

    /// Plays the matches of all pairs, and adds them to the tallies.
    fn play_all(
        &mut self,
        setup: &Setup,
        warriors: &[Warrior],
        tallies: &mut [Tally],
    ) -> Result<(), MatchFault>
        requires few { length warriors.now ≤ max_league_warriors }
        requires many { length tallies.old ≡ length warriors.now }
        requires bounds { All (IsOf 0) tallies.old }
        requires kept { IsKept setup.now 2 self.old }
        ensures { let plan = setup.now.plan in IsResult (λ _. tallies.new)
            (after_matches setup.now.params setup.now.formula plan.fixed plan.rounds plan.seed (all_pairs 0 warriors.now) tallies.old) result }
    {
        for i in 0..warriors.len() {
            self.play_others(setup, warriors, i, tallies)?;
        }
        Ok(())
    }
}

/// Runs a match and returns its table.
///
/// Each round draws its starting positions from the seed that the previous round left. The first turn passes to the
/// next warrior in load order from round to round. Allocates copies of the warriors, one battle for all rounds, and the
/// table.
///
/// # Errors
///
/// Returns the error of the number of warriors, then the first error of a round, then an error if a warrior's points
/// don't fit 64 bits. `OutOfMemory` is returned if an allocation fails.
pub fn rounds(alloc: Global, setup: &Setup, warriors: &[Warrior]) -> Result<Table, MatchFault>
    requires fixed { FitsTwo setup.now.params (length warriors.now) setup.now.plan.fixed }
    ensures count { IfSome (count_fault (length warriors.now)) (λ fault. result ≡ Err (MatchFault.Battle fault)) }
    ensures table { let plan = setup.now.plan in IsResult (λ (table : Table). table.rows.items)
        (table_of setup.now.params warriors.now setup.now.formula plan.fixed plan.rounds plan.seed) result }
{
    check_count(warriors.len())?;
    let lineup = Lineup::new(alloc, warriors)?;
    let mut tallies = first_tallies(alloc, warriors.len())?;
    let mut matches = Matches::new(alloc);
    matches.play_rounds(setup, &lineup, tallies.as_mut_slice())?;
    let rows = rows_of(alloc, warriors, tallies.as_slice())?;
    Ok(Table { rows })
}

/// Runs a league and returns its table: every pair of warriors plays a match of the plan's rounds.
///
/// The pairs are in load order of the first warrior, then of the second one, and the first warrior of a pair is the
/// earlier one in load order. Each match begins with the plan's seed. At most 65,536 warriors are allowed; fewer than two
/// play no match. A plan with a fixed position requires two warriors. Allocates memory for one match at a time, a tally
/// for each warrior, and the table.
///
/// # Errors
///
/// Returns the first error of a match, or an error if a warrior's points don't fit 64 bits at the end of a match or of
/// the league. `OutOfMemory` is returned if an allocation fails.
pub fn league(alloc: Global, setup: &Setup, warriors: &[Warrior]) -> Result<Table, MatchFault>
    requires few { length warriors.now ≤ max_league_warriors }
    requires fixed { FitsTwo setup.now.params (length warriors.now) setup.now.plan.fixed }
    ensures table { let plan = setup.now.plan in IsResult (λ (table : Table). table.rows.items)
        (league_of setup.now.params warriors.now setup.now.formula plan.fixed plan.rounds plan.seed) result }
{
    let mut tallies = first_tallies(alloc, warriors.len())?;
    let mut matches = Matches::new(alloc);
    matches.play_all(setup, warriors, tallies.as_mut_slice())?;
    let rows = rows_of(alloc, warriors, tallies.as_slice())?;
    Ok(Table { rows })
}
