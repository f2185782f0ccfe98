//! The fate of each warrior in each round of a match.
ghost use Rattle.std.specs.Prelude.{◌≡◌, ◌++◌, ◌+◌, ◌-◌, ◌%◌, ◌<◌, ◌≤◌, IfOk, IfSome, MatchResult, length, true};
ghost use Rattle.mars_core.specs.Limits.{max_warriors};
ghost use Rattle.mars_match.specs.Battles.{round_start};
ghost use Rattle.mars_match.specs.CallResults.{IsResult};
ghost use Rattle.mars_match.specs.Code.Deeds.{AreCounts, listed_at};
ghost use Rattle.mars_match.specs.Code.Lineups.{HasRoom};
ghost use Rattle.mars_match.specs.Fates.{ended, fate_of as spec_fate_of, fates, fates_from, fates_of, place_of as spec_place_of, turns_until as spec_turns_until};
ghost use Rattle.mars_match.specs.Placement.{FitsTwo};
ghost use Rattle.mars_match.specs.declared.fates.Fought.{Fought as FoughtValue};
ghost use Rattle.mars_match.specs.declared.fates.Played.{Played as PlayedValue};

use crate::counts::{Counts, count_to_end};
use crate::fault::MatchFault;
use crate::fights::{Lineup, Round, check_count, fight_round, is_alive, start_round};
use crate::setup::Plan;
use mars_cell::{Params, Warrior};
use mars_core::{Battle, Death};
use std::alloc::Global;

/// The fate of a warrior in a round.
#[derive(Clone, Copy, Debug, PartialEq, Eq)]
pub struct Fate {
    /// Whether the warrior is alive at the end of the round.
    pub survived: bool,
    /// The number of turns that all warriors had executed when the warrior died, including its last turn. If the
    /// warrior survived, the number of turns of the round.
    pub turns: u32,
    /// The address of the warrior's first cell at the start.
    pub start: u32,
    /// What the warrior did, or zeros if that was not counted.
    pub counts: Counts,
}

/// Returns the number of turns that had been executed when the warrior at `place` in the order of turns died, or `all`
/// if it is alive.
fn turns_until(deaths: &[Death], place: usize, all: u32) -> u32
    ensures { result ≡ spec_turns_until deaths.now place all }
{
    for death in deaths {
        if death.warrior as usize == place {
            return death.turns;
        }
    }
    all
}

/// Returns the place of a warrior in the order of turns, if warrior `first` has the first turn.
fn place_of(count: usize, first: usize, warrior: usize) -> usize
    requires { first ≤ count }
    ensures { result ≡ spec_place_of count first warrior }
{
    if first <= warrior {
        return warrior - first;
    }
    count - (first - warrior)
}

/// A battle that is over, and the counts of each warrior in the order of turns. There are no counts unless the match
/// counts what the warriors do.
#[derive(Drop)]
struct Played {
    battle: Box<Battle>,
    counts: Vec<Counts>,
}

/// Executes the battle of a round until it is over, and counts what its warriors do if `counting`.
///
/// Uses the memory of the battle `last`, if there is one.
fn play_round(
    alloc: Global,
    params: &Params,
    round: Round<'_>,
    last: Option<Box<Battle>>,
    counting: bool,
) -> Result<Played, MatchFault>
    requires { IfSome last (λ battle. HasRoom params.now (length round.lineup.now) battle.value) }
    ensures state { let r = round.entry in IsResult (λ (played : PlayedValue). played.battle.value) (ended params.now r.lineup.now r.starts.now r.number) result }
    ensures counts { let r = round.entry in IfOk result (λ played. AreCounts counting (round_start params.now r.lineup.now r.starts.now r.number) played.counts.items) }
    ensures room { IfOk result (λ played. HasRoom params.now (length round.entry.lineup.now) played.battle.value) }
{
    if !counting {
        return Ok(Played {
            battle: fight_round(alloc, params, round, last)?,
            counts: Vec::new(alloc),
        });
    }
    let mut battle = start_round(alloc, params, round, last)?;
    let counts = count_to_end(alloc, &mut battle)?;
    Ok(Played { battle, counts })
}

/// Returns what the warrior at `place` in the order of turns did, or zeros if that was not counted.
fn counts_at(counts: &[Counts], place: usize) -> Counts
    ensures { result ≡ listed_at counts.now place }
{
    if place < counts.len() {
        return counts[place];
    }
    Counts::none()
}

/// Returns the fate of a warrior in a battle that is over and in which warrior `first` had the first turn.
fn fate_of(played: &Played, first: usize, warrior: usize, start: u32) -> Fate
    requires first { first < length played.now.battle.value.queues }
    requires warrior { warrior < length played.now.battle.value.queues }
    ensures { result ≡ spec_fate_of played.now.battle.value (listed_at played.now.counts.items) first warrior start }
{
    let battle = &played.battle;
    let place = place_of(battle.warriors(), first, warrior);
    Fate {
        survived: is_alive(battle, first, warrior),
        turns: turns_until(battle.deaths(), place, battle.turns()),
        start,
        counts: counts_at(&played.counts, place),
    }
}

/// Appends the fates of a round, in load order.
fn append_fates(
    fates: &mut Vec<Fate>,
    played: &Played,
    first: usize,
    starts: &[u32],
) -> Result<(), MatchFault>
    requires first { first < length played.now.battle.value.queues }
    requires many { length starts.now ≡ length played.now.battle.value.queues }
    ensures { MatchResult result (λ _. fates.new.items ≡ fates.old.items ++ fates_from played.now.battle.value (listed_at played.now.counts.items) first 0 starts.now) (λ fault. fault ≡ MatchFault.OutOfMemory) }
{
    for warrior in 0..starts.len() {
        let fate = fate_of(played, first, warrior, starts[warrior]);
        fates.push(fate)?;
    }
    Ok(())
}

/// The fates of the rounds of a match, and the battle of its last round, in whose memory another one can start.
#[derive(Drop)]
pub struct Fought {
    pub fates: Vec<Fate>,
    pub last: Option<Box<Battle>>,
}

/// Returns the fates of all rounds of a match.
fn fight_lineup(
    alloc: Global,
    params: &Params,
    plan: &Plan,
    lineup: &Lineup,
    counting: bool,
    last: Option<Box<Battle>>,
) -> Result<Fought, MatchFault>
    requires some { 1 ≤ length lineup.now }
    requires few { length lineup.now ≤ max_warriors }
    requires fixed { IfSome plan.now.fixed (λ position. length lineup.now ≡ 2) }
    requires room { IfSome last (λ battle. HasRoom params.now (length lineup.now) battle.value) }
    ensures { IsResult (λ (fought : FoughtValue). fought.fates.items)
        (fates counting params.now lineup.now plan.now.fixed plan.now.rounds 0 plan.now.seed) result }
{
    let mut starts = vec![in alloc; 0u32; lineup.len()]?;
    let mut fates = Vec::new(alloc);
    let mut seed = plan.seed;
    let mut last = last;
    for number in 0..plan.rounds {
        seed = plan.place_round(params, seed, starts.as_mut_slice())?;
        let starts = starts.as_slice();
        let round = Round {
            lineup,
            starts,
            number,
        };
        let played = play_round(alloc, params, round, last, counting)?;
        append_fates(&mut fates, &played, number as usize % lineup.len(), starts)?;
        last = Some(played.battle);
    }
    Ok(Fought { fates, last })
}

/// Returns whether a battle with these parameters and this number of warriors can start in the memory of another one.
fn has_room(battle: &Battle, params: &Params, count: usize) -> bool
    ensures { result ≡ true → HasRoom params.now count battle.now }
{
    let own = battle.params();
    battle.warriors() == count
        && own.core_size() == params.core_size()
        && own.processes() == params.processes()
        && own.cycles() == params.cycles()
        && own.read_limit() == params.read_limit()
        && own.write_limit() == params.write_limit()
        && own.max_length() == params.max_length()
        && own.distance() == params.distance()
}

/// Returns the battle `last` if another one with these parameters and this number of warriors can start in its memory.
fn with_room(last: Option<Box<Battle>>, params: &Params, count: usize) -> Option<Box<Battle>>
    ensures { IfSome result (λ battle. HasRoom params.now count battle.value) }
{
    let Some(battle) = last else {
        return None;
    };
    if !has_room(&battle, params, count) {
        return None;
    }
    Some(battle)
}

/// Returns the fate of each warrior in each round of a match, in load order, one round after another.
///
/// The rounds are those of `rounds` for a setup with the same parameters and plan. If `counting`, each turn is recorded to
/// count what the warriors do, which takes several times as long.
///
/// The battles use the memory of `last`, the battle of an earlier match, if it has the same parameters and number of
/// warriors; otherwise one battle is allocated. Copies of the warriors and the fates are always allocated. If
/// `counting`, each round allocates marks for the cells of each warrior.
///
/// # Errors
///
/// Returns the first error of the warriors' number or of a round, or `OutOfMemory` if an allocation fails.
pub fn fight_rounds(
    alloc: Global,
    params: &Params,
    plan: &Plan,
    warriors: Vec<Warrior>,
    counting: bool,
    last: Option<Box<Battle>>,
) -> Result<Fought, MatchFault>
    requires fixed { FitsTwo params.now (length warriors.items) plan.now.fixed }
    ensures { IsResult (λ (fought : FoughtValue). fought.fates.items)
        (fates_of counting params.now warriors.items plan.now.fixed plan.now.rounds plan.now.seed) result }
{
    check_count(warriors.len())?;
    let lineup = Lineup::of(warriors)?;
    let last = with_room(last, params, lineup.len());
    fight_lineup(alloc, params, plan, &lineup, counting, last)
}
