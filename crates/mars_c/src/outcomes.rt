//! How each warrior fares in each round of many matches.
ghost use Rattle.std.specs.Prelude.{◌≡◌, ◌++◌, ◌≤◌, All, IfErr, IfOk, IfSome, List, None, Ok, OnErr, OnOk, length, map};
ghost use Rattle.mars_match.specs.declared.fates.Fate.{Fate as FateValue};
ghost use Rattle.mars_c.specs.Outcomes.{AreChosen, AreFought, HoldsOutcomes, IsFirstFailure, IsFought, IsLineup, IsNoLineup, IsWrongLineup, RefusesLineup, RefusesOutcomes, indices_of, plain_fate, rows_for, seeded as spec_seeded};
ghost use Rattle.mars_c.specs.Refusals.{IsOutOfRange};
ghost use Rattle.mars_c.specs.Settings.{parameters_in};
ghost use Rattle.mars_c.specs.declared.ranges.SettingsFault.TheVariants as settings_fault;
ghost use Rattle.mars_cell.specs.ParameterFaults.{checked_parameters};
ghost use Rattle.mars_core.specs.Limits.{max_warriors};

use crate::entrants::{Entrants, read_all};
use crate::faults::{CallRefusal, refused_fight};
use crate::ranges::{LineupFault, SettingsFault};
use crate::settings::{MarsSettings, make_plan, parameters};
use mars_cell::{Params, Warrior};
use mars_core::{Battle, MAX_WARRIORS};
use mars_match::{Fate, Fought, fight_rounds};
use std::alloc::Global;

/// A match of a batch: its warriors, and the seed of its first round.
#[repr(C)]
#[derive(Clone, Copy)]
pub struct MarsLineup {
    /// Seed, 1 to 2,147,483,646; 0 stands for the seed of the settings.
    pub seed: u32,
    /// Number of warriors, 1 to 16.
    pub count: u32,
    /// Indices of the warriors, from 0; those after the first `count` are not used.
    pub warrior: [u32; 16],
    /// Not 0 if what each warrior does is counted.
    pub counting: u32,
}

/// The fate of a warrior in a round.
#[repr(C)]
#[derive(Clone, Copy)]
pub struct MarsOutcome {
    /// 1 if the warrior lives at the end, else 0.
    pub survived: u32,
    /// Number of turns that all warriors had executed when the warrior died, including its last one; if it survived, of
    /// all turns of the round.
    pub turns: u32,
    /// Address of the warrior's first cell.
    pub start: u32,
    /// Number of the warrior's own turns. This and the following numbers are 0 if the lineup doesn't request them.
    pub own_turns: u32,
    /// Number of the warrior's turns that queued two processes.
    pub spawned: u32,
    /// Number of cells at which the warrior executed an instruction.
    pub executed: u32,
    /// Number of cells that the warrior wrote.
    pub written: u32,
    /// Number of cells that the warrior executed, read or wrote.
    pub touched: u32,
}

impl MarsOutcome {
    /// Returns a fate as numbers.
    fn of(fate: &Fate) -> MarsOutcome
        ensures { result ≡ plain_fate fate.now }
    {
        MarsOutcome {
            survived: if fate.survived { 1 } else { 0 },
            turns: fate.turns,
            start: fate.start,
            own_turns: fate.counts.turns,
            spawned: fate.counts.spawned,
            executed: fate.counts.executed,
            written: fate.counts.written,
            touched: fate.counts.touched,
        }
    }
}

/// Returns the settings with the seed of a lineup, unless this seed is 0.
fn seeded(settings: &MarsSettings, seed: u32) -> MarsSettings
    ensures { result ≡ spec_seeded settings.now seed }
{
    if seed == 0 {
        return *settings;
    }
    MarsSettings { seed, ..*settings }
}

/// Returns the first error of a lineup of warriors with indices below `count`, or `None` if there is none.
fn lineup_fault(lineup: &MarsLineup, count: usize) -> Option<LineupFault>
    ensures right { result ≡ None → IsLineup count lineup.now }
    ensures wrong { IfSome result (IsNoLineup count lineup.now) }
{
    if lineup.count < 1 || lineup.count as usize > MAX_WARRIORS {
        return Some(LineupFault::Count);
    }
    for place in 0..lineup.count as usize {
        if lineup.warrior[place] as usize >= count {
            return Some(LineupFault::Index);
        }
    }
    None
}

/// Checks that all lineups have warriors with indices below `count`.
fn check_lineups(lineups: &[MarsLineup], count: usize) -> Result<(), CallRefusal>
    ensures right { OnOk result (All (IsLineup count) lineups.now) }
    ensures wrong { IfErr result (IsWrongLineup count lineups.now) }
{
    for i in 0..lineups.len() {
        if let Some(fault) = lineup_fault(&lineups[i], count) {
            return Err(CallRefusal::Lineup(i, fault));
        }
    }
    Ok(())
}

/// Checks that there is a place for each warrior of each lineup in each round.
fn check_rows(
    settings: &MarsSettings,
    lineups: &[MarsLineup],
    places: usize,
) -> Result<(), CallRefusal>
    requires { All (λ lineup. lineup.count ≤ max_warriors) lineups.now }
    ensures right { OnOk result (places ≡ rows_for settings.now lineups.now) }
    ensures wrong { IfErr result (IsOutOfRange settings_fault.Rows (places ≡ rows_for settings.now lineups.now)) }
{
    let mut rest = places;
    for lineup in lineups {
        let rows = settings.rounds as usize * lineup.count as usize;
        if rows > rest {
            return Err(CallRefusal::Settings(SettingsFault::Rows));
        }
        rest -= rows;
    }
    if rest > 0 {
        return Err(CallRefusal::Settings(SettingsFault::Rows));
    }
    Ok(())
}

/// Returns copies of the warriors of a lineup.
fn choose(
    alloc: Global,
    warriors: &[Warrior],
    lineup: &MarsLineup,
) -> Result<Vec<Warrior>, CallRefusal>
    requires { IsLineup (length warriors.now) lineup.now }
    ensures chosen { IfOk result (λ chosen. AreChosen warriors.now (indices_of lineup.now) chosen.items) }
    ensures many { IfOk result (λ chosen. length chosen.items ≡ lineup.now.count) }
    ensures memory { IfErr result (λ refusal. refusal ≡ CallRefusal.OutOfMemory) }
{
    let mut chosen = Vec::new(alloc);
    for place in 0..lineup.count as usize {
        let Ok(warrior) = warriors[lineup.warrior[place] as usize].copy() else {
            return Err(CallRefusal::OutOfMemory);
        };
        let Ok(()) = chosen.push(warrior) else {
            return Err(CallRefusal::OutOfMemory);
        };
    }
    Ok(chosen)
}

/// Returns the fates of a lineup's match. Uses the memory of `last`, the battle of an earlier match, if it fits.
fn fight_lineup(
    alloc: Global,
    settings: &MarsSettings,
    params: &Params,
    warriors: &[Warrior],
    lineup: &MarsLineup,
    last: Option<Box<Battle>>,
) -> Result<Fought, CallRefusal>
    requires params { checked_parameters (parameters_in settings.now) ≡ Ok params.now }
    requires lineup { IsLineup (length warriors.now) lineup.now }
    ensures fought { IfOk result (λ fought. IsFought settings.now warriors.now lineup.now fought.fates.items) }
    ensures refused { IfErr result (RefusesLineup settings.now warriors.now lineup.now) }
{
    let count = lineup.count as usize;
    let plan = match make_plan(&seeded(settings, lineup.seed), params, count) {
        Ok(plan) => plan,
        Err(fault) => return Err(CallRefusal::Settings(fault)),
    };
    let chosen = choose(alloc, warriors, lineup)?;
    match fight_rounds(alloc, params, &plan, chosen, lineup.counting != 0, last) {
        Ok(fought) => Ok(fought),
        Err(fault) => Err(refused_fight(fault)),
    }
}

/// Appends fates as numbers.
fn append(outcomes: &mut Vec<MarsOutcome>, fates: &[Fate]) -> Result<(), CallRefusal>
    ensures appended { OnOk result (outcomes.new.items ≡ outcomes.old.items ++ map plain_fate fates.now) }
    ensures memory { IfErr result (λ refusal. refusal ≡ CallRefusal.OutOfMemory) }
{
    for fate in fates {
        if outcomes.push(MarsOutcome::of(fate)).is_err() {
            return Err(CallRefusal::OutOfMemory);
        }
    }
    Ok(())
}

/// Returns the fates of all matches as numbers, one match after another.
fn fight_all(
    alloc: Global,
    settings: &MarsSettings,
    params: &Params,
    warriors: &[Warrior],
    lineups: &[MarsLineup],
) -> Result<Vec<MarsOutcome>, CallRefusal>
    requires params { checked_parameters (parameters_in settings.now) ≡ Ok params.now }
    requires lineups { All (IsLineup (length warriors.now)) lineups.now }
    ensures fought { IfOk result (λ outcomes. (fates : List FateValue) × AreFought settings.now warriors.now lineups.now fates × (outcomes.items ≡ map plain_fate fates)) }
    ensures refused { IfErr result (IsFirstFailure settings.now warriors.now lineups.now) }
{
    let mut outcomes = Vec::new(alloc);
    let mut last = None;
    for i in 0..lineups.len() {
        let fought = fight_lineup(alloc, settings, params, warriors, &lineups[i], last)?;
        append(&mut outcomes, &fought.fates)?;
        last = fought.last;
    }
    Ok(outcomes)
}

/// Runs the matches of all lineups and writes their fates to `places`.
pub fn outcomes_into(
    alloc: Global,
    settings: &MarsSettings,
    entrants: Entrants<'_>,
    lineups: &[MarsLineup],
    places: &mut [MarsOutcome],
) -> Result<(), CallRefusal>
    ensures done { let e = entrants.entry in OnOk result (HoldsOutcomes settings.now e.cells.now e.warriors.now lineups.now places.new) }
    ensures kept { OnErr result (places.new ≡ places.old) }
    ensures refused { let e = entrants.entry in IfErr result (RefusesOutcomes settings.now e.cells.now e.warriors.now lineups.now (length places.old)) }
{
    check_lineups(lineups, entrants.warriors.len())?;
    check_rows(settings, lineups, places.len())?;
    let params = match parameters(settings) {
        Ok(params) => params,
        Err(fault) => return Err(CallRefusal::Parameters(fault)),
    };
    let warriors = read_all(alloc, &params, entrants)?;
    let outcomes = fight_all(alloc, settings, &params, &warriors, lineups)?;
    if outcomes.len() != places.len() {
        // There is a place for each fate, so this is never reached, and any error would do.
        return Err(CallRefusal::OutOfMemory);
    }
    places.copy_from_slice(&outcomes);
    Ok(())
}
