//! Matches and leagues.
ghost use Rattle.std.specs.Prelude.{◌≡◌, ◌≤◌, ◌⊎◌, IfErr, IfOk, OnErr, OnOk, length};
ghost use Rattle.mars_match.specs.Leagues.{max_league_warriors};
ghost use Rattle.mars_c.specs.Contests.{HoldsLeague, HoldsMatch, IsLeague, IsMatch};
ghost use Rattle.mars_c.specs.Refusals.{FailsLeague, FailsMatch, RefusesEntry, RefusesLeague, RefusesMatch};

use crate::entrants::{Entrants, enter};
use crate::faults::{CallRefusal, refused_fight};
use crate::ranges::SettingsFault;
use crate::rows::{MarsRow, give_rows};
use crate::settings::{MarsSettings, warriors_fault};
use mars_match::{Table, league, rounds};
use std::alloc::Global;

/// Maximum number of warriors of a league.
const MAX_LEAGUE_WARRIORS: usize = 65_536;

/// Returns the table of a match.
fn match_table(
    alloc: Global,
    settings: &MarsSettings,
    formula: &[u8],
    entrants: Entrants<'_>,
) -> Result<Table, CallRefusal>
    ensures table { let e = entrants.entry in IfOk result (λ table. IsMatch settings.now formula.now e.cells.now e.warriors.now table.rows.items) }
    ensures refused { let e = entrants.entry in IfErr result (λ refusal. RefusesEntry settings.now formula.now (length e.warriors.now) e.cells.now e.warriors.now refusal
        ⊎ FailsMatch settings.now formula.now e.cells.now e.warriors.now refusal) }
{
    let entry = enter(alloc, settings, formula, entrants, entrants.warriors.len())?;
    let table = rounds(alloc, &entry.setup, &entry.warriors);
    drop(entry);
    match table {
        Ok(table) => Ok(table),
        Err(fault) => Err(refused_fight(fault)),
    }
}

/// Returns the table of a league.
fn league_table(
    alloc: Global,
    settings: &MarsSettings,
    formula: &[u8],
    entrants: Entrants<'_>,
) -> Result<Table, CallRefusal>
    requires { length entrants.warriors.now ≤ max_league_warriors }
    ensures table { let e = entrants.entry in IfOk result (λ table. IsLeague settings.now formula.now e.cells.now e.warriors.now table.rows.items) }
    ensures refused { let e = entrants.entry in IfErr result (λ refusal. RefusesEntry settings.now formula.now 0 e.cells.now e.warriors.now refusal
        ⊎ FailsLeague settings.now formula.now e.cells.now e.warriors.now refusal) }
{
    // A league may not have a position: `enter` rejects each one for 0 warriors, because a position fits only two.
    let entry = enter(alloc, settings, formula, entrants, 0)?;
    let table = league(alloc, &entry.setup, &entry.warriors);
    drop(entry);
    match table {
        Ok(table) => Ok(table),
        Err(fault) => Err(refused_fight(fault)),
    }
}

/// Runs a match and writes its rows to `place`, which must have one for each warrior.
pub fn match_into(
    alloc: Global,
    settings: &MarsSettings,
    formula: &[u8],
    entrants: Entrants<'_>,
    place: &mut [MarsRow],
) -> Result<(), CallRefusal>
    ensures ok { let e = entrants.entry in OnOk result (HoldsMatch settings.now formula.now e.cells.now e.warriors.now place.new) }
    ensures err { OnErr result (place.new ≡ place.old) }
    ensures refused { let e = entrants.entry in IfErr result (RefusesMatch settings.now formula.now e.cells.now e.warriors.now (length place.old)) }
{
    if let Some(fault) = warriors_fault(entrants.warriors.len()) {
        return Err(CallRefusal::Settings(fault));
    }
    if place.len() != entrants.warriors.len() {
        return Err(CallRefusal::Settings(SettingsFault::Rows));
    }
    let table = match_table(alloc, settings, formula, entrants)?;
    match give_rows(alloc, &table.rows, place) {
        Ok(()) => Ok(()),
        Err(fault) => Err(refused_fight(fault)),
    }
}

/// Runs a league and writes its rows to `place`, which must have one for each warrior.
pub fn league_into(
    alloc: Global,
    settings: &MarsSettings,
    formula: &[u8],
    entrants: Entrants<'_>,
    place: &mut [MarsRow],
) -> Result<(), CallRefusal>
    ensures ok { let e = entrants.entry in OnOk result (HoldsLeague settings.now formula.now e.cells.now e.warriors.now place.new) }
    ensures err { OnErr result (place.new ≡ place.old) }
    ensures refused { let e = entrants.entry in IfErr result (RefusesLeague settings.now formula.now e.cells.now e.warriors.now (length place.old)) }
{
    if entrants.warriors.len() > MAX_LEAGUE_WARRIORS {
        return Err(CallRefusal::Settings(SettingsFault::Warriors));
    }
    if place.len() != entrants.warriors.len() {
        return Err(CallRefusal::Settings(SettingsFault::Rows));
    }
    let table = league_table(alloc, settings, formula, entrants)?;
    match give_rows(alloc, &table.rows, place) {
        Ok(()) => Ok(()),
        Err(fault) => Err(refused_fight(fault)),
    }
}
