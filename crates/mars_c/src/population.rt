//! Populations, in which each candidate plays a match with each opponent.
ghost use Rattle.std.specs.Prelude.{◌≡◌, IfErr, OnErr, OnOk, length};
ghost use Rattle.mars_c.specs.Contests.{HoldsSums};
ghost use Rattle.mars_c.specs.Refusals.{RefusesPopulation};

use crate::entrants::{Entrants, enter};
use crate::faults::{CallRefusal, refused_fight};
use crate::ranges::SettingsFault;
use crate::rows::{MarsRow, give_sums};
use crate::settings::MarsSettings;
use mars_match::population;
use std::alloc::Global;

/// Runs a match of each candidate with each opponent, and writes the sum of each candidate's rows to `place`.
///
/// The first warriors are the candidates, as many as there are places; the others are the opponents.
pub fn population_into(
    alloc: Global,
    settings: &MarsSettings,
    formula: &[u8],
    entrants: Entrants<'_>,
    place: &mut [MarsRow],
) -> Result<(), CallRefusal>
    ensures ok { let e = entrants.entry in OnOk result (HoldsSums settings.now formula.now e.cells.now e.warriors.now place.new) }
    ensures err { OnErr result (place.new ≡ place.old) }
    ensures refused { let e = entrants.entry in IfErr result (RefusesPopulation settings.now formula.now e.cells.now e.warriors.now (length place.old)) }
{
    if place.len() > entrants.warriors.len() {
        return Err(CallRefusal::Settings(SettingsFault::Rows));
    }
    let entry = enter(alloc, settings, formula, entrants, 2)?;
    let (candidates, opponents) = entry.warriors.split_at(place.len());
    let sums = match population(alloc, &entry.setup, candidates, opponents) {
        Ok(sums) => sums,
        Err(fault) => return Err(refused_fight(fault)),
    };
    drop(entry);
    give_sums(&sums, place);
    Ok(())
}
