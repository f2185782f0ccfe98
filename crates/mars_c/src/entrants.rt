//! The setup and the warriors of a match.
ghost use Rattle.std.specs.Prelude.{◌≡◌, IfErr, IfOk, Ok, length, vec_len};
ghost use Rattle.mars_cell.specs.ParameterFaults.{checked_parameters};
ghost use Rattle.mars_match.specs.Placement.{FitsTwo};
ghost use Rattle.mars_c.specs.Entrants.{AreEntrants};
ghost use Rattle.mars_c.specs.Settings.{IsSetup, parameters_in};
ghost use Rattle.mars_c.specs.Refusals.{RefusesEntry, RefusesWarriors};
ghost use Rattle.mars_c.specs.declared.settings.MarsSettings.{MarsSettings as SettingsValue};

use crate::cells::MarsCell;
use crate::faults::CallRefusal;
use crate::ranges::SettingsFault;
use crate::settings::{MarsSettings, make_setup};
use crate::warriors::{EntrantFault, MarsWarrior, warrior_of};
use mars_cell::{Params, Warrior};
use mars_match::Setup;
use std::alloc::Global;

/// Warriors as the caller passes them: the cells of all warriors, one after another, and each warrior's length and start.
#[derive(Clone, Copy)]
pub struct Entrants<'e> {
    pub cells: &'e [MarsCell],
    pub warriors: &'e [MarsWarrior],
}

/// Returns the warriors, without names.
pub fn read_all(
    alloc: Global,
    params: &Params,
    entrants: Entrants<'_>,
) -> Result<Vec<Warrior>, CallRefusal>
    ensures many { IfOk result (λ warriors. vec_len warriors ≡ length entrants.entry.warriors.now) }
    ensures read { let e = entrants.entry in IfOk result (λ warriors. AreEntrants params.now e.cells.now e.warriors.now warriors.items) }
    ensures refused { (s : SettingsValue) → checked_parameters (parameters_in s) ≡ Ok params.now
        → let e = entrants.entry in IfErr result (RefusesWarriors s e.cells.now e.warriors.now) }
{
    let mut warriors = Vec::new(alloc);
    let mut rest = entrants.cells;
    for i in 0..entrants.warriors.len() {
        let MarsWarrior { length, start } = entrants.warriors[i];
        let Some((cells, others)) = rest.split_at_checked(length as usize) else {
            return Err(CallRefusal::Settings(SettingsFault::Lengths));
        };
        let (name, author) = (String::new(alloc), String::new(alloc));
        let warrior = match warrior_of(alloc, params, cells, start, name, author) {
            Ok(warrior) => warrior,
            Err(EntrantFault::OutOfMemory) => return Err(CallRefusal::OutOfMemory),
            Err(fault) => return Err(CallRefusal::Warrior(i, fault)),
        };
        let Ok(()) = warriors.push(warrior) else {
            return Err(CallRefusal::OutOfMemory);
        };
        rest = others;
    }
    if !rest.is_empty() {
        return Err(CallRefusal::Settings(SettingsFault::Lengths));
    }
    Ok(warriors)
}

/// The setup of a match and its warriors.
#[derive(Drop)]
pub struct Entry {
    pub setup: Setup,
    pub warriors: Vec<Warrior>,
}

/// Returns the setup that the settings and the formula describe, and the warriors.
///
/// The position of the settings must fit battles of `count` warriors.
pub fn enter(
    alloc: Global,
    settings: &MarsSettings,
    formula: &[u8],
    entrants: Entrants<'_>,
    count: usize,
) -> Result<Entry, CallRefusal>
    ensures setup { IfOk result (λ entry. IsSetup settings.now formula.now entry.setup) }
    ensures position { IfOk result (λ entry. FitsTwo entry.setup.params count entry.setup.plan.fixed) }
    ensures many { IfOk result (λ entry. vec_len entry.warriors ≡ length entrants.entry.warriors.now) }
    ensures read { let e = entrants.entry in IfOk result (λ entry. AreEntrants entry.setup.params e.cells.now e.warriors.now entry.warriors.items) }
    ensures refused { let e = entrants.entry in IfErr result (RefusesEntry settings.now formula.now count e.cells.now e.warriors.now) }
{
    let setup = make_setup(alloc, settings, formula, count)?;
    let warriors = read_all(alloc, &setup.params, entrants)?;
    Ok(Entry { setup, warriors })
}
