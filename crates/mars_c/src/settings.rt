//! Settings, and the setup of a match that they describe.
ghost use Rattle.std.specs.Prelude.{◌≡◌, ◌≤◌, ℕ, IfErr, IfOk, IfSome, List, None, Ok};
ghost use Rattle.mars_cell.specs.ParameterFaults.{checked_parameters};
ghost use Rattle.mars_core.specs.Limits.{max_warriors};
ghost use Rattle.mars_match.specs.Placement.{FitsTwo};
ghost use Rattle.mars_c.specs.Settings.{AreRounds, IsPlan, IsSeed, IsSetup, limit_of, parameters_in, position_of};
ghost use Rattle.mars_c.specs.Refusals.{AreWarriors, IsOutside, RefusesEntry};
ghost use Rattle.mars_c.specs.declared.cells.MarsCell.{MarsCell as CellNumbers};
ghost use Rattle.mars_c.specs.declared.warriors.MarsWarrior.{MarsWarrior as WarriorNumbers};

use crate::faults::CallRefusal;
use crate::ranges::SettingsFault;
use mars_app::MAX_ROUNDS;
use mars_cell::{ParamFault, Params};
use mars_core::MAX_WARRIORS;
use mars_match::{MAX_SEED, Plan, Setup};
use redcode_asm::{Formula, FormulaFault};
use std::alloc::Global;

/// The settings of a match. A limit of 0 is the core size, and a position of 0 is none.
#[repr(C)]
#[derive(Clone, Copy)]
pub struct MarsSettings {
    /// Core size in cells, 1 to 1,048,576.
    pub core: u32,
    /// Maximum number of processes of a warrior, 1 to 65,536.
    pub processes: u32,
    /// Maximum number of cycles of a round, 1 to 10,000,000.
    pub cycles: u32,
    /// Read limit in cells, 1 to the core size; 0 is the core size.
    pub read_limit: u32,
    /// Write limit in cells, 1 to the core size; 0 is the core size.
    pub write_limit: u32,
    /// Maximum length of a warrior in cells, 1 to the core size.
    pub longest: u32,
    /// Minimum distance between the first cells of warriors, from the maximum length to the core size.
    pub distance: u32,
    /// Number of rounds of a match, 1 to 100,000.
    pub rounds: u32,
    /// Seed for the positions of the first round, 1 to 2,147,483,646.
    pub seed: u32,
    /// Address of the second of two warriors in each round, from the minimum distance to the core size minus it; 0 if it is
    /// drawn.
    pub position: u32,
}

/// Returns a read or write limit: 0 stands for the core size.
fn limit(limit: u32, core: u32) -> u32
    ensures { result ≡ limit_of limit core }
{
    if limit == 0 { core } else { limit }
}

/// Returns the parameters of settings, or the first error.
pub fn parameters(settings: &MarsSettings) -> Result<Params, ParamFault>
    ensures { result ≡ checked_parameters (parameters_in settings.now) }
{
    let core = settings.core;
    Params::new(
        core,
        settings.processes,
        settings.cycles,
        limit(settings.read_limit, core),
        limit(settings.write_limit, core),
        settings.longest,
        settings.distance,
    )
}

/// Returns the error if no battle may have this number of warriors, or `None` if one may.
pub fn warriors_fault(warriors: usize) -> Option<SettingsFault>
    ensures some { result ≡ None → 1 ≤ warriors }
    ensures few { result ≡ None → warriors ≤ max_warriors }
    ensures fault { IfSome result (λ fault. (fault ≡ SettingsFault.Warriors) × (AreWarriors warriors → ⊥)) }
{
    if warriors < 1 || warriors > MAX_WARRIORS {
        return Some(SettingsFault::Warriors);
    }
    None
}

/// Returns the error of the rounds, or else the error of the seed, or `None` if there is none.
fn numbers_fault(settings: &MarsSettings) -> Option<SettingsFault>
    ensures rounds { result ≡ None → AreRounds settings.now.rounds }
    ensures seed { result ≡ None → IsSeed settings.now.seed }
    ensures outside { (warriors : ℕ) → IfSome result (IsOutside settings.now warriors) }
{
    if settings.rounds < 1 || settings.rounds > MAX_ROUNDS {
        return Some(SettingsFault::Rounds);
    }
    if settings.seed < 1 || settings.seed > MAX_SEED {
        return Some(SettingsFault::Seed);
    }
    None
}

/// Returns the position of the second of `warriors` warriors, or `None` if it is drawn.
fn position(
    settings: &MarsSettings,
    params: &Params,
    warriors: usize,
) -> Result<Option<u32>, SettingsFault>
    ensures fits { IfOk result (λ fixed. FitsTwo params.now warriors fixed) }
    ensures value { IfOk result (λ fixed. fixed ≡ position_of settings.now.position) }
    ensures outside { checked_parameters (parameters_in settings.now) ≡ Ok params.now → IfErr result (IsOutside settings.now warriors) }
{
    let position = settings.position;
    if position == 0 {
        return Ok(None);
    }
    let (core_size, distance) = (params.core_size(), params.distance());
    if warriors != 2 || position < distance || position > core_size - distance {
        return Err(SettingsFault::Position);
    }
    Ok(Some(position))
}

/// Returns the plan that the settings describe, or the first error.
///
/// The position of the settings must fit battles of `warriors` warriors.
pub fn make_plan(
    settings: &MarsSettings,
    params: &Params,
    warriors: usize,
) -> Result<Plan, SettingsFault>
    ensures fits { IfOk result (λ plan. FitsTwo params.now warriors plan.fixed) }
    ensures plan { IfOk result (IsPlan settings.now) }
    ensures outside { checked_parameters (parameters_in settings.now) ≡ Ok params.now → IfErr result (IsOutside settings.now warriors) }
{
    if let Some(fault) = numbers_fault(settings) {
        return Err(fault);
    }
    let (rounds, seed) = (settings.rounds, settings.seed);
    match position(settings, params, warriors) {
        Ok(fixed) => Ok(Plan {
            rounds,
            seed,
            fixed,
        }),
        Err(fault) => Err(fault),
    }
}

/// Returns the setup that the settings and the formula describe.
///
/// The position of the settings must fit battles of `warriors` warriors.
pub fn make_setup(
    alloc: Global,
    settings: &MarsSettings,
    formula: &[u8],
    warriors: usize,
) -> Result<Setup, CallRefusal>
    ensures fits { IfOk result (λ t. FitsTwo t.params warriors t.plan.fixed) }
    ensures setup { IfOk result (λ t. IsSetup settings.now formula.now t) }
    ensures refused { (cells : List CellNumbers) (entrants : List WarriorNumbers) → IfErr result (RefusesEntry settings.now formula.now warriors cells entrants) }
{
    let params = match parameters(settings) {
        Ok(params) => params,
        Err(fault) => return Err(CallRefusal::Parameters(fault)),
    };
    let plan = match make_plan(settings, &params, warriors) {
        Ok(plan) => plan,
        Err(fault) => return Err(CallRefusal::Settings(fault)),
    };
    let formula = match Formula::new(alloc, formula) {
        Ok(formula) => formula,
        Err(FormulaFault::OutOfMemory) => return Err(CallRefusal::OutOfMemory),
        Err(FormulaFault::Expression(fault)) => return Err(CallRefusal::Formula(fault)),
    };
    Ok(Setup {
        params,
        plan,
        formula,
    })
}
