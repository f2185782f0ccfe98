//! Score formulas and their values.
ghost use Rattle.std.specs.Prelude.{IfErr, IfOk};
ghost use Rattle.mars_c.specs.Contests.{IsScore};
ghost use Rattle.mars_c.specs.Refusals.{RefusesScore};

use crate::faults::CallRefusal;
use redcode_asm::{Formula, FormulaFault};
use std::alloc::Global;

/// Returns the points of each survivor of a round with these numbers of warriors and survivors: the value of the formula, and 0
/// if there are no survivors.
///
/// # Errors
///
/// - `Formula` if the text is no formula
/// - `Score` if the formula has no value
/// - `OutOfMemory` if an allocation fails
pub fn score(
    alloc: Global,
    formula: &[u8],
    warriors: u32,
    survivors: u32,
) -> Result<i64, CallRefusal>
    ensures value { IfOk result (IsScore formula.now warriors survivors) }
    ensures refused { IfErr result (RefusesScore formula.now warriors survivors) }
{
    let formula = match Formula::new(alloc, formula) {
        Ok(formula) => formula,
        Err(FormulaFault::OutOfMemory) => return Err(CallRefusal::OutOfMemory),
        Err(FormulaFault::Expression(fault)) => return Err(CallRefusal::Formula(fault)),
    };
    if survivors == 0 {
        return Ok(0);
    }
    match formula.score(i64::from(warriors), i64::from(survivors)) {
        Ok(score) => Ok(score),
        Err(fault) => Err(CallRefusal::Score(fault)),
    }
}
