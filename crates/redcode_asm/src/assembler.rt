//! Assembles sources to warriors.
ghost use Rattle.std.specs.Prelude.{◌≡◌, All, IfOk};
ghost use Rattle.mars_cell.specs.Cells.{FitsCore};
ghost use Rattle.redcode_text.specs.Views.{predefined_of};
ghost use Rattle.redcode_text.specs.Expansion.{expansion};
ghost use Rattle.redcode_asm.specs.Assembly.{assembly, predefined, text_read};
ghost use Rattle.redcode_asm.specs.Outcomes.{IsResult};

use crate::fault::AsmFault;
use crate::warriors::program_warrior;
use mars_cell::{Params, Warrior};
use redcode_text::{PredefinedNames, Program, expand};
use std::alloc::Global;

/// The value of the predefined name VERSION.
const VERSION: i64 = 80;

/// Returns the values of the predefined names. CURLINE is not one of them.
pub fn predefined_names(params: &Params, rounds: u32, warriors: u32) -> PredefinedNames
    ensures { predefined_of result ≡ predefined params.now rounds warriors }
{
    PredefinedNames {
        core_size: i64::from(params.core_size()),
        max_processes: i64::from(params.processes()),
        max_cycles: i64::from(params.cycles()),
        max_length: i64::from(params.max_length()),
        min_distance: i64::from(params.distance()),
        rounds: i64::from(rounds),
        warriors: i64::from(warriors),
        version: VERSION,
    }
}

/// Reads the program of a source: expands its FOR loops, and the EQU names that are used as operations.
pub fn read_program(
    alloc: Global,
    source: &[u8],
    predefined: &PredefinedNames,
) -> Result<Program, AsmFault>
    ensures { IsResult (λ program. program) result (text_read (expansion (predefined_of predefined.now) source.now)) }
{
    match expand(alloc, source, predefined) {
        Ok(program) => Ok(program),
        Err(fault) => Err(AsmFault::of_text(fault)),
    }
}

/// Assembles a source to a warrior, for a core with these parameters.
///
/// `rounds` and `warriors` are the values of the predefined names ROUNDS and WARRIORS. All numbers of the warrior are below
/// the core size.
///
/// # Errors
///
/// Returns the first error, with its line, in this order:
/// - `Text`, for each error of `expand`.
/// - The errors of each instruction in turn: `Operation` for an unknown opcode or modifier, `Text` if the EQU names in the
///   operands can't be replaced, `Operand` for a missing, empty or third operand, `Expression` for the A-operand, then
///   for the B-operand. Instructions beyond the maximum length are checked too.
/// - `TooLong`, with the line of the first instruction beyond the maximum length, then `Empty`, with the line 0.
/// - The errors of the start, with the line of the ORG or END that gives it: `Text`, `Expression`, then `BadOrigin` if the
///   value isn't the index of an instruction. The last ORG counts, and END counts only without ORG.
/// - The errors of each assert in turn: `Text`, `Expression`, then `AssertFailed` if the value is 0.
///
/// `OutOfMemory`, with the line 0, replaces any error that would have been found after the allocation that failed.
#[tactic(auto, unfolding(crate::specs::Assembly::assembly))]
pub fn assemble(
    alloc: Global,
    source: &[u8],
    params: &Params,
    rounds: u32,
    warriors: u32,
) -> Result<Warrior, AsmFault>
    ensures value { IsResult (λ warrior. warrior) result (assembly params.now rounds warriors source.now) }
    ensures fits { IfOk result (λ warrior. All (FitsCore params.now.core_size) warrior.cells) }
{
    let predefined = predefined_names(params, rounds, warriors);
    let program = read_program(alloc, source, &predefined)?;
    let warrior = program_warrior(alloc, &program, &predefined, params);
    // The program is dropped by a call, because dropping each of its fields in this body is expensive to prove.
    drop(program);
    warrior
}
