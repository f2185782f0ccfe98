//! Makes the warrior of a program.
ghost use Rattle.std.specs.Prelude.{◌≡◌, ◌<◌, length, All, IfOk, Ok};
ghost use Rattle.mars_cell.specs.Cells.{FitsCore};
ghost use Rattle.redcode_text.specs.Views.{predefined_of};
ghost use Rattle.redcode_asm.specs.Assembly.{instructions, length_checked, warrior_of};
ghost use Rattle.redcode_asm.specs.Outcomes.{IsResult};
ghost use Rattle.redcode_asm.specs.Code.Sources.{warrior_from};

use crate::fault::{AsmFault, AsmProblem};
use crate::places::{Labels, check_length};
use crate::sources::Source;
use mars_cell::{Cell, Params, Warrior};
use redcode_text::{PredefinedNames, Program};
use std::alloc::Global;

/// Builds the warrior with `cells` and `start`, and with the name and the author of a program.
fn named_warrior(
    alloc: Global,
    program: &Program,
    cells: Vec<Cell>,
    start: u32,
) -> Result<Warrior, AsmFault>
    requires { start < length cells.items }
    ensures { IsResult (λ warrior. warrior) result (Ok (warrior_from program.now cells.items start)) }
{
    let name = String::from_str(alloc, program.name())?;
    let author = String::from_str(alloc, program.author())?;
    match Warrior::new(name, author, cells, start) {
        Ok(warrior) => Ok(warrior),
        Err(_) => unreachable!(),
    }
}

impl<'a> Source<'a> {
    /// Checks that there are instructions and not more than `longest`, or else returns `TooLong` or `Empty`.
    ///
    /// `count` is the number of instructions.
    fn check_count(&self, count: usize, longest: u32) -> Result<(), AsmFault>
        requires { count ≡ length (instructions self.now.program.now) }
        ensures { result ≡ length_checked longest (instructions self.now.program.now) }
    {
        check_length(self.program.names(), self.program.lines(), longest)?;
        if count == 0 {
            return Err(AsmFault {
                line: 0,
                problem: AsmProblem::Empty,
                token: None,
            });
        }
        Ok(())
    }

    /// Returns the warrior of the source, or its first error.
    fn warrior(&self, alloc: Global, params: &Params) -> Result<Warrior, AsmFault>
        ensures value { IsResult (λ warrior. warrior) result
            (warrior_of (predefined_of self.now.predefined.now) params.now self.now.program.now) }
        ensures fits { IfOk result (λ warrior. All (FitsCore params.now.core_size) warrior.cells) }
    {
        let cells = self.cells(alloc, params.core_size())?;
        self.check_count(cells.len(), params.max_length())?;
        let start = self.start(alloc, cells.len() as u32)?;
        self.check_asserts(alloc)?;
        named_warrior(alloc, self.program, cells, start)
    }
}

/// Returns the warrior of a program, or its first error.
pub fn program_warrior<'p>(
    alloc: Global,
    program: &'p Program,
    predefined: &'p PredefinedNames,
    params: &Params,
) -> Result<Warrior, AsmFault>
    ensures value { IsResult (λ warrior. warrior) result (warrior_of (predefined_of predefined.now) params.now program.now) }
    ensures fits { IfOk result (λ warrior. All (FitsCore params.now.core_size) warrior.cells) }
{
    let labels = Labels::of_lines(alloc, program.names(), program.lines())?;
    let source = Source {
        program,
        labels: &labels,
        predefined,
    };
    let warrior = source.warrior(alloc, params);
    // The labels are dropped by a call, because dropping them in this body is expensive to prove.
    drop(labels);
    warrior
}
