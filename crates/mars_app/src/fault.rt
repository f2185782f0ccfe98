//! The errors that end a run, and their exit statuses.
ghost use Rattle.std.specs.Prelude.{◌≡◌, ◌≤◌, None};

use mars_cell::{LoadFault, ParamFault};
use mars_core::BattleFault;
use mars_match::PlaceFault;
use redcode_asm::{AsmFault, FormulaFault};
use redcode_text::ExprFault;
use std::fmt::{self, Debug, Formatter};
use thiserror::Error;

/// Why a run ends with an exit status other than 0. Its `Display` is the line that is printed.
#[derive(Drop, Error)]
pub enum RunFault {
    #[error("mars: bad words")]
    Words,
    #[error("mars: parameters {0}")]
    Parameters(ParamFault),
    #[error("mars: formula {0}")]
    Formula(FormulaFault),
    #[error("mars: {0}: cannot read")]
    CannotRead(String),
    #[error("mars: {0}: too large")]
    TooLarge(String),
    #[error("mars: {0}: line {1}: {2}")]
    Assembly(String, usize, AsmFault),
    #[error("mars: {0}: line {1}: load {2}")]
    Load(String, usize, LoadFault),
    #[error("mars: placement {0}")]
    Placement(PlaceFault),
    #[error("mars: battle {0}")]
    Battle(BattleFault),
    #[error("mars: score {0}")]
    Score(ExprFault),
    #[error("mars: out of memory")]
    OutOfMemory,
    #[error("mars: cannot write")]
    Output,
    #[error("mars: cannot read the commands")]
    Commands,
}

// Prints the same line as `Display`. `Error` requires `Debug`, and a derived `Debug` is expensive to prove.
impl Debug for RunFault {
    ghost debug_output = { λ _. None };

    fn fmt<W: fmt::Write>(&self, f: &mut Formatter<W>) -> fmt::Result {
        write!(f, "{self}")
    }
}

impl RunFault {
    ghost use Rattle.mars_app.specs.Status.{status_of};

    /// Returns the exit status: 2 for an error of the arguments, 1 for every other error.
    pub fn status(&self) -> u8
        ensures value { result ≡ status_of self.now }
        ensures range { (1 ≤ result) × (result ≤ 2) }
    {
        match self {
            RunFault::Words | RunFault::Parameters(_) | RunFault::Formula(_) => 2,
            _ => 1,
        }
    }
}
