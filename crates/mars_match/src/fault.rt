//! The errors of matches and leagues.

use crate::placement::PlaceFault;
use mars_core::BattleFault;
use redcode_text::ExprFault;
use std::alloc::{AllocError, AllocFailed};
use thiserror::Error;

/// The reason why a match or a league can't be run. It is displayed as its number and name, followed by the error inside
/// it.
#[derive(Clone, Copy, Debug, PartialEq, Eq, Error)]
pub enum MatchFault {
    /// The warriors can't be placed.
    #[error("1 Place {0}")]
    Place(PlaceFault),
    /// A battle can't start.
    #[error("2 Battle {0}")]
    Battle(BattleFault),
    /// The formula has no value, or the points of a warrior don't fit 64 bits.
    #[error("3 Score {0}")]
    Score(ExprFault),
    /// An allocation failed.
    #[error("4 OutOfMemory")]
    OutOfMemory,
}

impl From<AllocError> for MatchFault {
    ghost use Rattle.std.specs.Prelude.{◌≡◌};
    ghost use Rattle.mars_match.specs.declared.fault.MatchFault.TheVariants as fault;

    ghost from_gives = { λ _ to. to ≡ fault.OutOfMemory };

    fn from(_error: AllocError) -> MatchFault {
        MatchFault::OutOfMemory
    }
}

impl<T: Drop> From<AllocFailed<T>> for MatchFault {
    ghost use Rattle.std.specs.Prelude.{◌≡◌};
    ghost use Rattle.mars_match.specs.declared.fault.MatchFault.TheVariants as fault;

    ghost from_gives = { λ _ to. to ≡ fault.OutOfMemory };

    fn from(_failed: AllocFailed<T>) -> MatchFault {
        MatchFault::OutOfMemory
    }
}
