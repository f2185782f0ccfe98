//! Errors of the caller's numbers.
ghost use Rattle.std.specs.Prelude.{◌≡◌};
ghost use Rattle.mars_c.specs.Codes.{settings_number};

/// The setting or argument that is out of its range.
#[derive(Clone, Copy)]
pub enum SettingsFault {
    /// The number of rounds is not from 1 to 100,000.
    Rounds,
    /// The seed is not from 1 to 2,147,483,646.
    Seed,
    /// A position is given for a number of warriors other than two, or is nearer than the minimum distance.
    Position,
    /// There are too few or too many warriors.
    Warriors,
    /// The lengths of the warriors do not add up to the number of cells.
    Lengths,
    /// The history is not from 1 to 1,000,000 places.
    History,
    /// The number of rows is wrong.
    Rows,
    /// The round is not one of the match.
    Round,
}

/// The error of a lineup.
#[derive(Clone, Copy)]
pub enum LineupFault {
    /// The number of warriors is not from 1 to 16.
    Count,
    /// An index is not the index of a warrior.
    Index,
}

impl SettingsFault {
    /// Returns the number of the error in `include/mars.h`.
    pub fn number(self) -> u32
        ensures { result ≡ settings_number self }
    {
        self as u32 + 1
    }
}
