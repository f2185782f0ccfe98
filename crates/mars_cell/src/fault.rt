//! The errors of a load file.
use thiserror::Error;

/// The reason why a load file is rejected. It is displayed as its number and name.
#[derive(Clone, Copy, Debug, PartialEq, Eq, Error)]
pub enum LoadFault {
    /// The line with this number, counted from 1, is the first invalid line.
    #[error("1 Syntax")]
    Syntax(usize),
    /// There are more cells than a warrior may have.
    #[error("2 TooLong")]
    TooLong,
    /// There are no cells.
    #[error("3 Empty")]
    Empty,
    /// The start is not the index of a cell.
    #[error("4 BadOrigin")]
    BadOrigin,
    /// An allocation failed.
    #[error("5 OutOfMemory")]
    OutOfMemory,
    /// The first line does not state version 2 and a valid core size.
    #[error("6 Version")]
    Version,
}
