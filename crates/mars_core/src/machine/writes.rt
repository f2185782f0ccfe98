//! The writes to the core (`specs/Writes`).
use crate::packed::PackedCell;

/// One write of a cell: its address, and the whole cell before and after, which may be equal.
#[derive(Clone, Copy, Debug)]
pub struct CellChange {
    pub address: u32,
    pub before: PackedCell,
    pub after: PackedCell,
}

impl Default for CellChange {
    /// Returns a change of zeros, so that a list of defaults is made and copied as whole words.
    fn default() -> Self {
        CellChange {
            address: 0,
            before: PackedCell::default(),
            after: PackedCell::default(),
        }
    }
}
