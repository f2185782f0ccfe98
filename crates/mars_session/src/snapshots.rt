//! The copy of a battle that a tape stores for a place.

use mars_core::Battle;

/// A copy of a battle, for one place.
#[derive(Drop)]
pub struct Snapshot {
    /// Copy of the battle.
    pub battle: Battle,
    /// Whether the place is marked.
    pub mark: bool,
}
