//! A debugger's session: commands on a battle that can be undone and redone.
//!
//! A [`Session`] has a tape of all places that its battle has reached; one of them is the present place. A command appends a
//! place for each turn or edit, and drops the places after the present one. The place before a command and its last place are
//! marked; undo and redo go to the nearest marked place. Goto goes to the first place with a given number of turns. A refused
//! call changes nothing.
//!
//! # Tapes
//!
//! - [`WholeTape`] stores a copy of the battle for each place
//! - [`DeltaTape`] stores one battle and the records between places, each of which leads from its place to the next
//! - [`RingTape`] stores one battle and only the last records; it evicts the places before them
//!
//! # Guarantees
//!
//! All of these are proved.
//!
//! - Each call of [`Session`] is one step of the definition `outcome` (`specs/Script.antt`) on a history of whole states,
//!   whatever the tape is. `apply_all` is a list of these steps.
//! - The laws in [`laws`] hold for that definition.
//! - Each tape meets the contracts of [`Tape`], which describe it as a history.
//! - Of all calls, only commands run out of memory. They do so before any change, and only if they may need more places
//!   than the tape has room for. There is always room for as many places as follow the present one. A command on a tape
//!   that evicts never runs out of memory.
#![tactic(auto)]

mod calls;
mod commands;
mod deltas;
pub mod laws;
mod moves;
mod records;
mod rings;
mod sessions;
mod snapshots;
mod tapes;
mod whole;

pub use calls::{Call, Refusal, Reply, Standing};
pub use deltas::DeltaTape;
pub use rings::RingTape;
pub use sessions::Session;
pub use tapes::Tape;
pub use whole::WholeTape;
