//! Matches: the starting positions of the warriors, the battle of a round, the rounds of a match, leagues, and the text
//! of results.
//!
//! The crates above this one may use:
//! - `place` returns the defined starts and next seed (`specs/Placement`), or the first error. Any two starts are at
//!   least the minimum distance apart, both ways around the core. `Setup::round_starts` does the same, or uses a fixed
//!   position for the second of two warriors.
//! - `fight` returns the survivors of a round (`specs/Battles`), `rounds` the table of a match (`specs/Rounds`), `league`
//!   that of a league (`specs/Leagues`), `population` the sums of candidates (`specs/Populations`), and `fight_rounds`
//!   the fate of each warrior in each round (`specs/Fates`) and, on request, counts of what it did (`specs/Counts`). Each
//!   of them may return its first error, or run out of memory (`specs/CallResults`).
//! - `write_results` writes the defined text of a table (`specs/Results`), or a prefix of it if the writer fails. It
//!   doesn't allocate.
//!
//! The laws in [`laws`] follow from these definitions: wins, ties and losses add up to the rounds, a league is its pairs,
//! and a ranking is in order.
#![tactic(auto)]

mod counts;
mod fates;
mod fault;
mod fights;
pub mod laws;
mod matches;
mod placement;
mod populations;
mod report;
mod scores;
mod setup;
mod table;

pub use counts::Counts;
pub use fates::{Fate, Fought, fight_rounds};
pub use fault::MatchFault;
pub use fights::fight;
pub use matches::{league, rounds};
pub use placement::{MAX_SEED, PlaceFault, place};
pub use populations::population;
pub use report::write_results;
pub use setup::{Plan, Setup};
pub use table::{Row, Sum, Table};
