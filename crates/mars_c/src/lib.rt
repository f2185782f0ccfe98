//! The Core War kit for C: an assembler, matches, leagues, populations and the debugger, as functions of a static library.
//!
//! Each function takes settings, texts and buffers for its results. A function that can fail returns 0 if it succeeds,
//! and otherwise the code of an error, whose details it stores in `fault`. No memory outlives a call, and nothing is
//! shared between calls, so several threads may call at once, each with its own arguments. A battle is a block of words
//! that the caller owns: `blocks` starts, plays, edits and checks it. The header is `include/mars.h`.
#![tactic(auto)]

mod ancestors;
mod assembling;
mod battles;
mod blocks;
mod cells;
mod conditions;
mod contests;
mod debugging;
mod edits;
mod entrants;
mod exports;
mod faults;
mod following;
pub mod laws;
mod numbers;
mod outcomes;
mod playing;
mod population;
mod ranges;
mod records;
mod rows;
mod scores;
mod settings;
mod touches;
mod warriors;
