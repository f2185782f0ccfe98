//! The program `mars`, over files and streams that its caller passes: it assembles warriors of Core War, runs matches and
//! leagues, and debugs battles backwards as well as forwards.
//!
//! - `run` writes what its arguments request (`specs/Runs`), or returns the exit status (`specs/Status`) of the error that
//!   ended it (`specs/Faults`) and prints this error as one line. `start` does this for the arguments with which the program
//!   was started.
//! - Files are `SystemFiles` or `MemoryFiles`; input and output are `Streams` (`specs/Streams`).
//! - `debug` is the debugger on its own (`specs/Debugger/Transcript`), over any reader, writer and tape: it reads lines
//!   up to `quit` or the end of its input, and writes the reply to each line before it executes the next one.
//!   `debug_within` does this in a limited number of reads.
//! - The laws in [`laws`] hold for these definitions: what a run writes depends only on its arguments, files and input.
//!
//! All of this is proved, except for the line that is printed for an error and for the arguments that `start` finds.
#![tactic(auto)]

mod command_line;
mod contest;
mod debugger;
mod fault;
mod files;
pub mod laws;
mod loading;
mod options;
mod runs;
mod started;
mod streams;

pub use command_line::{MAX_HISTORY, MAX_ROUNDS};
pub use debugger::{DebugFault, debug, debug_within};
pub use fault::RunFault;
pub use files::{FileFault, MemoryFiles, SystemFiles, WarriorFiles};
pub use runs::run;
pub use started::start;
pub use streams::Streams;
