//! The base of the Core War kit: cells of the core, the parameters of a battle, warriors, and load files.
//!
//! # Guarantees
//!
//! The crates above may rely on the items of this list, whose definitions are in `specs/`.
//!
//! - Every parameter of a `Params` is in its range. A `Warrior` has at least one cell and starts at one of its cells;
//!   its name and its author's have at most 60 printable ASCII characters.
//! - `residue` reduces a value modulo the core size. `read_digits`, `read_op` and `read_modifier` read numbers, opcodes
//!   and modifiers, and `default_modifier` returns the modifier of an instruction that names none.
//! - `Cell::text` and `read_cell` write and read one cell, `write_load` and `read_load` a whole load file, exactly as
//!   `specs/` defines it. `read_load` returns the specified error, with the number of an invalid line.
//! - What is written is read back unchanged; a core of another size reads each number by its value (`laws`).
//! - `write_text` writes a whole text, or a proper prefix of it if the writer fails. `push_number`, `push_right` and
//!   `numbered` fill a `Line` of fixed size (`specs/Output`).
//! - Apart from the specified errors, a call fails only if an allocation fails. Only `Warrior::copy`, `write_load` and
//!   `read_load` allocate.
#![tactic(auto)]

mod fault;
mod grammar;
mod header;
mod instruction;
pub mod laws;
mod lines;
mod load;
mod numbers;
mod output;
mod parameters;
mod parts;
mod statements;
mod text;
mod warriors;
mod words;
mod written;

pub use fault::LoadFault;
pub use grammar::{default_modifier, read_cell};
pub use instruction::{Cell, Field, Mode, Modifier, Op};
pub use load::read_load;
pub use numbers::{read_digits, residue};
pub use output::{LINE, Line, WriteFault, numbered, push_number, push_right, write_text};
pub use parameters::{MAX_CORE_SIZE, MAX_CYCLES, MAX_PROCESSES, ParamFault, Params};
pub use warriors::{Warrior, WarriorFault};
pub use words::{read_modifier, read_op};
pub use written::write_load;
