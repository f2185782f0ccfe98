//! The assembler, and score formulas.
//!
//! `redcode_text` reads the program of a source. From the program, `warriors` makes the `cells`, checks their number,
//! finds the start (`starts`) and checks the `asserts`. This order decides which error is reported.
//!
//! The crates above this one may use:
//! - `assemble` returns the warrior of a source, with all numbers below the core size, or its first error, with its line
//!   and its token, as `specs/Assembly` defines them. If memory runs out, the line is 0 and there is no token.
//! - `assemble_with_lines` returns the warrior with the line and the labels of each of its cells
//!   (`specs/SourceLines`), and `assemble_load` the warrior's load file. Both have the same errors as `assemble`.
//! - `Formula::new` returns the formula of a text, or its first error, and `Formula::score` the value of a formula for
//!   given numbers of warriors and survivors, as `specs/Formula` defines them. `score` doesn't allocate, and its errors
//!   depend only on the values (`laws`).
#![tactic(auto)]

mod assembler;
mod asserts;
mod cells;
mod expressions;
mod fault;
mod formula;
mod instruction;
pub mod laws;
mod lines;
mod load;
mod operands;
mod places;
mod sources;
mod starts;
mod warriors;

pub use assembler::assemble;
pub use fault::{AsmFault, AsmProblem, FormulaFault};
pub use formula::Formula;
pub use lines::{Assembled, CellLine, assemble_with_lines};
pub use load::assemble_load;
