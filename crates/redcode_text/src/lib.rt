//! The text of Redcode: sources, their tokens and their expressions.
//!
//! A source is read line by line. FOR loops are expanded, and so are EQU names that are used as operations. Labels are
//! distinguished from operations. The result is a `Program`: lines split into their parts, their names, the EQU names for
//! operands, a name, an author and asserts. This crate doesn't interpret operations and operands. The steps, with the file
//! of each:
//!
//! ```text
//! source             bytes -> rows from the first `;redcode` on, each with its kind and its comment; the ROF of each FOR
//! reader/repeat      rows one after another, the body of a loop once per iteration; its header (repeat/head)
//!   reader/line        a row that is neither FOR nor ROF; EQU: a name for its tokens
//!     reader/comment     `;name`, `;author`, `;assert`
//!     lexer              bytes -> tokens, with joins and counters replaced
//!     reader/ordinary    labels, operation, rest; the lines of an operation that is an EQU name (reader/used_lines)
//! reader             everything that has been read so far, within `limits`; the kind of each name
//! expansion          the part of everything read that is needed later, a `program`
//! equates            later, for each operand: EQU names -> their tokens
//! expression         tokens -> a value
//! ```
//!
//! A caller reads a source, then the lines, then the operands:
//!
//! ```text
//! let program = expand(alloc, b"step EQU 4\nfirst DAT step*2\n", &predefined)?;
//! for line in program.lines() {                                  // one line: `first` is its label, `DAT` its operation
//!     let operand = program.substitute(alloc, &line.rest)?;      // the tokens of `4*2`
//!     let value = eval(&operand, &labels);                       // Ok(8); `labels` has the values of other names
//! }
//! ```
//!
//! The crates above this one may use:
//!
//! - `expand` returns the program of a source, or the first error with its line and its token, as `specs/Expansion`
//!   defines them.
//! - The methods of `Program` return its parts: at most 65,536 lines, a printable name and author, and asserts.
//! - `Program::substitute` replaces each EQU name among tokens and returns at most 65,536 tokens, or the first error, as
//!   `specs/Equates` defines it.
//! - `PredefinedNames` has the values of the predefined names, `PredefinedNames::value_at` returns one of them, and
//!   `NameTable` has the names of a text.
//! - `is_instruction` returns whether a line is an instruction, and `is_keyword` whether an operation is a given word.
//! - `scan` returns the tokens and the names of a text of one line, or its first error, as `specs/Tokens` defines them.
//! - `check_shape` checks whether tokens have the shape of an expression, and `eval` returns the value of an expression
//!   for given values of names, or its first error, as `specs/Expression` defines them; `fault_span` returns the bytes
//!   of the token of the error, and `first_span` the bytes of the first token. None of these four calls allocates.
//!
//! Functions that allocate return `OutOfMemory` if an allocation fails. When an allocation fails isn't specified.
#![tactic(auto)]

mod characters;
mod equates;
mod expansion;
mod expression;
mod fault;
pub mod laws;
mod lexer;
mod limits;
mod names;
mod program;
mod reader;
mod source;
mod token;

pub use expansion::expand;
pub use expression::positions::fault_span;
pub use expression::shape::check_shape;
pub use expression::{Env, eval};
pub use fault::{ExprFault, TextFault, TextProblem};
pub use lexer::{LineTokens, scan};
pub use names::NameTable;
pub use names::predefined::PredefinedNames;
pub use program::{Assert, Line, Program, is_instruction, is_keyword};
pub use token::{Sign, Span, Token, TokenKind, first_span};
