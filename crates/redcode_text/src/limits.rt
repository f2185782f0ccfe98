//! The limits of a source and of an expression.

/// The maximum number of lines that are read: lines of a loop once per iteration, and lines that replace an EQU name.
pub const MAX_LINES: usize = 65_536;

/// The maximum number of tokens that are read in the lines that `MAX_LINES` counts.
pub const MAX_TOKENS: usize = 65_536;

/// The maximum number of open loops.
pub const MAX_LOOPS: usize = 32;

/// The maximum number of iterations of a loop.
pub const MAX_COUNT: i64 = 10_000;

/// The maximum depth to which EQU names may nest, as operations and in operands and counts.
pub const MAX_NESTING: usize = 32;

/// The maximum number of EQU names that are replaced in one operand or count.
pub const MAX_REPLACEMENTS: usize = 65_536;

/// The maximum number of tokens of an operand or a count after its EQU names are replaced.
pub const MAX_REPLACED: usize = 65_536;

/// The maximum number of open parentheses.
pub const MAX_PARENS: usize = 64;

/// The maximum number of unary operators in a row.
pub const MAX_SIGNS: usize = 64;

/// The maximum number of stack entries that an expression needs. The outside of all parentheses, and the inside of each
/// of 64 open ones, needs at most one value for each of the five levels of operators, plus one entry for the
/// parenthesis.
pub const MAX_WAITING: usize = 6 * 65;

/// The maximum number of tokens of an expression that is evaluated with a stack of this size instead of `MAX_WAITING`.
pub const FEW_WAITING: usize = 16;

/// The maximum number of bytes of a name or an author.
pub const MAX_NAME: usize = 60;
