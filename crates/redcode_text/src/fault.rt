//! The errors of texts and of expressions.
ghost use Rattle.std.specs.Prelude.{◌≡◌};
ghost use Rattle.redcode_text.specs.Code.Problems.{fault_line, fault_token};
ghost use Rattle.redcode_text.specs.Tokens.{problem_at};

use crate::token::Span;
use std::alloc::{AllocError, AllocFailed};
use thiserror::Error;

/// The reason why an expression has no value. It is displayed as its number and name.
#[derive(Clone, Copy, Debug, PartialEq, Eq, Error)]
pub enum ExprFault {
    /// A token, or the end, can't continue the expression.
    #[error("1 Syntax")]
    Syntax,
    /// A name has no value.
    #[error("2 Unknown")]
    Unknown,
    /// A division or remainder by zero.
    #[error("3 DivideByZero")]
    DivideByZero,
    /// A value doesn't fit a signed 64-bit number.
    #[error("4 Range")]
    Range,
    /// More than 64 open parentheses, or more than 64 unary operators in a row.
    #[error("5 Depth")]
    Depth,
}

/// An error in a line. It is displayed as its number and name, then the error in `Expression`.
#[derive(Clone, Copy, Debug, PartialEq, Eq, Error)]
pub enum TextProblem {
    /// A byte of 128 or more outside a comment.
    #[error("1 NotAscii")]
    NotAscii,
    /// An invalid token, or a token that isn't allowed in its place.
    #[error("2 BadToken")]
    BadToken,
    /// A FOR without a ROF.
    #[error("3 UnclosedFor")]
    UnclosedFor,
    /// A ROF without a FOR.
    #[error("4 RofAlone")]
    RofAlone,
    /// A count that isn't a number from 0 to 10,000.
    #[error("5 BadCount")]
    BadCount,
    /// A name in a count that is neither predefined nor an EQU name.
    #[error("6 LabelInCount")]
    LabelInCount,
    /// A label or EQU name that is in use already.
    #[error("7 Duplicate")]
    Duplicate,
    /// Expansions of EQU names nested more than 32 deep.
    #[error("8 EquDepth")]
    EquDepth,
    /// More lines, tokens, open loops or replacements than the limits allow.
    #[error("9 TooLong")]
    TooLong,
    /// A count without a value.
    #[error("10 Expression {0}")]
    Expression(ExprFault),
    /// An allocation failed.
    #[error("11 OutOfMemory")]
    OutOfMemory,
}

impl From<AllocError> for TextProblem {
    ghost use Rattle.std.specs.Prelude.{◌≡◌};
    ghost use Rattle.redcode_text.specs.declared.fault.TextProblem.TheVariants as fault;

    ghost from_gives = { λ _ to. to ≡ fault.OutOfMemory };

    fn from(_error: AllocError) -> TextProblem {
        TextProblem::OutOfMemory
    }
}

/// An error in a text, with its line. It is displayed without the line.
#[derive(Clone, Copy, Debug, PartialEq, Eq, Error)]
#[error("{problem}")]
pub struct TextFault {
    /// The line number, from 1; 0 if memory ran out.
    pub line: usize,
    pub problem: TextProblem,
    /// The bytes, in the source, of the token at which the error arises, such as the byte or word that is no token, the
    /// second of two equal names, or the word FOR or ROF. `OutOfMemory` has none. `TooLong` has none for too many
    /// lines, nor for too many tokens in EQU lines that replace an operation.
    ///
    /// A token that comes from EQU has its bytes in the definition, while `line` is the line of the use.
    pub token: Option<Span>,
}

/// An error in a line, without the line number.
#[derive(Clone, Copy, Drop)]
pub struct TextTokenProblem {
    pub problem: TextProblem,
    /// The bytes of the token at which the error arises.
    pub token: Option<Span>,
}

impl From<AllocError> for TextTokenProblem {
    ghost use Rattle.std.specs.Prelude.{◌≡◌, None};
    ghost use Rattle.redcode_text.specs.declared.fault.TextProblem.TheVariants.{OutOfMemory};

    ghost from_gives = { λ _ to. to ≡ record { problem = OutOfMemory; token = None } };

    fn from(_error: AllocError) -> TextTokenProblem {
        TextProblem::OutOfMemory.at_token(None)
    }
}

impl<T: Drop> From<AllocFailed<T>> for TextTokenProblem {
    ghost use Rattle.std.specs.Prelude.{◌≡◌, None};
    ghost use Rattle.redcode_text.specs.declared.fault.TextProblem.TheVariants.{OutOfMemory};

    ghost from_gives = { λ _ to. to ≡ record { problem = OutOfMemory; token = None } };

    fn from(_failed: AllocFailed<T>) -> TextTokenProblem {
        TextProblem::OutOfMemory.at_token(None)
    }
}

impl TextProblem {
    /// Returns the error with `token`, the bytes of the token at which the error arises.
    pub(crate) fn at_token(self, token: Option<Span>) -> TextTokenProblem
        ensures { result ≡ problem_at token self }
    {
        TextTokenProblem {
            problem: self,
            token,
        }
    }
}

impl TextTokenProblem {
    /// Returns the error with the line number `line`; `OutOfMemory` gets the line 0 and no token.
    pub fn at_line(self, line: usize) -> TextFault
        ensures problem { result.problem ≡ self.problem }
        ensures line { result.line ≡ fault_line line self.problem }
        ensures token { result.token ≡ fault_token self.token self.problem }
    {
        match self.problem {
            TextProblem::OutOfMemory => TextFault {
                line: 0,
                problem: self.problem,
                token: None,
            },
            problem => TextFault {
                line,
                problem,
                token: self.token,
            },
        }
    }
}

impl TextFault {
    /// Returns the error without its line.
    pub(crate) fn without_line(self) -> TextTokenProblem
        ensures { result ≡ record { problem = self.problem; token = self.token } }
    {
        TextTokenProblem {
            problem: self.problem,
            token: self.token,
        }
    }
}
