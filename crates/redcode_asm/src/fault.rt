//! The errors of sources and of score formulas.
ghost use Rattle.std.specs.Prelude.{◌≡◌};
ghost use Rattle.redcode_asm.specs.Code.Problems.{fault_line, fault_token, problem_of_text};

use redcode_text::{ExprFault, Span, TextFault, TextProblem};
use std::alloc::{AllocError, AllocFailed};
use thiserror::Error;

/// An error in a line of a source. It is displayed as its number and name, then the error in `Text` or `Expression`.
#[derive(Clone, Copy, Debug, PartialEq, Eq, Error)]
pub enum AsmProblem {
    /// The text can't be read.
    #[error("1 Text {0}")]
    Text(TextProblem),
    /// Unknown opcode or modifier.
    #[error("2 Operation")]
    Operation,
    /// A missing or empty operand, or a third one.
    #[error("3 Operand")]
    Operand,
    /// An expression without a value.
    #[error("4 Expression {0}")]
    Expression(ExprFault),
    /// The value of an assert is 0.
    #[error("5 AssertFailed")]
    AssertFailed,
    /// The start isn't the index of an instruction.
    #[error("6 BadOrigin")]
    BadOrigin,
    /// The source has no instruction.
    #[error("7 Empty")]
    Empty,
    /// The source has more instructions than the maximum length allows.
    #[error("8 TooLong")]
    TooLong,
    /// An allocation failed.
    #[error("9 OutOfMemory")]
    OutOfMemory,
}

/// An error in a source, with its line. It is displayed without the line.
#[derive(Clone, Copy, Debug, PartialEq, Eq, Error)]
#[error("{problem}")]
pub struct AsmFault {
    /// The line number, from 1; 0 if the source has no instruction or memory ran out.
    pub line: usize,
    pub problem: AsmProblem,
    /// The bytes, in the source, of the token at which the error arises, such as the unknown word, the comma, or the
    /// token that can't continue an expression. `Empty` and `OutOfMemory` have none, nor has `Text` if the `TextFault`
    /// has none.
    ///
    /// A token that comes from EQU has its bytes in the definition, while `line` is the line of the use.
    pub token: Option<Span>,
}

/// An error in a line of a source, without the line number.
#[derive(Clone, Copy, Drop)]
pub struct AsmTokenProblem {
    pub problem: AsmProblem,
    /// The bytes of the token at which the error arises.
    pub token: Option<Span>,
}

impl AsmTokenProblem {
    /// Returns the error with the line number `line`; `OutOfMemory` gets the line 0 and no token.
    pub fn at_line(self, line: usize) -> AsmFault
        ensures problem { result.problem ≡ self.problem }
        ensures line { result.line ≡ fault_line line self.problem }
        ensures token { result.token ≡ fault_token self.token self.problem }
    {
        match self.problem {
            AsmProblem::OutOfMemory => AsmFault::from(AllocError),
            problem => AsmFault {
                line,
                problem,
                token: self.token,
            },
        }
    }
}

impl AsmProblem {
    /// Returns the error with `token`, the bytes of the token at which the error arises.
    pub(crate) fn at_token(self, token: Option<Span>) -> AsmTokenProblem
        ensures { result ≡ record { problem = self; token = token } }
    {
        AsmTokenProblem {
            problem: self,
            token,
        }
    }

    /// Converts an error of the text. `OutOfMemory` stays `OutOfMemory`.
    pub(crate) fn of_text(problem: TextProblem) -> AsmProblem
        ensures { result ≡ problem_of_text problem }
    {
        match problem {
            TextProblem::OutOfMemory => AsmProblem::OutOfMemory,
            _ => AsmProblem::Text(problem),
        }
    }
}

impl AsmFault {
    /// Converts an error of the text, with its line.
    pub(crate) fn of_text(fault: TextFault) -> AsmFault
        ensures problem { result.problem ≡ problem_of_text fault.problem }
        ensures line { result.line ≡ fault.line }
        ensures token { result.token ≡ fault.token }
    {
        AsmFault {
            line: fault.line,
            problem: AsmProblem::of_text(fault.problem),
            token: fault.token,
        }
    }
}

/// The reason why a text isn't a formula. It is displayed as its number and name, then the error in `Expression`.
#[derive(Clone, Copy, Debug, PartialEq, Eq, Error)]
pub enum FormulaFault {
    /// The text isn't an expression in W and S.
    #[error("1 Expression {0}")]
    Expression(ExprFault),
    /// An allocation failed.
    #[error("2 OutOfMemory")]
    OutOfMemory,
}

impl From<AllocError> for AsmFault {
    ghost use Rattle.std.specs.Prelude.{◌≡◌, None};
    ghost use Rattle.redcode_asm.specs.declared.fault.AsmProblem.TheVariants.{OutOfMemory};

    ghost from_gives = { λ _ to. to ≡ record { line = 0; problem = OutOfMemory; token = None } };

    fn from(_error: AllocError) -> AsmFault {
        AsmFault {
            line: 0,
            problem: AsmProblem::OutOfMemory,
            token: None,
        }
    }
}

impl<T: Drop> From<AllocFailed<T>> for AsmFault {
    ghost use Rattle.std.specs.Prelude.{◌≡◌, None};
    ghost use Rattle.redcode_asm.specs.declared.fault.AsmProblem.TheVariants.{OutOfMemory};

    ghost from_gives = { λ _ to. to ≡ record { line = 0; problem = OutOfMemory; token = None } };

    fn from(_failed: AllocFailed<T>) -> AsmFault {
        AsmFault::from(AllocError)
    }
}
