//! Evaluates expressions, with the errors of the assembler.
ghost use Rattle.std.specs.Prelude.{◌≡◌};
ghost use Rattle.redcode_asm.specs.Assembly.{value_in};

use crate::fault::{AsmProblem, AsmTokenProblem};
use redcode_text::{Env, Span, Token, eval, fault_span};

/// Returns the value of an expression. An expression without tokens has its error at the token `before`.
pub fn value_in<E: Env>(
    names: &E,
    before: Option<Span>,
    tokens: &[Token],
) -> Result<i64, AsmTokenProblem>
    ensures { result ≡ value_in (E.value_of names.now) before tokens.now }
{
    match eval(tokens, names) {
        Ok(value) => Ok(value),
        Err(fault) => {
            let token = fault_span(names, before, tokens, fault);
            Err(AsmProblem::Expression(fault).at_token(token))
        }
    }
}
