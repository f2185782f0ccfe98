//! Checks the asserts of a source.
ghost use Rattle.std.specs.Prelude.{◌≡◌, map};
ghost use Rattle.redcode_text.specs.Spans.{first_span};
ghost use Rattle.redcode_text.specs.Views.{assert_of, predefined_of};
ghost use Rattle.redcode_asm.specs.Assembly.{assert_holds, asserts_hold, at_line, at_token, holds, tokens_hold};
ghost use Rattle.redcode_asm.specs.Outcomes.{IsResult};
ghost use Rattle.redcode_asm.specs.Code.Problems.{Gives};

use crate::expressions::value_in;
use crate::fault::{AsmFault, AsmProblem, AsmTokenProblem};
use crate::sources::Source;
use redcode_text::{Assert, Env, Token, first_span};
use std::alloc::Global;

/// Checks the value of an assert, which holds if the value isn't 0.
fn check_value(value: i64, tokens: &[Token]) -> Result<(), AsmTokenProblem>
    ensures { result ≡ at_token (first_span tokens.now) (holds value) }
{
    if value == 0 {
        Err(AsmProblem::AssertFailed.at_token(first_span(tokens)))
    } else {
        Ok(())
    }
}

/// Checks the expression of an assert, in which `names` has the values of names.
fn check_tokens<E: Env>(names: &E, tokens: &[Token]) -> Result<(), AsmTokenProblem>
    ensures { result ≡ tokens_hold (E.value_of names.now) tokens.now }
{
    let value = value_in(names, None, tokens)?;
    check_value(value, tokens)
}

impl<'a> Source<'a> {
    /// Checks one assert.
    fn check_assert(&self, alloc: Global, assert: &Assert) -> Result<(), AsmTokenProblem>
        ensures { Gives (λ done. done) result
            (assert_holds (predefined_of self.now.predefined.now) self.now.program.now (assert_of assert.now)) }
    {
        let tokens = self.replace(alloc, &assert.tokens)?;
        check_tokens(&self.assert_names(assert.current_line), &tokens)
    }

    /// Checks one assert, and adds its line to an error.
    fn check_assert_at(&self, alloc: Global, assert: &Assert) -> Result<(), AsmFault>
        ensures { let a = assert_of assert.now in IsResult (λ done. done) result
            (at_line a.number (assert_holds (predefined_of self.now.predefined.now) self.now.program.now a)) }
    {
        match self.check_assert(alloc, assert) {
            Ok(()) => Ok(()),
            Err(problem) => Err(problem.at_line(assert.number)),
        }
    }

    /// Checks asserts in order, up to the first error.
    fn check_each(&self, alloc: Global, asserts: &[Assert]) -> Result<(), AsmFault>
        ensures { IsResult (λ done. done) result
            (asserts_hold (predefined_of self.now.predefined.now) self.now.program.now (map assert_of asserts.now)) }
    {
        for assert in asserts {
            self.check_assert_at(alloc, assert)?;
        }
        Ok(())
    }

    /// Checks all asserts of the source in order, up to the first error.
    pub fn check_asserts(&self, alloc: Global) -> Result<(), AsmFault>
        ensures { IsResult (λ done. done) result
            (asserts_hold (predefined_of self.now.predefined.now) self.now.program.now self.now.program.now.asserts) }
    {
        self.check_each(alloc, self.program.asserts())
    }
}
