//! Evaluates expressions over numbers and names.
ghost use Rattle.std.specs.Prelude.{◌≡◌, ◌≤◌, ◌⊎◌, length, IfSome, Ok};
ghost use Rattle.redcode_text.specs.Expression.{kinds, shape, start, value_of};
ghost use Rattle.redcode_text.specs.declared.limits.TheConstants.{MAX_WAITING};

mod evaluation;
pub mod operators;
pub mod positions;
pub mod shape;

use crate::expression::evaluation::Evaluator;
use crate::expression::shape::check_shape;
use crate::fault::ExprFault;
use crate::limits::{FEW_WAITING, MAX_WAITING};
use crate::token::{Token, TokenKind};

/// The values of names.
pub trait Env {
    ghost use Rattle.std.specs.Prelude.{ℕ, ℤ, Option};

    ghost value_of: { Self → ℕ → Option ℤ };

    /// Returns the value of the name with this index, if it has one.
    fn value(&self, name: usize) -> Option<i64>
        ensures { result ≡ value_of self.now name };
}

/// Evaluates tokens that have the shape of an expression, from left to right, with a stack of `N` entries.
///
/// `N` is the maximum for any expression, or at least the number of tokens: each token adds at most one entry.
fn evaluate<E: Env, const N: usize>(tokens: &[Token], env: &E) -> Result<i64, ExprFault>
    requires shape { shape start (kinds tokens.now) ≡ Ok tt }
    requires places { N ≤ MAX_WAITING }
    requires room { (MAX_WAITING ≤ N) ⊎ (length tokens.now ≤ N) }
    ensures { result ≡ value_of (E.value_of env.now) (kinds tokens.now) }
{
    let mut evaluation = Evaluator::<N>::new();
    for at in 0..tokens.len() {
        evaluation.advance(tokens, at, env)?;
    }
    evaluation.finish()
}

/// Evaluates a single number or name, the most frequent expressions, without a stack. Other tokens give `None`.
#[tactic(auto, unfolding(crate::specs::Expression::value_of, crate::specs::Expression::tree_within))]
fn evaluate_operand<E: Env>(tokens: &[Token], env: &E) -> Option<Result<i64, ExprFault>>
    ensures { IfSome result (λ value. value ≡ value_of (E.value_of env.now) (kinds tokens.now)) }
{
    let [token] = tokens else {
        return None;
    };
    match token.kind {
        TokenKind::Number(value) => Some(Ok(value)),
        TokenKind::Name(name) => Some(env.value(name).ok_or(ExprFault::Unknown)),
        TokenKind::Sign(_) => None,
    }
}

/// Evaluates an expression. Does not allocate.
///
/// # Errors
///
/// Returns an error of the shape if there is one, or else the first error of a value, from left to right.
pub fn eval<E: Env>(tokens: &[Token], env: &E) -> Result<i64, ExprFault>
    ensures { result ≡ value_of (E.value_of env.now) (kinds tokens.now) }
{
    if let Some(value) = evaluate_operand(tokens, env) {
        return value;
    }
    check_shape(tokens)?;
    // Creating a stack writes all its entries, so a short expression gets a small one.
    if tokens.len() <= FEW_WAITING {
        evaluate::<E, FEW_WAITING>(tokens, env)
    } else {
        evaluate::<E, MAX_WAITING>(tokens, env)
    }
}
