//! The tokens at which expressions have their errors.
ghost use Rattle.std.specs.Prelude.{◌≡◌};
ghost use Rattle.redcode_text.specs.Spans.{last_span};
ghost use Rattle.redcode_text.specs.Expression.{fault_span, found_or, is_unknown, misfit, start, unknown_name};

use crate::expression::Env;
use crate::expression::shape::misfit;
use crate::fault::ExprFault;
use crate::token::{Span, Token, TokenKind, first_span, last_span};

/// Returns whether a token is a name without a value.
fn is_unknown<E: Env>(names: &E, kind: TokenKind) -> bool
    ensures { result ≡ is_unknown (E.value_of names.now) kind }
{
    match kind {
        TokenKind::Name(name) => names.value(name).is_none(),
        _ => false,
    }
}

/// Returns the bytes of the first name without a value, if there is one.
fn unknown_name<E: Env>(names: &E, tokens: &[Token]) -> Option<Span>
    ensures { result ≡ unknown_name (E.value_of names.now) tokens.now }
{
    for token in tokens {
        if is_unknown(names, token.kind) {
            return Some(token.span());
        }
    }
    None
}

/// Returns the bytes of the token that doesn't fit, or of the last one if the expression ends too early, or `before` if
/// there are no tokens.
fn misfit_or_last(before: Option<Span>, tokens: &[Token]) -> Option<Span>
    ensures { result ≡ found_or (misfit start tokens.now) (last_span before tokens.now) }
{
    match misfit(tokens) {
        Some(span) => Some(span),
        None => last_span(before, tokens),
    }
}

/// Returns the bytes of the token at which an expression has the error that `eval` returned. Does not allocate.
///
/// `Syntax` and `Depth` have the token that can't continue the expression, or the last token if the expression ends too
/// early, or `before` if there are no tokens. `Unknown` has the first name without a value. `DivideByZero` and `Range`
/// have the first token.
pub fn fault_span<E: Env>(
    names: &E,
    before: Option<Span>,
    tokens: &[Token],
    fault: ExprFault,
) -> Option<Span>
    ensures { result ≡ fault_span (E.value_of names.now) before tokens.now fault }
{
    match fault {
        ExprFault::Unknown => unknown_name(names, tokens),
        ExprFault::DivideByZero | ExprFault::Range => first_span(tokens),
        ExprFault::Syntax | ExprFault::Depth => misfit_or_last(before, tokens),
    }
}
