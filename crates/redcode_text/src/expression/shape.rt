//! The shape of an expression: operands and operators alternate, and parentheses are closed.
ghost use Rattle.std.specs.Prelude.{◌≡◌};
ghost use Rattle.redcode_text.specs.Expression.{after_sign, before_sign, kinds, misfit, next_state, shape, start};

use crate::expression::operators::precedence;
use crate::fault::ExprFault;
use crate::limits::{MAX_PARENS, MAX_SIGNS};
use crate::token::{Sign, Span, Token, TokenKind};

/// The state of the check of a shape.
#[derive(Clone, Copy)]
pub struct ShapeState {
    /// The number of open parentheses.
    pub opened: usize,
    /// The number of unary operators directly before the next token.
    pub signs: usize,
    /// Whether an operand is directly before the next token.
    pub after_operand: bool,
}

/// Returns the state after `state` and one more token, or the error of that token.
fn step(state: ShapeState, kind: TokenKind) -> Result<ShapeState, ExprFault>
    ensures { result ≡ next_state state kind }
{
    match kind {
        TokenKind::Number(_) | TokenKind::Name(_) => {
            if state.after_operand {
                return Err(ExprFault::Syntax);
            }
            Ok(ShapeState {
                opened: state.opened,
                signs: 0,
                after_operand: true,
            })
        }
        TokenKind::Sign(sign) => {
            if state.after_operand {
                step_after_operand(state, sign)
            } else {
                step_before_operand(state, sign)
            }
        }
    }
}

/// Returns the state after `state`, which expects an operand, and a sign, or the error of the sign.
fn step_before_operand(state: ShapeState, sign: Sign) -> Result<ShapeState, ExprFault>
    ensures { result ≡ before_sign state sign }
{
    match sign {
        Sign::Plus | Sign::Minus | Sign::Bang => {
            if state.signs >= MAX_SIGNS {
                return Err(ExprFault::Depth);
            }
            Ok(ShapeState {
                opened: state.opened,
                signs: state.signs + 1,
                after_operand: false,
            })
        }
        Sign::OpenParen => {
            if state.opened >= MAX_PARENS {
                return Err(ExprFault::Depth);
            }
            Ok(ShapeState {
                opened: state.opened + 1,
                signs: 0,
                after_operand: false,
            })
        }
        _ => Err(ExprFault::Syntax),
    }
}

/// Returns the state after `state`, which follows an operand, and a sign, or the error of the sign.
fn step_after_operand(state: ShapeState, sign: Sign) -> Result<ShapeState, ExprFault>
    ensures { result ≡ after_sign state sign }
{
    if sign == Sign::CloseParen {
        if state.opened == 0 {
            return Err(ExprFault::Syntax);
        }
        return Ok(ShapeState {
            opened: state.opened - 1,
            signs: 0,
            after_operand: true,
        });
    }
    if precedence(sign) == 0 {
        return Err(ExprFault::Syntax);
    }
    Ok(ShapeState {
        opened: state.opened,
        signs: 0,
        after_operand: false,
    })
}

/// Checks that tokens have the shape of an expression. Does not allocate.
///
/// # Errors
///
/// Returns the error of the first token that can't continue the expression, or `Syntax` if the expression ends too early.
pub fn check_shape(tokens: &[Token]) -> Result<(), ExprFault>
    ensures { result ≡ shape start (kinds tokens.now) }
{
    let mut state = ShapeState {
        opened: 0,
        signs: 0,
        after_operand: false,
    };
    for token in tokens {
        state = step(state, token.kind)?;
    }
    if state.opened != 0 || !state.after_operand {
        return Err(ExprFault::Syntax);
    }
    Ok(())
}

/// Returns the bytes of the first token that can't continue an expression, if there is one.
pub fn misfit(tokens: &[Token]) -> Option<Span>
    ensures { result ≡ misfit start tokens.now }
{
    let mut state = ShapeState {
        opened: 0,
        signs: 0,
        after_operand: false,
    };
    for token in tokens {
        let Ok(next) = step(state, token.kind) else {
            return Some(token.span());
        };
        state = next;
    }
    None
}
