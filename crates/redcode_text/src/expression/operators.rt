//! The operators of expressions.
ghost use Rattle.std.specs.Prelude.{◌≡◌};
ghost use Rattle.redcode_text.specs.Expression.{binary, precedence, unary};

use crate::fault::ExprFault;
use crate::token::Sign;

/// Returns the precedence of a binary operator: 1 binds tightest, 5 loosest; 0 for any other sign.
pub fn precedence(sign: Sign) -> u8
    ensures { result ≡ precedence sign }
{
    match sign {
        Sign::Star | Sign::Slash | Sign::Percent => 1,
        Sign::Plus | Sign::Minus => 2,
        Sign::Equal
        | Sign::NotEqual
        | Sign::Less
        | Sign::Greater
        | Sign::LessEqual
        | Sign::GreaterEqual => 3,
        Sign::And => 4,
        Sign::Or => 5,
        _ => 0,
    }
}

/// Applies a binary operator. Any other sign is `Syntax`.
pub fn apply_binary(sign: Sign, left: i64, right: i64) -> Result<i64, ExprFault>
    ensures { result ≡ binary sign left right }
{
    match sign {
        Sign::Or => Ok(if left != 0 || right != 0 { 1 } else { 0 }),
        Sign::And => Ok(if left != 0 && right != 0 { 1 } else { 0 }),
        Sign::Equal => Ok(if left == right { 1 } else { 0 }),
        Sign::NotEqual => Ok(if left == right { 0 } else { 1 }),
        Sign::Less => Ok(if left < right { 1 } else { 0 }),
        Sign::Greater => Ok(if right < left { 1 } else { 0 }),
        Sign::LessEqual => Ok(if right < left { 0 } else { 1 }),
        Sign::GreaterEqual => Ok(if left < right { 0 } else { 1 }),
        Sign::Plus => left.checked_add(right).ok_or(ExprFault::Range),
        Sign::Minus => left.checked_sub(right).ok_or(ExprFault::Range),
        Sign::Star => left.checked_mul(right).ok_or(ExprFault::Range),
        Sign::Slash => {
            if right == 0 {
                return Err(ExprFault::DivideByZero);
            }
            left.checked_div(right).ok_or(ExprFault::Range)
        }
        Sign::Percent => {
            if right == 0 {
                return Err(ExprFault::DivideByZero);
            }
            left.checked_rem(right).ok_or(ExprFault::Range)
        }
        _ => Err(ExprFault::Syntax),
    }
}

/// Applies a unary operator. Any other sign is `Syntax`.
pub fn apply_unary(sign: Sign, value: i64) -> Result<i64, ExprFault>
    ensures { result ≡ unary sign value }
{
    match sign {
        Sign::Plus => Ok(value),
        Sign::Minus => value.checked_neg().ok_or(ExprFault::Range),
        Sign::Bang => Ok(if value == 0 { 1 } else { 0 }),
        _ => Err(ExprFault::Syntax),
    }
}
