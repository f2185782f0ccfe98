//! The value of an expression with a valid shape, computed from left to right with a stack.
ghost use Rattle.std.specs.Prelude.{◌≡◌, ℕ, ℤ, List, [], ◌∷◌, ◌<◌, ◌≤◌, length, IfSome, IfNone, Ok, false, slice_get};
ghost use Rattle.redcode_text.specs.Code.Climbing.{signed, AreInside, StaysAt, IsNoOpen};
ghost use Rattle.redcode_text.specs.Expression.{precedence, kinds};
ghost use Rattle.redcode_text.specs.Code.Positions.{GivesOn, reduced_on};

use crate::expression::Env;
use crate::expression::operators::{apply_binary, apply_unary, precedence};
use crate::fault::ExprFault;
use crate::token::{Sign, Token, TokenKind};
use arrayvec::ArrayVec;
use std::marker::Model;

/// An entry of the stack, which waits for the rest of the expression.
#[derive(Clone, Copy)]
enum Pending {
    /// An open parenthesis, with the first index of the unary operators before it, and the index after the last one.
    Open(usize, usize),
    /// A value, and the operator that waits for its right operand.
    Value(i64, Sign),
}

impl Default for Pending {
    fn default() -> Self {
        Pending::Open(0, 0)
    }
}

/// A stack of at most `N` entries, the latest on top. All `N` entries are written when the stack is created.
#[derive(Drop)]
struct Stack<const N: usize> {
    entries: ArrayVec<Pending, N>,
}

impl<const N: usize> Model for Stack<N> {
    ghost use Rattle.std.specs.Prelude.{List, reverse};
    ghost use Rattle.redcode_text.specs.declared.expression.evaluation.Pending.{Pending};

    ghost Value = { List Pending };

    ghost view = { λ s. reverse s.entries.items };
}

impl<const N: usize> Stack<N> {
    fn new() -> Self
        ensures { result ≡ [] }
    {
        Stack {
            entries: ArrayVec::new(),
        }
    }

    fn push(&mut self, entry: Pending)
        requires { length self.old < N }
        ensures { self.new ≡ entry ∷ self.old }
    {
        self.entries.push(entry);
    }

    /// Pops the value on top if its operator is no looser than `reach`, or else pops nothing.
    fn pop_value(&mut self, reach: u8) -> Option<(i64, Sign)>
        ensures taken { IfSome result (λ top. self.old ≡ Pending.Value top.0 top.1 ∷ self.new) }
        ensures tight { IfSome result (λ top. precedence top.1 ≤ reach) }
        ensures stays { IfNone result (self.new ≡ self.old) }
        ensures done { IfNone result (StaysAt reach self.old) }
    {
        let last = *self.entries.as_slice().last()?;
        let Pending::Value(value, sign) = last else {
            return None;
        };
        if precedence(sign) > reach {
            return None;
        }
        self.entries.pop();
        Some((value, sign))
    }

    /// Pops the entry on top, and returns its indices if it is an open parenthesis.
    fn pop_open(&mut self) -> Option<(usize, usize)>
        ensures taken { IfSome result (λ top. self.old ≡ Pending.Open top.0 top.1 ∷ self.new) }
        ensures none { IfNone result (IsNoOpen self.old) }
    {
        match self.entries.pop() {
            Some(Pending::Open(from, to)) => Some((from, to)),
            _ => None,
        }
    }
}

/// Applies a run of unary operators to a value, the last one first.
fn apply_signs(run: &[Token], value: i64) -> Result<i64, ExprFault>
    ensures { result ≡ signed (kinds run.now) value }
{
    let [first, rest @ ..] = run else {
        return Ok(value);
    };
    let inner = apply_signs(rest, value)?;
    match first.kind {
        TokenKind::Sign(sign) => apply_unary(sign, inner),
        TokenKind::Number(_) | TokenKind::Name(_) => Ok(inner),
    }
}

/// The evaluation of an expression from left to right, with a stack of at most `N` entries.
#[derive(Drop)]
pub struct Evaluator<const N: usize> {
    stack: Stack<N>,
    /// The index of the first of the unary operators directly before the next token.
    first_sign: usize,
    /// The value of the operand directly before the next token, if `after_operand` is true.
    value: i64,
    after_operand: bool,
}

impl<const N: usize> Model for Evaluator<N> {
    ghost use Rattle.redcode_text.specs.Code.Progress.{Progress};

    ghost Value = { Progress };

    ghost view = { λ e. record {
      stack = e.stack;
      first_sign = e.first_sign;
      value = e.value;
      after_operand = e.after_operand;
    } };
}

impl<const N: usize> Evaluator<N> {
    ghost use Rattle.redcode_text.specs.Code.Positions.{GivesState, operated, closed_on, taken, opened_on, advance, finished};

    pub fn new() -> Self
        ensures stack { result.stack ≡ [] }
        ensures first { result.first_sign ≡ 0 }
        ensures after { result.after_operand ≡ false }
    {
        Evaluator {
            stack: Stack::new(),
            first_sign: 0,
            value: 0,
            after_operand: false,
        }
    }

    /// Takes the operand at the index `at`, whose value is `value`.
    fn take_operand(&mut self, tokens: &[Token], at: usize, value: i64) -> Result<(), ExprFault>
        requires first { self.old.first_sign ≤ at }
        requires within { at < length tokens.now }

        ensures gives { GivesState self.new result (taken tokens.now at self.old value) }
    {
        self.value = apply_signs(&tokens[self.first_sign..at], value)?;
        self.first_sign = at + 1;
        self.after_operand = true;
        Ok(())
    }

    /// Takes the opening parenthesis at the index `at`.
    fn open(&mut self, at: usize)
        requires room { length self.old.stack < N }
        requires fits { at < usize.MAX }

        ensures gives { self.new ≡ opened_on at self.old }
    {
        self.stack.push(Pending::Open(self.first_sign, at));
        self.first_sign = at + 1;
        self.after_operand = false;
    }

    /// Returns the value of the expression, after all tokens were taken.
    pub fn finish(&mut self) -> Result<i64, ExprFault>
        ensures { result ≡ finished self.old }
    {
        reduce_on(&mut self.stack, self.value, 5)
    }

    /// Takes the token at the index `at`.
    pub fn advance<E: Env>(&mut self, tokens: &[Token], at: usize, env: &E) -> Result<(), ExprFault>
        requires first { self.old.first_sign ≤ at }
        requires within { at < length tokens.now }
        requires inside { AreInside at self.old.stack }
        requires room { length self.old.stack < N }
        requires room_after { (k : ℕ) (w : ℤ) (stack : List Pending) → reduced_on k self.old.stack self.old.value ≡ Ok (w, stack)
            → length stack < N }

        ensures gives { IfSome (slice_get tokens.now at)
            (λ t. GivesState self.new result (advance (E.value_of env.now) tokens.now at self.old t.kind)) }
    {
        match tokens[at].kind {
            TokenKind::Number(value) => self.take_operand(tokens, at, value),
            TokenKind::Name(name) => match env.value(name) {
                Some(value) => self.take_operand(tokens, at, value),
                None => Err(ExprFault::Unknown),
            },
            TokenKind::Sign(sign) => {
                if !self.after_operand {
                    if sign == Sign::OpenParen {
                        self.open(at);
                    }
                    return Ok(());
                }
                if sign == Sign::CloseParen {
                    self.close(tokens, at)
                } else {
                    self.operate(at, sign)
                }
            }
        }
    }

    /// Takes the binary operator at the index `at`, which follows an operand.
    fn operate(&mut self, at: usize, sign: Sign) -> Result<(), ExprFault>
        requires fits { at < usize.MAX }
        requires room { (w : ℤ) (stack : List Pending)
            → reduced_on (precedence sign) self.old.stack self.old.value ≡ Ok (w, stack) → length stack < N }

        ensures gives { GivesState self.new result (operated at sign self.old) }
    {
        let left = reduce_on(&mut self.stack, self.value, precedence(sign))?;
        self.stack.push(Pending::Value(left, sign));
        self.first_sign = at + 1;
        self.value = left;
        self.after_operand = false;
        Ok(())
    }

    /// Takes the closing parenthesis at the index `at`.
    fn close(&mut self, tokens: &[Token], at: usize) -> Result<(), ExprFault>
        requires within { at < length tokens.now }
        requires inside { AreInside at self.old.stack }

        ensures gives { GivesState self.new result (closed_on tokens.now at self.old) }
    {
        let inner = reduce_on(&mut self.stack, self.value, 5)?;
        let Some((from, to)) = self.stack.pop_open() else {
            return Err(ExprFault::Syntax);
        };
        self.value = apply_signs(&tokens[from..to], inner)?;
        self.first_sign = at + 1;
        self.after_operand = true;
        Ok(())
    }
}

/// Applies the operators on top of the stack, as long as they are no looser than `reach`, and returns the value.
fn reduce_on<const N: usize>(stack: &mut Stack<N>, value: i64, reach: u8) -> Result<i64, ExprFault>
    ensures value { GivesOn stack.new result (reduced_on reach stack.old value) }
    ensures inside { (n : ℕ) → AreInside n stack.old → AreInside n stack.new }
{
    match stack.pop_value(reach) {
        None => Ok(value),
        Some((left, sign)) => {
            let value = apply_binary(sign, left, value)?;
            reduce_on(stack, value, reach)
        }
    }
}
