//! Splits the operands of an instruction, and computes their modes and numbers.
ghost use Rattle.std.specs.Prelude.{◌≡◌, ◌<◌, ◌∷◌, [], Ok, Err, None, Some, MatchOption, MatchResult, IfOk, option_map};
ghost use Rattle.redcode_asm.specs.Assembly.{commas, mode_sign, mode_of, split_mode, is_comma, parts_at_commas, given_operands, operand_value as spec_operand_value, operands_span};
ghost use Rattle.redcode_asm.specs.Code.Sources.{operands_in};

use crate::expressions::value_in;
use crate::fault::{AsmProblem, AsmTokenProblem};
use mars_cell::{Mode, Op, residue};
use redcode_text::{Env, Sign, Span, Token, TokenKind, first_span};

fn mode_sign(sign: Sign) -> Option<Mode>
    ensures { result ≡ mode_sign sign }
{
    match sign {
        Sign::Hash => Some(Mode::Immediate),
        Sign::Dollar => Some(Mode::Direct),
        Sign::Star => Some(Mode::AIndirect),
        Sign::At => Some(Mode::BIndirect),
        Sign::OpenBrace => Some(Mode::APredecrement),
        Sign::Less => Some(Mode::BPredecrement),
        Sign::CloseBrace => Some(Mode::APostincrement),
        Sign::Greater => Some(Mode::BPostincrement),
        _ => None,
    }
}

fn mode_of(kind: TokenKind) -> Option<Mode>
    ensures { result ≡ mode_of kind }
{
    match kind {
        TokenKind::Sign(sign) => mode_sign(sign),
        _ => None,
    }
}

/// Splits an operand into its mode, `$` if none is written, and the tokens of its expression.
pub fn split_mode(tokens: &[Token]) -> (Mode, &[Token])
    ensures { let r = result in (r.0, r.1.now) ≡ split_mode tokens.now }
{
    let [first, rest @ ..] = tokens else {
        return (Mode::Direct, tokens);
    };
    match mode_of(first.kind) {
        Some(mode) => (mode, rest),
        None => (Mode::Direct, tokens),
    }
}

fn is_comma(token: Token) -> bool
    ensures { result ≡ is_comma token.kind }
{
    match token.kind {
        TokenKind::Sign(Sign::Comma) => true,
        _ => false,
    }
}

/// Splits tokens at the first comma, if there is one.
fn split_comma(tokens: &[Token]) -> Option<(&[Token], &[Token])>
    ensures { MatchOption result (parts_at_commas tokens.now ≡ tokens.now ∷ [])
        (λ p. parts_at_commas tokens.now ≡ p.0.now ∷ parts_at_commas p.1.now) }
{
    for at in 0..tokens.len() {
        if is_comma(tokens[at]) {
            return Some((&tokens[..at], &tokens[at + 1..]));
        }
    }
    None
}

/// The tokens of the A-operand and the B-operand, if they are written.
#[derive(Clone, Copy)]
pub struct Operands<'a> {
    pub a: Option<&'a [Token]>,
    pub b: Option<&'a [Token]>,
}

/// Splits the tokens after an opcode into operands. A single operand is the B-operand of DAT, and the A-operand of any
/// other opcode.
pub fn split_operands(op: Op, tokens: &[Token]) -> Result<Operands<'_>, AsmProblem>
    ensures { let defined = given_operands op tokens.now in
        MatchResult result (λ given. defined ≡ Ok (operands_in given)) (λ problem. defined ≡ Err problem) }
{
    if tokens.is_empty() {
        return match op {
            Op::Dat | Op::Nop => Ok(Operands { a: None, b: None }),
            _ => Err(AsmProblem::Operand),
        };
    }
    let Some((first, rest)) = split_comma(tokens) else {
        return Ok(match op {
            Op::Dat => Operands {
                a: None,
                b: Some(tokens),
            },
            _ => Operands {
                a: Some(tokens),
                b: None,
            },
        });
    };
    if first.is_empty() || rest.is_empty() {
        return Err(AsmProblem::Operand);
    }
    match split_comma(rest) {
        Some(_) => Err(AsmProblem::Operand),
        None => Ok(Operands {
            a: Some(first),
            b: Some(rest),
        }),
    }
}

/// Returns the first comma, if there is one, and the tokens after it.
fn next_comma(tokens: &[Token]) -> Option<(Token, &[Token])>
    ensures { MatchOption result (commas tokens.now ≡ []) (λ r. commas tokens.now ≡ r.0 ∷ commas r.1.now) }
{
    for at in 0..tokens.len() {
        if is_comma(tokens[at]) {
            return Some((tokens[at], &tokens[at + 1..]));
        }
    }
    None
}

/// Returns the bytes of the second comma, or else of the first one, or else of the operation.
pub fn operands_span(operation: Option<Span>, tokens: &[Token]) -> Option<Span>
    ensures { result ≡ operands_span operation tokens.now }
{
    let Some((first, rest)) = next_comma(tokens) else {
        return operation;
    };
    match next_comma(rest) {
        Some((second, _)) => Some(second.span()),
        None => Some(first.span()),
    }
}

/// Returns the mode and the number of an operand, `$0` if it isn't written.
pub fn operand_value<E: Env>(
    tokens: Option<&[Token]>,
    names: &E,
    core_size: u32,
) -> Result<(Mode, u32), AsmTokenProblem>
    requires { 0 < core_size }
    ensures value { result ≡ spec_operand_value core_size (E.value_of names.now) (option_map (λ ts. ts.now) tokens.entry) }
    ensures below { IfOk result (λ operand. operand.1 < core_size) }
{
    let Some(tokens) = tokens else {
        return Ok((Mode::Direct, 0));
    };
    let (mode, expression) = split_mode(tokens);
    let value = value_in(names, first_span(tokens), expression)?;
    Ok((mode, residue(value, core_size)))
}
