//! Reads the opcode and the modifier of an instruction, and makes its cell.
ghost use Rattle.std.specs.Prelude.{◌≡◌, ◌<◌, Ok, Err, IfOk, MatchResult};
ghost use Rattle.mars_cell.specs.Cells.{FitsCore};
ghost use Rattle.redcode_text.specs.Views.{line_of};
ghost use Rattle.redcode_asm.specs.Code.Sources.{operands_in};
ghost use Rattle.redcode_asm.specs.Assembly.{at_token, cell_from, cell_with, modifier_in, modifier_span, opcode_of, opcode_span, operands_span, given_operands, split_modifier};

use crate::fault::{AsmProblem, AsmTokenProblem};
use crate::operands::{Operands, operand_value, operands_span, split_operands};
use mars_cell::{Cell, Mode, Modifier, Op, default_modifier, read_modifier, read_op};
use redcode_text::{Env, Line, NameTable, Sign, Span, Token, TokenKind, first_span};

/// Returns the opcode that an operation names. `operation` is an index into `names`.
fn read_opcode(names: &NameTable, operation: Option<usize>) -> Result<Op, AsmProblem>
    ensures { result ≡ opcode_of names.now operation }
{
    let Some(index) = operation else {
        return Err(AsmProblem::Operation);
    };
    read_op(names.name(index)).ok_or(AsmProblem::Operation)
}

/// Returns the token of an unknown operation: the operation, or else the last token of the labels, or else the first
/// token.
fn opcode_span(line: &Line) -> Option<Span>
    ensures { result ≡ opcode_span (line_of line.now) }
{
    match line.operation_span {
        Some(span) => Some(span),
        None => first_span(&line.rest),
    }
}

/// Returns the opcode of a line, or an error with the token of the unknown operation.
pub fn line_opcode(names: &NameTable, line: &Line) -> Result<Op, AsmTokenProblem>
    ensures { let l = line_of line.now in result ≡ at_token (opcode_span l) (opcode_of names.now l.operation) }
{
    match read_opcode(names, line.operation) {
        Ok(op) => Ok(op),
        Err(problem) => Err(problem.at_token(opcode_span(line))),
    }
}

/// Returns the modifier that the token after `.` names.
fn modifier_of(names: &NameTable, kind: TokenKind) -> Result<Modifier, AsmProblem>
    ensures { result ≡ modifier_in names.now kind }
{
    let TokenKind::Name(index) = kind else {
        return Err(AsmProblem::Operation);
    };
    read_modifier(names.name(index)).ok_or(AsmProblem::Operation)
}

/// Splits off the modifier at the start of the tokens after an opcode, if they start with `.`.
fn take_modifier<'a>(
    names: &NameTable,
    rest: &'a [Token],
) -> Result<(Option<Modifier>, &'a [Token]), AsmProblem>
    ensures { let defined = split_modifier names.now rest.now in
        MatchResult result (λ r. defined ≡ Ok (r.0, r.1.now)) (λ problem. defined ≡ Err problem) }
{
    let [first, behind @ ..] = rest else {
        return Ok((None, rest));
    };
    if first.kind != TokenKind::Sign(Sign::Dot) {
        return Ok((None, rest));
    }
    let [modifier, operands @ ..] = behind else {
        return Err(AsmProblem::Operation);
    };
    let modifier = modifier_of(names, modifier.kind)?;
    Ok((Some(modifier), operands))
}

/// Returns the token of an unknown modifier: the token after the `.`, or the `.` if there is none.
fn modifier_span(rest: &[Token]) -> Option<Span>
    ensures { result ≡ modifier_span rest.now }
{
    match rest {
        [_, modifier, ..] => Some(modifier.span()),
        _ => first_span(rest),
    }
}

/// Splits off the modifier at the start of the tokens after an opcode, and adds its token to an error.
pub fn line_modifier<'a>(
    names: &NameTable,
    rest: &'a [Token],
) -> Result<(Option<Modifier>, &'a [Token]), AsmTokenProblem>
    ensures { let defined = at_token (modifier_span rest.now) (split_modifier names.now rest.now) in
        MatchResult result (λ r. defined ≡ Ok (r.0, r.1.now)) (λ problem. defined ≡ Err problem) }
{
    match take_modifier(names, rest) {
        Ok(split) => Ok(split),
        Err(problem) => Err(problem.at_token(modifier_span(rest))),
    }
}

/// Builds a cell from the opcode, the modifier if one is written, and the modes and numbers of the operands.
fn whole_cell(op: Op, modifier: Option<Modifier>, a: (Mode, u32), b: (Mode, u32)) -> Cell
    ensures { result ≡ cell_with op modifier a b }
{
    let (a_mode, a) = a;
    let (b_mode, b) = b;
    let modifier = match modifier {
        Some(modifier) => modifier,
        None => default_modifier(op, a_mode, b_mode),
    };
    Cell {
        op,
        modifier,
        a_mode,
        b_mode,
        a,
        b,
    }
}

/// The opcode of an instruction, its modifier if one is written, and the bytes of the operation.
#[derive(Clone, Copy)]
pub struct Operation {
    pub op: Op,
    pub modifier: Option<Modifier>,
    pub span: Option<Span>,
}

/// Splits the tokens after an opcode into operands, and adds to an error the token at which the error arises.
fn line_operands(operation: Operation, tokens: &[Token]) -> Result<Operands<'_>, AsmTokenProblem>
    ensures { let defined = at_token (operands_span operation.span tokens.now) (given_operands operation.op tokens.now) in
        MatchResult result (λ given. defined ≡ Ok (operands_in given)) (λ problem. defined ≡ Err problem) }
{
    match split_operands(operation.op, tokens) {
        Ok(operands) => Ok(operands),
        Err(problem) => Err(problem.at_token(operands_span(operation.span, tokens))),
    }
}

/// Assembles a cell from its operation and the tokens of the operands, whose EQU names are replaced.
pub fn make_cell<E: Env>(
    operation: Operation,
    tokens: &[Token],
    names: &E,
    core_size: u32,
) -> Result<Cell, AsmTokenProblem>
    requires { 0 < core_size }
    ensures value { result ≡ cell_from core_size (E.value_of names.now) operation.span operation.op operation.modifier tokens.now }
    ensures fits { IfOk result (FitsCore core_size) }
{
    let operands = line_operands(operation, tokens)?;
    let a = operand_value(operands.a, names, core_size)?;
    let b = operand_value(operands.b, names, core_size)?;
    Ok(whole_cell(operation.op, operation.modifier, a, b))
}
