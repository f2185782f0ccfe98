//! The lines that replace an EQU name, each built when it is read.
ghost use Rattle.std.specs.Prelude.{◌≡◌, ◌≤◌, ◌-◌, ◌++◌, [], get_or, length, map, Ok};
ghost use Rattle.redcode_text.specs.Code.Problems.{Gives};
ghost use Rattle.redcode_text.specs.Code.Used.{before_line, used};

use crate::fault::{TextProblem, TextTokenProblem};
use crate::token::Token;
use std::alloc::Global;

/// Returns the tokens of `front`, followed by the tokens of `back`.
fn joined(alloc: Global, front: &[Token], back: &[Token]) -> Result<Vec<Token>, TextTokenProblem>
    ensures { Gives (λ made. made.items) result (Ok (front.now ++ back.now)) }
{
    let mut made = Vec::from_slice(alloc, front)?;
    made.extend_from_slice(back)?;
    Ok(made)
}

/// Returns the tokens that precede the line at the index `at` of an EQU definition: `before` for the first line, and
/// none for the others.
fn before_line(before: &[Token], at: usize) -> &[Token]
    ensures { result.now ≡ before_line before.now at }
{
    if at == 0 { before } else { &[] }
}

/// Returns the last of the lines that replace an EQU name. `lines` has the last line of the definition, if any.
fn last_line(
    alloc: Global,
    before: &[Token],
    lines: &[Vec<Token>],
    behind: &[Token],
) -> Result<Vec<Token>, TextTokenProblem>
    requires { length lines.now ≤ 1 }
    ensures { Gives (λ made. made.items) result (Ok (get_or (used before.now (map (λ line. line.items) lines.now) behind.now) 0 [])) }
{
    match lines {
        [line, ..] => {
            let front = joined(alloc, before, line)?;
            joined(alloc, &front, behind)
        }
        [] => joined(alloc, before, behind),
    }
}

/// Returns the line at the index `at` of the lines that replace an EQU name, whose definition is `lines`. `before`
/// precedes the first line, and `behind` follows the last line.
pub fn used_line(
    alloc: Global,
    before: &[Token],
    lines: &[Vec<Token>],
    behind: &[Token],
    at: usize,
) -> Result<Vec<Token>, TextTokenProblem>
    requires { at ≤ length lines.now - 1 }
    ensures { Gives (λ made. made.items) result (Ok (get_or (used before.now (map (λ line. line.items) lines.now) behind.now) at [])) }
{
    let before = before_line(before, at);
    if at + 1 < lines.len() {
        return joined(alloc, before, &lines[at]);
    }
    last_line(alloc, before, &lines[at..], behind)
}
