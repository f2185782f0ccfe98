//! Score formulas: how they are read, and their values.
ghost use Rattle.std.specs.Prelude.{◌≡◌, Ok, Err, IfErr, MatchResult};
ghost use Rattle.redcode_text.specs.Expression.{kinds};
ghost use Rattle.redcode_text.specs.Views.{scan_of};
ghost use Rattle.std.specs.List.{list_all};
ghost use Rattle.redcode_asm.specs.Formula.{Checks, checked_formula, formula_of, is_variable, may_occur, score_of, variable_value};
ghost use Rattle.redcode_asm.specs.Laws.{IsValueFault};

use crate::fault::FormulaFault;
use redcode_text::{
    Env, ExprFault, LineTokens, NameTable, TextProblem, Token, TokenKind, check_shape, eval, scan,
};
use std::alloc::Global;
use std::marker::Model;

/// The maximum number of bytes of a formula.
const MAX_FORMULA_LEN: usize = 256;

/// A score formula: an expression in W, the number of warriors, and S, the number of survivors.
#[derive(Drop)]
pub struct Formula {
    line: LineTokens,
}

impl Model for Formula {
    ghost use Rattle.std.specs.Prelude.{◌≡◌, Ok};
    ghost use Rattle.redcode_text.specs.Views.{scan_of};
    ghost use Rattle.redcode_text.specs.Tokens.{Scanned};
    ghost use Rattle.redcode_asm.specs.Formula.{checked_formula};

    ghost Value = { Scanned };

    ghost view = { λ f. scan_of f.line.tokens f.line.names };

    ghost invariant = { λ f. checked_formula (scan_of f.line.tokens f.line.names) ≡ Ok (scan_of f.line.tokens f.line.names) };
}

/// The values of W and S.
#[derive(Clone, Copy)]
struct Variables<'a> {
    names: &'a NameTable,
    warriors: i64,
    survivors: i64,
}

impl Env for Variables<'_> {
    ghost use Rattle.redcode_text.specs.Lines.{name_at};
    ghost use Rattle.redcode_asm.specs.Formula.{variable_value};

    ghost value_of = { λ v n. variable_value v.warriors v.survivors (name_at v.names.now n) };

    fn value(&self, name: usize) -> Option<i64> {
        match self.names.name(name) {
            b"W" => Some(self.warriors),
            b"S" => Some(self.survivors),
            _ => None,
        }
    }
}

/// Returns whether a name is W or S.
fn is_variable(name: &[u8]) -> bool
    ensures { result ≡ is_variable name.now }
{
    name == b"W".as_slice() || name == b"S".as_slice()
}

/// Returns whether a token may occur in a formula: the only names allowed are W and S.
fn may_occur(names: &NameTable, kind: TokenKind) -> bool
    ensures { result ≡ may_occur names.now kind }
{
    match kind {
        TokenKind::Name(index) => is_variable(names.name(index)),
        _ => true,
    }
}

/// Returns whether each name among the tokens is W or S.
fn are_variables(names: &NameTable, tokens: &[Token]) -> bool
    ensures { result ≡ list_all (may_occur names.now) (kinds tokens.now) }
{
    for token in tokens {
        if !may_occur(names, token.kind) {
            return false;
        }
    }
    true
}

/// Checks that tokens are an expression in W and S. A bad shape is found before an unknown name.
fn check_formula(line: &LineTokens) -> Result<(), ExprFault>
    ensures { let f = scan_of line.now.tokens line.now.names in
        MatchResult result (λ _. checked_formula f ≡ Ok f) (λ fault. checked_formula f ≡ Err fault) }
{
    check_shape(&line.tokens)?;
    if !are_variables(&line.names, &line.tokens) {
        return Err(ExprFault::Unknown);
    }
    Ok(())
}

impl Formula {
    /// Reads a formula of at most 256 bytes.
    ///
    /// # Errors
    ///
    /// - `Syntax` if the text is too long or has a part that is no token
    /// - `Syntax` or `Depth` if the tokens don't have the shape of an expression
    /// - `Unknown` if there is a name other than W and S
    /// - `OutOfMemory` if an allocation fails
    pub fn new(alloc: Global, text: &[u8]) -> Result<Formula, FormulaFault>
        ensures { Checks result (formula_of text.now) }
    {
        if text.len() > MAX_FORMULA_LEN {
            return Err(FormulaFault::Expression(ExprFault::Syntax));
        }
        let line = match scan(alloc, text) {
            Ok(line) => line,
            Err(fault) => {
                return Err(match fault.problem {
                    TextProblem::OutOfMemory => FormulaFault::OutOfMemory,
                    _ => FormulaFault::Expression(ExprFault::Syntax),
                });
            }
        };
        match check_formula(&line) {
            Ok(()) => Ok(Formula { line }),
            Err(fault) => Err(FormulaFault::Expression(fault)),
        }
    }

    /// Returns the value for the given numbers of warriors and survivors. Does not allocate.
    ///
    /// # Errors
    ///
    /// `DivideByZero` or `Range`; no other error is possible.
    pub fn score(&self, warriors: i64, survivors: i64) -> Result<i64, ExprFault>
        ensures value { result ≡ score_of self.now warriors survivors }
        ensures few { IfErr result IsValueFault }
    {
        let variables = Variables {
            names: &self.line.names,
            warriors,
            survivors,
        };
        eval(&self.line.tokens, &variables)
    }
}
