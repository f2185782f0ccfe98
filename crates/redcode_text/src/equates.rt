//! EQU names, and their replacement in tokens.
ghost use Rattle.std.specs.Prelude.{◌≡◌, ◌≤◌, [], ◌∷◌, ◌++◌, map, None, Ok, Err, IfOk, MatchResult, option_map, vec_len};
ghost use Rattle.redcode_text.specs.declared.limits.TheConstants.{MAX_REPLACED};
ghost use Rattle.redcode_text.specs.Equates.{Replaced, equate_lines, token_lines, one_line, one_more, kept_token, replaced_name, replaced_token, each_replaced, replacing, depth_limit, each_replaced_at_line, substitution};
ghost use Rattle.redcode_text.specs.Lines.{with_line};
ghost use Rattle.redcode_text.specs.Outcomes.{IsResult};
ghost use Rattle.redcode_text.specs.Code.Problems.{Gives};
ghost use Rattle.redcode_text.specs.Tokens.{at_line};

use crate::fault::{TextFault, TextProblem, TextTokenProblem};
use crate::limits::{MAX_NESTING, MAX_REPLACED, MAX_REPLACEMENTS};
use crate::token::{Token, TokenKind};
use indexmap::IndexMap;
use std::alloc::Global;
use std::marker::Model;

/// The EQU names in the order of their definitions, each with the lines of its definition.
#[derive(Drop)]
pub struct Equates {
    lines: IndexMap<usize, Vec<Vec<Token>>>,
}

impl Model for Equates {
    ghost use Rattle.std.specs.Prelude.{List, map};
    ghost use Rattle.redcode_text.specs.Equates.{Equate};

    ghost Value = { List Equate };

    ghost view = { λ s. map (λ e. record { name = e.0; lines = map (λ line. line.items) e.1.items }) s.lines.entries };
}

impl Equates {
    /// Returns an empty list of EQU names.
    pub fn new(alloc: Global) -> Self
        ensures { result ≡ [] }
    {
        Equates {
            lines: IndexMap::new(alloc),
        }
    }

    /// Returns the lines of the definition of an EQU name, by its index among the names.
    pub fn lines_of(&self, name: usize) -> Option<&[Vec<Token>]>
        ensures { option_map (λ lines. map (λ line. line.items) lines.now) result ≡ equate_lines self.now name }
    {
        let lines = self.lines.get(&name)?;
        Some(lines)
    }
}

/// The resulting tokens so far, and the number of names that were replaced.
#[derive(Drop)]
struct Replaced {
    tokens: Vec<Token>,
    count: usize,
    ghost few: { vec_len tokens ≤ MAX_REPLACED },
}

impl Model for Replaced {
    ghost use Rattle.redcode_text.specs.Equates.{Replaced};

    ghost Value = { Replaced };

    ghost view = { λ r. record { tokens = r.tokens.items; count = r.count } };
}

impl Replaced {
    /// Counts the replacement of the EQU name `name`, unless the limit is reached.
    fn count_one(&mut self, name: Token) -> Result<(), TextTokenProblem>
        ensures { Gives (λ _. self.new) result (one_more name self.old) }
    {
        if self.count >= MAX_REPLACEMENTS {
            return Err(TextProblem::TooLong.at_token(Some(name.span())));
        }
        self.count += 1;
        Ok(())
    }

    /// Appends a token that isn't an EQU name, unless the limit is reached.
    fn keep(&mut self, token: Token) -> Result<(), TextTokenProblem>
        ensures { Gives (λ _. self.new) result (kept_token self.old token) }
    {
        if self.tokens.len() >= MAX_REPLACED {
            return Err(TextProblem::TooLong.at_token(Some(token.span())));
        }
        match self.tokens.push(token) {
            Ok(()) => Ok(()),
            Err(_) => Err(TextProblem::OutOfMemory.at_token(None)),
        }
    }
}

/// Returns the tokens of the EQU name `name`, whose definition `lines` may have at most one line.
fn only_line(name: Token, lines: &[Vec<Token>]) -> Result<&[Token], TextTokenProblem>
    ensures { let defined = one_line name (map (λ line. line.items) lines.now) in MatchResult result (λ line. defined ≡ Ok line.now)
        (λ problem. defined ≡ Err problem) }
{
    match lines {
        [] => Ok(&[]),
        [line] => Ok(line),
        _ => Err(TextProblem::BadToken.at_token(Some(name.span()))),
    }
}

impl Equates {
    /// Appends the expansion of the EQU name `name`, whose definition is `lines`, to `replaced`. At most `depth` expansions
    /// may nest.
    #[cycle(replacing)]
    fn replace(
        &self,
        depth: usize,
        name: Token,
        lines: &[Vec<Token>],
        replaced: &mut Replaced,
    ) -> Result<(), TextTokenProblem>
        ensures { Gives (λ _. replaced.new) result
            (replaced_name (replacing depth self.now) replaced.old name (map (λ line. line.items) lines.now)) }
    {
        if depth == 0 {
            return Err(TextProblem::EquDepth.at_token(Some(name.span())));
        }
        let line = only_line(name, lines)?;
        replaced.count_one(name)?;
        self.replace_each(depth - 1, line, replaced)
    }

    /// Appends a token, or its expansion if it is an EQU name, to `replaced`. At most `depth` expansions may nest.
    #[cycle(replacing)]
    fn put(
        &self,
        depth: usize,
        token: Token,
        replaced: &mut Replaced,
    ) -> Result<(), TextTokenProblem>
        ensures { Gives (λ _. replaced.new) result
            (replaced_token (replacing depth self.now) replaced.old token (token_lines self.now token.kind)) }
    {
        let TokenKind::Name(name) = token.kind else {
            return replaced.keep(token);
        };
        match self.lines_of(name) {
            Some(lines) => self.replace(depth, token, lines, replaced),
            None => replaced.keep(token),
        }
    }

    /// Appends tokens, with each EQU name expanded, to `replaced`. At most `depth` expansions may nest.
    #[cycle(replacing)]
    fn replace_each(
        &self,
        depth: usize,
        tokens: &[Token],
        replaced: &mut Replaced,
    ) -> Result<(), TextTokenProblem>
        ensures { Gives (λ _. replaced.new) result (each_replaced self.now (replacing depth self.now) replaced.old tokens.now) }
    {
        for token in tokens {
            self.put(depth, *token, replaced)?;
        }
        Ok(())
    }
}

impl Equates {
    /// Appends a token of a source, or its expansion, to `replaced`. An error gets the line of the token.
    fn place_at_line(&self, token: Token, replaced: &mut Replaced) -> Result<(), TextFault>
        ensures { IsResult (λ _. replaced.new) result
            (at_line token.line (replaced_token (replacing depth_limit self.now) replaced.old token
            (token_lines self.now token.kind))) }
    {
        match self.put(MAX_NESTING, token, replaced) {
            Ok(()) => Ok(()),
            Err(problem) => Err(problem.at_line(token.line)),
        }
    }

    /// Appends tokens of a source, with each EQU name expanded, to `replaced`. An error gets the line of its token.
    fn place_each(&self, tokens: &[Token], replaced: &mut Replaced) -> Result<(), TextFault>
        ensures { IsResult (λ _. replaced.new) result (each_replaced_at_line self.now replaced.old tokens.now) }
    {
        for token in tokens {
            self.place_at_line(*token, replaced)?;
        }
        Ok(())
    }

    /// Replaces each EQU name of `tokens` by its definition, and the names in the definition in turn, at most 32 deep.
    pub fn substitute(&self, alloc: Global, tokens: &[Token]) -> Result<Vec<Token>, TextFault>
        ensures value { IsResult (λ made. made.items) result (substitution self.now tokens.now) }
        ensures few { IfOk result (λ made. vec_len made ≤ MAX_REPLACED) }
    {
        let mut replaced = Replaced {
            tokens: Vec::new(alloc),
            count: 0,
        };
        self.place_each(tokens, &mut replaced)?;
        let Replaced { tokens, count: _ } = replaced;
        Ok(tokens)
    }
}

impl Equates {
    /// Adds an EQU name with the first line of its definition.
    pub fn define(
        &mut self,
        alloc: Global,
        name: usize,
        line: Vec<Token>,
    ) -> Result<(), TextTokenProblem>
        requires { equate_lines self.old name ≡ None }
        ensures { Gives (λ _. self.new) result (Ok (self.old ++ record { name = name; lines = line.items ∷ [] } ∷ [])) }
    {
        let mut lines = Vec::new(alloc);
        lines.push(line)?;
        let _ = self.lines.insert(name, lines)?;
        Ok(())
    }

    /// Adds a line to the definition of the last EQU name.
    pub fn add_line(&mut self, line: Vec<Token>) -> Result<(), TextTokenProblem>
        ensures { Gives (λ _. self.new) result (Ok (with_line self.old line.items)) }
    {
        let Some((name, mut lines)) = self.lines.pop() else {
            return Ok(());
        };
        lines.push(line)?;
        let _ = self.lines.insert(name, lines)?;
        Ok(())
    }
}
