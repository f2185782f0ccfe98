//! A source, and the values of its names.
ghost use Rattle.std.specs.Prelude.{◌≡◌, [], pos, ◌-ℤ◌, option_map};
ghost use Rattle.redcode_text.specs.Views.{predefined_of};
ghost use Rattle.redcode_text.specs.Lines.{is_keyword, name_at, predefined_value, with_current_line};
ghost use Rattle.redcode_asm.specs.Assembly.{last_where, placed, replaced};
ghost use Rattle.redcode_asm.specs.Code.Labels.{table_with};
ghost use Rattle.redcode_asm.specs.Code.Problems.{Gives};
ghost use Rattle.redcode_asm.specs.Code.Sources.{placed_of};

use crate::fault::{AsmProblem, AsmTokenProblem};
use crate::places::{Labels, Place, last_line};
use redcode_text::{Env, NameTable, PredefinedNames, Program, Token};
use std::alloc::Global;

/// A program with its labels and the predefined names.
#[derive(Clone, Copy)]
pub struct Source<'a> {
    pub program: &'a Program,
    pub labels: &'a Labels,
    pub predefined: &'a PredefinedNames,
    ghost table: { labels.now ≡ table_with [] (placed program.now) },
}

/// Returns the value of the name with this index, if it is predefined. `current_line` is the value of CURLINE.
fn known_value(
    predefined: &PredefinedNames,
    names: &NameTable,
    current_line: u32,
    name: usize,
) -> Option<i64>
    ensures { result ≡ predefined_value (with_current_line (predefined_of predefined.now) current_line) (name_at names.now name) }
{
    predefined.value_at(current_line, names.name(name))
}

/// The values of names on an instruction, ORG or END line: `index` instructions precede it, and labels are relative to
/// `origin`.
#[derive(Clone, Copy)]
pub struct LineNames<'a> {
    pub source: Source<'a>,
    pub origin: u32,
    pub index: u32,
}

/// Returns `index - origin`, which may be negative.
fn distance(index: u32, origin: u32) -> i64
    ensures { result ≡ pos index -ℤ pos origin }
{
    i64::from(index) - i64::from(origin)
}

impl<'a> Env for LineNames<'a> {
    ghost use Rattle.redcode_text.specs.Views.{predefined_of};
    ghost use Rattle.redcode_asm.specs.Assembly.{name_value};

    ghost value_of = { λ e n. name_value (predefined_of e.source.predefined.now) e.source.program.now e.origin e.index n };

    fn value(&self, name: usize) -> Option<i64> {
        match self.source.labels.index_of(name) {
            Some(index) => Some(distance(index, self.origin)),
            None => known_value(
                self.source.predefined,
                self.source.program.names(),
                self.index,
                name,
            ),
        }
    }
}

/// The values of names in an assert that `index` instructions precede. Labels have no value there.
#[derive(Clone, Copy)]
pub struct AssertNames<'a> {
    pub source: Source<'a>,
    pub index: u32,
}

impl<'a> Env for AssertNames<'a> {
    ghost use Rattle.redcode_text.specs.Views.{predefined_of};
    ghost use Rattle.redcode_asm.specs.Assembly.{known_value};

    ghost value_of = { λ e n. known_value (predefined_of e.source.predefined.now) e.source.program.now e.index n };

    fn value(&self, name: usize) -> Option<i64> {
        known_value(
            self.source.predefined,
            self.source.program.names(),
            self.index,
            name,
        )
    }
}

impl<'a> Source<'a> {
    /// Replaces the EQU names among tokens.
    pub fn replace(&self, alloc: Global, tokens: &[Token]) -> Result<Vec<Token>, AsmTokenProblem>
        ensures { Gives (λ made. made.items) result (replaced self.now.program.now tokens.now) }
    {
        match self.program.substitute(alloc, tokens) {
            Ok(made) => Ok(made),
            Err(fault) => Err(AsmProblem::of_text(fault.problem).at_token(fault.token)),
        }
    }

    /// Returns the values of names in the instruction with this index. The value of a label is its distance from the
    /// instruction.
    pub fn instruction_names(&self, index: u32) -> LineNames<'a>
        ensures { result ≡ record { source = self.now; origin = index; index = index } }
    {
        LineNames {
            source: *self,
            origin: index,
            index,
        }
    }

    /// Returns the values of names in an assert that `index` instructions precede.
    pub fn assert_names(&self, index: u32) -> AssertNames<'a>
        ensures { result ≡ record { source = self.now; index = index } }
    {
        AssertNames {
            source: *self,
            index,
        }
    }

    /// Returns the values of names in an ORG or END that `index` instructions precede. The value of a label is the
    /// index of its instruction.
    pub fn start_names(&self, index: u32) -> LineNames<'a>
        ensures { result ≡ record { source = self.now; origin = 0; index = index } }
    {
        LineNames {
            source: *self,
            origin: 0,
            index,
        }
    }

    /// Returns the last line whose operation is `word`, ignoring case.
    pub fn last_line(&self, word: &[u8]) -> Option<Place<'a>>
        ensures { option_map placed_of result
            ≡ last_where (λ l. is_keyword self.now.program.now.names word.now l.operation) (placed self.now.program.now) }
    {
        last_line(self.program.names(), self.program.lines(), word)
    }
}
