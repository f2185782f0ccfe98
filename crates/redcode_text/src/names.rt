//! The names of a text. Tokens refer to them by index.
ghost use Rattle.std.specs.Prelude.{◌≡◌, length, [], IfOk, OnOk, IsAscii};
ghost use Rattle.std.specs.Str.{str_eq_ignore_ascii_case};
ghost use Rattle.redcode_text.specs.Lines.{name_at};
ghost use Rattle.redcode_text.specs.Tokens.{name_index, with_name};

pub mod predefined;
pub mod set;

use crate::characters::is_word;
use indexmap::IndexSet;
use std::alloc::{AllocError, Global};
use std::marker::Model;

/// The names of a text, in the order of their first use.
///
/// The hashes are not seeded, so a source can have names that collide. They cost at most half a minute, and a program
/// that reads sources of strangers needs a time limit anyway.
#[derive(Drop)]
pub struct NameTable {
    names: IndexSet<String>,
}

impl Model for NameTable {
    ghost use Rattle.std.specs.Prelude.{List, ℕ, map, string_bytes};

    ghost Value = { List (List ℕ) };

    ghost view = { λ t. map (λ s. string_bytes s) t.names.keys };
}

impl NameTable {
    /// Returns an empty table of names.
    pub(crate) fn new(alloc: Global) -> Self
        ensures { result ≡ [] }
    {
        NameTable {
            names: IndexSet::new(alloc),
        }
    }

    /// Returns the index of `name`, and appends the name if it is new.
    pub(crate) fn index_of(&mut self, alloc: Global, name: &[u8]) -> Result<usize, AllocError>
        requires ascii { IsAscii name.now }
        ensures index { IfOk result (λ n. n ≡ name_index self.old name.now) }
        ensures names { OnOk result (self.new ≡ with_name self.old name.now) }
    {
        let Ok(name) = str::from_utf8(name) else {
            unreachable!()
        };
        if let Some(index) = self.names.get_index_of(name) {
            return Ok(index);
        }
        let (index, _) = self.names.insert_full(String::from_str(alloc, name)?)?;
        Ok(index)
    }

    /// Returns the number of names.
    pub fn len(&self) -> usize
        ensures { result ≡ length self.now }
    {
        self.names.len()
    }

    /// Returns the bytes of the name with this index, or no bytes if there is no such name.
    pub fn name(&self, index: usize) -> &[u8]
        ensures { result.now ≡ name_at self.now index }
    {
        match self.names.get_index(index) {
            Some(name) => name.as_bytes(),
            None => &[],
        }
    }

    /// Returns whether the name with this index is `word`, ignoring case.
    pub fn is_word(&self, index: usize, word: &[u8]) -> bool
        ensures { result ≡ str_eq_ignore_ascii_case (name_at self.now index) word.now }
    {
        is_word(self.name(index), word)
    }
}
