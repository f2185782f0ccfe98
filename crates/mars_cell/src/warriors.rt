//! Warriors: programs with a name, an author and a start.
ghost use Rattle.std.specs.Prelude.{◌≡◌, ◌≤◌, ◌<◌, length, string_bytes, IfOk};

use crate::instruction::Cell;
use std::alloc::AllocError;
use std::marker::Model;
use thiserror::Error;

/// A program with a name and an author. It has at least one cell and starts at one of its cells.
///
/// Name and author have at most 60 bytes, each from 32 to 126.
#[derive(Debug, Drop)]
pub struct Warrior {
    name: String,
    author: String,
    cells: Vec<Cell>,
    start: u32,
}

impl Model for Warrior {
    ghost use Rattle.std.specs.Prelude.{string_bytes};
    ghost use Rattle.mars_cell.specs.Warriors.{WarriorValue, IsWarrior};

    ghost Value = { WarriorValue };

    ghost view = { λ w. record {
      name = string_bytes w.name;
      author = string_bytes w.author;
      cells = w.cells.items;
      start = w.start;
    } };

    ghost invariant = { λ w. IsWarrior (record {
      name = string_bytes w.name;
      author = string_bytes w.author;
      cells = w.cells.items;
      start = w.start;
    }) };
}

/// The reason why a program is not a warrior. It is displayed as its number and name.
#[derive(Clone, Copy, Debug, PartialEq, Eq, Error)]
pub enum WarriorFault {
    /// There are no cells.
    #[error("1 Empty")]
    Empty,
    /// The start is not the index of a cell.
    #[error("2 BadOrigin")]
    BadOrigin,
}

impl Warrior {
    ghost use Rattle.mars_cell.specs.WarriorFaults.{checked_warrior};
    ghost use Rattle.mars_cell.specs.Warriors.{IsName};

    /// Makes a warrior that starts at the cell with index `start`.
    ///
    /// # Errors
    ///
    /// Returns the first error in the order of [`WarriorFault`] and drops the arguments.
    pub fn new(
        name: String,
        author: String,
        cells: Vec<Cell>,
        start: u32,
    ) -> Result<Warrior, WarriorFault>
        requires name { IsName (string_bytes name) }
        requires author { IsName (string_bytes author) }
        ensures { result ≡ checked_warrior (record {
          name = string_bytes name;
          author = string_bytes author;
          cells = cells.items;
          start = start;
        }) }
    {
        if cells.is_empty() {
            return Err(WarriorFault::Empty);
        }
        if start as usize >= cells.len() {
            return Err(WarriorFault::BadOrigin);
        }
        Ok(Warrior {
            name,
            author,
            cells,
            start,
        })
    }

    /// Returns the warrior's name: at most 60 bytes, each from 32 to 126.
    pub fn name(&self) -> &str
        ensures value { result.now ≡ self.now.name }
        ensures is_name { IsName self.now.name }
    {
        self.name.as_str()
    }

    /// Returns the author's name: at most 60 bytes, each from 32 to 126.
    pub fn author(&self) -> &str
        ensures value { result.now ≡ self.now.author }
        ensures is_name { IsName self.now.author }
    {
        self.author.as_str()
    }

    /// Returns the cells, at least one.
    pub fn cells(&self) -> &[Cell]
        ensures value { result.now ≡ self.now.cells }
        ensures some { 1 ≤ length self.now.cells }
    {
        self.cells.as_slice()
    }

    /// Returns the index of the cell to start at.
    pub fn start(&self) -> u32
        ensures value { result ≡ self.now.start }
        ensures inside { result < length self.now.cells }
    {
        self.start
    }

    /// Returns a copy, allocated by the allocators of the warrior's own texts and cells.
    ///
    /// # Errors
    ///
    /// Returns an error only if an allocation fails.
    pub fn copy(&self) -> Result<Warrior, AllocError>
        ensures { IfOk result (λ w. w ≡ self.now) }
    {
        Ok(Warrior {
            name: self.name.clone()?,
            author: self.author.clone()?,
            cells: self.cells.clone()?,
            start: self.start,
        })
    }
}
