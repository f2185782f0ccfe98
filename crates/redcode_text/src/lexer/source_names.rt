//! The names of a source that is being read, and the open loops.
ghost use Rattle.std.specs.Prelude.{◌≡◌, ◌∷◌, length, drop, option_map, [], IfOk, OnOk, IsAscii};
ghost use Rattle.redcode_text.specs.Code.Counters.{AreThere, IsThere, innermost_counter};
ghost use Rattle.redcode_text.specs.Lines.{name_at};
ghost use Rattle.redcode_text.specs.Tokens.{name_index, round_of, with_name};

use crate::lexer::open_loops::{OpenLoop, find_round};
use crate::names::NameTable;
use std::alloc::{AllocError, Global};

/// The names of a source that is being read, and the open loops, innermost last. The counters of the loops are among the
/// names.
#[derive(Drop)]
pub struct SourceNames {
    pub table: NameTable,
    loops: Vec<OpenLoop>,
    ghost are_there: { AreThere table loops.items },
}

impl SourceNames {
    ghost use Rattle.redcode_text.specs.Code.SourceLoops.{loops_of};

    /// Returns an empty list of names, without open loops.
    pub fn new(alloc: Global) -> Self
        ensures table { result.table ≡ [] }
        ensures loops { loops_of result ≡ [] }
    {
        SourceNames {
            table: NameTable::new(alloc),
            loops: Vec::new(alloc),
        }
    }

    /// Returns the names, without the loops.
    pub fn into_table(self) -> NameTable
        ensures { result ≡ self.table }
    {
        let SourceNames { table, .. } = self;
        table
    }

    /// Returns the index of `name`, and appends the name if it is new. An error closes all loops.
    pub fn index_of(&mut self, alloc: Global, name: &[u8]) -> Result<usize, AllocError>
        requires ascii { IsAscii name.now }
        ensures index { IfOk result (λ n. n ≡ name_index self.old.table name.now) }
        ensures names { OnOk result (self.new.table ≡ with_name self.old.table name.now) }
        ensures loops { OnOk result (loops_of self.new ≡ loops_of self.old) }
    {
        let Ok(index) = self.table.index_of(alloc, name) else {
            // The names may have changed, so the counters may not be among them. Nothing more is read after memory ran
            // out.
            self.loops.clear();
            return Err(AllocError);
        };
        Ok(index)
    }

    /// Returns the number of open loops.
    pub fn depth(&self) -> usize
        ensures { result ≡ length (loops_of self.now) }
    {
        self.loops.len()
    }

    /// Opens a loop in the iteration `round`. It becomes the innermost loop.
    pub fn open_loop(&mut self, counter: Option<usize>, round: u32) -> Result<(), AllocError>
        requires there { IsThere self.old.table counter }
        ensures loops { OnOk result (loops_of self.new
            ≡ record { counter = option_map (name_at self.old.table) counter; round = round } ∷ loops_of self.old) }
        ensures table { self.new.table ≡ self.old.table }
    {
        self.loops.push(OpenLoop { counter, round })?;
        Ok(())
    }

    /// Closes the innermost loop, if a loop is open, and returns its counter, if it has one.
    pub fn close_loop(&mut self) -> Option<usize>
        ensures counter { option_map (name_at self.new.table) result ≡ innermost_counter (loops_of self.old) }
        ensures there { IsThere self.new.table result }
        ensures loops { loops_of self.new ≡ drop 1 (loops_of self.old) }
        ensures table { self.new.table ≡ self.old.table }
    {
        match self.loops.pop() {
            Some(innermost) => innermost.counter,
            None => None,
        }
    }

    /// Returns the iteration of the innermost loop whose counter is `name`, if there is one.
    pub fn round_of(&self, name: &[u8]) -> Option<u32>
        ensures { result ≡ round_of (loops_of self.now) name.now }
    {
        find_round(&self.table, &self.loops, name)
    }
}
