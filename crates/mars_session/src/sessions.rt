//! A debugger's session over a tape.
ghost use Rattle.std.specs.Prelude.{◌≡◌, ◌++◌, ◌+◌, ◌≤◌, List, OnOk, OnErr, IsOk, Result, length, vec_len, vec_capacity};
ghost use Rattle.mars_session.specs.declared.calls.Standing.{Standing};
ghost use Rattle.mars_session.specs.declared.calls.Refusal.{Refusal};
ghost use Rattle.mars_session.specs.Script.{SessionValue, standing_of, CallsMeetSpec, CallMeetsSpec};

use crate::calls::{Call, Refusal, Reply, Standing};
use crate::tapes::Tape;
use crate::{commands, moves};
use mars_cell::Cell;
use mars_core::{Battle, Edit};
use std::alloc::AllocError;
use std::marker::Model;

/// A session: a tape, and the maximum number of places after its first one.
///
/// Each call returns the standing after it, or the first refusal that applies; a refused call changes nothing. The last
/// refusals of a command are `JournalFull`, if its places may exceed the limit, and then `OutOfMemory`, if the tape has
/// less room than these places may need and an allocation fails. A tape that evicts never causes these two refusals,
/// and ignores the limit. Moves do not allocate. Numbers are 64-bit and are checked before they are narrowed.
#[derive(Drop)]
pub struct Session<T: Tape> {
    tape: T,
    limit: u64,
}

impl<T: Tape> Model for Session<T> {
    ghost use Rattle.mars_session.specs.Script.{SessionValue};

    ghost Value = { SessionValue };

    ghost view = { λ s. record {
      state = record { history = T.history s.tape; limit = s.limit; retention = T.retention s.tape };
      room = T.room s.tape;
    } };
}

impl<T: Tape> Session<T> {
    /// Creates a session over a tape. `limit` is the maximum number of places after the first one; a tape that evicts ignores
    /// it.
    pub fn new(tape: T, limit: u64) -> Self
        ensures state { result.state ≡ record { history = T.history tape; limit = limit; retention = T.retention tape } }
        ensures room { result.room ≡ T.room tape }
    {
        Session { tape, limit }
    }

    /// Returns the tape, for what only a tape provides, such as [`crate::DeltaTape::atom`].
    pub fn tape(&self) -> &T
        ensures history { T.history result.now ≡ self.now.state.history }
        ensures retention { T.retention result.now ≡ self.now.state.retention }
        ensures room { T.room result.now ≡ self.now.room }
    {
        &self.tape
    }

    /// Returns the tape, at the present place of the session.
    pub fn into_tape(self) -> T
        ensures history { T.history result ≡ self.state.history }
        ensures retention { T.retention result ≡ self.state.retention }
        ensures room { T.room result ≡ self.room }
    {
        self.tape
    }

    /// Returns the battle of the present place.
    pub fn battle(&self) -> &Battle
        ensures { result.now ≡ self.now.state.history.present.state }
    {
        self.tape.now()
    }

    /// Returns the standing of the session.
    pub fn standing(&self) -> Standing
        ensures { result ≡ standing_of self.now.state.history }
    {
        commands::standing(&self.tape)
    }

    /// Executes one turn.
    ///
    /// # Errors
    ///
    /// `Over` if the battle is over.
    pub fn step(&mut self) -> Result<Standing, Refusal>
        ensures { CallMeetsSpec self.old Call.Step result self.new }
    {
        self.call(Call::Step)
    }

    /// Executes `n` turns, 1 to 1,000,000, or fewer if the battle ends before.
    ///
    /// # Errors
    ///
    /// - `Count` if `n` is out of range
    /// - `Over` if the battle is over
    pub fn run(&mut self, n: u64) -> Result<Standing, Refusal>
        ensures { CallMeetsSpec self.old (Call.Run n) result self.new }
    {
        self.call(Call::Run(n))
    }

    /// Executes turns until the battle is in this cycle or is over.
    ///
    /// # Errors
    ///
    /// - `Count` if the remaining cycles times the number of all warriors exceed 1,000,000
    /// - `Over` if the battle is over
    /// - `CyclePassed` if the cycle is not after the present one
    pub fn until(&mut self, cycle: u64) -> Result<Standing, Refusal>
        ensures { CallMeetsSpec self.old (Call.Until cycle) result self.new }
    {
        self.call(Call::Until(cycle))
    }

    /// Sets the cell at an address.
    ///
    /// # Errors
    ///
    /// - `Address` if the core has no such address
    /// - `FieldOutside` if a number of the cell is outside the core
    pub fn set_cell(&mut self, address: u64, cell: Cell) -> Result<Standing, Refusal>
        ensures { CallMeetsSpec self.old (Call.SetCell address cell) result self.new }
    {
        self.call(Call::SetCell(address, cell))
    }

    /// Sets the cells from one address to another, both included, one place each.
    ///
    /// # Errors
    ///
    /// - `Count` for more than 1,000,000 cells
    /// - `Address` if the core has no such address, or the first one is above the last one
    /// - `FieldOutside` if a number of the cell is outside the core
    pub fn fill(&mut self, from: u64, to: u64, cell: Cell) -> Result<Standing, Refusal>
        ensures { CallMeetsSpec self.old (Call.Fill from to cell) result self.new }
    {
        self.call(Call::Fill(from, to, cell))
    }

    /// Moves a process of a warrior to an address. `place` is its index in the queue, 0 at the front.
    ///
    /// # Errors
    ///
    /// - `Address` if the core has no such address
    /// - `NoSuchWarrior` if the battle has no such warrior
    /// - `NoSuchProcess` if the warrior has no such process
    pub fn move_process(
        &mut self,
        warrior: u64,
        place: u64,
        address: u64,
    ) -> Result<Standing, Refusal>
        ensures { CallMeetsSpec self.old (Call.MoveProcess warrior place address) result self.new }
    {
        self.call(Call::MoveProcess(warrior, place, address))
    }

    /// Kills a process of a warrior. `place` is its index in the queue, 0 at the front.
    ///
    /// # Errors
    ///
    /// - `NoSuchWarrior` if the battle has no such warrior
    /// - `NoSuchProcess` if the warrior has no such process
    pub fn kill(&mut self, warrior: u64, place: u64) -> Result<Standing, Refusal>
        ensures { CallMeetsSpec self.old (Call.Kill warrior place) result self.new }
    {
        self.call(Call::Kill(warrior, place))
    }

    /// Adds a process to a warrior.
    ///
    /// # Errors
    ///
    /// - `Address` if the core has no such address
    /// - `NoSuchWarrior` if the battle has no such warrior
    /// - `WarriorDead` if the warrior has no process
    /// - `QueueFull` if the warrior has the maximum number of processes
    pub fn spawn(&mut self, warrior: u64, address: u64) -> Result<Standing, Refusal>
        ensures { CallMeetsSpec self.old (Call.Spawn warrior address) result self.new }
    {
        self.call(Call::Spawn(warrior, address))
    }

    /// Goes back to the nearest marked place.
    ///
    /// # Errors
    ///
    /// If there is none:
    ///
    /// - `Forgotten` if a place was ever evicted
    /// - otherwise `NothingToUndo`
    pub fn undo(&mut self) -> Result<Standing, Refusal>
        ensures { CallMeetsSpec self.old Call.Undo result self.new }
    {
        self.call(Call::Undo)
    }

    /// Goes forward to the nearest marked place.
    ///
    /// # Errors
    ///
    /// `NothingToRedo` if there is none.
    pub fn redo(&mut self) -> Result<Standing, Refusal>
        ensures { CallMeetsSpec self.old Call.Redo result self.new }
    {
        self.call(Call::Redo)
    }

    /// Goes to the first place with this number of turns. Besides the places on the way, it passes at most one more.
    ///
    /// # Errors
    ///
    /// `NotInHistory` with the turns of the first and of the last place if there is none; it passes no place then.
    pub fn goto(&mut self, turns: u64) -> Result<Standing, Refusal>
        ensures { CallMeetsSpec self.old (Call.Goto turns) result self.new }
    {
        self.call(Call::Goto(turns))
    }

    /// Executes a call.
    pub fn call(&mut self, call: Call) -> Result<Standing, Refusal>
        ensures { CallMeetsSpec self.old call result self.new }
    {
        let Session { tape, limit } = self;
        let limit = *limit;
        match call {
            Call::Step => commands::step(tape, limit),
            Call::Run(n) => commands::run(tape, limit, n),
            Call::Until(cycle) => commands::until(tape, limit, cycle),
            Call::SetCell(address, cell) => commands::edit(
                tape,
                limit,
                Edit::SetCell(address, cell),
            ),
            Call::Fill(from, to, cell) => commands::fill(tape, limit, from, to, cell),
            Call::MoveProcess(warrior, place, address) => commands::edit(
                tape,
                limit,
                Edit::MoveProcess(warrior, place, address),
            ),
            Call::Kill(warrior, place) => commands::edit(
                tape,
                limit,
                Edit::KillProcess(warrior, place),
            ),
            Call::Spawn(warrior, address) => commands::edit(
                tape,
                limit,
                Edit::Spawn(warrior, address),
            ),
            Call::Undo => moves::undo(tape),
            Call::Redo => moves::redo(tape),
            Call::Goto(turns) => moves::goto(tape, turns),
        }
    }

    /// Executes calls in order and appends a reply for each to `out`.
    ///
    /// If a call itself runs out of memory, its reply is [`Refusal::OutOfMemory`] and the next call is executed. The first call
    /// runs out of memory only if the tape has less room than the call may need; for later calls nothing is promised.
    ///
    /// # Errors
    ///
    /// Returns an error and executes nothing if there is no memory for all replies.
    pub fn apply_all(&mut self, calls: &[Call], out: &mut Vec<Reply>) -> Result<(), AllocError>
        ensures ok { OnOk result ((replies : List (Result Standing Refusal)) × (out.new.items ≡ out.old.items ++ replies)
            × CallsMeetSpec self.old calls.now replies self.new) }
        ensures enough { vec_len out.old + length calls.now ≤ vec_capacity out.old → IsOk result }
        ensures err { OnErr result ((self.new ≡ self.old) × (out.new.items ≡ out.old.items)) }
    {
        out.reserve(calls.len())?;
        for call in calls {
            let reply = self.call(*call);
            out.push(reply).unwrap();
        }
        Ok(())
    }
}
