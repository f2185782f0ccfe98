//! The calls of a session, and its replies.

use mars_cell::Cell;
use thiserror::Error;

/// A call: a command or a move. Warriors, and the processes of a queue, are counted from 0.
#[derive(Clone, Copy, Debug, PartialEq, Eq)]
pub enum Call {
    /// Executes one turn.
    Step,
    /// Executes this number of turns, or fewer if the battle ends before.
    Run(u64),
    /// Executes turns until the battle is in this cycle or is over.
    Until(u64),
    /// Sets the cell at an address.
    SetCell(u64, Cell),
    /// Sets the cells from the first address to the second, both included.
    Fill(u64, u64, Cell),
    /// Moves a process of a warrior: warrior, index of the process in its queue, new address.
    MoveProcess(u64, u64, u64),
    /// Kills a process of a warrior: warrior, index of the process in its queue.
    Kill(u64, u64),
    /// Adds a process to a warrior: warrior, address.
    Spawn(u64, u64),
    /// Goes to the nearest marked place before the present one.
    Undo,
    /// Goes to the nearest marked place after the present one.
    Redo,
    /// Goes to the first place with this number of turns.
    Goto(u64),
}

/// The state of a session, as the reply to an accepted call.
#[derive(Clone, Copy, Debug, PartialEq, Eq)]
pub struct Standing {
    /// Number of turns executed.
    pub turns: u64,
    /// Number of complete cycles.
    pub cycle: u64,
    /// Number of the warrior whose turn is next, counted from 0.
    pub next: u64,
    /// Number of living warriors.
    pub alive: u64,
    /// Number of the present place in the history, counted from 0.
    pub position: u64,
    /// Number of the last place, counted from 0.
    pub last: u64,
}

/// The first reason for which a call is refused. It is displayed as its number, its name and its values.
#[derive(Clone, Copy, Debug, PartialEq, Eq, Error)]
pub enum Refusal {
    /// No turn is requested, or more turns or cells than one command may have.
    #[error("1 Count")]
    Count,
    /// An address is outside the core, or a fill has a first address above its last.
    #[error("2 Address")]
    Address,
    /// A number of the cell is outside the core.
    #[error("3 FieldOutside")]
    FieldOutside,
    /// There is no such warrior.
    #[error("4 NoSuchWarrior")]
    NoSuchWarrior,
    /// The warrior has no such process.
    #[error("5 NoSuchProcess")]
    NoSuchProcess,
    /// The warrior is dead, so it gets no process.
    #[error("6 WarriorDead")]
    WarriorDead,
    /// The warrior has as many processes as it may have.
    #[error("7 QueueFull")]
    QueueFull,
    /// The battle is over, so no turn is executed.
    #[error("8 Over")]
    Over,
    /// The cycle is the present one or has passed; the value is the present cycle.
    #[error("9 CyclePassed {0}")]
    CyclePassed(u64),
    /// There is no marked place before the present one, and no place was ever evicted.
    #[error("10 NothingToUndo")]
    NothingToUndo,
    /// There is no marked place after the present one.
    #[error("11 NothingToRedo")]
    NothingToRedo,
    /// No place has that number of turns; the values are the turns of the first and of the last place.
    #[error("12 NotInHistory {0} {1}")]
    NotInHistory(u64, u64),
    /// The limit of the history leaves room for only this number of places.
    #[error("13 JournalFull {0}")]
    JournalFull(u64),
    /// Memory for the places of the command cannot be allocated.
    #[error("14 OutOfMemory")]
    OutOfMemory,
    /// There is no marked place before the present one, and a place was evicted earlier.
    #[error("15 Forgotten")]
    Forgotten,
}

/// The reply to a call.
pub type Reply = Result<Standing, Refusal>;
