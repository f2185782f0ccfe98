//! Records of turns as numbers.
ghost use Rattle.std.specs.Prelude.{◌≡◌, if◌then◌else◌, slice_get, slice_index_or};
ghost use Rattle.mars_c.specs.Records.{change_of as spec_change_of, plain_change, plain_record, taken_by, turn_row};

use crate::cells::MarsCell;
use crate::playing::TurnRow;
use mars_core::{Atom, Battle, CellChange, Work};

/// A write of a cell: its address, and the cell before and after.
#[repr(C)]
#[derive(Clone, Copy)]
pub struct MarsChange {
    pub address: u32,
    pub before: MarsCell,
    pub after: MarsCell,
}

/// The record of a turn. Fields that do not apply are 0. Warriors are numbered from 0 in the order of their turns.
#[repr(C)]
#[derive(Clone, Copy)]
pub struct MarsRecord {
    /// Warrior of the turn.
    pub warrior: u32,
    /// Address of the process that was executed.
    pub address: u32,
    /// Warrior whose turn is next.
    pub next: u32,
    /// Number of cycles that are complete after the turn.
    pub cycle: u32,
    /// 1 if the warrior died, else 0.
    pub died: u32,
    /// Number of writes, 0 to 3.
    pub changes: u32,
    /// Number of processes that were queued, 0 to 2.
    pub queued: u32,
    /// Writes, in the order of execution.
    pub change: [MarsChange; 3],
    /// Addresses of the processes that were queued.
    pub process: [u32; 2],
}

/// Returns a write as numbers.
fn plain(change: &CellChange) -> MarsChange
    ensures { result ≡ plain_change change.now }
{
    MarsChange {
        address: change.address,
        before: MarsCell::of(&change.before.cell()),
        after: MarsCell::of(&change.after.cell()),
    }
}

/// Returns a write as numbers, or zeros if there is none.
fn change_of(change: Option<CellChange>) -> MarsChange
    ensures { result ≡ spec_change_of change }
{
    let blank = MarsCell {
        op: 0,
        modifier: 0,
        a_mode: 0,
        b_mode: 0,
        a: 0,
        b: 0,
    };
    match change {
        Some(change) => plain(&change),
        None => MarsChange {
            address: 0,
            before: blank,
            after: blank,
        },
    }
}

/// Returns the write at index `place`, or `None` if there is none.
fn change_at(changes: &[CellChange], place: usize) -> Option<CellChange>
    ensures { result ≡ slice_get changes.now place }
{
    changes.get(place).copied()
}

/// Returns the address at index `place`, or 0 if there is none.
pub fn address_at(addresses: &[u32], place: usize) -> u32
    ensures { result ≡ slice_index_or addresses.now place 0 }
{
    addresses.get(place).copied().unwrap_or(0)
}

/// Returns 1 for true and 0 for false.
fn number_of(so: bool) -> u32
    ensures { result ≡ (if so then 1 else 0) }
{
    if so { 1 } else { 0 }
}

/// Returns the warrior of a turn and the address of its process; 0 and 0 for edits.
fn taken(work: Work) -> (u32, u32)
    ensures { result ≡ taken_by work }
{
    match work {
        Work::Turn(warrior, address) => (warrior, address),
        Work::SetCell
        | Work::MoveProcess(_, _, _, _)
        | Work::KillProcess(_, _, _)
        | Work::Spawn(_, _) => (0, 0),
    }
}

impl MarsRecord {
    /// Writes the record of a turn as numbers. `cycle` is the number of cycles that are complete after the turn.
    ///
    /// The changes are written one by one, because the numbers of all changes at once would not fit into registers.
    fn write(&mut self, atom: &Atom, cycle: u32)
        ensures { self.new ≡ plain_record atom.now cycle }
    {
        let (warrior, address) = taken(atom.work);
        let cells = atom.cells.as_slice();
        let queued = atom.queued.as_slice();
        *self = MarsRecord {
            warrior,
            address,
            next: atom.next_after,
            cycle,
            died: number_of(atom.died),
            changes: cells.len() as u32,
            queued: queued.len() as u32,
            change: [change_of(None); 3],
            process: [address_at(queued, 0), address_at(queued, 1)],
        };
        self.change[0] = change_of(change_at(cells, 0));
        self.change[1] = change_of(change_at(cells, 1));
        self.change[2] = change_of(change_at(cells, 2));
    }
}

impl TurnRow for MarsRecord {
    ghost row_of = { turn_row };

    fn record_turn(battle: &mut Battle, atom: &mut Atom, row: &mut Self) {
        battle.turn_into(atom);
        row.write(atom, battle.cycle());
    }
}
