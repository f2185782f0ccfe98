//! Records of turns and edits, which suffice to step back and forth over them.
ghost use Rattle.std.specs.Prelude.{◌≡◌, [], false};
ghost use Rattle.mars_core.specs.Record.{warrior_of as spec_warrior_of, turns_of as spec_turns_of, cycles_of as spec_cycles_of};
ghost use Rattle.mars_core.specs.Code.Turns.{made_atom};

pub mod redo;
pub mod undo;

use crate::machine::clock::Clock;
use crate::machine::turn::MadeTurn;
use crate::machine::writes::CellChange;
use arrayvec::ArrayVec;

/// The kind of a turn or edit. Warriors and places in a queue are counted from 0; place 0 is the front.
#[derive(Clone, Copy, Debug, PartialEq, Eq)]
pub enum Work {
    /// A turn: the warrior, and the address that was taken from its queue.
    Turn(u32, u32),
    /// A cell was set; the only change of the record has its address.
    SetCell,
    /// A process was moved: the warrior, the place in its queue, the address before, the address after.
    MoveProcess(u32, u32, u32, u32),
    /// A process was removed: the warrior, the place in its queue, the address.
    KillProcess(u32, u32, u32),
    /// A process was added: the warrior, the address.
    Spawn(u32, u32),
}

/// The record of one turn or edit.
///
/// A record has the kind of work, each write of a cell in the order of execution, the addresses that a turn actually
/// queued, the next warrior before and after, whether a cycle was completed, and whether the warrior died.
#[derive(Debug, Drop)]
pub struct Atom {
    pub work: Work,
    pub cells: ArrayVec<CellChange, 3>,
    pub queued: ArrayVec<u32, 2>,
    pub next_before: u32,
    pub next_after: u32,
    pub cycle_added: bool,
    pub died: bool,
}

impl Default for Atom {
    /// Returns a record that is meant to be overwritten.
    #[inline(always)]
    fn default() -> Self {
        atom_without_death(Work::SetCell, ArrayVec::new(), 0)
    }
}

/// Returns the warrior whose queue the work changes, if there is one.
pub fn warrior_of(work: Work) -> Option<u32>
    ensures { result ≡ spec_warrior_of work }
{
    match work {
        Work::SetCell => None,
        Work::Turn(warrior, _)
        | Work::MoveProcess(warrior, _, _, _)
        | Work::KillProcess(warrior, _, _)
        | Work::Spawn(warrior, _) => Some(warrior),
    }
}

/// Returns the number of turns that the work counts as: 1 for a turn, 0 for an edit.
pub fn turns_of(work: Work) -> u32
    ensures { result ≡ spec_turns_of work }
{
    match work {
        Work::Turn(_, _) => 1,
        Work::SetCell
        | Work::MoveProcess(_, _, _, _)
        | Work::KillProcess(_, _, _)
        | Work::Spawn(_, _) => 0,
    }
}

/// Returns the number of completed cycles that a work adds: 1 if `added`, else 0.
pub fn cycles_of(added: bool) -> u32
    ensures { result ≡ spec_cycles_of added }
{
    if added { 1 } else { 0 }
}

/// Completes the record of a turn, which already has the changes of cells.
#[inline(always)]
pub fn note_turn(atom: &mut Atom, before: Clock, made: MadeTurn)
    ensures { atom.new ≡ made_atom before made atom.old.cells }
{
    atom.work = Work::Turn(before.next, made.taken);
    atom.queued = made.queued.list();
    atom.next_before = before.next;
    atom.next_after = made.clock.next;
    atom.cycle_added = made.clock.cycle != before.cycle;
    atom.died = made.died;
}

/// Returns the record of an edit that kills no warrior and therefore leaves the clock unchanged.
pub fn atom_without_death(work: Work, cells: ArrayVec<CellChange, 3>, next: u32) -> Atom
    ensures { result ≡ record {
      work = work;
      cells = cells;
      queued = record { items = [] };
      next_before = next;
      next_after = next;
      cycle_added = false;
      died = false;
    } }
{
    Atom {
        work,
        cells,
        queued: ArrayVec::new(),
        next_before: next,
        next_after: next,
        cycle_added: false,
        died: false,
    }
}
