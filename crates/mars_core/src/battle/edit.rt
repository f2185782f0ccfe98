//! Manual changes of a battle.
ghost use Rattle.std.specs.Prelude.{◌≡◌, ◌<◌, ◌≤◌, length, IfOk, MatchOption, if◌then◌else◌};
ghost use Rattle.mars_core.specs.Limits.{max_warriors};
ghost use Rattle.mars_core.specs.State.{advanced as spec_advanced};
ghost use Rattle.mars_core.specs.Queue.{addresses_of};
ghost use Rattle.mars_core.specs.Validity.{IsValid};
ghost use Rattle.mars_core.specs.Leads.{Leads};
ghost use Rattle.mars_core.specs.Edit.{address_fault as spec_address_fault, cell_fault as spec_cell_fault, warrior_fault, process_fault, dead_warrior_fault, full_queue_fault, edit_fault as spec_edit_fault, edited, edit_record, IsProcess, CanSpawn};
ghost use Rattle.mars_cell.specs.Cells.{FitsCore};
ghost use Rattle.mars_cell.specs.Limits.{max_cycles};

use crate::battle::Battle;
use crate::deaths::note_death;
use crate::machine::clock::{Clock, advanced};
use crate::machine::writes::CellChange;
use crate::packed::PackedCell;
use crate::queue::ProcessQueue;
use crate::record::{Atom, Work, atom_without_death};
use arrayvec::ArrayVec;
use mars_cell::Cell;
use thiserror::Error;

/// A manual change of a battle.
///
/// Addresses and indices are 64-bit and are checked before they are narrowed, so that large values are rejected, not
/// truncated. A process is given by its place in its warrior's queue; place 0 is the front.
#[derive(Clone, Copy, Debug, PartialEq, Eq)]
pub enum Edit {
    /// Writes a cell: the address, the cell.
    SetCell(u64, Cell),
    /// Moves a process: the warrior, the place in its queue, the new address.
    MoveProcess(u64, u64, u64),
    /// Removes a process from its queue: the warrior, the place in its queue.
    KillProcess(u64, u64),
    /// Appends a process to a warrior's queue: the warrior, the address.
    Spawn(u64, u64),
}

/// The reason why an edit is rejected, displayed as its number and name: the first that applies, in this order.
#[derive(Clone, Copy, Debug, PartialEq, Eq, Error)]
pub enum EditFault {
    /// The address is not in the core.
    #[error("1 Address")]
    Address,
    /// A number of the cell is not an address in the core.
    #[error("2 FieldOutside")]
    FieldOutside,
    /// There is no such warrior.
    #[error("3 NoSuchWarrior")]
    NoSuchWarrior,
    /// The warrior has no such process.
    #[error("4 NoSuchProcess")]
    NoSuchProcess,
    /// The warrior is dead.
    #[error("5 WarriorDead")]
    WarriorDead,
    /// The warrior has as many processes as `Params::processes` allows.
    #[error("6 QueueFull")]
    QueueFull,
}

impl Battle {
    /// Returns the error that [`Battle::edit`] would return for this edit, or `None` if it would succeed.
    ///
    /// Does not allocate or change the battle, so a session can reject a command before it reserves memory.
    #[tactic(auto, unfolding(crate::specs::Edit::edit_fault))]
    pub fn edit_fault(&self, edit: Edit) -> Option<EditFault>
        ensures value { result ≡ spec_edit_fault self.now edit }
        ensures valid { IsValid self.now }
    {
        let core_size = self.params.core_size();
        match edit {
            Edit::SetCell(address, cell) => {
                address_fault(core_size, address).or(cell_fault(core_size, cell))
            }
            Edit::MoveProcess(warrior, place, address) => address_fault(core_size, address)
                .or(self.warrior_fault(warrior))
                .or(self.process_fault(warrior, place)),
            Edit::KillProcess(warrior, place) => self
                .warrior_fault(warrior)
                .or(self.process_fault(warrior, place)),
            Edit::Spawn(warrior, address) => address_fault(core_size, address)
                .or(self.warrior_fault(warrior))
                .or(self.dead_warrior_fault(warrior))
                .or(self.full_queue_fault(warrior)),
        }
    }

    fn warrior_fault(&self, warrior: u64) -> Option<EditFault>
        ensures { result ≡ warrior_fault self.now warrior }
    {
        if warrior < self.queues.len() as u64 {
            None
        } else {
            Some(EditFault::NoSuchWarrior)
        }
    }

    fn process_fault(&self, warrior: u64, place: u64) -> Option<EditFault>
        ensures { result ≡ process_fault self.now warrior place }
    {
        if place < self.queue_len(warrior as usize) as u64 {
            None
        } else {
            Some(EditFault::NoSuchProcess)
        }
    }

    fn dead_warrior_fault(&self, warrior: u64) -> Option<EditFault>
        ensures { result ≡ dead_warrior_fault self.now warrior }
    {
        if self.alive(warrior as usize) {
            None
        } else {
            Some(EditFault::WarriorDead)
        }
    }

    fn full_queue_fault(&self, warrior: u64) -> Option<EditFault>
        ensures { result ≡ full_queue_fault self.now warrior }
    {
        if self.queue_len(warrior as usize) < self.params.processes() as usize {
            None
        } else {
            Some(EditFault::QueueFull)
        }
    }

    /// Executes an edit and returns a record of the changes. Does not allocate.
    ///
    /// A battle that is over can be edited. A dead warrior cannot be revived.
    ///
    /// # Errors
    ///
    /// Returns the error of [`Battle::edit_fault`] and changes nothing, if there is one.
    pub fn edit(&mut self, edit: Edit) -> Result<Atom, EditFault>
        ensures answer { MatchOption (spec_edit_fault self.old edit) (result ≡ Ok (edit_record self.old edit))
            (λ fault. result ≡ Err fault) }
        ensures state { MatchOption (spec_edit_fault self.old edit) (self.new ≡ edited self.old edit) (λ _. self.new ≡ self.old) }
        ensures leads { IfOk result (λ atom. Leads self.old atom self.new) }
    {
        if let Some(fault) = self.edit_fault(edit) {
            return Err(fault);
        }
        Ok(self.make_edit(edit))
    }

    /// Executes an edit that has no error.
    fn make_edit(&mut self, edit: Edit) -> Atom
        requires valid { IsValid self.old }
        requires accepted { spec_edit_fault self.old edit ≡ None }
        ensures state { self.new ≡ edited self.old edit }
        ensures record { result ≡ edit_record self.old edit }
    {
        match edit {
            Edit::SetCell(address, cell) => self.set_cell(address as u32, cell),
            Edit::MoveProcess(warrior, place, address) => {
                self.move_process(warrior as u32, place as u32, address as u32)
            }
            Edit::KillProcess(warrior, place) => self.kill_process(warrior as u32, place as u32),
            Edit::Spawn(warrior, address) => self.spawn(warrior as u32, address as u32),
        }
    }

    #[tactic(auto, unfolding(crate::specs::Edit::edited, crate::specs::Edit::edit_record))]
    fn set_cell(&mut self, address: u32, cell: Cell) -> Atom
        requires address { address < self.old.params.core_size }
        requires cell { FitsCore self.old.params.core_size cell }
        ensures state { self.new ≡ edited self.old (Edit.SetCell address cell) }
        ensures record { result ≡ edit_record self.old (Edit.SetCell address cell) }
    {
        let before = self.core[address as usize];
        let after = PackedCell::new(cell);
        self.core[address as usize] = after;
        let mut cells = ArrayVec::new();
        cells.push(CellChange {
            address,
            before,
            after,
        });
        atom_without_death(Work::SetCell, cells, self.next)
    }

    #[tactic(auto, unfolding(crate::specs::Edit::edited, crate::specs::Edit::edit_record))]
    fn move_process(&mut self, warrior: u32, place: u32, address: u32) -> Atom
        requires process { IsProcess self.old warrior place }
        requires address { address < self.old.params.core_size }
        ensures state { self.new ≡ edited self.old (Edit.MoveProcess warrior place address) }
        ensures record { result ≡ edit_record self.old (Edit.MoveProcess warrior place address) }
    {
        let queue = &mut self.queues[warrior as usize];
        let from = queue.replace(place as usize, address);
        let work = Work::MoveProcess(warrior, place, from, address);
        atom_without_death(work, ArrayVec::new(), self.next)
    }

    #[tactic(auto, unfolding(crate::specs::Edit::edited, crate::specs::Edit::killed, crate::specs::Edit::edit_record))]
    fn kill_process(&mut self, warrior: u32, place: u32) -> Atom
        requires { IsProcess self.old warrior place }
        ensures state { self.new ≡ edited self.old (Edit.KillProcess warrior place) }
        ensures record { result ≡ edit_record self.old (Edit.KillProcess warrior place) }
    {
        let before = Clock {
            next: self.next,
            cycle: self.cycle,
        };
        let queue = &mut self.queues[warrior as usize];
        let address = queue.remove(place as usize);
        let died = queue.is_empty();
        note_death(&mut self.deaths, died, warrior, self.turns);
        let after = clock_after_kill(self.queues.as_slice(), before, died);
        self.next = after.next;
        self.cycle = after.cycle;
        Atom {
            work: Work::KillProcess(warrior, place, address),
            cells: ArrayVec::new(),
            queued: ArrayVec::new(),
            next_before: before.next,
            next_after: after.next,
            cycle_added: after.cycle != before.cycle,
            died,
        }
    }

    #[tactic(auto, unfolding(crate::specs::Edit::edited, crate::specs::Edit::edit_record))]
    fn spawn(&mut self, warrior: u32, address: u32) -> Atom
        requires { CanSpawn self.old warrior address }
        ensures state { self.new ≡ edited self.old (Edit.Spawn warrior address) }
        ensures record { result ≡ edit_record self.old (Edit.Spawn warrior address) }
    {
        let queue = &mut self.queues[warrior as usize];
        queue.push(address);
        atom_without_death(Work::Spawn(warrior, address), ArrayVec::new(), self.next)
    }
}

/// Returns an error if the address is outside the core.
fn address_fault(core_size: u32, address: u64) -> Option<EditFault>
    ensures { result ≡ spec_address_fault core_size address }
{
    if address < u64::from(core_size) {
        None
    } else {
        Some(EditFault::Address)
    }
}

/// Returns an error if a number of the cell is outside the core.
fn cell_fault(core_size: u32, cell: Cell) -> Option<EditFault>
    ensures { result ≡ spec_cell_fault core_size cell }
{
    if cell.a < core_size && cell.b < core_size {
        None
    } else {
        Some(EditFault::FieldOutside)
    }
}

/// Returns the clock after a process was removed from a queue. If its warrior `died`, the clock advances.
fn clock_after_kill(queues: &[ProcessQueue], clock: Clock, died: bool) -> Clock
    requires few { length queues.now ≤ max_warriors }
    requires cycle { clock.cycle ≤ max_cycles }
    ensures { result ≡ (if died then spec_advanced (addresses_of queues.now) clock clock.next else clock) }
{
    if died {
        advanced(queues, clock, clock.next as usize)
    } else {
        clock
    }
}
