//! Searches for turns: conditions on the cells that a turn executes, changes or reads (`specs/Search`).
ghost use Rattle.std.specs.Prelude.{◌≡◌, ◌<◌, ◌≤◌, ◌==◌, All, length, true};
ghost use Rattle.std.specs.List.{list_all, list_any};
ghost use Rattle.mars_cell.specs.Cells.{op_index};
ghost use Rattle.mars_core.specs.Code.Searches.{AreUsed, IsSeen};
ghost use Rattle.mars_core.specs.Search.{are_on as spec_are_on, holds, is_same, is_within as spec_is_within, meets as spec_meets, number_of, on, one_meets as spec_one_meets};
ghost use Rattle.mars_core.specs.State.{State, queue_of};
ghost use Rattle.mars_core.specs.Touched.{touched_in_turn};
ghost use Rattle.mars_core.specs.Turn.{front_of};
ghost use Rattle.mars_core.specs.declared.machine.writes.CellChange.{CellChange as Change};

use crate::machine::places::cell_at;
use crate::machine::touched::MAX_TOUCHED;
use crate::machine::writes::CellChange;
use crate::packed::PackedCell;
use crate::past::{Past, cell_before, is_changed};
use crate::record::Atom;
use arrayvec::ArrayVec;

/// A way in which a turn uses a cell.
#[derive(Clone, Copy, Debug)]
pub enum Way {
    /// The turn executes the cell.
    Executes,
    /// The turn changes the cell: a different cell is there afterwards.
    Changes,
    /// The turn touches the cell and does not write it.
    Reads,
}

/// A number of a turn, or of a cell that the turn uses.
#[derive(Clone, Copy, Debug)]
pub enum Number {
    /// The warrior of the turn.
    Warrior,
    /// The number of processes that the turn queued: 2 if it split, 0 if its process ended.
    Queued,
    /// 1 if the warrior died in the turn, else 0.
    Died,
    /// The address of the cell.
    Address,
    /// The owner of the cell before the turn.
    Owner,
    /// The number of the turn that changed the cell last before the turn.
    Turn,
    /// The origin of the cell before the turn.
    Origin,
    /// The index of the opcode of the cell before the turn.
    Opcode,
    /// The index of the opcode of the cell after the turn.
    NewOpcode,
}

/// A condition on a cell that a turn uses: a number is in the range from `first` to `last`, both included. If `last` is
/// less than `first`, the range wraps around: it has the numbers from `first` on and those up to `last`.
#[derive(Clone, Copy, Debug)]
pub struct Condition {
    pub way: Way,
    pub number: Number,
    pub first: u32,
    pub last: u32,
}

/// A turn that was found.
#[repr(C)]
#[derive(Clone, Copy, Debug, PartialEq, Eq)]
pub struct Found {
    /// The number of the turn, from 1.
    pub turn: u32,
    /// The warrior of the turn.
    pub warrior: u32,
    /// The number of processes that the turn queued: 2 if it split, 0 if its process ended.
    pub queued: u32,
    /// The address of the cell that the turn executed.
    pub address: u32,
    /// The past of the executed cell before the turn.
    pub past: Past,
}

/// A turn that was executed: its record, the core after it, and the pasts before it.
#[derive(Clone, Copy)]
pub struct Seen<'t> {
    pub core: &'t [PackedCell],
    pub atom: &'t Atom,
    pub pasts: &'t [Past],
}

/// Returns whether a number is in the range from `first` to `last`, which wraps around if `last` is less than `first`.
fn is_within(first: u32, last: u32, number: u32) -> bool
    ensures { result ≡ spec_is_within first last number }
{
    if first <= last {
        first <= number && number <= last
    } else {
        first <= number || number <= last
    }
}

/// Returns whether a condition is on this way of using a cell.
fn is_on(way: Way, condition: Condition) -> bool
    ensures { result ≡ is_same way condition.way }
{
    match (way, condition.way) {
        (Way::Executes, Way::Executes) | (Way::Changes, Way::Changes) | (Way::Reads, Way::Reads) =>
            true,
        _ => false,
    }
}

/// Returns whether any of the conditions is on this way of using a cell.
pub fn are_on(way: Way, conditions: &[Condition]) -> bool
    ensures { result ≡ spec_are_on way conditions.now }
{
    for condition in conditions {
        if is_on(way, *condition) {
            return true;
        }
    }
    false
}

/// Returns a number of a turn, or of the cell at an address that the turn uses.
fn number_in(seen: Seen<'_>, number: Number, address: u32) -> u32
    requires inside { address < length seen.core.now }
    requires size { length seen.pasts.now ≡ length seen.core.now }
    ensures { (s : State) → IsSeen s seen.entry.core.now seen.entry.atom.now → result ≡ number_of number s seen.entry.pasts.now address }
{
    match number {
        Number::Warrior => seen.atom.next_before,
        Number::Queued => seen.atom.queued.len() as u32,
        Number::Died => if seen.atom.died { 1 } else { 0 },
        Number::Address => address,
        Number::Owner => seen.pasts[address as usize].owner,
        Number::Turn => seen.pasts[address as usize].turn,
        Number::Origin => seen.pasts[address as usize].origin,
        Number::Opcode => opcode(cell_before(seen.core, seen.atom.cells.as_slice(), address)),
        Number::NewOpcode => opcode(cell_at(seen.core, address)),
    }
}

/// Returns the index of the opcode of a cell.
fn opcode(cell: PackedCell) -> u32
    ensures { result ≡ op_index cell.op }
{
    u32::from(cell.op().index())
}

/// Returns whether all conditions on this way of using a cell hold for the cell at an address.
fn all_hold(way: Way, conditions: &[Condition], seen: Seen<'_>, address: u32) -> bool
    requires inside { address < length seen.core.now }
    requires size { length seen.pasts.now ≡ length seen.core.now }
    ensures { (s : State) → IsSeen s seen.entry.core.now seen.entry.atom.now
        → result ≡ list_all (holds s seen.entry.pasts.now address) (on way conditions.now) }
{
    for condition in conditions {
        let Condition {
            number,
            first,
            last,
            ..
        } = *condition;
        if is_on(way, *condition) && !is_within(first, last, number_in(seen, number, address)) {
            return false;
        }
    }
    true
}

/// Returns whether a turn uses a cell in this way for which all conditions on this way hold. `used` has the addresses
/// of all cells that the turn uses in this way.
fn one_meets(way: Way, conditions: &[Condition], seen: Seen<'_>, used: &[u32]) -> bool
    requires inside { All (λ address. address < length seen.core.now) used.now }
    requires size { length seen.pasts.now ≡ length seen.core.now }
    ensures { (s : State) → IsSeen s seen.entry.core.now seen.entry.atom.now → AreUsed way s used.now
        → result ≡ spec_one_meets way conditions.now s seen.entry.pasts.now }
{
    for address in used {
        if all_hold(way, conditions, seen, *address) {
            return true;
        }
    }
    false
}

/// Returns whether any of `writes` is at `address`.
fn is_written(writes: &[CellChange], address: u32) -> bool
    ensures { result ≡ list_any (λ (write : Change). write.address == address) writes.now }
{
    for write in writes {
        if write.address == address {
            return true;
        }
    }
    false
}

/// Returns the addresses of the cells that a turn changed.
fn changed(seen: Seen<'_>) -> ArrayVec<u32, 3>
    requires inside { All (λ (write : Change). write.address < length seen.core.now) seen.atom.now.cells.items }
    ensures inside { All (λ address. address < length seen.entry.core.now) result.items }
    ensures used { (s : State) → IsSeen s seen.entry.core.now seen.entry.atom.now → AreUsed Way.Changes s result.items }
{
    let writes = seen.atom.cells.as_slice();
    let mut addresses = ArrayVec::new();
    for write in writes {
        if is_changed(seen.core, writes, write.address) {
            addresses.push(write.address);
        }
    }
    addresses
}

/// Returns the addresses of the cells that a turn read: those in `touched` that the turn did not write.
fn read(seen: Seen<'_>, touched: &[u32]) -> ArrayVec<u32, MAX_TOUCHED>
    requires few { length touched.now ≤ 8 }
    requires inside { All (λ address. address < length seen.core.now) touched.now }
    ensures inside { All (λ address. address < length seen.entry.core.now) result.items }
    ensures used { (s : State) → IsSeen s seen.entry.core.now seen.entry.atom.now → touched.now ≡ touched_in_turn s → AreUsed Way.Reads s result.items }
{
    let writes = seen.atom.cells.as_slice();
    let mut addresses = ArrayVec::new();
    for address in touched {
        if !is_written(writes, *address) {
            addresses.push(*address);
        }
    }
    addresses
}

/// Returns whether a turn at `pc`, which touched these cells, meets all conditions. `touched` is only used if there are
/// conditions on cells that it reads.
pub fn meets(conditions: &[Condition], seen: Seen<'_>, pc: u32, touched: &[u32]) -> bool
    requires pc { pc < length seen.core.now }
    requires few { length touched.now ≤ 8 }
    requires touched { All (λ address. address < length seen.core.now) touched.now }
    requires size { length seen.pasts.now ≡ length seen.core.now }
    requires writes { All (λ (write : Change). write.address < length seen.core.now) seen.atom.now.cells.items }
    ensures { (s : State) → IsSeen s seen.entry.core.now seen.entry.atom.now → pc ≡ front_of (queue_of s.queues s.next)
        → (spec_are_on Way.Reads conditions.now ≡ true → touched.now ≡ touched_in_turn s)
        → result ≡ spec_meets conditions.now s seen.entry.pasts.now }
{
    (!are_on(Way::Executes, conditions) || one_meets(Way::Executes, conditions, seen, &[pc]))
        && (!are_on(Way::Changes, conditions)
            || one_meets(Way::Changes, conditions, seen, changed(seen).as_slice()))
        && (!are_on(Way::Reads, conditions)
            || one_meets(Way::Reads, conditions, seen, read(seen, touched).as_slice()))
}
