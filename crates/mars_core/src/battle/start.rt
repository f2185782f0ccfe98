//! How a battle starts: the errors, the warriors in the core, and their first processes.
ghost use Rattle.std.specs.Prelude.{◌≡◌, length, IfOk, IsOk, IfSome, IfErr, MatchOption, nat_lt, ◌+◌, ◌%◌, ◌≤◌, ◌∷◌, [], map, All, true};
ghost use Rattle.mars_core.specs.Start.{start_fault, start_state, is_inside as spec_is_inside, fields_inside as spec_fields_inside, with_warrior, with_warriors, first_processes, overlap};
ghost use Rattle.std.specs.List.{list_all};
ghost use Rattle.mars_cell.specs.Parameters.{AreInRange};
ghost use Rattle.std.proofs.Common.{replicate};
ghost use Rattle.mars_cell.specs.Cells.{empty_cell, FitsCore};
ghost use Rattle.mars_cell.specs.Limits.{max_core_size};
ghost use Rattle.mars_core.specs.Validity.{IsCore};
ghost use Rattle.mars_core.specs.Queue.{addresses_of, Queue};

mod overlap;

use crate::battle::Battle;
use crate::battle::start::overlap::has_overlap;
use crate::deaths::MAX_WARRIORS;
use crate::packed::PackedCell;
use crate::queue::ProcessQueue;
use arrayvec::ArrayVec;
use mars_cell::{Cell, Params, Warrior};
use std::alloc::{AllocError, Global};
use thiserror::Error;

/// The reason why a battle can't start, displayed as its number and name: the first that applies, in this order.
#[derive(Clone, Copy, Debug, PartialEq, Eq, Error)]
pub enum BattleFault {
    /// There is no warrior.
    #[error("1 NoWarrior")]
    NoWarrior,
    /// There are more than 16 warriors.
    #[error("2 TooMany")]
    TooMany,
    /// Two loaded cells have the same address. Both may belong to one warrior if the warrior is longer than the core.
    #[error("3 Overlap")]
    Overlap,
    /// A warrior's starting position is not an address in the core.
    #[error("4 StartOutside")]
    StartOutside,
    /// A number of a cell is not an address in the core.
    #[error("5 FieldOutside")]
    FieldOutside,
    /// An allocation failed.
    #[error("6 OutOfMemory")]
    OutOfMemory,
}

impl Battle {
    /// Starts a battle of 1 to 16 warriors, each loaded at its address in `starts`, with one process at the cell with
    /// which the warrior starts.
    ///
    /// # Errors
    ///
    /// Returns the first error in the order of [`BattleFault`]. Memory is allocated only if there is no other error.
    #[tactic(auto, unfolding(crate::specs::Start::start_state))]
    pub fn new(
        alloc: Global,
        params: &Params,
        warriors: &[Warrior],
        starts: &[u32],
    ) -> Result<Battle, BattleFault>
        requires { length starts.now ≡ length warriors.now }
        ensures fault { IfSome (start_fault params.now warriors.now starts.now) (λ fault. result ≡ Err fault) }
        ensures only_memory { start_fault params.now warriors.now starts.now ≡ None
            → IfErr result (λ fault. fault ≡ BattleFault.OutOfMemory) }
        ensures ok { IfOk result (λ battle. battle ≡ start_state params.now warriors.now starts.now) }
    {
        if let Some(fault) = find_fault(params, warriors, starts) {
            return Err(fault);
        }
        let Ok(core) = core_with_warriors(alloc, params, warriors, starts) else {
            return Err(BattleFault::OutOfMemory);
        };
        let Ok(queues) = first_queues(alloc, params, warriors, starts) else {
            return Err(BattleFault::OutOfMemory);
        };
        Ok(Battle {
            params: *params,
            core,
            queues,
            next: 0,
            cycle: 0,
            turns: 0,
            deaths: ArrayVec::new(),
        })
    }

    /// Starts a new battle of equally many warriors in the same memory, with the same parameters. Does not allocate.
    ///
    /// # Errors
    ///
    /// Returns the first error in the order of [`BattleFault`] and changes nothing.
    #[tactic(auto, unfolding(crate::specs::Start::start_state))]
    pub fn restart(&mut self, warriors: &[Warrior], starts: &[u32]) -> Result<(), BattleFault>
        requires starts { length starts.now ≡ length warriors.now }
        requires warriors { length warriors.now ≡ length self.old.queues }
        ensures answer { MatchOption (start_fault self.old.params warriors.now starts.now) (IsOk result) (λ fault. result ≡ Err fault) }
        ensures state { MatchOption (start_fault self.old.params warriors.now starts.now)
            (self.new ≡ start_state self.old.params warriors.now starts.now) (λ _. self.new ≡ self.old) }
    {
        if let Some(fault) = find_fault(&self.params, warriors, starts) {
            return Err(fault);
        }
        reload(&mut self.core, &self.params, warriors, starts);
        refill_queues(&self.params, &mut self.queues, warriors, starts);
        self.next = 0;
        self.cycle = 0;
        self.turns = 0;
        self.deaths = ArrayVec::new();
        Ok(())
    }
}

/// Returns the first error for which a battle can't start. Does not allocate.
fn find_fault(params: &Params, warriors: &[Warrior], starts: &[u32]) -> Option<BattleFault>
    requires { length starts.now ≡ length warriors.now }
    ensures value { result ≡ start_fault params.now warriors.now starts.now }
    ensures in_range { AreInRange params.now }
{
    let core_size = params.core_size();
    if warriors.is_empty() {
        return Some(BattleFault::NoWarrior);
    }
    if warriors.len() > MAX_WARRIORS {
        return Some(BattleFault::TooMany);
    }
    if has_overlap(core_size, warriors, starts) {
        return Some(BattleFault::Overlap);
    }
    if !starts_inside(core_size, starts) {
        return Some(BattleFault::StartOutside);
    }
    if !fields_inside(core_size, warriors) {
        return Some(BattleFault::FieldOutside);
    }
    None
}

/// Returns whether each starting position is an address in the core.
fn starts_inside(core_size: u32, starts: &[u32]) -> bool
    ensures { result ≡ list_all (λ s. nat_lt s core_size) starts.now }
{
    starts.iter().all(|start| *start < core_size)
}

/// Returns whether all numbers of all cells of the warriors are addresses in the core.
fn fields_inside(core_size: u32, warriors: &[Warrior]) -> bool
    ensures { result ≡ spec_fields_inside core_size warriors.now }
{
    for warrior in warriors {
        if !cells_inside(core_size, warrior.cells()) {
            return false;
        }
    }
    true
}

/// Returns whether all numbers of the cells are addresses in the core.
fn cells_inside(core_size: u32, cells: &[Cell]) -> bool
    ensures { result ≡ list_all (spec_is_inside core_size) cells.now }
{
    cells
        .iter()
        .all(|cell| cell.a < core_size && cell.b < core_size)
}

/// Returns an empty core with each warrior loaded at its starting position.
pub fn core_with_warriors(
    alloc: Global,
    params: &Params,
    warriors: &[Warrior],
    starts: &[u32],
) -> Result<Vec<PackedCell>, AllocError>
    requires starts { length starts.now ≡ length warriors.now }
    requires inside { spec_fields_inside params.now.core_size warriors.now ≡ true }
    ensures with_warrior { IfOk result (λ core. core.items
        ≡ with_warriors params.now.core_size warriors.now starts.now (replicate params.now.core_size empty_cell)) }
    ensures core { IfOk result (λ core. IsCore params.now.core_size core.items) }
{
    let core_size = params.core_size();
    let mut core = vec![in alloc; PackedCell::empty(); core_size as usize]?;
    load_warriors(core.as_mut_slice(), core_size, warriors, starts);
    Ok(core)
}

/// Empties a core and loads each warrior at its starting position.
pub fn reload(core: &mut [PackedCell], params: &Params, warriors: &[Warrior], starts: &[u32])
    requires core { length core.old ≡ params.now.core_size }
    requires starts { length starts.now ≡ length warriors.now }
    requires inside { spec_fields_inside params.now.core_size warriors.now ≡ true }
    ensures with_warrior { core.new ≡ with_warriors params.now.core_size warriors.now starts.now (replicate params.now.core_size empty_cell) }
    ensures core { IsCore params.now.core_size core.new }
{
    clear(core);
    load_warriors(core, params.core_size(), warriors, starts);
}

/// Empties cells: the first half by a recursive call, and the rest as a copy of that half, since copying many cells
/// costs less than writing each.
fn clear(cells: &mut [PackedCell])
    ensures { cells.new ≡ replicate (length cells.old) empty_cell }
{
    let copied = cells.len() / 2;
    if copied < 16 {
        cells.fill(PackedCell::empty());
        return;
    }
    let (first, others) = cells.split_at_mut(cells.len() - copied);
    clear(first);
    others.copy_from_slice(&first[..copied]);
}

/// Loads each warrior at its starting position in `starts`.
#[tactic(auto, using(crate::proofs::StartState::inside_at))]
fn load_warriors(core: &mut [PackedCell], core_size: u32, warriors: &[Warrior], starts: &[u32])
    requires core { IsCore core_size core.old }
    requires positive { 1 ≤ core_size }
    requires size { core_size ≤ max_core_size }
    requires starts { length starts.now ≡ length warriors.now }
    requires inside { spec_fields_inside core_size warriors.now ≡ true }
    ensures with_warrior { core.new ≡ with_warriors core_size warriors.now starts.now core.old }
    ensures core { IsCore core_size core.new }
{
    for i in 0..warriors.len() {
        load_cells(core, core_size, starts[i], warriors[i].cells());
    }
}

/// Loads cells from `start` on, modulo the size of the core.
#[tactic(auto, using(crate::proofs::Words::Back::fits_largest))]
fn load_cells(core: &mut [PackedCell], core_size: u32, start: u32, cells: &[Cell])
    requires core { IsCore core_size core.old }
    requires positive { 1 ≤ core_size }
    requires size { core_size ≤ max_core_size }
    requires cells { All (FitsCore core_size) cells.now }
    ensures with_warrior { core.new ≡ with_warrior core_size start cells.now core.old }
    ensures core { IsCore core_size core.new }
{
    for (i, cell) in cells.iter().enumerate() {
        let address = (start as usize + i) % core_size as usize;
        core[address] = PackedCell::new(*cell);
    }
}

/// Returns a queue for each warrior, with its first process.
pub fn first_queues(
    alloc: Global,
    params: &Params,
    warriors: &[Warrior],
    starts: &[u32],
) -> Result<Vec<ProcessQueue>, AllocError>
    requires starts { length starts.now ≡ length warriors.now }
    ensures addresses { IfOk result (λ queues. addresses_of queues.items
        ≡ map (λ address. address ∷ []) (first_processes params.now.core_size warriors.now starts.now)) }
    ensures limits { IfOk result (λ queues. All (λ (q : Queue). q.limit ≡ params.now.processes) queues.items) }
{
    let mut queues = Vec::with_capacity(alloc, warriors.len())?;
    for i in 0..warriors.len() {
        queues.push_reserved(first_queue(alloc, params, &warriors[i], starts[i])?);
    }
    Ok(queues)
}

/// Returns a queue with the warrior's first process.
fn first_queue(
    alloc: Global,
    params: &Params,
    warrior: &Warrior,
    start: u32,
) -> Result<ProcessQueue, AllocError>
    ensures addresses { IfOk result (λ queue. queue.addresses ≡ ((start + warrior.now.start) % params.now.core_size) ∷ []) }
    ensures limit { IfOk result (λ queue. queue.limit ≡ params.now.processes) }
{
    let mut queue = ProcessQueue::with_limit(alloc, params.processes() as usize)?;
    queue.push(first_process(params.core_size(), warrior, start));
    Ok(queue)
}

/// Replaces the processes of each queue by the warrior's first process.
pub fn refill_queues(
    params: &Params,
    queues: &mut [ProcessQueue],
    warriors: &[Warrior],
    starts: &[u32],
)
    requires starts { length starts.now ≡ length warriors.now }
    requires queues { length queues.old ≡ length warriors.now }
    requires limits { All (λ (q : Queue). q.limit ≡ params.now.processes) queues.old }
    requires some { 1 ≤ params.now.processes }
    ensures addresses { addresses_of queues.new
        ≡ map (λ address. address ∷ []) (first_processes params.now.core_size warriors.now starts.now) }
    ensures limits { All (λ (q : Queue). q.limit ≡ params.now.processes) queues.new }
{
    for i in 0..warriors.len() {
        let address = first_process(params.core_size(), &warriors[i], starts[i]);
        queues[i].restart(address);
    }
}

/// Returns the address of the warrior's first process.
fn first_process(core_size: u32, warrior: &Warrior, start: u32) -> u32
    requires { 1 ≤ core_size }
    ensures { result ≡ (start + warrior.now.start) % core_size }
{
    ((u64::from(start) + u64::from(warrior.start())) % u64::from(core_size)) as u32
}
