//! What each warrior does in a battle, counted while the battle runs.
ghost use Rattle.std.specs.Prelude.{◌≡◌, ◌+◌, ◌*◌, ◌-◌, ◌<◌, ◌≤◌, ℕ, All, IfOk, false, length, map, replicate, slice_index_or};
ghost use Rattle.mars_cell.specs.Limits.{max_core_size};
ghost use Rattle.mars_core.specs.Limits.{turns_bound};
ghost use Rattle.mars_core.specs.Marks.{marks_of};
ghost use Rattle.mars_core.specs.State.{is_over_of};
ghost use Rattle.mars_core.specs.Turn.{turn_of};
ghost use Rattle.mars_match.specs.Battles.{end_of};
ghost use Rattle.mars_match.specs.Counts.{counts_of, how_many_below, turns_to_end};
ghost use Rattle.mars_match.specs.Code.Deeds.{DeedsValue, HasMarks, counts_in as spec_counts_in, no_deeds, noted, with_turn};
ghost use Rattle.mars_match.specs.Fates.{no_counts};
ghost use Rattle.mars_match.specs.declared.counts.Counts.{Counts as CountsValue};

use mars_core::{Battle, Mark};
use std::alloc::{AllocError, Global};
use std::marker::Model;

/// What a warrior did in a battle.
#[derive(Clone, Copy, Debug, PartialEq, Eq)]
pub struct Counts {
    /// The number of its turns.
    pub turns: u32,
    /// The number of its turns that queued two processes.
    pub spawned: u32,
    /// The number of cells at which it executed an instruction.
    pub executed: u32,
    /// The number of cells that it wrote.
    pub written: u32,
    /// The number of cells that it executed, read or wrote.
    pub touched: u32,
}

impl Counts {
    /// Returns the counts of a warrior that did nothing, or of which nothing was counted.
    pub(crate) fn none() -> Counts
        ensures { result ≡ no_counts }
    {
        Counts {
            turns: 0,
            spawned: 0,
            executed: 0,
            written: 0,
            touched: 0,
        }
    }
}

/// What a warrior has done so far: its turns, and a mark for each cell.
#[derive(Drop)]
struct Deeds {
    turns: u32,
    spawned: u32,
    marks: Vec<Mark>,
}

impl Model for Deeds {
    ghost use Rattle.mars_match.specs.Code.Deeds.{DeedsValue};
    ghost use Rattle.mars_core.specs.Marks.{marks_of};

    ghost Value = { DeedsValue };

    ghost view = { λ d. record { turns = d.turns; spawned = d.spawned; marks = marks_of d.marks.items } };
}

const UNMARKED: Mark = Mark {
    executed: false,
    written: false,
    touched: false,
};

impl Deeds {
    /// Returns the deeds of a warrior that has done nothing.
    fn new(alloc: Global, core_size: usize) -> Result<Deeds, AllocError>
        ensures { IfOk result (λ deeds. deeds ≡ no_deeds core_size) }
    {
        Ok(Deeds {
            turns: 0,
            spawned: 0,
            marks: vec![in alloc; UNMARKED; core_size]?,
        })
    }

    /// Executes a turn of the warrior in a battle that is not over, and notes it.
    fn note_turn(&mut self, battle: &mut Battle)
        requires running { is_over_of battle.old ≡ false }
        requires turns { self.old.turns < turns_bound }
        requires spawned { self.old.spawned < turns_bound }
        requires marks { HasMarks battle.old.params.core_size self.old }
        ensures deeds { self.new ≡ with_turn battle.old self.old }
        ensures battle { battle.new ≡ turn_of battle.old }
    {
        self.turns += 1;
        self.spawned += u32::from(battle.turn_marking(&mut self.marks));
    }

    /// Returns the counts of what the warrior did.
    fn counts(&self) -> Counts
        requires { (m : ℕ) × (m ≤ max_core_size) × HasMarks m self.now }
        ensures { result ≡ spec_counts_in self.now }
    {
        let marked = count_marked(&self.marks);
        Counts {
            turns: self.turns,
            spawned: self.spawned,
            executed: marked.executed,
            written: marked.written,
            touched: marked.touched,
        }
    }
}

/// The number of marked cells, for each kind of mark.
#[derive(Clone, Copy)]
struct Marked {
    executed: u32,
    written: u32,
    touched: u32,
}

/// Returns the number of marked cells, for each kind of mark.
fn count_marked(marks: &[Mark]) -> Marked
    requires { length marks.now ≤ max_core_size }
    ensures executed { result.executed ≡ how_many_below (length marks.now) (λ a. slice_index_or (marks_of marks.now).executed a false) }
    ensures written { result.written ≡ how_many_below (length marks.now) (λ a. slice_index_or (marks_of marks.now).written a false) }
    ensures touched { result.touched ≡ how_many_below (length marks.now) (λ a. slice_index_or (marks_of marks.now).touched a false) }
{
    let mut executed = 0;
    let mut written = 0;
    let mut touched = 0;
    for address in 0..marks.len() {
        let mark = marks[address];
        executed += u32::from(mark.executed);
        written += u32::from(mark.written);
        touched += u32::from(mark.touched);
    }
    Marked {
        executed,
        written,
        touched,
    }
}

/// Executes turns until a battle is over, and notes each for its warrior.
fn note_turns(battle: &mut Battle, deeds: &mut [Deeds])
    requires fresh { All (λ (d : DeedsValue). (d.turns ≡ 0) × (d.spawned ≡ 0)) deeds.old }
    requires marks { All (HasMarks battle.old.params.core_size) deeds.old }
    requires many { length deeds.old ≡ length battle.old.queues }
    ensures deeds { deeds.new ≡ noted (turns_to_end battle.old) deeds.old }
    ensures battle { battle.new ≡ end_of battle.old }
{
    let last = battle.params().cycles() * battle.warriors() as u32;
    for made in 0..last {
        if battle.is_over() {
            return;
        }
        let warrior = battle.next() as usize;
        deeds[warrior].note_turn(battle);
    }
}

/// Returns the deeds of warriors that have done nothing.
fn new_deeds(alloc: Global, count: usize, core_size: usize) -> Result<Vec<Deeds>, AllocError>
    ensures { IfOk result (λ deeds. deeds.items ≡ replicate count (no_deeds core_size)) }
{
    let mut deeds = Vec::with_capacity(alloc, count)?;
    for warrior in 0..count {
        deeds.push(Deeds::new(alloc, core_size)?)?;
    }
    Ok(deeds)
}

/// Returns the counts of what each warrior did.
fn all_counts(alloc: Global, deeds: &[Deeds]) -> Result<Vec<Counts>, AllocError>
    requires { (m : ℕ) × (m ≤ max_core_size) × All (HasMarks m) deeds.now }
    ensures { IfOk result (λ counts. counts.items ≡ map spec_counts_in deeds.now) }
{
    let mut counts = Vec::with_capacity(alloc, deeds.len())?;
    for i in 0..deeds.len() {
        counts.push(deeds[i].counts())?;
    }
    Ok(counts)
}

/// Executes turns until a battle is over, and returns what each warrior did, in the order of turns.
///
/// # Errors
///
/// Returns an error if an allocation fails. The battle is then unchanged or over.
pub fn count_to_end(alloc: Global, battle: &mut Battle) -> Result<Vec<Counts>, AllocError>
    ensures many { IfOk result (λ counts. length counts.items ≡ length battle.old.queues) }
    ensures counts { IfOk result (λ counts. (place : ℕ) (d : CountsValue) → place < length battle.old.queues → slice_index_or counts.items place d ≡ counts_of battle.old place) }
    ensures battle { IfOk result (λ _. battle.new ≡ end_of battle.old) }
{
    let core_size = battle.params().core_size() as usize;
    let mut deeds = new_deeds(alloc, battle.warriors(), core_size)?;
    note_turns(battle, &mut deeds);
    all_counts(alloc, &deeds)
}
