//! A battle as a block of 32-bit words that the caller owns and can store, copy or send. The block holds the whole
//! state of the battle and nothing else (`specs/Block`).
ghost use Rattle.std.specs.Prelude.{◌≡◌, ◌≢◌, ◌++◌, ◌+◌, ◌*◌, ◌≤◌, ℕ, All, IfErr, IfOk, List, drop, if◌then◌else◌, length, sum, true};
ghost use Rattle.std.specs.List.{concat};
ghost use Rattle.mars_cell.specs.Parameters.{AreInRange};
ghost use Rattle.mars_core.specs.Limits.{max_warriors};
ghost use Rattle.mars_core.specs.State.{State, is_over_of, state_of};
ghost use Rattle.mars_core.specs.Validity.{IsCore, IsQueue, IsValid};
ghost use Rattle.mars_core.specs.Queue.{Queue, addresses_of};
ghost use Rattle.mars_core.specs.Block.{AreBlockParts, Spells, block_of, core_words, field_words, head_of, head_words, lengths_of, padded, params_in};
ghost use Rattle.mars_core.specs.BlockFaults.{IsWrong, cells_in, counts_in, head_in, processes_in};
ghost use Rattle.mars_core.specs.Code.Blocks.{IsStateFault};

pub mod cells;
mod deaths;
mod parts;
pub mod queues;
mod validity;

use crate::battle::Battle;
use crate::battle::block::cells::{read_cells, write_cells};
use crate::battle::block::deaths::{death_words, read_deaths};
use crate::battle::block::parts::{Parts, params_of, parts_of};
use crate::battle::block::queues::{count_words, processes_of, read_queues, write_queues};
use crate::battle::block::validity::{are_deaths, is_clock};
use crate::deaths::{Death, MAX_WARRIORS};
use crate::machine::clock::Clock;
use crate::packed::PackedCell;
use crate::queue::ProcessQueue;
use arrayvec::ArrayVec;
use mars_cell::{ParamFault, Params};
use std::alloc::Global;
use thiserror::Error;

/// The length of the header of a block, in words.
pub const HEAD_WORDS: usize = 64;

/// The first word of a block: the bytes M, A, R and 1, the version of the layout. M is the lowest byte.
pub const BLOCK_MARK: u32 = 22_167_885;

/// The reason why words are not the block of a battle, displayed as its number and name. [`Battle::read_block`] states
/// the order in which the errors are checked.
#[derive(Clone, Copy, Debug, PartialEq, Eq, Error)]
pub enum BlockFault {
    /// There are fewer words than the header needs, or fewer than the block needs.
    #[error("1 Short")]
    Short,
    /// The first word is not `BLOCK_MARK`.
    #[error("2 Mark")]
    Mark,
    /// A parameter is out of its range.
    #[error("3 Parameters")]
    Parameters(ParamFault),
    /// The number of warriors is not from 1 to 16.
    #[error("4 Warriors")]
    Warriors,
    /// The cell at this address is the first with an opcode, modifier or mode that does not exist, or with a number
    /// outside the core.
    #[error("5 Cell")]
    Cell(u32),
    /// The warrior with this index is the first with more processes than the limit, or with a process outside the core.
    #[error("6 Queue")]
    Queue(u32),
    /// The deaths do not name each warrior without a process exactly once, and no other warrior.
    #[error("7 Deaths")]
    Deaths,
    /// The number of turns, the cycle and the next warrior do not agree with each other or with the living warriors.
    #[error("8 Clock")]
    Clock,
    /// A header word that follows from the others is wrong: the length of the block, whether the battle is over, or an
    /// unused word, which must be 0.
    #[error("9 Head")]
    Head,
    /// An allocation failed.
    #[error("10 OutOfMemory")]
    OutOfMemory,
}

/// Returns the maximum length in words of the block of a battle with these parameters and this number of warriors.
pub fn max_words(params: &Params, warriors: usize) -> usize
    requires { warriors ≤ 16 }
    ensures { result ≡ head_words + 3 * params.now.core_size + warriors * params.now.processes }
{
    HEAD_WORDS + 3 * params.core_size() as usize + warriors * params.processes() as usize
}

/// Writes `list` to the front of `places`, and zeros to the rest.
pub fn put_padded(list: &[u32], places: &mut [u32])
    requires { length list.now ≤ length places.old }
    ensures { places.new ≡ padded (length places.old) list.now }
{
    let (front, back) = places.split_at_mut(list.len());
    front.copy_from_slice(list);
    back.fill(0);
}

impl Battle {
    /// Returns the length of the block of this battle, in words.
    pub fn block_len(&self) -> usize
        ensures value { result ≡ length (block_of self.now) }
        ensures few { result ≤ 4194368 }
    {
        HEAD_WORDS + 3 * self.core.len() + processes_of(&self.queues)
    }

    /// Returns the maximum length in words that the block of this battle can reach: turns and edits never exceed it.
    pub fn block_room(&self) -> usize
        ensures value { result ≡ head_words + 3 * self.now.params.core_size + length self.now.queues * self.now.params.processes }
        ensures enough { length (block_of self.now) ≤ result }
    {
        max_words(&self.params, self.queues.len())
    }

    /// Writes the block of this battle to the front of `words`, and leaves the rest unchanged.
    pub fn write_block(&self, words: &mut [u32])
        requires { length (block_of self.now) ≤ length words.old }
        ensures { words.new ≡ block_of self.now ++ drop (length (block_of self.now)) words.old }
    {
        let cell_words = 3 * self.core.len();
        let (head, others) = words.split_at_mut(HEAD_WORDS);
        let (cells, processes) = others.split_at_mut(cell_words);
        self.write_head(head);
        write_cells(&self.core, cells);
        write_queues(&self.queues, processes);
    }

    /// Writes the header of this battle's block.
    #[tactic(auto, unfolding(crate::specs::Block::head_of))]
    fn write_head(&self, head: &mut [u32])
        requires { length head.old ≡ head_words }
        ensures { head.new ≡ head_of self.now }
    {
        let (fields, lists) = head.split_at_mut(16);
        let (counts, deaths) = lists.split_at_mut(16);
        self.write_fields(fields);
        put_padded(count_words(&self.queues).as_slice(), counts);
        put_padded(death_words(self.deaths.as_slice()).as_slice(), deaths);
    }

    /// Returns 1 if no turn is left, else 0.
    fn over_word(&self) -> u32
        ensures word { result ≡ (if is_over_of self.now then 1 else 0) }
        ensures valid { IsValid self.now }
    {
        if self.is_over() { 1 } else { 0 }
    }

    /// Writes the first sixteen words of the header.
    fn write_fields(&self, fields: &mut [u32])
        requires { length fields.old ≡ 16 }
        ensures { fields.new ≡ field_words self.now }
    {
        fields.copy_from_slice(&[
            BLOCK_MARK,
            self.block_len() as u32,
            self.params.core_size(),
            self.params.processes(),
            self.params.cycles(),
            self.params.read_limit(),
            self.params.write_limit(),
            self.params.max_length(),
            self.params.distance(),
            self.queues.len() as u32,
            self.turns,
            self.cycle,
            self.next,
            self.over_word(),
            self.deaths.len() as u32,
            0,
        ]);
    }

    /// Returns the battle whose block the words begin with; words after the block are ignored.
    ///
    /// # Errors
    ///
    /// `specs/BlockFaults` states what each error says of the words. The errors are checked in this order: `Short` (the
    /// header), `Mark`, `Parameters`, `Warriors`, `Short` (the rest), `Deaths` (more than 16), `Cell`, `Queue`,
    /// `Deaths`, `Clock` and `Head`. `OutOfMemory` replaces any error that would have been found after the allocation.
    pub fn read_block(alloc: Global, words: &[u32]) -> Result<Battle, BlockFault>
        ensures battle { IfOk result (λ battle. Spells battle words.now) }
        ensures only { IfOk result (λ battle. (s : State) → Spells s words.now → battle ≡ s) }
        ensures none { IfErr result (λ fault. fault ≢ BlockFault.OutOfMemory → (s : State) → Spells s words.now → ⊥) }
        ensures wrong { IfErr result (IsWrong words.now) }
    {
        let parts = parts_of(words)?;
        let battle = battle_of(alloc, &parts)?;
        if !battle.has_head(parts.head) {
            return Err(BlockFault::Head);
        }
        Ok(battle)
    }

    /// Returns whether `head` is the header of this battle's block.
    fn has_head(&self, head: &[u32]) -> bool
        requires { length head.now ≡ head_words }
        ensures yes { result ≡ true → head.now ≡ head_of self.now }
        ensures no { head.now ≡ head_of self.now → result ≡ true }
    {
        let mut own = [0u32; HEAD_WORDS];
        self.write_head(own.as_mut_slice());
        are_same(head, own.as_slice())
    }
}

/// Returns whether two lists of words are equal.
fn are_same(some: &[u32], others: &[u32]) -> bool
    ensures yes { result ≡ true → some.now ≡ others.now }
    ensures no { some.now ≡ others.now → result ≡ true }
{
    some == others
}

/// Returns the battle of the parts of a block. The header words that follow from the others are not checked.
fn battle_of(alloc: Global, parts: &Parts<'_>) -> Result<Battle, BlockFault>
    requires head { length parts.now.head.now ≡ head_words }
    requires cells { length parts.now.cells.now ≡ 3 * (params_in parts.now.head.now).core_size }
    requires some { 1 ≤ length parts.now.counts.now }
    requires few { length parts.now.counts.now ≤ max_warriors }
    requires processes { sum parts.now.counts.now ≡ length parts.now.processes.now }
    ensures core { IfOk result (λ battle. core_words battle.core ≡ parts.now.cells.now) }
    ensures queues { IfOk result (λ battle. concat battle.queues ≡ parts.now.processes.now) }
    ensures battle { IfOk result (λ battle. (s : State) → IsValid s
        → AreBlockParts s parts.now.head.now parts.now.counts.now parts.now.cells.now parts.now.processes.now → battle ≡ s) }
    ensures none { IfErr result (λ fault. fault ≢ BlockFault.OutOfMemory → (s : State) → IsValid s
        → AreBlockParts s parts.now.head.now parts.now.counts.now parts.now.cells.now parts.now.processes.now → ⊥) }
    ensures counts { IfOk result (λ battle. lengths_of battle.queues ≡ parts.now.counts.now) }
    ensures wrong { IfErr result (λ fault. (words : List ℕ) → parts.now.head.now ≡ head_in words → parts.now.counts.now ≡ counts_in words
        → parts.now.cells.now ≡ cells_in words → parts.now.processes.now ≡ processes_in words → IsWrong words fault) }
{
    let head = parts.head;
    let params = match params_of(head) {
        Ok(params) => params,
        Err(fault) => return Err(fault),
    };
    let Some(deaths) = read_deaths(&head[32..], head[14]) else {
        return Err(BlockFault::Deaths);
    };
    let core = match read_cells(alloc, params.core_size(), parts.cells) {
        Ok(core) => core,
        Err(fault) => return Err(fault),
    };
    let queues = match read_queues(alloc, &params, parts.counts, parts.processes) {
        Ok(queues) => queues,
        Err(fault) => return Err(fault),
    };
    let clock = Clock {
        next: head[12],
        cycle: head[11],
    };
    match resumed(params, core, queues, clock, head[10], deaths) {
        Ok(battle) => Ok(battle),
        Err(fault) => Err(fault),
    }
}

/// Returns the battle with these parts, or an error if the deaths or the clock do not agree with the queues.
fn resumed(
    params: Params,
    core: Vec<PackedCell>,
    queues: Vec<ProcessQueue>,
    clock: Clock,
    turns: u32,
    deaths: ArrayVec<Death, MAX_WARRIORS>,
) -> Result<Battle, BlockFault>
    requires params { AreInRange params }
    requires core { IsCore params.core_size core.items }
    requires some { 1 ≤ length queues.items }
    requires few { length queues.items ≤ max_warriors }
    requires limits { All (λ (q : Queue). q.limit ≡ params.processes) queues.items }
    requires queues { All (IsQueue params.core_size params.processes) (addresses_of queues.items) }
    ensures state { IfOk result (λ battle. battle ≡ state_of params core.items queues.items clock.next clock.cycle turns deaths.items) }
    ensures none { IfErr result (λ fault. IsValid (state_of params core.items queues.items clock.next clock.cycle turns deaths.items) → ⊥) }
    ensures wrong { IfErr result (IsStateFault params.cycles (addresses_of queues.items) clock turns deaths.items) }
{
    if !are_deaths(&queues, deaths.as_slice()) {
        return Err(BlockFault::Deaths);
    }
    if !is_clock(params.cycles(), &queues, clock, turns) {
        return Err(BlockFault::Clock);
    }
    Ok(Battle {
        params,
        core,
        queues,
        next: clock.next,
        cycle: clock.cycle,
        turns,
        deaths,
    })
}
