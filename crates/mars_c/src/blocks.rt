//! Battles as blocks of words that the caller owns: starting, playing, editing and checking them.
ghost use Rattle.std.specs.Prelude.{◌≡◌, ◌≢◌, ◌≤◌, ◌<◌, ◌+◌, ◌*◌, IfErr, IfOk, Ok, OnErr, OnOk, false, length, true};
ghost use Rattle.std.specs.List.{FoldsTo};
ghost use Rattle.mars_cell.specs.Parameters.{Parameters};
ghost use Rattle.mars_cell.specs.ParameterFaults.{checked_parameters};
ghost use Rattle.mars_core.specs.State.{State};
ghost use Rattle.mars_core.specs.Turn.{after_turns};
ghost use Rattle.mars_core.specs.Block.{Spells, head_words};
ghost use Rattle.mars_c.specs.Battles.{IsStart};
ghost use Rattle.mars_c.specs.Blocks.{Fails, HoldsEdited, HoldsEdits, IsPlayable, IsWritten, Makes, RefusesEdit, RefusesEdits, RefusesPlay, RefusesStart, RefusesWords, capacity_of, played_rows};
ghost use Rattle.mars_c.specs.Records.{turn_row};
ghost use Rattle.mars_c.specs.Refusals.{AreWarriors};
ghost use Rattle.mars_c.specs.Settings.{parameters_in};
ghost use Rattle.mars_c.specs.Touches.{touched_row};

use crate::battles::start_of;
use crate::edits::{MarsEdit, edit_of, edits_of};
use crate::entrants::Entrants;
use crate::faults::{BlockRefusal, CallRefusal};
use crate::playing::{TurnRow, fill_turn_rows};
use crate::records::MarsRecord;
use crate::settings::{MarsSettings, parameters, warriors_fault};
use crate::touches::MarsTouched;
use mars_core::{Battle, BlockFault, Edit, EditFault, max_words};
use std::alloc::Global;

/// Returns the maximum length of the block of a battle in words, or 0 if the settings and the number of warriors allow no
/// battle.
pub fn words_of(settings: &MarsSettings, warriors: u32) -> usize
    ensures some { (p : Parameters) → checked_parameters (parameters_in settings.now) ≡ Ok p → AreWarriors warriors
        → result ≡ head_words + 3 * p.core_size + warriors * p.processes }
    ensures none { result ≢ 0 → (p : Parameters) × (checked_parameters (parameters_in settings.now) ≡ Ok p) × AreWarriors warriors }
{
    if warriors_fault(warriors as usize).is_some() {
        return 0;
    }
    match parameters(settings) {
        Ok(params) => max_words(&params, warriors as usize),
        Err(_) => 0,
    }
}

/// Returns the battle at the start of a round.
pub fn started(
    alloc: Global,
    settings: &MarsSettings,
    entrants: Entrants<'_>,
    round: u32,
) -> Result<Battle, CallRefusal>
    ensures start { let e = entrants.entry in IfOk result (IsStart settings.now e.cells.now e.warriors.now round) }
    ensures refused { let e = entrants.entry in IfErr result (RefusesStart settings.now e.cells.now e.warriors.now round) }
{
    if let Some(fault) = warriors_fault(entrants.warriors.len()) {
        return Err(CallRefusal::Settings(fault));
    }
    start_of(alloc, settings, entrants, round)
}

/// Writes the block of a battle if the words have the capacity that the battle needs. Returns whether they have.
pub fn put_if_fits(battle: &Battle, words: &mut [u32]) -> bool
    ensures fits { result ≡ true → (capacity_of battle.now ≤ length words.old) × IsWritten battle.now words.old words.new }
    ensures short { result ≡ false → length words.old < capacity_of battle.now }
    ensures kept { result ≡ false → words.new ≡ words.old }
{
    if words.len() < battle.block_room() {
        return false;
    }
    battle.write_block(words);
    true
}

/// Returns the battle whose block the words begin with.
pub fn read(alloc: Global, words: &[u32]) -> Result<Battle, BlockRefusal>
    ensures battle { IfOk result (λ battle. Spells battle words.now) }
    ensures refused { IfErr result (RefusesWords words.now) }
{
    match Battle::read_block(alloc, words) {
        Ok(battle) => Ok(battle),
        Err(BlockFault::OutOfMemory) => Err(BlockRefusal::OutOfMemory),
        Err(fault) => Err(BlockRefusal::Block(fault)),
    }
}

/// Checks that the words begin with the block of a battle.
pub fn check(alloc: Global, words: &[u32]) -> Result<(), BlockRefusal>
    ensures battle { OnOk result ((s : State) × Spells s words.now) }
    ensures refused { IfErr result (RefusesWords words.now) }
{
    match read(alloc, words) {
        Ok(_) => Ok(()),
        Err(refusal) => Err(refusal),
    }
}

/// Returns the battle whose block the words begin with, if they have the capacity that the battle needs.
pub fn take(alloc: Global, words: &[u32]) -> Result<Battle, BlockRefusal>
    ensures battle { IfOk result (λ battle. IsPlayable battle words.now) }
    ensures refused { IfErr result (RefusesPlay words.now) }
{
    match read(alloc, words) {
        Ok(battle) => {
            if words.len() < battle.block_room() {
                return Err(BlockRefusal::Capacity);
            }
            Ok(battle)
        }
        Err(refusal) => Err(refusal),
    }
}

/// Writes the block of a battle. The words must have the capacity that the battle needs.
pub fn put(battle: &Battle, words: &mut [u32])
    requires { capacity_of battle.now ≤ length words.old }
    ensures { IsWritten battle.now words.old words.new }
{
    let _capacity = battle.block_room();
    battle.write_block(words);
}

/// Executes at most `turns` turns of a battle and records the first ones in the rows.
fn play<R: TurnRow>(battle: &mut Battle, turns: u32, rows: &mut [R])
    ensures rows { rows.new ≡ played_rows R.row_of turns battle.old rows.old }
    ensures battle { battle.new ≡ after_turns turns battle.old }
{
    let count = rows.len().min(turns as usize);
    fill_turn_rows(battle, &mut rows[..count]);
    battle.run(turns - count as u32);
}

/// Records the first turns of a battle in the rows, and leaves the battle as it is.
///
/// `battle` is copied if there are rows.
///
/// # Errors
///
/// Returns `OutOfMemory` if the copy cannot be allocated; the rows are unchanged then.
#[tactic(auto, using(crate::proofs::PlayedBlocks::none_played))]
fn record<R: TurnRow>(
    alloc: Global,
    battle: &Battle,
    turns: u32,
    rows: &mut [R],
) -> Result<(), BlockRefusal>
    ensures rows { OnOk result (rows.new ≡ played_rows R.row_of turns battle.now rows.old) }
    ensures kept { OnErr result (rows.new ≡ rows.old) }
    ensures memory { IfErr result (λ refusal. refusal ≡ BlockRefusal.OutOfMemory) }
{
    if rows.is_empty() {
        return Ok(());
    }
    match battle.copy(alloc) {
        Ok(copy) => {
            let mut copy = copy;
            play(&mut copy, turns, rows);
            Ok(())
        }
        Err(_) => Err(BlockRefusal::OutOfMemory),
    }
}

/// Executes at most `turns` turns of the battle in a block, and records the first ones in the rows.
///
/// # Errors
///
/// - `Block` if the words are no battle
/// - `Capacity` if there are too few words
/// - `OutOfMemory` if an allocation fails
///
/// After an error all arguments are unchanged.
pub fn play_in(
    alloc: Global,
    words: &mut [u32],
    turns: u32,
    records: &mut [MarsRecord],
    touched: &mut [MarsTouched],
) -> Result<(), BlockRefusal>
    ensures done { OnOk result ((s : State) × IsPlayable s words.old × IsWritten (after_turns turns s) words.old words.new
        × (records.new ≡ played_rows turn_row turns s records.old) × (touched.new ≡ played_rows touched_row turns s touched.old)) }
    ensures refused { IfErr result (RefusesPlay words.old) }
    ensures kept { OnErr result ((words.new ≡ words.old) × (records.new ≡ records.old) × (touched.new ≡ touched.old)) }
{
    let mut battle = match take(alloc, words) {
        Ok(battle) => battle,
        Err(refusal) => return Err(refusal),
    };
    match record(alloc, &battle, turns, touched) {
        Ok(()) => {
            play(&mut battle, turns, records);
            put(&battle, words);
            Ok(())
        }
        Err(refusal) => Err(refusal),
    }
}

/// Makes an edit of the battle in a block.
///
/// # Errors
///
/// - `NoSuchEdit` if the numbers mean no edit
/// - `Block` if the words are no battle
/// - `Capacity` if there are too few words
/// - `Edit` if the edit is impossible
/// - `OutOfMemory` if an allocation fails
///
/// After an error the words are unchanged.
pub fn edit_in(alloc: Global, words: &mut [u32], numbers: &MarsEdit) -> Result<(), BlockRefusal>
    ensures done { OnOk result (HoldsEdited numbers.now words.old words.new) }
    ensures refused { IfErr result (RefusesEdit words.old numbers.now) }
    ensures kept { OnErr result (words.new ≡ words.old) }
{
    let edit = match edit_of(numbers) {
        Some(edit) => edit,
        None => return Err(BlockRefusal::NoSuchEdit(0)),
    };
    let mut battle = match take(alloc, words) {
        Ok(battle) => battle,
        Err(refusal) => return Err(refusal),
    };
    match battle.edit(edit) {
        Ok(_) => {
            put(&battle, words);
            Ok(())
        }
        Err(fault) => Err(BlockRefusal::Edit(0, fault)),
    }
}

/// Makes edits of a battle, one after another, up to the first that is impossible.
///
/// # Errors
///
/// Returns the index of that edit, and its error.
fn make(battle: &mut Battle, edits: &[Edit]) -> Result<(), (usize, EditFault)>
    ensures made { OnOk result (FoldsTo Makes battle.old edits.now battle.new) }
    ensures refused { IfErr result (λ error. Fails battle.old edits.now error.0 error.1) }
{
    for i in 0..edits.len() {
        if let Err(fault) = battle.edit(edits[i]) {
            return Err((i, fault));
        }
    }
    Ok(())
}

/// Makes edits of the battle in a block, one after another: all or none.
///
/// # Errors
///
/// - `NoSuchEdit` with the index of the first numbers that mean no edit
/// - `Block` if the words are no battle
/// - `Capacity` if there are too few words
/// - `Edit` with the index of the first edit that is impossible, and its error
/// - `OutOfMemory` if an allocation fails
///
/// After an error the words are unchanged.
pub fn edits_in(alloc: Global, words: &mut [u32], numbers: &[MarsEdit]) -> Result<(), BlockRefusal>
    ensures done { OnOk result (HoldsEdits numbers.now words.old words.new) }
    ensures refused { IfErr result (RefusesEdits words.old numbers.now) }
    ensures kept { OnErr result (words.new ≡ words.old) }
{
    let edits = match edits_of(alloc, numbers) {
        Ok(edits) => edits,
        Err(refusal) => return Err(refusal),
    };
    let mut battle = match take(alloc, words) {
        Ok(battle) => battle,
        Err(refusal) => return Err(refusal),
    };
    match make(&mut battle, &edits) {
        Ok(()) => {
            put(&battle, words);
            Ok(())
        }
        Err((index, fault)) => Err(BlockRefusal::Edit(index, fault)),
    }
}
