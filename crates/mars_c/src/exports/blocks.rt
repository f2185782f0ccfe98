//! The functions on blocks that C calls. `include/mars.h` documents them.
ghost use Rattle.std.specs.Prelude.{◌≡◌, ◌≢◌, ◌+◌, ◌*◌, Ok, length};
ghost use Rattle.mars_cell.specs.Parameters.{Parameters};
ghost use Rattle.mars_cell.specs.ParameterFaults.{checked_parameters};
ghost use Rattle.mars_core.specs.State.{State};
ghost use Rattle.mars_core.specs.Turn.{after_turns};
ghost use Rattle.mars_core.specs.Block.{Spells, head_words};
ghost use Rattle.mars_c.specs.Ancestors.{HasAncestors, RefusesAncestors};
ghost use Rattle.mars_c.specs.Blocks.{HoldsEdited, HoldsEdits, HoldsStart, IsPlayable, IsWritten, OverflowsStart, RefusesEdit, RefusesEdits, RefusesPlay, RefusesStart, RefusesWords, Reports, played_rows};
ghost use Rattle.mars_c.specs.Codes.{numbered};
ghost use Rattle.mars_c.specs.Debugging.{Debugs, RefusesDebugging};
ghost use Rattle.mars_c.specs.Following.{HasMoments, IsFollowed, RefusesFollow};
ghost use Rattle.mars_c.specs.Programs.{HoldsText, OverflowsText};
ghost use Rattle.mars_c.specs.Records.{turn_row};
ghost use Rattle.mars_c.specs.Refusals.{AreWarriors, HasCause};
ghost use Rattle.mars_c.specs.Settings.{parameters_in};
ghost use Rattle.mars_c.specs.Touches.{touched_row};

use crate::ancestors::ancestors_in;
use crate::blocks::{check, edit_in, edits_in, play_in, put_if_fits, started, words_of};
use crate::cells::MarsCell;
use crate::conditions::MarsCondition;
use crate::debugging::transcript;
use crate::edits::MarsEdit;
use crate::entrants::Entrants;
use crate::exports::{answer, copy_to_buffer};
use crate::faults::{MarsFault, block_fault, given, to_c_fault};
use crate::following::{follow_in, moments_in};
use crate::records::MarsRecord;
use crate::settings::MarsSettings;
use crate::touches::MarsTouched;
use crate::warriors::MarsWarrior;
use mars_core::{Found, Moment, Past};
use std::alloc::Global;

/// Returns the maximum length of the block of a battle in words, or 0 if the settings and the number of warriors allow no
/// battle.
#[unsafe(no_mangle)]
pub extern "C" fn mars_words(settings: &MarsSettings, warriors: u32) -> usize
    ensures some { (p : Parameters) → checked_parameters (parameters_in settings.now) ≡ Ok p → AreWarriors warriors
        → result ≡ head_words + 3 * p.core_size + warriors * p.processes }
    ensures none { result ≢ 0 → (p : Parameters) × (checked_parameters (parameters_in settings.now) ≡ Ok p) × AreWarriors warriors }
{
    words_of(settings, warriors)
}

/// Writes the battle at the start of a round to a block.
#[unsafe(no_mangle)]
pub extern "C" fn mars_start(
    alloc: Global,
    settings: &MarsSettings,
    cells: &[MarsCell],
    warriors: &[MarsWarrior],
    round: u32,
    battle: &mut [u32],
    fault: &mut MarsFault,
) -> u32
    ensures code { result ≡ fault.new.code }
    ensures cleared { result ≡ 0 → fault.new ≡ numbered 0 0 }
    ensures short { result ≡ 10 → fault.new ≡ numbered 10 0 }
    ensures refused { result ≢ 0 → result ≢ 10 → HasCause (RefusesStart settings.now cells.now warriors.now round) fault.new }
    ensures done { result ≡ 0 → HoldsStart settings.now cells.now warriors.now round battle.old battle.new }
    ensures room { result ≡ 10 → OverflowsStart settings.now cells.now warriors.now round battle.old }
    ensures kept { result ≢ 0 → battle.new ≡ battle.old }
{
    match started(alloc, settings, Entrants { cells, warriors }, round) {
        Ok(start) => answer(fault, given(put_if_fits(&start, battle))),
        Err(refusal) => answer(fault, to_c_fault(refusal)),
    }
}

/// Executes turns of the battle in a block, and records the first ones.
#[unsafe(no_mangle)]
pub extern "C" fn mars_play(
    alloc: Global,
    battle: &mut [u32],
    turns: u32,
    records: &mut [MarsRecord],
    touched: &mut [MarsTouched],
    fault: &mut MarsFault,
) -> u32
    ensures code { result ≡ fault.new.code }
    ensures cleared { result ≡ 0 → fault.new ≡ numbered 0 0 }
    ensures refused { result ≢ 0 → Reports (RefusesPlay battle.old) fault.new }
    ensures done { result ≡ 0 → (s : State) × IsPlayable s battle.old × IsWritten (after_turns turns s) battle.old battle.new
        × (records.new ≡ played_rows turn_row turns s records.old) × (touched.new ≡ played_rows touched_row turns s touched.old) }
    ensures kept { result ≢ 0 → (battle.new ≡ battle.old) × (records.new ≡ records.old) × (touched.new ≡ touched.old) }
{
    match play_in(alloc, battle, turns, records, touched) {
        Ok(()) => answer(fault, given(true)),
        Err(refusal) => answer(fault, block_fault(refusal)),
    }
}

/// Executes turns of the battle in a block, updates the past of each cell, and finds the turns that meet all
/// conditions.
#[unsafe(no_mangle)]
pub extern "C" fn mars_follow(
    alloc: Global,
    battle: &mut [u32],
    turns: u32,
    pasts: &mut [Past],
    conditions: &[MarsCondition],
    found: &mut [Found],
    count: &mut u32,
    fault: &mut MarsFault,
) -> u32
    ensures code { result ≡ fault.new.code }
    ensures cleared { result ≡ 0 → fault.new ≡ numbered 0 0 }
    ensures refused { result ≢ 0 → Reports (RefusesFollow battle.old conditions.now (length pasts.old)) fault.new }
    ensures done { result ≡ 0 → IsFollowed turns conditions.now battle.old battle.new pasts.old pasts.new found.old found.new count.new }
    ensures kept { result ≢ 0 → (battle.new ≡ battle.old) × (pasts.new ≡ pasts.old) × (found.new ≡ found.old) × (count.new ≡ count.old) }
{
    match follow_in(alloc, battle, turns, pasts, conditions, found) {
        Ok(total) => {
            *count = total;
            answer(fault, given(true))
        }
        Err(refusal) => answer(fault, block_fault(refusal)),
    }
}

/// Executes turns of the battle in a block in steps, updates the past of each cell, and writes the moment after each
/// step.
#[unsafe(no_mangle)]
pub extern "C" fn mars_moments(
    alloc: Global,
    battle: &mut [u32],
    step: u32,
    pasts: &mut [Past],
    conditions: &[MarsCondition],
    moments: &mut [Moment],
    fault: &mut MarsFault,
) -> u32
    ensures code { result ≡ fault.new.code }
    ensures cleared { result ≡ 0 → fault.new ≡ numbered 0 0 }
    ensures refused { result ≢ 0 → Reports (RefusesFollow battle.old conditions.now (length pasts.old)) fault.new }
    ensures done { result ≡ 0 → HasMoments step conditions.now battle.old battle.new pasts.old pasts.new (length moments.old) moments.new }
    ensures kept { result ≢ 0 → (battle.new ≡ battle.old) × (pasts.new ≡ pasts.old) × (moments.new ≡ moments.old) }
{
    match moments_in(alloc, battle, step, pasts, conditions, moments) {
        Ok(()) => answer(fault, given(true)),
        Err(refusal) => answer(fault, block_fault(refusal)),
    }
}

/// Finds the turns in which a process of the battle in a block and its ancestors were born. The battle stays as it is.
#[unsafe(no_mangle)]
pub extern "C" fn mars_ancestors(
    alloc: Global,
    battle: &[u32],
    turns: u32,
    warrior: u32,
    place: u32,
    births: &mut [u32],
    count: &mut u32,
    first: &mut u32,
    fault: &mut MarsFault,
) -> u32
    ensures code { result ≡ fault.new.code }
    ensures cleared { result ≡ 0 → fault.new ≡ numbered 0 0 }
    ensures refused { result ≢ 0 → Reports (RefusesAncestors turns warrior place battle.now) fault.new }
    ensures done { result ≡ 0 → HasAncestors turns warrior place battle.now births.old births.new count.new first.new }
    ensures kept { result ≢ 0 → (births.new ≡ births.old) × (count.new ≡ count.old) × (first.new ≡ first.old) }
{
    match ancestors_in(alloc, battle, turns, warrior, place, births) {
        Ok(found) => {
            *count = found.count;
            *first = found.first;
            answer(fault, given(true))
        }
        Err(refusal) => answer(fault, block_fault(refusal)),
    }
}

/// Makes an edit of the battle in a block.
#[unsafe(no_mangle)]
pub extern "C" fn mars_edit(
    alloc: Global,
    battle: &mut [u32],
    edit: &MarsEdit,
    fault: &mut MarsFault,
) -> u32
    ensures code { result ≡ fault.new.code }
    ensures cleared { result ≡ 0 → fault.new ≡ numbered 0 0 }
    ensures refused { result ≢ 0 → Reports (RefusesEdit battle.old edit.now) fault.new }
    ensures done { result ≡ 0 → HoldsEdited edit.now battle.old battle.new }
    ensures kept { result ≢ 0 → battle.new ≡ battle.old }
{
    match edit_in(alloc, battle, edit) {
        Ok(()) => answer(fault, given(true)),
        Err(refusal) => answer(fault, block_fault(refusal)),
    }
}

/// Makes edits of the battle in a block, all or none.
#[unsafe(no_mangle)]
pub extern "C" fn mars_edits(
    alloc: Global,
    battle: &mut [u32],
    edits: &[MarsEdit],
    fault: &mut MarsFault,
) -> u32
    ensures code { result ≡ fault.new.code }
    ensures cleared { result ≡ 0 → fault.new ≡ numbered 0 0 }
    ensures refused { result ≢ 0 → Reports (RefusesEdits battle.old edits.now) fault.new }
    ensures done { result ≡ 0 → HoldsEdits edits.now battle.old battle.new }
    ensures kept { result ≢ 0 → battle.new ≡ battle.old }
{
    match edits_in(alloc, battle, edits) {
        Ok(()) => answer(fault, given(true)),
        Err(refusal) => answer(fault, block_fault(refusal)),
    }
}

/// Checks that the words begin with the block of a battle.
#[unsafe(no_mangle)]
pub extern "C" fn mars_check(alloc: Global, battle: &[u32], fault: &mut MarsFault) -> u32
    ensures code { result ≡ fault.new.code }
    ensures cleared { result ≡ 0 → fault.new ≡ numbered 0 0 }
    ensures refused { result ≢ 0 → Reports (RefusesWords battle.now) fault.new }
    ensures done { result ≡ 0 → (s : State) × Spells s battle.now }
{
    match check(alloc, battle) {
        Ok(()) => answer(fault, given(true)),
        Err(refusal) => answer(fault, block_fault(refusal)),
    }
}

/// Debugs the battle in a block, which stays as it is.
#[unsafe(no_mangle)]
pub extern "C" fn mars_debug(
    alloc: Global,
    battle: &[u32],
    history: u32,
    lines: &[u8],
    buffer: &mut [u8],
    length: &mut usize,
    fault: &mut MarsFault,
) -> u32
    ensures code { result ≡ fault.new.code }
    ensures cleared { result ≡ 0 → fault.new ≡ numbered 0 0 }
    ensures short { result ≡ 10 → fault.new ≡ numbered 10 0 }
    ensures unwritten { result ≢ 0 → result ≢ 10 → length.new ≡ length.old }
    ensures refused { result ≢ 0 → result ≢ 10 → Reports (RefusesDebugging battle.now history) fault.new }
    ensures done { result ≡ 0 → HoldsText (Debugs battle.now history lines.now) length.new buffer.old buffer.new }
    ensures room { result ≡ 10 → OverflowsText (Debugs battle.now history lines.now) length.new buffer.old }
    ensures kept { result ≢ 0 → buffer.new ≡ buffer.old }
{
    match transcript(alloc, battle, history, lines) {
        Ok(text) => answer(fault, given(copy_to_buffer(&text, buffer, length))),
        Err(refusal) => answer(fault, block_fault(refusal)),
    }
}
