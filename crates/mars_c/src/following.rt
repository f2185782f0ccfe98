//! Turns of a battle in a block, with the past of each cell, a search, and moments.
ghost use Rattle.std.specs.Prelude.{◌≡◌, IfErr, IfOk, OnErr, OnOk, length, map};
ghost use Rattle.mars_c.specs.Blocks.{IsPlayable};
ghost use Rattle.mars_c.specs.Following.{HasMoments, IsFollowed, RefusesFollow, plain_condition};

use crate::blocks::{put, take};
use crate::conditions::{MarsCondition, conditions_of};
use crate::faults::BlockRefusal;
use mars_core::{Battle, Condition, Found, Moment, Past};
use std::alloc::Global;

/// A battle whose turns are followed, and the conditions that are looked for.
#[derive(Drop)]
struct Followed {
    battle: Battle,
    conditions: Vec<Condition>,
}

/// Returns the battle in a block and the conditions that the numbers mean, if there are as many pasts as cells.
///
/// # Errors
///
/// - `Condition` with the index of the first numbers that mean no condition
/// - `Block` if the words are no battle
/// - `Capacity` if the words have less capacity than the battle needs
/// - `Pasts` if there are not as many pasts as cells
/// - `OutOfMemory` if an allocation fails
fn to_follow(
    alloc: Global,
    words: &[u32],
    conditions: &[MarsCondition],
    pasts: usize,
) -> Result<Followed, BlockRefusal>
    ensures done { IfOk result (λ f. IsPlayable f.battle words.now × (map plain_condition f.conditions.items ≡ conditions.now) × (pasts ≡ f.battle.params.core_size)) }
    ensures refused { IfErr result (RefusesFollow words.now conditions.now pasts) }
{
    let conditions = match conditions_of(alloc, conditions) {
        Ok(conditions) => conditions,
        Err(refusal) => return Err(refusal),
    };
    let battle = match take(alloc, words) {
        Ok(battle) => battle,
        Err(refusal) => return Err(refusal),
    };
    if pasts != battle.params().core_size() as usize {
        return Err(BlockRefusal::Pasts);
    }
    Ok(Followed { battle, conditions })
}

/// Executes at most `turns` turns of the battle in a block, updates the past of each cell, and searches for the turns
/// that meet all conditions. Returns the number of the turns found, and writes as many of them as fit to the front of
/// `found`.
///
/// # Errors
///
/// - `Condition` with the index of the first numbers that mean no condition
/// - `Block` if the words are no battle
/// - `Capacity` if the words have less capacity than the battle needs
/// - `Pasts` if there are not as many pasts as cells
/// - `OutOfMemory` if an allocation fails
///
/// After an error, all arguments are unchanged.
pub fn follow_in(
    alloc: Global,
    words: &mut [u32],
    turns: u32,
    pasts: &mut [Past],
    conditions: &[MarsCondition],
    found: &mut [Found],
) -> Result<u32, BlockRefusal>
    ensures done { IfOk result (λ count. IsFollowed turns conditions.now words.old words.new pasts.old pasts.new found.old found.new count) }
    ensures refused { IfErr result (RefusesFollow words.old conditions.now (length pasts.old)) }
    ensures kept { OnErr result ((words.new ≡ words.old) × (pasts.new ≡ pasts.old) × (found.new ≡ found.old)) }
{
    match to_follow(alloc, words, conditions, pasts.len()) {
        Ok(followed) => {
            let mut followed = followed;
            let count = followed
                .battle
                .follow(turns, pasts, &followed.conditions, found);
            put(&followed.battle, words);
            Ok(count)
        }
        Err(refusal) => Err(refusal),
    }
}

/// For each of the moments, executes at most `step` turns of the battle in a block, updates the past of each cell, and
/// writes the moment after these turns.
///
/// # Errors
///
/// - `Condition` with the index of the first numbers that mean no condition
/// - `Block` if the words are no battle
/// - `Capacity` if the words have less capacity than the battle needs
/// - `Pasts` if there are not as many pasts as cells
/// - `OutOfMemory` if an allocation fails
///
/// After an error, all arguments are unchanged.
pub fn moments_in(
    alloc: Global,
    words: &mut [u32],
    step: u32,
    pasts: &mut [Past],
    conditions: &[MarsCondition],
    moments: &mut [Moment],
) -> Result<(), BlockRefusal>
    ensures done { OnOk result (HasMoments step conditions.now words.old words.new pasts.old pasts.new (length moments.old) moments.new) }
    ensures refused { IfErr result (RefusesFollow words.old conditions.now (length pasts.old)) }
    ensures kept { OnErr result ((words.new ≡ words.old) × (pasts.new ≡ pasts.old) × (moments.new ≡ moments.old)) }
{
    match to_follow(alloc, words, conditions, pasts.len()) {
        Ok(followed) => {
            let mut followed = followed;
            followed
                .battle
                .moments(step, pasts, &followed.conditions, moments);
            put(&followed.battle, words);
            Ok(())
        }
        Err(refusal) => Err(refusal),
    }
}
