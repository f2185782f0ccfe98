//! The ancestors of a process of a battle in a block.
ghost use Rattle.std.specs.Prelude.{◌≡◌, IfErr, IfOk, OnErr};
ghost use Rattle.mars_c.specs.Ancestors.{HasAncestors, RefusesAncestors};

use crate::blocks::read;
use crate::faults::BlockRefusal;
use mars_core::{Ancestors, AncestorsFault};
use std::alloc::Global;

/// Finds the turns in which a process and its ancestors were born. The process has the index `place` in the queue of
/// the warrior, 0 at the front, after at most `turns` turns of the battle in a block.
///
/// # Errors
///
/// - `Block` if the words are no battle
/// - `Process` if there is no such process after the turns
/// - `OutOfMemory` if an allocation fails
///
/// After an error, `births` is unchanged.
pub fn ancestors_in(
    alloc: Global,
    words: &[u32],
    turns: u32,
    warrior: u32,
    place: u32,
    births: &mut [u32],
) -> Result<Ancestors, BlockRefusal>
    ensures done { IfOk result (λ found. HasAncestors turns warrior place words.now births.old births.new found.count found.first) }
    ensures refused { IfErr result (RefusesAncestors turns warrior place words.now) }
    ensures kept { OnErr result (births.new ≡ births.old) }
{
    let battle = match read(alloc, words) {
        Ok(battle) => battle,
        Err(refusal) => return Err(refusal),
    };
    match battle.ancestors(alloc, turns, warrior, place, births) {
        Ok(found) => Ok(found),
        Err(AncestorsFault::OutOfMemory) => Err(BlockRefusal::OutOfMemory),
        Err(AncestorsFault::NoSuchProcess) => Err(BlockRefusal::Process),
    }
}
