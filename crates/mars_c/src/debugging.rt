//! The debugger over a battle in a block.
ghost use Rattle.std.specs.Prelude.{IfErr, IfOk};
ghost use Rattle.mars_c.specs.Debugging.{Debugs, RefusesDebugging};

use crate::battles::debugged;
use crate::blocks::read;
use crate::faults::BlockRefusal;
use mars_app::MAX_HISTORY;
use std::alloc::Global;

/// Returns what the debugger replies to `lines` over the battle whose block the words begin with.
///
/// `history` is the number of places that the history keeps beside the last one, 1 to 1,000,000.
pub fn transcript(
    alloc: Global,
    words: &[u32],
    history: u32,
    lines: &[u8],
) -> Result<Vec<u8>, BlockRefusal>
    ensures text { IfOk result (λ text. Debugs words.now history lines.now text.items) }
    ensures refused { IfErr result (RefusesDebugging words.now history) }
{
    if history < 1 || history > MAX_HISTORY {
        return Err(BlockRefusal::History);
    }
    let battle = match read(alloc, words) {
        Ok(battle) => battle,
        Err(refusal) => return Err(refusal),
    };
    let mut transcript = Vec::new(alloc);
    match debugged(alloc, battle, history, lines, &mut transcript) {
        Some(session) => drop(session),
        None => return Err(BlockRefusal::OutOfMemory),
    }
    Ok(transcript)
}
