//! The loops that are open where a line is read.
ghost use Rattle.std.specs.Prelude.{◌≡◌};
ghost use Rattle.redcode_text.specs.Code.Counters.{open_loops};
ghost use Rattle.redcode_text.specs.Tokens.{round_of};

use crate::names::NameTable;

/// An open loop.
#[derive(Clone, Copy)]
pub struct OpenLoop {
    /// The index of the loop's counter among the names, if it has one.
    pub counter: Option<usize>,
    /// The number of the iteration, from 1.
    pub round: u32,
}

/// Returns the iteration of the innermost loop whose counter is `name`, if there is one. `loops` has at most 32 loops,
/// innermost last.
pub fn find_round(names: &NameTable, loops: &[OpenLoop], name: &[u8]) -> Option<u32>
    ensures { result ≡ round_of (open_loops names.now loops.now) name.now }
{
    let [outer @ .., innermost] = loops else {
        return None;
    };
    if let Some(counter) = innermost.counter {
        if names.name(counter) == name {
            return Some(innermost.round);
        }
    }
    find_round(names, outer, name)
}
