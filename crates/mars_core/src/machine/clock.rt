//! The next warrior, the cycle, and whether the battle is over (the clock of `specs/State`).
ghost use Rattle.std.specs.Prelude.{◌≡◌, ◌==◌, ◌&&◌, ◌+◌, ◌<◌, ◌≤◌, length, ℕ, List, IfSome};
ghost use Rattle.mars_core.specs.Limits.{max_warriors};
ghost use Rattle.mars_core.specs.State.{advanced as spec_advanced, live_from, survivors_of, ends, is_empty};
ghost use Rattle.mars_core.specs.Queue.{addresses_of};
ghost use Rattle.mars_cell.specs.Limits.{max_cycles};

use crate::queue::ProcessQueue;

/// The next warrior and the number of completed cycles.
#[derive(Clone, Copy, PartialEq, Eq)]
pub struct Clock {
    pub next: u32,
    pub cycle: u32,
}

/// Returns the clock after a turn. The next warrior is tested first, because it lives in most cases.
#[inline(always)]
#[tactic(auto, using(crate::proofs::Live::advanced_next, crate::proofs::Live::advanced_round))]
pub fn clock_after_turn(queues: &[ProcessQueue], clock: Clock) -> Clock
    requires few { length queues.now ≤ max_warriors }
    requires next { clock.next < length queues.now }
    requires cycle { clock.cycle ≤ max_cycles }
    ensures { result ≡ spec_advanced (addresses_of queues.now) clock (clock.next + 1) }
{
    let next = clock.next as usize + 1;
    if next < queues.len() {
        if !queues[next].is_empty() {
            return Clock {
                next: next as u32,
                cycle: clock.cycle,
            };
        }
    } else if !queues[0].is_empty() {
        return Clock {
            next: 0,
            cycle: clock.cycle + 1,
        };
    }
    advanced(queues, clock, next)
}

/// Returns the clock moved to the first live warrior from `from` on, or else to the first live warrior of the next
/// cycle. If no warrior lives, the clock is unchanged.
#[tactic(auto, unfolding(crate::specs::State::advanced))]
pub fn advanced(queues: &[ProcessQueue], clock: Clock, from: usize) -> Clock
    requires few { length queues.now ≤ max_warriors }
    requires cycle { clock.cycle ≤ max_cycles }
    ensures { result ≡ spec_advanced (addresses_of queues.now) clock from }
{
    if let Some(next) = least_live(queues, from) {
        return Clock {
            next: next as u32,
            cycle: clock.cycle,
        };
    }
    match least_live(queues, 0) {
        Some(next) => Clock {
            next: next as u32,
            cycle: clock.cycle + 1,
        },
        None => clock,
    }
}

/// Returns the index of the first queue from `from` on that is not empty, if there is one.
#[tactic(auto, using(crate::proofs::Live::queues_live_next, crate::proofs::Live::queues_live_here))]
pub fn least_live(queues: &[ProcessQueue], from: usize) -> Option<usize>
    ensures value { result ≡ live_from (addresses_of queues.now) from }
    ensures bound { IfSome result (λ k. k < length queues.now) }
{
    for i in from..queues.len() {
        if !queues[i].is_empty() {
            return Some(i);
        }
    }
    None
}

/// Returns whether a battle is over, from the number of its warriors and the number of live ones.
#[inline(always)]
#[tactic(auto, unfolding(crate::specs::State::ends))]
pub fn is_over(cycles: u32, cycle: u32, warriors: usize, alive: usize) -> bool
    ensures { (queues : List (List ℕ)) → length queues ≡ warriors → survivors_of queues ≡ alive → result ≡ ends cycles cycle queues }
{
    cycle == cycles || (warriors >= 2 && alive <= 1) || (warriors == 1 && alive == 0)
}
