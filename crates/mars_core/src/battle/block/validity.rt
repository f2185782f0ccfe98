//! Checks that the deaths and the clock of a block agree with its queues (`specs/Validity`).
ghost use Rattle.std.specs.Prelude.{◌≡◌, ◌≤◌, length, true};
ghost use Rattle.mars_core.specs.Limits.{max_warriors};
ghost use Rattle.mars_core.specs.Queue.{addresses_of};
ghost use Rattle.mars_core.specs.Validity.{AreDeaths, IsClock, times_died as spec_times_died};

use crate::deaths::Death;
use crate::machine::clock::{Clock, least_live};
use crate::queue::ProcessQueue;

/// Returns the number of deaths of this warrior.
fn times_died(deaths: &[Death], warrior: usize) -> usize
    ensures { result ≡ spec_times_died deaths.now warrior }
{
    let mut times = 0;
    for death in deaths {
        if death.warrior as usize == warrior {
            times += 1;
        }
    }
    times
}

/// Returns whether the deaths name each warrior with an empty queue exactly once, and no other warrior.
pub fn are_deaths(queues: &[ProcessQueue], deaths: &[Death]) -> bool
    ensures yes { result ≡ true → AreDeaths (addresses_of queues.now) deaths.now }
    ensures no { AreDeaths (addresses_of queues.now) deaths.now → result ≡ true }
{
    for i in 0..queues.len() {
        let wanted = if queues[i].is_empty() { 1 } else { 0 };
        if times_died(deaths, i) != wanted {
            return false;
        }
    }
    deaths
        .iter()
        .all(|death| (death.warrior as usize) < queues.len())
}

/// Returns whether the clock agrees with the queues after `made` turns.
pub fn is_clock(cycles: u32, queues: &[ProcessQueue], clock: Clock, made: u32) -> bool
    requires few { length queues.now ≤ max_warriors }
    ensures yes { result ≡ true → IsClock cycles (addresses_of queues.now) clock made }
    ensures no { IsClock cycles (addresses_of queues.now) clock made → result ≡ true }
{
    let warriors = queues.len();
    let next = clock.next as usize;
    if next >= warriors || clock.cycle > cycles {
        return false;
    }
    let turns = u64::from(clock.cycle) * warriors as u64 + u64::from(clock.next);
    let Some(first) = least_live(queues, 0) else {
        return u64::from(made) <= turns + 1;
    };
    if queues[next].is_empty() {
        return false;
    }
    if clock.cycle == cycles && first != next {
        return false;
    }
    u64::from(made) <= turns
}
