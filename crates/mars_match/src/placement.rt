//! The starting positions of the warriors of a battle.
ghost use Rattle.std.specs.Prelude.{◌≡◌, ◌+◌, ◌-◌, ◌*◌, ◌%◌, ◌<◌, ◌≤◌, ◌∷◌, All, length, IfOk, IfErr, IfSome};
ghost use Rattle.mars_match.specs.Placement.{drawn as spec_drawn, seed_after, draws, spread, exchanged, starts_of, next_seed, place_fault, IsSpaced};
ghost use Rattle.mars_core.specs.Limits.{max_warriors};
ghost use Rattle.mars_cell.specs.Limits.{max_core_size};

use mars_cell::Params;
use std::alloc::{AllocError, Global};
use thiserror::Error;

/// The maximum seed; the minimum is 1.
pub const MAX_SEED: u32 = 2_147_483_646;

/// The reason why warriors can't be placed, in the order of the checks. It is displayed as its number and name.
#[derive(Clone, Copy, Debug, PartialEq, Eq, Error)]
pub enum PlaceFault {
    /// The minimum distances of the warriors add up to more than the core size.
    #[error("1 NoRoom")]
    NoRoom,
    /// The seed isn't from 1 to 2147483646.
    #[error("2 BadSeed")]
    BadSeed,
    /// An allocation failed.
    #[error("3 OutOfMemory")]
    OutOfMemory,
}

impl From<AllocError> for PlaceFault {
    ghost use Rattle.std.specs.Prelude.{◌≡◌};
    ghost use Rattle.mars_match.specs.declared.placement.PlaceFault.TheVariants as fault;

    ghost from_gives = { λ _ to. to ≡ fault.OutOfMemory };

    fn from(_error: AllocError) -> PlaceFault {
        PlaceFault::OutOfMemory
    }
}

/// Draws from the generator of Park and Miller. The result is both the drawn number and the new seed.
#[tactic(auto, unfolding(crate::specs::Placement::drawn))]
fn drawn(seed: u32) -> u32
    ensures { result ≡ spec_drawn seed }
{
    (16807 * u64::from(seed) % 2_147_483_647) as u32
}

/// Sets start 0 to 0 and each other start to a draw modulo `room`, and returns the seed after the draws.
fn draw_values(starts: &mut [u32], room: u32, seed: u32) -> u32
    requires room { 1 ≤ room }
    requires some { 1 ≤ length starts.old }
    ensures starts { starts.new ≡ 0 ∷ draws room (length starts.old - 1) seed }
    ensures seed { result ≡ seed_after (length starts.old - 1) seed }
{
    let mut state = seed;
    starts[0] = 0;
    for i in 1..starts.len() {
        state = drawn(state);
        starts[i] = state % room;
    }
    state
}

/// Adds `i` times the distance to start `i`.
fn spread(starts: &mut [u32], distance: u32)
    requires few { length starts.old ≤ max_warriors }
    requires distance { length starts.old * distance ≤ max_core_size }
    requires below { All (λ s. s ≤ max_core_size) starts.old }
    ensures { starts.new ≡ spread distance 0 starts.old }
{
    for i in 0..starts.len() {
        starts[i] += i as u32 * distance;
    }
}

/// Exchanges each start, from the last one down to start 2, with a drawn one other than start 0, and returns the seed
/// after the draws.
fn exchange(starts: &mut [u32], seed: u32) -> u32
    ensures starts { starts.new ≡ exchanged (length starts.old - 2) seed starts.old }
    ensures seed { result ≡ seed_after (length starts.old - 2) seed }
{
    let mut state = seed;
    for i in (2..starts.len()).rev() {
        state = drawn(state);
        starts.swap(i, 1 + state as usize % i);
    }
    state
}

/// Places one warrior for each item of `starts`, for which there must be room, and returns the seed for the next round.
///
/// Doesn't allocate.
pub fn place_all(params: &Params, seed: u32, starts: &mut [u32]) -> u32
    requires some { 1 ≤ length starts.old }
    requires few { length starts.old ≤ max_warriors }
    requires room { length starts.old * params.now.distance ≤ params.now.core_size }
    ensures starts { starts.new ≡ starts_of params.now (length starts.old) seed }
    ensures seed { result ≡ next_seed (length starts.old) seed }
    ensures spaced { IsSpaced params.now.core_size params.now.distance starts.new }
{
    let core_size = params.core_size();
    let distance = params.distance();
    let room = core_size - starts.len() as u32 * distance + 1;
    let seed = draw_values(starts, room, seed);
    starts.sort_unstable();
    spread(starts, distance);
    exchange(starts, seed)
}

/// Returns the first error of placing warriors, except for `OutOfMemory`.
pub fn find_fault(params: &Params, warriors: u32, seed: u32) -> Option<PlaceFault>
    requires { warriors ≤ max_warriors }
    ensures { result ≡ place_fault params.now warriors seed }
{
    let core_size = params.core_size();
    if warriors * params.distance() > core_size {
        return Some(PlaceFault::NoRoom);
    }
    if seed < 1 || seed > MAX_SEED {
        return Some(PlaceFault::BadSeed);
    }
    None
}

/// Returns the starts of 1 to 16 warriors, in load order, and the seed for the next round.
///
/// # Errors
///
/// - `NoRoom` if the minimum distances of the warriors add up to more than the core size
/// - `BadSeed` if the seed isn't from 1 to 2147483646
/// - `OutOfMemory` if the allocation fails
pub fn place(
    alloc: Global,
    params: &Params,
    warriors: u32,
    seed: u32,
) -> Result<(Vec<u32>, u32), PlaceFault>
    requires some { 1 ≤ warriors }
    requires few { warriors ≤ max_warriors }

    // It fails exactly with the defined error, or if memory runs out.
    ensures fault { IfSome (place_fault params.now warriors seed) (λ fault. result ≡ Err fault) }
    ensures only_memory { place_fault params.now warriors seed ≡ None → IfErr result (λ fault. fault ≡ PlaceFault.OutOfMemory) }

    // Otherwise it returns the defined starts and the seed that is left.
    ensures starts { IfOk result (λ placed. placed.0.items ≡ starts_of params.now warriors seed) }
    ensures seed { IfOk result (λ placed. placed.1 ≡ next_seed warriors seed) }

    // The properties of the starts that callers need.
    ensures many { IfOk result (λ placed. length placed.0.items ≡ warriors) }
    ensures spaced { IfOk result (λ placed. IsSpaced params.now.core_size params.now.distance placed.0.items) }
{
    if let Some(fault) = find_fault(params, warriors, seed) {
        return Err(fault);
    }
    let mut starts = vec![in alloc; 0u32; warriors as usize]?;
    let seed = place_all(params, seed, starts.as_mut_slice());
    Ok((starts, seed))
}
