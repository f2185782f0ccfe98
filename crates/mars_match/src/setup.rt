//! The setup of matches, and the starting positions of the warriors of a round: drawn, or at a fixed position.
ghost use Rattle.std.specs.Prelude.{◌≡◌, ◌≤◌, ℕ, length, IfOk, IfSome, MatchResult, Ok, Err, Vec, vec_len};
ghost use Rattle.std.specs.Global.{Global};
ghost use Rattle.mars_core.specs.Limits.{max_warriors};
ghost use Rattle.mars_match.specs.CallResults.{IsResult};
ghost use Rattle.mars_match.specs.Placement.{FitsTwo};
ghost use Rattle.mars_match.specs.Rounds.{placed_for};

use crate::fault::MatchFault;
use crate::placement::{find_fault, place_all};
use mars_cell::Params;
use redcode_asm::Formula;
use std::alloc::Global;

/// The plan of a match's battles.
#[derive(Clone, Copy)]
pub struct Plan {
    /// The number of rounds of each match. In a league, each pair of warriors plays a match.
    pub rounds: u32,
    /// The seed of the first round, from 1 to 2147483646.
    pub seed: u32,
    /// The start of the second of two warriors in each round, instead of a drawn position. It is at least the minimum
    /// distance, and at most the core size minus the minimum distance.
    pub fixed: Option<u32>,
}

impl Plan {
    /// Sets the starts of a round, and returns the seed for the next round.
    pub(crate) fn place_round(
        &self,
        params: &Params,
        seed: u32,
        starts: &mut [u32],
    ) -> Result<u32, MatchFault>
        requires some { 1 ≤ length starts.old }
        requires few { length starts.old ≤ max_warriors }
        requires fixed { IfSome self.now.fixed (λ position. length starts.old ≡ 2) }
        ensures { MatchResult result (λ left. placed_for params.now (length starts.old) self.now.fixed seed ≡ Ok (starts.new, left))
            (λ fault. placed_for params.now (length starts.old) self.now.fixed seed ≡ Err fault) }
    {
        if let Some(position) = self.fixed {
            starts[0] = 0;
            starts[1] = position;
            return Ok(seed);
        }
        if let Some(fault) = find_fault(params, starts.len() as u32, seed) {
            return Err(MatchFault::Place(fault));
        }
        Ok(place_all(params, seed, starts))
    }
}

/// The setup of a match or a league.
#[derive(Drop)]
pub struct Setup {
    /// The parameters of its battles.
    pub params: Params,
    pub plan: Plan,
    /// The formula for the points of each survivor of a round.
    pub formula: Formula,
}

impl Setup {
    /// Returns the starts of the warriors of a round, in load order, and the seed for the next round.
    ///
    /// The starts are drawn from the seed. If the plan has a fixed position, it is the start of the second of two
    /// warriors, and the seed is returned unchanged.
    ///
    /// # Errors
    ///
    /// Returns the errors of `place`.
    pub fn round_starts(
        &self,
        alloc: Global,
        warriors: u32,
        seed: u32,
    ) -> Result<(Vec<u32>, u32), MatchFault>
        requires some { 1 ≤ warriors }
        requires few { warriors ≤ max_warriors }
        requires fixed { FitsTwo self.now.params warriors self.now.plan.fixed }
        ensures value { IsResult (λ (placed : Vec ℕ Global × ℕ). (placed.0.items, placed.1))
            (placed_for self.now.params warriors self.now.plan.fixed seed) result }
        ensures many { IfOk result (λ placed. vec_len placed.0 ≡ warriors) }
    {
        let mut starts = vec![in alloc; 0u32; warriors as usize]?;
        let left = self
            .plan
            .place_round(&self.params, seed, starts.as_mut_slice())?;
        Ok((starts, left))
    }
}
