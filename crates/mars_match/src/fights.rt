//! The battle of a round, executed until it is over, and the rotations of the warriors.
ghost use Rattle.std.specs.Prelude.{◌≡◌, ◌+◌, ◌%◌, ◌<◌, ◌≤◌, length, Some, None, IfSome, Ok, Err, MatchOption, MatchResult, IfOk, IfErr, IsOk, ◌≢◌, slice_index_or, false, Bool, Vec, ◌++◌, ◌∷◌, [], take, Box};
ghost use Rattle.std.specs.Global.{Global};
ghost use Rattle.mars_core.specs.State.{State};
ghost use Rattle.mars_match.specs.CallResults.{IsResult};
ghost use Rattle.mars_match.specs.Battles.{rotated, end_of, in_load_order, count_fault, unless, started, fought};
ghost use Rattle.mars_match.specs.Code.Lineups.{HasRoom};
ghost use Rattle.mars_match.specs.Fates.{ended};
ghost use Rattle.mars_core.specs.Start.{start_state, start_fault};
ghost use Rattle.mars_core.specs.Limits.{max_warriors};

use crate::fault::MatchFault;
use arrayvec::ArrayVec;
use mars_cell::{Params, Warrior};
use mars_core::{Battle, BattleFault, MAX_WARRIORS};
use std::alloc::{AllocError, Global};
use std::marker::Model;

/// The warriors of a match, followed by copies of all but the last one, so that every rotation of the warriors is a
/// contiguous slice.
#[derive(Drop)]
pub struct Lineup {
    copies: Vec<Warrior>,
    count: usize,
}

impl Model for Lineup {
    ghost use Rattle.std.specs.Prelude.{◌≡◌, ◌++◌, List, take, length};
    ghost use Rattle.mars_cell.specs.Warriors.{WarriorValue};
    ghost use Rattle.mars_match.specs.Code.Lineups.{GoesOn};

    ghost Value = { List WarriorValue };

    ghost view = { λ l. take l.count l.copies.items };

    ghost invariant = { λ l. GoesOn l.count l.copies.items };
}

/// Returns copies of warriors.
fn copies_of(alloc: Global, warriors: &[Warrior]) -> Result<Vec<Warrior>, AllocError>
    ensures { IfOk result (λ copies. copies.items ≡ warriors.now) }
{
    let mut copies = Vec::new(alloc);
    for warrior in warriors {
        copies.push(warrior.copy()?)?;
    }
    Ok(copies)
}

impl Lineup {
    /// Returns a lineup of copies of the warriors, which are in load order.
    pub fn new(alloc: Global, warriors: &[Warrior]) -> Result<Lineup, AllocError>
        requires { 1 ≤ length warriors.now }
        ensures { IfOk result (λ lineup. lineup ≡ warriors.now) }
    {
        Lineup::of(copies_of(alloc, warriors)?)
    }

    /// Returns a lineup of the warriors, which are in load order. Copies all but the last one.
    pub fn of(warriors: Vec<Warrior>) -> Result<Lineup, AllocError>
        requires { 1 ≤ length warriors.items }
        ensures { IfOk result (λ lineup. lineup ≡ warriors.items) }
    {
        let mut copies = warriors;
        let count = copies.len();
        for i in 0..count - 1 {
            let copy = copies[i].copy()?;
            copies.push(copy)?;
        }
        Ok(Lineup { copies, count })
    }

    /// Returns a lineup of two copies of a warrior. `replace_second` then replaces the second copy.
    pub fn twice(alloc: Global, warrior: &Warrior) -> Result<Lineup, AllocError>
        ensures { IfOk result (λ lineup. lineup ≡ warrior.now ∷ warrior.now ∷ []) }
    {
        let mut copies = Vec::new(alloc);
        copies.push(warrior.copy()?)?;
        copies.push(warrior.copy()?)?;
        copies.push(warrior.copy()?)?;
        Ok(Lineup { copies, count: 2 })
    }

    /// Replaces the second of two warriors by a copy of another one.
    pub fn replace_second(&mut self, warrior: &Warrior) -> Result<(), AllocError>
        requires { length self.old ≡ 2 }
        ensures { IfOk result (λ _. self.new ≡ take 1 self.old ++ warrior.now ∷ []) }
    {
        self.copies[1] = warrior.copy()?;
        Ok(())
    }

    /// Returns the number of warriors.
    pub fn len(&self) -> usize
        ensures { result ≡ length self.now }
    {
        self.count
    }

    /// Returns the warriors from number `first` on, followed by those before it.
    pub fn starting_at(&self, first: usize) -> &[Warrior]
        requires { first < length self.now }
        ensures { result.now ≡ rotated first self.now }
    {
        &self.copies[first..first + self.count]
    }
}

/// A round of a match: its warriors, their starts and its number, from 0.
#[derive(Clone, Copy)]
pub struct Round<'r> {
    pub lineup: &'r Lineup,
    pub starts: &'r [u32],
    pub number: u32,
    ghost same_length: { length starts.now ≡ length lineup.now },
    ghost some: { 1 ≤ length lineup.now },
    ghost few: { length lineup.now ≤ max_warriors },
}

/// Executes turns until the battle is over.
#[tactic(auto, unfolding(crate::specs::Battles::end_of))]
fn end(battle: &mut Battle)
    ensures { battle.new ≡ end_of battle.old }
{
    battle.run_to_end();
}

/// Checks that there are 1 to 16 warriors.
pub fn check_count(count: usize) -> Result<(), MatchFault>
    ensures { MatchOption (count_fault count) (IsOk result) (λ fault. result ≡ Err (MatchFault.Battle fault)) }
{
    if count == 0 {
        return Err(MatchFault::Battle(BattleFault::NoWarrior));
    }
    if count > MAX_WARRIORS {
        return Err(MatchFault::Battle(BattleFault::TooMany));
    }
    Ok(())
}

/// Returns the starts from number `first` on, followed by those before it.
fn rotated_starts(starts: &[u32], first: usize) -> ArrayVec<u32, MAX_WARRIORS>
    requires few { length starts.now ≤ max_warriors }
    requires first { first ≤ length starts.now }
    ensures { result.items ≡ rotated first starts.now }
{
    let mut rotated = ArrayVec::new();
    let _ = rotated.try_extend_from_slice(&starts[first..]);
    let _ = rotated.try_extend_from_slice(&starts[..first]);
    rotated
}

/// Allocates a battle and starts it.
fn new_battle(
    alloc: Global,
    params: &Params,
    warriors: &[Warrior],
    starts: &[u32],
) -> Result<Box<Battle>, MatchFault>
    requires { length starts.now ≡ length warriors.now }
    ensures { IsResult (λ (battle : Box State Global). battle.value)
        (unless (start_fault params.now warriors.now starts.now) (start_state params.now warriors.now starts.now)) result }
{
    match Battle::new(alloc, params, warriors, starts) {
        Ok(battle) => match Box::new(alloc, battle) {
            Ok(battle) => Ok(battle),
            Err(_) => Err(MatchFault::OutOfMemory),
        },
        Err(BattleFault::OutOfMemory) => Err(MatchFault::OutOfMemory),
        Err(fault) => Err(MatchFault::Battle(fault)),
    }
}

/// Starts the battle of a round. If there is a battle `last`, uses its memory and doesn't allocate.
pub fn start_round(
    alloc: Global,
    params: &Params,
    round: Round<'_>,
    last: Option<Box<Battle>>,
) -> Result<Box<Battle>, MatchFault>
    requires { IfSome last (λ battle. HasRoom params.now (length round.lineup.now) battle.value) }
    ensures state { let r = round.entry in IsResult (λ (battle : Box State Global). battle.value)
        (started params.now r.lineup.now r.starts.now r.number) result }
    ensures no_memory { IfSome last (λ _. IfErr result (λ fault. fault ≢ MatchFault.OutOfMemory)) }
{
    let first = round.number as usize % round.lineup.len();
    let warriors = round.lineup.starting_at(first);
    let starts = rotated_starts(round.starts, first);
    let Some(mut battle) = last else {
        return new_battle(alloc, params, warriors, starts.as_slice());
    };
    match battle.restart(warriors, starts.as_slice()) {
        Ok(()) => Ok(battle),
        Err(fault) => Err(MatchFault::Battle(fault)),
    }
}

/// Returns whether the warrior with number `warrior` in load order is alive, in a battle in which warrior `first` had
/// the first turn.
pub fn is_alive(battle: &Battle, first: usize, warrior: usize) -> bool
    requires first { first < length battle.now.queues }
    requires warrior { warrior < length battle.now.queues }
    ensures { result ≡ slice_index_or (in_load_order first battle.now) warrior false }
{
    if warrior >= first {
        return battle.alive(warrior - first);
    }
    battle.alive(battle.warriors() - (first - warrior))
}

/// Executes the battle of a round until it is over. If there is a battle `last`, uses its memory and doesn't allocate.
pub fn fight_round(
    alloc: Global,
    params: &Params,
    round: Round<'_>,
    last: Option<Box<Battle>>,
) -> Result<Box<Battle>, MatchFault>
    requires { IfSome last (λ battle. HasRoom params.now (length round.lineup.now) battle.value) }
    ensures survivors { let r = round.entry in IsResult (λ (battle : Box State Global). in_load_order (r.number % length r.lineup.now) battle.value)
        (fought params.now r.lineup.now r.starts.now r.number) result }
    ensures state { let r = round.entry in IsResult (λ (battle : Box State Global). battle.value) (ended params.now r.lineup.now r.starts.now r.number) result }
    ensures room { IfOk result (λ battle. HasRoom params.now (length round.entry.lineup.now) battle.value) }

    // With the memory of the battle `last`, nothing is allocated.
    ensures no_memory { IfSome last (λ _. IfErr result (λ fault. fault ≢ MatchFault.OutOfMemory)) }
{
    let mut battle = start_round(alloc, params, round, last)?;
    end(&mut battle);
    Ok(battle)
}

/// Returns whether each warrior is alive, in load order, in a battle in which warrior `first` had the first turn.
fn survivors_list(alloc: Global, battle: &Battle, first: usize) -> Result<Vec<bool>, MatchFault>
    requires first { first < length battle.now.queues }
    ensures { MatchResult result (λ list. list.items ≡ in_load_order first battle.now) (λ fault. fault ≡ MatchFault.OutOfMemory) }
{
    let count = battle.warriors();
    let mut list = Vec::with_capacity(alloc, count)?;
    for warrior in 0..count {
        list.push(is_alive(battle, first, warrior))?;
    }
    Ok(list)
}

/// Executes the battle of a round and returns whether each warrior survives, in load order.
///
/// The warriors are rotated by `round`, the number of the round from 0, so that the first turn passes from warrior to
/// warrior. Allocates copies of the warriors and the battle.
///
/// # Errors
///
/// - `Battle` if there is no warrior or more than 16, then if the battle can't start
/// - `OutOfMemory` if an allocation fails
pub fn fight(
    alloc: Global,
    params: &Params,
    warriors: &[Warrior],
    starts: &[u32],
    round: u32,
) -> Result<Vec<bool>, MatchFault>
    requires { length starts.now ≡ length warriors.now }
    ensures count { IfSome (count_fault (length warriors.now)) (λ fault. result ≡ Err (MatchFault.Battle fault)) }
    ensures survivors { IsResult (λ (list : Vec Bool Global). list.items) (fought params.now warriors.now starts.now round) result }
{
    check_count(warriors.len())?;
    let lineup = Lineup::new(alloc, warriors)?;
    let fought = Round {
        lineup: &lineup,
        starts,
        number: round,
    };
    let battle = fight_round(alloc, params, fought, None)?;
    survivors_list(alloc, &battle, round as usize % warriors.len())
}
