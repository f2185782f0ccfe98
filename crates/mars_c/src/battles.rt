//! The battle at the start of a round, and a debugger's session over a battle.
ghost use Rattle.std.specs.Prelude.{◌≡◌, ◌≤◌, ◌⊎◌, [], Err, IfErr, IfOk, IfSome, Ok, length, vec_len};
ghost use Rattle.mars_match.specs.Placement.{FitsTwo};
ghost use Rattle.mars_c.specs.Battles.{IsDebugged, IsHistory, IsRound, IsStart, round_start_state, placed_in};
ghost use Rattle.mars_c.specs.Refusals.{RefusesRound, fight_refusal};
ghost use Rattle.mars_core.specs.Limits.{max_warriors};

use crate::entrants::{Entrants, Entry, enter};
use crate::faults::{CallRefusal, refused_fight};
use crate::ranges::SettingsFault;
use crate::settings::MarsSettings;
use mars_app::debug;
use mars_cell::Warrior;
use mars_core::Battle;
use mars_match::{MatchFault, Setup};
use mars_session::{RingTape, Session};
use std::alloc::Global;

/// Returns the starting positions of a round, drawn with the seed that the rounds before it leave.
fn starts_in(
    alloc: Global,
    setup: &Setup,
    warriors: u32,
    round: u32,
) -> Result<Vec<u32>, MatchFault>
    requires some { 1 ≤ warriors }
    requires few { warriors ≤ max_warriors }
    requires position { FitsTwo setup.now.params warriors setup.now.plan.fixed }
    ensures many { IfOk result (λ starts. vec_len starts ≡ warriors) }
    ensures value { IfOk result (λ starts. placed_in setup.now.params warriors setup.now.plan.fixed round setup.now.plan.seed
        ≡ Ok starts.items) }
    ensures fault { IfErr result (λ fault. (fault ≡ MatchFault.OutOfMemory)
        ⊎ (placed_in setup.now.params warriors setup.now.plan.fixed round setup.now.plan.seed ≡ Err fault)) }
{
    let mut seed = setup.plan.seed;
    for before in 0..round {
        let (_starts, left) = setup.round_starts(alloc, warriors, seed)?;
        seed = left;
    }
    let (starts, _left) = setup.round_starts(alloc, warriors, seed)?;
    Ok(starts)
}

/// Returns the battle at the start of a round.
fn round_battle(
    alloc: Global,
    setup: &Setup,
    mut warriors: Vec<Warrior>,
    round: u32,
) -> Result<Battle, MatchFault>
    requires some { 1 ≤ vec_len warriors }
    requires few { vec_len warriors ≤ max_warriors }
    requires position { FitsTwo setup.now.params (vec_len warriors) setup.now.plan.fixed }
    ensures round { IfOk result (IsRound setup.now warriors.items round) }
    ensures fault { IfErr result (λ fault. (fight_refusal fault ≡ CallRefusal.OutOfMemory) ⊎ (round_start_state setup.now warriors.items round ≡ Err fault)) }
{
    let count = warriors.len();
    let mut starts = starts_in(alloc, setup, count as u32, round)?;
    let first = round as usize % count;
    starts.rotate_left(first);
    warriors.rotate_left(first);
    match Battle::new(alloc, &setup.params, &warriors, &starts) {
        Ok(battle) => Ok(battle),
        Err(fault) => Err(MatchFault::Battle(fault)),
    }
}

/// Returns the battle at the start of a round of a match with these settings and warriors.
pub fn start_of(
    alloc: Global,
    settings: &MarsSettings,
    entrants: Entrants<'_>,
    round: u32,
) -> Result<Battle, CallRefusal>
    requires some { 1 ≤ length entrants.warriors.now }
    requires few { length entrants.warriors.now ≤ max_warriors }
    ensures start { let e = entrants.entry in IfOk result (IsStart settings.now e.cells.now e.warriors.now round) }
    ensures refused { let e = entrants.entry in IfErr result (RefusesRound settings.now e.cells.now e.warriors.now round) }
{
    let Entry { setup, warriors } = enter(
        alloc,
        settings,
        b"0",
        entrants,
        entrants.warriors.len(),
    )?;
    if round >= setup.plan.rounds {
        return Err(CallRefusal::Settings(SettingsFault::Round));
    }
    let battle = round_battle(alloc, &setup, warriors, round);
    drop(setup);
    match battle {
        Ok(battle) => Ok(battle),
        Err(fault) => Err(refused_fight(fault)),
    }
}

/// Executes the debugger's lines over a battle, appends the replies to `transcript`, and returns the session.
///
/// `history` is the number of places that the session's history keeps beside the last one. Returns `None` if an
/// allocation fails.
pub fn debugged(
    alloc: Global,
    battle: Battle,
    history: u32,
    lines: &[u8],
    transcript: &mut Vec<u8>,
) -> Option<Session<RingTape>>
    requires history { IsHistory history }
    requires empty { transcript.old.items ≡ [] }
    ensures { IfSome result (λ session. IsDebugged battle history lines.now session.state transcript.new.items) }
{
    let Ok(tape) = RingTape::new(alloc, battle, history as usize) else {
        return None;
    };
    let mut session = Session::new(tape, u64::from(history));
    let mut rest = lines;
    match debug(&mut rest, transcript, &mut session) {
        Ok(()) => Some(session),
        Err(_) => None,
    }
}
