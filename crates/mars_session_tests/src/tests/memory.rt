//! Calls whose allocations fail, over each kind of tape. Each test tries a call again if memory runs out, so it passes
//! whichever allocation fails. dev/checks/memory lets each allocation fail in turn.
use super::{BLANK, COPIER, IDLE, check_call, check_reply, check_same, check_standing};
use mars_cell::{Params, Warrior};
use mars_core::Battle;
use mars_session::{Call, DeltaTape, Refusal, Reply, RingTape, Session, Standing, Tape, WholeTape};
use std::alloc::Global;
use std::process::Abort;
use std::test::Fail;

/// A tape that can start at a battle, or returns the battle if an allocation fails.
pub trait Begin: Tape + Drop {
    fn begin(alloc: Global, battle: Battle) -> Result<Self, Battle>;
}

impl Begin for WholeTape {
    fn begin(alloc: Global, battle: Battle) -> Result<Self, Battle> {
        WholeTape::new(alloc, battle)
    }
}

impl Begin for DeltaTape {
    fn begin(alloc: Global, battle: Battle) -> Result<Self, Battle> {
        DeltaTape::new(alloc, battle)
    }
}

impl Begin for RingTape {
    fn begin(alloc: Global, battle: Battle) -> Result<Self, Battle> {
        RingTape::new(alloc, battle, 100)
    }
}

/// Returns the battle of the imp in a core of 8 cells.
pub fn battle(alloc: Global) -> Option<Battle> {
    let params = Params::new(8, 8, 80000, 8, 8, 1, 1).ok()?;
    let mut cells = Vec::new(alloc);
    cells.push(COPIER).ok()?;
    let warrior = Warrior::new(String::new(alloc), String::new(alloc), cells, 0).ok()?;
    Battle::new(alloc, &params, &[warrior], &[0]).ok()
}

/// Returns the imp's battle, if at most one allocation fails.
fn second_battle(alloc: Global) -> Option<Battle> {
    battle(alloc).or_else(|| battle(alloc))
}

/// Returns the imp's tape. If the first try fails, a second one starts at the battle that was returned.
pub fn tape<T: Begin>(alloc: Global) -> Option<T> {
    match T::begin(alloc, second_battle(alloc)?) {
        Err(battle) => T::begin(alloc, battle).ok(),
        Ok(tape) => Some(tape),
    }
}

/// Returns the imp's session.
fn session<T: Begin>(alloc: Global) -> Option<Session<T>> {
    Some(Session::new(tape(alloc)?, 100))
}

/// Returns whether a reply is `OutOfMemory`. The result is false for a tape that evicts, which must never give this
/// reply.
pub fn is_refused<T: Tape>(reply: Reply) -> bool {
    !T::FORGETS && reply == Err(Refusal::OutOfMemory)
}

/// Returns a call's reply, from a second try if an allocation failed.
fn second_reply<T: Tape>(session: &mut Session<T>, call: Call) -> Reply {
    let reply = session.call(call);
    if is_refused::<T>(reply) {
        return session.call(call);
    }
    reply
}

/// Returns a session after five turns, back at place 2.
pub fn with_future<T: Begin>(alloc: Global) -> Option<Session<T>> {
    let mut session = session(alloc)?;
    second_reply(&mut session, Call::Run(5)).ok()?;
    session.call(Call::Goto(2)).ok()?;
    Some(session)
}

/// Checks that a call has the same reply over two sessions.
fn check_same_reply<T: Tape>(
    rt: &impl Abort,
    one: &mut Session<T>,
    other: &mut Session<T>,
    call: Call,
) {
    check_reply(rt, one.call(call), other.call(call));
}

/// Checks that two sessions are at the same place, with the same cells, queues, counters and marked places around it.
fn check_same_place<T: Tape>(rt: &impl Abort, one: &mut Session<T>, other: &mut Session<T>) {
    check_standing(rt, one, Ok(other.standing()));
    check_same(rt, one.battle(), other.battle());
    let here = Call::Goto(one.standing().turns);
    for call in [Call::Undo, here, Call::Redo, here] {
        check_same_reply(rt, one, other, call);
    }
}

/// Checks that two sessions are at the same place of the same history, of at most 20 places without edits.
pub fn check_same_sessions<T: Tape>(rt: &impl Abort, one: &mut Session<T>, other: &mut Session<T>) {
    let start = one.standing();
    check_same_place(rt, one, other);
    for turns in 0..20 {
        check_same_reply(rt, one, other, Call::Goto(turns));
        check_same_place(rt, one, other);
    }
    check_call(rt, one, Call::Goto(start.turns), Ok(start));
    check_call(rt, other, Call::Goto(start.turns), Ok(start));
}

/// Returns a call's reply, from a second try if an allocation failed. After the failure, the session must be equal to its twin,
/// over which the call was not executed.
fn reply_of<T: Tape>(
    rt: &impl Abort,
    session: &mut Session<T>,
    twin: &mut Session<T>,
    call: Call,
) -> Reply {
    let reply = session.call(call);
    if is_refused::<T>(reply) {
        check_same_sessions(rt, session, twin);
        return session.call(call);
    }
    reply
}

/// Checks that a tape returns the battle unchanged if an allocation fails.
fn check_beginning<T: Begin>(rt: &impl Abort, alloc: Global) -> Result<(), Fail> {
    let battle = second_battle(alloc).ok_or("battle")?;
    let twin = second_battle(alloc).ok_or("twin")?;
    if let Err(back) = T::begin(alloc, battle) {
        check_same(rt, &back, &twin);
    }
    Ok(())
}

#[test]
fn a_tape_begins(rt: HostRuntime) -> Result<(), Fail> {
    check_beginning::<WholeTape>(&rt, rt.alloc())?;
    check_beginning::<DeltaTape>(&rt, rt.alloc())?;
    check_beginning::<RingTape>(&rt, rt.alloc())
}

/// The commands in the middle of a history of five turns, each with its reply.
pub const ALL_COMMANDS: &[(Call, Reply)] = &[
    (Call::Step, imp_at!(3, 3, 3)),
    (Call::Run(9), imp_at!(11, 11, 11)),
    (Call::Until(9), imp_at!(9, 9, 9)),
    (Call::SetCell(7, IDLE), imp_at!(2, 3, 3)),
    (Call::Fill(3, 7, BLANK), imp_at!(2, 7, 7)),
    (Call::MoveProcess(0, 0, 6), imp_at!(2, 3, 3)),
    (Call::Kill(0, 0), at!(2, 2, 0, 0, 3, 3)),
    (Call::Spawn(0, 6), imp_at!(2, 3, 3)),
];

/// Checks a command in the middle of a history: if it is refused, it changes nothing and keeps the places that follow.
fn check_command<T: Begin>(
    rt: &impl Abort,
    alloc: Global,
    call: Call,
    reply: Reply,
) -> Result<(), Fail> {
    let mut session: Session<T> = with_future(alloc).ok_or("session")?;
    let mut twin: Session<T> = with_future(alloc).ok_or("twin")?;
    let made = reply_of(rt, &mut session, &mut twin, call);
    check_reply(rt, made, reply);
    Ok(())
}

fn check_commands<T: Begin>(rt: &impl Abort, alloc: Global) -> Result<(), Fail> {
    for (call, reply) in ALL_COMMANDS {
        check_command::<T>(rt, alloc, *call, *reply)?;
    }
    Ok(())
}

#[test]
fn commands_over_copies(rt: HostRuntime) -> Result<(), Fail> {
    check_commands::<WholeTape>(&rt, rt.alloc())
}

#[test]
fn commands_over_records(rt: HostRuntime) -> Result<(), Fail> {
    check_commands::<DeltaTape>(&rt, rt.alloc())
}

#[test]
fn commands_over_a_ring(rt: HostRuntime) -> Result<(), Fail> {
    check_commands::<RingTape>(&rt, rt.alloc())
}

/// Checks the very first command: if it is refused, the history still has only its first place.
fn check_first_run<T: Begin>(rt: &impl Abort, alloc: Global) -> Result<(), Fail> {
    let mut session: Session<T> = session(alloc).ok_or("session")?;
    let mut twin: Session<T> = self::session(alloc).ok_or("twin")?;
    let made = reply_of(rt, &mut session, &mut twin, Call::Run(5));
    check_reply(rt, made, imp_at!(5, 5, 5));
    Ok(())
}

#[test]
fn a_first_run(rt: HostRuntime) -> Result<(), Fail> {
    check_first_run::<WholeTape>(&rt, rt.alloc())?;
    check_first_run::<DeltaTape>(&rt, rt.alloc())?;
    check_first_run::<RingTape>(&rt, rt.alloc())
}

const CALLS: &[Call] = &[
    Call::Run(5),
    Call::Goto(3),
    Call::Run(4),
    Call::Undo,
    Call::Step,
];

/// Returns a list of one reply, if at most one allocation fails.
fn second_list(alloc: Global) -> Result<Vec<Reply>, Fail> {
    let mut out = Vec::new(alloc);
    if out.push(imp_at!(2, 2, 5)).is_err() {
        out.push(imp_at!(2, 2, 5))?;
    }
    Ok(out)
}

/// Appends the replies to the calls, in a second try if there was no memory for them. After the failure, the session must be
/// equal to its twin, and there must be no new reply.
fn call_all<T: Tape>(
    rt: &impl Abort,
    session: &mut Session<T>,
    twin: &mut Session<T>,
    out: &mut Vec<Reply>,
) -> Result<(), Fail> {
    if session.apply_all(CALLS, out).is_err() {
        check_same_sessions(rt, session, twin);
        assert_eq!(rt; out.len(), 1);
        session.apply_all(CALLS, out)?;
    }
    Ok(())
}

/// Checks the replies after the first one against those of the twin, except for `OutOfMemory`.
fn check_replies<T: Tape>(rt: &impl Abort, twin: &mut Session<T>, out: &[Reply]) {
    assert_eq!(rt; out.len(), CALLS.len() + 1);
    check_reply(rt, out[0], imp_at!(2, 2, 5));
    for (call, reply) in CALLS.iter().zip(out[1..].iter()) {
        if !is_refused::<T>(*reply) {
            check_reply(rt, second_reply(twin, *call), *reply);
        }
    }
}

/// Checks a list of calls: without memory for the replies nothing changes, and a call that runs out of memory changes nothing.
fn check_list<T: Begin>(rt: &impl Abort, alloc: Global) -> Result<(), Fail> {
    let mut session: Session<T> = with_future(alloc).ok_or("session")?;
    let mut twin: Session<T> = with_future(alloc).ok_or("twin")?;
    let mut out = second_list(alloc)?;
    call_all(rt, &mut session, &mut twin, &mut out)?;
    check_replies(rt, &mut twin, &out);
    check_same_sessions(rt, &mut session, &mut twin);
    Ok(())
}

#[test]
fn lists_of_calls(rt: HostRuntime) -> Result<(), Fail> {
    check_list::<WholeTape>(&rt, rt.alloc())?;
    check_list::<DeltaTape>(&rt, rt.alloc())?;
    check_list::<RingTape>(&rt, rt.alloc())
}
