//! Calls that do not allocate. Each test creates its objects, allocates again, and passes whether or not that
//! allocation and all later ones fail; dev/checks/memory lets all allocations from the n-th on fail, for each n. If the
//! objects themselves cannot be allocated, the test checks nothing.
use super::memory::{
    ALL_COMMANDS, Begin, battle, check_same_sessions, is_refused, tape, with_future,
};
use super::{BLANK, IDLE, check_call, check_each, check_process, check_reply, check_standing};
use mars_session::{Call, DeltaTape, Refusal, Reply, RingTape, Session, Standing, Tape, WholeTape};
use std::alloc::Global;
use std::process::Abort;
use std::test::Fail;

/// Allocates once. In some runs this is the first allocation that fails.
fn ask(alloc: Global) {
    let _asked: Result<Vec<u64>, _> = Vec::with_capacity(alloc, 1);
}

/// Commands in the middle of a history that need no more places than follow.
const COVERED: &[(Call, Reply)] = &[
    (Call::Step, imp_at!(3, 3, 3)),
    (Call::Run(3), imp_at!(5, 5, 5)),
    (Call::Until(5), imp_at!(5, 5, 5)),
    (Call::SetCell(7, IDLE), imp_at!(2, 3, 3)),
    (Call::Fill(3, 5, BLANK), imp_at!(2, 5, 5)),
    (Call::MoveProcess(0, 0, 6), imp_at!(2, 3, 3)),
    (Call::Kill(0, 0), at!(2, 2, 0, 0, 3, 3)),
    (Call::Spawn(0, 6), imp_at!(2, 3, 3)),
];

/// Checks that each command in the middle of a history does not allocate.
fn check_covered<T: Begin>(rt: &impl Abort, alloc: Global, commands: &[(Call, Reply)]) {
    for (call, reply) in commands {
        let Some(mut session) = with_future::<T>(alloc) else {
            return;
        };
        ask(alloc);
        check_call(rt, &mut session, *call, *reply);
    }
}

#[test]
fn places_that_are_there(rt: HostRuntime) -> Result<(), Fail> {
    check_covered::<WholeTape>(&rt, rt.alloc(), COVERED);
    check_covered::<DeltaTape>(&rt, rt.alloc(), COVERED);
    check_covered::<RingTape>(&rt, rt.alloc(), COVERED);
    Ok(())
}

#[test]
fn each_command_over_a_ring(rt: HostRuntime) -> Result<(), Fail> {
    check_covered::<RingTape>(&rt, rt.alloc(), ALL_COMMANDS);
    Ok(())
}

/// Moves to places, and moves without a target.
const MOVES: &[(Call, Reply)] = &[
    (Call::Undo, imp_at!(0, 0, 5)),
    (Call::Undo, Err(Refusal::NothingToUndo)),
    (Call::Goto(4), imp_at!(4, 4, 5)),
    (Call::Goto(6), Err(Refusal::NotInHistory(0, 5))),
    (Call::Redo, imp_at!(5, 5, 5)),
    (Call::Redo, Err(Refusal::NothingToRedo)),
];

fn check_moves<T: Begin>(rt: &impl Abort, alloc: Global) {
    let Some(mut session) = with_future::<T>(alloc) else {
        return;
    };
    ask(alloc);
    check_each(rt, &mut session, MOVES);
    check_standing(rt, &session, imp_at!(5, 5, 5));
    check_process(rt, &session, 0, 5);
}

#[test]
fn moves_over_each_tape(rt: HostRuntime) -> Result<(), Fail> {
    check_moves::<WholeTape>(&rt, rt.alloc());
    check_moves::<DeltaTape>(&rt, rt.alloc());
    check_moves::<RingTape>(&rt, rt.alloc());
    Ok(())
}

/// Checks that a run that is refused leaves the session as it was.
fn check_refused_run<T: Begin>(rt: &impl Abort, alloc: Global) {
    let (Some(mut session), Some(mut twin)) = (with_future::<T>(alloc), with_future::<T>(alloc))
    else {
        return;
    };
    ask(alloc);
    let reply = session.call(Call::Run(90));
    if is_refused::<T>(reply) {
        check_same_sessions(rt, &mut session, &mut twin);
    } else {
        check_reply(rt, reply, imp_at!(92, 92, 92));
    }
}

#[test]
fn a_refused_run(rt: HostRuntime) -> Result<(), Fail> {
    check_refused_run::<WholeTape>(&rt, rt.alloc());
    check_refused_run::<DeltaTape>(&rt, rt.alloc());
    check_refused_run::<RingTape>(&rt, rt.alloc());
    Ok(())
}

/// Returns how many places a tape has room for without allocating, up to 100.
fn room_of<T: Tape>(tape: &mut T) -> u64 {
    let mut room = 0;
    for n in 1..101 {
        if tape.reserve(n).is_ok() {
            room = n;
        }
    }
    room
}

/// Checks that a run that is refused leaves the tape's room as it was: at least the three places that follow.
fn check_room<T: Begin>(rt: &impl Abort, alloc: Global) {
    let Some(session) = with_future::<T>(alloc) else {
        return;
    };
    ask(alloc);
    let mut tape = session.into_tape();
    let room = room_of(&mut tape);
    assert!(rt; room >= 3);
    let mut session = Session::new(tape, 100);
    let reply = session.run(90);
    let mut tape = session.into_tape();
    if is_refused::<T>(reply) {
        assert_eq!(rt; room_of(&mut tape), room);
    }
}

#[test]
fn room_after_a_refused_run(rt: HostRuntime) -> Result<(), Fail> {
    check_room::<WholeTape>(&rt, rt.alloc());
    check_room::<DeltaTape>(&rt, rt.alloc());
    check_room::<RingTape>(&rt, rt.alloc());
    Ok(())
}

/// Checks that a session begins at its tape's only place.
fn check_beginning<T: Begin>(rt: &impl Abort, alloc: Global) {
    let Some(tape) = tape::<T>(alloc) else {
        return;
    };
    ask(alloc);
    let session = Session::new(tape, 100);
    check_standing(rt, &session, imp_at!(0, 0, 0));
    check_process(rt, &session, 0, 0);
}

#[test]
fn a_session_begins(rt: HostRuntime) -> Result<(), Fail> {
    check_beginning::<WholeTape>(&rt, rt.alloc());
    check_beginning::<DeltaTape>(&rt, rt.alloc());
    check_beginning::<RingTape>(&rt, rt.alloc());
    Ok(())
}

#[test]
fn a_session_over_records(rt: HostRuntime) -> Result<(), Fail> {
    let Some(battle) = battle(rt.alloc()) else {
        return Ok(());
    };
    ask(rt.alloc());
    let tape = DeltaTape::new(rt.alloc(), battle).ok().ok_or("tape")?;
    let mut session = Session::new(tape, 100);
    check_call(&rt, &mut session, Call::Undo, Err(Refusal::NothingToUndo));
    Ok(())
}

#[test]
fn records_of_a_tape(rt: HostRuntime) -> Result<(), Fail> {
    let Some(tape) = tape::<DeltaTape>(rt.alloc()) else {
        return Ok(());
    };
    let mut session = Session::new(tape, 100);
    if session.run(2).is_err() {
        return Ok(());
    }
    ask(rt.alloc());
    let tape = session.tape();
    assert!(rt; tape.atom(0).is_some() && tape.atom(1).is_some());
    assert!(rt; tape.atom(2).is_none());
    Ok(())
}
