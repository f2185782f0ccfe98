//! Edits of cells and processes in a history.

use super::{
    Check, IDLE, Start, check_call, check_process, check_queue, check_script, lone_tape, stayers,
    stayers_give,
};
use mars_cell::{Cell, Mode, Modifier, Op};
use mars_session::{Call, DeltaTape, Refusal, Reply, RingTape, Session, Standing, Tape, WholeTape};
use std::alloc::Global;
use std::process::Abort;
use std::test::Fail;

const NEXT_WARRIOR_IS_KILLED: &[(Call, Reply)] = &[
    (Call::Step, at!(1, 0, 1, 3, 1, 1)),
    (Call::Kill(1, 0), at!(1, 0, 2, 2, 2, 2)),
];

#[test]
fn next_warrior_is_killed(rt: HostRuntime) -> Result<(), Fail> {
    stayers_give(&rt, rt.alloc(), NEXT_WARRIOR_IS_KILLED)
}

const TWO_KILLS_END_THE_BATTLE: &[(Call, Reply)] = &[
    (Call::Step, at!(1, 0, 1, 3, 1, 1)),
    (Call::Step, at!(2, 0, 2, 3, 2, 2)),
    (Call::Kill(2, 0), at!(2, 1, 0, 2, 3, 3)),
    (Call::Kill(0, 0), at!(2, 1, 1, 1, 4, 4)),
    (Call::Step, Err(Refusal::Over)),
    (Call::Undo, at!(2, 1, 0, 2, 3, 4)),
    (Call::Step, at!(3, 1, 1, 2, 4, 4)),
];

#[test]
fn two_kills_end_the_battle(rt: HostRuntime) -> Result<(), Fail> {
    stayers_give(&rt, rt.alloc(), TWO_KILLS_END_THE_BATTLE)
}

/// The queue of a warrior that executes JMP.B $0, $0, after each edit, a turn and each undo.
const EDITED_QUEUE: &[Check] = &[
    Check::Gives(Call::Spawn(0, 1), at!(0, 0, 0, 1, 1, 1)),
    Check::Gives(Call::Spawn(0, 2), at!(0, 0, 0, 1, 2, 2)),
    Check::Queue(&[0, 1, 2]),
    Check::Gives(Call::Spawn(0, 3), Err(Refusal::QueueFull)),
    Check::Gives(Call::Kill(0, 1), at!(0, 0, 0, 1, 3, 3)),
    Check::Queue(&[0, 2]),
    Check::Gives(Call::Undo, at!(0, 0, 0, 1, 2, 3)),
    Check::Queue(&[0, 1, 2]),
    Check::Gives(Call::MoveProcess(0, 2, 5), at!(0, 0, 0, 1, 3, 3)),
    Check::Queue(&[0, 1, 5]),
    Check::Gives(Call::Step, at!(1, 1, 0, 1, 4, 4)),
    Check::Queue(&[1, 5, 0]),
    Check::Gives(Call::Kill(0, 0), at!(1, 1, 0, 1, 5, 5)),
    Check::Queue(&[5, 0]),
    Check::Gives(Call::Undo, at!(1, 1, 0, 1, 4, 5)),
    Check::Gives(Call::Undo, at!(0, 0, 0, 1, 3, 5)),
    Check::Gives(Call::Undo, at!(0, 0, 0, 1, 2, 5)),
    Check::Queue(&[0, 1, 2]),
];

fn check_edited_queue<T: Start + Drop>(rt: &impl Abort, alloc: Global) -> Result<(), Fail> {
    let mut session = stayers::<T>(alloc, 3, &[0])?;
    check_script(rt, &mut session, EDITED_QUEUE);
    Ok(())
}

#[test]
fn queue_after_edits(rt: HostRuntime) -> Result<(), Fail> {
    let alloc = rt.alloc();
    check_edited_queue::<WholeTape>(&rt, alloc)?;
    check_edited_queue::<DeltaTape>(&rt, alloc)?;
    check_edited_queue::<RingTape>(&rt, alloc)
}

/// Returns a session of a warrior with a full queue, in a core of jumps to the next cell, after a number of turns.
fn full_queue<T: Start>(
    rt: &impl Abort,
    alloc: Global,
    processes: u32,
    turns: u64,
) -> Result<Session<T>, Fail> {
    let jump = direct!(Op::Jmp, Modifier::B, 1, 0);
    let mut session = Session::new(lone_tape(alloc, processes, &[jump])?, 100);
    assert!(rt; session.fill(0, 7, jump).is_ok());
    for address in 1..processes {
        assert!(rt; session.spawn(0, address as u64).is_ok());
    }
    if turns > 0 {
        assert!(rt; session.run(turns).is_ok());
    }
    check_call(rt, &mut session, Call::Spawn(0, 0), Err(Refusal::QueueFull));
    Ok(session)
}

/// Checks that the first warrior's queue has these addresses, except the one at index `killed`.
fn check_rest<T: Tape>(rt: &impl Abort, session: &Session<T>, queue: &[u32], killed: usize) {
    assert_eq!(rt;
        session.battle().queue_len(0),
        queue.len().saturating_sub(1)
    );
    for (place, address) in queue.iter().enumerate() {
        if place < killed {
            check_process(rt, session, place, *address);
        }
        if place > killed {
            check_process(rt, session, place - 1, *address);
        }
    }
}

/// Checks that killing a process of the first warrior removes it from the queue, and that undo restores it there.
fn check_kill<T: Tape>(rt: &impl Abort, session: &mut Session<T>, queue: &[u32], killed: usize) {
    assert!(rt; session.kill(0, killed as u64).is_ok());
    check_rest(rt, session, queue, killed);
    assert!(rt; session.undo().is_ok());
    check_queue(rt, session, queue);
}

/// Checks that each process of a full queue can be killed and restored by undo.
fn check_each_kill<T: Tape>(
    rt: &impl Abort,
    alloc: Global,
    session: &mut Session<T>,
) -> Result<(), Fail> {
    let mut queue = Vec::new(alloc);
    for place in 0..session.battle().queue_len(0) {
        queue.push(session.battle().process(0, place).ok_or("a process")?)?;
    }
    for killed in 0..queue.len() {
        check_kill(rt, session, &queue, killed);
    }
    Ok(())
}

/// Checks kills in full queues of 1, 2 and 5 processes, after 0 to 5 turns each.
fn check_kills<T: Start + Drop>(rt: &impl Abort, alloc: Global) -> Result<(), Fail> {
    for processes in [1, 2, 5] {
        for turns in 0..6 {
            let mut session = full_queue::<T>(rt, alloc, processes, turns)?;
            check_each_kill(rt, alloc, &mut session)?;
        }
    }
    Ok(())
}

#[test]
fn each_killed_process_comes_back(rt: HostRuntime) -> Result<(), Fail> {
    let alloc = rt.alloc();
    check_kills::<WholeTape>(&rt, alloc)?;
    check_kills::<DeltaTape>(&rt, alloc)?;
    check_kills::<RingTape>(&rt, alloc)
}

/// Checks that a fill sets one cell after another, from the first to the last.
fn check_filled(rt: &impl Abort, alloc: Global) -> Result<(), Fail> {
    let mut session = Session::new(lone_tape::<DeltaTape>(alloc, 8, &[IDLE])?, 100);
    assert!(rt; session.fill(2, 4, IDLE).is_ok());
    let tape = session.into_tape();
    for (place, address) in [(0, 2), (1, 3), (2, 4)] {
        let record = tape.atom(place).ok_or("a record")?;
        assert_eq!(rt;
            record.cells.as_slice().first().map(|change| change.address),
            Some(address)
        );
    }
    drop(tape);
    Ok(())
}

#[test]
fn cells_are_filled_in_their_order(rt: HostRuntime) -> Result<(), Fail> {
    check_filled(&rt, rt.alloc())
}
