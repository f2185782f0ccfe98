//! The records between places.

use super::{
    BLANK, Check, Start, battle_in, check_call, check_cell, check_queue, check_script, lone_tape,
    params_of, warrior_of,
};
use mars_cell::{Cell, Mode, Modifier, Op};
use mars_session::{Call, DeltaTape, Reply, RingTape, Session, Standing, Tape, WholeTape};
use std::alloc::Global;
use std::process::Abort;
use std::test::Fail;

mod places;

const SPLIT: Cell = direct!(Op::Spl, Modifier::B, 0, 0);

macro_rules! cell {
    ($op:expr, $modifier:expr, $a_mode:expr, $a:expr, $b_mode:expr, $b:expr) => {
        Cell {
            op: $op,
            modifier: $modifier,
            a_mode: $a_mode,
            a: $a,
            b_mode: $b_mode,
            b: $b,
        }
    };
}

/// A turn of a single warrior, and its result.
struct Turn {
    core_size: u32,
    processes: u32,
    /// Cells from address 0 on, before the turn and after it.
    before: &'static [Cell],
    after: &'static [Cell],
    queue: &'static [u32],
    reply: Reply,
    /// Number of changes of cells in the record of the turn.
    changes: usize,
}

const TURNS: &[Turn] = &[
    // The mode decrements one number of the executing cell, and the opcode adds to the other.
    Turn {
        core_size: 8,
        processes: 8,
        before: &[cell!(
            Op::Add,
            Modifier::Ab,
            Mode::Immediate,
            1,
            Mode::APredecrement,
            0
        )],
        after: &[cell!(
            Op::Add,
            Modifier::Ab,
            Mode::Immediate,
            0,
            Mode::APredecrement,
            1
        )],
        queue: &[1],
        reply: imp_at!(1, 1, 1),
        changes: 2,
    },
    // The mode and then the opcode decrement the same number.
    Turn {
        core_size: 8,
        processes: 8,
        before: &[
            cell!(
                Op::Djn,
                Modifier::B,
                Mode::Direct,
                0,
                Mode::BPredecrement,
                1
            ),
            direct!(Op::Dat, Modifier::F, 0, 1),
        ],
        after: &[
            cell!(
                Op::Djn,
                Modifier::B,
                Mode::Direct,
                0,
                Mode::BPredecrement,
                1
            ),
            direct!(Op::Dat, Modifier::F, 0, 7),
        ],
        queue: &[0],
        reply: imp_at!(1, 1, 1),
        changes: 2,
    },
    // One cell is written three times: the modes decrement and increment it, and then the opcode writes its other number.
    Turn {
        core_size: 8,
        processes: 8,
        before: &[
            cell!(
                Op::Mov,
                Modifier::Ab,
                Mode::APredecrement,
                1,
                Mode::APostincrement,
                1
            ),
            direct!(Op::Dat, Modifier::F, 1, 5),
        ],
        after: &[
            cell!(
                Op::Mov,
                Modifier::Ab,
                Mode::APredecrement,
                1,
                Mode::APostincrement,
                1
            ),
            direct!(Op::Dat, Modifier::F, 1, 0),
        ],
        queue: &[1],
        reply: imp_at!(1, 1, 1),
        changes: 3,
    },
    // A cell is copied to itself, and the modes decrement and increment the same number. The core stays the same, but the
    // record has each write.
    Turn {
        core_size: 8,
        processes: 8,
        before: &[
            cell!(
                Op::Mov,
                Modifier::I,
                Mode::BPredecrement,
                1,
                Mode::BPostincrement,
                1
            ),
            direct!(Op::Dat, Modifier::F, 0, 3),
        ],
        after: &[
            cell!(
                Op::Mov,
                Modifier::I,
                Mode::BPredecrement,
                1,
                Mode::BPostincrement,
                1
            ),
            direct!(Op::Dat, Modifier::F, 0, 3),
        ],
        queue: &[1],
        reply: imp_at!(1, 1, 1),
        changes: 3,
    },
    // A division by one zero writes the other number, and the warrior dies.
    Turn {
        core_size: 8,
        processes: 8,
        before: &[
            direct!(Op::Div, Modifier::F, 1, 2),
            direct!(Op::Dat, Modifier::F, 0, 2),
            direct!(Op::Dat, Modifier::F, 6, 6),
        ],
        after: &[
            direct!(Op::Div, Modifier::F, 1, 2),
            direct!(Op::Dat, Modifier::F, 0, 2),
            direct!(Op::Dat, Modifier::F, 6, 3),
        ],
        queue: &[],
        reply: at!(1, 0, 0, 0, 1, 1),
        changes: 1,
    },
    // 0 is decremented to the core size minus 1.
    Turn {
        core_size: 8,
        processes: 8,
        before: &[direct!(Op::Djn, Modifier::B, 0, 1), BLANK],
        after: &[
            direct!(Op::Djn, Modifier::B, 0, 1),
            direct!(Op::Dat, Modifier::F, 0, 7),
        ],
        queue: &[0],
        reply: imp_at!(1, 1, 1),
        changes: 1,
    },
    // A split for which the queue has just enough room.
    Turn {
        core_size: 8,
        processes: 2,
        before: &[SPLIT],
        after: &[SPLIT],
        queue: &[1, 0],
        reply: imp_at!(1, 1, 1),
        changes: 0,
    },
    // In a core of one cell all numbers are 0, and each is written.
    Turn {
        core_size: 1,
        processes: 8,
        before: &[cell!(
            Op::Add,
            Modifier::F,
            Mode::APostincrement,
            0,
            Mode::APredecrement,
            0
        )],
        after: &[cell!(
            Op::Add,
            Modifier::F,
            Mode::APostincrement,
            0,
            Mode::APredecrement,
            0
        )],
        queue: &[0],
        reply: imp_at!(1, 1, 1),
        changes: 3,
    },
];

/// Returns a tape at the battle of the single warrior, before its turn.
fn tape_before<T: Start>(alloc: Global, turn: &Turn) -> Result<T, Fail> {
    let longest = u32::try_from(turn.before.len()).ok().ok_or("length")?;
    let params = params_of(turn.core_size, turn.processes, longest)?;
    let warriors = vec![in alloc; warrior_of(alloc, turn.before)?]?;
    T::start(alloc, battle_in(alloc, &params, &warriors, &[0])?)
}

/// Checks the cells from address 0 on, and the processes of the warrior.
fn check_state<T: Tape>(
    rt: &impl Abort,
    session: &Session<T>,
    cells: &[Cell],
    queue: &[u32],
) -> Result<(), Fail> {
    for (place, cell) in cells.iter().enumerate() {
        let address = u32::try_from(place).ok().ok_or("address")?;
        check_cell(rt, session, address, *cell);
    }
    check_queue(rt, session, queue);
    Ok(())
}

/// Checks that the turn leads from one state to the other, and that undo and redo lead back and forward.
fn check_steps<T: Tape>(
    rt: &impl Abort,
    session: &mut Session<T>,
    turn: &Turn,
) -> Result<(), Fail> {
    check_call(rt, session, Call::Step, turn.reply);
    check_state(rt, session, turn.after, turn.queue)?;
    check_call(rt, session, Call::Undo, imp_at!(0, 0, 1));
    check_state(rt, session, turn.before, &[0])?;
    check_call(rt, session, Call::Redo, turn.reply);
    check_state(rt, session, turn.after, turn.queue)
}

/// Checks a turn, its undo and its redo over one kind of tape.
fn check_turn<T: Start + Drop>(rt: &impl Abort, alloc: Global, turn: &Turn) -> Result<(), Fail> {
    let mut session = Session::new(tape_before::<T>(alloc, turn)?, 100);
    let checked = check_steps(rt, &mut session, turn);
    drop(session);
    checked
}

/// Returns a tape of records after one turn.
fn one_turn(mut tape: DeltaTape) -> Result<DeltaTape, Fail> {
    tape.cut();
    tape.reserve(1)?;
    if tape.now().is_over() {
        return Err("over".into());
    }
    tape.turn();
    Ok(tape)
}

/// Checks the number of changes in the turn's record.
fn check_record(rt: &impl Abort, alloc: Global, turn: &Turn) -> Result<(), Fail> {
    let tape = one_turn(tape_before(alloc, turn)?)?;
    assert_eq!(rt; tape.atom(0).ok_or("a record")?.cells.len(), turn.changes);
    Ok(())
}

/// Over each kind of tape a turn, its undo and its redo have the same replies and states.
#[test]
fn turns_back_and_forth(rt: HostRuntime) -> Result<(), Fail> {
    let alloc = rt.alloc();
    for turn in TURNS {
        check_turn::<WholeTape>(&rt, alloc, turn)?;
        check_turn::<DeltaTape>(&rt, alloc, turn)?;
        check_turn::<RingTape>(&rt, alloc, turn)?;
        check_record(&rt, alloc, turn)?;
    }
    Ok(())
}

/// A split with a full queue queues only its first address.
const SPLIT_OF_A_FULL_QUEUE: &[Check] = &[
    Check::Gives(Call::Step, imp_at!(1, 1, 1)),
    Check::Queue(&[1]),
    Check::Gives(Call::Undo, imp_at!(0, 0, 1)),
    Check::Queue(&[0]),
    Check::Gives(Call::Redo, imp_at!(1, 1, 1)),
    Check::Queue(&[1]),
];

fn check_split<T: Start + Drop>(rt: &impl Abort, alloc: Global) -> Result<(), Fail> {
    let mut session = Session::new(lone_tape::<T>(alloc, 1, &[SPLIT])?, 100);
    check_script(rt, &mut session, SPLIT_OF_A_FULL_QUEUE);
    Ok(())
}

/// Checks that the record of a split with a full queue has only the first address.
fn check_split_record(rt: &impl Abort, alloc: Global) -> Result<(), Fail> {
    let tape = one_turn(lone_tape(alloc, 1, &[SPLIT])?)?;
    let record = tape.atom(0).ok_or("a record")?;
    assert_eq!(rt; record.queued.len(), 1);
    assert_eq!(rt; record.queued[0], 1);
    Ok(())
}

#[test]
fn split_of_a_full_queue(rt: HostRuntime) -> Result<(), Fail> {
    let alloc = rt.alloc();
    check_split::<WholeTape>(&rt, alloc)?;
    check_split::<DeltaTape>(&rt, alloc)?;
    check_split::<RingTape>(&rt, alloc)?;
    check_split_record(&rt, alloc)
}
