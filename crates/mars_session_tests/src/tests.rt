//! Tests of sessions over each kind of tape. Each list of calls is executed call by call, and again as one list.
ghost use Rattle.std.specs.Prelude.{◌≡◌, false};

/// The reply with these numbers. This is a macro because tables of constants can't call functions.
macro_rules! at {
    ($turns:expr, $cycle:expr, $next:expr, $alive:expr, $position:expr, $last:expr) => {
        Ok(Standing {
            turns: $turns,
            cycle: $cycle,
            next: $next,
            alive: $alive,
            position: $position,
            last: $last,
        })
    };
}

/// The reply of a battle of one imp, in which each turn completes a cycle.
macro_rules! imp_at {
    ($turns:expr, $position:expr, $last:expr) => {
        at!($turns, $turns, 0, 1, $position, $last)
    };
}

macro_rules! direct {
    ($op:expr, $modifier:expr, $a:expr, $b:expr) => {
        Cell {
            op: $op,
            modifier: $modifier,
            a_mode: Mode::Direct,
            a: $a,
            b_mode: Mode::Direct,
            b: $b,
        }
    };
}

mod edits;
mod forgetting;
mod histories;
mod memory;
mod no_memory;
mod poor_tape;
mod records;
mod refusals;

use mars_cell::{Cell, Mode, Modifier, Op, Params, Warrior};
use mars_core::Battle;
use mars_session::{Call, DeltaTape, Refusal, Reply, RingTape, Session, Standing, Tape, WholeTape};
use poor_tape::PoorTape;
use std::alloc::Global;
use std::process::Abort;
use std::test::Fail;

/// The cell of an empty core.
const BLANK: Cell = direct!(Op::Dat, Modifier::F, 0, 0);

const IDLE: Cell = direct!(Op::Nop, Modifier::F, 0, 0);

/// The imp, which copies itself to the next cell.
const COPIER: Cell = direct!(Op::Mov, Modifier::I, 0, 1);

fn warrior_of(alloc: Global, from: &[Cell]) -> Result<Warrior, Fail> {
    let cells = Vec::from_slice(alloc, from)?;
    let name = String::from_str(alloc, "")?;
    let author = String::from_str(alloc, "")?;
    let warrior = Warrior::new(name, author, cells, 0).ok().ok_or("warrior")?;
    Ok(warrior)
}

/// A tape that can start at a battle.
trait Start: Tape {
    fn start(alloc: Global, battle: Battle) -> Result<Self, Fail>;
}

impl Start for WholeTape {
    fn start(alloc: Global, battle: Battle) -> Result<Self, Fail> {
        let tape = WholeTape::new(alloc, battle).ok().ok_or("tape")?;
        Ok(tape)
    }
}

impl Start for DeltaTape {
    fn start(alloc: Global, battle: Battle) -> Result<Self, Fail> {
        let tape = DeltaTape::new(alloc, battle).ok().ok_or("tape")?;
        Ok(tape)
    }
}

/// Keeps 100 places beside the last one.
impl Start for RingTape {
    fn start(alloc: Global, battle: Battle) -> Result<Self, Fail> {
        let tape = RingTape::new(alloc, battle, 100).ok().ok_or("tape")?;
        Ok(tape)
    }
}

/// Returns parameters with this core size, process limit and maximum length.
fn params_of(core_size: u32, processes: u32, longest: u32) -> Result<Params, Fail> {
    let params = Params::new(
        core_size, processes, 80000, core_size, core_size, longest, longest,
    );
    Ok(params.ok().ok_or("parameters")?)
}

fn battle_in(
    alloc: Global,
    params: &Params,
    warriors: &[Warrior],
    starts: &[u32],
) -> Result<Battle, Fail> {
    if starts.len() != warriors.len() {
        return Err("starts".into());
    }
    let battle = Battle::new(alloc, params, warriors, starts)
        .ok()
        .ok_or("battle")?;
    Ok(battle)
}

fn battle_of(
    alloc: Global,
    processes: u32,
    warriors: &[Warrior],
    starts: &[u32],
) -> Result<Battle, Fail> {
    battle_in(alloc, &params_of(8, processes, 2)?, warriors, starts)
}

fn one_cell(alloc: Global, cell: Cell) -> Result<Warrior, Fail> {
    warrior_of(alloc, &[cell])
}

/// Returns a battle of one warrior with these cells.
fn lone_battle(alloc: Global, processes: u32, cells: &[Cell]) -> Result<Battle, Fail> {
    let warriors = vec![in alloc; warrior_of(alloc, cells)?]?;
    battle_of(alloc, processes, &warriors, &[0])
}

fn lone_tape<T: Start>(alloc: Global, processes: u32, cells: &[Cell]) -> Result<T, Fail> {
    T::start(alloc, lone_battle(alloc, processes, cells)?)
}

/// Returns a battle of one imp.
fn imp_battle(alloc: Global) -> Result<Battle, Fail> {
    lone_battle(alloc, 8, &[COPIER])
}

fn imp_tape<T: Start>(alloc: Global) -> Result<T, Fail> {
    T::start(alloc, imp_battle(alloc)?)
}

fn imp<T: Start>(alloc: Global, limit: u64) -> Result<Session<T>, Fail> {
    Ok(Session::new(imp_tape(alloc)?, limit))
}

/// Returns a session of warriors that execute JMP.B $0, $0 at these addresses.
fn stayers<T: Start>(alloc: Global, processes: u32, starts: &[u32]) -> Result<Session<T>, Fail> {
    let mut warriors = Vec::new(alloc);
    for _start in starts {
        warriors.push(one_cell(alloc, direct!(Op::Jmp, Modifier::B, 0, 0))?)?;
    }
    let battle = battle_of(alloc, processes, &warriors, starts)?;
    Ok(Session::new(T::start(alloc, battle)?, 100))
}

fn check_reply(rt: &impl Abort, made: Reply, reply: Reply) {
    assert_eq!(rt; made, reply);
}

/// Checks that a call has this reply.
fn check_call<T: Tape>(rt: &impl Abort, session: &mut Session<T>, call: Call, reply: Reply) {
    assert_eq!(rt; session.call(call), reply, "{call:?}");
}

/// Checks that each call, executed by itself, has its reply.
fn check_each<T: Tape>(rt: &impl Abort, session: &mut Session<T>, calls: &[(Call, Reply)]) {
    for (call, reply) in calls {
        check_call(rt, session, *call, *reply);
    }
}

fn check_standing<T: Tape>(rt: &impl Abort, session: &Session<T>, reply: Reply) {
    check_reply(rt, Ok(session.standing()), reply);
}

/// A step of a script: a call with its reply, or a check of a cell or of the first warrior's queue.
enum Check {
    Gives(Call, Reply),
    Cell(u32, Cell),
    Queue(&'static [u32]),
}

/// Executes the steps of a script in order.
fn check_script<T: Tape>(rt: &impl Abort, session: &mut Session<T>, script: &[Check]) {
    for check in script {
        match check {
            Check::Gives(call, reply) => check_call(rt, session, *call, *reply),
            Check::Cell(address, cell) => check_cell(rt, session, *address, *cell),
            Check::Queue(queue) => check_queue(rt, session, queue),
        }
    }
}

/// Checks that a list has the refusal `Count`, and after it the replies to the calls.
fn check_replies(rt: &impl Abort, out: &[Reply], calls: &[(Call, Reply)]) {
    assert_eq!(rt; out.len(), calls.len() + 1);
    check_reply(rt, out[0], Err(Refusal::Count));
    for (made, (_call, reply)) in out[1..].iter().zip(calls) {
        check_reply(rt, *made, *reply);
    }
}

/// Checks that the calls, executed as one list, have their replies, which are appended after the reply that was there.
fn check_list<T: Tape>(
    rt: &impl Abort,
    alloc: Global,
    session: &mut Session<T>,
    calls: &[(Call, Reply)],
) -> Result<(), Fail> {
    let mut list = Vec::new(alloc);
    for (call, _reply) in calls {
        list.push(*call)?;
    }
    let mut out = Vec::new(alloc);
    out.push(Err(Refusal::Count))?;
    session.apply_all(&list, &mut out)?;
    check_replies(rt, &out, calls);
    Ok(())
}

/// Checks that the calls have these replies, one by one over the first session and as one list over the second.
fn gives<T: Tape + Drop>(
    rt: &impl Abort,
    alloc: Global,
    mut one: Session<T>,
    mut all: Session<T>,
    calls: &[(Call, Reply)],
) -> Result<(), Fail> {
    check_each(rt, &mut one, calls);
    check_list(rt, alloc, &mut all, calls)
}

/// Checks the replies of the imp over each kind of tape that keeps all places.
fn limited_imp_gives(
    rt: &impl Abort,
    alloc: Global,
    limit: u64,
    calls: &[(Call, Reply)],
) -> Result<(), Fail> {
    gives::<WholeTape>(rt, alloc, imp(alloc, limit)?, imp(alloc, limit)?, calls)?;
    gives::<DeltaTape>(rt, alloc, imp(alloc, limit)?, imp(alloc, limit)?, calls)
}

/// Checks the replies of the imp over each kind of tape. A tape that evicts ignores the limit.
fn imp_gives(rt: &impl Abort, alloc: Global, calls: &[(Call, Reply)]) -> Result<(), Fail> {
    limited_imp_gives(rt, alloc, 100, calls)?;
    gives::<RingTape>(rt, alloc, imp(alloc, 0)?, imp(alloc, 0)?, calls)
}

/// Checks the replies of three warriors that execute JMP.B $0, $0, over each kind of tape.
fn stayers_give(rt: &impl Abort, alloc: Global, calls: &[(Call, Reply)]) -> Result<(), Fail> {
    let starts = [0, 2, 4];
    gives::<WholeTape>(
        rt,
        alloc,
        stayers(alloc, 8, &starts)?,
        stayers(alloc, 8, &starts)?,
        calls,
    )?;
    gives::<DeltaTape>(
        rt,
        alloc,
        stayers(alloc, 8, &starts)?,
        stayers(alloc, 8, &starts)?,
        calls,
    )?;
    gives::<RingTape>(
        rt,
        alloc,
        stayers(alloc, 8, &starts)?,
        stayers(alloc, 8, &starts)?,
        calls,
    )
}

fn check_process<T: Tape>(rt: &impl Abort, session: &Session<T>, place: usize, address: u32) {
    assert_eq!(rt; session.battle().process(0, place), Some(address));
}

/// Checks that the first warrior's queue has these addresses, the front first.
fn check_queue<T: Tape>(rt: &impl Abort, session: &Session<T>, queue: &[u32]) {
    assert_eq!(rt; session.battle().queue_len(0), queue.len());
    for (place, address) in queue.iter().enumerate() {
        check_process(rt, session, place, *address);
    }
}

fn check_cell<T: Tape>(rt: &impl Abort, session: &Session<T>, address: u32, cell: Cell) {
    assert_eq!(rt; session.battle().cell(address), Some(cell));
}

fn check_same_counters(rt: &impl Abort, one: &Battle, other: &Battle) {
    assert_eq!(rt; one.turns(), other.turns());
    assert_eq!(rt; one.cycle(), other.cycle());
    assert_eq!(rt; one.next(), other.next());
    assert!(rt; one.deaths() == other.deaths());
    assert_eq!(rt; one.is_over(), other.is_over());
}

/// Checks that two battles of one warrior have the same cells, queue and counters, and are both over or both not.
fn check_same(rt: &impl Abort, one: &Battle, other: &Battle) {
    for address in 0..8 {
        assert_eq!(rt; one.cell(address), other.cell(address));
    }
    assert_eq!(rt; one.queue_len(0), other.queue_len(0));
    for place in 0..one.queue_len(0) {
        assert_eq!(rt; one.process(0, place), other.process(0, place));
    }
    check_same_counters(rt, one, other);
}

/// Returns a session of the imp over a tape that can allocate `growths` times; later allocations fail.
fn poor_imp<T: Start>(alloc: Global, growths: u64) -> Result<Session<PoorTape<T>>, Fail>
    requires { T.FORGETS ≡ false }
{
    Ok(Session::new(PoorTape::new(imp_tape(alloc)?, growths), 2000))
}
