//! Neither the debugger nor its commands over a ring of records allocate. The test creates its objects, allocates
//! again, and passes whether or not that allocation and all later ones fail; dev/checks/memory lets all allocations
//! from the n-th on fail, for each n. If the objects themselves cannot be allocated, the test checks nothing.
use super::{AMPLE, IMP, Narrow, Pieces};
use mars_app::{DebugFault, debug_within};
use mars_cell::{Params, read_load};
use mars_core::Battle;
use mars_session::{RingTape, Session};
use std::alloc::Global;
use std::process::Abort;
use std::test::Fail;

/// Lines of every kind.
const INPUT: &[u8] =
    b"step\nqueue 0\nrun 3\nuntil 5\nundo\nredo\ngoto 2\nedit 7 NOP.F $0, $0\nfill 3 4 NOP.F $1, $0\nspawn 0 5\nmove 0 0 3\nkill 0 1\nlist 2 4\nshow\nredo\nbad\nrun 200\n";

/// Allocates once. In some runs this is the first allocation that fails.
fn ask(alloc: Global) {
    let _asked: Result<Vec<u64>, _> = Vec::with_capacity(alloc, 1);
}

/// Returns a session of one imp over the kind of tape that the program uses.
fn imp_session(alloc: Global, params: &Params) -> Option<Session<RingTape>> {
    let mut warriors = Vec::new(alloc);
    warriors.push(read_load(alloc, IMP, params).ok()?).ok()?;
    let battle = Battle::new(alloc, params, warriors.as_slice(), &[0]).ok();
    drop(warriors);
    let tape = RingTape::new(alloc, battle?, 100).ok()?;
    Some(Session::new(tape, AMPLE))
}

/// Returns a writer that takes `room` bytes and has capacity for 2,000.
fn writer(alloc: Global, room: usize) -> Option<Narrow> {
    Some(Narrow {
        bytes: Vec::with_capacity(alloc, 2000).ok()?,
        size: 7,
        room,
    })
}

/// How the debugger is run, and its result.
#[derive(Clone, Copy)]
struct Case {
    /// Whether the reader fails at the end of the input.
    fails: bool,
    /// Number of bytes that the writer takes.
    room: usize,
    reads: u64,
    done: Result<(), DebugFault>,
}

impl Case {
    /// Runs the debugger over a session and a writer, and returns its result.
    fn debugged(
        self,
        session: &mut Session<RingTape>,
        writer: &mut Narrow,
    ) -> Result<(), DebugFault> {
        let mut reader = Pieces {
            rest: INPUT,
            size: 3,
            fails: self.fails,
        };
        debug_within(&mut reader, writer, session, self.reads)
    }
}

/// Checks that two sessions have the same results and output, the second one without memory left.
fn check_sessions(
    rt: &impl Abort,
    alloc: Global,
    ample: &mut Session<RingTape>,
    poor: &mut Session<RingTape>,
    case: Case,
) {
    let (Some(mut text), Some(mut poor_text)) = (writer(alloc, case.room), writer(alloc, case.room))
    else {
        return;
    };
    assert_eq!(rt; case.debugged(ample, &mut text), case.done);
    ask(alloc);
    assert_eq!(rt; case.debugged(poor, &mut poor_text), case.done);
    assert!(rt; poor_text.bytes.as_slice() == text.bytes.as_slice());
    assert_eq!(rt; poor.standing(), ample.standing());
}

/// Checks that the results and output of this session are those of a new one without memory left.
fn check_session(
    rt: &impl Abort,
    alloc: Global,
    params: &Params,
    ample: &mut Session<RingTape>,
    case: Case,
) {
    if let Some(mut poor) = imp_session(alloc, params) {
        check_sessions(rt, alloc, ample, &mut poor, case);
        drop(poor);
    }
}

#[test]
fn commands_over_a_ring(rt: HostRuntime) -> Result<(), Fail> {
    let alloc = rt.alloc();
    let params = Params::new(8, 8000, 80000, 8, 8, 1, 1)?;
    for (fails, room, reads, done) in [
        (false, 2000, 1000, Ok(())),
        (true, 2000, 1000, Err(DebugFault::Read)),
        (false, 2000, 20, Err(DebugFault::Read)),
        (false, 100, 1000, Err(DebugFault::Write)),
    ] {
        let case = Case {
            fails,
            room,
            reads,
            done,
        };
        if let Some(mut ample) = imp_session(alloc, &params) {
            check_session(&rt, alloc, &params, &mut ample, case);
            drop(ample);
        }
    }
    Ok(())
}
