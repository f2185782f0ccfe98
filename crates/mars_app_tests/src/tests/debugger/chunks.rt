//! Inputs longer than one read, and replies longer than the text that may wait; both limits are 4,096 bytes.
use super::{Exchange, answers, imp_session};
use crate::tests::{repeat, repeated};
use mars_app::debug;
use mars_session::{RingTape, Session};
use std::alloc::Global;
use std::process::Abort;
use std::test::Fail;

/// Checks the replies for reads and writes of few bytes, and of 4,096 bytes, one less and one more.
fn check_sizes(
    rt: &impl Abort,
    alloc: Global,
    session: &mut Session<RingTape>,
    exchange: Exchange<'_>,
) {
    for size in [1usize, 7, 4095, 4096, 4097] {
        answers(rt, alloc, session, size, exchange);
    }
}

/// Checks the replies of a session of one imp for all these sizes.
fn check_imp(rt: &impl Abort, alloc: Global, input: &[u8], expected: &[u8]) -> Result<(), Fail> {
    let mut session = imp_session(rt, alloc)?;
    check_sizes(rt, alloc, &mut session, Exchange { input, expected });
    drop(session);
    Ok(())
}

/// A line has 9 bytes, so that reads of 4,096 bytes end within lines.
#[test]
fn inputs_of_more_than_one_read(rt: HostRuntime) -> Result<(), Fail> {
    let alloc = rt.alloc();
    let lines = repeated(alloc, b"list 0 1\n", 1000)?;
    let replies = repeated(alloc, b"0 MOV.I $0, $1\n", 1000)?;
    check_imp(&rt, alloc, &lines, &replies)
}

/// The core of one imp.
const CORE: &[u8] = b"0 MOV.I $0, $1\n1 DAT.F $0, $0\n2 DAT.F $0, $0\n3 DAT.F $0, $0\n\
    4 DAT.F $0, $0\n5 DAT.F $0, $0\n6 DAT.F $0, $0\n7 DAT.F $0, $0\n";

#[test]
fn a_list_of_2000_cells(rt: HostRuntime) -> Result<(), Fail> {
    let alloc = rt.alloc();
    let cells = repeated(alloc, CORE, 250)?;
    check_imp(&rt, alloc, b"list 0 2000\n", &cells)
}

/// Checks that the queue is this line after these spawns.
fn check_queue(rt: &impl Abort, alloc: Global, spawns: &[u8], queue: &[u8]) -> Result<(), Fail> {
    let mut session = imp_session(rt, alloc)?;
    let (mut lines, mut output) = (spawns, Vec::new(alloc));
    assert_eq!(rt; debug(&mut lines, &mut output, &mut session), Ok(()));
    let exchange = Exchange {
        input: b"queue 0\n",
        expected: queue,
    };
    check_sizes(rt, alloc, &mut session, exchange);
    drop(session);
    Ok(())
}

#[test]
fn a_queue_of_3000_processes(rt: HostRuntime) -> Result<(), Fail> {
    let alloc = rt.alloc();
    let spawns = repeated(alloc, b"spawn 0 1\n", 2999)?;
    let mut queue = Vec::from_slice(alloc, b"queue 0: 0")?;
    repeat(&mut queue, b" 1", 2999)?;
    repeat(&mut queue, b"\n", 1)?;
    check_queue(&rt, alloc, &spawns, &queue)
}
