//! Transcripts of the debugger over real sessions, and over readers and writers that fail or take few bytes.
//!
//! Functions borrow a session, and then the session is passed to `drop`. If it went out of scope implicitly, how it is
//! dropped would be proved again for each such body.
ghost use Rattle.std.specs.Prelude.{Some, ◌<◌};

use mars_app::debug;
use mars_cell::{Params, Warrior, read_load};
use mars_core::Battle;
use mars_session::{DeltaTape, RingTape, Session, Tape, WholeTape};
use std::alloc::Global;
use std::io;
use std::io::{ErrorKind, Read, Write};
use std::process::Abort;
use std::test::Fail;

mod chunks;
mod cut_off;
mod histories;
mod lines;
mod no_memory;

/// A reader that returns its bytes in pieces, and then fails or ends.
#[derive(Drop)]
struct Pieces<'a> {
    rest: &'a [u8],
    size: usize,
    fails: bool,
    ghost some: { 0 < size },
}

impl Read for Pieces<'_> {
    ghost remaining = { λ r. Some r.rest.now };

    fn read(&mut self, buf: &mut [u8]) -> io::Result<usize> {
        if self.rest.is_empty() && self.fails {
            return Err(io::Error::from(ErrorKind::TimedOut));
        }
        let count = self.size.min(buf.len()).min(self.rest.len());
        let (front, rest) = self.rest.split_at(count);
        buf[..count].copy_from_slice(front);
        self.rest = rest;
        Ok(count)
    }
}

/// A writer that takes a few bytes at a time, and fails when it is full.
#[derive(Drop)]
struct Narrow {
    bytes: Vec<u8>,
    size: usize,
    room: usize,
}

impl Write for Narrow {
    ghost contents = { λ w. Some w.bytes.items };

    fn write(&mut self, buf: &[u8]) -> io::Result<usize> {
        let count = self.size.min(buf.len()).min(self.room);
        if count == 0 && !buf.is_empty() {
            return Err(io::Error::from(ErrorKind::TimedOut));
        }
        self.bytes.extend_from_slice(&buf[..count])?;
        self.room -= count;
        Ok(count)
    }

    fn flush(&mut self) -> io::Result<()> {
        Ok(())
    }
}

/// A warrior that copies its cell to the next one.
const IMP: &[u8] = b"ORG 0\nMOV.I $0, $1\n";

/// A warrior that jumps to its own cell.
const STAY: &[u8] = b"ORG 0\nJMP.B $0, $0\n";

/// A warrior that dies in its first turn.
const DEAD: &[u8] = b"ORG 0\nDAT.F $0, $0\n";

/// The history limit of most tests.
const AMPLE: u64 = 200_000;

/// A tape that can start at a battle.
trait Start: Tape {
    fn start(alloc: Global, battle: Battle) -> Result<Self, Fail>;
}

impl Start for WholeTape {
    fn start(alloc: Global, battle: Battle) -> Result<Self, Fail> {
        Ok(WholeTape::new(alloc, battle)?)
    }
}

impl Start for DeltaTape {
    fn start(alloc: Global, battle: Battle) -> Result<Self, Fail> {
        Ok(DeltaTape::new(alloc, battle)?)
    }
}

/// Keeps 100 places beside the last one.
impl Start for RingTape {
    fn start(alloc: Global, battle: Battle) -> Result<Self, Fail> {
        Ok(RingTape::new(alloc, battle, 100)?)
    }
}

/// Load files, and the starting position of each.
#[derive(Clone, Copy)]
struct Entries<'e> {
    sources: &'e [&'e [u8]],
    starts: &'e [u32],
}

const ONE_IMP: Entries<'static> = Entries {
    sources: &[IMP],
    starts: &[0],
};

const THREE_STAY: Entries<'static> = Entries {
    sources: &[STAY, STAY, STAY],
    starts: &[0, 2, 4],
};

/// Lines, and all that is written for them.
#[derive(Clone, Copy)]
struct Exchange<'e> {
    input: &'e [u8],
    expected: &'e [u8],
}

fn warriors_of(alloc: Global, params: &Params, sources: &[&[u8]]) -> Result<Vec<Warrior>, Fail> {
    let mut warriors = Vec::new(alloc);
    for source in sources {
        warriors.push(read_load(alloc, source, params)?)?;
    }
    Ok(warriors)
}

/// Returns the battle of these load files in a core of 8 cells.
fn battle_of(rt: &impl Abort, alloc: Global, entries: Entries<'_>) -> Result<Battle, Fail> {
    let params = Params::new(8, 8000, 80000, 8, 8, 1, 1)?;
    let warriors = warriors_of(alloc, &params, entries.sources)?;
    assert_eq!(rt; warriors.len(), entries.starts.len());
    let battle = Battle::new(alloc, &params, warriors.as_slice(), entries.starts);
    drop(warriors);
    Ok(battle?)
}

/// Returns a session over the battle of these load files.
fn session_of<T: Start>(
    rt: &impl Abort,
    alloc: Global,
    entries: Entries<'_>,
    limit: u64,
) -> Result<Session<T>, Fail> {
    let battle = battle_of(rt, alloc, entries)?;
    Ok(Session::new(T::start(alloc, battle)?, limit))
}

/// Returns a session of one imp over the kind of tape that the program uses.
fn imp_session(rt: &impl Abort, alloc: Global) -> Result<Session<RingTape>, Fail> {
    session_of(rt, alloc, ONE_IMP, AMPLE)
}

/// Checks the replies of a battle's session over each kind of tape, for reads and writes of various sizes. A tape that evicts
/// ignores the limit.
fn gives(
    rt: &impl Abort,
    alloc: Global,
    entries: Entries<'_>,
    exchange: Exchange<'_>,
) -> Result<(), Fail> {
    gives_within(rt, alloc, entries, AMPLE, exchange)?;
    gives_over::<RingTape>(rt, alloc, entries, 0, exchange)
}

/// Checks the replies over each kind of tape that keeps all places, with this limit.
fn gives_within(
    rt: &impl Abort,
    alloc: Global,
    entries: Entries<'_>,
    limit: u64,
    exchange: Exchange<'_>,
) -> Result<(), Fail> {
    gives_over::<WholeTape>(rt, alloc, entries, limit, exchange)?;
    gives_over::<DeltaTape>(rt, alloc, entries, limit, exchange)
}

/// Checks the replies over one kind of tape.
fn gives_over<T: Start + Drop>(
    rt: &impl Abort,
    alloc: Global,
    entries: Entries<'_>,
    limit: u64,
    exchange: Exchange<'_>,
) -> Result<(), Fail> {
    for size in [1usize, 2, 3, 256, 5000] {
        let mut session: Session<T> = session_of(rt, alloc, entries, limit)?;
        answers(rt, alloc, &mut session, size, exchange);
        drop(session);
    }
    Ok(())
}

/// Checks the replies of a session for reads and writes of this many bytes.
fn answers<T: Tape>(
    rt: &impl Abort,
    alloc: Global,
    session: &mut Session<T>,
    size: usize,
    exchange: Exchange<'_>,
) {
    let mut reader = Pieces {
        rest: exchange.input,
        size: size.max(1),
        fails: false,
    };
    let mut writer = Narrow {
        bytes: Vec::new(alloc),
        size,
        room: 100_000,
    };
    assert_eq!(rt; debug(&mut reader, &mut writer, session), Ok(()));
    assert!(rt; writer.bytes.as_slice() == exchange.expected, "{size}");
}

/// Checks the replies of a session of one imp.
fn imp_gives(rt: &impl Abort, alloc: Global, input: &[u8], expected: &str) -> Result<(), Fail> {
    let expected = expected.as_bytes();
    gives(rt, alloc, ONE_IMP, Exchange { input, expected })
}

#[test]
fn a_step_and_its_undo(rt: HostRuntime) -> Result<(), Fail> {
    let input = b"step\nqueue 0\nundo\nqueue 0\nshow\n";
    let expected = "turn 1 cycle 1 next 0 alive 1 at 1/1\n\
        queue 0: 1\n\
        turn 0 cycle 0 next 0 alive 1 at 0/1\n\
        queue 0: 0\n\
        turn 0 cycle 0 next 0 alive 1 at 0/1\n\
        warrior 0 processes 1\n\
        battle running\n";
    imp_gives(&rt, rt.alloc(), input, expected)
}

#[test]
fn cells_after_a_step_and_its_undo(rt: HostRuntime) -> Result<(), Fail> {
    let input = b"step\nlist 1 1\nundo\nlist 1 1\n";
    let expected = "turn 1 cycle 1 next 0 alive 1 at 1/1\n\
        1 MOV.I $0, $1\n\
        turn 0 cycle 0 next 0 alive 1 at 0/1\n\
        1 DAT.F $0, $0\n";
    imp_gives(&rt, rt.alloc(), input, expected)
}

#[test]
fn an_edit_in_the_past(rt: HostRuntime) -> Result<(), Fail> {
    let input = b"run 4\ngoto 2\nedit 7 NOP.F $0, $0\nundo\nlist 7 1\nredo\n";
    let expected = "turn 4 cycle 4 next 0 alive 1 at 4/4\n\
        turn 2 cycle 2 next 0 alive 1 at 2/4\n\
        turn 2 cycle 2 next 0 alive 1 at 3/3\n\
        turn 2 cycle 2 next 0 alive 1 at 2/3\n\
        7 DAT.F $0, $0\n\
        turn 2 cycle 2 next 0 alive 1 at 3/3\n";
    imp_gives(&rt, rt.alloc(), input, expected)
}

#[test]
fn a_killed_warrior(rt: HostRuntime) -> Result<(), Fail> {
    let input = b"step\nkill 1 0\nshow\nqueue 1\nspawn 1 4\n";
    let expected = b"turn 1 cycle 0 next 1 alive 3 at 1/1\n\
        turn 1 cycle 0 next 2 alive 2 at 2/2\n\
        turn 1 cycle 0 next 2 alive 2 at 2/2\n\
        warrior 0 processes 1\n\
        warrior 1 dead 1\n\
        warrior 2 processes 1\n\
        battle running\n\
        queue 1:\n\
        refused 6 WarriorDead\n";
    gives(&rt, rt.alloc(), THREE_STAY, Exchange { input, expected })
}

#[test]
fn every_kind_of_line(rt: HostRuntime) -> Result<(), Fail> {
    let input =
        b"list 7 2\nedit 9 NOP.F $0, $0\nedit 7 NOP.F $0\nedit 7 NOP.F $9, $0\nlist 7 1\nrun 1000001\nrun 1000000000000000000\nkill 0 5\nSTEP\nquit\nstep\n";
    let expected = "7 DAT.F $0, $0\n0 MOV.I $0, $1\n\
        refused 2 Address\n\
        unknown\n\
        turn 0 cycle 0 next 0 alive 1 at 1/1\n\
        7 NOP.F $1, $0\n\
        refused 1 Count\n\
        unknown\n\
        refused 5 NoSuchProcess\n\
        unknown\n";
    imp_gives(&rt, rt.alloc(), input, expected)
}

#[test]
fn fills_moves_and_spawns(rt: HostRuntime) -> Result<(), Fail> {
    let input =
        b"fill 6 7 dat.f #1, <2\nlist 5 4\nspawn 0 3\nmove 0 0 6\nqueue 0\nfill 7 6 DAT.F $0, $0\nmove 0 9 1\nmove 1 0 1\nspawn 0 8\n";
    let expected = "turn 0 cycle 0 next 0 alive 1 at 2/2\n\
        5 DAT.F $0, $0\n6 DAT.F #1, <2\n7 DAT.F #1, <2\n0 MOV.I $0, $1\n\
        turn 0 cycle 0 next 0 alive 1 at 3/3\n\
        turn 0 cycle 0 next 0 alive 1 at 4/4\n\
        queue 0: 6 3\n\
        refused 2 Address\n\
        refused 5 NoSuchProcess\n\
        refused 4 NoSuchWarrior\n\
        refused 2 Address\n";
    imp_gives(&rt, rt.alloc(), input, expected)
}

#[test]
fn a_lone_warrior_that_dies(rt: HostRuntime) -> Result<(), Fail> {
    let input = b"step\nstep\nshow\nundo\n";
    let expected = b"turn 1 cycle 0 next 0 alive 0 at 1/1\n\
        refused 8 Over\n\
        turn 1 cycle 0 next 0 alive 0 at 1/1\n\
        warrior 0 dead 1\n\
        battle over\n\
        turn 0 cycle 0 next 0 alive 1 at 0/1\n";
    let entries = Entries {
        sources: &[DEAD],
        starts: &[0],
    };
    gives(&rt, rt.alloc(), entries, Exchange { input, expected })
}

static LONG: [u8; 257] = [b'x'; 257];
