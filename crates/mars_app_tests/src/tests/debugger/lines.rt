//! Lines of any length and kind, and how they are split into reads.
use super::{Entries, Exchange, IMP, LONG, Narrow, Pieces, STAY, gives, imp_gives, imp_session};
use mars_app::{DebugFault, debug, debug_within};
use std::test::Fail;

static BLANKS: [u8; 257] = [b' '; 257];

#[test]
fn an_empty_input(rt: HostRuntime) -> Result<(), Fail> {
    imp_gives(&rt, rt.alloc(), b"", "")
}

#[test]
fn long_and_empty_lines(rt: HostRuntime) -> Result<(), Fail> {
    let alloc = rt.alloc();
    let mut input = Vec::from_slice(alloc, b"undo\n")?;
    input.extend_from_slice(&LONG)?;
    input.extend_from_slice(b"\n\nstep")?;
    let expected = "refused 10 NothingToUndo\nunknown\nturn 1 cycle 1 next 0 alive 1 at 1/1\n";
    imp_gives(&rt, alloc, input.as_slice(), expected)
}

#[test]
fn blanks(rt: HostRuntime) -> Result<(), Fail> {
    let alloc = rt.alloc();
    // A line of 257 bytes is unknown, also if it is a command followed by spaces, or only spaces.
    let mut input = Vec::from_slice(alloc, b"step")?;
    input.extend_from_slice(&BLANKS[..253])?;
    input.extend_from_slice(b"\n")?;
    input.extend_from_slice(&BLANKS)?;
    input.extend_from_slice(b"\n")?;
    input.extend_from_slice(&BLANKS[..256])?;
    input.extend_from_slice(b"\n step\n\t list\t0 \x00 1\r\n queue 007\nqueue 000\nstep\x0b\n")?;
    let expected = "unknown\nunknown\n\
        turn 1 cycle 1 next 0 alive 1 at 1/1\n\
        0 MOV.I $0, $1\n\
        refused 4 NoSuchWarrior\n\
        queue 0: 1\n\
        turn 2 cycle 2 next 0 alive 1 at 2/2\n";
    imp_gives(&rt, alloc, input.as_slice(), expected)
}

#[test]
fn a_warrior_named_with_zeros(rt: HostRuntime) -> Result<(), Fail> {
    let entries = Entries {
        sources: &[STAY, STAY, STAY, STAY, STAY, STAY, STAY, IMP],
        starts: &[0, 1, 2, 3, 4, 5, 6, 7],
    };
    let (input, expected) = (b"queue 007", b"queue 7: 7\n");
    gives(&rt, rt.alloc(), entries, Exchange { input, expected })
}

#[test]
fn lines_that_ask_for_nothing_known(rt: HostRuntime) -> Result<(), Fail> {
    let input =
        b"step 1\nrun\nrun 1 2\nrun +1\nrun -1\nrun 1x\nuntil\nmove 0 0\nmove 0 0 0 0\nkill 0\nspawn 0\nlist 0\nlist 0 1 2\nqueue\nshow it\nquit now\nundo 1\nredo 1\ngoto\nedit 7\nedit NOP.F $0, $0\nfill 7 NOP.F $0, $0\nwalk\nstepp\nste\n";
    let mut expected = Vec::new(rt.alloc());
    for _ in 0..25 {
        expected.extend_from_slice(b"unknown\n")?;
    }
    let mut output = Vec::new(rt.alloc());
    let mut session = imp_session(&rt, rt.alloc())?;
    let mut rest = input.as_slice();
    assert_eq!(rt; debug(&mut rest, &mut output, &mut session), Ok(()));
    assert!(rt; output.as_slice() == expected.as_slice());
    assert_eq!(rt; session.standing().position, 0);
    drop(session);
    Ok(())
}

#[test]
fn what_is_checked_after_reading(rt: HostRuntime) -> Result<(), Fail> {
    let input =
        b"list 0 0\nlist 0 1000001\nlist 8 0\nlist 8 1\nlist 999999999999999999 1\nedit 8 NOP.F $0\nqueue 999999999999999999\nkill 999999999999999999 0\nspawn 0 999999999999999999\ngoto 999999999999999999\n";
    let expected = "refused 1 Count\n\
        refused 1 Count\n\
        refused 1 Count\n\
        refused 2 Address\n\
        refused 2 Address\n\
        unknown\n\
        refused 4 NoSuchWarrior\n\
        refused 4 NoSuchWarrior\n\
        refused 2 Address\n\
        refused 12 NotInHistory 0 0\n";
    imp_gives(&rt, rt.alloc(), input, expected)
}

#[test]
fn a_read_that_fails(rt: HostRuntime) -> Result<(), Fail> {
    let alloc = rt.alloc();
    for size in [1usize, 2, 3, 9] {
        let mut reader = Pieces {
            rest: b"step\nste",
            size: size.max(1),
            fails: true,
        };
        let mut output = Vec::new(alloc);
        let mut session = imp_session(&rt, alloc)?;
        assert_eq!(rt;
            debug(&mut reader, &mut output, &mut session),
            Err(DebugFault::Read)
        );
        assert!(rt; output.as_slice() == b"turn 1 cycle 1 next 0 alive 1 at 1/1\n".as_slice());
        assert_eq!(rt; session.standing().position, 1);
        drop(session);
    }
    Ok(())
}

#[test]
fn a_write_that_fails(rt: HostRuntime) -> Result<(), Fail> {
    let alloc = rt.alloc();
    for size in [1usize, 2, 3, 40, 100] {
        let mut input = b"step\nstep\nstep\n".as_slice();
        let mut writer = Narrow {
            bytes: Vec::new(alloc),
            size,
            room: 40,
        };
        let mut session = imp_session(&rt, alloc)?;
        assert_eq!(rt;
            debug(&mut input, &mut writer, &mut session),
            Err(DebugFault::Write)
        );
        let expected = b"turn 1 cycle 1 next 0 alive 1 at 1/1\ntur";
        assert!(rt; writer.bytes.as_slice() == expected.as_slice());
        assert_eq!(rt; session.standing().position, 2);
        drop(session);
    }
    Ok(())
}

#[test]
fn as_many_reads_as_are_allowed(rt: HostRuntime) -> Result<(), Fail> {
    let alloc = rt.alloc();
    let mut reader = Pieces {
        rest: b"\n\n\n\n\n",
        size: 1,
        fails: false,
    };
    let mut output = Vec::new(alloc);
    let mut session = imp_session(&rt, alloc)?;
    assert_eq!(rt;
        debug_within(&mut reader, &mut output, &mut session, 3),
        Err(DebugFault::Read)
    );
    assert!(rt; output.is_empty());
    assert_eq!(rt; reader.rest.len(), 2);
    assert_eq!(rt; session.standing().position, 0);
    drop(session);
    Ok(())
}

/// Any number of lines may be entered byte by byte.
#[test]
fn as_many_reads_as_there_are_bytes(rt: HostRuntime) -> Result<(), Fail> {
    let alloc = rt.alloc();
    let lines = vec![in alloc; b'\n'; 70_000]?;
    let mut reader = Pieces {
        rest: lines.as_slice(),
        size: 1,
        fails: false,
    };
    let mut output = Vec::new(alloc);
    let mut session = imp_session(&rt, alloc)?;
    assert_eq!(rt; debug(&mut reader, &mut output, &mut session), Ok(()));
    assert!(rt; reader.rest.is_empty() && output.is_empty());
    drop(session);
    Ok(())
}

#[test]
fn an_unfinished_long_line(rt: HostRuntime) -> Result<(), Fail> {
    let alloc = rt.alloc();
    let mut session = imp_session(&rt, alloc)?;
    for fails in [false, true] {
        let mut reader = Pieces {
            rest: &LONG,
            size: 100,
            fails,
        };
        let mut output = Vec::new(alloc);
        let result = debug(&mut reader, &mut output, &mut session);
        assert_eq!(rt; result.is_err(), fails);
        assert_eq!(rt; output.is_empty(), fails);
    }
    drop(session);
    Ok(())
}
