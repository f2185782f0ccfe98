//! Readers and writers that fail in the middle: what was written is a beginning of the transcript.
use super::{AMPLE, Entries, LONG, Narrow, ONE_IMP, Pieces, THREE_STAY, imp_session, session_of};
use mars_app::{DebugFault, debug};
use mars_session::{DeltaTape, Session};
use std::alloc::Global;
use std::process::Abort;
use std::test::Fail;

/// Returns the replies to the complete lines of `came`.
fn replies_to(alloc: Global, came: &[u8], replies: &[&str]) -> Result<Vec<u8>, Fail> {
    let mut expected = Vec::new(alloc);
    let mut line = 0usize;
    for byte in came {
        if *byte == b'\n' {
            if let Some(reply) = replies.get(line) {
                expected.extend_from_slice(reply.as_bytes())?;
            }
            line = line.saturating_add(1);
        }
    }
    Ok(expected)
}

/// Checks what was written if the read after `came` fails.
fn check_cut_off(
    rt: &impl Abort,
    alloc: Global,
    session: &mut Session<DeltaTape>,
    came: &[u8],
    expected: &[u8],
) {
    let mut reader = Pieces {
        rest: came,
        size: 3,
        fails: true,
    };
    let mut output = Vec::new(alloc);
    let answer = debug(&mut reader, &mut output, session);
    assert_eq!(rt; answer, Err(DebugFault::Read));
    assert!(rt; output.as_slice() == expected, "{}", came.len());
}

/// Checks the replies if the read after each number of bytes of the input fails: the complete lines were executed.
fn answers_what_came(
    rt: &impl Abort,
    alloc: Global,
    entries: Entries<'_>,
    input: &[u8],
    replies: &[&str],
) -> Result<(), Fail> {
    for (end, _) in input.iter().enumerate() {
        let (came, _) = input.split_at(end);
        let expected = replies_to(alloc, came, replies)?;
        let mut session: Session<DeltaTape> = session_of(rt, alloc, entries, AMPLE)?;
        check_cut_off(rt, alloc, &mut session, came, expected.as_slice());
        drop(session);
    }
    Ok(())
}

#[test]
fn an_edit_in_the_past_cut_off(rt: HostRuntime) -> Result<(), Fail> {
    let input = b"run 4\ngoto 2\nedit 7 NOP.F $0, $0\nundo\nlist 7 1\nredo\n";
    let replies = [
        "turn 4 cycle 4 next 0 alive 1 at 4/4\n",
        "turn 2 cycle 2 next 0 alive 1 at 2/4\n",
        "turn 2 cycle 2 next 0 alive 1 at 3/3\n",
        "turn 2 cycle 2 next 0 alive 1 at 2/3\n",
        "7 DAT.F $0, $0\n",
        "turn 2 cycle 2 next 0 alive 1 at 3/3\n",
    ];
    let alloc = rt.alloc();
    answers_what_came(&rt, alloc, ONE_IMP, input, &replies)
}

#[test]
fn the_end_and_back_cut_off(rt: HostRuntime) -> Result<(), Fail> {
    let input = b"step\nstep\nkill 2 0\nkill 0 0\nstep\nundo\nstep\n";
    let replies = [
        "turn 1 cycle 0 next 1 alive 3 at 1/1\n",
        "turn 2 cycle 0 next 2 alive 3 at 2/2\n",
        "turn 2 cycle 1 next 0 alive 2 at 3/3\n",
        "turn 2 cycle 1 next 1 alive 1 at 4/4\n",
        "refused 8 Over\n",
        "turn 2 cycle 1 next 0 alive 2 at 3/4\n",
        "turn 3 cycle 1 next 1 alive 2 at 4/4\n",
    ];
    let alloc = rt.alloc();
    answers_what_came(&rt, alloc, THREE_STAY, input, &replies)
}

#[test]
fn a_place_within_a_command_cut_off(rt: HostRuntime) -> Result<(), Fail> {
    let input = b"run 4\ngoto 2\nundo\nredo\n";
    let replies = [
        "turn 4 cycle 4 next 0 alive 1 at 4/4\n",
        "turn 2 cycle 2 next 0 alive 1 at 2/4\n",
        "turn 0 cycle 0 next 0 alive 1 at 0/4\n",
        "turn 4 cycle 4 next 0 alive 1 at 4/4\n",
    ];
    let alloc = rt.alloc();
    answers_what_came(&rt, alloc, ONE_IMP, input, &replies)
}

#[test]
fn a_killed_warrior_cut_off(rt: HostRuntime) -> Result<(), Fail> {
    let input = b"step\nkill 1 0\nqueue 1\nspawn 1 4\n";
    let replies = [
        "turn 1 cycle 0 next 1 alive 3 at 1/1\n",
        "turn 1 cycle 0 next 2 alive 2 at 2/2\n",
        "queue 1:\n",
        "refused 6 WarriorDead\n",
    ];
    let alloc = rt.alloc();
    answers_what_came(&rt, alloc, THREE_STAY, input, &replies)
}

#[test]
fn long_and_empty_lines_cut_off(rt: HostRuntime) -> Result<(), Fail> {
    let alloc = rt.alloc();
    let mut input = Vec::from_slice(alloc, b"undo\n")?;
    input.extend_from_slice(&LONG)?;
    input.extend_from_slice(b"\n\nstep")?;
    let replies = ["refused 10 NothingToUndo\n", "unknown\n", ""];
    answers_what_came(&rt, alloc, ONE_IMP, input.as_slice(), &replies)
}

#[test]
fn a_writer_that_is_full_anywhere(rt: HostRuntime) -> Result<(), Fail> {
    let alloc = rt.alloc();
    let input = b"step\nqueue 0\nlist 0 2\nshow\n";
    let expected = b"turn 1 cycle 1 next 0 alive 1 at 1/1\n\
        queue 0: 1\n\
        0 MOV.I $0, $1\n\
        1 MOV.I $0, $1\n\
        turn 1 cycle 1 next 0 alive 1 at 1/1\n\
        warrior 0 processes 1\n\
        battle running\n"
        .as_slice();
    for (room, _) in expected.iter().enumerate() {
        let mut reader = input.as_slice();
        let mut writer = Narrow {
            bytes: Vec::new(alloc),
            size: 7,
            room,
        };
        let mut session = imp_session(&rt, alloc)?;
        assert_eq!(rt;
            debug(&mut reader, &mut writer, &mut session),
            Err(DebugFault::Write)
        );
        let (written, _) = expected.split_at(room);
        assert!(rt; writer.bytes.as_slice() == written, "{room}");
        assert_eq!(rt; session.standing().position, 1);
        drop(session);
    }
    Ok(())
}
