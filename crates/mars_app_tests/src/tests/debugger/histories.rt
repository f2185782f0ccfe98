//! Places and marks: undo, redo, goto, and histories that are full or evict places.
use super::{Exchange, ONE_IMP, THREE_STAY, answers, battle_of, gives, gives_within, imp_gives};
use mars_session::{RingTape, Session};
use std::test::Fail;

#[test]
fn a_place_within_a_command(rt: HostRuntime) -> Result<(), Fail> {
    let input = b"run 4\ngoto 2\nundo\nredo\n";
    let expected = "turn 4 cycle 4 next 0 alive 1 at 4/4\n\
        turn 2 cycle 2 next 0 alive 1 at 2/4\n\
        turn 0 cycle 0 next 0 alive 1 at 0/4\n\
        turn 4 cycle 4 next 0 alive 1 at 4/4\n";
    imp_gives(&rt, rt.alloc(), input, expected)
}

#[test]
fn the_end_and_back(rt: HostRuntime) -> Result<(), Fail> {
    let input = b"step\nstep\nkill 2 0\nkill 0 0\nstep\nundo\nstep\n";
    let expected = b"turn 1 cycle 0 next 1 alive 3 at 1/1\n\
        turn 2 cycle 0 next 2 alive 3 at 2/2\n\
        turn 2 cycle 1 next 0 alive 2 at 3/3\n\
        turn 2 cycle 1 next 1 alive 1 at 4/4\n\
        refused 8 Over\n\
        turn 2 cycle 1 next 0 alive 2 at 3/4\n\
        turn 3 cycle 1 next 1 alive 2 at 4/4\n";
    gives(&rt, rt.alloc(), THREE_STAY, Exchange { input, expected })
}

#[test]
fn a_history_that_is_full(rt: HostRuntime) -> Result<(), Fail> {
    let input = b"run 3\nrun 2\nstep\nundo\n";
    let expected = b"refused 13 JournalFull 2\n\
        turn 2 cycle 2 next 0 alive 1 at 2/2\n\
        refused 13 JournalFull 0\n\
        turn 0 cycle 0 next 0 alive 1 at 0/2\n";
    gives_within(&rt, rt.alloc(), ONE_IMP, 2, Exchange { input, expected })
}

/// Two places are kept beside the last one, and the first kept place is not marked.
#[test]
fn a_history_that_forgets(rt: HostRuntime) -> Result<(), Fail> {
    let input = b"run 3\nundo\ngoto 0\ngoto 1\nstep\nundo\nundo\nredo\n";
    let expected = b"turn 3 cycle 3 next 0 alive 1 at 2/2\n\
        refused 15 Forgotten\n\
        refused 12 NotInHistory 1 3\n\
        turn 1 cycle 1 next 0 alive 1 at 0/2\n\
        turn 2 cycle 2 next 0 alive 1 at 1/1\n\
        turn 1 cycle 1 next 0 alive 1 at 0/1\n\
        refused 15 Forgotten\n\
        turn 2 cycle 2 next 0 alive 1 at 1/1\n";
    let alloc = rt.alloc();
    let mut session = Session::new(RingTape::new(alloc, battle_of(&rt, alloc, ONE_IMP)?, 2)?, 0);
    answers(&rt, alloc, &mut session, 3, Exchange { input, expected });
    drop(session);
    Ok(())
}

#[test]
fn moves_that_lead_nowhere(rt: HostRuntime) -> Result<(), Fail> {
    let input = b"until 3\nuntil 3\ngoto 9\nrun 0\nredo\n";
    let expected = "turn 3 cycle 3 next 0 alive 1 at 3/3\n\
        refused 9 CyclePassed 3\n\
        refused 12 NotInHistory 0 3\n\
        refused 1 Count\n\
        refused 11 NothingToRedo\n";
    imp_gives(&rt, rt.alloc(), input, expected)
}
