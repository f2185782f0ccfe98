//! Battles that are debugged by the program.

use super::{Played, check_played};
use std::test::Fail;

const A_STEP_AND_AN_UNDO: &[Played] = &[(
    &["-e", "-s", "8", "-l", "1", "-d", "1", "imp.load"],
    b"step\nundo\n",
    b"turn 1 cycle 1 next 0 alive 1 at 1/1\nturn 0 cycle 0 next 0 alive 1 at 0/1\n",
)];

#[test]
fn a_step_and_an_undo(rt: HostRuntime) -> Result<(), Fail> {
    check_played(&rt, rt.alloc(), A_STEP_AND_AN_UNDO)
}

const PLACED_WARRIORS: &[Played] = &[
    (
        &["-e", "-F", "200", "imp.load", "stay.load"],
        b"queue 1\n",
        b"queue 1: 200\n",
    ),
    (
        &["-e", "imp.load", "stay.load"],
        b"queue 1\n",
        b"queue 1: 1305\n",
    ),
    (
        &["-e", "--seed", "16807", "imp.load", "stay.load"],
        b"queue 1\n",
        b"queue 1: 1139\n",
    ),
    (
        &["-e", "imp.load", "stay.load", "dead.load"],
        b"queue 1\nqueue 2\nrun 3\n",
        b"queue 1: 1505\nqueue 2: 2769\nturn 3 cycle 1 next 0 alive 2 at 3/3\n",
    ),
];

#[test]
fn a_battle_of_placed_warriors(rt: HostRuntime) -> Result<(), Fail> {
    check_played(&rt, rt.alloc(), PLACED_WARRIORS)
}

const TWO_PLACES: &[Played] = &[(
    &[
        "-e",
        "--history",
        "2",
        "-s",
        "8",
        "-l",
        "1",
        "-d",
        "1",
        "imp.load",
    ],
    b"run 3\nrun 2\nstep\nundo\nundo\ngoto 0\n",
    b"turn 3 cycle 3 next 0 alive 1 at 2/2
turn 5 cycle 5 next 0 alive 1 at 2/2
turn 6 cycle 6 next 0 alive 1 at 2/2
turn 5 cycle 5 next 0 alive 1 at 1/2
refused 15 Forgotten
refused 12 NotInHistory 4 6
",
)];

#[test]
fn a_history_of_two_places(rt: HostRuntime) -> Result<(), Fail> {
    check_played(&rt, rt.alloc(), TWO_PLACES)
}
