//! Splits, deaths, and which warrior has the next turn.
use super::{Case, check_all};
use crate::tests::{OF_EIGHT, battle_of, check_clock, check_deaths, make_turns, params, turn};
use mars_core::{Battle, Death};
use std::process::Abort;
use std::test::Fail;

const SPLITS: &[Case] = &[
    // A full queue queues only the next instruction, not the jump.
    Case {
        sizes: (8, 1, 8, 8),
        before: &[(0, "SPL.B $0, $0")],
        after: &[],
        queue: &[1],
        changes: 0,
    },
    Case {
        sizes: (8, 2, 8, 8),
        before: &[(0, "SPL.B $0, $0")],
        after: &[],
        queue: &[1, 0],
        changes: 0,
    },
];

#[test]
fn splits(rt: HostRuntime) -> Result<(), Fail> {
    check_all(&rt, rt.alloc(), SPLITS)
}

/// Checks that the battle is over and that the first of its two warriors lives.
fn check_won(rt: &impl Abort, battle: &mut Battle) {
    assert_eq!(rt; battle.survivors(), 1);
    assert!(rt; battle.is_over());
    assert!(rt; battle.turn().is_err());
    assert!(rt; battle.alive(0));
    assert!(rt; !battle.alive(1));
    assert!(rt; !battle.alive(2));
    assert_eq!(rt; battle.queue_len(2), 0);
}

const SECOND_DEATH: &[Death] = &[Death {
    warrior: 1,
    turns: 2,
}];

/// Checks that the second of two warriors dies in its first turn, which completes the cycle.
fn check_second_dies(rt: &impl Abort, battle: &mut Battle) -> Result<(), Fail> {
    let atom = turn(battle)?;
    assert!(rt; atom.died);
    assert!(rt; atom.cycle_added);
    check_deaths(rt, battle, SECOND_DEATH);
    check_clock(rt, battle, 0, 1, 2);
    Ok(())
}

#[test]
fn two_warriors(rt: HostRuntime) -> Result<(), Fail> {
    let cells = [(0, "JMP.B $0, $0"), (4, "DAT.F $0, $0")];
    let mut battle = battle_of(rt.alloc(), OF_EIGHT, &cells)?;
    assert_eq!(rt; battle.warriors(), 2);
    assert_eq!(rt; battle.params().core_size(), 8);
    make_turns(&mut battle, 1)?;
    check_clock(&rt, &battle, 1, 0, 1);
    check_second_dies(&rt, &mut battle)?;
    check_won(&rt, &mut battle);
    Ok(())
}
