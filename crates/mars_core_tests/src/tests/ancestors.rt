//! Where processes come from: warriors that split.

use super::{Sizes, battle_of, check_clock, check_same, lone_battle, make_turns};
use mars_core::{Ancestors, AncestorsFault, Battle};
use std::alloc::Global;
use std::process::Abort;
use std::test::Fail;

/// A warrior that splits at address 0 and jumps at address 1.
const SPLITTING: [(u64, &str); 2] = [(0, "SPL.B $0, $0"), (1, "JMP.B $0, $0")];

fn splitting(alloc: Global, processes: u32) -> Result<Battle, Fail> {
    let sizes: Sizes = (8, processes, 8, 8);
    lone_battle(alloc, sizes, &SPLITTING)
}

/// Returns the result of `ancestors` for a process after `turns` turns, with room for three births.
fn asked(
    alloc: Global,
    battle: &Battle,
    turns: u32,
    warrior: u32,
    place: u32,
) -> (Result<Ancestors, AncestorsFault>, [u32; 3]) {
    let mut births = [9; 3];
    let answer = battle.ancestors(alloc, turns, warrior, place, &mut births);
    (answer, births)
}

fn found(
    count: u32,
    first: u32,
    births: [u32; 3],
) -> (Result<Ancestors, AncestorsFault>, [u32; 3]) {
    (Ok(Ancestors { count, first }), births)
}

const NO_SUCH_PROCESS: (Result<Ancestors, AncestorsFault>, [u32; 3]) = (
    Err(AncestorsFault::NoSuchProcess),
    [9; 3],
);

#[test]
fn births_are_found_back_to_the_first(rt: HostRuntime) -> Result<(), Fail> {
    let battle = splitting(rt.alloc(), 8)?;
    // In turns 1, 3, 6 and 10, the process at address 0 splits: it continues at the jump, and the new process is at
    // address 0.
    assert_eq!(&rt; asked(rt.alloc(), &battle, 0, 0, 0), found(0, 0, [9, 9, 9]));
    assert_eq!(&rt; asked(rt.alloc(), &battle, 3, 0, 0), found(0, 0, [9, 9, 9]));
    assert_eq!(&rt; asked(rt.alloc(), &battle, 3, 0, 1), found(1, 0, [1, 9, 9]));
    assert_eq!(&rt; asked(rt.alloc(), &battle, 3, 0, 2), found(2, 0, [3, 1, 9]));
    assert_eq!(&rt; asked(rt.alloc(), &battle, 6, 0, 3), found(3, 0, [6, 3, 1]));
    // There is room for three of the four births.
    assert_eq!(&rt;
        asked(rt.alloc(), &battle, 10, 0, 4),
        found(4, 0, [10, 6, 3])
    );
    // The battle ends after ten turns.
    assert_eq!(&rt;
        asked(rt.alloc(), &battle, 4_000_000_000, 0, 4),
        found(4, 0, [10, 6, 3])
    );
    assert_eq!(&rt; asked(rt.alloc(), &battle, 3, 0, 3), NO_SUCH_PROCESS);
    assert_eq!(&rt; asked(rt.alloc(), &battle, 3, 1, 0), NO_SUCH_PROCESS);
    check_same(&rt, &battle, &splitting(rt.alloc(), 8)?);
    Ok(())
}

#[test]
fn a_full_queue_has_no_births(rt: HostRuntime) -> Result<(), Fail> {
    let battle = splitting(rt.alloc(), 2)?;
    assert_eq!(&rt; asked(rt.alloc(), &battle, 9, 0, 0), found(0, 0, [9, 9, 9]));
    assert_eq!(&rt; asked(rt.alloc(), &battle, 9, 0, 1), found(1, 0, [1, 9, 9]));
    Ok(())
}

#[test]
fn turns_are_those_of_the_battle(rt: HostRuntime) -> Result<(), Fail> {
    let cells = [(0, "JMP.B $0, $0"), (4, "SPL.B $0, $0")];
    let mut battle = battle_of(rt.alloc(), (8, 8, 8, 8), &cells)?;
    // The second warrior's turns are 2, 4, 6 and 8: in turn 2 it splits, then its first process dies at a DAT.
    assert_eq!(&rt; asked(rt.alloc(), &battle, 4, 1, 0), found(1, 0, [2, 9, 9]));
    assert_eq!(&rt; asked(rt.alloc(), &battle, 6, 1, 1), found(2, 0, [6, 2, 9]));
    // After turn 2, the process that this turn queued second is at place 1.
    make_turns(&mut battle, 2)?;
    check_clock(&rt, &battle, 0, 1, 2);
    assert_eq!(&rt; asked(rt.alloc(), &battle, 4, 1, 1), found(1, 1, [6, 9, 9]));
    Ok(())
}
