//! Calls that do not allocate. Each test creates its objects, allocates again, and passes whether or not this
//! allocation and all later ones fail; dev/checks/memory runs the test with each allocation as the first to fail. If
//! the objects themselves cannot be allocated, the test checks nothing.
ghost use Rattle.std.specs.Prelude.{◌≡◌, IfSome};
ghost use Rattle.mars_core.specs.Leads.{Leads};

use super::memory::{one_cells, start};
use super::{STAY, check_clock, check_queue, check_restart, check_same, go_back, go_forth, params};
use mars_cell::{Params, Warrior};
use mars_core::{Atom, Battle, BattleFault, Edit, EditFault};
use std::alloc::Global;
use std::process::Abort;
use std::test::Fail;

/// Allocates once. In some runs this is the first allocation that fails.
fn ask(alloc: Global) {
    let _asked: Result<Vec<u64>, _> = Vec::with_capacity(alloc, 1);
}

/// A turn: the battle before it, its record, the battle after it, and a second copy of the battle after it.
#[derive(Drop)]
struct Made {
    before: Battle,
    atom: Atom,
    after: Battle,
    battle: Battle,
}

/// Returns the first turn of a battle, or `None` if an allocation fails.
fn first_turn(alloc: Global, params: &Params) -> Option<Made>
    ensures { IfSome result (λ made. Leads made.before made.atom made.after × (made.battle ≡ made.after)) }
{
    let mut battle = start(alloc, params).ok()?;
    let Ok(before) = battle.copy(alloc) else {
        return None;
    };
    let Ok(atom) = battle.turn() else {
        return None;
    };
    let Ok(after) = battle.copy(alloc) else {
        return None;
    };
    Some(Made {
        before,
        atom,
        after,
        battle,
    })
}

#[test]
fn turns_back_and_forth(rt: HostRuntime) -> Result<(), Fail> {
    let params = params(8, 2, 8, 8)?;
    let Some(mut made) = first_turn(rt.alloc(), &params) else {
        return Ok(());
    };
    ask(rt.alloc());
    go_back(&rt, &mut made.battle, &made.atom, &made.before);
    go_forth(&rt, &mut made.battle, &made.atom, &made.after);
    made.battle.copy_into(&mut made.after);
    check_same(&rt, &made.after, &made.battle);
    assert!(rt; made.battle.turn().is_ok());
    check_clock(&rt, &made.battle, 0, 1, 2);
    Ok(())
}

const EDITS: &[(Edit, Option<EditFault>)] = &[
    (Edit::SetCell(2, STAY), None),
    (Edit::Spawn(0, 2), None),
    (Edit::Spawn(0, 2), Some(EditFault::QueueFull)),
    (Edit::MoveProcess(0, 1, 3), None),
    (Edit::KillProcess(0, 0), None),
    (Edit::KillProcess(1, 0), None),
];

/// Checks the errors of the edits, and that the battle is over after them.
fn check_edits(rt: &impl Abort, battle: &mut Battle) {
    for (edit, fault) in EDITS {
        assert_eq!(rt; battle.edit(*edit).err(), *fault);
    }
    assert_eq!(rt; battle.cell(2), Some(STAY));
    check_queue(rt, battle, 0, &[3]);
    assert!(rt; battle.turn().is_err());
}

#[test]
fn edits_of_a_battle(rt: HostRuntime) -> Result<(), Fail> {
    let params = params(8, 2, 8, 8)?;
    let Ok(mut battle) = start(rt.alloc(), &params) else {
        return Ok(());
    };
    ask(rt.alloc());
    check_edits(&rt, &mut battle);
    Ok(())
}

/// Executes three turns, runs the battle to its end, tries a restart that is rejected, and plays another round.
fn check_rounds(rt: &impl Abort, battle: &mut Battle, warriors: &[Warrior]) -> Result<(), Fail> {
    battle.run(3);
    assert_eq!(rt; battle.turns(), 3);
    battle.run_to_end();
    assert_eq!(rt; battle.turns(), 20);
    assert_eq!(rt; battle.cycle(), 10);
    let outside = Err(BattleFault::StartOutside);
    check_restart(rt, battle, warriors, [0, 9], outside)?;
    check_restart(rt, battle, warriors, [0, 4], Ok(()))?;
    battle.run_to_end();
    assert_eq!(rt; battle.turns(), 3);
    assert!(rt; !battle.alive(0));
    Ok(())
}

#[test]
fn a_run_and_another_round(rt: HostRuntime) -> Result<(), Fail> {
    let params = params(8, 2, 8, 8)?;
    let texts: [&str; 2] = ["MOV.I $0, $4", "JMP.B $0, $0"];
    let Some(warriors) = one_cells(rt.alloc(), &texts) else {
        return Ok(());
    };
    let Ok(mut battle) = start(rt.alloc(), &params) else {
        return Ok(());
    };
    ask(rt.alloc());
    check_rounds(&rt, &mut battle, &warriors)
}
