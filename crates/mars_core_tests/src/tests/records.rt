//! Records: reverting and applying turns and edits.
ghost use Rattle.std.specs.Prelude.{◌≡◌, IfOk};
ghost use Rattle.mars_core.specs.Leads.{Leads};

use super::{
    NOP, OF_EIGHT, STAY, battle_of, check_queue, check_rejected, go_back, go_forth, lone_battle,
    make_edit, make_turns, three_stay, turn, turn_and_back,
};
use mars_core::{Atom, Battle, Edit, EditFault};
use std::alloc::Global;
use std::process::Abort;
use std::test::Fail;

/// Executes an edit, reverts its record and applies the record again.
fn edit_and_back(
    rt: &impl Abort,
    alloc: Global,
    battle: &mut Battle,
    edit: Edit,
) -> Result<Atom, Fail>
    ensures { IfOk result (λ atom. Leads battle.old atom battle.new) }
{
    let before = battle.copy(alloc)?;
    let Ok(atom) = battle.edit(edit) else {
        return Err("edit".into());
    };
    let after = battle.copy(alloc)?;
    go_back(rt, battle, &atom, &before);
    go_forth(rt, battle, &atom, &after);
    Ok(atom)
}

fn turns_and_back(
    rt: &impl Abort,
    alloc: Global,
    battle: &mut Battle,
    turns: u32,
) -> Result<(), Fail> {
    for _ in 0..turns {
        let _atom = turn_and_back(rt, alloc, battle)?;
    }
    Ok(())
}

#[test]
fn a_death_adds_a_cycle_and_takes_it_back(rt: HostRuntime) -> Result<(), Fail> {
    let alloc = rt.alloc();
    let waits = [
        (0, "JMP.B $0, $0"),
        (2, "JMP.B $0, $0"),
        (4, "DAT.F $0, $0"),
    ];
    let mut battle = battle_of(alloc, OF_EIGHT, &waits)?;
    turns_and_back(&rt, alloc, &mut battle, 2)?;
    let atom = turn_and_back(&rt, alloc, &mut battle)?;
    assert!(rt; atom.died && atom.cycle_added);
    Ok(())
}

/// Edits that the second of three warriors survives.
const EDITS: &[Edit] = &[
    Edit::Spawn(1, 5),
    Edit::Spawn(1, 6),
    Edit::Spawn(1, 7),
    Edit::MoveProcess(1, 1, 3),
    Edit::SetCell(6, STAY),
    Edit::KillProcess(1, 1),
    Edit::KillProcess(1, 0),
    Edit::KillProcess(1, 1),
];

/// Executes an edit, reverts it and applies it again. Checks that the edit kills its warrior if `died`, else not, and
/// that it completes a cycle if `cycle_added`, else not.
fn check_edit(
    rt: &impl Abort,
    alloc: Global,
    battle: &mut Battle,
    edit: Edit,
    died: bool,
    cycle_added: bool,
) -> Result<(), Fail> {
    let atom = edit_and_back(rt, alloc, battle, edit)?;
    assert_eq!(rt; atom.died, died);
    assert_eq!(rt; atom.cycle_added, cycle_added);
    Ok(())
}

#[test]
fn edits_back_and_forth(rt: HostRuntime) -> Result<(), Fail> {
    let alloc = rt.alloc();
    let mut battle = three_stay(alloc, 4, 0)?;
    for edit in EDITS {
        check_edit(&rt, alloc, &mut battle, *edit, false, false)?;
    }
    turns_and_back(&rt, alloc, &mut battle, 2)?;
    check_edit(&rt, alloc, &mut battle, Edit::KillProcess(2, 0), true, true)?;
    check_edit(
        &rt,
        alloc,
        &mut battle,
        Edit::KillProcess(1, 0),
        true,
        false,
    )?;
    assert!(rt; battle.is_over());
    Ok(())
}

/// A turn and an edit after it: the battles before, between and after both, and both records.
#[derive(Drop)]
struct Two {
    before: Battle,
    turn: Atom,
    between: Battle,
    edit: Atom,
    after: Battle,
}

/// Executes a turn and an edit, each of which is reverted and applied again.
fn make_two(rt: &impl Abort, alloc: Global, battle: &mut Battle, edit: Edit) -> Result<Two, Fail>
    ensures turn { IfOk result (λ two. Leads two.before two.turn two.between) }
    ensures edit { IfOk result (λ two. Leads two.between two.edit two.after) }
    ensures from { IfOk result (λ two. two.before ≡ battle.old) }
    ensures to { IfOk result (λ two. two.after ≡ battle.new) }
{
    let before = battle.copy(alloc)?;
    let turn = turn_and_back(rt, alloc, battle)?;
    let between = battle.copy(alloc)?;
    let edit = edit_and_back(rt, alloc, battle, edit)?;
    let after = battle.copy(alloc)?;
    Ok(Two {
        before,
        turn,
        between,
        edit,
        after,
    })
}

/// Reverts the edit, then the turn.
fn revert_both(rt: &impl Abort, battle: &mut Battle, two: &Two)
    requires turn { Leads two.now.before two.now.turn two.now.between }
    requires edit { Leads two.now.between two.now.edit two.now.after }
    requires from { battle.old ≡ two.now.after }
    ensures { battle.new ≡ two.now.before }
{
    go_back(rt, battle, &two.edit, &two.between);
    go_back(rt, battle, &two.turn, &two.before);
}

/// Applies the turn again, then the edit.
fn apply_both(rt: &impl Abort, battle: &mut Battle, two: &Two)
    requires turn { Leads two.now.before two.now.turn two.now.between }
    requires edit { Leads two.now.between two.now.edit two.now.after }
    requires from { battle.old ≡ two.now.before }
    ensures { battle.new ≡ two.now.after }
{
    go_forth(rt, battle, &two.turn, &two.between);
    go_forth(rt, battle, &two.edit, &two.after);
}

/// Reverts four records and applies them again; the second record is reverted and applied twice.
fn four_back_and_forth(rt: &impl Abort, battle: &mut Battle, first: &Two, second: &Two)
    requires first_turn { Leads first.now.before first.now.turn first.now.between }
    requires first_edit { Leads first.now.between first.now.edit first.now.after }
    requires second_turn { Leads second.now.before second.now.turn second.now.between }
    requires second_edit { Leads second.now.between second.now.edit second.now.after }
    requires joined { second.now.before ≡ first.now.after }
    requires from { battle.old ≡ second.now.after }
{
    revert_both(rt, battle, second);
    revert_both(rt, battle, first);
    apply_both(rt, battle, first);
    go_back(rt, battle, &first.edit, &first.between);
    go_forth(rt, battle, &first.edit, &first.after);
    apply_both(rt, battle, second);
}

#[test]
fn several_back_and_forth(rt: HostRuntime) -> Result<(), Fail> {
    let alloc = rt.alloc();
    let cells = [(0, "SPL.B $0, }1"), (4, "DAT.F $0, $0")];
    let mut battle = battle_of(alloc, (8, 4, 8, 8), &cells)?;
    let first = make_two(&rt, alloc, &mut battle, Edit::KillProcess(0, 0))?;
    let second = make_two(&rt, alloc, &mut battle, Edit::Spawn(0, 7))?;
    four_back_and_forth(&rt, &mut battle, &first, &second);
    Ok(())
}

/// Returns the addresses of a warrior's processes.
fn queue_of(alloc: Global, battle: &Battle, warrior: usize) -> Result<Vec<u32>, Fail> {
    let mut queue = Vec::new(alloc);
    for place in 0..battle.queue_len(warrior) {
        queue.push(battle.process(warrior, place).ok_or("process")?)?;
    }
    Ok(queue)
}

const FULL: &[(Edit, EditFault)] = &[(Edit::Spawn(0, 3), EditFault::QueueFull)];

/// Kills a process in the middle of the queue, and reverts the kill.
fn check_killed_process(rt: &impl Abort, alloc: Global, battle: &mut Battle) -> Result<(), Fail> {
    let three = battle.copy(alloc)?;
    let killed = edit_and_back(rt, alloc, battle, Edit::KillProcess(0, 1))?;
    check_queue(rt, battle, 0, &[0, 2]);
    go_back(rt, battle, &killed, &three);
    check_queue(rt, battle, 0, &[0, 1, 2]);
    Ok(())
}

/// Moves a process, executes a turn, kills the process at the front, and reverts all three.
fn check_three_steps(rt: &impl Abort, alloc: Global, battle: &mut Battle) -> Result<(), Fail> {
    let three = battle.copy(alloc)?;
    let moved = edit_and_back(rt, alloc, battle, Edit::MoveProcess(0, 2, 5))?;
    check_queue(rt, battle, 0, &[0, 1, 5]);
    let two = make_two(rt, alloc, battle, Edit::KillProcess(0, 0))?;
    check_queue(rt, &two.between, 0, &[1, 5, 0]);
    check_queue(rt, battle, 0, &[5, 0]);
    revert_both(rt, battle, &two);
    go_back(rt, battle, &moved, &three);
    check_queue(rt, battle, 0, &[0, 1, 2]);
    Ok(())
}

#[test]
fn a_queue_back_and_forth(rt: HostRuntime) -> Result<(), Fail> {
    let alloc = rt.alloc();
    let cells = [(0, "JMP.B $0, $0")];
    let mut battle = lone_battle(alloc, (8, 3, 8, 8), &cells)?;
    check_edit(&rt, alloc, &mut battle, Edit::Spawn(0, 1), false, false)?;
    check_edit(&rt, alloc, &mut battle, Edit::Spawn(0, 2), false, false)?;
    check_queue(&rt, &battle, 0, &[0, 1, 2]);
    check_rejected(&rt, &mut battle, FULL);
    check_queue(&rt, &battle, 0, &[0, 1, 2]);
    check_killed_process(&rt, alloc, &mut battle)?;
    check_three_steps(&rt, alloc, &mut battle)
}

/// Returns a battle with a full queue of `processes` processes in a core of NOPs, after `turns` turns.
fn full_queue(alloc: Global, processes: u32, turns: u32) -> Result<Battle, Fail> {
    let mut battle = battle_of(alloc, (8, processes, 8, 8), &[(0, "NOP.F $0, $0")])?;
    for address in 0..8 {
        make_edit(&mut battle, Edit::SetCell(address, NOP))?;
    }
    for address in 1..processes {
        make_edit(&mut battle, Edit::Spawn(0, u64::from(address)))?;
    }
    make_turns(&mut battle, turns)?;
    Ok(battle)
}

/// Returns the addresses in the queue of warrior 0, except for the address at `place`.
fn rest_of_queue(alloc: Global, battle: &Battle, place: usize) -> Result<Vec<u32>, Fail> {
    let mut rest = queue_of(alloc, battle, 0)?;
    if rest.len() <= place {
        return Err("place".into());
    }
    rest.remove(place);
    Ok(rest)
}

/// Kills the process at `place` of a full queue, reverts the kill and applies it again.
fn check_killed_at(
    rt: &impl Abort,
    alloc: Global,
    processes: u32,
    turns: u32,
    place: u32,
) -> Result<(), Fail> {
    let mut battle = full_queue(alloc, processes, turns)?;
    assert_eq!(rt; battle.queue_len(0), processes as usize);
    let rest = rest_of_queue(alloc, &battle, place as usize)?;
    let kill = Edit::KillProcess(0, u64::from(place));
    check_edit(rt, alloc, &mut battle, kill, processes == 1, false)?;
    check_queue(rt, &battle, 0, rest.as_slice());
    Ok(())
}

#[test]
fn kills_at_each_place_back_and_forth(rt: HostRuntime) -> Result<(), Fail> {
    for processes in [1, 2, 5] {
        for turns in 0..6 {
            for place in 0..processes {
                check_killed_at(&rt, rt.alloc(), processes, turns, place)?;
            }
        }
    }
    Ok(())
}
