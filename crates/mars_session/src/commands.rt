//! The commands, generic over the tape.
ghost use Rattle.std.specs.Prelude.{◌≡◌, ◌+◌, ◌≤◌, ◌<◌, [], Some, None, false, IfErr, OnOk, OnErr, MatchOption, ◌*◌, ◌-◌};
ghost use Rattle.mars_session.specs.History.{marked, cut, after_command};
ghost use Rattle.mars_session.specs.Commands.{command_limit, turns_until, stops_at, until_bound, cells_between, fills, refusal_of, edit_states};
ghost use Rattle.mars_core.specs.State.{is_over_of};
ghost use Rattle.mars_core.specs.Turn.{turn_of};
ghost use Rattle.mars_core.specs.Edit.{edit_fault};
ghost use Rattle.mars_session.specs.Code.Appending.{go_on_all};
ghost use Rattle.mars_session.specs.Script.{standing_of, room_refusal, is_out_of_memory, is_poor, command_outcome, IsOutcome};

use crate::calls::{Call, Refusal, Standing};
use crate::tapes::Tape;
use mars_cell::Cell;
use mars_core::{Battle, Edit, EditFault};

/// Maximum number of turns or cells of one command.
pub const COMMAND_LIMIT: u64 = 1_000_000;

/// Returns the standing of a tape.
pub fn standing<T: Tape>(tape: &T) -> Standing
    ensures { result ≡ standing_of (T.history tape.now) }
{
    let battle = tape.now();
    Standing {
        turns: battle.turns() as u64,
        cycle: battle.cycle() as u64,
        next: battle.next() as u64,
        alive: battle.survivors() as u64,
        position: tape.position(),
        last: tape.len() - 1,
    }
}

/// Reserves room for the places of a command, marks the present place and drops the places after it.
///
/// # Errors
///
/// - `JournalFull` if the limit leaves less room than `bound` and the tape evicts no places
/// - `OutOfMemory` if the tape has less room than `bound` and an allocation fails
fn prepare<T: Tape>(tape: &mut T, limit: u64, bound: u64) -> Result<(), Refusal>
    requires { 1 ≤ bound }

    // `room_refusal` defines the result. `OutOfMemory` is possible only if the tape has less room than `bound`.
    ensures room { OnOk result (room_refusal (T.retention tape.old) limit bound false (T.history tape.old) ≡ None) }
    ensures refused { IfErr result (λ r. room_refusal (T.retention tape.old) limit bound (is_out_of_memory r) (T.history tape.old) ≡ Some r) }
    ensures memory { result ≡ Err Refusal.OutOfMemory → T.room tape.old < bound }

    // On success, the present place is marked and the places after it are dropped; otherwise nothing changes.
    ensures ok { OnOk result (T.history tape.new ≡ cut (marked (T.history tape.old))) }
    ensures reserved { OnOk result (bound ≤ T.room tape.new) }
    ensures kept { T.retention tape.new ≡ T.retention tape.old }
    ensures err { OnErr result (T.history tape.new ≡ T.history tape.old) }
{
    if !T::FORGETS {
        let left = limit.saturating_sub(tape.position());
        if bound > left {
            return Err(Refusal::JournalFull(left));
        }
    }
    match tape.reserve(bound) {
        Ok(()) => {
            tape.set_mark();
            tape.cut();
            Ok(())
        }
        Err(_) => Err(Refusal::OutOfMemory),
    }
}

/// Returns whether turns stop at a battle: if it is over or, for `Some(cycle)`, is in this cycle.
fn stops(battle: &Battle, cycle: Option<u64>) -> bool
    ensures { result ≡ stops_at cycle battle.now }
{
    match cycle {
        None => battle.is_over(),
        Some(c) => battle.is_over() || battle.cycle() as u64 == c,
    }
}

/// Appends at most `n` turns, up to the first place at which `stops` is true.
fn turn_until<T: Tape>(tape: &mut T, n: u64, cycle: Option<u64>)
    requires last { (T.history tape.old).after ≡ [] }
    requires room { n ≤ T.room tape.old }
    ensures { record { history = T.history tape.new; retention = T.retention tape.new }
        ≡ go_on_all (record { history = T.history tape.old; retention = T.retention tape.old })
        (turns_until (stops_at cycle) n (T.history tape.old).present.state) }
{
    let mut left = n;
    while left > 0 && !stops(tape.now(), cycle) {
        tape.turn();
        left -= 1;
    }
}

/// Executes at least one turn and at most `count`, up to the first place after it at which `stops` is true.
fn make_turns<T: Tape>(
    tape: &mut T,
    limit: u64,
    count: u64,
    cycle: Option<u64>,
) -> Result<Standing, Refusal>
    requires some { 1 ≤ count }
    requires runs { is_over_of (T.history tape.old).present.state ≡ false }
    ensures answer { let next = turn_of (T.history tape.old).present.state in command_outcome (T.retention tape.old) limit count
        (is_poor result) (T.history tape.old) (Ok (next, turns_until (stops_at cycle) (count - 1) next))
        ≡ record { history = T.history tape.new; retention = T.retention tape.new; reply = result } }
    ensures memory { result ≡ Err Refusal.OutOfMemory → T.room tape.old < count }
{
    prepare(tape, limit, count)?;
    tape.turn();
    turn_until(tape, count - 1, cycle);
    tape.set_mark();
    Ok(standing(tape))
}

/// Executes one turn.
pub fn step<T: Tape>(tape: &mut T, limit: u64) -> Result<Standing, Refusal>
    ensures answer { IsOutcome (T.retention tape.old) limit Call.Step (T.history tape.old) result (T.history tape.new) (T.retention tape.new) }
    ensures memory { result ≡ Err Refusal.OutOfMemory → T.room tape.old < 1 }
{
    if tape.now().is_over() {
        return Err(Refusal::Over);
    }
    make_turns(tape, limit, 1, None)
}

/// Executes `n` turns, or fewer if the battle ends before.
pub fn run<T: Tape>(tape: &mut T, limit: u64, n: u64) -> Result<Standing, Refusal>
    ensures answer { IsOutcome (T.retention tape.old) limit (Call.Run n) (T.history tape.old) result (T.history tape.new) (T.retention tape.new) }
    ensures memory { result ≡ Err Refusal.OutOfMemory → T.room tape.old < n }
{
    if n == 0 || n > COMMAND_LIMIT {
        return Err(Refusal::Count);
    }
    if tape.now().is_over() {
        return Err(Refusal::Over);
    }
    make_turns(tape, limit, n, None)
}

/// Returns `cycles * warriors`, or `None` if one command may not execute that many turns.
fn bounded_turns(cycles: u64, warriors: u64) -> Option<u64>
    ensures { MatchOption result (command_limit < cycles * warriors) (λ n. (n ≡ cycles * warriors) × (n ≤ command_limit)) }
{
    cycles.checked_mul(warriors).filter(|n| *n <= COMMAND_LIMIT)
}

/// Executes turns until the battle is in the cycle or is over.
pub fn until<T: Tape>(tape: &mut T, limit: u64, cycle: u64) -> Result<Standing, Refusal>
    ensures answer { IsOutcome (T.retention tape.old) limit (Call.Until cycle) (T.history tape.old) result (T.history tape.new)
        (T.retention tape.new) }
    ensures memory { result ≡ Err Refusal.OutOfMemory → T.room tape.old < until_bound cycle (T.history tape.old).present.state }
{
    let now = tape.now();
    let reached = now.cycle() as u64;
    let Some(n) = bounded_turns(cycle.saturating_sub(reached), now.warriors() as u64) else {
        return Err(Refusal::Count);
    };
    if now.is_over() {
        return Err(Refusal::Over);
    }
    if cycle <= reached {
        return Err(Refusal::CyclePassed(reached));
    }
    make_turns(tape, limit, n, Some(cycle))
}

/// Converts the error of an edit to a refusal.
fn refusal(fault: EditFault) -> Refusal
    ensures { result ≡ refusal_of fault }
{
    match fault {
        EditFault::Address => Refusal::Address,
        EditFault::FieldOutside => Refusal::FieldOutside,
        EditFault::NoSuchWarrior => Refusal::NoSuchWarrior,
        EditFault::NoSuchProcess => Refusal::NoSuchProcess,
        EditFault::WarriorDead => Refusal::WarriorDead,
        EditFault::QueueFull => Refusal::QueueFull,
    }
}

/// Makes one edit.
pub fn edit<T: Tape>(tape: &mut T, limit: u64, edit: Edit) -> Result<Standing, Refusal>
    ensures answer { command_outcome (T.retention tape.old) limit 1 (is_poor result) (T.history tape.old)
        (edit_states edit (T.history tape.old).present.state)
        ≡ record { history = T.history tape.new; retention = T.retention tape.new; reply = result } }
    ensures memory { result ≡ Err Refusal.OutOfMemory → T.room tape.old < 1 }
{
    if let Some(fault) = tape.now().edit_fault(edit) {
        return Err(refusal(fault));
    }
    prepare(tape, limit, 1)?;
    tape.edit(edit);
    tape.set_mark();
    Ok(standing(tape))
}

/// Sets the cells after `first` up to and including `last`, one place each.
#[tactic(auto, using(crate::proofs::Turns::fault_below))]
fn fill_cells<T: Tape>(tape: &mut T, first: u64, last: u64, cell: Cell)
    requires last { (T.history tape.old).after ≡ [] }
    requires room { last - first ≤ T.room tape.old }
    requires accepted { edit_fault (T.history tape.old).present.state (Edit.SetCell last cell) ≡ None }
    ensures { record { history = T.history tape.new; retention = T.retention tape.new }
        ≡ go_on_all (record { history = T.history tape.old; retention = T.retention tape.old })
        (fills (last - first) (first + 1) cell (T.history tape.old).present.state) }
{
    let mut address = first;
    while address < last {
        address += 1;
        tape.edit(Edit::SetCell(address, cell));
    }
}

/// Sets the cells from `from` to `to`, both included, one place each.
#[tactic(auto, using(crate::proofs::Turns::fault_kept, crate::proofs::Turns::fault_below))]
pub fn fill<T: Tape>(
    tape: &mut T,
    limit: u64,
    from: u64,
    to: u64,
    cell: Cell,
) -> Result<Standing, Refusal>
    ensures answer { IsOutcome (T.retention tape.old) limit (Call.Fill from to cell) (T.history tape.old) result (T.history tape.new)
        (T.retention tape.new) }
    ensures memory { result ≡ Err Refusal.OutOfMemory → T.room tape.old < cells_between from to }
{
    if from <= to && to - from >= COMMAND_LIMIT {
        return Err(Refusal::Count);
    }
    if to < from {
        return Err(Refusal::Address);
    }
    if let Some(fault) = tape.now().edit_fault(Edit::SetCell(to, cell)) {
        return Err(refusal(fault));
    }
    prepare(tape, limit, to - from + 1)?;
    tape.edit(Edit::SetCell(from, cell));
    fill_cells(tape, from, to, cell);
    tape.set_mark();
    Ok(standing(tape))
}
