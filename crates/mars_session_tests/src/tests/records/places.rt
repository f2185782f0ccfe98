//! The records between places, as a tape returns them.
use super::{Turn, one_turn};
use crate::tests::{COPIER, IDLE, lone_tape};
use mars_core::{Edit, Work};
use mars_session::{DeltaTape, Tape};
use std::process::Abort;
use std::test::Fail;

/// Makes an edit, and goes back over it and the turn before it.
fn edit_and_back(tape: &mut DeltaTape) -> Result<(), Fail> {
    tape.cut();
    tape.reserve(1)?;
    let edit = Edit::SetCell(7, IDLE);
    if tape.now().edit_fault(edit).is_some() {
        return Err("edit".into());
    }
    tape.edit(edit);
    tape.back();
    tape.back();
    Ok(())
}

/// Checks that the records are those of a turn and of an edit.
fn check_records(rt: &impl Abort, tape: &DeltaTape) -> Result<(), Fail> {
    let first = tape.atom(0).ok_or("a record")?;
    assert_eq!(rt; first.work, Work::Turn(0, 0));
    assert_eq!(rt; first.cells.len(), 1);
    let second = tape.atom(1).ok_or("a record")?;
    assert_eq!(rt; second.work, Work::SetCell);
    assert!(rt; tape.atom(2).is_none());
    Ok(())
}

/// A tape of records has a record for each place after the first, also for the places after the present one.
#[test]
fn records_between_places(rt: HostRuntime) -> Result<(), Fail> {
    let mut tape = one_turn(lone_tape(rt.alloc(), 8, &[COPIER])?)?;
    edit_and_back(&mut tape)?;
    check_records(&rt, &tape)
}
