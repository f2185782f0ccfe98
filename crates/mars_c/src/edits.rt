//! Edits as numbers.
ghost use Rattle.std.specs.Prelude.{IfErr, IfNone, IfOk, IfSome};
ghost use Rattle.std.specs.List.{AllZip};
ghost use Rattle.mars_core.specs.declared.battle.edit.Edit.{Edit as EditValue};
ghost use Rattle.mars_c.specs.Blocks.{IsNoEdit, Means};

use crate::cells::{MarsCell, cell_of};
use crate::faults::BlockRefusal;
use mars_core::Edit;
use std::alloc::Global;

/// An edit of a battle. Each kind of edit reads only the fields that it needs.
#[repr(C)]
#[derive(Clone, Copy)]
pub struct MarsEdit {
    /// Kind of edit: 1 sets a cell, 2 moves a process, 3 kills a process, 4 adds a process.
    pub what: u32,
    /// Warrior of the process, for kinds 2, 3 and 4.
    pub warrior: u32,
    /// Index of the process in its queue, from 0 at the front, for kinds 2 and 3.
    pub place: u32,
    /// Address of the cell, or new address of the process, for kinds 1, 2 and 4.
    pub address: u32,
    /// New cell, for kind 1.
    pub cell: MarsCell,
}

/// Returns the edit that the numbers mean, or `None` if they mean none.
pub fn edit_of(numbers: &MarsEdit) -> Option<Edit>
    ensures some { IfSome result (Means numbers.now) }
    ensures none { IfNone result ((edit : EditValue) → Means numbers.now edit → ⊥) }
{
    let (warrior, place, address) = (
        u64::from(numbers.warrior),
        u64::from(numbers.place),
        u64::from(numbers.address),
    );
    match numbers.what {
        1 => match cell_of(&numbers.cell) {
            Some(cell) => Some(Edit::SetCell(address, cell)),
            None => None,
        },
        2 => Some(Edit::MoveProcess(warrior, place, address)),
        3 => Some(Edit::KillProcess(warrior, place)),
        4 => Some(Edit::Spawn(warrior, address)),
        _ => None,
    }
}

/// Returns the edits that the numbers mean.
///
/// # Errors
///
/// - `NoSuchEdit` with the index of the first numbers that mean no edit
/// - `OutOfMemory` if an allocation fails
pub fn edits_of(alloc: Global, numbers: &[MarsEdit]) -> Result<Vec<Edit>, BlockRefusal>
    ensures edits { IfOk result (λ edits. AllZip Means numbers.now edits.items) }
    ensures refused { IfErr result (IsNoEdit numbers.now) }
{
    let mut edits = Vec::new(alloc);
    for i in 0..numbers.len() {
        let Some(edit) = edit_of(&numbers[i]) else {
            return Err(BlockRefusal::NoSuchEdit(i));
        };
        if edits.push(edit).is_err() {
            return Err(BlockRefusal::OutOfMemory);
        }
    }
    Ok(edits)
}
