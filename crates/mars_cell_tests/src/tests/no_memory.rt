//! Calls that do not allocate. Each test creates its objects, allocates again, and passes whether or not that
//! allocation and all later ones fail; dev/checks/memory lets all allocations from each one on fail. If the objects
//! themselves cannot be allocated, the test checks nothing.
ghost use Rattle.std.specs.Prelude.{IfSome, string_bytes};
ghost use Rattle.mars_cell.specs.Warriors.{IsName};

use super::{cell, sizes};
use mars_cell::{
    Cell, Mode, Modifier, Op, ParamFault, Params, Warrior, WarriorFault, default_modifier,
    read_cell, read_modifier, read_op, residue,
};
use std::alloc::Global;
use std::test::Fail;

/// Allocates once. In some runs, this allocation is the first that fails.
fn ask(alloc: Global) {
    let _asked: Result<Vec<u64>, _> = Vec::with_capacity(alloc, 1);
}

#[test]
fn words_and_cells(rt: HostRuntime) {
    ask(rt.alloc());
    let add = cell(Op::Add, Modifier::Ab, Mode::Immediate, 4, Mode::Direct, 3);
    assert!(rt; add.text(8).as_str() == "ADD.AB #4, $3");
    assert!(rt; read_cell(b"ADD.AB #4, $3", 8) == Some(add));
    assert!(rt; read_cell(b"ADD.AB #4", 8).is_none());
    assert_eq!(rt; (residue(-9, 8), residue(17, 8)), (7, 1));
    assert!(rt; read_op(b"Add") == Some(Op::Add));
    assert!(rt; read_modifier(b"aB") == Some(Modifier::Ab));
    assert_eq!(rt;
        default_modifier(Op::Add, Mode::Immediate, Mode::Direct),
        Modifier::Ab
    );
}

#[test]
fn parameters(rt: HostRuntime) -> Result<(), Fail> {
    ask(rt.alloc());
    assert_eq!(rt; sizes(8, 4)?.core_size(), 8);
    let fault = Params::new(8, 1, 1, 9, 1, 1, 1).err();
    assert_eq!(rt; fault, Some(ParamFault::Limit));
    Ok(())
}

/// Returns `len` empty cells, or `None` if they can't be allocated.
fn idle(alloc: Global, len: usize) -> Option<Vec<Cell>> {
    let mut cells = Vec::with_capacity(alloc, len).ok()?;
    for _ in 0..len {
        cells.push(Cell::empty()).ok()?;
    }
    Some(cells)
}

/// Returns the name `Ann`, or `None` if it can't be allocated.
fn ann(alloc: Global) -> Option<String>
    ensures { IfSome result (λ name. IsName (string_bytes name)) }
{
    match String::from_str(alloc, "Ann") {
        Ok(name) => Some(name),
        Err(_) => None,
    }
}

/// Calls `ask` and returns a warrior by Ann, or the error of making it. Returns `None` if the parts of the warrior
/// can't be allocated.
fn anns(alloc: Global, len: usize, start: u32) -> Option<Result<Warrior, WarriorFault>> {
    let (Some(name), Some(author), Some(cells)) = (ann(alloc), ann(alloc), idle(alloc, len)) else {
        return None;
    };
    ask(alloc);
    Some(Warrior::new(name, author, cells, start))
}

/// Returns whether the result is a warrior by Ann with this length and start, or this error.
fn is_as_expected(
    found: &Result<Warrior, WarriorFault>,
    len: usize,
    start: u32,
    fault: Option<WarriorFault>,
) -> bool {
    match found {
        Ok(warrior) => {
            fault.is_none()
                && (warrior.name(), warrior.author()) == ("Ann", "Ann")
                && (warrior.cells().len(), warrior.start()) == (len, start)
        }
        Err(found) => Some(*found) == fault,
    }
}

#[test]
fn warriors(rt: HostRuntime) {
    for (len, start, fault) in [
        (2, 1, None),
        (2, 2, Some(WarriorFault::BadOrigin)),
        (0, 0, Some(WarriorFault::Empty)),
    ] {
        if let Some(found) = anns(rt.alloc(), len, start) {
            assert!(rt; is_as_expected(&found, len, start, fault));
        }
    }
}
