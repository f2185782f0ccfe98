//! Calls whose allocations fail. dev/checks/memory lets each allocation of a test fail in turn. Each test must pass
//! whichever allocation fails, since a second try has memory.
ghost use Rattle.std.specs.Prelude.{All, IfOk};
ghost use Rattle.mars_cell.specs.Cells.{FitsCore};

use super::{cell, is_warrior, sizes};
use mars_cell::{LoadFault, Mode, Modifier, Op, Warrior, read_load, write_load};
use std::alloc::Global;
use std::test::Fail;

const FILE: &[u8] = b";load 2 8\n;name Jumper\n;author A\nORG 1\nNOP.F $0, $0\nJMP.B $-1, $0\n";

/// The statements of `FILE` as a file of version 1.
const NAMELESS: &[u8] = b"ORG 1\nNOP.F $0, $0\nJMP.B $-1, $0\n";

/// Returns the warrior of `FILE`.
fn jumper(alloc: Global) -> Result<Warrior, Fail>
    ensures { IfOk result (λ warrior. All (FitsCore 8) warrior.cells) }
{
    let params = sizes(8, 4)?;
    match read_load(alloc, FILE, &params) {
        Ok(warrior) => Ok(warrior),
        Err(_) => Ok(read_load(alloc, FILE, &params)?),
    }
}

/// Returns whether a warrior has these names, and the cells and the start of `FILE`.
fn is_jumper(warrior: &Warrior, name: &str, author: &str) -> bool {
    let cells = [
        cell(Op::Nop, Modifier::F, Mode::Direct, 0, Mode::Direct, 0),
        cell(Op::Jmp, Modifier::B, Mode::Direct, 7, Mode::Direct, 0),
    ];
    is_warrior(warrior, name, author, &cells, 1)
}

#[test]
fn a_load_file_is_read(rt: HostRuntime) -> Result<(), Fail> {
    let alloc = rt.alloc();
    let params = sizes(8, 4)?;
    let warrior = match read_load(alloc, FILE, &params) {
        Ok(warrior) => warrior,
        Err(fault) => {
            assert_eq!(rt; fault, LoadFault::OutOfMemory);
            read_load(alloc, FILE, &params)?
        }
    };
    let is_it = is_jumper(&warrior, "Jumper", "A");
    drop(warrior);
    assert!(rt; is_it);
    Ok(())
}

#[test]
fn a_nameless_load_file_is_read(rt: HostRuntime) -> Result<(), Fail> {
    let alloc = rt.alloc();
    let params = sizes(8, 4)?;
    let warrior = match read_load(alloc, NAMELESS, &params) {
        Ok(warrior) => warrior,
        Err(fault) => {
            assert_eq!(rt; fault, LoadFault::OutOfMemory);
            read_load(alloc, NAMELESS, &params)?
        }
    };
    let is_it = is_jumper(&warrior, "Unknown", "Anonymous");
    drop(warrior);
    assert!(rt; is_it);
    Ok(())
}

#[test]
fn a_load_file_is_written(rt: HostRuntime) -> Result<(), Fail> {
    let alloc = rt.alloc();
    let warrior = jumper(alloc)?;
    let text = match write_load(alloc, &warrior, 8) {
        Ok(text) => text,
        Err(_) => write_load(alloc, &warrior, 8)?,
    };
    assert!(rt; text.as_slice() == FILE);
    Ok(())
}

#[test]
fn a_warrior_is_copied(rt: HostRuntime) -> Result<(), Fail> {
    let warrior = jumper(rt.alloc())?;
    let copy = match warrior.copy() {
        Ok(copy) => copy,
        Err(_) => warrior.copy()?,
    };
    let are_it = is_jumper(&warrior, "Jumper", "A") && is_jumper(&copy, "Jumper", "A");
    drop(warrior);
    drop(copy);
    assert!(rt; are_it);
    Ok(())
}
