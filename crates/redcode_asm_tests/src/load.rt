//! The load files of sources.
use mars_cell::{Params, Warrior, read_load};
use redcode_asm::{AsmFault, AsmProblem, assemble, assemble_load};
use std::alloc::Global;
use std::test::Fail;

/// A source with a name and an author, EQU, a label and a start.
const SOURCE: &[u8] =
    b";redcode-94\n;name  Dwarf; 1 \n;author A. K. Dewdney\nstep EQU 4\nORG go\nbomb DAT 0, 0\ngo ADD #step, bomb\nMOV bomb, @bomb\nJMP go\n";

fn of_core(core_size: u32) -> Result<Params, Fail> {
    let params = Params::new(core_size, 8, 10, core_size, core_size, 4, 4)
        .ok()
        .ok_or("parameters")?;
    Ok(params)
}

/// Returns whether `text` is the load file of a source, for the given numbers of rounds and warriors.
fn is_file_of(
    alloc: Global,
    source: &[u8],
    params: &Params,
    (rounds, warriors): (u32, u32),
    text: &[u8],
) -> Result<bool, Fail> {
    let file = assemble_load(alloc, source, params, rounds, warriors)?;
    let is_it = file.as_slice() == text;
    drop(file);
    Ok(is_it)
}

#[test]
fn load_files_of_sources(rt: HostRuntime) -> Result<(), Fail> {
    let dwarf =
        b";load 2 8000\n;name Dwarf; 1\n;author A. K. Dewdney\nORG 1\nDAT.F $0, $0\nADD.AB #4, $-1\nMOV.I $-2, @-2\nJMP.B $-2, $0\n";
    assert!(rt; is_file_of(rt.alloc(), SOURCE, &of_core(8000)?, (1, 1), dwarf)?);
    let counts = b"NOP WARRIORS, ROUNDS";
    let nameless = b";load 2 80\n;name Unknown\n;author Anonymous\nORG 0\nNOP.F $3, $2\n";
    assert!(rt; is_file_of(rt.alloc(), counts, &of_core(80)?, (2, 3), nameless)?);
    Ok(())
}

/// Returns the warrior that is read from the load file of `SOURCE`.
fn read_back(alloc: Global, params: &Params) -> Result<Warrior, Fail> {
    let file = assemble_load(alloc, SOURCE, params, 1, 1)?;
    let warrior = read_load(alloc, &file, params);
    drop(file);
    Ok(warrior?)
}

fn are_same(one: &Warrior, other: &Warrior) -> bool {
    (one.name(), one.author(), one.start()) == (other.name(), other.author(), other.start())
        && one.cells() == other.cells()
}

#[test]
fn sources_are_read_back(rt: HostRuntime) -> Result<(), Fail> {
    let params = of_core(8000)?;
    let again = read_back(rt.alloc(), &params)?;
    let warrior = assemble(rt.alloc(), SOURCE, &params, 1, 1)?;
    let are_same = are_same(&again, &warrior);
    drop(again);
    drop(warrior);
    assert!(rt; are_same);
    Ok(())
}

#[test]
fn faults_of_sources(rt: HostRuntime) -> Result<(), Fail> {
    let alloc = rt.alloc();
    let params = of_core(8000)?;
    let rows = [
        (b"".as_slice(), 0, AsmProblem::Empty),
        (b"NOP\nSTP 1".as_slice(), 2, AsmProblem::Operation),
        (
            b"NOP\nNOP\nNOP\nNOP\nNOP".as_slice(),
            5,
            AsmProblem::TooLong,
        ),
        (b"NOP\nORG 1".as_slice(), 2, AsmProblem::BadOrigin),
        (b";assert 0\nNOP".as_slice(), 1, AsmProblem::AssertFailed),
    ];
    for (source, line, problem) in rows {
        let found = assemble_load(alloc, source, &params, 1, 1)
            .err()
            .ok_or("fault")?;
        assert_eq!(rt; (found.line, found.problem), (line, problem));
    }
    Ok(())
}
