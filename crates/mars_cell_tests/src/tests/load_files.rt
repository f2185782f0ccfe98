//! Load files of both versions.
ghost use Rattle.std.specs.Prelude.{◌≤◌};

use super::{cell, is_warrior, sizes};
use mars_cell::*;
use std::alloc::Global;
use std::process::Abort;
use std::test::Fail;

#[test]
fn a_load_file(rt: HostRuntime) -> Result<(), Fail> {
    let alloc = rt.alloc();
    let dwarf =
        b"; a dwarf\nORG 1 ; here\n\n ADD.AB #4, $3\nmov 2, @2\nJMP -2, 0\ndat #0,#0\nEND 9\nthis is prose";
    let params = sizes(8000, 100)?;
    let cells = [
        cell(Op::Add, Modifier::Ab, Mode::Immediate, 4, Mode::Direct, 3),
        cell(Op::Mov, Modifier::I, Mode::Direct, 2, Mode::BIndirect, 2),
        cell(Op::Jmp, Modifier::B, Mode::Direct, 7998, Mode::Direct, 0),
        cell(Op::Dat, Modifier::F, Mode::Immediate, 0, Mode::Immediate, 0),
    ];
    let warrior = read_load(alloc, dwarf, &params)?;
    let is_it = is_warrior(&warrior, "Unknown", "Anonymous", &cells, 1);
    drop(warrior);
    assert!(rt; is_it);
    Ok(())
}

/// Load files, each with the length and the start of its warrior.
const FILES: [(&[u8], usize, u32); 8] = [
    (b"NOP 0, 0", 1, 0),
    (b"ORG 0\nORG 1\nNOP 0, 0\nNOP 0, 0\n", 2, 1),
    (b"NOP 0, 0\nNOP 0, 0\nEND 1\nMOV 0", 2, 1),
    (b"oRg 0\nNOP 0, 0\neNd 9", 1, 0),
    (b"ORG 999999999999999999\nNOP 0, 0\nORG -0", 1, 0),
    (b";load it\nNOP 0, 0", 1, 0),
    (b"\n\x00\x1f \t\r\nNOP\x010,0\r\n;;\xff\n", 1, 0),
    (b"ORG 000000000000000001\nNOP 0,0\nNOP 0,0", 2, 1),
];

/// Returns the length and the start of the warrior of a load file.
fn length_and_start(alloc: Global, text: &[u8], params: &Params) -> Option<(usize, u32)> {
    let warrior = read_load(alloc, text, params).ok()?;
    let found = (warrior.cells().len(), warrior.start());
    drop(warrior);
    Some(found)
}

#[test]
fn loaded(rt: HostRuntime) -> Result<(), Fail> {
    let params = sizes(8, 2)?;
    for (text, len, start) in FILES {
        let found = length_and_start(rt.alloc(), text, &params);
        assert_eq!(rt; found, Some((len, start)));
    }
    Ok(())
}

/// Returns the error of a load file, if it has one.
fn load_fault(alloc: Global, text: &[u8], params: &Params) -> Option<LoadFault> {
    read_load(alloc, text, params).err()
}

/// Checks that each load file has the error next to it.
fn check_faults(
    rt: &impl Abort,
    alloc: Global,
    core_size: u32,
    rows: &[(&[u8], LoadFault)],
) -> Result<(), Fail> {
    let params = sizes(core_size, 2)?;
    for (text, fault) in rows {
        assert_eq!(rt; load_fault(alloc, text, &params), Some(*fault));
    }
    Ok(())
}

#[test]
fn load_faults(rt: HostRuntime) -> Result<(), Fail> {
    check_faults(&rt, rt.alloc(), 8, &BAD_FILES)
}

const BAD_FILES: [(&[u8], LoadFault); 17] = [
    (b"MOV 0", LoadFault::Syntax(1)),
    (b"NOP 0,0\n\nMOV 0\nORG", LoadFault::Syntax(3)),
    (b"NOP 0,0\nORG0", LoadFault::Syntax(2)),
    (b"MOV0,1", LoadFault::Syntax(1)),
    (b"MOV.I0,1", LoadFault::Syntax(1)),
    (b"NOP 0,0\nORG 1000000000000000000", LoadFault::Syntax(2)),
    (b"NOP 0,0 0\n", LoadFault::Syntax(1)),
    (
        b"NOP 0,0\nNOP 0,0\nNOP 0,0\n\nEND -\n",
        LoadFault::Syntax(5),
    ),
    (b"\x7f", LoadFault::Syntax(1)),
    (b"NOP 0,0\nNOP 0,0\nNOP 0,0", LoadFault::TooLong),
    (b"ORG 9\nNOP 0,0\nNOP 0,0\nNOP 0,0", LoadFault::TooLong),
    (b"", LoadFault::Empty),
    (b"\n;\nORG 5", LoadFault::Empty),
    (b"END 0;\nNOP 0, 0", LoadFault::Empty),
    (b"ORG 1\nNOP 0,0", LoadFault::BadOrigin),
    (b"ORG-1\nNOP 0,0", LoadFault::BadOrigin),
    (b"NOP 0,0\nEND 4294967296", LoadFault::BadOrigin),
];

/// Returns whether a warrior has these names and a single cell, `MOV.I $0` to `number`.
fn is_mover(warrior: &Warrior, name: &str, author: &str, number: u32) -> bool {
    let mov = cell(Op::Mov, Modifier::I, Mode::Direct, 0, Mode::Direct, number);
    is_warrior(warrior, name, author, &[mov], 0)
}

#[test]
fn named_load_files(rt: HostRuntime) -> Result<(), Fail> {
    let alloc = rt.alloc();
    let params = sizes(8000, 2)?;
    let sixty = "  Sixty bytes; a name keeps each blank and each semicolon  ~";
    assert_eq!(rt; sixty.len(), 60);
    let rows: [(&[u8], &str, &str, u32); 7] = [
        (
            b";load 2 8\n;name Imp\n;author Dewdney\nORG 0\nMOV.I $0, $7\n",
            "Imp",
            "Dewdney",
            7999,
        ),
        (b"ORG 0\nMOV.I $0, $7\n", "Unknown", "Anonymous", 7),
        (
            b";load 2 8000\n;name  An ; imp \n;author \n\nMOV 0, -1 ; back\nEND\nprose",
            " An ; imp ",
            "",
            7999,
        ),
        (
            b";load 2 1048576\n;name   Sixty bytes; a name keeps each blank and each semicolon  ~\n;author   Sixty bytes; a name keeps each blank and each semicolon  ~\nMOV 0, 1048575",
            sixty,
            sixty,
            7999,
        ),
        (b";load 2 1\n;name \n;author ~\nMOV 0, 1", "", "~", 0),
        (b";load it\nMOV 0, 7", "Unknown", "Anonymous", 7),
        (
            b" ;load 2 8\n;LOAD 3 8\n;load  2 8\nMOV 0, 7",
            "Unknown",
            "Anonymous",
            7,
        ),
    ];
    for (text, name, author, number) in rows {
        let warrior = read_load(alloc, text, &params)?;
        assert!(rt; is_mover(&warrior, name, author, number));
        drop(warrior);
    }
    Ok(())
}

#[test]
fn faults_of_heads(rt: HostRuntime) -> Result<(), Fail> {
    check_faults(&rt, rt.alloc(), 8000, &BAD_HEADS)
}

const BAD_HEADS: [(&[u8], LoadFault); 24] = [
    (b";load 3 8000\nNOP 0, 0", LoadFault::Version),
    (b";load 1 8000\nNOP 0, 0", LoadFault::Version),
    (b";load 20 8\nNOP 0, 0", LoadFault::Version),
    (b";load 02 8\nNOP 0, 0", LoadFault::Version),
    (b";load 2  8\nx", LoadFault::Version),
    (b";load 2\t8\nx", LoadFault::Version),
    (b";load 2 8 \nx", LoadFault::Version),
    (b";load 2 8\r\nx", LoadFault::Version),
    (b";load 2 8 9\nx", LoadFault::Version),
    (b";load 2 08\nx", LoadFault::Version),
    (b";load 2 0\nx", LoadFault::Version),
    (b";load 2 +8\nx", LoadFault::Version),
    (b";load 2 1048577\nx", LoadFault::Version),
    (b";load 2 4294967304\nx", LoadFault::Version),
    (b";load 2 18446744073709551624\nx", LoadFault::Version),
    (
        b";load 2 8\n;author Dewdney\nORG 0\nMOV.I $0, $7",
        LoadFault::Syntax(2),
    ),
    (
        b";load 2 8\n;name Imp\r\n;author Dewdney\nMOV 0, 1",
        LoadFault::Syntax(2),
    ),
    (
        b";load 2 8\n;name \x7f\n;author Dewdney\nMOV 0, 1",
        LoadFault::Syntax(2),
    ),
    (
        b";load 2 8\n;name This name is longer than the longest one there is, by a byte.\n;author\nx",
        LoadFault::Syntax(2),
    ),
    (b";load 2 8\n;Name Imp\n;author x\nx", LoadFault::Syntax(2)),
    (b";load 2 8\n ;name Imp\n;author x\nx", LoadFault::Syntax(2)),
    (
        b";load 2 8\n;name Imp\n;author D\xc3\xa9\nMOV 0, 1",
        LoadFault::Syntax(3),
    ),
    (
        b";load 2 8\n;name Imp\n;author Dewdney\nORG 9\n;name x\nx",
        LoadFault::Syntax(6),
    ),
    (
        b";load 2 8\n;name Imp\n;author Dewdney\nORG 8\nMOV 0, 1",
        LoadFault::BadOrigin,
    ),
];

/// Checks the error of each prefix of a load file.
#[test]
fn beginnings_of_a_load_file(rt: HostRuntime) -> Result<(), Fail> {
    let alloc = rt.alloc();
    let params = sizes(8000, 2)?;
    let file = b";load 2 80\n;name Imp\n;author Dewdney\nMOV.I $0, $79\n".as_slice();
    assert_eq!(rt; file.len(), 51);
    for length in 0..=51 {
        let fault = match length {
            // `;load ` without a digit is a comment.
            0..=6 => Some(LoadFault::Empty),
            // `;load 2 ` states no core size.
            7..=8 => Some(LoadFault::Version),
            // `;load 2 8` states one, but `;name` lacks its space.
            9..=16 => Some(LoadFault::Syntax(2)),
            // `;name ` is complete, but `;author` lacks its space.
            17..=28 => Some(LoadFault::Syntax(3)),
            // The header is complete, and there are no cells.
            29..=37 => Some(LoadFault::Empty),
            // `MOV.I $0, $` is not a cell.
            38..=48 => Some(LoadFault::Syntax(4)),
            // `MOV.I $0, $7` is a cell.
            _ => None,
        };
        let (front, _) = file.split_at(length);
        assert_eq!(rt; load_fault(alloc, front, &params), fault);
    }
    Ok(())
}

const DWARF: &[u8] =
    b";load 2 8000\n;name Dwarf; \n;author A. K. Dewdney\nORG 1\nADD.AB #4, $3\nMOV.I $2, @2\nJMP.B $-2, $0\nDAT.F #0, #0\n";

/// Returns the load file of a dwarf.
fn written(alloc: Global) -> Result<Vec<u8>, Fail> {
    let cells = vec![in alloc;
        cell(Op::Add, Modifier::Ab, Mode::Immediate, 4, Mode::Direct, 3),
        cell(Op::Mov, Modifier::I, Mode::Direct, 2, Mode::BIndirect, 2),
        cell(Op::Jmp, Modifier::B, Mode::Direct, 7998, Mode::Direct, 0),
        cell(Op::Dat, Modifier::F, Mode::Immediate, 0, Mode::Immediate, 0),
    ]?;
    let name = String::from_str(alloc, "Dwarf; ")?;
    let author = String::from_str(alloc, "A. K. Dewdney")?;
    let warrior = Warrior::new(name, author, cells, 1)?;
    let text = write_load(alloc, &warrior, 8000);
    drop(warrior);
    Ok(text?)
}

/// Returns whether a warrior is the dwarf in a core of this size.
fn is_dwarf(warrior: &Warrior, core_size: u32) -> bool
    requires { 2 ≤ core_size }
{
    let back = core_size - 2;
    let jump = cell(Op::Jmp, Modifier::B, Mode::Direct, back, Mode::Direct, 0);
    (warrior.name(), warrior.author()) == ("Dwarf; ", "A. K. Dewdney")
        && (warrior.cells().len(), warrior.start()) == (4, 1)
        && warrior.cells().get(2) == Some(&jump)
}

#[test]
fn written_load_file(rt: HostRuntime) -> Result<(), Fail> {
    let alloc = rt.alloc();
    let text = written(alloc)?;
    assert!(rt; text.as_slice() == DWARF);
    drop(text);
    for core_size in [8000, 800, 4] {
        let again = read_load(alloc, DWARF, &sizes(core_size, 4)?)?;
        assert!(rt; is_dwarf(&again, core_size));
        drop(again);
    }
    Ok(())
}
