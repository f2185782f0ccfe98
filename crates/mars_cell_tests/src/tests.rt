//! Cells, parameters, warriors and the texts of errors; and functions that the modules of tests share.
ghost use Rattle.std.specs.Prelude.{◌≡◌, IfOk};

use mars_cell::*;
use std::alloc::Global;
use std::test::Fail;

mod load_files;
mod memory;
mod no_memory;

fn cell(op: Op, modifier: Modifier, a_mode: Mode, a: u32, b_mode: Mode, b: u32) -> Cell
    ensures { result ≡ record { op = op; modifier = modifier; a_mode = a_mode; a = a; b_mode = b_mode; b = b } }
{
    Cell {
        op,
        modifier,
        a_mode,
        b_mode,
        a,
        b,
    }
}

/// Returns parameters with this core size and this maximum length.
fn sizes(core_size: u32, max_length: u32) -> Result<Params, ParamFault>
    ensures { IfOk result (λ params. params.core_size ≡ core_size) }
{
    Params::new(
        core_size, 8, 10, core_size, core_size, max_length, max_length,
    )
}

#[test]
fn fields_of_cells(rt: HostRuntime) {
    let empty = cell(Op::Dat, Modifier::F, Mode::Direct, 0, Mode::Direct, 0);
    assert_eq!(rt; [Cell::empty(), Cell::default()], [empty, empty]);
    let add = cell(Op::Add, Modifier::Ab, Mode::Immediate, 4, Mode::Direct, 3);
    let fields = [add.field(Field::ANumber), add.field(Field::BNumber)];
    let written = [
        add.with_field(Field::ANumber, 9).a,
        add.with_field(Field::BNumber, 9).b,
    ];
    assert_eq!(rt; (fields, written), ([4, 3], [9, 9]));
}

#[test]
fn texts_of_cells(rt: HostRuntime) {
    let rows = [
        (
            cell(Op::Mov, Modifier::I, Mode::Direct, 0, Mode::Direct, 1),
            "MOV.I $0, $1",
        ),
        (
            cell(
                Op::Mov,
                Modifier::Ab,
                Mode::APredecrement,
                4,
                Mode::APostincrement,
                5,
            ),
            "MOV.AB {4, }-3",
        ),
        (
            cell(
                Op::Seq,
                Modifier::Ba,
                Mode::AIndirect,
                1,
                Mode::BIndirect,
                7,
            ),
            "SEQ.BA *1, @-1",
        ),
        (
            cell(
                Op::Slt,
                Modifier::X,
                Mode::BPredecrement,
                2,
                Mode::BPostincrement,
                3,
            ),
            "SLT.X <2, >3",
        ),
    ];
    for (cell, text) in rows {
        assert!(rt; cell.a < 8);
        assert!(rt; cell.b < 8);
        assert!(rt; cell.text(8).as_str() == text);
        assert!(rt; read_cell(text.as_bytes(), 8) == Some(cell));
    }
}

#[test]
fn cells_read(rt: HostRuntime) {
    let mov = cell(
        Op::Mov,
        Modifier::I,
        Mode::Direct,
        4,
        Mode::BPredecrement,
        7,
    );
    let rows: [&[u8]; 5] = [
        b"MOV.I $4, <-1",
        b"\t mov . i 4 , < +7\r",
        b"Mov.I$12,<-000000000000000001",
        b"MOV 4,<7",
        b"MOV-4,<000000000000000015",
    ];
    for row in rows {
        assert!(rt; read_cell(row, 8) == Some(mov));
    }
    let bad: [&[u8]; 9] = [
        b"MOV.I4,5",
        b"MOV4,5",
        b"MOV 4",
        b"MOV 4,5,",
        b"MOV - 4, 5",
        b"MOV 0000000000000000004, 5",
        b"MOV 4, 5 ; a comment",
        b"MOV 4, 5\n",
        b"",
    ];
    for row in bad {
        assert!(rt; read_cell(row, 8).is_none());
    }
}

#[test]
fn default_modifiers(rt: HostRuntime) {
    let rows = [
        (Op::Dat, Mode::Direct, Mode::Direct, Modifier::F),
        (Op::Spl, Mode::Direct, Mode::Direct, Modifier::B),
        (Op::Seq, Mode::Direct, Mode::Immediate, Modifier::B),
        (Op::Nop, Mode::Direct, Mode::Direct, Modifier::F),
        (Op::Add, Mode::Immediate, Mode::Direct, Modifier::Ab),
        (Op::Mod, Mode::Direct, Mode::Direct, Modifier::F),
        (Op::Mov, Mode::Direct, Mode::BIndirect, Modifier::I),
        (Op::Slt, Mode::Immediate, Mode::Direct, Modifier::Ab),
        (Op::Slt, Mode::Direct, Mode::Direct, Modifier::B),
    ];
    for (op, a_mode, b_mode, modifier) in rows {
        assert_eq!(rt; default_modifier(op, a_mode, b_mode), modifier);
    }
}

/// Returns the parameters with these numbers, in order.
fn params_of(numbers: [u32; 7]) -> Result<Params, ParamFault> {
    let [core_size, processes, cycles, read, write, longest, distance] = numbers;
    Params::new(core_size, processes, cycles, read, write, longest, distance)
}

const PARAMETERS: [([u32; 7], Option<ParamFault>); 9] = [
    ([1_048_577, 1, 1, 1, 1, 1, 1], Some(ParamFault::CoreSize)),
    ([8, 65_537, 1, 1, 1, 1, 1], Some(ParamFault::Processes)),
    ([8, 1, 10_000_001, 1, 1, 1, 1], Some(ParamFault::Cycles)),
    ([8, 1, 1, 9, 1, 1, 1], Some(ParamFault::Limit)),
    ([8, 1, 1, 1, 9, 1, 1], Some(ParamFault::Limit)),
    ([8, 1, 1, 1, 1, 9, 9], Some(ParamFault::Length)),
    ([8, 1, 1, 1, 1, 3, 2], Some(ParamFault::Distance)),
    (
        [
            1_048_576, 65_536, 10_000_000, 1_048_576, 1_048_576, 1_048_576, 1_048_576,
        ],
        None,
    ),
    ([1, 1, 1, 1, 1, 1, 1], None),
];

#[test]
fn parameters(rt: HostRuntime) -> Result<(), Fail> {
    let params = Params::new(8000, 7000, 80_000, 600, 500, 100, 200)?;
    let sizes = [
        params.core_size(),
        params.read_limit(),
        params.write_limit(),
        params.max_length(),
        params.distance(),
    ];
    assert_eq!(rt; sizes, [8000, 600, 500, 100, 200]);
    assert_eq!(rt; (params.processes(), params.cycles()), (7000, 80_000));
    for (numbers, fault) in PARAMETERS {
        assert_eq!(rt; params_of(numbers).err(), fault);
    }
    Ok(())
}

/// Returns whether a warrior has these names, cells and start.
fn is_warrior(warrior: &Warrior, name: &str, author: &str, cells: &[Cell], start: u32) -> bool {
    (warrior.name(), warrior.author(), warrior.start()) == (name, author, start)
        && warrior.cells() == cells
}

/// Returns the error of making a warrior of these cells without names, if there is one.
fn nameless(alloc: Global, cells: &[Cell], start: u32) -> Result<Option<WarriorFault>, Fail> {
    let cells = Vec::from_slice(alloc, cells)?;
    let warrior = Warrior::new(String::new(alloc), String::new(alloc), cells, start);
    Ok(warrior.err())
}

fn two_jumps(alloc: Global) -> Result<Warrior, Fail> {
    let jmp = cell(Op::Jmp, Modifier::B, Mode::Direct, 0, Mode::Direct, 0);
    let name = String::from_str(alloc, "Two Jumps ~")?;
    let author = String::from_str(alloc, "")?;
    let cells = Vec::from_slice(alloc, &[jmp, jmp])?;
    Ok(Warrior::new(name, author, cells, 1)?)
}

fn are_two_jumps(warrior: &Warrior) -> bool {
    let jmp = cell(Op::Jmp, Modifier::B, Mode::Direct, 0, Mode::Direct, 0);
    is_warrior(warrior, "Two Jumps ~", "", &[jmp, jmp], 1)
}

#[test]
fn warriors(rt: HostRuntime) -> Result<(), Fail> {
    let alloc = rt.alloc();
    let warrior = two_jumps(alloc)?;
    let copy = warrior.copy()?;
    assert!(rt; are_two_jumps(&warrior));
    assert!(rt; are_two_jumps(&copy));
    drop(warrior);
    drop(copy);
    let jmp = cell(Op::Jmp, Modifier::B, Mode::Direct, 0, Mode::Direct, 0);
    assert_eq!(rt; nameless(alloc, &[], 0)?, Some(WarriorFault::Empty));
    assert_eq!(rt; nameless(alloc, &[jmp], 1)?, Some(WarriorFault::BadOrigin));
    Ok(())
}

const PARAM_FAULTS: [(ParamFault, &str); 6] = [
    (ParamFault::CoreSize, "1 CoreSize"),
    (ParamFault::Processes, "2 Processes"),
    (ParamFault::Cycles, "3 Cycles"),
    (ParamFault::Limit, "4 Limit"),
    (ParamFault::Length, "5 Length"),
    (ParamFault::Distance, "6 Distance"),
];

const LOAD_FAULTS: [(LoadFault, &str); 6] = [
    (LoadFault::Syntax(7), "1 Syntax"),
    (LoadFault::TooLong, "2 TooLong"),
    (LoadFault::Empty, "3 Empty"),
    (LoadFault::BadOrigin, "4 BadOrigin"),
    (LoadFault::OutOfMemory, "5 OutOfMemory"),
    (LoadFault::Version, "6 Version"),
];

#[test]
fn parameter_faults_displayed(rt: HostRuntime) -> Result<(), Fail> {
    for (fault, text) in PARAM_FAULTS {
        assert_eq!(rt; format!(in rt.alloc(); "{fault}")?.as_str(), text);
    }
    Ok(())
}

#[test]
fn load_faults_displayed(rt: HostRuntime) -> Result<(), Fail> {
    for (fault, text) in LOAD_FAULTS {
        assert_eq!(rt; format!(in rt.alloc(); "{fault}")?.as_str(), text);
    }
    Ok(())
}

#[test]
fn warrior_faults_displayed(rt: HostRuntime) -> Result<(), Fail> {
    let empty = format!(in rt.alloc(); "{}", WarriorFault::Empty)?;
    let outside = format!(in rt.alloc(); "{}", WarriorFault::BadOrigin)?;
    assert_eq!(rt; empty.as_str(), "1 Empty");
    assert_eq!(rt; outside.as_str(), "2 BadOrigin");
    Ok(())
}
