//! Calls that don't allocate. Each test creates its objects, allocates one more time, and passes whether or not that
//! allocation and all later ones fail: dev/checks/memory lets all allocations from each one on fail. If the objects
//! themselves can't be allocated, there is nothing to check. Calls of the crates below are tested here, too.
use super::{BY_DEFAULT, LEAGUE, Narrow, row};
use mars_cell::{Mode, Modifier, Op, Params, Warrior, WriteFault, default_modifier, read_cell};
use mars_match::{Table, write_results};
use redcode_asm::Formula;
use redcode_text::ExprFault;
use std::alloc::Global;
use std::test::Fail;

/// Allocates once. In some runs this is the first allocation that fails.
fn ask(alloc: Global) {
    let _asked: Result<Vec<u64>, _> = Vec::with_capacity(alloc, 1);
}

/// Returns the table with the rows of `LEAGUE`.
fn league_table(alloc: Global) -> Option<Table> {
    let mut rows = Vec::with_capacity(alloc, 3).ok()?;
    for row in [
        row("Imp", "Dewdney", 4, [1, 1, 0]),
        row("Stay", "Anonymous", 4, [1, 1, 0]),
        row("Dead", "Anonymous", 0, [0, 0, 2]),
    ] {
        rows.push(row).ok()?;
    }
    Some(Table { rows })
}

#[test]
fn results_of_a_league(rt: HostRuntime) -> Result<(), Fail> {
    let Some(table) = league_table(rt.alloc()) else {
        return Ok(());
    };
    let Ok(bytes) = Vec::with_capacity(rt.alloc(), 1000) else {
        return Ok(());
    };
    let mut writer = Narrow {
        bytes,
        size: 7,
        room: LEAGUE.len(),
        idles: false,
    };
    ask(rt.alloc());
    assert_eq!(rt; write_results(&table, true, &mut writer), Ok(()));
    assert_eq!(rt; writer.bytes.as_slice(), LEAGUE.as_bytes());
    let full = write_results(&table, false, &mut writer);
    assert_eq!(rt; full, Err(WriteFault));
    Ok(())
}

#[test]
fn points_of_a_formula(rt: HostRuntime) -> Result<(), Fail> {
    let Ok(formula) = Formula::new(rt.alloc(), BY_DEFAULT.as_bytes()) else {
        return Ok(());
    };
    ask(rt.alloc());
    for (warriors, survivors, points) in [
        (3, 2, Ok(4)),
        (3, 0, Err(ExprFault::DivideByZero)),
        (4_000_000_000, 1, Err(ExprFault::Range)),
    ] {
        assert_eq!(rt; formula.score(warriors, survivors), points);
    }
    Ok(())
}

#[test]
fn parameters_cells_and_warriors(rt: HostRuntime) -> Result<(), Fail> {
    let Ok(mut cells) = Vec::with_capacity(rt.alloc(), 1) else {
        return Ok(());
    };
    ask(rt.alloc());
    let params = Params::new(80, 8, 10, 80, 80, 1, 5)?;
    let cell = read_cell(b"mov 0, -79", params.core_size()).ok_or("cell")?;
    assert_eq!(rt; cell.text(80).as_str(), "MOV.I $0, $1");
    let modifier = default_modifier(Op::Mov, Mode::Direct, Mode::Direct);
    assert_eq!(rt; modifier, Modifier::I);
    cells.push(cell)?;
    let (name, author) = (String::new(rt.alloc()), String::new(rt.alloc()));
    let warrior = Warrior::new(name, author, cells, 0)?;
    assert_eq!(rt;
        (warrior.name(), warrior.author(), warrior.start()),
        ("", "", 0)
    );
    assert_eq!(rt; warrior.cells(), [cell].as_slice());
    Ok(())
}
