//! The text of results, and writers that fail.
ghost use Rattle.std.specs.Prelude.{◌-◌};

use super::{LEAGUE, Narrow, row, writer_of, written};
use mars_cell::WriteFault;
use mars_match::Table;
use std::alloc::Global;
use std::process::Abort;
use std::test::Fail;

/// Checks that a writer with enough room accepts these results.
fn check_results(rt: &impl Abort, table: &Table, sorted: bool, writer: Narrow, expected: &str) {
    let (text, done) = written(table, sorted, writer);
    assert_eq!(rt; done, Ok(()));
    assert_eq!(rt; text.as_slice(), expected.as_bytes());
}

#[test]
fn texts_of_results(rt: HostRuntime) -> Result<(), Fail> {
    let alloc = rt.alloc();
    let rows = vec![in alloc;
        row("Dead", "Anonymous", 0, [0, 0, 2]),
        row("Imp", "Dewdney", 4, [1, 1, 0]),
        row("Stay", "Anonymous", 4, [1, 1, 0]),
    ]?;
    let table = Table { rows };
    let loaded = "  points   wins   ties losses  warrior
       0      0      0      2  Dead by Anonymous
       4      1      1      0  Imp by Dewdney
       4      1      1      0  Stay by Anonymous
";
    check_results(
        &rt,
        &table,
        true,
        writer_of(alloc, 1000, 1000, false),
        LEAGUE,
    );
    check_results(&rt, &table, false, writer_of(alloc, 7, 1000, false), loaded);
    drop(table);
    Ok(())
}

#[test]
fn wide_results(rt: HostRuntime) -> Result<(), Fail> {
    let alloc = rt.alloc();
    let rows = vec![in alloc;
        row("A", "", i64::MIN, [1000000, 0, 0]),
        row("B", "C", 123456789, [0, 0, u64::MAX]),
    ]?;
    let table = Table { rows };
    let wide = "  points   wins   ties losses  warrior
123456789      0      0 18446744073709551615  B by C
-9223372036854775808 1000000      0      0  A by \n";
    check_results(&rt, &table, true, writer_of(alloc, 1000, 1000, false), wide);
    drop(table);
    Ok(())
}

/// Checks that a writer that fails at any byte has accepted exactly the bytes before it.
fn check_failing(
    rt: &impl Abort,
    alloc: Global,
    table: &Table,
    (size, sorted, idles): (usize, bool, bool),
) {
    let all = LEAGUE.as_bytes();
    for room in 0..all.len() {
        let (text, done) = written(table, sorted, writer_of(alloc, size, room, idles));
        assert_eq!(rt; done, Err(WriteFault), "room for {room}");
        assert_eq!(rt; text.as_slice(), &all[..room], "room for {room}");
    }
    let (text, done) = written(table, sorted, writer_of(alloc, size, all.len(), idles));
    assert_eq!(rt; done, Ok(()));
    assert_eq!(rt; text.as_slice(), all);
}

#[test]
fn failing_writers(rt: HostRuntime) -> Result<(), Fail> {
    let alloc = rt.alloc();
    let rows = vec![in alloc;
        row("Imp", "Dewdney", 4, [1, 1, 0]),
        row("Stay", "Anonymous", 4, [1, 1, 0]),
        row("Dead", "Anonymous", 0, [0, 0, 2]),
    ]?;
    let table = Table { rows };
    check_failing(&rt, alloc, &table, (1000, false, false));
    check_failing(&rt, alloc, &table, (3, true, false));
    check_failing(&rt, alloc, &table, (1, true, true));
    drop(table);
    Ok(())
}
