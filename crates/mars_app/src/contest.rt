//! Matches and leagues: the listing of the warriors, the match itself, and its results.
ghost use Rattle.std.specs.Prelude.{◌≡◌, ◌≤◌, ◌++◌, All, IfErr, List, Ok, OnOk, length};
ghost use Rattle.std.specs.Io.KnownBytes.{Appends};
ghost use Rattle.mars_cell.specs.Cells.{FitsCore};
ghost use Rattle.mars_cell.specs.Limits.{max_core_size};
ghost use Rattle.mars_cell.specs.Written.{load_text};
ghost use Rattle.mars_match.specs.CallResults.{IsResult};
ghost use Rattle.mars_match.specs.Results.{results_text};
ghost use Rattle.mars_match.specs.Tables.{RowValue};
ghost use Rattle.mars_match.specs.declared.table.Table.{Table};
ghost use Rattle.mars_cell.specs.Output.{CutShort};
ghost use Rattle.mars_app.specs.Contests.{WriteCutShort, ContestFails, contest, fault_of, listed, listing, listing_head};
ghost use Rattle.mars_app.specs.Loading.{AllFit};
ghost use Rattle.mars_match.specs.Placement.{FitsTwo};
ghost use Rattle.mars_core.specs.Limits.{max_warriors};

use crate::fault::RunFault;
use crate::options::Options;
use mars_cell::{Line, Warrior, WriteFault, numbered, push_number, write_load, write_text};
use mars_core::BattleFault;
use mars_match::{MatchFault, PlaceFault, Setup, Table, league, rounds, write_results};
use std::alloc::Global;
use std::io::Write;

/// Writes the listing of the warriors unless `options.brief` is set, runs the match or league, and writes the results.
pub fn run_contest<W: Write>(
    alloc: Global,
    options: &Options,
    setup: &Setup,
    warriors: &[Warrior],
    output: &mut W,
) -> Result<(), RunFault>
    requires fit { AllFit setup.now.params.core_size warriors.now }
    requires few { length warriors.now ≤ max_warriors }
    requires position { FitsTwo setup.now.params (length warriors.now) setup.now.plan.fixed }
    ensures ok { OnOk result ((rows : List RowValue) × (contest options.now.league setup.now warriors.now ≡ Ok rows)
        × Appends (W.contents output.old) (W.contents output.new)
        (listing setup.now.params.core_size options.now.brief warriors.now ++ results_text rows options.now.sorted)) }
    ensures err { IfErr result (λ fault. ContestFails fault (contest options.now.league setup.now warriors.now) options.now.sorted
        (W.contents output.old) (W.contents output.new) (listing setup.now.params.core_size options.now.brief warriors.now)) }
{
    write_listing(
        alloc,
        options.brief,
        warriors,
        setup.params.core_size(),
        output,
    )?;
    match hold_contest(alloc, options.league, setup, warriors) {
        Ok(table) => write_table(&table, options.sorted, output),
        Err(fault) => Err(match_fault(fault)),
    }
}

/// Runs the match or league.
fn hold_contest(
    alloc: Global,
    is_league: bool,
    setup: &Setup,
    warriors: &[Warrior],
) -> Result<Table, MatchFault>
    requires few { length warriors.now ≤ max_warriors }
    requires position { FitsTwo setup.now.params (length warriors.now) setup.now.plan.fixed }
    ensures { IsResult (λ (table : Table). table.rows.items) (contest is_league setup.now warriors.now) result }
{
    if is_league {
        league(alloc, setup, warriors)
    } else {
        rounds(alloc, setup, warriors)
    }
}

/// Writes the results.
fn write_table<W: Write>(table: &Table, sorted: bool, output: &mut W) -> Result<(), RunFault>
    ensures ok { OnOk result (Appends (W.contents output.old) (W.contents output.new) (results_text table.now.rows.items sorted)) }
    ensures err { IfErr result (λ fault. (fault ≡ RunFault.Output)
        × CutShort (W.contents output.old) (W.contents output.new) (results_text table.now.rows.items sorted)) }
{
    match write_results(table, sorted, output) {
        Ok(()) => Ok(()),
        Err(_) => Err(RunFault::Output),
    }
}

/// Converts the error of a match. A failed allocation at any step is `OutOfMemory`.
pub fn match_fault(fault: MatchFault) -> RunFault
    ensures { result ≡ fault_of fault }
{
    match fault {
        MatchFault::OutOfMemory
        | MatchFault::Place(PlaceFault::OutOfMemory)
        | MatchFault::Battle(BattleFault::OutOfMemory) => RunFault::OutOfMemory,
        MatchFault::Place(fault) => RunFault::Placement(fault),
        MatchFault::Battle(fault) => RunFault::Battle(fault),
        MatchFault::Score(fault) => RunFault::Score(fault),
    }
}

/// Writes a line for each warrior, its load file, and an empty line; writes nothing if `brief` is set.
fn write_listing<W: Write>(
    alloc: Global,
    brief: bool,
    warriors: &[Warrior],
    core_size: u32,
    output: &mut W,
) -> Result<(), RunFault>
    requires size { core_size ≤ max_core_size }
    requires fit { AllFit core_size warriors.now }
    ensures ok { OnOk result (Appends (W.contents output.old) (W.contents output.new) (listing core_size brief warriors.now)) }
    ensures err { IfErr result (λ fault. WriteCutShort fault (W.contents output.old) (W.contents output.new)
        (listing core_size brief warriors.now)) }
{
    if brief {
        return Ok(());
    }
    for number in 0..warriors.len() {
        write_warrior(alloc, number as u64, &warriors[number], core_size, output)?;
    }
    Ok(())
}

/// Writes the line of a warrior, its load file, and an empty line.
fn write_warrior<W: Write>(
    alloc: Global,
    number: u64,
    warrior: &Warrior,
    core_size: u32,
    output: &mut W,
) -> Result<(), RunFault>
    requires size { core_size ≤ max_core_size }
    requires fit { All (FitsCore core_size) warrior.now.cells }
    ensures ok { OnOk result (Appends (W.contents output.old) (W.contents output.new) (listed core_size number warrior.now)) }
    ensures err { IfErr result (λ fault. WriteCutShort fault (W.contents output.old) (W.contents output.new)
        (listed core_size number warrior.now)) }
{
    let head = listing_head(number, warrior);
    write_part(output, head.as_str().as_bytes())?;
    write_load_file(alloc, warrior, core_size, output)?;
    write_part(output, b"\n")
}

/// Returns the line before a warrior's load file.
#[tactic(auto, unfolding(crate::specs::Contests::listing_head))]
fn listing_head(number: u64, warrior: &Warrior) -> Line
    ensures { result.bytes ≡ listing_head number warrior.now }
{
    let mut line = numbered("warrior ", number, ": ");
    line.push_str(warrior.name());
    line.push_str(" by ");
    line.push_str(warrior.author());
    line.push_str(", ");
    push_number(&mut line, warrior.cells().len() as u64);
    line.push_str(" instructions\n");
    line
}

/// Writes a warrior's load file.
fn write_load_file<W: Write>(
    alloc: Global,
    warrior: &Warrior,
    core_size: u32,
    output: &mut W,
) -> Result<(), RunFault>
    requires size { core_size ≤ max_core_size }
    requires fit { All (FitsCore core_size) warrior.now.cells }
    ensures ok { OnOk result (Appends (W.contents output.old) (W.contents output.new) (load_text core_size warrior.now)) }
    ensures err { IfErr result (λ fault. WriteCutShort fault (W.contents output.old) (W.contents output.new)
        (load_text core_size warrior.now)) }
{
    let Ok(text) = write_load(alloc, warrior, core_size) else {
        return Err(RunFault::OutOfMemory);
    };
    write_part(output, &text)
}

/// Writes a text.
pub fn write_part<W: Write>(output: &mut W, text: &[u8]) -> Result<(), RunFault>
    ensures ok { OnOk result (Appends (W.contents output.old) (W.contents output.new) text.now) }
    ensures err { IfErr result (λ fault. (fault ≡ RunFault.Output) × CutShort (W.contents output.old) (W.contents output.new) text.now) }
{
    match write_text(output, text) {
        Ok(()) => Ok(()),
        Err(WriteFault) => Err(RunFault::Output),
    }
}
