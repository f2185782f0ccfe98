//! The test cases, and what they share: warriors, writers, setups and checks.
ghost use Rattle.std.specs.Prelude.{◌≡◌, ◌-◌, ◌≤◌, IfSome, IsTrue, Some};
ghost use Rattle.mars_cell.specs.Warriors.{IsName};

mod fates;
mod fights;
mod leagues;
mod matches;
mod memory;
mod no_memory;
mod placement;
mod results;

use mars_cell::{Params, Warrior, WriteFault, read_cell};
use mars_match::{MatchFault, Plan, Row, Setup, Sum, Table, fight, rounds, write_results};
use redcode_asm::Formula;
use std::alloc::Global;
use std::io;
use std::io::{ErrorKind, Write};
use std::process::Abort;
use std::test::Fail;

/// The cell of a warrior that survives.
const STAY: &str = "JMP.B $0, $0";

/// The cell of a warrior that dies in its first turn.
const DEAD: &str = "DAT.F $0, $0";

/// Returns parameters with this core size and minimum distance.
fn sizes(core_size: u32, distance: u32) -> Result<Params, Fail> {
    let params = Params::new(core_size, 8, 10, core_size, core_size, 1, distance)
        .ok()
        .ok_or("parameters")?;
    Ok(params)
}

/// A writer that accepts a few bytes at a time, and fails when it is full.
#[derive(Drop)]
struct Narrow {
    bytes: Vec<u8>,
    size: usize,
    room: usize,
    /// Whether it accepts no byte when it is full, instead of returning an error.
    idles: bool,
}

impl Write for Narrow {
    ghost contents = { λ w. Some w.bytes.items };

    fn write(&mut self, buf: &[u8]) -> io::Result<usize> {
        let count = self.size.min(buf.len()).min(self.room);
        if count == 0 && !self.idles && !buf.is_empty() {
            return Err(io::Error::from(ErrorKind::TimedOut));
        }
        self.bytes.extend_from_slice(&buf[..count])?;
        self.room -= count;
        Ok(count)
    }

    fn flush(&mut self) -> io::Result<()> {
        Ok(())
    }
}

/// Returns a writer that accepts `size` bytes at a time and `room` bytes in total.
fn writer_of(alloc: Global, size: usize, room: usize, idles: bool) -> Narrow {
    Narrow {
        bytes: Vec::new(alloc),
        size,
        room,
        idles,
    }
}

/// Returns the bytes that a writer accepted of the results, and whether all were written.
fn written(table: &Table, sorted: bool, mut writer: Narrow) -> (Vec<u8>, Result<(), WriteFault>) {
    let done = write_results(table, sorted, &mut writer);
    (writer.bytes, done)
}

/// Returns a row with these points, wins, ties and losses.
fn row(name: &str, author: &str, points: i64, counts: [u64; 3]) -> Row
    requires name { IsName name.now }
    requires author { IsName author.now }
{
    let [wins, ties, losses] = counts;
    let sum = Sum {
        points,
        wins,
        ties,
        losses,
    };
    Row::new(name, author, sum)
}

const LEAGUE: &str = "  points   wins   ties losses  warrior
       4      1      1      0  Imp by Dewdney
       4      1      1      0  Stay by Anonymous
       0      0      0      2  Dead by Anonymous
";

/// Returns a warrior of one cell.
fn one_cell(
    alloc: Global,
    name: &str,
    author: &str,
    core_size: u32,
    text: &str,
) -> Result<Warrior, Fail>
    requires name { IsName name.now }
    requires author { IsName author.now }
{
    if core_size == 0 {
        return Err("core size".into());
    }
    let cell = read_cell(text.as_bytes(), core_size).ok_or("cell")?;
    let mut cells = Vec::new(alloc);
    cells.push(cell)?;
    let name = String::from_str(alloc, name)?;
    let author = String::from_str(alloc, author)?;
    let warrior = Warrior::new(name, author, cells, 0).ok().ok_or("warrior")?;
    Ok(warrior)
}

/// Returns warriors of one cell each.
fn one_cells(alloc: Global, core_size: u32, texts: &[&str]) -> Result<Vec<Warrior>, Fail> {
    let mut warriors = Vec::new(alloc);
    for text in texts {
        warriors.push(one_cell(alloc, "Test", "", core_size, text)?)?;
    }
    Ok(warriors)
}

/// Returns whether each warrior survives a round.
fn fought(
    alloc: Global,
    params: &Params,
    warriors: &[Warrior],
    starts: &[u32],
    round: u32,
) -> Result<Vec<bool>, MatchFault> {
    if starts.len() != warriors.len() {
        return Err(MatchFault::OutOfMemory);
    }
    fight(alloc, params, warriors, starts, round)
}

/// One warrior more than the maximum.
const TOO_MANY: [&str; 17] = [STAY; 17];

/// Returns whether no position is fixed, or the fixed one is valid and there are two warriors.
fn fits_two(params: &Params, warriors: usize, fixed: Option<u32>) -> bool
    ensures { IsTrue result → IfSome fixed (λ position. (warriors ≡ 2) × (params.now.distance ≤ position) × (position ≤ params.now.core_size - params.now.distance)) }
{
    match fixed {
        None => true,
        Some(position) => {
            let least = params.distance();
            warriors == 2 && least <= position && position <= params.core_size() - least
        }
    }
}

/// The rounds, the seed, the fixed position and the formula.
type Plans = (u32, u32, Option<u32>, &'static str);

/// The result of a match or a league: the lines after the heading, in load order, or the error.
type Outcome = Result<&'static str, MatchFault>;

/// Returns the setup with these parameters and this plan, if there is memory for it.
fn setup_of(alloc: Global, params: &Params, plans: Plans) -> Option<Setup>
    ensures { IfSome result (λ setup. (setup.params ≡ params.now) × (setup.plan.fixed ≡ plans.entry.2)) }
{
    let (count, seed, fixed, text) = plans;
    let formula = Formula::new(alloc, text.as_bytes()).ok()?;
    Some(Setup {
        params: *params,
        plan: Plan {
            rounds: count,
            seed,
            fixed,
        },
        formula,
    })
}

/// Runs a match and returns its table, or its error.
fn held(
    alloc: Global,
    params: &Params,
    warriors: &[Warrior],
    plans: Plans,
) -> Option<Result<Table, MatchFault>> {
    if !fits_two(params, warriors.len(), plans.2) {
        return None;
    }
    let setup = setup_of(alloc, params, plans)?;
    let table = rounds(alloc, &setup, warriors);
    drop(setup);
    Some(table)
}

const HEADING: &str = "  points   wins   ties losses  warrior\n";

const BY_DEFAULT: &str = "(W*W-1)/S";

/// Checks that the results of a table are the heading and these lines.
fn check_lines(rt: &impl Abort, alloc: Global, table: &Table, lines: &str) {
    let (text, done) = written(table, false, writer_of(alloc, 1000, 1000, false));
    assert_eq!(rt; done, Ok(()));
    let (heading, rest) = text.as_slice().split_at(HEADING.len().min(text.len()));
    assert_eq!(rt; heading, HEADING.as_bytes());
    assert_eq!(rt; rest, lines.as_bytes());
}

/// Checks the result of a match or a league.
fn check_outcome(
    rt: &impl Abort,
    alloc: Global,
    held: &Option<Result<Table, MatchFault>>,
    expected: Outcome,
) {
    match (held, expected) {
        (Some(Ok(table)), Ok(lines)) => check_lines(rt, alloc, table, lines),
        (Some(Err(found)), Err(fault)) => assert_eq!(rt; *found, fault),
        _ => assert!(rt; false, "{expected:?}"),
    }
}

/// One round with the first seed, without a fixed position.
const ONE_ROUND: Plans = (1, 1, None, BY_DEFAULT);

/// Returns the imp and the warrior that survives.
fn imp_and_stay(alloc: Global) -> Result<Vec<Warrior>, Fail> {
    let mut warriors = Vec::new(alloc);
    warriors.push(one_cell(alloc, "Imp", "Dewdney", 8000, "MOV.I $0, $1")?)?;
    warriors.push(one_cell(alloc, "Stay", "Anonymous", 8000, STAY)?)?;
    Ok(warriors)
}
