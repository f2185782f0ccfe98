//! Reads load files.
ghost use Rattle.std.specs.Prelude.{◌≡◌, ◌<◌, length, All, IfOk, Ok};
ghost use Rattle.mars_cell.specs.Cells.{FitsCore};
ghost use Rattle.mars_cell.specs.Load.{body, lines_of, load, is_index, Loads};
ghost use Rattle.mars_cell.specs.Code.Listing.{ReadsListing, header_value, load_from, nothing_read};

use crate::fault::LoadFault;
use crate::header::{Header, has_version, read_header};
use crate::instruction::Cell;
use crate::lines::Lines;
use crate::numbers::Sizes;
use crate::parameters::Params;
use crate::statements::{Statement, read_line};
use crate::warriors::{Warrior, WarriorFault};
use std::alloc::Global;

/// The statements that were read so far: the cells, and the numbers of the last ORG and of END.
#[derive(Drop)]
struct ReadListing {
    cells: Vec<Cell>,
    origin: Option<i64>,
    end: Option<i64>,
}

/// Reads the lines up to END.
#[tactic(auto, unfolding(crate::specs::Code::Listing::load_from))]
fn read_listing(alloc: Global, lines: Lines<'_>, sizes: Sizes) -> Result<ReadListing, LoadFault>
    ensures value { ReadsListing result (load_from sizes.written sizes.core_size lines.entry.number nothing_read
        (lines_of lines.entry.rest.now)) }
    ensures fits { IfOk result (λ reading. All (FitsCore sizes.core_size) reading.cells.items) }
{
    let mut reading = ReadListing {
        cells: Vec::new(alloc),
        origin: None,
        end: None,
    };
    let mut lines = lines;
    loop {
        let number = lines.number;
        let Some(line) = lines.take_first() else {
            return Ok(reading);
        };
        match read_line(line, sizes) {
            None => return Err(LoadFault::Syntax(number)),
            Some(Statement::Nothing) => {}
            Some(Statement::Origin(start)) => reading.origin = Some(start),
            Some(Statement::End(start)) => {
                reading.end = start;
                return Ok(reading);
            }
            Some(Statement::Instruction(cell)) => {
                if reading.cells.push(cell).is_err() {
                    return Err(LoadFault::OutOfMemory);
                }
            }
        }
    }
}

/// Returns whether `number` is the index of one of `length` cells.
fn is_start(number: i64, length: usize) -> bool
    ensures { result ≡ is_index number length }
{
    0 <= number && number.unsigned_abs() < length as u64
}

/// Makes the warrior with the names of `header`, `cells` and `start`. Fails only if an allocation fails.
fn named_warrior(
    alloc: Global,
    header: Header<'_>,
    cells: Vec<Cell>,
    start: u32,
) -> Result<Warrior, LoadFault>
    requires { start < length cells.items }
    ensures { Loads result (Ok (record
        { name = header.entry.name.now; author = header.entry.author.now; cells = cells.items; start = start })) }
{
    let Ok(name) = String::from_str(alloc, header.name) else {
        return Err(LoadFault::OutOfMemory);
    };
    let Ok(author) = String::from_str(alloc, header.author) else {
        return Err(LoadFault::OutOfMemory);
    };
    match Warrior::new(name, author, cells, start) {
        Ok(warrior) => Ok(warrior),
        Err(WarriorFault::Empty) => Err(LoadFault::Empty),
        Err(WarriorFault::BadOrigin) => Err(LoadFault::BadOrigin),
    }
}

/// Reads the lines after the header.
#[tactic(auto, unfolding(crate::specs::Load::body))]
fn read_body(
    alloc: Global,
    header: Header<'_>,
    lines: Lines<'_>,
    params: &Params,
) -> Result<Warrior, LoadFault>
    ensures value { Loads result (body (header_value header.entry) params.now.core_size params.now.max_length lines.entry.number
        (lines_of lines.entry.rest.now)) }
    ensures fits { IfOk result (λ warrior. All (FitsCore params.now.core_size) warrior.cells) }
{
    let sizes = Sizes {
        written: header.written,
        core_size: params.core_size(),
    };
    let reading = match read_listing(alloc, lines, sizes) {
        Ok(reading) => reading,
        Err(fault) => return Err(fault),
    };
    let length = reading.cells.len();
    if length > params.max_length() as usize {
        return Err(LoadFault::TooLong);
    }
    if length == 0 {
        return Err(LoadFault::Empty);
    }
    let start = reading.origin.or(reading.end).unwrap_or(0);
    if !is_start(start, length) {
        return Err(LoadFault::BadOrigin);
    }
    let ReadListing { cells, .. } = reading;
    named_warrior(alloc, header, cells, start as u32)
}

/// Reads a load file of version 1 or 2, for the core size and the maximum length of `params`.
///
/// If the first bytes are `;load ` and a digit, the first three lines are the header: `;load 2 ` and the size of the
/// core that the file was written for, `;name ` and the warrior's name, `;author ` and the author's name. Otherwise the
/// file is of version 1: it counts as written for the core that reads it, its warrior is called `Unknown`, and its
/// author `Anonymous`.
///
/// Every other line up to END is empty, `ORG` and the start, `END` with or without a start, or a cell as `read_cell`
/// reads it; a `;` begins a comment. The start is the number of the last ORG, else of END, else 0. A number of a cell
/// is read by its value in the core that the file was written for: at most half of that core's size away from 0.
///
/// All numbers of the warrior are below the core size.
///
/// # Errors
///
/// Returns the first error in the order of [`LoadFault`], except that `Version` comes before all others. `Syntax` has
/// the number of the first invalid line. `OutOfMemory` replaces any error that would have been found after the
/// allocation that failed.
#[tactic(auto, unfolding(crate::specs::Load::load))]
pub fn read_load(alloc: Global, bytes: &[u8], params: &Params) -> Result<Warrior, LoadFault>
    ensures value { Loads result (load params.now.core_size params.now.max_length bytes.now) }
    ensures fits { IfOk result (λ warrior. All (FitsCore params.now.core_size) warrior.cells) }
{
    let mut lines = Lines::new(bytes);
    if !has_version(bytes) {
        return read_body(alloc, Header::unnamed(params.core_size()), lines, params);
    }
    let header = read_header(&mut lines)?;
    read_body(alloc, header, lines, params)
}
