//! Warriors as numbers: their cells in an array of the caller, their start, and their names.
ghost use Rattle.std.specs.Prelude.{◌≡◌, ◌≢◌, ◌≤◌, All, IfErr, IfOk, IfSome, None, Some, false, if◌then◌else◌, length, map, option_map, string_bytes};
ghost use Rattle.std.specs.List.{list_all};
ghost use Rattle.mars_cell.specs.Cells.{FitsCore};
ghost use Rattle.mars_cell.specs.Limits.{max_name_len};
ghost use Rattle.mars_cell.specs.ParameterFaults.{is_within};
ghost use Rattle.mars_cell.specs.Warriors.{IsName};
ghost use Rattle.mars_c.specs.Cells.{plain_cell};
ghost use Rattle.mars_c.specs.Codes.{entrant_line, entrant_number};
ghost use Rattle.mars_c.specs.Entrants.{IsEntrant, IsNoEntrant, IsWrongCell, is_name, named, plain_name, plain_program};

use crate::cells::{MarsCell, cell_of};
use mars_cell::{Cell, Params, Warrior};
use std::alloc::Global;

/// Number of bytes of a name in a program.
const NAME: usize = 64;

/// Maximum length of a name in bytes.
const MAX_NAME_LEN: usize = 60;

/// A warrior whose cells are part of an array.
#[repr(C)]
#[derive(Clone, Copy)]
pub struct MarsWarrior {
    /// Number of cells, 1 to the maximum length.
    pub length: u32,
    /// Index of the cell at which the warrior's process starts, from 0.
    pub start: u32,
}

/// The program of a source or a load file, without its cells.
#[repr(C)]
#[derive(Clone, Copy)]
pub struct MarsProgram {
    pub warrior: MarsWarrior,
    /// At most 60 printable ASCII characters, then zeros.
    pub name: [u8; 64],
    /// Like `name`.
    pub author: [u8; 64],
}

/// Why numbers are no warrior, or no program.
#[derive(Clone, Copy)]
pub enum EntrantFault {
    /// The number of cells is not from 1 to the maximum length.
    Length,
    /// The start is not the index of a cell.
    Start,
    /// The cell of this index has an opcode, modifier or mode that does not exist.
    Cell(usize),
    /// The cell of this index has a number outside the core.
    Field(usize),
    /// A name is longer than 60 bytes, or has a byte that is not printable.
    Name,
    OutOfMemory,
}

impl EntrantFault {
    /// Returns the number of the error in `include/mars.h`.
    pub fn number(self) -> u32
        ensures { result ≡ entrant_number self }
    {
        match self {
            EntrantFault::Length => 1,
            EntrantFault::Start => 2,
            EntrantFault::Cell(_) => 3,
            EntrantFault::Field(_) => 4,
            EntrantFault::Name => 5,
            EntrantFault::OutOfMemory => 6,
        }
    }

    /// Returns the index of the first wrong cell; 0 for other errors.
    pub fn line(self) -> u64
        ensures { result ≡ entrant_line self }
    {
        match self {
            EntrantFault::Cell(index) | EntrantFault::Field(index) => index as u64,
            _ => 0,
        }
    }
}

/// Returns the cells with these numbers.
///
/// # Errors
///
/// Returns the error of the first wrong cell. `OutOfMemory` replaces an error that would have been found later.
fn cells_of(alloc: Global, core_size: u32, numbers: &[MarsCell]) -> Result<Vec<Cell>, EntrantFault>
    ensures cells { IfOk result (λ cells. map plain_cell cells.items ≡ numbers.now) }
    ensures fits { IfOk result (λ cells. All (FitsCore core_size) cells.items) }
    ensures refused { IfErr result (IsWrongCell core_size numbers.now) }
{
    let Ok(mut cells) = Vec::with_capacity(alloc, numbers.len()) else {
        return Err(EntrantFault::OutOfMemory);
    };
    for i in 0..numbers.len() {
        let Some(cell) = cell_of(&numbers[i]) else {
            return Err(EntrantFault::Cell(i));
        };
        if cell.a >= core_size || cell.b >= core_size {
            return Err(EntrantFault::Field(i));
        }
        if cells.push(cell).is_err() {
            return Err(EntrantFault::OutOfMemory);
        }
    }
    Ok(cells)
}

/// Returns the warrior with these cells, this start and these names.
pub fn warrior_of(
    alloc: Global,
    params: &Params,
    numbers: &[MarsCell],
    start: u32,
    name: String,
    author: String,
) -> Result<Warrior, EntrantFault>
    requires name { IsName (string_bytes name) }
    requires author { IsName (string_bytes author) }
    ensures warrior { IfOk result (IsEntrant params.now numbers.now start (string_bytes name) (string_bytes author)) }
    ensures refused { IfErr result (IsNoEntrant params.now numbers.now start) }
{
    if numbers.is_empty() || numbers.len() > params.max_length() as usize {
        return Err(EntrantFault::Length);
    }
    if start as usize >= numbers.len() {
        return Err(EntrantFault::Start);
    }
    let cells = cells_of(alloc, params.core_size(), numbers)?;
    match Warrior::new(name, author, cells, start) {
        Ok(warrior) => Ok(warrior),
        // There is a cell, and the start is the index of one, so this is never reached.
        Err(_) => Err(EntrantFault::OutOfMemory),
    }
}

/// Returns whether all bytes are printable ASCII characters.
fn is_printed(text: &[u8]) -> bool
    ensures { result ≡ list_all (is_within 32 126) text.now }
{
    text.iter().all(|byte| b' ' <= *byte && *byte <= b'~')
}

/// Returns the number of bytes before the first zero.
fn zero_in(bytes: &[u8]) -> usize
    ensures { result ≡ length (named bytes.now) }
{
    bytes.iter().take_while(|byte| **byte != 0).count()
}

/// Returns the bytes before the first zero.
#[tactic(auto, using(crate::proofs::Names::first_part))]
fn before_zero(bytes: &[u8]) -> &[u8]
    ensures { result.now ≡ named bytes.now }
{
    &bytes[..zero_in(bytes)]
}

/// Returns the bytes as a name, or `None` if they are not a valid name.
fn read_name(bytes: &[u8]) -> Option<&str>
    ensures value { option_map (λ name. name.now) result ≡ (if is_name bytes.now then Some bytes.now else None) }
    ensures name { IfSome result (λ name. IsName name.now) }
{
    if bytes.len() > MAX_NAME_LEN || !is_printed(bytes) {
        return None;
    }
    str::from_utf8(bytes).ok()
}

/// Returns the name in these bytes, which ends before the first zero.
pub fn name_in(alloc: Global, bytes: &[u8]) -> Result<String, EntrantFault>
    ensures value { IfOk result (λ name. string_bytes name ≡ named bytes.now) }
    ensures name { IfOk result (λ name. IsName (string_bytes name)) }
    ensures refused { IfErr result (λ fault. fault ≢ EntrantFault.OutOfMemory → (fault ≡ EntrantFault.Name) × (is_name (named bytes.now) ≡ false)) }
{
    let Some(name) = read_name(before_zero(bytes)) else {
        return Err(EntrantFault::Name);
    };
    match String::from_str(alloc, name) {
        Ok(name) => Ok(name),
        Err(_) => Err(EntrantFault::OutOfMemory),
    }
}

/// Returns a name in 64 bytes: zeros follow it.
#[tactic(auto, using(crate::proofs::Names::padded))]
fn name_of(name: &str) -> [u8; 64]
    requires { length name.now ≤ max_name_len }
    ensures { result ≡ plain_name name.now }
{
    let mut bytes = [0u8; NAME];
    bytes[..name.len()].copy_from_slice(name.as_bytes());
    bytes
}

/// A warrior, and the numbers and names of its program.
#[derive(Drop)]
pub struct Made {
    pub warrior: Warrior,
    pub program: MarsProgram,
}

impl Made {
    /// Returns a warrior with its program.
    pub fn of(warrior: Warrior) -> Result<Made, EntrantFault>
        ensures made { IfOk result (λ made. (made.warrior ≡ warrior) × (made.program ≡ plain_program warrior)) }
        ensures memory { IfErr result (λ fault. fault ≡ EntrantFault.OutOfMemory) }
    {
        let Ok(length) = u32::try_from(warrior.cells().len()) else {
            // A warrior is not longer than the core, so this is never reached, and any error would do.
            return Err(EntrantFault::OutOfMemory);
        };
        let program = MarsProgram {
            warrior: MarsWarrior {
                length,
                start: warrior.start(),
            },
            name: name_of(warrior.name()),
            author: name_of(warrior.author()),
        };
        Ok(Made { warrior, program })
    }
}
