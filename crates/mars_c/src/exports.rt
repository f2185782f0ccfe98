//! The functions that C calls. `include/mars.h` documents them.
//!
//! A function that can fail stores its error in `fault`, or zeros if it succeeds, and returns the code of the error, or
//! 0. In the clauses, 0 is MARS_DONE, and 10 is MARS_ROOM: the buffer is too short.
ghost use Rattle.std.specs.Prelude.{◌≡◌, ◌≢◌, ◌≤◌, ◌<◌, ◌⊎◌, ◌++◌, [], drop, false, length, map, true};
ghost use Rattle.mars_c.specs.Cells.{plain_cell};
ghost use Rattle.mars_c.specs.Codes.{numbered};
ghost use Rattle.mars_c.specs.Contests.{HoldsLeague, HoldsMatch, HoldsSums, IsScore};
ghost use Rattle.mars_c.specs.Outcomes.{HoldsOutcomes, RefusesOutcomes};
ghost use Rattle.mars_c.specs.Programs.{AreLines, BeginsWith, HoldsAny, HoldsLines, HoldsProgram, HoldsText, IsAssembled, IsLoadFile, IsLoaded, IsShort, Overflows, OverflowsAssembled, OverflowsProgram, OverflowsText};
ghost use Rattle.mars_c.specs.Refusals.{HasCause, RefusesLeague, RefusesLoad, RefusesMatch, RefusesPopulation, RefusesScore, RefusesSource, RefusesWriting};

mod blocks;

use crate::assembling::{Mapped, assembled, loaded, written};
use crate::cells::{MarsCell, put_cells};
use crate::contests::{league_into, match_into};
use crate::entrants::Entrants;
use crate::faults::{MarsFault, given, to_c_fault};
use crate::outcomes::{MarsLineup, MarsOutcome, outcomes_into};
use crate::population::population_into;
use crate::rows::MarsRow;
use crate::scores::score;
use crate::settings::MarsSettings;
use crate::warriors::{Made, MarsProgram, MarsWarrior};
use redcode_asm::CellLine;
use std::alloc::Global;

/// Copies `text` to the start of `buffer` if it fits, and returns whether it does. Sets `length` in both cases.
fn copy_to_buffer(text: &[u8], buffer: &mut [u8], length: &mut usize) -> bool
    ensures fits { result ≡ true → BeginsWith text.now length.new buffer.old buffer.new }
    ensures short { result ≡ false → Overflows text.now length.new buffer.old }
    ensures kept { result ≡ false → buffer.new ≡ buffer.old }
{
    *length = text.len();
    if text.len() > buffer.len() {
        return false;
    }
    buffer[..text.len()].copy_from_slice(text);
    true
}

/// Writes the program, and its cells to the front of `places` if they fit. Returns whether they fit.
fn give_program(made: &Made, places: &mut [MarsCell], program: &mut MarsProgram) -> bool
    ensures program { program.new ≡ made.now.program }
    ensures fits { result ≡ true → length made.now.warrior.cells ≤ length places.old }
    ensures cells { result ≡ true → places.new ≡ map plain_cell made.now.warrior.cells ++ drop (length made.now.warrior.cells) places.old }
    ensures short { result ≡ false → length places.old < length made.now.warrior.cells }
    ensures kept { result ≡ false → places.new ≡ places.old }
{
    *program = made.program;
    let cells = made.warrior.cells();
    if cells.len() > places.len() {
        return false;
    }
    put_cells(cells, places);
    true
}

/// Returns whether a buffer of length `buffer` is empty or has room for `count` values. Nothing is written to an empty
/// buffer.
fn is_roomy(buffer: usize, count: usize) -> bool
    ensures some { result ≡ true → buffer ≢ 0 → count ≤ buffer }
    ensures short { result ≡ false → (buffer ≢ 0) × (buffer < count) }
{
    buffer == 0 || count <= buffer
}

/// Writes the lines of cells and their labels to the front of their buffers; writes nothing to an empty buffer.
fn put_lines(mapped: &Mapped, lines: &mut [CellLine], labels: &mut [u8])
    requires lines { lines.old ≢ [] → length mapped.now.lines.items ≤ length lines.old }
    requires labels { labels.old ≢ [] → length mapped.now.labels.items ≤ length labels.old }
    ensures lines { HoldsAny mapped.now.lines.items lines.old lines.new }
    ensures labels { HoldsAny mapped.now.labels.items labels.old labels.new }
{
    if !lines.is_empty() {
        lines[..mapped.lines.len()].copy_from_slice(&mapped.lines);
    }
    if !labels.is_empty() {
        labels[..mapped.labels.len()].copy_from_slice(&mapped.labels);
    }
}

/// Writes the program and the length of the labels. If the cells, lines and labels all fit, writes them to the front of
/// their buffers. Returns whether they fit.
fn give_mapped(
    mapped: &Mapped,
    places: &mut [MarsCell],
    program: &mut MarsProgram,
    lines: &mut [CellLine],
    labels: &mut [u8],
    labels_length: &mut usize,
) -> bool
    ensures program { program.new ≡ mapped.now.made.program }
    ensures length { labels_length.new ≡ length mapped.now.labels.items }
    ensures fits { result ≡ true → length mapped.now.made.warrior.cells ≤ length places.old }
    ensures cells { result ≡ true → places.new
        ≡ map plain_cell mapped.now.made.warrior.cells ++ drop (length mapped.now.made.warrior.cells) places.old }
    ensures lines { result ≡ true → HoldsAny mapped.now.lines.items lines.old lines.new }
    ensures labels { result ≡ true → HoldsAny mapped.now.labels.items labels.old labels.new }
    ensures short { result ≡ false → (length places.old < length mapped.now.made.warrior.cells)
        ⊎ (IsShort mapped.now.lines.items lines.old ⊎ IsShort mapped.now.labels.items labels.old) }
    ensures kept { result ≡ false → (places.new ≡ places.old) × (lines.new ≡ lines.old) × (labels.new ≡ labels.old) }
{
    *labels_length = mapped.labels.len();
    if !is_roomy(lines.len(), mapped.lines.len()) || !is_roomy(labels.len(), mapped.labels.len()) {
        *program = mapped.made.program;
        return false;
    }
    if !give_program(&mapped.made, places, program) {
        return false;
    }
    put_lines(mapped, lines, labels);
    true
}

/// Stores an error for the caller and returns its code.
fn answer(place: &mut MarsFault, fault: MarsFault) -> u32
    ensures fault { place.new ≡ fault }
    ensures code { result ≡ fault.code }
{
    *place = fault;
    place.code
}

/// Version of the library: 1,000 for each major version, plus the minor one. It must equal MARS_VERSION of `include/mars.h`.
const VERSION: u32 = 2000;

/// Returns the version of the library.
#[unsafe(no_mangle)]
pub extern "C" fn mars_version() -> u32
    ensures { result ≡ 2000 }
{
    VERSION
}

/// Assembles a source to the cells of its warrior, with their lines in the source and their labels.
#[unsafe(no_mangle)]
pub extern "C" fn mars_assemble(
    alloc: Global,
    settings: &MarsSettings,
    warriors: u32,
    source: &[u8],
    cells: &mut [MarsCell],
    program: &mut MarsProgram,
    lines: &mut [CellLine],
    labels: &mut [u8],
    length: &mut usize,
    fault: &mut MarsFault,
) -> u32
    ensures code { result ≡ fault.new.code }
    ensures cleared { result ≡ 0 → fault.new ≡ numbered 0 0 }
    ensures short { result ≡ 10 → fault.new ≡ numbered 10 0 }
    ensures done { result ≡ 0 → HoldsProgram (IsAssembled settings.now warriors source.now) program.new cells.old cells.new }
    ensures mapped { result ≡ 0 → HoldsLines (AreLines settings.now warriors source.now) length.new lines.old lines.new labels.old labels.new }
    ensures refused { result ≢ 0 → result ≢ 10 → HasCause (RefusesSource settings.now warriors source.now) fault.new }
    ensures room { result ≡ 10 → OverflowsAssembled settings.now warriors source.now program.new cells.old length.new lines.old labels.old }
    ensures kept { result ≢ 0 → (cells.new ≡ cells.old) × (lines.new ≡ lines.old) × (labels.new ≡ labels.old) }
    ensures unread { result ≢ 0 → result ≢ 10 → (program.new ≡ program.old) × (length.new ≡ length.old) }
{
    match assembled(alloc, settings, warriors, source) {
        Ok(mapped) => answer(
            fault,
            given(give_mapped(&mapped, cells, program, lines, labels, length)),
        ),
        Err(refusal) => answer(fault, to_c_fault(refusal)),
    }
}

/// Reads the cells and the program of a load file.
#[unsafe(no_mangle)]
pub extern "C" fn mars_read_load(
    alloc: Global,
    settings: &MarsSettings,
    load: &[u8],
    cells: &mut [MarsCell],
    program: &mut MarsProgram,
    fault: &mut MarsFault,
) -> u32
    ensures code { result ≡ fault.new.code }
    ensures cleared { result ≡ 0 → fault.new ≡ numbered 0 0 }
    ensures short { result ≡ 10 → fault.new ≡ numbered 10 0 }
    ensures done { result ≡ 0 → HoldsProgram (IsLoaded settings.now load.now) program.new cells.old cells.new }
    ensures refused { result ≢ 0 → result ≢ 10 → HasCause (RefusesLoad settings.now load.now) fault.new }
    ensures room { result ≡ 10 → OverflowsProgram (IsLoaded settings.now load.now) program.new cells.old }
    ensures kept { result ≢ 0 → cells.new ≡ cells.old }
    ensures unread { result ≢ 0 → result ≢ 10 → program.new ≡ program.old }
{
    match loaded(alloc, settings, load) {
        Ok(made) => answer(fault, given(give_program(&made, cells, program))),
        Err(refusal) => answer(fault, to_c_fault(refusal)),
    }
}

/// Writes the load file of a program that has these cells.
#[unsafe(no_mangle)]
pub extern "C" fn mars_write_load(
    alloc: Global,
    settings: &MarsSettings,
    cells: &[MarsCell],
    program: &MarsProgram,
    buffer: &mut [u8],
    length: &mut usize,
    fault: &mut MarsFault,
) -> u32
    ensures code { result ≡ fault.new.code }
    ensures cleared { result ≡ 0 → fault.new ≡ numbered 0 0 }
    ensures short { result ≡ 10 → fault.new ≡ numbered 10 0 }
    ensures unwritten { result ≢ 0 → result ≢ 10 → length.new ≡ length.old }
    ensures done { result ≡ 0 → HoldsText (IsLoadFile settings.now cells.now program.now) length.new buffer.old buffer.new }
    ensures refused { result ≢ 0 → result ≢ 10 → HasCause (RefusesWriting settings.now cells.now program.now) fault.new }
    ensures room { result ≡ 10 → OverflowsText (IsLoadFile settings.now cells.now program.now) length.new buffer.old }
    ensures kept { result ≢ 0 → buffer.new ≡ buffer.old }
{
    match written(alloc, settings, cells, program) {
        Ok(text) => answer(fault, given(copy_to_buffer(&text, buffer, length))),
        Err(refusal) => answer(fault, to_c_fault(refusal)),
    }
}

/// Runs a match of 1 to 16 warriors.
#[unsafe(no_mangle)]
pub extern "C" fn mars_match(
    alloc: Global,
    settings: &MarsSettings,
    formula: &[u8],
    cells: &[MarsCell],
    warriors: &[MarsWarrior],
    rows: &mut [MarsRow],
    fault: &mut MarsFault,
) -> u32
    ensures code { result ≡ fault.new.code }
    ensures cleared { result ≡ 0 → fault.new ≡ numbered 0 0 }
    ensures refused { result ≢ 0 → HasCause (RefusesMatch settings.now formula.now cells.now warriors.now (length rows.old)) fault.new }
    ensures done { result ≡ 0 → HoldsMatch settings.now formula.now cells.now warriors.now rows.new }
    ensures kept { result ≢ 0 → rows.new ≡ rows.old }
{
    match match_into(alloc, settings, formula, Entrants { cells, warriors }, rows) {
        Ok(()) => answer(fault, given(true)),
        Err(refusal) => answer(fault, to_c_fault(refusal)),
    }
}

/// Runs a league of up to 65,536 warriors.
#[unsafe(no_mangle)]
pub extern "C" fn mars_league(
    alloc: Global,
    settings: &MarsSettings,
    formula: &[u8],
    cells: &[MarsCell],
    warriors: &[MarsWarrior],
    rows: &mut [MarsRow],
    fault: &mut MarsFault,
) -> u32
    ensures code { result ≡ fault.new.code }
    ensures cleared { result ≡ 0 → fault.new ≡ numbered 0 0 }
    ensures refused { result ≢ 0 → HasCause (RefusesLeague settings.now formula.now cells.now warriors.now (length rows.old)) fault.new }
    ensures done { result ≡ 0 → HoldsLeague settings.now formula.now cells.now warriors.now rows.new }
    ensures kept { result ≢ 0 → rows.new ≡ rows.old }
{
    match league_into(alloc, settings, formula, Entrants { cells, warriors }, rows) {
        Ok(()) => answer(fault, given(true)),
        Err(refusal) => answer(fault, to_c_fault(refusal)),
    }
}

/// Runs a match of each candidate with each opponent.
///
/// The first warriors are the candidates, as many as there are rows.
#[unsafe(no_mangle)]
pub extern "C" fn mars_population(
    alloc: Global,
    settings: &MarsSettings,
    formula: &[u8],
    cells: &[MarsCell],
    warriors: &[MarsWarrior],
    rows: &mut [MarsRow],
    fault: &mut MarsFault,
) -> u32
    ensures code { result ≡ fault.new.code }
    ensures cleared { result ≡ 0 → fault.new ≡ numbered 0 0 }
    ensures refused { result ≢ 0 → HasCause (RefusesPopulation settings.now formula.now cells.now warriors.now (length rows.old)) fault.new }
    ensures done { result ≡ 0 → HoldsSums settings.now formula.now cells.now warriors.now rows.new }
    ensures kept { result ≢ 0 → rows.new ≡ rows.old }
{
    match population_into(alloc, settings, formula, Entrants { cells, warriors }, rows) {
        Ok(()) => answer(fault, given(true)),
        Err(refusal) => answer(fault, to_c_fault(refusal)),
    }
}

/// Computes the points of each survivor of a round, by a formula.
#[unsafe(no_mangle)]
pub extern "C" fn mars_score(
    alloc: Global,
    formula: &[u8],
    warriors: u32,
    survivors: u32,
    value: &mut i64,
    fault: &mut MarsFault,
) -> u32
    ensures code { result ≡ fault.new.code }
    ensures cleared { result ≡ 0 → fault.new ≡ numbered 0 0 }
    ensures refused { result ≢ 0 → HasCause (RefusesScore formula.now warriors survivors) fault.new }
    ensures done { result ≡ 0 → IsScore formula.now warriors survivors value.new }
    ensures kept { result ≢ 0 → value.new ≡ value.old }
{
    match score(alloc, formula, warriors, survivors) {
        Ok(score) => {
            *value = score;
            answer(fault, given(true))
        }
        Err(refusal) => answer(fault, to_c_fault(refusal)),
    }
}

/// Runs the match of each lineup, and writes how each of its warriors fares in each round.
#[unsafe(no_mangle)]
pub extern "C" fn mars_outcomes(
    alloc: Global,
    settings: &MarsSettings,
    cells: &[MarsCell],
    warriors: &[MarsWarrior],
    lineups: &[MarsLineup],
    outcomes: &mut [MarsOutcome],
    fault: &mut MarsFault,
) -> u32
    ensures code { result ≡ fault.new.code }
    ensures cleared { result ≡ 0 → fault.new ≡ numbered 0 0 }
    ensures refused { result ≢ 0 → HasCause (RefusesOutcomes settings.now cells.now warriors.now lineups.now (length outcomes.old)) fault.new }
    ensures done { result ≡ 0 → HoldsOutcomes settings.now cells.now warriors.now lineups.now outcomes.new }
    ensures kept { result ≢ 0 → outcomes.new ≡ outcomes.old }
{
    match outcomes_into(
        alloc,
        settings,
        Entrants { cells, warriors },
        lineups,
        outcomes,
    ) {
        Ok(()) => answer(fault, given(true)),
        Err(refusal) => answer(fault, to_c_fault(refusal)),
    }
}
