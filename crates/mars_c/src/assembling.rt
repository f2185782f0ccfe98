//! Assembles sources, reads and writes load files, and returns the lines of cells in a source.
ghost use Rattle.std.specs.Prelude.{◌≡◌, ◌≢◌, IfErr, IfOk};
ghost use Rattle.mars_c.specs.Entrants.{IsEntrant, named, plain_program};
ghost use Rattle.mars_c.specs.Programs.{AreLines, IsAssembled, IsLoadFile, IsLoaded};
ghost use Rattle.mars_c.specs.Refusals.{IsNoProgram, RefusesLoad, RefusesSource, RefusesWriting};

use crate::cells::MarsCell;
use crate::faults::{CallRefusal, refused_source};
use crate::ranges::SettingsFault;
use crate::settings::{MarsSettings, parameters};
use crate::warriors::{EntrantFault, Made, MarsProgram, name_in, warrior_of};
use mars_cell::{LoadFault, Params, Warrior, read_load, write_load};
use redcode_asm::{Assembled, CellLine, assemble_with_lines};
use std::alloc::Global;

/// Returns a warrior with its program.
fn made_of(warrior: Warrior) -> Result<Made, CallRefusal>
    ensures made { IfOk result (λ made. (made.warrior ≡ warrior) × (made.program ≡ plain_program warrior)) }
    ensures memory { IfErr result (λ refusal. refusal ≡ CallRefusal.OutOfMemory) }
{
    match Made::of(warrior) {
        Ok(made) => Ok(made),
        Err(_) => Err(CallRefusal::OutOfMemory),
    }
}

/// A program, and the lines of its cells in its source with their labels.
#[derive(Drop)]
pub struct Mapped {
    pub made: Made,
    pub lines: Vec<CellLine>,
    pub labels: Vec<u8>,
}

/// Returns the program that a source is assembled to, with the lines and labels of its cells.
///
/// `warriors` is the value of WARRIORS.
pub fn assembled(
    alloc: Global,
    settings: &MarsSettings,
    warriors: u32,
    source: &[u8],
) -> Result<Mapped, CallRefusal>
    ensures made { IfOk result (λ mapped. IsAssembled settings.now warriors source.now mapped.made.warrior
        × (mapped.made.program ≡ plain_program mapped.made.warrior)) }
    ensures lines { IfOk result (λ mapped. AreLines settings.now warriors source.now (record { lines = mapped.lines.items; labels = mapped.labels.items })) }
    ensures refused { IfErr result (RefusesSource settings.now warriors source.now) }
{
    let params = match parameters(settings) {
        Ok(params) => params,
        Err(fault) => return Err(CallRefusal::Parameters(fault)),
    };
    let assembled = match assemble_with_lines(alloc, source, &params, settings.rounds, warriors) {
        Ok(assembled) => assembled,
        Err(fault) => return Err(refused_source(fault)),
    };
    let Assembled {
        warrior,
        lines,
        labels,
    } = assembled;
    match made_of(warrior) {
        Ok(made) => Ok(Mapped {
            made,
            lines,
            labels,
        }),
        Err(refusal) => {
            drop(lines);
            drop(labels);
            Err(refusal)
        }
    }
}

/// Returns the program of a load file.
pub fn loaded(alloc: Global, settings: &MarsSettings, text: &[u8]) -> Result<Made, CallRefusal>
    ensures read { IfOk result (λ made. IsLoaded settings.now text.now made.warrior × (made.program ≡ plain_program made.warrior)) }
    ensures refused { IfErr result (RefusesLoad settings.now text.now) }
{
    let params = match parameters(settings) {
        Ok(params) => params,
        Err(fault) => return Err(CallRefusal::Parameters(fault)),
    };
    match read_load(alloc, text, &params) {
        Ok(warrior) => made_of(warrior),
        Err(LoadFault::OutOfMemory) => Err(CallRefusal::OutOfMemory),
        Err(fault) => Err(CallRefusal::Load(fault)),
    }
}

/// Returns the warrior with these cells and the start and names of `program`.
fn named_warrior(
    alloc: Global,
    params: &Params,
    cells: &[MarsCell],
    program: &MarsProgram,
) -> Result<Warrior, EntrantFault>
    ensures warrior { IfOk result (IsEntrant params.now cells.now program.now.warrior.start (named program.now.name) (named program.now.author)) }
    ensures refused { IfErr result (λ fault. fault ≢ EntrantFault.OutOfMemory → IsNoProgram params.now cells.now program.now fault) }
{
    let name = name_in(alloc, &program.name)?;
    let author = name_in(alloc, &program.author)?;
    warrior_of(alloc, params, cells, program.warrior.start, name, author)
}

/// Returns the load file of a program that has these cells.
pub fn written(
    alloc: Global,
    settings: &MarsSettings,
    cells: &[MarsCell],
    program: &MarsProgram,
) -> Result<Vec<u8>, CallRefusal>
    ensures text { IfOk result (λ text. IsLoadFile settings.now cells.now program.now text.items) }
    ensures refused { IfErr result (RefusesWriting settings.now cells.now program.now) }
{
    let params = match parameters(settings) {
        Ok(params) => params,
        Err(fault) => return Err(CallRefusal::Parameters(fault)),
    };
    if program.warrior.length as usize != cells.len() {
        return Err(CallRefusal::Settings(SettingsFault::Lengths));
    }
    let warrior = match named_warrior(alloc, &params, cells, program) {
        Ok(warrior) => warrior,
        Err(EntrantFault::OutOfMemory) => return Err(CallRefusal::OutOfMemory),
        Err(fault) => return Err(CallRefusal::Warrior(0, fault)),
    };
    match write_load(alloc, &warrior, params.core_size()) {
        Ok(text) => Ok(text),
        Err(_) => Err(CallRefusal::OutOfMemory),
    }
}
