//! Loading warriors from files.
ghost use Rattle.std.specs.Prelude.{◌≡◌, All, IfErr, IfOk, Some, false, length, map, string_bytes, true, vec_len};
ghost use Rattle.mars_cell.specs.Cells.{FitsCore};
ghost use Rattle.mars_app.specs.Code.Blames.{IsAssemblyFault, IsLoadFault};
ghost use Rattle.mars_app.specs.Faults.{FailsToLoad, FirstFails, IsFaultOfFile, IsReadFaultOfFile};
ghost use Rattle.mars_app.specs.Loading.{AllFit, AreLoaded, IsLoadFileOf, IsRead, is_load_file, shown_character, shown_name, warrior_of_file};

use crate::fault::RunFault;
use crate::files::{FileFault, WarriorFiles};
use mars_cell::{LoadFault, Params, Warrior, read_load, write_load};
use redcode_asm::{AsmFault, AsmProblem, assemble, assemble_load};
use std::alloc::{AllocError, Global};

/// Maximum size of a warrior's file in bytes.
const MAX_FILE_LEN: usize = 1_048_576;

/// The parameters of a match, with which its warriors are assembled.
#[derive(Clone, Copy)]
pub struct Contest<'p> {
    pub params: &'p Params,
    pub rounds: u32,
    /// Number of warriors of a battle: the value of WARRIORS.
    pub warriors: u32,
}

/// Loads the warriors of the files, in order. Stops at the first file that fails.
pub fn load_warriors<F: WarriorFiles>(
    alloc: Global,
    files: &F,
    names: &[String],
    contest: Contest<'_>,
) -> Result<Vec<Warrior>, RunFault>
    ensures fit { IfOk result (λ warriors. AllFit contest.entry.params.now.core_size warriors.items) }
    ensures many { IfOk result (λ warriors. vec_len warriors ≡ length names.now) }
    ensures loaded { let c = contest.entry in IfOk result
        (λ warriors. AreLoaded (F.known files.now) c.params.now c.rounds c.warriors
        (map (λ name. string_bytes name) names.now) warriors.items) }
    ensures err { let c = contest.entry in IfErr result
        (FirstFails (F.known files.now) c.params.now c.rounds c.warriors (map (λ name. string_bytes name) names.now)) }
{
    let mut warriors = Vec::new(alloc);
    for name in names {
        let bytes = read_file(alloc, files, name.as_str())?;
        let warrior = read_warrior(alloc, name.as_str(), &bytes, contest)?;
        let Ok(()) = warriors.push(warrior) else {
            return Err(RunFault::OutOfMemory);
        };
    }
    Ok(warriors)
}

/// Returns the load file of the warrior of a file. A source is assembled; a load file is read and written again.
pub fn load_file_of<F: WarriorFiles>(
    alloc: Global,
    files: &F,
    name: &str,
    contest: Contest<'_>,
) -> Result<Vec<u8>, RunFault>
    ensures ok { let c = contest.entry in IfOk result
        (λ text. IsLoadFileOf (F.known files.now) c.params.now c.rounds c.warriors name.now text.items) }
    ensures err { let c = contest.entry in IfErr result (FailsToLoad (F.known files.now) c.params.now c.rounds c.warriors name.now) }
{
    let bytes = read_file(alloc, files, name)?;
    if is_load_file(name) {
        let warrior = read_load_file(alloc, name, &bytes, contest)?;
        return match write_load(alloc, &warrior, contest.params.core_size()) {
            Ok(text) => Ok(text),
            Err(_) => Err(RunFault::OutOfMemory),
        };
    }
    let Contest {
        params,
        rounds,
        warriors,
    } = contest;
    match assemble_load(alloc, &bytes, params, rounds, warriors) {
        Ok(text) => Ok(text),
        Err(fault) => Err(assembly_fault(alloc, name, fault)),
    }
}

/// Returns the content of a file.
fn read_file<F: WarriorFiles>(alloc: Global, files: &F, name: &str) -> Result<Vec<u8>, RunFault>
    ensures ok { IfOk result (λ bytes. IsRead (F.known files.now) name.now bytes.items) }
    ensures err { IfErr result (IsReadFaultOfFile (F.known files.now) name.now) }
{
    let fault = match files.read(alloc, name, MAX_FILE_LEN) {
        Ok(bytes) => return Ok(bytes),
        Err(fault) => fault,
    };
    let Ok(name) = shown_name(alloc, name) else {
        return Err(RunFault::OutOfMemory);
    };
    Err(match fault {
        FileFault::OutOfMemory => RunFault::OutOfMemory,
        FileFault::CannotRead => RunFault::CannotRead(name),
        FileFault::TooLarge => RunFault::TooLarge(name),
    })
}

/// Returns a file's name for an error message: each control character is shown as `?`, so that the message is one line.
fn shown_name(alloc: Global, name: &str) -> Result<String, AllocError>
    ensures { IfOk result (λ shown. string_bytes shown ≡ shown_name name.now) }
{
    let mut shown = String::new(alloc);
    for character in name.chars() {
        shown.push(shown_character(character))?;
    }
    Ok(shown)
}

/// Returns a character of a name for an error message.
fn shown_character(character: char) -> char
    ensures { result ≡ shown_character character }
{
    if character.is_control() {
        '?'
    } else {
        character
    }
}

fn is_load_file(name: &str) -> bool
    ensures { result ≡ is_load_file name.now }
{
    name.as_bytes().ends_with(b".load")
}

/// Returns the warrior of a file: a load file if its name ends in `.load`, otherwise a source.
fn read_warrior(
    alloc: Global,
    name: &str,
    bytes: &[u8],
    contest: Contest<'_>,
) -> Result<Warrior, RunFault>
    ensures value { let c = contest.entry in IfOk result
        (λ warrior. warrior_of_file c.params.now c.rounds c.warriors name.now bytes.now ≡ Some warrior) }
    ensures fits { IfOk result (λ warrior. All (FitsCore contest.entry.params.now.core_size) warrior.cells) }
    ensures err { let c = contest.entry in IfErr result (IsFaultOfFile c.params.now c.rounds c.warriors name.now bytes.now) }
{
    if is_load_file(name) {
        return read_load_file(alloc, name, bytes, contest);
    }
    assemble_file(alloc, name, bytes, contest)
}

/// Returns the warrior of a load file.
fn read_load_file(
    alloc: Global,
    name: &str,
    bytes: &[u8],
    contest: Contest<'_>,
) -> Result<Warrior, RunFault>
    requires { is_load_file name.now ≡ true }
    ensures value { let c = contest.entry in IfOk result
        (λ warrior. warrior_of_file c.params.now c.rounds c.warriors name.now bytes.now ≡ Some warrior) }
    ensures fits { IfOk result (λ warrior. All (FitsCore contest.entry.params.now.core_size) warrior.cells) }
    ensures err { let c = contest.entry in IfErr result (IsFaultOfFile c.params.now c.rounds c.warriors name.now bytes.now) }
{
    match read_load(alloc, bytes, contest.params) {
        Ok(warrior) => Ok(warrior),
        Err(fault) => Err(load_fault(alloc, name, fault)),
    }
}

/// Returns the warrior of a source.
fn assemble_file(
    alloc: Global,
    name: &str,
    bytes: &[u8],
    contest: Contest<'_>,
) -> Result<Warrior, RunFault>
    requires { is_load_file name.now ≡ false }
    ensures value { let c = contest.entry in IfOk result
        (λ warrior. warrior_of_file c.params.now c.rounds c.warriors name.now bytes.now ≡ Some warrior) }
    ensures fits { IfOk result (λ warrior. All (FitsCore contest.entry.params.now.core_size) warrior.cells) }
    ensures err { let c = contest.entry in IfErr result (IsFaultOfFile c.params.now c.rounds c.warriors name.now bytes.now) }
{
    let Contest {
        params,
        rounds,
        warriors,
    } = contest;
    match assemble(alloc, bytes, params, rounds, warriors) {
        Ok(warrior) => Ok(warrior),
        Err(fault) => Err(assembly_fault(alloc, name, fault)),
    }
}

/// Converts the error of a load file. The line is 0 if the error has none.
fn load_fault(alloc: Global, name: &str, fault: LoadFault) -> RunFault
    ensures { IsLoadFault name.now fault result }
{
    let line = match fault {
        LoadFault::Syntax(line) => line,
        LoadFault::OutOfMemory => return RunFault::OutOfMemory,
        _ => 0,
    };
    match shown_name(alloc, name) {
        Ok(name) => RunFault::Load(name, line, fault),
        Err(_) => RunFault::OutOfMemory,
    }
}

/// Converts the error of a source.
fn assembly_fault(alloc: Global, name: &str, fault: AsmFault) -> RunFault
    ensures { IsAssemblyFault name.now fault result }
{
    if fault.problem == AsmProblem::OutOfMemory {
        return RunFault::OutOfMemory;
    }
    match shown_name(alloc, name) {
        Ok(name) => RunFault::Assembly(name, fault.line, fault),
        Err(_) => RunFault::OutOfMemory,
    }
}
