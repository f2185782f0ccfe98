//! Why calls fail, and the errors that their callers get.
ghost use Rattle.std.specs.Prelude.{◌≡◌, ◌≢◌, ◌≤◌, if◌then◌else◌};
ghost use Rattle.mars_c.specs.Codes.{block_fault_of, fault_of, numbered as spec_numbered};
ghost use Rattle.mars_c.specs.Refusals.{fight_refusal, refusal_at};
ghost use Rattle.mars_c.specs.declared.faults.BlockRefusal.TheVariants as refused;
ghost use Rattle.mars_c.specs.declared.faults.CallRefusal.TheVariants as variant;

use crate::numbers::{
    assembly_number, battle_number, block_line, block_number, block_problem, block_warrior,
    edit_number, expression_number, lineup_number, load_line, load_number, parameter_number,
    placement_number, problem_numbers, token_bytes,
};
use crate::ranges::{LineupFault, SettingsFault};
use crate::warriors::EntrantFault;
use mars_cell::{LoadFault, ParamFault};
use mars_core::{BattleFault, BlockFault, EditFault};
use mars_match::{MatchFault, PlaceFault};
use redcode_asm::{AsmFault, AsmProblem};
use redcode_text::ExprFault;

/// Why a call failed.
#[derive(Clone, Copy)]
pub enum CallRefusal {
    OutOfMemory,
    Settings(SettingsFault),
    Parameters(ParamFault),
    Formula(ExprFault),
    Assembly(AsmFault),
    Load(LoadFault),
    Placement(PlaceFault),
    Battle(BattleFault),
    Score(ExprFault),
    /// Error of the warrior with this index, from 0.
    Warrior(usize, EntrantFault),
    /// Error of the lineup with this index, from 0.
    Lineup(usize, LineupFault),
}

/// Why a call on a block failed.
#[derive(Clone, Copy)]
pub enum BlockRefusal {
    OutOfMemory,
    /// The words do not begin with the block of a battle.
    Block(BlockFault),
    /// The words have less capacity than the battle needs.
    Capacity,
    /// The numbers at this index, from 0, mean no edit.
    NoSuchEdit(usize),
    /// Error of the edit with this index, from 0.
    Edit(usize, EditFault),
    /// The history is not from 1 to 1,000,000 places.
    History,
    /// The numbers at this index, from 0, mean no condition.
    Condition(usize),
    /// The number of pasts is not the size of the core.
    Pasts,
    /// The warrior has no process with this index after the turns.
    Process,
}

/// An error as the caller gets it. Fields that do not apply are 0.
#[repr(C)]
#[derive(Clone, Copy)]
pub struct MarsFault {
    /// Result of the call, as a number of `include/mars.h`.
    pub code: u32,
    /// Number of the error, in the list of `include/mars.h` for `code`.
    pub number: u32,
    /// Number of a problem of the text, for an assembly; number of a parameter, for a block.
    pub problem: u32,
    /// Number of the error of an expression, for an assembly.
    pub expression: u32,
    /// Line of a source or a load file, from 1; index of a wrong cell of a warrior, or address of a wrong cell of a block.
    pub line: u64,
    /// Index of a warrior, a lineup, a condition or an edit, from 0.
    pub warrior: u64,
    /// Index in the source of the first byte of the token at which an assembly fails, from 0.
    pub begin: u64,
    /// Index after the last byte of this token.
    pub end: u64,
}

/// Returns the error with this code and number; the other fields are 0.
fn numbered(code: u32, number: u32) -> MarsFault
    ensures { result ≡ spec_numbered code number }
{
    MarsFault {
        code,
        number,
        problem: 0,
        expression: 0,
        line: 0,
        warrior: 0,
        begin: 0,
        end: 0,
    }
}

/// Returns the error with this code and number of an argument with this index; the other fields are 0.
fn indexed(code: u32, number: u32, index: usize) -> MarsFault
    ensures { result ≡ record (spec_numbered code number) { warrior = index } }
{
    MarsFault {
        warrior: index as u64,
        ..numbered(code, number)
    }
}

/// Converts the error of a source.
fn assembly(fault: AsmFault) -> MarsFault
    ensures { result ≡ fault_of (variant.Assembly fault) }
{
    let (problem, expression) = problem_numbers(fault.problem);
    let (begin, end) = token_bytes(fault.token);
    MarsFault {
        problem,
        expression,
        line: fault.line as u64,
        begin,
        end,
        ..numbered(5, assembly_number(fault.problem))
    }
}

/// Converts the error of a load file.
fn load(fault: LoadFault) -> MarsFault
    ensures { result ≡ fault_of (variant.Load fault) }
{
    MarsFault {
        line: load_line(fault),
        ..numbered(6, load_number(fault))
    }
}

/// Converts the error of the warrior at `index`.
fn entrant(index: usize, fault: EntrantFault) -> MarsFault
    ensures { result ≡ fault_of (variant.Warrior index fault) }
{
    MarsFault {
        line: fault.line(),
        warrior: index as u64,
        ..numbered(13, fault.number())
    }
}

/// Converts the error of the lineup at `index`.
fn lineup(index: usize, fault: LineupFault) -> MarsFault
    ensures { result ≡ fault_of (variant.Lineup index fault) }
{
    indexed(14, lineup_number(fault), index)
}

/// Converts the reason for which a call failed to the error that the caller gets.
pub fn to_c_fault(refusal: CallRefusal) -> MarsFault
    ensures fault { result ≡ fault_of refusal }
    ensures some { 1 ≤ result.code }
    ensures not_room { result.code ≢ 10 }
{
    match refusal {
        CallRefusal::OutOfMemory => numbered(1, 0),
        CallRefusal::Settings(fault) => numbered(2, fault.number()),
        CallRefusal::Parameters(fault) => numbered(3, parameter_number(fault)),
        CallRefusal::Formula(fault) => numbered(4, expression_number(fault)),
        CallRefusal::Assembly(fault) => assembly(fault),
        CallRefusal::Load(fault) => load(fault),
        CallRefusal::Placement(fault) => numbered(7, placement_number(fault)),
        CallRefusal::Battle(fault) => numbered(8, battle_number(fault)),
        CallRefusal::Score(fault) => numbered(9, expression_number(fault)),
        CallRefusal::Warrior(index, fault) => entrant(index, fault),
        CallRefusal::Lineup(index, fault) => lineup(index, fault),
    }
}

/// Converts the error of words that are no block.
fn block(fault: BlockFault) -> MarsFault
    ensures { result ≡ block_fault_of (refused.Block fault) }
{
    MarsFault {
        problem: block_problem(fault),
        line: block_line(fault),
        warrior: block_warrior(fault),
        ..numbered(11, block_number(fault))
    }
}

/// Converts the reason for which a call on a block failed to the error that the caller gets.
pub fn block_fault(refusal: BlockRefusal) -> MarsFault
    ensures { result ≡ block_fault_of refusal }
{
    match refusal {
        BlockRefusal::OutOfMemory => numbered(1, 0),
        BlockRefusal::Block(fault) => block(fault),
        BlockRefusal::Capacity => numbered(10, 0),
        BlockRefusal::NoSuchEdit(index) => indexed(12, 1, index),
        BlockRefusal::Edit(index, fault) => indexed(12, edit_number(fault), index),
        BlockRefusal::History => numbered(2, 6),
        BlockRefusal::Condition(index) => indexed(15, 0, index),
        BlockRefusal::Pasts => numbered(2, 7),
        BlockRefusal::Process => numbered(16, 0),
    }
}

/// Returns the result of a call that did its work: code 0 if the result fits the caller's buffers, and 10 otherwise.
pub fn given(fits: bool) -> MarsFault
    ensures { result ≡ (if fits then spec_numbered 0 0 else spec_numbered 10 0) }
{
    if fits {
        numbered(0, 0)
    } else {
        numbered(10, 0)
    }
}

/// Converts the error of a match to a refusal. A failed allocation at any step is `OutOfMemory`.
pub fn refused_fight(fault: MatchFault) -> CallRefusal
    ensures { result ≡ fight_refusal fault }
{
    match fault {
        MatchFault::OutOfMemory => CallRefusal::OutOfMemory,
        MatchFault::Place(PlaceFault::OutOfMemory) => CallRefusal::OutOfMemory,
        MatchFault::Battle(BattleFault::OutOfMemory) => CallRefusal::OutOfMemory,
        MatchFault::Place(fault) => CallRefusal::Placement(fault),
        MatchFault::Battle(fault) => CallRefusal::Battle(fault),
        MatchFault::Score(fault) => CallRefusal::Score(fault),
    }
}

/// Converts the error of a source to a refusal.
pub fn refused_source(fault: AsmFault) -> CallRefusal
    ensures { result ≡ refusal_at fault.problem fault }
{
    match fault.problem {
        AsmProblem::OutOfMemory => CallRefusal::OutOfMemory,
        _ => CallRefusal::Assembly(fault),
    }
}
