//! The numbers of errors, as the program prints them.
ghost use Rattle.std.specs.Prelude.{◌≡◌};
ghost use Rattle.mars_c.specs.Codes as codes;

use crate::ranges::LineupFault;
use mars_cell::{LoadFault, ParamFault};
use mars_core::{BattleFault, BlockFault, EditFault};
use mars_match::PlaceFault;
use redcode_asm::AsmProblem;
use redcode_text::{ExprFault, Span, TextProblem};

pub fn parameter_number(fault: ParamFault) -> u32
    ensures { result ≡ codes.parameter_number fault }
{
    fault as u32 + 1
}

pub fn expression_number(fault: ExprFault) -> u32
    ensures { result ≡ codes.expression_number fault }
{
    fault as u32 + 1
}

pub fn lineup_number(fault: LineupFault) -> u32
    ensures { result ≡ codes.lineup_number fault }
{
    fault as u32 + 1
}

pub fn load_number(fault: LoadFault) -> u32
    ensures { result ≡ codes.load_number fault }
{
    match fault {
        LoadFault::Syntax(_) => 1,
        LoadFault::TooLong => 2,
        LoadFault::Empty => 3,
        LoadFault::BadOrigin => 4,
        LoadFault::OutOfMemory => 5,
        LoadFault::Version => 6,
    }
}

/// Returns the line of an error in a load file; 0 if the error has no line.
pub fn load_line(fault: LoadFault) -> u64
    ensures { result ≡ codes.load_line fault }
{
    match fault {
        LoadFault::Syntax(line) => line as u64,
        _ => 0,
    }
}

pub fn placement_number(fault: PlaceFault) -> u32
    ensures { result ≡ codes.placement_number fault }
{
    fault as u32 + 1
}

pub fn battle_number(fault: BattleFault) -> u32
    ensures { result ≡ codes.battle_number fault }
{
    fault as u32 + 1
}

pub fn block_number(fault: BlockFault) -> u32
    ensures { result ≡ codes.block_number fault }
{
    match fault {
        BlockFault::Short => 1,
        BlockFault::Mark => 2,
        BlockFault::Parameters(_) => 3,
        BlockFault::Warriors => 4,
        BlockFault::Cell(_) => 5,
        BlockFault::Queue(_) => 6,
        BlockFault::Deaths => 7,
        BlockFault::Clock => 8,
        BlockFault::Head => 9,
        BlockFault::OutOfMemory => 10,
    }
}

/// Returns the number of the parameter that is out of its range; 0 for other errors.
pub fn block_problem(fault: BlockFault) -> u32
    ensures { result ≡ codes.block_problem fault }
{
    match fault {
        BlockFault::Parameters(fault) => parameter_number(fault),
        _ => 0,
    }
}

/// Returns the address of the first wrong cell; 0 for other errors.
pub fn block_line(fault: BlockFault) -> u64
    ensures { result ≡ codes.block_line fault }
{
    match fault {
        BlockFault::Cell(address) => u64::from(address),
        _ => 0,
    }
}

/// Returns the first warrior whose queue is wrong; 0 for other errors.
pub fn block_warrior(fault: BlockFault) -> u64
    ensures { result ≡ codes.block_warrior fault }
{
    match fault {
        BlockFault::Queue(warrior) => u64::from(warrior),
        _ => 0,
    }
}

pub fn edit_number(fault: EditFault) -> u32
    ensures { result ≡ codes.edit_number fault }
{
    fault as u32 + 2
}

pub fn assembly_number(problem: AsmProblem) -> u32
    ensures { result ≡ codes.assembly_number problem }
{
    match problem {
        AsmProblem::Text(_) => 1,
        AsmProblem::Operation => 2,
        AsmProblem::Operand => 3,
        AsmProblem::Expression(_) => 4,
        AsmProblem::AssertFailed => 5,
        AsmProblem::BadOrigin => 6,
        AsmProblem::Empty => 7,
        AsmProblem::TooLong => 8,
        AsmProblem::OutOfMemory => 9,
    }
}

/// Returns the numbers of the text's problem and of the expression's error; 0 for a number that does not apply.
pub fn problem_numbers(problem: AsmProblem) -> (u32, u32)
    ensures { result ≡ codes.problem_numbers problem }
{
    match problem {
        AsmProblem::Text(problem) => (text_number(problem), text_expression(problem)),
        AsmProblem::Expression(fault) => (0, expression_number(fault)),
        _ => (0, 0),
    }
}

/// Returns the index of the first byte of a token and the index after its last byte; 0 and 0 if there is no token.
pub fn token_bytes(token: Option<Span>) -> (u64, u64)
    ensures { result ≡ codes.token_bytes token }
{
    match token {
        Some(token) => (token.from as u64, token.to as u64),
        None => (0, 0),
    }
}

/// Returns the number of the error of an expression within a problem of a text; 0 if the problem is another one.
fn text_expression(problem: TextProblem) -> u32
    ensures { result ≡ codes.text_expression problem }
{
    match problem {
        TextProblem::Expression(fault) => expression_number(fault),
        _ => 0,
    }
}

fn text_number(problem: TextProblem) -> u32
    ensures { result ≡ codes.text_number problem }
{
    match problem {
        TextProblem::NotAscii => 1,
        TextProblem::BadToken => 2,
        TextProblem::UnclosedFor => 3,
        TextProblem::RofAlone => 4,
        TextProblem::BadCount => 5,
        TextProblem::LabelInCount => 6,
        TextProblem::Duplicate => 7,
        TextProblem::EquDepth => 8,
        TextProblem::TooLong => 9,
        TextProblem::Expression(_) => 10,
        TextProblem::OutOfMemory => 11,
    }
}
