//! The pairs of fields that a modifier selects, and what an opcode does with the numbers of each pair.
ghost use Rattle.std.specs.Prelude.{◌≡◌, ◌<◌, ◌≤◌, true};
ghost use Rattle.mars_cell.specs.Cells.{FitsCore};
ghost use Rattle.mars_cell.specs.Limits.{max_core_size};
ghost use Rattle.mars_core.specs.Effect.{pairs_of, takes_whole_cells as spec_takes_whole_cells, with_pairs as spec_with_pairs, all_pairs_pass as spec_all_pairs_pass, are_equal_cells as spec_are_equal_cells, are_equal as spec_are_equal};
ghost use Rattle.mars_core.specs.Code.Opcodes.{new_number as spec_new_number, passes_test as spec_passes_test};

use crate::machine::address::{lowered, remainder};
use crate::packed::PackedCell;
use mars_cell::{Field, Modifier, Op};

/// Returns whether MOV, SEQ and SNE use whole cells with this modifier.
#[inline(always)]
pub fn takes_whole_cells(modifier: Modifier) -> bool
    ensures { result ≡ spec_takes_whole_cells modifier }
{
    matches!(modifier, Modifier::I)
}

/// Returns the target with the result of the opcode in the second field of each pair.
#[inline(always)]
pub fn with_pairs(
    core_size: u32,
    op: Op,
    modifier: Modifier,
    a: PackedCell,
    b: PackedCell,
    target: PackedCell,
) -> PackedCell
    requires core_size { (1 ≤ core_size) × (core_size ≤ max_core_size) }
    requires a { FitsCore core_size a }
    requires b { FitsCore core_size b }
    requires target { FitsCore core_size target }
    requires no_divisor { (op ≡ Op.Div → ⊥) × (op ≡ Op.Mod → ⊥) }
    ensures value { result ≡ spec_with_pairs (spec_new_number core_size op) a b (pairs_of modifier) target }
    ensures fits { FitsCore core_size result }
{
    match modifier {
        Modifier::A => target.with_a(new_number(core_size, op, a.a(), b.a())),
        Modifier::B => target.with_b(new_number(core_size, op, a.b(), b.b())),
        Modifier::Ab => target.with_b(new_number(core_size, op, a.a(), b.b())),
        Modifier::Ba => target.with_a(new_number(core_size, op, a.b(), b.a())),
        Modifier::F | Modifier::I => target
            .with_a(new_number(core_size, op, a.a(), b.a()))
            .with_b(new_number(core_size, op, a.b(), b.b())),
        Modifier::X => target
            .with_a(new_number(core_size, op, a.b(), b.a()))
            .with_b(new_number(core_size, op, a.a(), b.b())),
    }
}

/// Returns the result of an opcode for the number `x` of the A-copy and the number `y` of the B-copy.
#[inline(always)]
pub fn new_number(core_size: u32, op: Op, x: u32, y: u32) -> u32
    requires core_size { (1 ≤ core_size) × (core_size ≤ max_core_size) }
    requires x { x < core_size }
    requires y { y < core_size }
    requires divisor { op ≡ Op.Div → 1 ≤ x }
    requires modulus { op ≡ Op.Mod → 1 ≤ x }
    ensures value { result ≡ spec_new_number core_size op x y }
    ensures inside { result < core_size }
{
    match op {
        Op::Mov => x,
        Op::Add => remainder(core_size, y + x),
        Op::Sub => remainder(core_size, y + (core_size - x)),
        Op::Mul => (u64::from(y) * u64::from(x) % u64::from(core_size)) as u32,
        Op::Div => y / x,
        Op::Mod => y % x,
        Op::Djn => lowered(core_size, y),
        _ => y,
    }
}

/// Returns whether the operands are equal: the two numbers of each pair, or the whole cells with the modifier I.
#[inline(always)]
#[tactic(auto, unfolding(crate::specs::Effect::are_equal))]
pub fn are_equal(core_size: u32, modifier: Modifier, a: PackedCell, b: PackedCell) -> bool
    requires core_size { (1 ≤ core_size) × (core_size ≤ max_core_size) }
    requires b { FitsCore core_size b }
    ensures { result ≡ spec_are_equal modifier a b }
{
    if takes_whole_cells(modifier) {
        are_equal_cells(a, b)
    } else {
        all_pairs_pass(core_size, Op::Seq, modifier, a, b)
    }
}

/// Returns whether two cells are equal in all parts.
#[inline(always)]
fn are_equal_cells(a: PackedCell, b: PackedCell) -> bool
    ensures { result ≡ spec_are_equal_cells a b }
{
    a.equals(b)
}

/// Returns whether each pair of fields passes the test of the opcode.
#[inline(always)]
pub fn all_pairs_pass(
    core_size: u32,
    op: Op,
    modifier: Modifier,
    a: PackedCell,
    b: PackedCell,
) -> bool
    requires core_size { (1 ≤ core_size) × (core_size ≤ max_core_size) }
    requires b { FitsCore core_size b }
    ensures { result ≡ spec_all_pairs_pass (spec_passes_test core_size op) a b (pairs_of modifier) }
{
    match modifier {
        Modifier::A => passes_test(core_size, op, a.a(), b.a()),
        Modifier::B => passes_test(core_size, op, a.b(), b.b()),
        Modifier::Ab => passes_test(core_size, op, a.a(), b.b()),
        Modifier::Ba => passes_test(core_size, op, a.b(), b.a()),
        Modifier::F | Modifier::I => {
            passes_test(core_size, op, a.a(), b.a()) && passes_test(core_size, op, a.b(), b.b())
        }
        Modifier::X => {
            passes_test(core_size, op, a.a(), b.b()) && passes_test(core_size, op, a.b(), b.a())
        }
    }
}

/// Returns whether the number `x` of the A-copy and the number `y` of the B-copy pass the test of the opcode.
#[inline(always)]
fn passes_test(core_size: u32, op: Op, x: u32, y: u32) -> bool
    requires core_size { (1 ≤ core_size) × (core_size ≤ max_core_size) }
    requires y { y < core_size }
    ensures { result ≡ spec_passes_test core_size op x y }
{
    match op {
        Op::Jmz | Op::Jmn => y == 0,
        Op::Djn => lowered(core_size, y) == 0,
        Op::Seq | Op::Sne => x == y,
        Op::Slt => x < y,
        _ => true,
    }
}

/// Returns the pairs of fields that a modifier selects: one of the A-copy, and one of the B-copy or B-target.
pub fn pairs(modifier: Modifier) -> &'static [(Field, Field)]
    ensures { result.now ≡ pairs_of modifier }
{
    match modifier {
        Modifier::A => &[(Field::ANumber, Field::ANumber)],
        Modifier::B => &[(Field::BNumber, Field::BNumber)],
        Modifier::Ab => &[(Field::ANumber, Field::BNumber)],
        Modifier::Ba => &[(Field::BNumber, Field::ANumber)],
        Modifier::F | Modifier::I => &[
            (Field::ANumber, Field::ANumber),
            (Field::BNumber, Field::BNumber),
        ],
        Modifier::X => &[
            (Field::ANumber, Field::BNumber),
            (Field::BNumber, Field::ANumber),
        ],
    }
}
