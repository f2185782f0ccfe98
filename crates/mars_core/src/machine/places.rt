//! The evaluation of operands (`specs/Operand`).
ghost use Rattle.std.specs.Prelude.{◌≡◌, ◌<◌, ◌≤◌, false, length};
ghost use Rattle.mars_cell.specs.Cells.{field_of};
ghost use Rattle.mars_cell.specs.Limits.{max_core_size};
ghost use Rattle.mars_core.specs.State.{cell_at as spec_cell_at};
ghost use Rattle.mars_core.specs.Addresses.{address_after as spec_address_after, raised as spec_raised, lowered as spec_lowered};
ghost use Rattle.mars_core.specs.Validity.{IsCore};
ghost use Rattle.mars_core.specs.Writes.{write_field};
ghost use Rattle.mars_core.specs.Operand.{direct_operand, indirect_operand, evaluated, pointed_address, predecremented, postincremented};
ghost use Rattle.mars_core.specs.Code.Operands.{IsUnlimited, IsPlace, placed, unwritten, writes_field};

use crate::machine::address::{address_after, folded, folded_number, lowered, raised};
use crate::packed::PackedCell;
use mars_cell::{Field, Mode, Params};

/// The result of an operand: its read address, its write address, and a copy of the cell at the read address.
#[derive(Clone, Copy)]
pub struct Place {
    pub read: u32,
    pub write: u32,
    pub copy: PackedCell,
}

/// Evaluates the operand of the instruction at `pc` with a mode and a number, and writes the field that the mode
/// writes.
///
/// The constants `CALLER`, `GROUP` and `OPERAND` make an instance for each call (`execution`).
#[inline(always)]
#[tactic(auto, unfolding(crate::specs::Operand::evaluated))]
pub fn place_of<const LIMITED: bool, const CALLER: u8, const GROUP: u8, const OPERAND: u8>(
    params: &Params,
    core: &mut [PackedCell],
    pc: u32,
    mode: Mode,
    number: u32,
) -> Place
    requires core { IsCore params.now.core_size core.old }
    requires unlimited { LIMITED ≡ false → IsUnlimited params.now }
    requires pc { pc < params.now.core_size }
    requires number { number < params.now.core_size }
    ensures core_is { core.new ≡ (evaluated params.now (unwritten core.old) pc mode number).written.core }
    ensures place { result ≡ placed params.now.core_size pc (evaluated params.now (unwritten core.old) pc mode number).operand }

    // What callers need.
    ensures core { IsCore params.now.core_size core.new }
    ensures fits { IsPlace params.now.core_size result }
{
    match mode {
        Mode::Immediate => here(params.core_size(), core, pc),
        Mode::Direct => direct::<LIMITED>(params, core, pc, number),
        Mode::AIndirect => indirect::<LIMITED>(params, core, Field::ANumber, pc, number),
        Mode::BIndirect => indirect::<LIMITED>(params, core, Field::BNumber, pc, number),
        Mode::APredecrement => predecrement::<LIMITED>(params, core, Field::ANumber, pc, number),
        Mode::BPredecrement => predecrement::<LIMITED>(params, core, Field::BNumber, pc, number),
        Mode::APostincrement => postincrement::<LIMITED>(params, core, Field::ANumber, pc, number),
        Mode::BPostincrement => postincrement::<LIMITED>(params, core, Field::BNumber, pc, number),
    }
}

/// Returns whether a mode writes a field.
#[inline(always)]
pub fn writes_a_field(mode: Mode) -> bool
    ensures { result ≡ writes_field mode }
{
    match mode {
        Mode::Immediate | Mode::Direct | Mode::AIndirect | Mode::BIndirect => false,
        Mode::APredecrement | Mode::BPredecrement | Mode::APostincrement | Mode::BPostincrement =>
            true,
    }
}

/// Evaluates a direct operand: the folded number leads to the cell.
#[inline(always)]
#[tactic(auto, unfolding(crate::specs::Operand::direct_operand))]
fn direct<const LIMITED: bool>(params: &Params, core: &[PackedCell], pc: u32, number: u32) -> Place
    requires core { IsCore params.now.core_size core.now }
    requires unlimited { LIMITED ≡ false → IsUnlimited params.now }
    requires pc { pc < params.now.core_size }
    requires number { number < params.now.core_size }
    ensures value { result ≡ placed params.now.core_size pc (direct_operand params.now core.now pc number number) }
    ensures fits { IsPlace params.now.core_size result }
{
    let core_size = params.core_size();
    let read = folded_number::<LIMITED>(core_size, params.read_limit(), number);
    let write = folded_number::<LIMITED>(core_size, params.write_limit(), number);
    place_at(
        core_size,
        core,
        address_after(core_size, pc, read),
        address_after(core_size, pc, write),
    )
}

/// Evaluates an indirect operand: the folded number leads to a cell, whose field is added before the sum is folded.
#[inline(always)]
#[tactic(auto, using(crate::proofs::Folding::through), unfolding(crate::specs::Operand::indirect_operand, crate::specs::Operand::direct_operand))]
fn indirect<const LIMITED: bool>(
    params: &Params,
    core: &[PackedCell],
    field: Field,
    pc: u32,
    number: u32,
) -> Place
    requires core { IsCore params.now.core_size core.now }
    requires unlimited { LIMITED ≡ false → IsUnlimited params.now }
    requires pc { pc < params.now.core_size }
    requires number { number < params.now.core_size }
    ensures value { result ≡ placed params.now.core_size pc (indirect_operand params.now field core.now pc number) }
    ensures fits { IsPlace params.now.core_size result }
{
    let core_size = params.core_size();
    let rp = folded_number::<LIMITED>(core_size, params.read_limit(), number);
    let wp = folded_number::<LIMITED>(core_size, params.write_limit(), number);
    let read_through = address_after(core_size, pc, rp);
    let write_through = address_after(core_size, pc, wp);
    let from = number_at(core_size, core, field, read_through);
    let to = number_at(core_size, core, field, write_through);
    let read = folded::<LIMITED>(core_size, params.read_limit(), rp + from);
    let write = folded::<LIMITED>(core_size, params.write_limit(), wp + to);
    place_at(
        core_size,
        core,
        address_through::<LIMITED>(core_size, pc, read, read_through, from),
        address_through::<LIMITED>(core_size, pc, write, write_through, to),
    )
}

/// Evaluates a predecrement operand: decrements the field, then evaluates the indirect operand.
#[inline(always)]
#[tactic(auto, unfolding(crate::specs::Operand::predecremented))]
fn predecrement<const LIMITED: bool>(
    params: &Params,
    core: &mut [PackedCell],
    field: Field,
    pc: u32,
    number: u32,
) -> Place
    requires core { IsCore params.now.core_size core.old }
    requires unlimited { LIMITED ≡ false → IsUnlimited params.now }
    requires pc { pc < params.now.core_size }
    requires number { number < params.now.core_size }
    ensures core_is { core.new ≡ (predecremented params.now field (unwritten core.old) pc number).written.core }
    ensures place { result ≡ placed params.now.core_size pc (predecremented params.now field (unwritten core.old) pc number).operand }
    ensures core { IsCore params.now.core_size core.new }
    ensures fits { IsPlace params.now.core_size result }
{
    let address = pointed::<LIMITED>(params, pc, number);
    lower_field(params.core_size(), core, field, address);
    indirect::<LIMITED>(params, core, field, pc, number)
}

/// Evaluates a postincrement operand: evaluates the indirect operand, then increments the field.
#[inline(always)]
#[tactic(auto, unfolding(crate::specs::Operand::postincremented))]
fn postincrement<const LIMITED: bool>(
    params: &Params,
    core: &mut [PackedCell],
    field: Field,
    pc: u32,
    number: u32,
) -> Place
    requires core { IsCore params.now.core_size core.old }
    requires unlimited { LIMITED ≡ false → IsUnlimited params.now }
    requires pc { pc < params.now.core_size }
    requires number { number < params.now.core_size }
    ensures core_is { core.new ≡ (postincremented params.now field (unwritten core.old) pc number).written.core }
    ensures place { result ≡ placed params.now.core_size pc (postincremented params.now field (unwritten core.old) pc number).operand }
    ensures core { IsCore params.now.core_size core.new }
    ensures fits { IsPlace params.now.core_size result }
{
    let found = indirect::<LIMITED>(params, core, field, pc, number);
    let address = pointed::<LIMITED>(params, pc, number);
    raise_field(params.core_size(), core, field, address);
    found
}

/// Returns the address of the cell whose field a predecrement or postincrement writes.
#[inline(always)]
pub fn pointed<const LIMITED: bool>(params: &Params, pc: u32, number: u32) -> u32
    requires unlimited { LIMITED ≡ false → IsUnlimited params.now }
    requires pc { pc < params.now.core_size }
    requires number { number < params.now.core_size }
    ensures value { result ≡ pointed_address params.now pc number }
    ensures inside { result < params.now.core_size }
{
    let core_size = params.core_size();
    let pointer = folded_number::<LIMITED>(core_size, params.write_limit(), number);
    address_after(core_size, pc, pointer)
}

/// Returns the address of an indirect operand: with limits, `pointer` cells after `pc`, where `pointer` is the folded
/// sum; without limits, by one addition, `number` cells after `through`, the address of the cell with this number.
#[inline(always)]
fn address_through<const LIMITED: bool>(
    core_size: u32,
    pc: u32,
    pointer: u32,
    through: u32,
    number: u32,
) -> u32
    requires size { core_size ≤ max_core_size }
    requires pc { pc < core_size }
    requires pointer { pointer < core_size }
    requires through { through < core_size }
    requires number { number < core_size }
    requires unlimited { LIMITED ≡ false → spec_address_after core_size through number ≡ spec_address_after core_size pc pointer }
    ensures value { result ≡ spec_address_after core_size pc pointer }
    ensures inside { result < core_size }
{
    if LIMITED {
        address_after(core_size, pc, pointer)
    } else {
        address_after(core_size, through, number)
    }
}

/// Evaluates an immediate operand: the instruction itself.
#[inline(always)]
#[tactic(auto, using(crate::proofs::Folding::after_none))]
fn here(core_size: u32, core: &[PackedCell], pc: u32) -> Place
    requires core { IsCore core_size core.now }
    requires pc { pc < core_size }
    ensures value { result ≡ placed core_size pc
        (record { read = 0; write = 0; copy = spec_cell_at core.now (spec_address_after core_size pc 0) }) }
    ensures fits { IsPlace core_size result }
{
    place_at(core_size, core, pc, pc)
}

/// Returns the place with these addresses.
#[inline(always)]
fn place_at(core_size: u32, core: &[PackedCell], read: u32, write: u32) -> Place
    requires core { IsCore core_size core.now }
    requires read { read < core_size }
    requires write { write < core_size }
    ensures value { result ≡ record { read = read; write = write; copy = spec_cell_at core.now read } }
    ensures fits { IsPlace core_size result }
{
    Place {
        read,
        write,
        copy: cell_at(core, read),
    }
}

/// Returns the cell at an address.
#[inline(always)]
pub fn cell_at(core: &[PackedCell], address: u32) -> PackedCell
    requires { address < length core.now }
    ensures { result ≡ spec_cell_at core.now address }
{
    core[address as usize]
}

/// Returns the number in a field of the cell at an address.
#[inline(always)]
fn number_at(core_size: u32, core: &[PackedCell], field: Field, address: u32) -> u32
    requires core { IsCore core_size core.now }
    requires inside { address < core_size }
    ensures value { result ≡ field_of field (spec_cell_at core.now address) }
    ensures inside { result < core_size }
{
    core[address as usize].field(field)
}

/// Increments a field of the cell at an address, modulo the core size.
#[inline(always)]
#[tactic(auto, unfolding(crate::specs::Writes::write_field, crate::specs::Writes::write_cell))]
fn raise_field(core_size: u32, core: &mut [PackedCell], field: Field, address: u32)
    requires core { IsCore core_size core.old }
    requires size { core_size ≤ max_core_size }
    requires inside { address < core_size }
    ensures core_is { core.new ≡ (write_field (spec_raised core_size) field (unwritten core.old) address).core }
    ensures core { IsCore core_size core.new }
{
    let cell = cell_at(core, address);
    let number = raised(core_size, cell.field(field));
    core[address as usize] = cell.with_field(field, number);
}

/// Decrements a field of the cell at an address, modulo the core size.
#[inline(always)]
#[tactic(auto, unfolding(crate::specs::Writes::write_field, crate::specs::Writes::write_cell))]
fn lower_field(core_size: u32, core: &mut [PackedCell], field: Field, address: u32)
    requires core { IsCore core_size core.old }
    requires size { core_size ≤ max_core_size }
    requires inside { address < core_size }
    ensures core_is { core.new ≡ (write_field (spec_lowered core_size) field (unwritten core.old) address).core }
    ensures core { IsCore core_size core.new }
{
    let cell = cell_at(core, address);
    let number = lowered(core_size, cell.field(field));
    core[address as usize] = cell.with_field(field, number);
}
