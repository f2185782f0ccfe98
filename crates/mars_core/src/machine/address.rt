//! Sums of addresses, modulo the size of the core, and pointers under a limit (`specs/Addresses`).
ghost use Rattle.std.specs.Prelude.{◌≡◌, ◌<◌, ◌≤◌, false, ◌+◌, ◌%◌};
ghost use Rattle.mars_cell.specs.Limits.{max_core_size};
ghost use Rattle.mars_core.specs.Addresses.{address_after as spec_address_after, fold, raised as spec_raised, lowered as spec_lowered};

/// Returns `number % core_size` without a division, for a number below twice the size of the core.
#[inline(always)]
pub fn remainder(core_size: u32, number: u32) -> u32
    requires size { core_size ≤ max_core_size }
    requires number { number < core_size + core_size }
    ensures value { result ≡ number % core_size }
    ensures inside { result < core_size }
{
    // Tests the sign of the difference: for a comparison, the compiler emits one more subtraction.
    let less = number.wrapping_sub(core_size);
    if less >= 0x8000_0000 { number } else { less }
}

/// Returns the address `distance` cells after `address`.
#[inline(always)]
#[tactic(auto, unfolding(crate::specs::Addresses::address_after))]
pub fn address_after(core_size: u32, address: u32, distance: u32) -> u32
    requires size { core_size ≤ max_core_size }
    requires address { address < core_size }
    requires distance { distance < core_size }
    ensures value { result ≡ spec_address_after core_size address distance }
    ensures inside { result < core_size }
{
    remainder(core_size, address + distance)
}

/// Returns the next address.
#[inline(always)]
#[tactic(auto, unfolding(crate::specs::Addresses::address_after, crate::specs::Addresses::raised))]
pub fn next_address(core_size: u32, address: u32) -> u32
    requires size { core_size ≤ max_core_size }
    requires address { address < core_size }
    ensures value { result ≡ spec_address_after core_size address 1 }
    ensures inside { result < core_size }
{
    raised(core_size, address)
}

/// Returns the address after the next one.
#[inline(always)]
#[tactic(auto, using(crate::proofs::Folding::after_next))]
pub fn skip_address(core_size: u32, address: u32) -> u32
    requires size { core_size ≤ max_core_size }
    requires address { address < core_size }
    ensures value { result ≡ spec_address_after core_size address 2 }
    ensures inside { result < core_size }
{
    next_address(core_size, next_address(core_size, address))
}

/// Returns the pointer folded by a limit. Without `LIMITED`, the limit must be the size of the core.
#[inline(always)]
#[tactic(auto, using(crate::proofs::Folding::fold_whole), unfolding(crate::specs::Addresses::fold))]
pub fn folded<const LIMITED: bool>(core_size: u32, limit: u32, pointer: u32) -> u32
    requires size { core_size ≤ max_core_size }
    requires limit_least { 1 ≤ limit }
    requires limit_most { limit ≤ core_size }
    requires pointer { pointer < core_size + core_size }
    requires unlimited { LIMITED ≡ false → limit ≡ core_size }
    ensures value { result ≡ fold core_size limit pointer }
    ensures inside { result < core_size }
{
    if LIMITED {
        folded_at(core_size, limit, pointer)
    } else {
        remainder(core_size, pointer)
    }
}

/// Returns a number of an instruction, folded as a pointer by a limit. Without `LIMITED`, the limit must be the size of
/// the core.
#[inline(always)]
#[tactic(auto, using(crate::proofs::Folding::fold_inside))]
pub fn folded_number<const LIMITED: bool>(core_size: u32, limit: u32, number: u32) -> u32
    requires limit_least { 1 ≤ limit }
    requires limit_most { limit ≤ core_size }
    requires number { number < core_size }
    requires unlimited { LIMITED ≡ false → limit ≡ core_size }
    ensures value { result ≡ fold core_size limit number }
    ensures inside { result < core_size }
{
    if LIMITED {
        folded_at(core_size, limit, number)
    } else {
        number
    }
}

/// Returns the pointer folded by any limit.
#[tactic(auto, unfolding(crate::specs::Addresses::fold))]
fn folded_at(core_size: u32, limit: u32, pointer: u32) -> u32
    requires limit_least { 1 ≤ limit }
    requires limit_most { limit ≤ core_size }
    ensures value { result ≡ fold core_size limit pointer }
    ensures inside { result < core_size }
{
    let remainder = pointer % limit;
    if remainder > limit / 2 {
        remainder + (core_size - limit)
    } else {
        remainder
    }
}

/// Returns the number plus one, modulo the size of the core.
#[inline(always)]
#[tactic(auto, unfolding(crate::specs::Addresses::raised))]
pub fn raised(core_size: u32, number: u32) -> u32
    requires size { core_size ≤ max_core_size }
    requires number { number < core_size }
    ensures value { result ≡ spec_raised core_size number }
    ensures inside { result < core_size }
{
    let next = number + 1;
    if next == core_size { 0 } else { next }
}

/// Returns the number minus one, modulo the size of the core.
#[inline(always)]
#[tactic(auto, unfolding(crate::specs::Addresses::lowered))]
pub fn lowered(core_size: u32, number: u32) -> u32
    requires size { core_size ≤ max_core_size }
    requires number { number < core_size }
    ensures value { result ≡ spec_lowered core_size number }
    ensures inside { result < core_size }
{
    if number == 0 {
        core_size - 1
    } else {
        number - 1
    }
}
