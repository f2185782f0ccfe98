//! Whether loaded warriors would overlap.
ghost use Rattle.std.specs.Prelude.{◌≡◌, length, ◌+◌, ◌%◌, ◌≤◌, true, ◌||◌};
ghost use Rattle.mars_core.specs.Start.{addresses_from, loaded_addresses, has_duplicate, overlap};
ghost use Rattle.mars_core.specs.Code.Distances.{distance as spec_distance, share};

use mars_cell::Warrior;

/// Returns whether two loaded cells have the same address.
pub fn has_overlap(core_size: u32, warriors: &[Warrior], starts: &[u32]) -> bool
    requires core_size { 1 ≤ core_size }
    requires starts { length starts.now ≡ length warriors.now }
    ensures { result ≡ overlap core_size warriors.now starts.now }
{
    for i in 0..warriors.len() {
        if clashes(
            core_size,
            &warriors[i],
            starts[i],
            &warriors[i + 1..],
            &starts[i + 1..],
        ) {
            return true;
        }
    }
    false
}

/// Returns whether two cells of the warrior have the same address, or a cell of the warrior has the address of a cell
/// of another warrior.
#[tactic(auto, using(crate::proofs::Overlaps::row_has_duplicate))]
fn clashes(
    core_size: u32,
    warrior: &Warrior,
    start: u32,
    others: &[Warrior],
    starts: &[u32],
) -> bool
    requires core_size { 1 ≤ core_size }
    requires starts { length starts.now ≡ length others.now }
    ensures { let row = addresses_from core_size start (length warrior.now.cells) in
        result ≡ (has_duplicate row || share row (loaded_addresses core_size others.now starts.now)) }
{
    warrior.cells().len() > core_size as usize
        || meets_others(core_size, warrior, start, others, starts)
}

/// Returns whether a cell of the warrior has the address of a cell of another warrior.
fn meets_others(
    core_size: u32,
    warrior: &Warrior,
    start: u32,
    others: &[Warrior],
    starts: &[u32],
) -> bool
    requires core_size { 1 ≤ core_size }
    requires starts { length starts.now ≡ length others.now }
    ensures { result ≡ share (addresses_from core_size start (length warrior.now.cells))
        (loaded_addresses core_size others.now starts.now) }
{
    let len = warrior.cells().len();
    for i in 0..others.len() {
        let other = &others[i];
        if rows_share(core_size, start, len, starts[i], other.cells().len()) {
            return true;
        }
    }
    false
}

/// Returns whether two ranges of cells have an address in common, which they have if one starts within the other.
#[tactic(auto, using(crate::proofs::Overlaps::rows_share))]
fn rows_share(core_size: u32, start: u32, len: usize, other_start: u32, other_len: usize) -> bool
    requires core_size { 1 ≤ core_size }
    requires len { 1 ≤ len }
    requires other_len { 1 ≤ other_len }
    ensures { result ≡ share (addresses_from core_size start len) (addresses_from core_size other_start other_len) }
{
    (distance(core_size, start, other_start) as usize) < len
        || (distance(core_size, other_start, start) as usize) < other_len
}

/// Returns the distance from the address `from` forward to the address `to`.
#[tactic(auto, unfolding(crate::specs::Code::Distances::distance))]
fn distance(core_size: u32, from: u32, to: u32) -> u32
    requires { 1 ≤ core_size }
    ensures { result ≡ spec_distance core_size from to }
{
    let size = u64::from(core_size);
    ((u64::from(to) + (size - u64::from(from) % size)) % size) as u32
}
