//! Rows as numbers.
ghost use Rattle.std.specs.Prelude.{◌≡◌, ◌≢◌, Err, IfErr, IfOk, OnErr, OnOk, length, map};
ghost use Rattle.mars_c.specs.Contests.{plain_row, plain_sum};

use mars_match::{MatchFault, Row, Sum};
use std::alloc::Global;

/// The result of one warrior.
#[repr(C)]
#[derive(Clone, Copy)]
pub struct MarsRow {
    pub points: i64,
    pub wins: u64,
    pub ties: u64,
    pub losses: u64,
}

impl MarsRow {
    /// Returns a row as numbers.
    pub fn of(row: &Row) -> MarsRow
        ensures { result ≡ plain_row row.now }
    {
        MarsRow {
            points: row.points(),
            wins: row.wins(),
            ties: row.ties(),
            losses: row.losses(),
        }
    }

    /// Returns a sum as numbers.
    fn of_sum(sum: Sum) -> MarsRow
        ensures { result ≡ plain_sum sum }
    {
        MarsRow {
            points: sum.points,
            wins: sum.wins,
            ties: sum.ties,
            losses: sum.losses,
        }
    }
}

/// Returns rows as numbers.
fn plain_rows(alloc: Global, rows: &[Row]) -> Result<Vec<MarsRow>, MatchFault>
    ensures plain { IfOk result (λ plain. plain.items ≡ map plain_row rows.now) }
    ensures memory { IfErr result (λ fault. fault ≡ MatchFault.OutOfMemory) }
{
    let mut plain = Vec::with_capacity(alloc, rows.len())?;
    for row in rows {
        plain.push(MarsRow::of(row))?;
    }
    Ok(plain)
}

/// Writes rows to `place`, which has exactly as many.
///
/// Allocates a vector of the converted rows.
pub fn give_rows(alloc: Global, rows: &[Row], place: &mut [MarsRow]) -> Result<(), MatchFault>
    ensures ok { OnOk result (place.new ≡ map plain_row rows.now) }
    ensures err { OnErr result (place.new ≡ place.old) }
    ensures memory { IfErr result (λ fault. fault ≡ MatchFault.OutOfMemory) }
{
    let plain = plain_rows(alloc, rows)?;
    if plain.len() != place.len() {
        // A table has a row for each warrior, so this is never reached, and any error would do.
        return Err(MatchFault::OutOfMemory);
    }
    place.copy_from_slice(&plain);
    Ok(())
}

/// Writes sums to `place`, which has exactly as many.
pub fn give_sums(sums: &[Sum], place: &mut [MarsRow])
    requires { length sums.now ≡ length place.old }
    ensures { place.new ≡ map plain_sum sums.now }
{
    for i in 0..place.len() {
        place[i] = MarsRow::of_sum(sums[i]);
    }
}
