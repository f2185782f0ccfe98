//! The cells that turns read or write, as numbers.
ghost use Rattle.std.specs.Prelude.{◌≡◌, ◌≤◌, length, slice_index_or};
ghost use Rattle.mars_c.specs.Touches.{plain_touched, touched_row};

use crate::playing::TurnRow;
use crate::records::address_at;
use mars_core::{Atom, Battle};

/// The cells that a turn reads or writes: the number of addresses, and the addresses. Unused addresses are 0.
#[repr(C)]
#[derive(Clone, Copy)]
pub struct MarsTouched {
    pub count: u32,
    pub address: [u32; 8],
}

/// Returns the row of these addresses.
fn plain(addresses: &[u32]) -> MarsTouched
    requires few { length addresses.now ≤ 8 }
    ensures { result ≡ plain_touched addresses.now }
{
    let at = |place| address_at(addresses, place);
    MarsTouched {
        count: addresses.len() as u32,
        address: [at(0), at(1), at(2), at(3), at(4), at(5), at(6), at(7)],
    }
}

impl TurnRow for MarsTouched {
    ghost row_of = { touched_row };

    fn record_turn(battle: &mut Battle, atom: &mut Atom, row: &mut Self) {
        *row = plain(battle.turn_touching(atom).as_slice());
    }
}
