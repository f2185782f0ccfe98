//! The past of cells, a search, and moments: two imps, of which the second one executes copies of the first.

use super::battle_of;
use mars_core::{Battle, Condition, Found, MAX_WARRIORS, Moment, Number, Past, Way};
use std::process::Abort;
use std::test::Fail;

fn is(number: Number, value: u32) -> Condition {
    Condition {
        way: Way::Executes,
        number,
        first: value,
        last: value,
    }
}

/// Returns a turn of the second imp that executes the cell at an address, whose origin is 0 and which `owner` changed
/// last in turn `changed`.
fn found(turn: u32, address: u32, owner: u32, changed: u32) -> Found {
    let past = Past {
        owner,
        turn: changed,
        origin: 0,
    };
    Found {
        turn,
        warrior: 1,
        queued: 1,
        address,
        past,
    }
}

/// Returns a battle of two imps, and the past of each cell, with the owner 9 and its own address as the origin.
fn two_imps(rt: &HostRuntime) -> Result<(Battle, Vec<Past>), Fail> {
    let imps = &[(0, "MOV.I $0, $1"), (1, "MOV.I $0, $1")];
    let battle = battle_of(rt.alloc(), (8, 8, 8, 8), imps)?;
    let mut pasts = Vec::new(rt.alloc());
    for address in 0..8 {
        pasts.push(Past {
            owner: 9,
            turn: 0,
            origin: address,
        })?;
    }
    Ok((battle, pasts))
}

#[test]
fn imps_are_followed_and_found(rt: HostRuntime) -> Result<(), Fail> {
    let (mut battle, mut pasts) = two_imps(&rt)?;
    let conditions = [is(Number::Origin, 0), is(Number::Warrior, 1)];
    let none = found(7, 7, 9, 0);
    let mut turns = [none; 4];
    if pasts.len() != battle.params().core_size() as usize {
        return Err("core size".into());
    }
    let count = battle.follow(6, &mut pasts, &conditions, &mut turns);
    assert_eq!(&rt; count, 3);
    // In turn 2 the second imp executes the cell at which it was loaded, which is by then an equal copy of the first
    // imp.
    assert_eq!(&rt;
        turns,
        [
            found(2, 1, 9, 0),
            found(4, 2, 1, 2),
            found(6, 3, 1, 4),
            none
        ]
    );
    let second = Past {
        owner: 1,
        turn: 2,
        origin: 0,
    };
    assert_eq!(&rt; pasts.get(2).copied(), Some(second));
    Ok(())
}

#[test]
fn moments_are_after_each_step(rt: HostRuntime) -> Result<(), Fail> {
    let (mut battle, mut pasts) = two_imps(&rt)?;
    let mut none = Moment {
        turns: 0,
        found: 0,
        cells: [0; MAX_WARRIORS],
        processes: [0; MAX_WARRIORS],
    };
    none.cells[9] = 8;
    let mut moments = [none; 3];
    if pasts.len() != battle.params().core_size() as usize {
        return Err("core size".into());
    }
    // In the first step, the turns 2, 4 and 6 are those of the second imp, and each changes a cell. The last step ends
    // early, with the battle.
    battle.moments(7, &mut pasts, &[is(Number::Warrior, 1)], &mut moments);
    assert_eq!(&rt; moments[0].turns, 7);
    assert_eq!(&rt;
        (moments[0].found, moments[0].cells[1], moments[0].cells[9]),
        (3, 3, 5)
    );
    assert_eq!(&rt;
        (
            moments[0].processes[0],
            moments[0].processes[1],
            moments[0].processes[2]
        ),
        (1, 1, 0)
    );
    assert_eq!(&rt; moments[1].turns, 14);
    assert_eq!(&rt; moments[2].turns, 20);
    assert_eq!(&rt; battle.turns(), 20);
    Ok(())
}
