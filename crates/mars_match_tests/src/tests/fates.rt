//! The fate of each warrior in each round.
use super::{DEAD, STAY, one_cells, sizes};
use mars_match::{Counts, Plan, fight_rounds};
use std::process::Abort;
use std::test::Fail;

/// Two rounds whose starts are drawn.
const TWO_ROUNDS: Plan = Plan {
    rounds: 2,
    seed: 1,
    fixed: None,
};

#[test]
fn each_warrior_has_a_fate_in_each_round(rt: HostRuntime) -> Result<(), Fail> {
    let params = sizes(6, 2)?;
    let warriors = one_cells(rt.alloc(), 6, &[STAY, DEAD, STAY])?;
    let fought = fight_rounds(rt.alloc(), &params, &TWO_ROUNDS, warriors, false, None)
        .ok()
        .ok_or("fates")?;
    let fates = &fought.fates;
    assert!(rt; fates.len() == 6);
    // Ten cycles of two turns, and the turn of the warrior that dies: the second turn of round 0, the first turn of
    // round 1.
    assert!(rt; fates[0].survived && fates[0].turns == 21 && fates[0].start == 0);
    assert!(rt; !fates[1].survived && fates[1].turns == 2);
    assert!(rt; fates[2].survived && fates[2].turns == 21);
    assert!(rt; !fates[4].survived && fates[4].turns == 1);
    assert!(rt; fates[1].start != 0 && fates[2].start != fates[1].start);
    Ok(())
}

#[test]
fn each_warrior_is_counted(rt: HostRuntime) -> Result<(), Fail> {
    let params = sizes(6, 2)?;
    let warriors = one_cells(rt.alloc(), 6, &[STAY, DEAD, STAY])?;
    let fought = fight_rounds(rt.alloc(), &params, &TWO_ROUNDS, warriors, true, None)
        .ok()
        .ok_or("fates")?;
    let fates = &fought.fates;
    assert!(rt; fates.len() == 6);
    // The living warriors execute their one cell in each of ten cycles. In round 1, where the second warrior has the first
    // turn and the third one the second, both also have a turn in the last cycle.
    let once = Counts {
        turns: 1,
        spawned: 0,
        executed: 1,
        written: 0,
        touched: 1,
    };
    assert!(rt; fates[0].counts == Counts { turns: 10, ..once });
    assert!(rt; fates[1].counts == once && fates[4].counts == once);
    assert!(rt; fates[5].counts == Counts { turns: 10, ..once });
    assert!(rt; fates[0].turns == 21 && fates[0].survived);
    Ok(())
}

#[test]
fn no_warrior_has_no_fate(rt: HostRuntime) -> Result<(), Fail> {
    let params = sizes(6, 2)?;
    let none = Vec::new(rt.alloc());
    assert!(rt; fight_rounds(rt.alloc(), &params, &TWO_ROUNDS, none, true, None).is_err());
    Ok(())
}

/// A battle of three warriors leaves nothing to a match of three others, nor to one of two.
#[test]
fn matches_share_memory(rt: HostRuntime) -> Result<(), Fail> {
    let params = sizes(6, 2)?;
    let mut last = None;
    for texts in [
        &[STAY, DEAD, STAY] as &[&str],
        &[DEAD, STAY, DEAD],
        &[STAY, DEAD],
        &[DEAD, DEAD],
    ] {
        let warriors = one_cells(rt.alloc(), 6, texts)?;
        let fought = fight_rounds(rt.alloc(), &params, &TWO_ROUNDS, warriors, false, last)
            .ok()
            .ok_or("fates")?;
        let warriors = one_cells(rt.alloc(), 6, texts)?;
        let alone = fight_rounds(rt.alloc(), &params, &TWO_ROUNDS, warriors, false, None)
            .ok()
            .ok_or("fates")?;
        assert!(rt; fought.fates.as_slice() == alone.fates.as_slice());
        last = fought.last;
    }
    Ok(())
}
