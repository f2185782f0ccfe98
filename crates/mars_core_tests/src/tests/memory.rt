//! Calls whose allocations fail. dev/checks/memory lets each allocation of a test fail in turn. Each test must pass
//! whichever allocation fails, since a second try has memory.
use super::{check_clock, check_same, params};
use mars_cell::{Params, Warrior, read_cell};
use mars_core::{Ancestors, AncestorsFault, Battle, BattleFault, BlockFault};
use std::alloc::Global;
use std::process::Abort;
use std::test::Fail;

/// Returns warriors of one cell each, for a core of 8 cells.
pub fn one_cells(alloc: Global, texts: &[&str]) -> Option<Vec<Warrior>> {
    let mut warriors = Vec::new(alloc);
    for text in texts {
        let mut cells = Vec::new(alloc);
        cells.push(read_cell(text.as_bytes(), 8)?).ok()?;
        let warrior = Warrior::new(String::new(alloc), String::new(alloc), cells, 0).ok()?;
        warriors.push(warrior).ok()?;
    }
    Some(warriors)
}

/// Returns a battle of a warrior that copies itself and one that stays.
pub fn start(alloc: Global, params: &Params) -> Result<Battle, BattleFault> {
    let texts: [&str; 2] = ["MOV.I $0, $1", "JMP.B $0, $0"];
    match one_cells(alloc, &texts) {
        Some(warriors) if warriors.len() == 2 => Battle::new(alloc, params, &warriors, &[0, 4]),
        _ => Err(BattleFault::OutOfMemory),
    }
}

/// Checks that the battle continues for three turns, after which both warriors live.
fn check_three_turns(rt: &impl Abort, battle: &mut Battle) {
    for _turn in 0..3 {
        assert!(rt; battle.turn().is_ok());
    }
    check_clock(rt, battle, 1, 1, 3);
    assert!(rt; battle.alive(0));
    assert!(rt; battle.alive(1));
}

#[test]
fn a_battle_starts(rt: HostRuntime) -> Result<(), Fail> {
    let params = params(8, 2, 8, 8)?;
    let mut battle = match start(rt.alloc(), &params) {
        Err(fault) => {
            assert_eq!(rt; fault, BattleFault::OutOfMemory);
            start(rt.alloc(), &params).ok().ok_or("battle")?
        }
        Ok(battle) => battle,
    };
    check_three_turns(&rt, &mut battle);
    Ok(())
}

/// Returns a battle, if at most one of its allocations fails.
fn second_start(alloc: Global, params: &Params) -> Option<Battle> {
    start(alloc, params).or_else(|_| start(alloc, params)).ok()
}

#[test]
fn a_battle_is_copied(rt: HostRuntime) -> Result<(), Fail> {
    let params = params(8, 2, 8, 8)?;
    let battle = second_start(rt.alloc(), &params).ok_or("battle")?;
    let twin = second_start(rt.alloc(), &params).ok_or("twin")?;
    let mut copy = match battle.copy(rt.alloc()) {
        Err(_) => {
            check_same(&rt, &battle, &twin);
            battle.copy(rt.alloc())?
        }
        Ok(copy) => copy,
    };
    check_same(&rt, &copy, &battle);
    check_three_turns(&rt, &mut copy);
    check_same(&rt, &battle, &twin);
    Ok(())
}

/// Returns the block of a battle, if at most one of its allocations fails.
fn second_block(alloc: Global, battle: &Battle) -> Option<Vec<u32>> {
    let len = battle.block_len();
    let asked: Result<Vec<u32>, _> = Vec::from_elem(alloc, 0, len).or_else(|_| Vec::from_elem(
        alloc, 0, len,
    ));
    let mut words = asked.ok()?;
    battle.write_block(&mut words);
    Some(words)
}

#[test]
fn a_block_is_read(rt: HostRuntime) -> Result<(), Fail> {
    let params = params(8, 2, 8, 8)?;
    let battle = second_start(rt.alloc(), &params).ok_or("battle")?;
    let words = second_block(rt.alloc(), &battle).ok_or("block")?;
    let mut copy = match Battle::read_block(rt.alloc(), &words) {
        Err(fault) => {
            assert_eq!(rt; fault, BlockFault::OutOfMemory);
            Battle::read_block(rt.alloc(), &words).ok().ok_or("copy")?
        }
        Ok(copy) => copy,
    };
    check_same(&rt, &copy, &battle);
    check_three_turns(&rt, &mut copy);
    Ok(())
}

/// Returns a battle of a warrior that splits in its first turn and whose first process then dies.
fn splitting(alloc: Global, params: &Params) -> Option<Battle> {
    let warriors = one_cells(alloc, &["SPL.B $0, $0"])?;
    if warriors.len() != 1 {
        return None;
    }
    Battle::new(alloc, params, &warriors, &[0]).ok()
}

#[test]
fn ancestors_are_found(rt: HostRuntime) -> Result<(), Fail> {
    let params = params(8, 2, 8, 8)?;
    let battle = splitting(rt.alloc(), &params)
        .or_else(|| splitting(rt.alloc(), &params))
        .ok_or("battle")?;
    let mut births = [0];
    let answer = match battle.ancestors(rt.alloc(), 2, 0, 0, &mut births) {
        Err(fault) => {
            assert_eq!(rt; fault, AncestorsFault::OutOfMemory);
            assert_eq!(rt; births, [0]);
            battle.ancestors(rt.alloc(), 2, 0, 0, &mut births)
        }
        answer => answer,
    };
    assert_eq!(rt; answer, Ok(Ancestors { count: 1, first: 0 }));
    assert_eq!(rt; births, [1]);
    Ok(())
}
