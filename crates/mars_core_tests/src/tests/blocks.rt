//! Blocks of words: a block that was written is read back, and other words are rejected with the right error.

use super::{battle_of, check_same, make_turns, three_stay};
use mars_cell::ParamFault;
use mars_core::{BLOCK_MARK, Battle, BlockFault};
use std::alloc::Global;
use std::process::Abort;
use std::test::Fail;

/// Returns the block of a battle, followed by seven words with the value 7.
fn block_of(alloc: Global, battle: &Battle) -> Result<Vec<u32>, Fail> {
    let len = battle.block_len();
    let mut words = Vec::from_elem(alloc, 7, len + 7)?;
    battle.write_block(&mut words);
    Ok(words)
}

/// Checks that a block is read back as the battle that wrote it, and that both continue alike.
fn check_round_trip(rt: &impl Abort, alloc: Global, battle: &mut Battle) -> Result<(), Fail> {
    let words = block_of(alloc, battle)?;
    let len = battle.block_len();
    assert_eq!(rt; words.get(1).copied(), Some(len as u32));
    assert_eq!(rt; words.get(len..), Some(&[7, 7, 7, 7, 7, 7, 7][..]));
    let mut copy = Battle::read_block(alloc, &words).ok().ok_or("block")?;
    check_same(rt, &copy, battle);
    copy.run(5);
    battle.run(5);
    check_same(rt, &copy, battle);
    Ok(())
}

/// A warrior that splits, one that dies, and one that stays.
const IN_PLAY: &[(u32, &str)] = &[
    (0, "SPL.B $0, $0"),
    (2, "DAT.F $0, $0"),
    (4, "JMP.B $0, $0"),
];

#[test]
fn blocks_are_read_as_they_were_written(rt: HostRuntime) -> Result<(), Fail> {
    let mut battle = battle_of(rt.alloc(), (8, 3, 5, 4), IN_PLAY)?;
    check_round_trip(&rt, rt.alloc(), &mut battle)?;
    make_turns(&mut battle, 6)?;
    check_round_trip(&rt, rt.alloc(), &mut battle)?;
    battle.run_to_end();
    check_round_trip(&rt, rt.alloc(), &mut battle)
}

/// Words that are changed in a block, by their indices, and the error that results: of two mistakes, the one that is
/// checked first. The block has 91 words. Its battle has three warriors with one process each and a process limit of
/// three, in a core of 8 cells, after 4 turns.
const ERRORS: &[(&[(usize, u32)], BlockFault)] = &[
    (&[(0, BLOCK_MARK + 1)], BlockFault::Mark),
    (&[(2, 0)], BlockFault::Parameters(ParamFault::CoreSize)),
    (&[(8, 9)], BlockFault::Parameters(ParamFault::Distance)),
    (&[(9, 0)], BlockFault::Warriors),
    (&[(9, 17)], BlockFault::Warriors),
    (&[(2, 11)], BlockFault::Short),
    (&[(18, 4_294_967_295)], BlockFault::Short),
    (&[(64, 16)], BlockFault::Cell(0)),
    (&[(67, 7 * 256)], BlockFault::Cell(1)),
    (&[(70, 8 * 65_536)], BlockFault::Cell(2)),
    (&[(73, 8 * 16_777_216)], BlockFault::Cell(3)),
    (&[(77, 8)], BlockFault::Cell(4)),
    (&[(87, 8)], BlockFault::Cell(7)),
    (&[(16, 4)], BlockFault::Queue(0)),
    (&[(89, 8)], BlockFault::Queue(1)),
    (&[(14, 1)], BlockFault::Deaths),
    (&[(14, 17)], BlockFault::Deaths),
    (&[(12, 3)], BlockFault::Clock),
    (&[(11, 11)], BlockFault::Clock),
    (&[(10, 5)], BlockFault::Clock),
    (&[(1, 90)], BlockFault::Head),
    (&[(13, 1)], BlockFault::Head),
    (&[(15, 1)], BlockFault::Head),
    (&[(19, 1)], BlockFault::Head),
    (&[(63, 1)], BlockFault::Head),
    (&[(0, 0), (2, 0)], BlockFault::Mark),
    (
        &[(3, 0), (9, 0)],
        BlockFault::Parameters(ParamFault::Processes),
    ),
    (&[(9, 0), (2, 11)], BlockFault::Warriors),
    (&[(2, 11), (14, 17)], BlockFault::Short),
    (&[(14, 17), (64, 16)], BlockFault::Deaths),
    (&[(67, 16), (64, 16)], BlockFault::Cell(0)),
    (&[(64, 16), (88, 8)], BlockFault::Cell(0)),
    (&[(90, 8), (88, 8)], BlockFault::Queue(0)),
    (&[(88, 8), (14, 1)], BlockFault::Queue(0)),
    (&[(14, 1), (12, 3)], BlockFault::Deaths),
    (&[(12, 3), (15, 1)], BlockFault::Clock),
];

#[test]
fn words_that_are_no_block(rt: HostRuntime) -> Result<(), Fail> {
    let battle = three_stay(rt.alloc(), 3, 4)?;
    assert_eq!(rt; battle.block_len(), 91);
    for (changes, fault) in ERRORS {
        let mut words = block_of(rt.alloc(), &battle)?;
        for (place, word) in *changes {
            if let Some(changed) = words.get_mut(*place) {
                *changed = *word;
            }
        }
        let read = Battle::read_block(rt.alloc(), &words);
        assert_eq!(rt; read.err(), Some(*fault));
    }
    Ok(())
}

#[test]
fn words_that_are_too_few(rt: HostRuntime) -> Result<(), Fail> {
    let battle = three_stay(rt.alloc(), 3, 4)?;
    let mut words = block_of(rt.alloc(), &battle)?;
    for len in [0, 63, 64, 87, 90] {
        let few = words.get(..len).ok_or("words")?;
        assert_eq!(rt;
            Battle::read_block(rt.alloc(), few).err(),
            Some(BlockFault::Short)
        );
    }
    let whole = words.get(..91).ok_or("words")?;
    assert!(rt; Battle::read_block(rt.alloc(), whole).is_ok());
    if let Some(mark) = words.first_mut() {
        *mark = 0;
    }
    let few = words.get(..63).ok_or("words")?;
    assert_eq!(rt;
        Battle::read_block(rt.alloc(), few).err(),
        Some(BlockFault::Short)
    );
    Ok(())
}
