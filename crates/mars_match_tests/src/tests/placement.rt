//! The starting positions of warriors, and the errors of placing them.
ghost use Rattle.std.specs.Prelude.{◌-◌, Some};

use super::sizes;
use mars_core::BattleFault;
use mars_match::{MatchFault, PlaceFault, place};
use redcode_text::ExprFault;
use std::test::Fail;

#[test]
fn placements(rt: HostRuntime) -> Result<(), Fail> {
    let cases: [(u32, u32, u32, &[u32], u32); 7] = [
        (8000, 2, 1, &[0, 1305], 16807),
        (8000, 3, 1, &[0, 1505, 2769], 1622650073),
        (200, 2, 77, &[0, 100], 1294139),
        (8000, 2, 16807, &[0, 1139], 282475249),
        (8000, 2, 282475249, &[0, 3168], 1622650073),
        (400, 4, 1, &[0, 200, 100, 300], 1144108930),
        (400, 1, 1, &[0], 1),
    ];
    for (core_size, warriors, seed, starts, next_seed) in cases {
        if warriors < 1 || warriors > 16 {
            return Err("warriors".into());
        }
        let params = sizes(core_size, 100)?;
        let placed = place(rt.alloc(), &params, warriors, seed).ok();
        let (found, next) = placed.ok_or("placement")?;
        assert_eq!(rt; found.as_slice(), starts, "{warriors} in {core_size}");
        assert_eq!(rt; next, next_seed, "{warriors} in {core_size}");
    }
    Ok(())
}

#[test]
fn refused_placements(rt: HostRuntime) -> Result<(), Fail> {
    let cases = [
        (199, 2, 1, PlaceFault::NoRoom),
        (199, 2, 0, PlaceFault::NoRoom),
        (8000, 2, 0, PlaceFault::BadSeed),
        (8000, 1, 2147483647, PlaceFault::BadSeed),
    ];
    for (core_size, warriors, seed, fault) in cases {
        if warriors < 1 || warriors > 16 {
            return Err("warriors".into());
        }
        let params = sizes(core_size, 100)?;
        let refused = place(rt.alloc(), &params, warriors, seed).err();
        assert_eq!(rt; refused, Some(fault), "seed {seed} in {core_size}");
    }
    Ok(())
}

const FAULTS: [(MatchFault, &str); 6] = [
    (MatchFault::Place(PlaceFault::NoRoom), "1 Place 1 NoRoom"),
    (MatchFault::Place(PlaceFault::BadSeed), "1 Place 2 BadSeed"),
    (
        MatchFault::Place(PlaceFault::OutOfMemory),
        "1 Place 3 OutOfMemory",
    ),
    (
        MatchFault::Battle(BattleFault::Overlap),
        "2 Battle 3 Overlap",
    ),
    (MatchFault::Score(ExprFault::Range), "3 Score 4 Range"),
    (MatchFault::OutOfMemory, "4 OutOfMemory"),
];

#[test]
fn faults_are_displayed(rt: HostRuntime) -> Result<(), Fail> {
    for (fault, text) in FAULTS {
        assert_eq!(rt; format!(in rt.alloc(); "{fault}")?.as_str(), text);
    }
    Ok(())
}
