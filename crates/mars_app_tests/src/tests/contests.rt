//! Matches and leagues: listings and results.

use super::{Played, check_played, check_success};
use std::test::Fail;

const MATCHES: &[Played] = &[
    (
        &["-b", "-c", "10", "imp.load", "stay.load"],
        b"",
        b"  points   wins   ties losses  warrior
       1      0      1      0  Unknown by Anonymous
       1      0      1      0  Unknown by Anonymous
",
    ),
    (
        &["-b", "-r", "2", "dead.load", "stay.load"],
        b"",
        b"  points   wins   ties losses  warrior
       0      0      0      2  Unknown by Anonymous
       6      2      0      0  Unknown by Anonymous
",
    ),
    (
        &["-b", "-o", "-r", "2", "dead.load", "stay.load"],
        b"",
        b"  points   wins   ties losses  warrior
       6      2      0      0  Unknown by Anonymous
       0      0      0      2  Unknown by Anonymous
",
    ),
];

#[test]
fn matches(rt: HostRuntime) -> Result<(), Fail> {
    check_played(&rt, rt.alloc(), MATCHES)
}

const A_LEAGUE: &[Played] = &[(
    &[
        "-b",
        "-c",
        "10",
        "--league",
        "dead.load",
        "imp.load",
        "stay.load",
    ],
    b"",
    b"  points   wins   ties losses  warrior
       0      0      0      2  Unknown by Anonymous
       4      1      1      0  Unknown by Anonymous
       4      1      1      0  Unknown by Anonymous
",
)];

#[test]
fn a_league(rt: HostRuntime) -> Result<(), Fail> {
    check_played(&rt, rt.alloc(), A_LEAGUE)
}

const A_LISTING: &[Played] = &[(
    &[
        "-r",
        "2",
        "-c",
        "10",
        "--score",
        "100*S",
        "imp.load",
        "dead.load",
    ],
    b"",
    b"warrior 0: Unknown by Anonymous, 1 instructions
;load 2 8000
;name Unknown
;author Anonymous
ORG 0
MOV.I $0, $1

warrior 1: Unknown by Anonymous, 1 instructions
;load 2 8000
;name Unknown
;author Anonymous
ORG 0
DAT.F $0, $0

  points   wins   ties losses  warrior
     200      2      0      0  Unknown by Anonymous
       0      0      0      2  Unknown by Anonymous
",
)];

#[test]
fn a_listing_before_the_results(rt: HostRuntime) -> Result<(), Fail> {
    check_played(&rt, rt.alloc(), A_LISTING)
}

const CONTESTS: &[&[&str]] = &[
    &["-b", "-r", "3", "pair.red", "pair.red"],
    &["--league", "-r", "3", "pair.red", "imp.red", "pair.red"],
    &["-e", "-r", "3", "pair.red", "imp.red"],
];

#[test]
fn sources_know_the_contest(rt: HostRuntime) -> Result<(), Fail> {
    check_success(&rt, rt.alloc(), CONTESTS)
}

const NAMED_WARRIORS: &[Played] = &[
    (
        &["-b", "-c", "10", "imp.red", "stay.red"],
        b"",
        b"  points   wins   ties losses  warrior
       1      0      1      0  Imp by Dewdney
       1      0      1      0  Stay by Anonymous
",
    ),
    (
        &[
            "-b", "-c", "10", "--league", "imp.red", "stay.red", "dead.red",
        ],
        b"",
        b"  points   wins   ties losses  warrior
       4      1      1      0  Imp by Dewdney
       4      1      1      0  Stay by Anonymous
       0      0      0      2  Dead by Anonymous
",
    ),
];

#[test]
fn a_match_of_named_warriors(rt: HostRuntime) -> Result<(), Fail> {
    check_played(&rt, rt.alloc(), NAMED_WARRIORS)
}
