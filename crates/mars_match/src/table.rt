//! Tables of results, and the tallies that they are made of.
ghost use Rattle.std.specs.Prelude.{◌≡◌, ◌+◌, ◌<◌, ◌≤◌, ◌%◌, All, length};
ghost use Rattle.mars_cell.specs.Warriors.{IsName};
ghost use Rattle.mars_match.specs.Battles.{in_load_order};
ghost use Rattle.mars_match.specs.Code.Tallies.{no_rounds as spec_no_rounds, added_if, all_added, IsOf};

use crate::fights::is_alive;
use arrayvec::ArrayString;
use mars_core::Battle;
use std::marker::Model;

/// The results of a warrior in all its matches.
#[derive(Clone, Copy, Debug, PartialEq, Eq)]
pub struct Sum {
    /// The sum of the scores.
    pub points: i64,
    /// The number of rounds in which it was the only survivor.
    pub wins: u64,
    /// The number of rounds in which it survived with others.
    pub ties: u64,
    /// The number of rounds in which it didn't survive.
    pub losses: u64,
}

/// The results of one warrior in a match or a league.
#[derive(Debug, Drop)]
pub struct Row {
    // Stored in place, so that a table needs one allocation.
    name: ArrayString<60>,
    author: ArrayString<60>,
    sum: Sum,
}

impl Model for Row {
    ghost use Rattle.mars_match.specs.Tables.{IsRow, RowValue};

    ghost Value = { RowValue };

    ghost view = { λ r. record {
      name = r.name.bytes;
      author = r.author.bytes;
      points = r.sum.points;
      wins = r.sum.wins;
      ties = r.sum.ties;
      losses = r.sum.losses;
    } };

    ghost invariant = { λ r. IsRow (record {
      name = r.name.bytes;
      author = r.author.bytes;
      points = r.sum.points;
      wins = r.sum.wins;
      ties = r.sum.ties;
      losses = r.sum.losses;
    }) };
}

impl Row {
    /// Returns a row with the name and the author of a warrior, each of at most 60 bytes from 32 to 126, and its results.
    pub fn new(name: &str, author: &str, sum: Sum) -> Row
        requires name { IsName name.now }
        requires author { IsName author.now }
        ensures { result ≡ record {
          name = name.now;
          author = author.now;
          points = sum.points;
          wins = sum.wins;
          ties = sum.ties;
          losses = sum.losses;
        } }
    {
        let (mut row_name, mut row_author) = (ArrayString::new(), ArrayString::new());
        row_name.push_str(name);
        row_author.push_str(author);
        Row {
            name: row_name,
            author: row_author,
            sum,
        }
    }

    /// Returns the name: at most 60 bytes, each from 32 to 126.
    pub fn name(&self) -> &str
        ensures value { result.now ≡ self.now.name }
        ensures is_name { IsName self.now.name }
    {
        self.name.as_str()
    }

    /// Returns the author's name: at most 60 bytes, each from 32 to 126.
    pub fn author(&self) -> &str
        ensures value { result.now ≡ self.now.author }
        ensures is_name { IsName self.now.author }
    {
        self.author.as_str()
    }

    /// Returns the sum of the scores.
    pub fn points(&self) -> i64
        ensures { result ≡ self.now.points }
    {
        self.sum.points
    }

    /// Returns the number of rounds in which the warrior was the only survivor.
    pub fn wins(&self) -> u64
        ensures { result ≡ self.now.wins }
    {
        self.sum.wins
    }

    /// Returns the number of rounds in which the warrior survived with others.
    pub fn ties(&self) -> u64
        ensures { result ≡ self.now.ties }
    {
        self.sum.ties
    }

    /// Returns the number of rounds in which the warrior didn't survive.
    pub fn losses(&self) -> u64
        ensures { result ≡ self.now.losses }
    {
        self.sum.losses
    }
}

/// The results of each warrior of a match or a league, in load order.
#[derive(Debug, Drop)]
pub struct Table {
    pub rows: Vec<Row>,
}

/// The results of one warrior so far. The points have 128 bits, so that they stay exact even if they don't fit 64 bits
/// before the end.
#[derive(Clone, Copy)]
pub struct Tally {
    pub points: i128,
    pub wins: u64,
    pub ties: u64,
    pub losses: u64,
}

/// Returns a tally of no rounds.
pub fn no_rounds() -> Tally
    ensures sums { result ≡ spec_no_rounds }
    ensures bounds { IsOf 0 result }
{
    Tally {
        points: 0,
        wins: 0,
        ties: 0,
        losses: 0,
    }
}

/// Returns the tally after one more round. `lived` is true if the warrior survived, `is_alone` if it was the only
/// survivor, and `score` has the points of each survivor.
fn with_round(tally: Tally, lived: bool, is_alone: bool, score: i64, round: u32) -> Tally
    requires { IsOf round tally }
    ensures sums { result ≡ added_if lived is_alone score tally }
    ensures bounds { IsOf (round + 1) result }
{
    if !lived {
        return Tally {
            losses: tally.losses + 1,
            ..tally
        };
    }
    let points = tally.points + i128::from(score);
    if is_alone {
        Tally {
            points,
            wins: tally.wins + 1,
            ..tally
        }
    } else {
        Tally {
            points,
            ties: tally.ties + 1,
            ..tally
        }
    }
}

/// Adds a round to the tally of each warrior, in load order. `battle` is the battle of the round, which is over, and
/// `score` has the points of each survivor.
pub fn add_round(tallies: &mut [Tally], battle: &Battle, round: u32, score: i64)
    requires many { length tallies.old ≡ length battle.now.queues }
    requires some { 1 ≤ length tallies.old }
    requires bounds { All (IsOf round) tallies.old }
    ensures sums { tallies.new ≡ all_added
        (record { lived = in_load_order (round % length tallies.old) battle.now; score = score }) 0 tallies.old }
    ensures bounds { All (IsOf (round + 1)) tallies.new }
{
    let first = round as usize % tallies.len();
    let is_alone = battle.survivors() == 1;
    for i in 0..tallies.len() {
        let lived = is_alive(battle, first, i);
        tallies[i] = with_round(tallies[i], lived, is_alone, score, round);
    }
}
