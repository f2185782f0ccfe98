//! The options of the program.
ghost use Rattle.std.specs.Prelude.{◌≡◌, [], Err, IfErr, IfOk, IfSome, IsTrue, codes, map, string_bytes, unwrap_or};
ghost use Rattle.clap.specs.Faults.{fault_of};
ghost use Rattle.clap.specs.Matches.{found_of};
ghost use Rattle.clap.specs.Simple.{matches_of};
ghost use Rattle.clap.specs.Values.{kind_of};
ghost use Rattle.clap.specs.Walk.{all_of, first_of, rows_of};
ghost use Rattle.mars_app.specs.CommandLine.{mars};
ghost use Rattle.mars_app.specs.Options.{Reads, are_allowed, given_number, has_files, has_fitting_position, has_numbers, has_one_mode, is_between, is_given, is_limit, number, options_of, value_of};
ghost use Rattle.mars_app.specs.Code.Allowed.{AreInRange, HaveFiles, HaveFittingPosition, HaveNumbers, IsBetween};
ghost use Rattle.mars_app.specs.Code.Words.{IsFaultOf};
ghost use Rattle.mars_cell.specs.Limits.{max_core_size};

use crate::command_line::{MAX_HISTORY, MAX_ROUNDS, command};
use clap::ArgMatches;
use clap::error::ErrorKind;
use mars_cell::{MAX_CORE_SIZE, MAX_CYCLES, MAX_PROCESSES};
use mars_core::MAX_WARRIORS;
use mars_match::MAX_SEED;
use std::alloc::{AllocError, Global};

/// Why the arguments are rejected, or what is printed instead of a run.
#[derive(Drop)]
pub enum WordsFault {
    /// The arguments are invalid.
    BadWords,
    /// The help is requested; the value is its text.
    Help(String),
    /// An allocation failed.
    OutOfMemory,
}

impl From<AllocError> for WordsFault {
    ghost use Rattle.std.specs.Prelude.{◌≡◌};
    ghost use Rattle.mars_app.specs.declared.options.WordsFault.TheVariants as fault;

    ghost from_gives = { λ _ to. to ≡ fault.OutOfMemory };

    fn from(_error: AllocError) -> WordsFault {
        WordsFault::OutOfMemory
    }
}

/// The options. A limit or a position that isn't given is `None`.
#[derive(Drop)]
pub struct Options {
    /// Names of the warriors' files, in order.
    pub files: Vec<String>,
    pub rounds: u32,
    pub core: u32,
    pub cycles: u32,
    pub processes: u32,
    /// Maximum length of a warrior in cells.
    pub longest: u32,
    /// Minimum distance between the first cells of warriors.
    pub distance: u32,
    /// Address of the second of two warriors in every round.
    pub fixed: Option<u32>,
    /// Whether the battle of round 0 is debugged.
    pub debugger: bool,
    /// Whether the listing of the warriors is left out.
    pub brief: bool,
    /// Whether the results are sorted by points.
    pub sorted: bool,
    pub seed: u32,
    /// Text of the score formula.
    pub score: String,
    /// Whether a league is run: a match of each pair of warriors.
    pub league: bool,
    /// Whether the load file of the only warrior is written.
    pub load: bool,
    pub read_limit: Option<u32>,
    pub write_limit: Option<u32>,
    /// Number of places that the debugger's history keeps beside the last one.
    pub history: u32,
}

/// Parses the command-line arguments, without the program's name.
///
/// # Errors
///
/// - `BadWords` if `clap` rejects an argument, or if the options are not allowed
/// - `Help`, with the text to print, if `--help` is given and no argument to its left is invalid
/// - `OutOfMemory` if an allocation fails
pub fn read_options(alloc: Global, words: &[String]) -> Result<Options, WordsFault>
    ensures value { Reads (map (λ word. string_bytes word) words.now) result }
    ensures range { IfOk result AreInRange }
{
    let matches = matches_of(alloc, words)?;
    let options = options_of(alloc, &matches)?;
    if are_allowed(&options) {
        Ok(options)
    } else {
        Err(WordsFault::BadWords)
    }
}

/// Returns the arguments as `clap` matches them, before the options are checked.
fn matches_of<'a>(alloc: Global, words: &'a [String]) -> Result<ArgMatches<'a>, WordsFault>
    ensures ok { IfOk result (λ matches. (fault_of mars (map (λ word. string_bytes word) words.now) ≡ [])
        × (rows_of (found_of matches) ≡ matches_of mars (map (λ word. string_bytes word) words.now))) }
    ensures err { IfErr result (λ fault. Reads (map (λ word. string_bytes word) words.now) (Err fault)) }
{
    match command(alloc)?.try_get_matches_from(words) {
        Ok(matches) => Ok(matches),
        Err(error) => Err(fault_of(alloc, &error)),
    }
}

/// Returns the options of these matches.
fn options_of(alloc: Global, matches: &ArgMatches<'_>) -> Result<Options, AllocError>
    ensures { IfOk result (λ options. value_of options ≡ options_of (rows_of (found_of matches.now))) }
{
    Ok(Options {
        files: files(alloc, matches)?,
        rounds: number(matches, "rounds"),
        core: number(matches, "core"),
        cycles: number(matches, "cycles"),
        processes: number(matches, "processes"),
        longest: number(matches, "longest"),
        distance: number(matches, "distance"),
        fixed: given_number(matches, "fixed"),
        debugger: is_given(matches, "debugger"),
        brief: is_given(matches, "brief"),
        sorted: is_given(matches, "sorted"),
        seed: number(matches, "seed"),
        score: score(alloc, matches)?,
        league: is_given(matches, "league"),
        load: is_given(matches, "load"),
        read_limit: given_number(matches, "read-limit"),
        write_limit: given_number(matches, "write-limit"),
        history: number(matches, "history"),
    })
}

/// Returns whether the options are allowed.
fn are_allowed(options: &Options) -> bool
    ensures value { result ≡ are_allowed (value_of options.now) }
    ensures used { IsTrue result → AreInRange options.now }
{
    has_numbers(options)
        && has_files(options)
        && has_one_mode(options)
        && has_fitting_position(options)
}

/// Returns whether each number is in its range. `clap` has checked this already, but its contracts are about the
/// command that it builds from the given one, so the proofs use this check.
fn has_numbers(options: &Options) -> bool
    ensures value { result ≡ has_numbers (value_of options.now) }
    ensures used { IsTrue result → HaveNumbers options.now }
{
    is_between(1, MAX_ROUNDS, options.rounds)
        && is_between(1, MAX_CORE_SIZE, options.core)
        && is_between(1, MAX_CYCLES, options.cycles)
        && is_between(1, MAX_PROCESSES, options.processes)
        && is_between(1, MAX_CORE_SIZE, options.longest)
        && is_between(1, MAX_CORE_SIZE, options.distance)
        && is_between(1, MAX_SEED, options.seed)
        && is_between(1, MAX_HISTORY, options.history)
        && is_limit(options.read_limit)
        && is_limit(options.write_limit)
}

fn is_between(least: u32, greatest: u32, n: u32) -> bool
    ensures value { result ≡ is_between least greatest n }
    ensures used { IsTrue result → IsBetween least greatest n }
{
    least <= n && n <= greatest
}

/// Returns whether a limit, if it is given, is a number of cells of a core.
fn is_limit(limit: Option<u32>) -> bool
    ensures value { result ≡ is_limit limit }
    ensures used { IsTrue result → IfSome limit (IsBetween 1 max_core_size) }
{
    match limit {
        None => true,
        Some(limit) => is_between(1, MAX_CORE_SIZE, limit),
    }
}

/// Returns whether there are 1 to 16 files: exactly one to write its load file, and at least two for a league.
fn has_files(options: &Options) -> bool
    ensures value { result ≡ has_files (value_of options.now) }
    ensures used { IsTrue result → HaveFiles options.now }
{
    let count = options.files.len();
    1 <= count
        && count <= MAX_WARRIORS
        && (!options.load || count == 1)
        && (!options.league || 2 <= count)
}

/// Returns whether at most one of the debugger, a league and a load file is requested.
fn has_one_mode(options: &Options) -> bool
    ensures { result ≡ has_one_mode (value_of options.now) }
{
    !(options.debugger && options.league)
        && !(options.debugger && options.load)
        && !(options.league && options.load)
}

/// Returns whether a position, if it is given, is for two warriors of a match and is at least the minimum distance from
/// the first one in both directions around the core.
fn has_fitting_position(options: &Options) -> bool
    ensures value { result ≡ has_fitting_position (value_of options.now) }
    ensures used { IsTrue result → HaveFittingPosition options.now }
{
    match options.fixed {
        None => true,
        Some(position) => {
            options.files.len() == 2
                && !options.league
                && options.distance <= position
                && u64::from(position) + u64::from(options.distance) <= u64::from(options.core)
        }
    }
}

/// Returns the number of an option, or 0 if it has none.
fn number(matches: &ArgMatches<'_>, word: &str) -> u32
    ensures { result ≡ number word.now (rows_of (found_of matches.now)) }
{
    given_number(matches, word).unwrap_or(0)
}

/// Returns the number of an option, or `None` if it has none.
fn given_number(matches: &ArgMatches<'_>, word: &str) -> Option<u32>
    ensures { result ≡ given_number word.now (rows_of (found_of matches.now)) }
{
    matches.get_one(word)
}

/// Returns whether an option without a value is given.
fn is_given(matches: &ArgMatches<'_>, word: &str) -> bool
    ensures { result ≡ is_given word.now (rows_of (found_of matches.now)) }
{
    matches.get_one(word).unwrap_or(false)
}

/// Returns the text of the score formula.
fn score(alloc: Global, matches: &ArgMatches<'_>) -> Result<String, AllocError>
    ensures { IfOk result (λ score. string_bytes score ≡ unwrap_or (first_of (codes "score") (rows_of (found_of matches.now))) []) }
{
    String::from_str(alloc, matches.get_str("score").unwrap_or(""))
}

/// Returns the names of the warriors' files.
fn files(alloc: Global, matches: &ArgMatches<'_>) -> Result<Vec<String>, AllocError>
    ensures { IfOk result (λ files. map (λ name. string_bytes name) files.items
        ≡ unwrap_or (all_of (codes "FILE") (rows_of (found_of matches.now))) []) }
{
    let mut files = Vec::new(alloc);
    let Some(names) = matches.get_strs("FILE") else {
        return Ok(files);
    };
    for name in names {
        files.push(String::from_str(alloc, name)?)?;
    }
    Ok(files)
}

/// Converts an error of `clap`.
fn fault_of(alloc: Global, error: &clap::Error) -> WordsFault
    ensures { IsFaultOf (kind_of error.now) result }
{
    match error.kind() {
        ErrorKind::OutOfMemory => WordsFault::OutOfMemory,
        ErrorKind::DisplayHelp => match error.to_string(alloc) {
            Ok(text) => WordsFault::Help(text),
            Err(_) => WordsFault::OutOfMemory,
        },
        _ => WordsFault::BadWords,
    }
}
