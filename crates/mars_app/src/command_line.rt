//! The arguments of the program, as `clap` parses them.
ghost use Rattle.std.specs.Prelude.{◌≡◌, ◌++◌, false, IfOk, map, pos};
ghost use Rattle.clap.specs.Simple.{app_of};
ghost use Rattle.clap.specs.Walk.{rule_of};
ghost use Rattle.clap.specs.declared.builder.value_parser.ValueParser.TheVariants.{Signed};
ghost use Rattle.mars_app.specs.CommandLine.{contest_rules, core_rules, debugger_rules, file_rule, mars, output_rules, plain_mars};
ghost use Rattle.mars_app.specs.Code.WordTables.{reached, rule_of_word, valued};

use clap::builder::ValueParser;
use clap::{Arg, ArgAction, Command, value_parser};
use mars_cell::{MAX_CORE_SIZE, MAX_CYCLES, MAX_PROCESSES};
use mars_match::MAX_SEED;
use std::alloc::{AllocError, Global};

/// Maximum number of rounds of a match.
pub const MAX_ROUNDS: u32 = 100_000;

/// Maximum number of places that a history keeps beside the last one.
pub const MAX_HISTORY: u32 = 1_000_000;

/// Text after the list of options in the help.
const AFTER_HELP: &str = "\
-e, --league and --load exclude each other. -F requires two warriors and no league.

Debugger commands, one per line:
  step, run N, until C, undo, redo, goto T
  edit A CELL, fill A B CELL, move W I A, kill W I, spawn W A
  list A N, queue W, show, quit

Exit status: 0 success, 1 error in input or files, 2 usage error.

Example: mars -r 100 -b -o imp.red dwarf.red
See README.md and docs/user/REFERENCE.md; `corewar explain` explains errors.";

/// The value that follows an option.
#[derive(Clone, Copy)]
enum Value {
    /// No value: the option itself has an action.
    Flag(ArgAction),
    /// A number from 1 to this one.
    Number(u32),
    /// A score formula.
    Formula,
}

/// Returns a parser of the numbers from 1 to `greatest`.
fn number_parser<'a>(greatest: u32) -> ValueParser<'a>
    ensures { result ≡ Signed (pos 1) (pos greatest) }
{
    value_parser!(u32).range(1..=i64::from(greatest))
}

/// An option, with its line in the help.
#[derive(Clone, Copy)]
struct Word {
    /// Heading above the option in the help.
    heading: &'static str,
    /// Name in `clap`, and after `--` if the option has no letter.
    name: &'static str,
    /// Letter after `-`.
    letter: Option<char>,
    value: Value,
    /// Value if the option isn't given.
    default: Option<&'static str>,
    help: &'static str,
}

impl Word {
    /// Returns the option as an argument of `clap`.
    fn arg<'a>(&self, alloc: Global) -> Arg<'a>
        ensures rule { rule_of result ≡ rule_of_word self.now }
        ensures local { result.global ≡ false }
    {
        let arg = self.reached(alloc).help(self.help);
        let arg = match self.value {
            Value::Flag(action) => arg.action(action),
            Value::Formula => arg.value_name("FORMULA"),
            Value::Number(greatest) => arg.value_name("N").value_parser(number_parser(greatest)),
        };
        match self.default {
            None => arg,
            Some(text) => arg.default_value(text),
        }
    }

    /// Returns an argument that is given by the letter of the option, or by its name if the option has no letter.
    fn reached<'a>(&self, alloc: Global) -> Arg<'a>
        ensures rule { rule_of result ≡ reached self.now.letter self.now.name.now }
        ensures local { result.global ≡ false }
    {
        match self.letter {
            None => Arg::new(alloc, self.name).long(self.name),
            Some(letter) => Arg::new(alloc, self.name).short(letter),
        }
    }
}

/// The options, in the order of the help.
static WORDS: [Word; 18] = [
    Word {
        heading: "Match",
        name: "rounds",
        letter: Some('r'),
        value: Value::Number(MAX_ROUNDS),
        default: Some("1"),
        help: "Number of rounds, 1 to 100000",
    },
    Word {
        heading: "Match",
        name: "fixed",
        letter: Some('F'),
        value: Value::Number(MAX_CORE_SIZE),
        default: None,
        help: "Position of warrior 2, from the minimum distance to the core size minus it",
    },
    Word {
        heading: "Match",
        name: "seed",
        letter: None,
        value: Value::Number(MAX_SEED),
        default: Some("1"),
        help: "Seed for the starting positions, 1 to 2147483646",
    },
    Word {
        heading: "Match",
        name: "score",
        letter: None,
        value: Value::Formula,
        default: Some("(W*W-1)/S"),
        help: "Score of each survivor, with W warriors and S survivors",
    },
    Word {
        heading: "Match",
        name: "league",
        letter: None,
        value: Value::Flag(ArgAction::SetTrue),
        default: None,
        help: "Run a league: every pair of warriors plays a match",
    },
    Word {
        heading: "Core",
        name: "core",
        letter: Some('s'),
        value: Value::Number(MAX_CORE_SIZE),
        default: Some("8000"),
        help: "Core size, 1 to 1048576",
    },
    Word {
        heading: "Core",
        name: "cycles",
        letter: Some('c'),
        value: Value::Number(MAX_CYCLES),
        default: Some("80000"),
        help: "Cycle limit, 1 to 10000000",
    },
    Word {
        heading: "Core",
        name: "processes",
        letter: Some('p'),
        value: Value::Number(MAX_PROCESSES),
        default: Some("8000"),
        help: "Process limit, 1 to 65536",
    },
    Word {
        heading: "Core",
        name: "longest",
        letter: Some('l'),
        value: Value::Number(MAX_CORE_SIZE),
        default: Some("100"),
        help: "Maximum length of a warrior, 1 to the core size",
    },
    Word {
        heading: "Core",
        name: "distance",
        letter: Some('d'),
        value: Value::Number(MAX_CORE_SIZE),
        default: Some("100"),
        help: "Minimum distance, from the maximum length to the core size",
    },
    Word {
        heading: "Core",
        name: "read-limit",
        letter: None,
        value: Value::Number(MAX_CORE_SIZE),
        default: None,
        help: "Read limit, 1 to the core size [default: core size]",
    },
    Word {
        heading: "Core",
        name: "write-limit",
        letter: None,
        value: Value::Number(MAX_CORE_SIZE),
        default: None,
        help: "Write limit, 1 to the core size [default: core size]",
    },
    Word {
        heading: "Debugger",
        name: "debugger",
        letter: Some('e'),
        value: Value::Flag(ArgAction::SetTrue),
        default: None,
        help: "Debug the first round with commands from standard input",
    },
    Word {
        heading: "Debugger",
        name: "history",
        letter: None,
        value: Value::Number(MAX_HISTORY),
        default: Some("200000"),
        help: "Size of the debugger's history, 1 to 1000000 places",
    },
    Word {
        heading: "Output",
        name: "brief",
        letter: Some('b'),
        value: Value::Flag(ArgAction::SetTrue),
        default: None,
        help: "Omit the listing of the warriors",
    },
    Word {
        heading: "Output",
        name: "sorted",
        letter: Some('o'),
        value: Value::Flag(ArgAction::SetTrue),
        default: None,
        help: "Sort the results by points",
    },
    Word {
        heading: "Output",
        name: "load",
        letter: None,
        value: Value::Flag(ArgAction::SetTrue),
        default: None,
        help: "Assemble one warrior and print its load file",
    },
    Word {
        heading: "Output",
        name: "help",
        letter: None,
        value: Value::Flag(ArgAction::Help),
        default: None,
        help: "Print this help",
    },
];

/// Returns the options of the program.
fn words() -> &'static [Word]
    ensures { map rule_of_word result.now ≡ contest_rules ++ (core_rules ++ (debugger_rules ++ output_rules)) }
{
    &WORDS
}

/// Returns the command without its arguments. It has no built-in help option, because `--help` is one of the options.
fn plain_command<'a>(alloc: Global) -> Command<'a>
    ensures { app_of result ≡ plain_mars }
{
    Command::new(alloc, "mars")
        .about(
            "Core War: run matches and leagues of warriors, and debug battles forwards and backwards",
        )
        .after_help(AFTER_HELP)
        .no_binary_name(true)
        .disable_help_flag(true)
}

/// Returns the command with the names of files and all options as arguments.
pub fn command<'a>(alloc: Global) -> Result<Command<'a>, AllocError>
    ensures { IfOk result (λ command. app_of command ≡ mars) }
{
    let mut command = plain_command(alloc).arg(files(alloc))?;
    for word in words() {
        command = command
            .next_help_heading(word.heading)
            .arg(word.arg(alloc))?;
    }
    Ok(command)
}

/// Returns the argument for the names of the warriors' files.
fn files<'a>(alloc: Global) -> Arg<'a>
    ensures rule { rule_of result ≡ file_rule }
    ensures local { result.global ≡ false }
{
    Arg::new(alloc, "FILE")
        .required(true)
        .num_args(1..)
        .help("1 to 16 warriors: Redcode sources, or load files (.load)")
}
