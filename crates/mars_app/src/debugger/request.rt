//! The request of a line of the debugger.
ghost use Rattle.std.specs.Prelude.{◌≡◌, ◌<◌};
ghost use Rattle.mars_app.specs.declared.debugger.request.Command.TheVariants as command;
ghost use Rattle.mars_app.specs.Debugger.Requests.{command_of, word_of, alone, one_number, two_numbers, three_numbers, with_arguments, request_of};

use crate::debugger::words::{split_number, split_word};
use mars_cell::read_cell;
use mars_session::Call;

/// The commands, one for each first word of a line.
#[derive(Clone, Copy, PartialEq, Eq)]
pub enum Command {
    Step,
    Run,
    Until,
    Edit,
    Fill,
    Move,
    Kill,
    Spawn,
    Undo,
    Redo,
    Goto,
    List,
    Queue,
    Show,
    Quit,
}

/// What a line requests.
#[derive(Clone, Copy, PartialEq, Eq)]
pub enum Request {
    Nothing,
    Call(Call),
    /// Address of the first cell, and number of cells.
    List(u64, u64),
    /// Warrior.
    Queue(u64),
    Show,
    Quit,
    Unknown,
}

impl Command {
    /// All commands.
    const ALL: [Command; 15] = [
        Command::Step,
        Command::Run,
        Command::Until,
        Command::Edit,
        Command::Fill,
        Command::Move,
        Command::Kill,
        Command::Spawn,
        Command::Undo,
        Command::Redo,
        Command::Goto,
        Command::List,
        Command::Queue,
        Command::Show,
        Command::Quit,
    ];

    /// Returns the name of the command.
    fn word(self) -> &'static str
        ensures { result.now ≡ word_of self }
    {
        match self {
            Command::Step => "step",
            Command::Run => "run",
            Command::Until => "until",
            Command::Edit => "edit",
            Command::Fill => "fill",
            Command::Move => "move",
            Command::Kill => "kill",
            Command::Spawn => "spawn",
            Command::Undo => "undo",
            Command::Redo => "redo",
            Command::Goto => "goto",
            Command::List => "list",
            Command::Queue => "queue",
            Command::Show => "show",
            Command::Quit => "quit",
        }
    }
}

/// Returns the command with this name.
fn read_command(word: &[u8]) -> Option<Command>
    ensures { result ≡ command_of word.now }
{
    Command::ALL
        .iter()
        .copied()
        .find(|command| command.word().as_bytes() == word)
}

/// Returns `request` if `rest` contains no word.
#[tactic(auto, unfolding(crate::specs::Debugger::Requests::alone))]
fn alone(request: Request, rest: &[u8]) -> Option<Request>
    ensures { result ≡ alone request rest.now }
{
    let (word, _) = split_word(rest);
    if word.is_empty() { Some(request) } else { None }
}

#[tactic(auto, unfolding(crate::specs::Debugger::Requests::one_number, crate::specs::Debugger::Requests::alone))]
fn read_one(rest: &[u8]) -> Option<u64>
    ensures { result ≡ one_number rest.now }
{
    let (number, rest) = split_number(rest)?;
    let (word, _) = split_word(rest);
    if word.is_empty() { Some(number) } else { None }
}

#[tactic(auto, unfolding(crate::specs::Debugger::Requests::two_numbers))]
fn read_two(rest: &[u8]) -> Option<(u64, u64)>
    ensures { result ≡ two_numbers rest.now }
{
    let (first, rest) = split_number(rest)?;
    Some((first, read_one(rest)?))
}

#[tactic(auto, unfolding(crate::specs::Debugger::Requests::three_numbers))]
fn read_three(rest: &[u8]) -> Option<(u64, u64, u64)>
    ensures { result ≡ three_numbers rest.now }
{
    let (first, rest) = split_number(rest)?;
    let (second, third) = read_two(rest)?;
    Some((first, second, third))
}

/// Parses the arguments of an edit: an address and a cell.
#[tactic(auto, unfolding(crate::specs::Debugger::Requests::with_arguments))]
fn read_edit(rest: &[u8], core_size: u32) -> Option<Request>
    requires { 0 < core_size }
    ensures { result ≡ with_arguments core_size command.Edit rest.now }
{
    let (address, rest) = split_number(rest)?;
    let cell = read_cell(rest, core_size)?;
    Some(Request::Call(Call::SetCell(address, cell)))
}

/// Parses the arguments of a fill: the first and the last address, and a cell.
#[tactic(auto, unfolding(crate::specs::Debugger::Requests::with_arguments))]
fn read_fill(rest: &[u8], core_size: u32) -> Option<Request>
    requires { 0 < core_size }
    ensures { result ≡ with_arguments core_size command.Fill rest.now }
{
    let (from, rest) = split_number(rest)?;
    let (to, rest) = split_number(rest)?;
    let cell = read_cell(rest, core_size)?;
    Some(Request::Call(Call::Fill(from, to, cell)))
}

/// Parses the arguments of a command.
#[tactic(auto, unfolding(crate::specs::Debugger::Requests::with_arguments))]
fn read_arguments(command: Command, rest: &[u8], core_size: u32) -> Option<Request>
    requires { 0 < core_size }
    ensures { result ≡ with_arguments core_size command rest.now }
{
    match command {
        Command::Step => alone(Request::Call(Call::Step), rest),
        Command::Run => Some(Request::Call(Call::Run(read_one(rest)?))),
        Command::Until => Some(Request::Call(Call::Until(read_one(rest)?))),
        Command::Edit => read_edit(rest, core_size),
        Command::Fill => read_fill(rest, core_size),
        Command::Move => {
            let (warrior, process, address) = read_three(rest)?;
            Some(Request::Call(Call::MoveProcess(warrior, process, address)))
        }
        Command::Kill => {
            let (warrior, process) = read_two(rest)?;
            Some(Request::Call(Call::Kill(warrior, process)))
        }
        Command::Spawn => {
            let (warrior, address) = read_two(rest)?;
            Some(Request::Call(Call::Spawn(warrior, address)))
        }
        Command::Undo => alone(Request::Call(Call::Undo), rest),
        Command::Redo => alone(Request::Call(Call::Redo), rest),
        Command::Goto => Some(Request::Call(Call::Goto(read_one(rest)?))),
        Command::List => {
            let (address, count) = read_two(rest)?;
            Some(Request::List(address, count))
        }
        Command::Queue => Some(Request::Queue(read_one(rest)?)),
        Command::Show => alone(Request::Show, rest),
        Command::Quit => alone(Request::Quit, rest),
    }
}

/// Parses a line in a core of this size.
#[tactic(auto, unfolding(crate::specs::Debugger::Requests::request_of, crate::specs::Debugger::Requests::command_request))]
pub fn read_request(line: &[u8], core_size: u32) -> Request
    requires { 0 < core_size }
    ensures { result ≡ request_of core_size line.now }
{
    let (word, rest) = split_word(line);
    if word.is_empty() {
        return Request::Nothing;
    }
    let Some(command) = read_command(word) else {
        return Request::Unknown;
    };
    read_arguments(command, rest, core_size).unwrap_or(Request::Unknown)
}
