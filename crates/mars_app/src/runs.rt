//! The program `mars`, over files and streams that its caller passes.
ghost use Rattle.std.specs.Prelude.{◌≡◌, ◌≢◌, ◌≤◌, ◌⊎◌, ℕ, IfErr, IfOk, List, Ok, OnOk, length, map, string_bytes, vec_len};
ghost use Rattle.std.specs.Global.{Global};
ghost use Rattle.mars_core.specs.State.{State};
ghost use Rattle.mars_app.specs.Contests.{IsSetupOf, contest_size};
ghost use Rattle.mars_app.specs.Debugging.{DebugsInPart, DebugSucceeds, StartsNothing, first_round, session_at};
ghost use Rattle.mars_app.specs.Streams.{Untouched, Writes, WritesInPart};
ghost use Rattle.mars_app.specs.Loading.{AllFit, IsLoadFileOf};
ghost use Rattle.mars_match.specs.Placement.{FitsTwo};
ghost use Rattle.mars_app.specs.Code.Allowed.{AreInRange, IsBetween};
ghost use Rattle.mars_app.specs.Code.Plays.{IsRefused, PlaysInPart, PlaySucceeds};
ghost use Rattle.mars_app.specs.Options.{Ask, parameters_of, value_of};
ghost use Rattle.mars_app.specs.Faults.{FailsToLoad, RunFails};
ghost use Rattle.mars_app.specs.Runs.{RunSucceeds};
ghost use Rattle.mars_app.specs.Status.{status_of};
ghost use Rattle.mars_app.specs.declared.fault.RunFault.{RunFault};
ghost use Rattle.mars_cell.specs.ParameterFaults.{checked_parameters};
ghost use Rattle.mars_core.specs.Limits.{max_warriors};
ghost use Rattle.mars_app.specs.Limits.{max_history};

use crate::contest::{match_fault, run_contest};
use crate::debugger::{DebugFault, debug};
use crate::fault::RunFault;
use crate::files::WarriorFiles;
use crate::loading::{Contest, load_file_of, load_warriors};
use crate::options::{Options, WordsFault, read_options};
use crate::streams::Streams;
use mars_cell::{ParamFault, Params, Warrior};
use mars_core::Battle;
use mars_match::{MatchFault, Plan, Setup};
use mars_session::{RingTape, Session};
use redcode_asm::{Formula, FormulaFault};
use std::alloc::Global;
use std::io::{Read, Write};

/// Runs the program with these arguments, which don't include its name, and returns its exit status.
///
/// With status 0 it has written the help, a load file, the transcript of a debugged battle, or the listing and results
/// of a match or a league. Any other status is the status of the first error, which is printed as one line to `faults`;
/// if this line can't be written, the status is the same. Only the debugger reads the input.
pub fn run<F: WarriorFiles, R: Read, W: Write, E: Write>(
    alloc: Global,
    words: &[String],
    files: &F,
    streams: &mut Streams<R, W>,
    faults: &mut E,
) -> u8
    ensures status { result ≤ 2 }
    ensures done { result ≡ 0 → RunSucceeds (map (λ word. string_bytes word) words.now) (F.known files.now) streams.old streams.new }
    ensures failed { result ≢ 0 → (fault : RunFault) × (result ≡ status_of fault)
        × RunFails (map (λ word. string_bytes word) words.now) (F.known files.now) streams.old streams.new fault }
{
    match run_args(alloc, words, files, streams) {
        Ok(()) => 0,
        Err(fault) => {
            write_fault(alloc, &fault, faults);
            fault.status()
        }
    }
}

/// Writes an error as one line, with a single write so that the lines of concurrent programs don't interleave.
///
/// Falls back to several writes if there is no memory for the line.
pub fn write_fault<E: Write>(alloc: Global, fault: &RunFault, faults: &mut E) {
    let _ = match format!(in alloc; "{fault}\n") {
        Ok(line) => faults.write_all(line.as_str().as_bytes()),
        Err(_) => writeln!(faults, "{fault}"),
    };
}

fn run_args<F: WarriorFiles, R: Read, W: Write>(
    alloc: Global,
    words: &[String],
    files: &F,
    streams: &mut Streams<R, W>,
) -> Result<(), RunFault>
    ensures ok { OnOk result (RunSucceeds (map (λ word. string_bytes word) words.now) (F.known files.now) streams.old streams.new) }
    ensures err { IfErr result (RunFails (map (λ word. string_bytes word) words.now) (F.known files.now) streams.old streams.new) }
{
    match read_options(alloc, words) {
        Ok(options) => run_options(alloc, &options, files, streams),
        Err(WordsFault::BadWords) => Err(RunFault::Words),
        Err(WordsFault::OutOfMemory) => Err(RunFault::OutOfMemory),
        Err(WordsFault::Help(text)) => streams.write(text.as_str().as_bytes()),
    }
}

/// Runs the program with these options. The contract holds for all arguments `words` that request them.
fn run_options<F: WarriorFiles, R: Read, W: Write>(
    alloc: Global,
    options: &Options,
    files: &F,
    streams: &mut Streams<R, W>,
) -> Result<(), RunFault>
    requires { AreInRange options.now }
    ensures ok { OnOk result ((words : List (List ℕ)) → Ask words (value_of options.now)
        → RunSucceeds words (F.known files.now) streams.old streams.new) }
    ensures err { IfErr result (λ fault. (words : List (List ℕ)) → Ask words (value_of options.now)
        → RunFails words (F.known files.now) streams.old streams.new fault) }
{
    let setup = setup_of(alloc, options)?;
    let done = carry_out(alloc, options, &setup, files, streams);
    // An explicit call of `drop`, because otherwise the drop would be proved again at each exit of this body.
    drop(setup);
    done
}

/// Returns the setup of a match from the options, before any file is read. Checks the parameters first, and then the formula.
fn setup_of(alloc: Global, options: &Options) -> Result<Setup, RunFault>
    ensures ok { IfOk result (IsSetupOf (value_of options.now)) }
    ensures err { IfErr result (IsRefused (value_of options.now)) }
{
    let params = match parameters(options) {
        Ok(params) => params,
        Err(fault) => return Err(RunFault::Parameters(fault)),
    };
    match Formula::new(alloc, options.score.as_bytes()) {
        Ok(formula) => Ok(Setup {
            params,
            plan: Plan {
                rounds: options.rounds,
                seed: options.seed,
                fixed: options.fixed,
            },
            formula,
        }),
        Err(FormulaFault::OutOfMemory) => Err(RunFault::OutOfMemory),
        Err(FormulaFault::Expression(fault)) => {
            Err(RunFault::Formula(FormulaFault::Expression(fault)))
        }
    }
}

/// Loads the warriors of the files, and writes a load file, debugs their battle, or runs their match or league, as the
/// options say.
#[tactic(auto, using(crate::proofs::Positions::position_fits))]
fn carry_out<F: WarriorFiles, R: Read, W: Write>(
    alloc: Global,
    options: &Options,
    setup: &Setup,
    files: &F,
    streams: &mut Streams<R, W>,
) -> Result<(), RunFault>
    requires range { AreInRange options.now }
    requires setup { IsSetupOf (value_of options.now) setup.now }
    ensures ok { OnOk result ((words : List (List ℕ)) → Ask words (value_of options.now)
        → RunSucceeds words (F.known files.now) streams.old streams.new) }
    ensures err { IfErr result (λ fault. (words : List (List ℕ)) → Ask words (value_of options.now)
        → RunFails words (F.known files.now) streams.old streams.new fault) }
{
    let contest = Contest {
        params: &setup.params,
        rounds: options.rounds,
        warriors: contest_size(options),
    };
    if options.load {
        return write_load_file_of(alloc, files, options.files[0].as_str(), contest, streams);
    }
    let warriors = load_warriors(alloc, files, options.files.as_slice(), contest)?;
    let done = play(alloc, options, setup, &warriors, streams);
    // An explicit call of `drop`, as in `run_options`.
    drop(warriors);
    done
}

/// Debugs the battle of the warriors, or runs their match or league.
fn play<R: Read, W: Write>(
    alloc: Global,
    options: &Options,
    setup: &Setup,
    warriors: &[Warrior],
    streams: &mut Streams<R, W>,
) -> Result<(), RunFault>
    requires setup { IsSetupOf (value_of options.now) setup.now }
    requires fit { AllFit setup.now.params.core_size warriors.now }
    requires some { 1 ≤ length warriors.now }
    requires few { length warriors.now ≤ max_warriors }
    requires position { FitsTwo setup.now.params (length warriors.now) options.now.fixed }
    requires history { IsBetween 1 max_history options.now.history }

    // On success, all that the options request was written; on an error, only a beginning.
    ensures ok { OnOk result (PlaySucceeds (value_of options.now) setup.now warriors.now streams.old streams.new) }
    ensures err { IfErr result (PlaysInPart (value_of options.now) setup.now warriors.now streams.old streams.new) }
{
    if options.debugger {
        return debug_round(alloc, setup, options.history, warriors, streams);
    }
    run_contest(alloc, options, setup, warriors, &mut streams.output)
}

/// Returns the parameters of the options. A limit that isn't given is the core size.
fn parameters(options: &Options) -> Result<Params, ParamFault>
    ensures value { result ≡ checked_parameters (parameters_of (value_of options.now)) }
    ensures core { IfOk result (λ p. p.core_size ≡ options.now.core) }
    ensures distance { IfOk result (λ p. p.distance ≡ options.now.distance) }
{
    Params::new(
        options.core,
        options.processes,
        options.cycles,
        options.read_limit.unwrap_or(options.core),
        options.write_limit.unwrap_or(options.core),
        options.longest,
        options.distance,
    )
}

/// Returns the number of warriors of a battle: two in a league, all otherwise.
fn contest_size(options: &Options) -> u32
    requires { vec_len options.now.files ≤ max_warriors }
    ensures { result ≡ contest_size (value_of options.now) }
{
    if options.league {
        2
    } else {
        options.files.len() as u32
    }
}

/// Writes the load file of the warrior of a file.
fn write_load_file_of<F: WarriorFiles, R: Read, W: Write>(
    alloc: Global,
    files: &F,
    name: &str,
    contest: Contest<'_>,
    streams: &mut Streams<R, W>,
) -> Result<(), RunFault>
    ensures ok { let c = contest.entry in OnOk result ((text : List ℕ)
        × IsLoadFileOf (F.known files.now) c.params.now c.rounds c.warriors name.now text × Writes streams.old streams.new text) }
    ensures err { let c = contest.entry in IfErr result (λ fault.
        (FailsToLoad (F.known files.now) c.params.now c.rounds c.warriors name.now fault × Untouched streams.old streams.new)
        ⊎ ((fault ≡ RunFault.Output) × (text : List ℕ)
        × IsLoadFileOf (F.known files.now) c.params.now c.rounds c.warriors name.now text × WritesInPart streams.old streams.new text)) }
{
    let text = load_file_of(alloc, files, name, contest)?;
    streams.write(&text)
}

/// Debugs the battle of round 0 with the lines of the input, with a history that keeps `history` places beside the last one.
fn debug_round<R: Read, W: Write>(
    alloc: Global,
    setup: &Setup,
    history: u32,
    warriors: &[Warrior],
    streams: &mut Streams<R, W>,
) -> Result<(), RunFault>
    requires some { 1 ≤ length warriors.now }
    requires few { length warriors.now ≤ max_warriors }
    requires position { FitsTwo setup.now.params (length warriors.now) setup.now.plan.fixed }
    requires history { IsBetween 1 max_history history }
    ensures ok { OnOk result ((s : State) × (first_round setup.now warriors.now ≡ Ok s)
        × DebugSucceeds (session_at history s) streams.old streams.new) }
    ensures err { IfErr result (λ fault. StartsNothing fault (first_round setup.now warriors.now) streams.old streams.new
        ⊎ ((s : State) × (first_round setup.now warriors.now ≡ Ok s)
        × DebugsInPart fault (session_at history s) streams.old streams.new)) }
{
    let count = warriors.len() as u32;
    let (starts, _seed) = match setup.round_starts(alloc, count, setup.plan.seed) {
        Ok(placed) => placed,
        Err(fault) => return Err(match_fault(fault)),
    };
    match Battle::new(alloc, &setup.params, warriors, &starts) {
        Ok(battle) => debug_battle(alloc, battle, history, streams),
        Err(fault) => Err(match_fault(MatchFault::Battle(fault))),
    }
}

/// Debugs a battle, as `debug_round` does.
fn debug_battle<R: Read, W: Write>(
    alloc: Global,
    battle: Battle,
    history: u32,
    streams: &mut Streams<R, W>,
) -> Result<(), RunFault>
    requires { IsBetween 1 max_history history }
    ensures ok { OnOk result (DebugSucceeds (session_at history battle) streams.old streams.new) }
    ensures err { IfErr result (λ fault. ((fault ≡ RunFault.OutOfMemory) × Untouched streams.old streams.new)
        ⊎ DebugsInPart fault (session_at history battle) streams.old streams.new) }
{
    let Ok(tape) = RingTape::new(alloc, battle, history as usize) else {
        return Err(RunFault::OutOfMemory);
    };
    let mut session = Session::new(tape, u64::from(history));
    let debugged = debug(&mut streams.input, &mut streams.output, &mut session);
    // An explicit call of `drop`, as in `run_options`.
    drop(session);
    match debugged {
        Ok(()) => Ok(()),
        Err(DebugFault::Read) => Err(RunFault::Commands),
        Err(DebugFault::Write) => Err(RunFault::Output),
    }
}
