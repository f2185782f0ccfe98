//! The program with the arguments with which it was started.
ghost use Rattle.std.specs.Prelude.{◌≡◌, ◌≢◌, ◌⊎◌, ℕ, IfErr, List};
ghost use Rattle.mars_app.specs.Streams.{Untouched};
ghost use Rattle.mars_app.specs.Faults.{RunFails};
ghost use Rattle.mars_app.specs.Runs.{RunSucceeds};
ghost use Rattle.mars_app.specs.Status.{status_of};
ghost use Rattle.mars_app.specs.declared.fault.RunFault.{RunFault};

use crate::fault::RunFault;
use crate::files::WarriorFiles;
use crate::runs::{run, write_fault};
use crate::streams::Streams;
use std::alloc::Global;
use std::env::{self, Env, FillError};
use std::io::{ErrorKind, Read, Write};

/// Runs the program with the arguments with which it was started, and returns its exit status, as `run` does.
///
/// An argument that isn't UTF-8 is an invalid argument: nothing is read or written on `streams` then.
pub fn start<V: Env, F: WarriorFiles, R: Read, W: Write, E: Write>(
    alloc: Global,
    env: &V,
    files: &F,
    streams: &mut Streams<R, W>,
    faults: &mut E,
) -> u8
    ensures done { result ≡ 0 → (words : List (List ℕ)) × RunSucceeds words (F.known files.now) streams.old streams.new }
    ensures failed { result ≢ 0 → (fault : RunFault) × (result ≡ status_of fault)
        × (((fault ≡ RunFault.Words) × Untouched streams.old streams.new)
        ⊎ ((words : List (List ℕ)) × RunFails words (F.known files.now) streams.old streams.new fault)) }
{
    match collect_args(alloc, env) {
        Ok(words) => run(alloc, words.as_slice(), files, streams, faults),
        Err(fault) => {
            write_fault(alloc, &fault, faults);
            fault.status()
        }
    }
}

/// Returns the arguments after the program's name. The name isn't checked: the caller of the program chooses it, and it need
/// not be text.
fn collect_args<E: Env>(alloc: Global, env: &E) -> Result<Vec<String>, RunFault>
    ensures { IfErr result (λ fault. (fault ≡ RunFault.Words) ⊎ (fault ≡ RunFault.OutOfMemory)) }
{
    let words = match env::args(&(ArgsAfterProgram(env), alloc)) {
        Ok(words) => words,
        Err(error) if error.kind() == ErrorKind::OutOfMemory => return Err(RunFault::OutOfMemory),
        Err(_) => return Err(RunFault::Words),
    };
    let Ok(words) = words.collect::<Vec<String>>(alloc) else {
        return Err(RunFault::OutOfMemory);
    };
    Ok(words)
}

/// An environment without the program's name: its first argument is the one after the name.
#[derive(Drop)]
struct ArgsAfterProgram<'e, E>(&'e E);

impl<E: Env> Env for ArgsAfterProgram<'_, E> {
    fn arg(&self, i: usize, buf: &mut [u8]) -> Result<usize, FillError> {
        self.0.arg(i.saturating_add(1), buf)
    }

    fn var(&self, name: &str, buf: &mut [u8]) -> Result<usize, FillError> {
        self.0.var(name, buf)
    }

    fn var_at(&self, i: usize, buf: &mut [u8]) -> Result<usize, FillError> {
        self.0.var_at(i, buf)
    }
}
