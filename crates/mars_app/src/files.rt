//! The files from which warriors are read.
ghost use Rattle.std.specs.Global.{Global};
ghost use Rattle.std.specs.Prelude.{◌≡◌, ◌≤◌, ℕ, List, [], ◌∷◌, ◌++◌, Option, None, IfErr, IfOk, IfSome, OnErr, OnOk, String, Vec, string_bytes, vec_len};
ghost use Rattle.mars_app.specs.Loading.{IsReadFault};

use std::alloc::{AllocError, Global};
use std::fs;
use std::io::{ErrorKind, Read};
use std::rt::Files;

/// Why a file isn't read.
#[derive(Clone, Copy, Debug, PartialEq, Eq)]
pub enum FileFault {
    /// The file doesn't exist or can't be read.
    CannotRead,
    /// The file has more bytes than the limit.
    TooLarge,
    /// An allocation failed.
    OutOfMemory,
}

/// Files by their names.
pub trait WarriorFiles {
    /// Content of the file with a name, if it is known.
    ghost known: { Self → List ℕ → Option (List ℕ) } = { λ _ _. None };

    /// Reads a file of at most `limit` bytes. A file whose content is known is read unless it is larger or an allocation fails.
    fn read(&self, alloc: Global, name: &str, limit: usize) -> Result<Vec<u8>, FileFault>
        ensures few { IfOk result (λ bytes. vec_len bytes ≤ limit) }
        ensures whole { IfOk result (λ bytes. IfSome (known self.now name.now) (λ whole. bytes.items ≡ whole)) }
        ensures unread { IfErr result (IsReadFault (known self.now name.now) limit) };
}

/// Files in memory, for tests.
#[derive(Drop)]
pub struct MemoryFiles {
    files: Vec<(String, Vec<u8>)>,
}

impl MemoryFiles {
    /// Returns an empty set of files.
    pub fn new(alloc: Global) -> MemoryFiles
        ensures { result.files.items ≡ [] }
    {
        MemoryFiles {
            files: Vec::new(alloc),
        }
    }

    /// Adds a file after the others. If several files have the same name, the first one is read. If an allocation fails, the
    /// files are unchanged.
    pub fn add(&mut self, alloc: Global, name: &str, bytes: &[u8]) -> Result<(), AllocError>
        ensures ok { OnOk result ((file : String Global × Vec ℕ Global) × (string_bytes file.0 ≡ name.now) × (file.1.items ≡ bytes.now)
            × (self.new.files.items ≡ self.old.files.items ++ file ∷ [])) }
        ensures err { OnErr result (self.new.files.items ≡ self.old.files.items) }
    {
        let file = (
            String::from_str(alloc, name)?,
            Vec::from_slice(alloc, bytes)?,
        );
        self.files.push(file)?;
        Ok(())
    }
}

impl WarriorFiles for MemoryFiles {
    ghost use Rattle.mars_app.specs.Loading.{file_named};

    ghost known = { λ held name. file_named held.files.items name };

    fn read(&self, alloc: Global, name: &str, limit: usize) -> Result<Vec<u8>, FileFault> {
        for (held, bytes) in &self.files {
            if held.as_str() == name {
                if bytes.len() > limit {
                    return Err(FileFault::TooLarge);
                }
                return match Vec::from_slice(alloc, bytes) {
                    Ok(copy) => Ok(copy),
                    Err(_) => Err(FileFault::OutOfMemory),
                };
            }
        }
        Err(FileFault::CannotRead)
    }
}

/// The files of the file system.
#[derive(Drop)]
pub struct SystemFiles<'r, R: Files>(pub &'r R);

impl<R: Files> WarriorFiles for SystemFiles<'_, R> {
    fn read(&self, alloc: Global, name: &str, limit: usize) -> Result<Vec<u8>, FileFault> {
        let file = match fs::open(self.0, name) {
            Ok(file) => file,
            Err(error) => return Err(fault_of(error.kind())),
        };
        let mut bytes = Vec::new(alloc);
        // A byte more than the limit shows that the file is too large.
        let one_more = (limit as u64).saturating_add(1);
        if let Err(error) = file.take(one_more).read_to_end(&mut bytes) {
            return Err(fault_of(error.kind()));
        }
        if bytes.len() > limit {
            return Err(FileFault::TooLarge);
        }
        Ok(bytes)
    }
}

fn fault_of(kind: ErrorKind) -> FileFault {
    if kind == ErrorKind::OutOfMemory {
        FileFault::OutOfMemory
    } else {
        FileFault::CannotRead
    }
}
