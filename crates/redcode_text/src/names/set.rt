//! Sets of names, in which labels are looked up.
ghost use Rattle.std.specs.Prelude.{◌≡◌, ◌≤◌, ℕ, [], ◌∷◌, ◌++◌, length, OnErr, OnOk};
ghost use Rattle.indexmap.specs.IndexSet.{spare};
ghost use Rattle.redcode_text.specs.Code.Labels.{HasSame, has};

use indexmap::IndexSet;
use std::alloc::{AllocError, Global};
use std::marker::Model;

/// A set of names, by their indices. A look-up takes constant time.
#[derive(Drop)]
pub struct NameSet {
    names: IndexSet<usize>,
}

impl Model for NameSet {
    ghost use Rattle.std.specs.Prelude.{List, ℕ};

    ghost Value = { List ℕ };

    ghost view = { λ s. s.names.keys };
}

/// Inserts names into a set that has enough capacity.
fn insert_each(set: &mut IndexSet<usize>, names: &[usize])
    requires { length names.now ≤ spare set.old }
    ensures { HasSame set.new.keys (set.old.keys ++ names.now) }
{
    for name in names {
        let Ok(_) = set.insert(*name) else {
            unreachable!()
        };
    }
}

impl NameSet {
    /// Returns an empty set.
    pub fn new(alloc: Global) -> Self
        ensures { result ≡ [] }
    {
        NameSet {
            names: IndexSet::new(alloc),
        }
    }

    /// Returns whether a name is in the set.
    pub fn contains(&self, name: usize) -> bool
        ensures { result ≡ has self.now name }
    {
        self.names.contains(&name)
    }

    /// Inserts a name, which may be in the set already.
    pub fn insert(&mut self, name: usize) -> Result<(), AllocError>
        ensures { OnOk result (HasSame self.new (self.old ++ name ∷ [])) }
    {
        match self.names.insert(name) {
            Ok(_) => Ok(()),
            Err(_) => Err(AllocError),
        }
    }

    /// Inserts all names, or none of them if memory runs out.
    pub fn insert_all(&mut self, names: &[usize]) -> Result<(), AllocError>
        ensures ok { OnOk result (HasSame self.new (self.old ++ names.now)) }
        ensures err { OnErr result (self.new ≡ self.old) }
    {
        self.names.reserve(names.len())?;
        insert_each(&mut self.names, names);
        Ok(())
    }
}
