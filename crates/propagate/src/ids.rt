//! Sets of ids, seen as finite sets: what is gathered from lists in any order is gone through by rising id, and each once.

ghost use Rattle.std.specs.Prelude.{◌≡◌, OnErr, OnOk, MatchOption};
ghost use Rattle.std.specs.FinSet as set;
ghost use Rattle.propagate.specs.Ids.{IsLeastId};

use super::propagator::Id;
use std::alloc::{AllocError, Global};
use std::collections::BTreeSet;
use std::marker::Model;

/// A set of ids.
#[derive(Drop)]
pub struct Ids {
    members: BTreeSet<Id>,
}

impl Model for Ids {
    ghost use Rattle.std.specs.Coded.{coded_ℕ};
    ghost use Rattle.std.specs.FinSet as set;
    ghost use Rattle.std.specs.Ordering.{nat_cmp};

    ghost Value = { set.FinSet nat_cmp };

    ghost coded = { set.code coded_ℕ };

    ghost view = { λ i. set.from_list i.members.keys };
}

impl Ids {
    /// No id.
    pub fn empty(alloc: Global) -> Self
        ensures { result ≡ set.empty }
    {
        Ids {
            members: BTreeSet::new(alloc),
        }
    }

    /// Whether an id is there.
    pub fn contains(&self, id: Id) -> bool
        ensures { result ≡ set.contains self.now id }
    {
        self.members.contains(&id)
    }

    /// Puts in an id.
    pub fn insert(&mut self, id: Id) -> Result<(), AllocError>
        ensures ok { OnOk result (self.new ≡ set.insert self.old id) }
        ensures err { OnErr result (self.new ≡ self.old) }
    {
        self.members.insert(id)?;
        Ok(())
    }

    /// Takes out the least id, if there is one.
    pub fn pop_first(&mut self) -> Option<Id>
        ensures least { MatchOption result (self.old ≡ set.empty) (IsLeastId self.old) }
        ensures removed { MatchOption result (self.new ≡ self.old) (λ id. self.new ≡ set.remove self.old id) }
    {
        self.members.pop_first()
    }
}
