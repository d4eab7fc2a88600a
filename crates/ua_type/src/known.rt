//! What the search for the first subtrace has found so far.

ghost use Rattle.std.specs.Prelude.{◌≡◌, ◌⊎◌, ℕ, true, length, Contains, OnOk, None};
ghost use Rattle.std.specs.HashSet as set;
ghost use Rattle.ua_table.specs.Algebras.{Vector, FiniteAlgebra};
ghost use Rattle.ua_table.specs.Listings.{vectors_of};
ghost use Rattle.ua_part.specs.Labels.{same_labels};
ghost use Rattle.ua_type.specs.Known.{IsRight, IsLeastMet};
ghost use Rattle.ua_type.specs.inner.Known.{IsEarlier};

use crate::pairs::{has, is_before};
use std::alloc::{AllocError, Global};
use std::collections::HashSet;
use ua_close::Listing;
use ua_table::Elem;

/// A subtrace, and whether it generates its swap.
#[derive(Clone, Copy, Debug, PartialEq, Eq)]
pub struct SubtracePair {
    pub low: Elem,
    pub high: Elem,
    pub swap: bool,
}

/// What the search for the first subtrace has found so far.
#[derive(Drop)]
pub struct Known {
    /// The least subtrace that was met.
    pub least: Option<SubtracePair>,
    /// Pairs each of which generates one that generates none before that subtrace. What they generate is not
    /// closed again.
    settled: HashSet<(Elem, Elem)>,
}

impl Known {
    /// Nothing is known.
    pub fn new(alloc: Global) -> Known
        ensures least { result.least ≡ None }
        ensures right { (b : FiniteAlgebra) (budget : ℕ) → IsRight b budget result }
    {
        Known {
            least: None,
            settled: HashSet::new(alloc),
        }
    }

    /// Whether a pair is settled.
    pub fn is_settled(&self, pair: (Elem, Elem)) -> bool
        ensures { result ≡ set.contains same_labels self.now.settled pair }
    {
        self.settled.contains(&pair)
    }

    /// Takes in a subtrace, which is the least of those met if it stands before them.
    fn meet(&mut self, pair: SubtracePair)
        ensures settled { self.new.settled ≡ self.old.settled }
        ensures least { IsEarlier self.old.least pair self.new.least }
    {
        if let Some(least) = self.least {
            if !is_before((pair.low, pair.high), (least.low, least.high)) {
                return;
            }
        }
        self.least = Some(pair);
    }

    /// Takes in the subtraces of a listing of pairs that generate each other.
    pub fn meet_all(&mut self, list: &Listing)
        requires pairs { (v : Vector) → Contains (vectors_of list.now) v → length v ≡ 2 }
        ensures settled { self.new.settled ≡ self.old.settled }
        ensures least { IsLeastMet self.old.least (vectors_of list.now) self.new.least }
    {
        for i in 0..list.len() {
            let row = list.row(i);
            let (low, high) = (row[0], row[1]);
            if low != high {
                let swap = has(list, (high, low));
                self.meet(SubtracePair { low, high, swap });
            }
        }
    }

    /// Settles pairs: these are settled then, with those that were, and no others.
    pub fn settle(&mut self, pairs: &[(Elem, Elem)]) -> Result<(), AllocError>
        ensures least { self.new.least ≡ self.old.least }
        ensures settled { OnOk result ((q : ℕ × ℕ) → set.contains same_labels self.new.settled q ≡ true → (set.contains same_labels self.old.settled q ≡ true) ⊎ Contains pairs.now q) }
        ensures kept { OnOk result ((q : ℕ × ℕ) → set.contains same_labels self.old.settled q ≡ true → set.contains same_labels self.new.settled q ≡ true) }
        ensures added { OnOk result ((q : ℕ × ℕ) → Contains pairs.now q → set.contains same_labels self.new.settled q ≡ true) }
    {
        for pair in pairs {
            self.settled.insert(*pair)?;
        }
        Ok(())
    }
}
