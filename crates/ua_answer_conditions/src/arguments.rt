//! Sets of lists of arguments.

ghost use Rattle.std.specs.Prelude.{◌≡◌, ℕ, List, [], ◌∷◌, not, IfOk, OnOk};
ghost use Rattle.ua_text.specs.Words.{among};

use std::alloc::{AllocError, Global};
use std::collections::BTreeSet;

/// A set of lists of arguments. An insertion takes time logarithmic in its size.
#[derive(Drop)]
pub struct ArgumentSet {
    arguments: BTreeSet<Vec<usize>>,
}

impl ArgumentSet {
    ghost use Rattle.ua_answer_conditions.specs.ArgumentSets.{HoldsThese};

    /// The set of no arguments. It takes no memory.
    pub fn new(alloc: Global) -> ArgumentSet
        ensures { HoldsThese result [] }
    {
        ArgumentSet {
            arguments: BTreeSet::new(alloc),
        }
    }

    /// Adds a list, and tells whether it is new.
    pub fn insert(&mut self, arguments: Vec<usize>) -> Result<bool, AllocError>
        ensures added { IfOk result (λ added. (lists : List (List ℕ)) → HoldsThese self.old lists → added ≡ not (among arguments.items lists)) }
        ensures holds { OnOk result ((lists : List (List ℕ)) → HoldsThese self.old lists → HoldsThese self.new (arguments.items ∷ lists)) }
    {
        let added = self.arguments.insert(arguments)?;
        Ok(added)
    }
}
