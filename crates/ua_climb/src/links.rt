//! Links between rows by classes.

ghost use Rattle.std.specs.Prelude.{◌≡◌, ◌<◌, length, slice_index};
ghost use Rattle.ua_climb.specs.Ladders.{AreLinks};

use std::marker::Model;

/// How rows follow one another: each row leads to all rows that are entered by one class.
#[derive(Drop, Debug)]
pub struct Links {
    leads: Vec<u32>,
    enters: Vec<u32>,
    classes: u32,
}

impl Model for Links {
    ghost use Rattle.ua_climb.specs.Ladders.{LinkLists, AreLinks};

    ghost Value = { LinkLists };

    ghost view = { λ a. record { leads = a.leads.items; enters = a.enters.items; classes = a.classes } };

    ghost invariant = { λ a. AreLinks a.leads.items a.enters.items a.classes };
}

impl Links {
    /// The links of these classes.
    pub fn new(leads: Vec<u32>, enters: Vec<u32>, classes: u32) -> Links
        requires { AreLinks leads.items enters.items classes }
        ensures leads { result.leads ≡ leads.items }
        ensures enters { result.enters ≡ enters.items }
        ensures classes { result.classes ≡ classes }
    {
        Links {
            leads,
            enters,
            classes,
        }
    }

    /// How many classes there are.
    pub fn classes(&self) -> u32
        ensures count { result ≡ self.now.classes }
        ensures links { AreLinks self.now.leads self.now.enters self.now.classes }
    {
        self.classes
    }

    /// The class that each row leads to.
    pub fn leads(&self) -> &[u32]
        ensures { result.now ≡ self.now.leads }
    {
        self.leads.as_slice()
    }

    /// The class that a row is entered by.
    pub fn enters(&self, row: usize) -> u32
        requires { row < length self.now.enters }
        ensures class { result ≡ slice_index self.now.enters row }
        ensures named { result < self.now.classes }
    {
        self.enters[row]
    }
}
