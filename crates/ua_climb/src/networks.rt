//! Networks of states, with links from states to classes of states.

ghost use Rattle.std.specs.Prelude.{◌≡◌, ◌<◌, length, map, slice_index, slice_index_or, Vec, ℕ, []};
ghost use Rattle.std.specs.List.{AllByRecursion};
ghost use Rattle.std.specs.declared.alloc.Global.{Global};
ghost use Rattle.ua_climb.specs.Networks.{IsNetwork};

use std::marker::Model;

/// A directed graph in which each state is linked to all members of one class of states, so that many links
/// take little room.
#[derive(Drop, Debug)]
pub struct Network {
    /// The class that each state leads to.
    leads: Vec<u32>,
    /// The members of each class.
    members: Vec<Vec<u32>>,
}

impl Model for Network {
    ghost use Rattle.std.specs.Prelude.{map, Vec, ℕ};
    ghost use Rattle.std.specs.declared.alloc.Global.{Global};
    ghost use Rattle.ua_climb.specs.Networks as networks;

    ghost Value = { networks.Network };

    ghost view = { λ a. record { leads = a.leads.items; members = map (λ (v : Vec ℕ Global). v.items) a.members.items } };

    ghost invariant = { λ a. networks.IsNetwork a.leads.items (map (λ (v : Vec ℕ Global). v.items) a.members.items) };
}

impl Network {
    /// The network of these links.
    pub fn new(leads: Vec<u32>, members: Vec<Vec<u32>>) -> Network
        requires { IsNetwork leads.items (map (λ (v : Vec ℕ Global). v.items) members.items) }
        ensures leads { result.leads ≡ leads.items }
        ensures members { result.members ≡ map (λ (v : Vec ℕ Global). v.items) members.items }
    {
        Network { leads, members }
    }

    /// How many states there are.
    pub fn states(&self) -> u32
        ensures count { result ≡ length self.now.leads }
        ensures network { IsNetwork self.now.leads self.now.members }
    {
        self.leads.len() as u32
    }

    /// How many classes there are.
    pub fn classes(&self) -> usize
        ensures { result ≡ length self.now.members }
    {
        self.members.len()
    }

    /// The class that a state leads to.
    pub fn class(&self, state: u32) -> u32
        requires { state < length self.now.leads }
        ensures class { result ≡ slice_index self.now.leads state }
        ensures named { result < length self.now.members }
    {
        self.leads[state as usize]
    }

    /// The members of a class.
    pub fn members(&self, class: u32) -> &[u32]
        requires { class < length self.now.members }
        ensures members { result.now ≡ slice_index_or self.now.members class [] }
        ensures states { AllByRecursion (λ t. t < length self.now.leads) result.now }
    {
        self.members[class as usize].as_slice()
    }
}
