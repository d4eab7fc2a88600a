//! Climbs along two kinds of links in turn.

ghost use Rattle.std.specs.Prelude.{◌≡◌, ◌+◌, ◌<◌, ◌^◌, [], ◌++◌, length, map, IfOk, Vec, ℕ, slice_index_or};
ghost use Rattle.std.specs.declared.alloc.Global.{Global};
ghost use Rattle.ua_climb.specs.Ladders.{AreLinks, IsAllowed};
ghost use Rattle.ua_climb.specs.Sides.{row_of};
ghost use Rattle.ua_climb.specs.inner.Sides.{AreGroups, IsOfLinks};
ghost use Rattle.ua_climb.specs.Climbs.{TellsClimb};

use crate::links::Links;
use crate::networks::Network;
use crate::searches::{Found, least_walk};
use std::alloc::{AllocError, Global};

/// What a search for a climb answers.
#[derive(Drop, Debug)]
pub enum Climb {
    /// The rows of a least climb.
    Rows(Vec<u32>),
    /// The rows that climbs lead to at even and at odd indices, where none leads to the end.
    Reached {
        at_even: Vec<bool>,
        at_odd: Vec<bool>,
    },
}

/// Empty groups.
fn no_groups(alloc: Global, classes: u32) -> Result<Vec<Vec<u32>>, AllocError>
    ensures count { IfOk result (λ groups. length (map (λ (v : Vec ℕ Global). v.items) groups.items) ≡ classes) }
    ensures empty { IfOk result (λ groups. (c : ℕ) → slice_index_or (map (λ (v : Vec ℕ Global). v.items) groups.items) c [] ≡ []) }
{
    let mut groups = Vec::with_capacity(alloc, classes as usize)?;
    for _ in 0..classes {
        groups.push(Vec::new(alloc))?;
    }
    Ok(groups)
}

/// The allowed rows by the class that they are entered by, as states from the first on.
fn groups(
    alloc: Global,
    allowed: &[bool],
    links: &Links,
    first: u32,
) -> Result<Vec<Vec<u32>>, AllocError>
    requires rows { length links.now.leads ≡ length allowed.now }
    requires room { first + length allowed.now < 2 ^ 32 }
    ensures { IfOk result (λ groups. AreGroups allowed.now links.now.enters links.now.classes first (length allowed.now) (map (λ (v : Vec ℕ Global). v.items) groups.items)) }
{
    let mut groups = no_groups(alloc, links.classes())?;
    for row in 0..allowed.len() {
        if allowed[row] {
            groups[links.enters(row) as usize].push(first + row as u32)?;
        }
    }
    Ok(groups)
}

/// The classes that the states lead to: those of the even links, then those of the odd links behind them.
fn state_leads(alloc: Global, even: &Links, odd: &Links) -> Result<Vec<u32>, AllocError>
    requires { even.now.classes + odd.now.classes < 2 ^ 32 }
    ensures leads { IfOk result (λ leads. leads.items ≡ even.now.leads ++ map (λ c. even.now.classes + c) odd.now.leads) }
    ensures even_links { IfOk result (λ _. AreLinks even.now.leads even.now.enters even.now.classes) }
    ensures odd_links { IfOk result (λ _. AreLinks odd.now.leads odd.now.enters odd.now.classes) }
{
    let classes = even.classes();
    // What these calls ensure bounds the classes.
    let _odd_classes = odd.classes();
    let mut leads = even.leads().to_vec(alloc)?;
    for class in odd.leads() {
        leads.push(classes + *class)?;
    }
    Ok(leads)
}

/// The network in which each row is two states, one at even and one behind them at odd indices.
fn network_of(
    alloc: Global,
    allowed: &[bool],
    even: &Links,
    odd: &Links,
) -> Result<Network, AllocError>
    requires even_rows { length even.now.leads ≡ length allowed.now }
    requires odd_rows { length odd.now.leads ≡ length allowed.now }
    requires room { length allowed.now + length allowed.now < 2 ^ 32 }
    requires classes { even.now.classes + odd.now.classes < 2 ^ 32 }
    ensures network { IfOk result (IsOfLinks allowed.now even.now odd.now) }
    ensures even_links { IfOk result (λ _. AreLinks even.now.leads even.now.enters even.now.classes) }
    ensures odd_links { IfOk result (λ _. AreLinks odd.now.leads odd.now.enters odd.now.classes) }
{
    let leads = state_leads(alloc, even, odd)?;
    let mut members = groups(alloc, allowed, even, allowed.len() as u32)?;
    let mut odd_members = groups(alloc, allowed, odd, 0)?;
    members.append(&mut odd_members)?;
    Ok(Network::new(leads, members))
}

/// The rows of states.
fn rows_of(alloc: Global, states: &[u32], rows: u32) -> Result<Vec<u32>, AllocError>
    ensures { IfOk result (λ found. found.items ≡ map (λ s. row_of rows s) states.now) }
{
    states
        .iter()
        .map(|state| { if *state < rows { *state } else { *state - rows } })
        .collect(alloc)
}

/// A climb of least length from the start to the end, or the rows that climbs lead to where none does.
///
/// A climb is a list of allowed rows, each joined to the next by the even links where it stands at an even
/// index and by the odd links else. Its time is linear in the rows and the classes.
pub fn least_climb(
    alloc: Global,
    allowed: &[bool],
    even: &Links,
    odd: &Links,
    start: u32,
    end: u32,
) -> Result<Climb, AllocError>
    requires even_rows { length even.now.leads ≡ length allowed.now }
    requires odd_rows { length odd.now.leads ≡ length allowed.now }
    requires room { length allowed.now + length allowed.now < 2 ^ 32 }
    requires classes { even.now.classes + odd.now.classes < 2 ^ 32 }
    requires start { IsAllowed allowed.now start }
    requires end { end < length allowed.now }
    ensures { IfOk result (TellsClimb allowed.now even.now odd.now start end) }
{
    let rows = allowed.len();
    let network = network_of(alloc, allowed, even, odd)?;
    let ends = [end, rows as u32 + end];
    match least_walk(alloc, &network, start, ends.as_slice())? {
        Found::Walk(states) => {
            let found = rows_of(alloc, states.as_slice(), rows as u32)?;
            Ok(Climb::Rows(found))
        }
        Found::Reached(marks) => {
            let at_even = marks.as_slice()[..rows].to_vec(alloc)?;
            let at_odd = marks.as_slice()[rows..].to_vec(alloc)?;
            Ok(Climb::Reached { at_even, at_odd })
        }
    }
}
