//! The search by levels.

ghost use Rattle.std.specs.Prelude.{◌≡◌, ◌+◌, ◌<◌, ◌^◌, [], ◌∷◌, length, IfOk, OnOk, Contains, Some, None, ℕ, map, is_some, IfSome, IfNone};
ghost use Rattle.std.specs.List.{AllByRecursion};
ghost use Rattle.ua_climb.specs.Networks.{Network};
ghost use Rattle.ua_climb.specs.inner.Networks.{IsWalk};
ghost use Rattle.ua_climb.specs.Marks.{Opens, HasSource};
ghost use Rattle.ua_climb.specs.inner.Marks.{Enters, IsTrail, IsLine, IsBegun};
ghost use Rattle.ua_climb.specs.inner.Answers.{TellsWalk};

use crate::networks::Network;
use std::alloc::{AllocError, Global};

/// What a search answers.
#[derive(Drop, Debug)]
pub enum Found {
    /// The states of a walk of least length.
    Walk(Vec<u32>),
    /// Which states are reached, where none of the ends is.
    Reached(Vec<bool>),
}

/// What a search has marked.
#[derive(Drop)]
struct Marks {
    /// From where each state was reached first; the start from itself.
    from: Vec<Option<u32>>,
    /// Whether the members of each class are marked.
    opened: Vec<bool>,
}

/// Marks the members of a class as reached from a state, and adds those that were not to the next ones.
fn enter(
    from: &mut [Option<u32>],
    state: u32,
    members: &[u32],
    next: &mut Vec<u32>,
) -> Result<(), AllocError>
    requires { AllByRecursion (λ t. t < length from.old) members.now }
    ensures { OnOk result (Enters state members.now from.old next.old.items from.new next.new.items) }
{
    for member in members {
        if from[*member as usize].is_none() {
            from[*member as usize] = Some(state);
            next.push(*member)?;
        }
    }
    Ok(())
}

impl Marks {
    /// The marks of a search that has reached its start alone.
    fn start(alloc: Global, network: &Network, start: u32) -> Result<Marks, AllocError>
        requires { start < length network.now.leads }
        ensures begun { IfOk result (λ marks. IsBegun network.now start marks.from.items marks.opened.items) }
        ensures few { length network.now.leads < 2 ^ 32 }
    {
        let mut from = vec![in alloc; None; network.states() as usize]?;
        from[start as usize] = Some(start);
        let opened = vec![in alloc; false; network.classes()]?;
        Ok(Marks { from, opened })
    }

    /// Opens the class that a state leads to: its members are marked, and those that were not are added to
    /// the next ones. Each class is gone through once.
    fn open(&mut self, network: &Network, state: u32, next: &mut Vec<u32>) -> Result<(), AllocError>
        requires state { state < length network.now.leads }
        requires states { length self.old.from.items ≡ length network.now.leads }
        requires classes { length self.old.opened.items ≡ length network.now.members }
        ensures { OnOk result (Opens network.now (state ∷ []) self.old.from.items self.old.opened.items next.old.items self.new.from.items self.new.opened.items next.new.items) }
    {
        let class = network.class(state);
        if self.opened[class as usize] {
            return Ok(());
        }
        self.opened[class as usize] = true;
        enter(
            self.from.as_mut_slice(),
            state,
            network.members(class),
            next,
        )
    }

    /// Opens the classes of a frontier, and answers the states that this reached.
    fn next_level(
        &mut self,
        alloc: Global,
        network: &Network,
        frontier: &[u32],
    ) -> Result<Vec<u32>, AllocError>
        requires frontier { AllByRecursion (λ s. s < length network.now.leads) frontier.now }
        requires states { length self.old.from.items ≡ length network.now.leads }
        requires classes { length self.old.opened.items ≡ length network.now.members }
        ensures { IfOk result (λ next. Opens network.now frontier.now self.old.from.items self.old.opened.items [] self.new.from.items self.new.opened.items next.items) }
    {
        let mut next = Vec::new(alloc);
        for state in frontier {
            self.open(network, *state, &mut next)?;
        }
        Ok(next)
    }
}

/// The first of the ends that is marked.
fn first_marked(from: &[Option<u32>], ends: &[u32]) -> Option<u32>
    requires { AllByRecursion (λ t. t < length from.now) ends.now }
    ensures found { IfSome result (λ end. Contains ends.now end × HasSource from.now end) }
    ensures none { IfNone result ((end : ℕ) → Contains ends.now end → HasSource from.now end → ⊥) }
{
    for end in ends {
        if from[*end as usize].is_some() {
            return Some(*end);
        }
    }
    None
}

/// The states along the marks, from where so many links lead back to up to the end.
fn walk_back(
    alloc: Global,
    from: &[Option<u32>],
    end: u32,
    links: u32,
) -> Result<Vec<u32>, AllocError>
    requires { IsLine from.now end links }
    ensures walk { IfOk result (λ walk. (g : Network) (start : ℕ) → IsTrail g from.now start end links → IsWalk g start end walk.items) }
    ensures count { IfOk result (λ walk. length walk.items ≡ links + 1) }
{
    let mut walk = Vec::with_capacity(alloc, links as usize + 1)?;
    walk.push(end)?;
    let mut state = end;
    for _ in 0..links {
        let Some(source) = from[state as usize] else {
            unreachable!()
        };
        state = source;
        walk.push(state)?;
    }
    walk.as_mut_slice().reverse();
    Ok(walk)
}

/// Which states are marked.
fn marked(alloc: Global, from: &[Option<u32>]) -> Result<Vec<bool>, AllocError>
    ensures { IfOk result (λ marks. marks.items ≡ map is_some from.now) }
{
    from.iter().map(|mark| mark.is_some()).collect(alloc)
}

/// A walk of least length from the start to one of the ends, or the states that are reached where no end is.
///
/// The search goes level by level and opens each class once, so its time is that of all links from classes
/// to members.
pub fn least_walk(
    alloc: Global,
    network: &Network,
    start: u32,
    ends: &[u32],
) -> Result<Found, AllocError>
    requires start { start < length network.now.leads }
    requires ends { AllByRecursion (λ t. t < length network.now.leads) ends.now }
    ensures { IfOk result (TellsWalk network.now start ends.now) }
{
    if ends.contains(&start) {
        return Ok(Found::Walk(vec![in alloc; start]?));
    }
    let mut marks = Marks::start(alloc, network, start)?;
    let mut frontier = vec![in alloc; start]?;
    let mut level = 0;
    while !frontier.is_empty() {
        frontier = marks.next_level(alloc, network, frontier.as_slice())?;
        level += 1;
        if let Some(end) = first_marked(marks.from.as_slice(), ends) {
            let walk = walk_back(alloc, marks.from.as_slice(), end, level)?;
            return Ok(Found::Walk(walk));
        }
    }
    let reached = marked(alloc, marks.from.as_slice())?;
    Ok(Found::Reached(reached))
}
