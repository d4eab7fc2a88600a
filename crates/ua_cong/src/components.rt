//! The order in which pairs of elements are settled: each after those to which translations take it.
//!
//! Pairs that lead to one another are a component of the graph of pairs. A search in depth (R. E. Tarjan, Depth-first
//! search and linear graph algorithms) comes to its end with one after those to which it leads, and notes on the way
//! by which translation each pair leads to one that is settled before it. The order and these notes save time alone:
//! what a pair shares with another is tested where it is settled, and no contract here speaks of the search.

ghost use Rattle.std.specs.Prelude.{◌+◌, ◌<◌, ◌≤◌, length, OnOk};
ghost use Rattle.ua_cong.specs.Known.{IsKnown};
ghost use Rattle.ua_cong.specs.inner.States.{IsSearched};

use crate::closing::place_of;
use crate::known::{Known, rank};
use crate::moves::Moves;
use crate::settling::settle;
use std::alloc::{AllocError, Global};
use ua_table::{Algebra, Elem};

/// What the search walks over, and how many different principal congruences are enough.
#[derive(Drop)]
struct Ground<'a> {
    algebra: &'a Algebra,
    pairs: &'a [(Elem, Elem)],
    moves: Moves,
    limit: u32,
}

/// How far the search is with a pair.
#[derive(Clone, Copy)]
enum State {
    Unseen,
    /// Its number in the order in which pairs are found.
    Found(u32),
    /// The place of its row.
    Settled(u32),
}

/// What is noted of a pair.
#[derive(Clone, Copy)]
struct Node {
    state: State,
    /// A pair to which it leads that is settled before it, itself at first, and the translation.
    via: u32,
    by: Option<u32>,
}

/// A pair on the path from where the search began.
#[derive(Clone, Copy)]
struct Frame {
    pair: u32,
    number: u32,
    /// The translation that is next.
    next: u32,
    /// The least number of a pair, not settled yet, to which this one was seen to lead, and how.
    low: u32,
    via: u32,
    by: Option<u32>,
    /// The translation to the settled pair with the fewest blocks so far, and how many these are.
    best: Option<u32>,
    blocks: u32,
    /// The place of the row of the last settled pair that was seen.
    last: Option<u32>,
}

/// How far the search has come.
#[derive(Drop)]
struct Trail {
    nodes: Vec<Node>,
    path: Vec<Frame>,
    /// Pairs that are found, and whose components are not complete.
    open: Vec<u32>,
    chain: Vec<u32>,
    count: u32,
    /// How many pairs were left unsettled since one was settled last.
    waiting: u32,
}

/// What a translation gives for the search.
#[derive(Clone, Copy)]
enum Seen {
    Nothing,
    /// A pair that is not found yet.
    New(u32),
    /// A pair that generates the same.
    Same,
}

/// Where a pair leads.
#[derive(Clone, Copy)]
enum Turn {
    Down(u32),
    Same,
    End,
}

/// A place as a number of 32 bits. All places here are fewer.
fn narrow(place: usize) -> u32 {
    place.min(u32::MAX as usize) as u32
}

/// The rank of a pair of two different elements.
fn rank_of(a: &Algebra, u: Elem, v: Elem) -> Option<usize> {
    let size = a.size() as usize;
    let low = usize::from(u.min(v));
    let high = usize::from(u.max(v));
    if low >= high || high >= size {
        return None;
    }
    Some(rank(size, low, high))
}

/// Whether the row at a place relates a pair.
fn relates(known: &Known, place: u32, x: Elem, y: Elem) -> bool {
    if place >= known.rows.len() {
        return false;
    }
    let row = known.rows.row(place);
    let first = row.get(usize::from(x));
    first.is_some() && first == row.get(usize::from(y))
}

/// Sees that the pair of a frame leads to a settled one.
fn see_settled(ground: &Ground, known: &Known, frame: &mut Frame, k: u32, place: u32) -> Seen {
    if frame.last == Some(place) {
        return Seen::Nothing;
    }
    frame.last = Some(place);
    let Some((x, y)) = ground.pairs.get(frame.pair as usize).copied() else {
        return Seen::Nothing;
    };
    if relates(known, place, x, y) {
        frame.by = Some(k);
        return Seen::Same;
    }
    let blocks = known.blocks_at(place);
    if blocks < frame.blocks {
        frame.best = Some(k);
        frame.blocks = blocks;
    }
    Seen::Nothing
}

/// Sees that the pair of a frame leads to two elements.
#[inline(always)]
fn see(
    ground: &Ground,
    nodes: &[Node],
    known: &Known,
    frame: &mut Frame,
    k: u32,
    u: Elem,
    v: Elem,
) -> Seen {
    if u == v {
        return Seen::Nothing;
    }
    let Some(at) = rank_of(ground.algebra, u, v) else {
        return Seen::Nothing;
    };
    let Some(node) = nodes.get(at) else {
        return Seen::Nothing;
    };
    match node.state {
        State::Unseen => Seen::New(narrow(at)),
        State::Settled(place) => see_settled(ground, known, frame, k, place),
        State::Found(number) => {
            if number < frame.low {
                frame.low = number;
                frame.via = narrow(at);
                frame.by = Some(k);
            }
            Seen::Nothing
        }
    }
}

/// Goes on along the translations of the pair of a frame, up to one that gives a pair not found yet or one that
/// generates the same.
fn go_on(ground: &Ground, nodes: &[Node], known: &Known, frame: &mut Frame) -> Turn {
    let Some((x, y)) = ground.pairs.get(frame.pair as usize).copied() else {
        return Turn::End;
    };
    let first = ground.moves.of(x);
    let second = ground.moves.of(y);
    for k in frame.next as usize..first.len().min(second.len()) {
        match see(ground, nodes, known, frame, narrow(k), first[k], second[k]) {
            Seen::Nothing => {}
            Seen::New(pair) => {
                frame.next = narrow(k);
                return Turn::Down(pair);
            }
            Seen::Same => return Turn::Same,
        }
    }
    Turn::End
}

/// Puts a pair at the end of the path.
fn enter(trail: &mut Trail, pair: u32) -> Result<(), AllocError> {
    trail.count = trail.count.saturating_add(1);
    let number = trail.count;
    if let Some(node) = trail.nodes.get_mut(pair as usize) {
        node.state = State::Found(number);
        node.via = pair;
    }
    trail.open.push(pair)?;
    trail.path.push(Frame {
        pair,
        number,
        next: 0,
        low: number,
        via: pair,
        by: None,
        best: None,
        blocks: u32::MAX,
        last: None,
    })?;
    Ok(())
}

/// Notes the place of the row of a pair.
fn note_settled(trail: &mut Trail, pair: u32, place: u32) {
    trail.waiting = 0;
    if let Some(node) = trail.nodes.get_mut(pair as usize) {
        node.state = State::Settled(place);
    }
}

/// Settles a pair, by the translation with this number, unless enough principal congruences are found.
fn settle_pair(
    alloc: Global,
    ground: &Ground,
    trail: &mut Trail,
    known: &mut Known,
    pair: u32,
    by: Option<u32>,
) -> Result<(), AllocError>
    requires { IsSearched ground.now known.old }
    ensures { OnOk result (IsSearched ground.now known.new) }
{
    let Some((x, y)) = ground.pairs.get(pair as usize).copied() else {
        return Ok(());
    };
    let size = ground.algebra.size();
    if known.rows.len() > ground.limit || u32::from(x) >= size || u32::from(y) >= size {
        return Ok(());
    }
    settle(alloc, ground.algebra, known, x, y, ground.moves.get(by))?;
    if let Some(place) = place_of(ground.algebra, known, x, y) {
        note_settled(trail, pair, place);
    }
    Ok(())
}

/// Notes the pairs by which a pair leads to a settled one, the pair itself first.
fn trace(trail: &mut Trail, pair: u32) -> Result<(), AllocError> {
    trail.chain.clear();
    let mut at = pair;
    for _ in 0..trail.nodes.len() {
        let Some(node) = trail.nodes.get(at as usize).copied() else {
            return Ok(());
        };
        if matches!(node.state, State::Settled(_)) {
            return Ok(());
        }
        trail.chain.push(at)?;
        if node.via == at {
            return Ok(());
        }
        at = node.via;
    }
    Ok(())
}

/// Settles a pair of a component, after those by which it leads to a settled one.
fn settle_traced(
    alloc: Global,
    ground: &Ground,
    trail: &mut Trail,
    known: &mut Known,
    pair: u32,
) -> Result<(), AllocError>
    requires { IsSearched ground.now known.old }
    ensures { OnOk result (IsSearched ground.now known.new) }
{
    trace(trail, pair)?;
    for _ in 0..trail.chain.len() {
        let Some(next) = trail.chain.pop() else {
            return Ok(());
        };
        let Some(node) = trail.nodes.get(next as usize).copied() else {
            return Ok(());
        };
        settle_pair(alloc, ground, trail, known, next, node.by)?;
    }
    Ok(())
}

/// Settles the pairs of a component that is complete: those found since this one.
fn settle_component(
    alloc: Global,
    ground: &Ground,
    trail: &mut Trail,
    known: &mut Known,
    pair: u32,
) -> Result<(), AllocError>
    requires { IsSearched ground.now known.old }
    ensures { OnOk result (IsSearched ground.now known.new) }
{
    for _ in 0..trail.open.len() {
        let Some(next) = trail.open.pop() else {
            return Ok(());
        };
        settle_traced(alloc, ground, trail, known, next)?;
        if next == pair {
            return Ok(());
        }
    }
    Ok(())
}

/// Goes back from a pair to that before it on the path, which leads where this one leads.
fn go_back(trail: &mut Trail, frame: Frame) {
    trail.waiting = trail.waiting.saturating_add(1);
    if let Some(node) = trail.nodes.get_mut(frame.pair as usize) {
        node.via = frame.via;
        node.by = frame.by;
    }
    if let Some(before) = trail.path.last_mut() {
        if frame.low < before.low {
            before.low = frame.low;
            before.via = frame.pair;
            before.by = Some(before.next);
        }
    }
}

/// Leaves a pair whose translations are seen, or one of which is that of its own principal congruence.
fn leave(
    alloc: Global,
    ground: &Ground,
    trail: &mut Trail,
    known: &mut Known,
    frame: Frame,
    same: bool,
) -> Result<(), AllocError>
    requires { IsSearched ground.now known.old }
    ensures { OnOk result (IsSearched ground.now known.new) }
{
    let first = frame.low == frame.number;
    let by = if same { frame.by } else { frame.best };
    // Of a large component a pair is settled early: the rest of its pairs then stop at one that is settled.
    if same || first || trail.waiting > ground.algebra.size() {
        settle_pair(alloc, ground, trail, known, frame.pair, by)?;
    }
    if first {
        return settle_component(alloc, ground, trail, known, frame.pair);
    }
    go_back(trail, frame);
    Ok(())
}

/// A step of the search: down to a pair, or back from one.
fn step(
    alloc: Global,
    ground: &Ground,
    trail: &mut Trail,
    known: &mut Known,
) -> Result<(), AllocError>
    requires { IsSearched ground.now known.old }
    ensures { OnOk result (IsSearched ground.now known.new) }
{
    let Some(frame) = trail.path.pop() else {
        return Ok(());
    };
    let mut frame = frame;
    match go_on(ground, trail.nodes.as_slice(), known, &mut frame) {
        Turn::Down(pair) => {
            trail.path.push(frame)?;
            enter(trail, pair)
        }
        Turn::Same => leave(alloc, ground, trail, known, frame, true),
        Turn::End => leave(alloc, ground, trail, known, frame, false),
    }
}

/// Searches from a pair on, unless it is found already.
fn search_from(
    alloc: Global,
    ground: &Ground,
    trail: &mut Trail,
    known: &mut Known,
    pair: u32,
) -> Result<(), AllocError>
    requires { IsSearched ground.now known.old }
    ensures { OnOk result (IsSearched ground.now known.new) }
{
    let Some(node) = trail.nodes.get(pair as usize).copied() else {
        return Ok(());
    };
    if !matches!(node.state, State::Unseen) {
        return Ok(());
    }
    enter(trail, pair)?;
    // Each pair is entered once and left once.
    for _ in 0..2 * ground.pairs.len() {
        if trail.path.is_empty() || known.rows.len() > ground.limit {
            return Ok(());
        }
        step(alloc, ground, trail, known)?;
    }
    Ok(())
}

/// Settles the pairs, component by component, up to the first different principal congruence beyond a limit.
pub fn settle_components(
    alloc: Global,
    a: &Algebra,
    known: &mut Known,
    pairs: &[(Elem, Elem)],
    limit: u32,
) -> Result<(), AllocError>
    requires known { IsKnown a.now known.old }
    requires limit { limit < u32.MAX }
    requires within { length known.old.rows.items ≤ limit }
    ensures known { OnOk result (IsKnown a.now known.new) }
    ensures within { OnOk result (length known.new.rows.items ≤ limit + 1) }
{
    let moves = Moves::new(alloc, a)?;
    let ground = Ground {
        algebra: a,
        pairs,
        moves,
        limit,
    };
    let unseen = Node {
        state: State::Unseen,
        via: 0,
        by: None,
    };
    let mut trail = Trail {
        nodes: vec![in alloc; unseen; pairs.len()]?,
        path: Vec::new(alloc),
        open: Vec::new(alloc),
        chain: Vec::new(alloc),
        count: 0,
        waiting: 0,
    };
    for pair in 0..pairs.len() {
        search_from(alloc, &ground, &mut trail, known, narrow(pair))?;
        if known.rows.len() > limit {
            return Ok(());
        }
    }
    Ok(())
}
