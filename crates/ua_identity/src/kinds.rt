//! The kinds of chains.

ghost use Rattle.std.specs.Prelude.{◌≡◌, ◌-◌, ◌<◌, ◌≤◌, ℕ, length, IfOk, IfSome};
ghost use Rattle.std.specs.List.{AllByRecursion};
ghost use Rattle.ua_table.specs.declared.limits.TheConstants.{SIZE, WIDTH};
ghost use Rattle.ua_identity.specs.Patterns.{all_fillings};
ghost use Rattle.ua_identity.specs.Kinds as kinds;
ghost use Rattle.ua_identity.specs.KindTables.{pattern_at, number_of, own_of, link_of, IsPartOf};
ghost use Rattle.ua_identity.specs.Chains.{AreOwnValues};

use crate::fillings::start_of;
use crate::patterns::Pattern;
use std::alloc::{AllocError, Global};
use std::marker::Model;
use ua_table::Elem;
use ua_term::append_values;

/// How a term of a chain is linked to the next: the one at the first pattern is the other at the second, by
/// the patterns' numbers.
#[derive(Clone, Copy, Debug)]
pub struct PatternPair {
    pub first: usize,
    pub second: usize,
}

/// The coordinates from one up to, not including, another.
#[derive(Clone, Copy, Debug)]
pub struct CoordinateRange {
    pub from: u32,
    pub to: u32,
}

/// A kind of chain: the identities that its terms satisfy, and those that link each to the next.
#[derive(Drop, Debug)]
pub struct Kind {
    places: u8,
    patterns: Vec<Pattern>,
    /// The pattern at which each term is what stands at its place 0.
    own: Option<usize>,
    even: PatternPair,
    odd: PatternPair,
    by_parity: bool,
}

impl Model for Kind {
    ghost use Rattle.ua_identity.specs.Chains.{ChainKind};
    ghost use Rattle.ua_identity.specs.KindTables.{kind_of, IsKindTable};

    ghost Value = { ChainKind };

    ghost view = { λ a. kind_of a.places a.patterns.items a.own a.even a.odd a.by_parity };

    ghost invariant = { λ a. IsKindTable a.places a.patterns.items a.own a.even a.odd a.by_parity };
}

/// A pattern of two or three variables.
fn pattern(alloc: Global, variables: u8, places: &[u8]) -> Result<Pattern, AllocError>
    requires few { variables ≤ 3 }
    requires named { AllByRecursion (λ v. v < variables) places.now }
    ensures { IfOk result (λ p. p ≡ record { variables = variables; places = places.now }) }
{
    Ok(Pattern::new(variables, places.to_vec(alloc)?))
}

impl Kind {
    /// Chains of Jónsson terms: d(x,y,x) = x; d(x,x,y) = e(x,x,y) from an even index on and d(x,y,y) =
    /// e(x,y,y) from an odd one (B. Jónsson, Algebras whose congruence lattices are distributive, 1967).
    pub fn jonsson(alloc: Global) -> Result<Kind, AllocError>
        ensures { IfOk result (λ kind. kind ≡ kinds.jonsson) }
    {
        let xyx = pattern(alloc, 2, &[0, 1, 0])?;
        let xxy = pattern(alloc, 2, &[0, 0, 1])?;
        let xyy = pattern(alloc, 2, &[0, 1, 1])?;
        let patterns = vec![in alloc; xyx, xxy, xyy]?;
        Ok(Kind {
            places: 3,
            patterns,
            own: Some(0),
            even: PatternPair {
                first: 1,
                second: 1,
            },
            odd: PatternPair {
                first: 2,
                second: 2,
            },
            by_parity: true,
        })
    }

    /// Chains of Hagemann and Mitschke: p(x,x,y) = q(x,y,y) (J. Hagemann and A. Mitschke, On n-permutable
    /// congruences, 1973).
    pub fn hagemann_mitschke(alloc: Global) -> Result<Kind, AllocError>
        ensures { IfOk result (λ kind. kind ≡ kinds.hagemann_mitschke) }
    {
        let xxy = pattern(alloc, 2, &[0, 0, 1])?;
        let xyy = pattern(alloc, 2, &[0, 1, 1])?;
        let patterns = vec![in alloc; xxy, xyy]?;
        let pair = PatternPair {
            first: 0,
            second: 1,
        };
        Ok(Kind {
            places: 3,
            patterns,
            own: None,
            even: pair,
            odd: pair,
            by_parity: false,
        })
    }

    /// Chains of Day terms: m(x,y,y,x) = x; m(x,x,w,w) = n(x,x,w,w) from an even index on and m(x,y,y,w) =
    /// n(x,y,y,w) from an odd one (A. Day, A characterization of modularity for congruence lattices of
    /// algebras, 1969).
    pub fn day(alloc: Global) -> Result<Kind, AllocError>
        ensures { IfOk result (λ kind. kind ≡ kinds.day) }
    {
        let xyyx = pattern(alloc, 2, &[0, 1, 1, 0])?;
        let xxww = pattern(alloc, 2, &[0, 0, 1, 1])?;
        let xyyw = pattern(alloc, 3, &[0, 1, 1, 2])?;
        let patterns = vec![in alloc; xyyx, xxww, xyyw]?;
        Ok(Kind {
            places: 4,
            patterns,
            own: Some(0),
            even: PatternPair {
                first: 1,
                second: 1,
            },
            odd: PatternPair {
                first: 2,
                second: 2,
            },
            by_parity: true,
        })
    }

    /// How many places the terms have, the last of which is the end.
    pub fn places(&self) -> u8
        ensures places { result ≡ self.now.places }
        ensures end { self.now.end ≡ result - 1 }
        ensures kind { kinds.IsKind self.now }
    {
        self.places
    }

    /// The patterns, in the order of their coordinates.
    pub fn patterns(&self) -> &[Pattern]
        ensures patterns { result.now ≡ self.now.patterns }
        ensures kind { kinds.IsKind self.now }
        ensures few { length self.now.patterns ≤ 3 }
        ensures different { (m : ℕ) → m < length self.now.patterns → number_of self.now.patterns (pattern_at self.now.patterns m) ≡ m }
    {
        self.patterns.as_slice()
    }

    /// The coordinates of pattern m.
    pub fn part(&self, size: u32, m: usize) -> CoordinateRange
        requires small { size ≤ SIZE }
        requires narrow { length (all_fillings size self.now.patterns) ≤ WIDTH }
        requires pattern { m < length self.now.patterns }
        ensures { IsPartOf size self.now.patterns m result }
    {
        CoordinateRange {
            from: start_of(size, self.patterns.as_slice(), m),
            to: start_of(size, self.patterns.as_slice(), m + 1),
        }
    }

    /// The number of the pattern at which each term is what stands at its place 0.
    pub fn own(&self) -> Option<usize>
        ensures own { self.now.own ≡ own_of self.now.patterns result }
        ensures named { IfSome result (λ m. m < length self.now.patterns) }
    {
        self.own
    }

    /// What each term's vector has at that pattern, if there is one.
    pub fn own_values(&self, alloc: Global, size: u32) -> Result<Vec<Elem>, AllocError>
        requires some { 0 < size }
        requires small { size ≤ SIZE }
        requires narrow { length (all_fillings size self.now.patterns) ≤ WIDTH }
        ensures { IfOk result (λ values. AreOwnValues size self.now values.items) }
    {
        let mut values = Vec::new(alloc);
        if let Some(m) = self.own {
            let pattern = &self.patterns[m];
            append_values(&mut values, size, pattern.variables(), pattern.variable(0))?;
        }
        Ok(values)
    }

    /// The patterns of the links at even indices.
    pub fn even(&self) -> PatternPair
        ensures link { self.now.even ≡ link_of self.now.patterns result }
        ensures first { result.first < length self.now.patterns }
        ensures second { result.second < length self.now.patterns }
    {
        self.even
    }

    /// The patterns of the links at odd indices.
    pub fn odd(&self) -> PatternPair
        ensures link { self.now.odd ≡ link_of self.now.patterns result }
        ensures first { result.first < length self.now.patterns }
        ensures second { result.second < length self.now.patterns }
    {
        self.odd
    }

    /// Whether what is reached at even and at odd indices is told apart.
    pub fn by_parity(&self) -> bool
        ensures { result ≡ self.now.by_parity }
    {
        self.by_parity
    }
}
