//! Conditions on terms.

ghost use Rattle.std.specs.Prelude.{◌≡◌, ◌<◌, ◌≤◌, ◌↔◌, length, IsSome, IfSome, IfOk, IsTrue};
ghost use Rattle.std.specs.List.{AllByRecursion};
ghost use Rattle.ua_identity.specs.declared.limits.TheConstants.{NEAR_UNANIMITY, PLACES};
ghost use Rattle.ua_identity.specs.Identities.{TermIdentity, over_two};
ghost use Rattle.ua_identity.specs.Conditions.{IsIdentity, IsCondition, near_unanimous};
ghost use Rattle.ua_identity.specs.Conditions as conditions;

use crate::identities::Identity;
use crate::limits::PLACES;
use std::alloc::{AllocError, Global};
use std::marker::Model;

const X: u8 = 0;

const Y: u8 = 1;

/// A condition on the terms of so many places, at most `limits::PLACES`: identities, at least one, that such
/// a term is to satisfy together. A. I. Maltsev (On the general theory of algebraic systems, 1954) was the
/// first to ask an algebra for a term that meets one.
#[derive(Drop, Debug)]
pub struct Condition {
    arity: u8,
    identities: Vec<Identity>,
}

impl Model for Condition {
    ghost use Rattle.ua_identity.specs.Conditions.{TermCondition, IsCondition};

    ghost Value = { TermCondition };

    ghost view = { λ a. record { arity = a.arity; identities = a.identities.items } };

    ghost invariant = { λ a. IsCondition (record { arity = a.arity; identities = a.identities.items }) };
}

/// Whether each of the identities fills so many places.
fn are_filled(identities: &[Identity], arity: u8) -> bool
    ensures filled { IsTrue result ↔ AllByRecursion (λ (i : TermIdentity). length i.pattern.places ≡ arity) identities.now }
    ensures identities { IsTrue result → AllByRecursion IsIdentity identities.now }
{
    for identity in identities {
        if identity.pattern().places().len() != usize::from(arity) {
            return false;
        }
    }
    true
}

/// The identity over x and y that a term with these at its places is this one.
fn over_two(alloc: Global, places: &[u8], value: u8) -> Result<Identity, AllocError>
    requires places { AllByRecursion (λ v. v < 2) places.now }
    requires value { value < 2 }
    ensures { IfOk result (λ i. i ≡ record { pattern = over_two places.now; value = value }) }
{
    let Some(identity) = Identity::new(2, places.to_vec(alloc)?, value) else {
        unreachable!()
    };
    Ok(identity)
}

/// The identity that a term is x where y stands at place i and x at all others.
fn near_unanimous(alloc: Global, arity: u8, i: u8) -> Result<Identity, AllocError>
    requires { i < arity }
    ensures { IfOk result (λ identity. identity ≡ near_unanimous arity i) }
{
    let mut places = vec![in alloc; X; usize::from(arity)]?;
    places[usize::from(i)] = Y;
    over_two(alloc, places.as_slice(), X)
}

impl Condition {
    /// The condition of these identities on the terms of so many places, or None where there is no place, more
    /// of them than `limits::PLACES`, no identity, or one that fills another number of places. It takes no
    /// memory.
    pub fn new(arity: u8, identities: Vec<Identity>) -> Option<Condition>
        ensures condition { IfSome result (λ c. c ≡ record { arity = arity; identities = identities.items }) }
        ensures made { IsSome result ↔ IsCondition (record { arity = arity; identities = identities.items }) }
    {
        if arity < 1 || arity > PLACES || identities.is_empty() {
            return None;
        }
        if !are_filled(identities.as_slice(), arity) {
            return None;
        }
        Some(Condition { arity, identities })
    }

    /// p(x,y,y) = x and p(x,x,y) = y (A. I. Maltsev, On the general theory of algebraic systems, 1954).
    pub fn maltsev(alloc: Global) -> Result<Condition, AllocError>
        ensures { IfOk result (λ c. c ≡ conditions.maltsev) }
    {
        let mut identities = Vec::new(alloc);
        identities.push(over_two(alloc, &[X, Y, Y], X)?)?;
        identities.push(over_two(alloc, &[X, X, Y], Y)?)?;
        Ok(Condition {
            arity: 3,
            identities,
        })
    }

    /// m(x,x,y) = x, m(x,y,x) = x and m(y,x,x) = x.
    pub fn majority(alloc: Global) -> Result<Condition, AllocError>
        ensures { IfOk result (λ c. c ≡ conditions.majority) }
    {
        let mut identities = Vec::new(alloc);
        identities.push(over_two(alloc, &[X, X, Y], X)?)?;
        identities.push(over_two(alloc, &[X, Y, X], X)?)?;
        identities.push(over_two(alloc, &[Y, X, X], X)?)?;
        Ok(Condition {
            arity: 3,
            identities,
        })
    }

    /// m(x,x,y) = y, m(x,y,x) = y and m(y,x,x) = y.
    pub fn minority(alloc: Global) -> Result<Condition, AllocError>
        ensures { IfOk result (λ c. c ≡ conditions.minority) }
    {
        let mut identities = Vec::new(alloc);
        identities.push(over_two(alloc, &[X, X, Y], Y)?)?;
        identities.push(over_two(alloc, &[X, Y, X], Y)?)?;
        identities.push(over_two(alloc, &[Y, X, X], Y)?)?;
        Ok(Condition {
            arity: 3,
            identities,
        })
    }

    /// p(x,y,y) = x, p(x,y,x) = x and p(x,x,y) = y (A. F. Pixley, Distributivity and permutability of
    /// congruence relations in equational classes of algebras, 1963).
    pub fn pixley(alloc: Global) -> Result<Condition, AllocError>
        ensures { IfOk result (λ c. c ≡ conditions.pixley) }
    {
        let mut identities = Vec::new(alloc);
        identities.push(over_two(alloc, &[X, Y, Y], X)?)?;
        identities.push(over_two(alloc, &[X, Y, X], X)?)?;
        identities.push(over_two(alloc, &[X, X, Y], Y)?)?;
        Ok(Condition {
            arity: 3,
            identities,
        })
    }

    /// Near-unanimity of so many places: t(y,x,..,x) = x, t(x,y,..,x) = x and so on up to t(x,x,..,y) = x (K.
    /// A. Baker and A. F. Pixley, Polynomial interpolation and the Chinese remainder theorem for algebraic
    /// systems, 1975).
    pub fn nu(alloc: Global, k: u8) -> Result<Condition, AllocError>
        requires some { NEAR_UNANIMITY ≤ k }
        requires small { k ≤ PLACES }
        ensures { IfOk result (λ c. c ≡ conditions.near_unanimity k) }
    {
        let mut identities = Vec::new(alloc);
        for i in 0..k {
            identities.push(near_unanimous(alloc, k, i)?)?;
        }
        Ok(Condition {
            arity: k,
            identities,
        })
    }

    /// How many places the terms have.
    pub fn arity(&self) -> u8
        ensures arity { result ≡ self.now.arity }
        ensures condition { IsCondition self.now }
    {
        self.arity
    }

    /// The identities, in order.
    pub fn identities(&self) -> &[Identity]
        ensures identities { result.now ≡ self.now.identities }
        ensures condition { IsCondition self.now }
    {
        self.identities.as_slice()
    }
}
