//! Identities of one term and variables.

ghost use Rattle.std.specs.Prelude.{◌≡◌, ◌<◌, ◌↔◌, map, refl, IsSome, IfSome, IsTrue};
ghost use Rattle.std.specs.List.{AllByRecursion};
ghost use Rattle.ua_identity.specs.Identities.{TermIdentity};
ghost use Rattle.ua_identity.specs.Conditions.{IsIdentity};

use crate::limits::LETTERS;
use crate::patterns::{Pattern, Patterned};
use std::marker::Model;

/// An identity: a term with its places filled by the pattern is this variable of the pattern.
#[derive(Drop, Debug)]
pub struct Identity {
    pattern: Pattern,
    value: u8,
}

impl Model for Identity {
    ghost use Rattle.ua_identity.specs.Identities.{TermIdentity};
    ghost use Rattle.ua_identity.specs.Conditions.{IsIdentity};

    ghost Value = { TermIdentity };

    ghost view = { λ a. record { pattern = a.pattern; value = a.value } };

    ghost invariant = { λ a. IsIdentity (record { pattern = a.pattern; value = a.value }) };
}

impl Patterned for Identity {
    ghost pattern_of = { λ (i : TermIdentity). i.pattern };

    ghost patterns_of = { map (λ (i : TermIdentity). i.pattern) };

    ghost each = { λ is. refl };

    fn pattern(&self) -> &Pattern {
        &self.pattern
    }
}

/// Whether each of the variables is below so many.
fn are_named(places: &[u8], variables: u8) -> bool
    ensures { IsTrue result ↔ AllByRecursion (λ v. v < variables) places.now }
{
    places.iter().all(|v| *v < variables)
}

impl Identity {
    /// The identity over so many variables that a term with these at its places is this one, or None where
    /// there are more variables than `limits::LETTERS` or another variable occurs. It takes no memory.
    pub fn new(variables: u8, places: Vec<u8>, value: u8) -> Option<Identity>
        ensures identity { IfSome result (λ i. i ≡ record { pattern = record { variables = variables; places = places.items }; value = value }) }
        ensures made { IsSome result ↔ IsIdentity (record { pattern = record { variables = variables; places = places.items }; value = value }) }
    {
        if variables > LETTERS || value >= variables || !are_named(places.as_slice(), variables) {
            return None;
        }
        let pattern = Pattern::new(variables, places);
        Some(Identity { pattern, value })
    }

    /// The variables, and which of them stands at each place.
    pub fn pattern(&self) -> &Pattern
        ensures pattern { result.now ≡ self.now.pattern }
        ensures identity { IsIdentity self.now }
    {
        &self.pattern
    }

    /// The variable that the term is.
    pub fn value(&self) -> u8
        ensures value { result ≡ self.now.value }
        ensures identity { IsIdentity self.now }
    {
        self.value
    }
}
