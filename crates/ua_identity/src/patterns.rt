//! Patterns of variables.

ghost use Rattle.std.specs.Prelude.{◌≡◌, ◌<◌, List, map, length, slice_index};
ghost use Rattle.std.proofs.Common.{sym};
ghost use Rattle.std.proofs.lemmas.List.{map-id};
ghost use Rattle.ua_identity.specs.Identities.{VariablePattern};
ghost use Rattle.ua_identity.specs.Conditions.{IsPattern};

use std::marker::Model;

/// A pattern, or what has one.
pub trait Patterned {
    /// Its pattern.
    ghost pattern_of: { Self → VariablePattern };

    /// The patterns of some, in order.
    ghost patterns_of: { List Self → List VariablePattern };

    /// The pattern.
    fn pattern(&self) -> &Pattern
        ensures { result.now ≡ pattern_of self.now };

    /// Each has its own.
    ghost each: { (xs : List Self) → patterns_of xs ≡ map pattern_of xs };
}

/// Which of so many variables, at most `limits::LETTERS`, stands at each place of a term.
#[derive(Drop, Debug)]
pub struct Pattern {
    variables: u8,
    places: Vec<u8>,
}

impl Model for Pattern {
    ghost use Rattle.ua_identity.specs.Identities.{VariablePattern};
    ghost use Rattle.ua_identity.specs.Conditions.{IsPattern};

    ghost Value = { VariablePattern };

    ghost view = { λ a. record { variables = a.variables; places = a.places.items } };

    ghost invariant = { λ a. IsPattern (record { variables = a.variables; places = a.places.items }) };
}

impl Patterned for Pattern {
    ghost pattern_of = { λ p. p };

    ghost patterns_of = { λ ps. ps };

    ghost each = { λ ps. sym (map-id ps) };

    fn pattern(&self) -> &Pattern {
        self
    }
}

impl Pattern {
    /// The pattern of so many variables with these at the places. It takes no memory.
    pub fn new(variables: u8, places: Vec<u8>) -> Pattern
        requires { IsPattern (record { variables = variables; places = places.items }) }
        ensures { result ≡ record { variables = variables; places = places.items } }
    {
        Pattern { variables, places }
    }

    /// How many variables there are.
    pub fn variables(&self) -> u8
        ensures variables { result ≡ self.now.variables }
        ensures pattern { IsPattern self.now }
    {
        self.variables
    }

    /// The variable at each place.
    pub fn places(&self) -> &[u8]
        ensures places { result.now ≡ self.now.places }
        ensures pattern { IsPattern self.now }
    {
        self.places.as_slice()
    }

    /// The variable at a place.
    pub fn variable(&self, place: u8) -> u8
        requires { place < length self.now.places }
        ensures variable { result ≡ slice_index self.now.places place }
        ensures named { result < self.now.variables }
    {
        self.places[usize::from(place)]
    }
}
