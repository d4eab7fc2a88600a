//! The names of the elements of a block, found by their texts.

use std::alloc::{AllocError, Global};
use std::collections::BTreeMap;
use std::marker::Model;
use ua_table::Name;

/// Names, and the place of the first that is a text. A look-up takes time logarithmic in their number.
///
/// To a contract it is the list of names.
#[derive(Drop)]
pub struct Labels<'a> {
    names: &'a [Name],
    places: BTreeMap<&'a [u8], usize>,
}

impl<'a> Model for Labels<'a> {
    ghost use Rattle.std.specs.Prelude.{ℕ, List};
    ghost use Rattle.ua_text.specs.Labels.{IsIndex};

    ghost Value = { List (List ℕ) };

    ghost view = { λ a. a.names.now };

    ghost invariant = { λ a. IsIndex a.places a.names.now };
}

impl<'a> Labels<'a> {
    ghost use Rattle.std.specs.Prelude.{◌≡◌, IfOk};
    ghost use Rattle.ua_text.specs.Labels.{place_in};

    /// The places of these names, the first where names are equal.
    pub fn new(alloc: Global, names: &'a [Name]) -> Result<Labels<'a>, AllocError>
        ensures { IfOk result (λ labels. labels ≡ names.now) }
    {
        let mut places = BTreeMap::new(alloc);
        for place in (0..names.len()).rev() {
            places.insert(names[place].text(), place)?;
        }
        Ok(Labels { names, places })
    }

    /// The place of the first name that the text is.
    pub fn place_of(&self, text: &[u8]) -> Option<usize>
        ensures { result ≡ place_in 0 self.now text.now }
    {
        self.places.get(text).copied()
    }
}
