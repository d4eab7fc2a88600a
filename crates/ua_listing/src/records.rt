//! The records of a closure in the order of their discovery.

ghost use Rattle.std.specs.Prelude.{◌≡◌, ◌<◌, length, slice_get, nat_eq, Some};
ghost use Rattle.std.specs.List.{IsDistinct, zip};
ghost use Rattle.std.specs.Cmp.Lexicographic.{pointwise};
ghost use Rattle.ua_table.specs.Algebras.{Vector};
ghost use Rattle.ua_table.specs.Orders.{rows_of};

use std::marker::Model;
use ua_rows::Rows;
use ua_table::{Elem, Origin};

/// Different vectors by rank, each with its origin, and a look-up by vector.
#[derive(Drop, Debug)]
pub(crate) struct Records {
    rows: Rows,
    origins: Vec<Origin>,
}

impl Model for Records {
    ghost use Rattle.std.specs.Prelude.{◌≡◌, List, length};
    ghost use Rattle.std.specs.List.{zip};
    ghost use Rattle.ua_table.specs.Orders.{Record};

    ghost Value = { List Record };

    ghost view = { λ a. zip a.rows.items a.origins.items };

    ghost invariant = { λ a. length a.origins.items ≡ length a.rows.items };
}

impl Records {
    /// Rows with an origin for each.
    pub(crate) fn new(rows: Rows, origins: Vec<Origin>) -> Records
        requires { length origins.items ≡ length rows.items }
        ensures { result ≡ zip rows.items origins.items }
    {
        Records { rows, origins }
    }

    pub(crate) fn len(&self) -> u32
        ensures len { result ≡ length self.now }
        ensures different { IsDistinct (pointwise nat_eq) (rows_of self.now) }
    {
        self.rows.len()
    }

    /// The vector of rank i.
    pub(crate) fn row(&self, i: u32) -> &[Elem]
        requires { i < length self.now }
        ensures { slice_get (rows_of self.now) i ≡ Some result.now }
    {
        self.rows.row(i)
    }

    /// The origin of the vector of rank i.
    pub(crate) fn origin(&self, i: u32) -> Origin
        requires { i < length self.now }
        ensures { (v : Vector) × (slice_get self.now i ≡ Some (v, result)) }
    {
        self.origins[i as usize]
    }

    /// The vectors alone.
    pub(crate) fn into_rows(self) -> Rows
        ensures { result.items ≡ rows_of self }
    {
        self.rows
    }
}
