//! Points of an operation: total and partial tables.

ghost use Rattle.std.specs.Prelude.{◌≡◌, ◌<◌, ◌^◌, ◌↔◌, length, IsTrue, IfOk};
ghost use Rattle.std.specs.List.{AllByRecursion};
ghost use Rattle.ua_table.specs.Algebras.{Vector, column};

use std::alloc::{AllocError, Global};
use ua_table::{Algebra, Elem, Vectors};
use ua_term::append_values;

/// A table that an operation in some variables is to agree with.
#[derive(Drop, Debug)]
pub enum Points {
    /// The value at each assignment of elements to the variables, in lexicographic order: the last variable
    /// varies fastest.
    Total(Vec<Elem>),
    /// At least one point, each with an argument for each variable and then the value. Where arguments stand
    /// twice, both values are wanted there.
    Partial(Vectors),
}

/// Whether there are as many values as assignments of so many elements to so many variables.
pub fn is_count(values: usize, size: u32, variables: u32) -> bool
    ensures { IsTrue result ↔ (values ≡ size ^ variables) }
{
    match u64::from(size).checked_pow(variables) {
        Some(count) => values as u64 == count,
        None => false,
    }
}

/// Whether each of the numbers is below so many.
fn are_below(xs: &[Elem], size: u32) -> bool
    ensures { IsTrue result ↔ AllByRecursion (λ x. x < size) xs.now }
{
    xs.iter().all(|x| u32::from(*x) < size)
}

/// Whether each entry of the vectors is below so many.
fn are_elements(vectors: &Vectors, size: u32) -> bool
    ensures { IsTrue result ↔ AllByRecursion (λ (v : Vector). AllByRecursion (λ x. x < size) v) vectors.now.items }
{
    for i in 0..vectors.len() {
        if !are_below(vectors.get(i), size) {
            return false;
        }
    }
    true
}

/// The entries of these vectors at one place.
fn column(alloc: Global, vectors: &Vectors, place: u32) -> Result<Vec<Elem>, AllocError>
    requires { AllByRecursion (λ (v : Vector). place < length v) vectors.now.items }
    ensures { IfOk result (λ row. row.items ≡ column vectors.now.items place) }
{
    let mut row = Vec::with_capacity(alloc, vectors.len() as usize)?;
    for i in 0..vectors.len() {
        row.push(vectors.get(i)[place as usize])?;
    }
    Ok(row)
}

impl Points {
    ghost use Rattle.std.specs.Prelude.{◌≡◌, ◌↔◌, ℕ, ◌<◌, ◌≤◌, length, IsTrue, IfOk};
    ghost use Rattle.ua_table.specs.declared.limits.TheConstants.{WIDTH};
    ghost use Rattle.ua_clone.specs.Points.{points_of, ArePoints};
    ghost use Rattle.ua_clone.specs.Frames.{variable_vector, wanted_values};

    /// Whether this is a table in k variables over the algebra: all entries are elements, a total one has a value
    /// for each assignment, and a partial one a point, each with k arguments.
    pub fn fit(&self, a: &Algebra, k: u8) -> bool
        ensures { IsTrue result ↔ ArePoints a.now.size k self.now }
    {
        match self {
            Points::Total(values) => {
                is_count(values.len(), a.size(), u32::from(k))
                    && are_below(values.as_slice(), a.size())
            }
            Points::Partial(vectors) => {
                if vectors.is_empty() {
                    return false;
                }
                vectors.width() == u32::from(k) + 1 && are_elements(vectors, a.size())
            }
        }
    }

    /// How many points there are.
    pub(crate) fn len(&self) -> usize
        ensures { (n k : ℕ) → ArePoints n k self.now → result ≡ length (points_of n k self.now) }
    {
        match self {
            Points::Total(values) => values.len(),
            Points::Partial(vectors) => vectors.len() as usize,
        }
    }

    /// What the points give to variable i of k.
    pub(crate) fn variable_row(
        &self,
        alloc: Global,
        a: &Algebra,
        k: u8,
        i: u8,
    ) -> Result<Vec<Elem>, AllocError>
        requires variable { i < k }
        requires points { ArePoints a.now.size k self.now }
        requires narrow { length (points_of a.now.size k self.now) ≤ WIDTH }
        ensures { IfOk result (λ row. row.items ≡ variable_vector (points_of a.now.size k self.now) i) }
    {
        match self {
            Points::Total(values) => {
                let mut row = Vec::with_capacity(alloc, values.len())?;
                append_values(&mut row, a.size(), k, i)?;
                Ok(row)
            }
            Points::Partial(vectors) => column(alloc, vectors, u32::from(i)),
        }
    }

    /// The values that are wanted at the points in k variables.
    pub(crate) fn value_row(&self, alloc: Global, k: u8) -> Result<Vec<Elem>, AllocError>
        requires { (n : ℕ) × ArePoints n k self.now }
        ensures { (n : ℕ) → ArePoints n k self.now → IfOk result (λ row. row.items ≡ wanted_values (points_of n k self.now)) }
    {
        match self {
            Points::Total(values) => Vec::from_slice(alloc, values.as_slice()),
            Points::Partial(vectors) => column(alloc, vectors, u32::from(k)),
        }
    }
}
