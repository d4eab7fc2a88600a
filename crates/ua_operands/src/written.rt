//! What the operands of commands are, as they are written.

use ua_table::{Listed, Name};
use ua_text::Place;

/// A name, and the place where it stands.
#[derive(Drop, Debug)]
pub struct Word {
    pub name: Name,
    pub place: Place,
}

/// A number below 10^9, and the place where it stands.
#[derive(Clone, Copy, Debug, PartialEq, Eq)]
pub struct Number {
    pub value: u32,
    pub place: Place,
}

/// An entry of a vector as it is written: a number, or from version 2 on the name of an element.
#[derive(Drop, Debug)]
pub enum Entry {
    Number(Number),
    Word(Word),
}

/// A vector; the place is that of its first bracket.
#[derive(Drop, Debug)]
pub struct Items {
    pub values: Listed<Entry>,
    pub place: Place,
}

/// A partition as it is written; the place is that of its first bar.
#[derive(Drop, Debug)]
pub struct PartText {
    pub blocks: Listed<Listed<Number>>,
    pub place: Place,
}

/// Which answer is asked of a closure: its rows in vector order, its least listing, or its size alone.
#[derive(Clone, Copy, Debug, PartialEq, Eq)]
pub enum Mode {
    Plain,
    Least,
    Count,
}

/// The conditions on single terms.
#[derive(Clone, Copy, Debug, PartialEq, Eq)]
pub enum CondWord {
    Maltsev,
    Majority,
    Minority,
    Pixley,
}

/// A variable of an identity that is written out.
#[derive(Clone, Copy, Debug, PartialEq, Eq)]
pub enum Variable {
    X,
    Y,
    Z,
    W,
}

/// An identity as it is written: the variables at the places of a term, and the one that is its value. The place
/// is that of the parenthesis.
#[derive(Drop, Debug)]
pub struct IdentityText {
    pub args: Listed<Variable>,
    pub value: Variable,
    pub place: Place,
}

/// Which operations are asked for: those of terms, or those of polynomials, in which elements may stand too.
#[derive(Clone, Copy, Debug, PartialEq, Eq)]
pub enum CloneWord {
    Term,
    Polynomial,
}

/// Values of an operation: all of them, in lexicographic order of its arguments; or some, each behind its arguments, at
/// least one.
#[derive(Drop, Debug)]
pub enum PointsText {
    Total(Items),
    Partial(Items, Listed<Items>),
}

/// The series of congruences.
#[derive(Clone, Copy, Debug, PartialEq, Eq)]
pub enum SeriesWord {
    Derived,
    Lower,
}
