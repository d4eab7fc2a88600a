//! Positions of rows that are said to be reached.

use ua_rows::Rows;

/// The positions, for each row whether it is one of them, and the different entries of these rows by which
/// they lead to others.
#[derive(Clone, Copy)]
pub(crate) struct Positions<'a> {
    pub(crate) list: &'a [u32],
    pub(crate) marks: &'a [bool],
    pub(crate) entries: &'a Rows,
}
