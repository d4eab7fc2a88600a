//! The two clones of an algebra.

ghost use Rattle.std.specs.Prelude.{◌≡◌, ◌≤◌};
ghost use Rattle.ua_table.specs.declared.limits.TheConstants.{SIZE};
ghost use Rattle.ua_clone.specs.Polynomials.{named_elements};

use ua_table::Algebra;

/// Which operations are asked for (S. Burris and H. P. Sankappanavar, A Course in Universal Algebra, chapter
/// II, on terms and polynomials).
#[derive(Clone, Copy, Debug, PartialEq, Eq)]
pub enum CloneKind {
    /// Those of terms.
    TermOps,
    /// Those of polynomials: terms in which elements may stand.
    Polynomials,
}

impl CloneKind {
    /// How many elements of the algebra may stand in a polynomial of this kind.
    pub(crate) fn elements(self, a: &Algebra) -> u32
        ensures elements { result ≡ named_elements self a.now.size }
        ensures small { result ≤ SIZE }
    {
        // What this call ensures says that the algebra is small.
        let size = a.size();
        match self {
            CloneKind::TermOps => 0,
            CloneKind::Polynomials => size,
        }
    }
}
