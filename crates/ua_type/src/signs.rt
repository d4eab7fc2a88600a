//! The type that is read from signs.

ghost use Rattle.std.specs.Prelude.{◌≡◌};
ghost use Rattle.ua_type.specs.Types.{type_number};

/// What tells the type of a subtrace (a,b): whether (b,a) is one of its pairs, and whether (a,a,a,b), (a,b,b,b)
/// and some (a,b,b,x) are among its squares.
#[derive(Clone, Copy, Debug, PartialEq, Eq)]
pub struct Signs {
    pub swap: bool,
    pub meet: bool,
    pub join: bool,
    pub affine: bool,
}

/// The number of the type: 1 unary, 2 affine, 3 Boolean, 4 lattice, 5 semilattice.
pub fn type_number(signs: Signs) -> u8
    ensures { result ≡ type_number signs.swap signs.meet signs.join signs.affine }
{
    match (signs.swap, signs.meet, signs.join, signs.affine) {
        (true, true, _, _) | (true, _, true, _) => 3,
        (false, true, true, _) => 4,
        (false, true, false, _) | (false, false, true, _) => 5,
        (_, false, false, true) => 2,
        (_, false, false, false) => 1,
    }
}
