//! What generates the pairs and the squares of a pair.

ghost use Rattle.std.specs.Prelude.{◌≡◌, IfOk};
ghost use Rattle.ua_type.specs.Subtraces.{pair_generators};
ghost use Rattle.ua_type.specs.Types.{square_generators};

use std::alloc::{AllocError, Global};
use ua_table::{Algebra, Elem, Vectors};

/// The constants of the square of an algebra, and a pair.
pub fn pair_generators(alloc: Global, b: &Algebra, x: Elem, y: Elem) -> Result<Vectors, AllocError>
    ensures { IfOk result (λ gens. gens.items ≡ pair_generators b.now x y) }
{
    let mut gens = Vectors::new(alloc, 2);
    for c in 0..b.size() {
        gens.add(&[c as Elem, c as Elem])?;
    }
    gens.add(&[x, y])?;
    Ok(gens)
}

/// The constants of the fourth power, and the squares whose columns or rows are a pair.
pub fn square_generators(
    alloc: Global,
    b: &Algebra,
    x: Elem,
    y: Elem,
) -> Result<Vectors, AllocError>
    ensures { IfOk result (λ gens. gens.items ≡ square_generators b.now x y) }
{
    let mut gens = Vectors::new(alloc, 4);
    for c in 0..b.size() {
        gens.add(&[c as Elem; 4])?;
    }
    gens.add(&[x, x, y, y])?;
    gens.add(&[x, y, x, y])?;
    Ok(gens)
}
