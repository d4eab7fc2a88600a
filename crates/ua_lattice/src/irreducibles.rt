//! The places that have exactly one lower cover.

ghost use Rattle.std.specs.Prelude.{◌≡◌, ◌==◌, ◌<◌, ◌^◌, ℕ, map, IfOk};
ghost use Rattle.std.specs.List.{AllByRecursion, range_with_len};
ghost use Rattle.ua_lattice.specs.Lattices.{AreIrreducible, lower_covers};

use std::alloc::{AllocError, Global};

/// How many lower covers each place has.
fn count_lower(alloc: Global, covers: &[(u32, u32)], count: usize) -> Result<Vec<usize>, AllocError>
    requires { AllByRecursion (λ (pair : ℕ × ℕ). pair.1 < count) covers.now }
    ensures { IfOk result (λ counts. counts.items ≡ map (lower_covers covers.now) (range_with_len 0 count)) }
{
    let mut counts = vec![in alloc; 0; count]?;
    for k in 0..covers.len() {
        let (_, above) = covers[k];
        counts[above as usize] += 1;
    }
    Ok(counts)
}

/// The places, of so many, that have exactly one lower cover.
pub fn irreducibles_of(
    alloc: Global,
    covers: &[(u32, u32)],
    count: usize,
) -> Result<Vec<u32>, AllocError>
    requires within { AllByRecursion (λ (pair : ℕ × ℕ). pair.1 < count) covers.now }
    requires count { count < 2 ^ 32 }
    ensures { IfOk result (λ places. AreIrreducible covers.now places.items) }
{
    let counts = count_lower(alloc, covers, count)?;
    let mut places = Vec::new(alloc);
    for j in 0..count {
        if counts[j] == 1 {
            places.push(j as u32)?;
        }
    }
    Ok(places)
}
