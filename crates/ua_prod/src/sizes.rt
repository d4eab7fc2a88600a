//! Whether an algebra would be within the limits.

ghost use Rattle.std.specs.Prelude.{◌≡◌, ◌≤◌};
ghost use Rattle.ua_table.specs.declared.limits.TheConstants.{SIZE};
ghost use Rattle.ua_table.specs.Numbering.{IsShape};
ghost use Rattle.ua_prod.specs.Sizes.{values_needed, is_too_large};

use ua_table::limits::{SIZE, VALUES};

/// How many values operations of these arities have together on so many elements.
fn values_needed(size: u32, arities: &[u8]) -> u64
    requires small { size ≤ SIZE }
    requires shape { IsShape arities.now }
    ensures { result ≡ values_needed size arities.now }
{
    let mut needed = 0;
    for arity in arities {
        needed += u64::from(size).pow(u32::from(*arity));
    }
    needed
}

/// Whether an algebra with so many elements and operations of these arities is beyond the limits.
pub fn is_too_large(size: u32, arities: &[u8]) -> bool
    requires { IsShape arities.now }
    ensures { result ≡ is_too_large size arities.now }
{
    size > SIZE || values_needed(size, arities) > VALUES as u64
}
