//! Vectors entered with the hash that a scratch keeps.

ghost use Rattle.std.specs.Prelude.{◌≡◌, ◌<◌, length};

use std::alloc::Global;
use std::test::Fail;
use ua_rows::{Rows, Scratch};
use ua_table::Elem;

/// Enters a vector by a scratch. Where the scratch is found then, where the vector is, and where a scratch is found
/// that is another vector.
fn enter(
    rows: &mut Rows,
    scratch: &mut Scratch,
    v: &[Elem],
    other: &[Elem],
) -> Result<[Option<u32>; 3], Fail>
    requires scratch { length scratch.old ≡ rows.old.width }
    requires width { length v.now ≡ rows.old.width }
    requires other { length other.now ≡ rows.old.width }
    requires few { length rows.old.items < 100 }
{
    scratch.copy_from(v);
    if rows.find_scratch(scratch).is_some() {
        return Err("it is there".into());
    }
    rows.reserve()?;
    rows.push_scratch(scratch);
    let found = rows.find_scratch(scratch);
    scratch.copy_from(other);
    Ok([found, rows.find(v), rows.find_scratch(scratch)])
}

/// Enters a vector of width 10 into an empty list.
fn found(alloc: Global, v: &[Elem], other: &[Elem]) -> Result<[Option<u32>; 3], Fail>
    requires width { length v.now ≡ 10 }
    requires other { length other.now ≡ 10 }
{
    let mut rows = Rows::new(alloc, 10);
    let mut scratch = Scratch::new(alloc, 10)?;
    enter(&mut rows, &mut scratch, v, other)
}

#[test]
fn a_scratch_is_entered_and_found(rt: HostRuntime) -> Result<(), Fail> {
    let v = [9, 8, 7, 6, 5, 4, 3, 2, 1, 0];
    let other = [9, 8, 7, 6, 5, 4, 3, 2, 1, 1];
    let found = found(rt.alloc(), &v, &other)?;
    assert!(rt; found == [Some(0), Some(0), None]);
    Ok(())
}
