//! Closures in products of two algebras, of which no script asks for listings.

ghost use Rattle.std.specs.List.{AllByRecursion};
ghost use Rattle.ua_table.specs.Algebras.{IsVector};
ghost use Rattle.ua_listing.specs.Leasts.{IsClosedWithin};

use crate::asked::{Call, SEVERAL, expect};
use crate::texts::put_rows;
use std::alloc::Global;
use std::test::Fail;
use std::thread::Threads;
use ua_close::{Closure, FreeGate, Listing, Run, close_set, least};
use ua_table::{Frame, Vectors};

/// A closed listing, and the least one that is made from it.
fn put_both(
    alloc: Global,
    frame: &Frame,
    gens: &Vectors,
    list: &Listing,
    text: &mut String,
) -> Result<(), Fail>
    requires admitted { AllByRecursion (IsVector frame.now) gens.now.items }
    requires closed { IsClosedWithin frame.now gens.now.items list.now }
{
    text.push_str("closed")?;
    put_rows(text, list)?;
    let list = least(alloc, frame, gens, list)?;
    text.push_str(", least")?;
    put_rows(text, &list)?;
    Ok(())
}

/// The listing of the closure, and the least one.
pub(crate) fn put_listings<R: Threads + Sync>(
    rt: &R,
    alloc: Global,
    frame: &Frame,
    gens: &Vectors,
    run: &Run<FreeGate>,
    text: &mut String,
) -> Result<(), Fail>
    requires { AllByRecursion (IsVector frame.now) gens.now.items }
{
    match close_set(rt, alloc, frame, gens, run)? {
        Closure::Closed(list) => put_both(alloc, frame, gens, &list, text),
        Closure::Exceeds(_) => Err("the closure exceeds".into()),
    }
}

#[test]
fn product_of_two_groups(rt: HostRuntime) -> Result<(), Fail> {
    let alone =
        "sums 2, 11, 6 => closed, 00:5 03300, 01:3 02200, 02:1 04400, 10:2 02400, 11:0 g0, 12:4 03200, least, 00:4 01200, 01:2 02200, 02:1 04400, 10:3 02400, 11:0 g0, 12:5 01400";
    expect(&rt, rt.alloc(), &Call::Listings, &[1], alone)?;
    let several = "sums 2, 11, 6 => met 00 01 02 10 11 12";
    expect(&rt, rt.alloc(), &Call::Meeting, SEVERAL, several)
}
