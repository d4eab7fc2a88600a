//! What no script can ask of subalgebras and drawn algebras.

ghost use Rattle.std.specs.Prelude.{◌<◌};
ghost use Rattle.std.specs.List.{AllByRecursion};
ghost use Rattle.std.specs.List.Sorted.{IsStrictlyIncreasing};

use std::alloc::Global;
use std::test::Fail;
use ua_prod::{Lcg, ProdError, random, subalgebra};
use ua_table::{Algebra, Elem, Name, OpTable};

/// The sum modulo 4, with 2 as a constant.
fn sums(alloc: Global) -> Result<Algebra, Fail> {
    let values = [0, 1, 2, 3, 1, 2, 3, 0, 2, 3, 0, 1, 3, 0, 1, 2].to_vec(alloc)?;
    let mut ops = Vec::new(alloc);
    ops.push(OpTable::new(Name::new(alloc, b"plus")?, 4, 2, values)?)?;
    ops.push(OpTable::new(Name::new(alloc, b"two")?, 4, 0, [2].to_vec(alloc)?)?)?;
    Ok(Algebra::new(Name::new(alloc, b"Z4")?, 4, ops)?)
}

/// Why a set of numbers below 4 has no subalgebra, if that is so: the operation that leaves it and the first two of its
/// arguments, or nothing where there is no element.
fn escape(alloc: Global, algebra: &Algebra, set: &[Elem]) -> Result<Option<(u32, Elem, Elem)>, Fail>
    requires increasing { IsStrictlyIncreasing set.now }
    requires range { AllByRecursion (λ x. x < 4) set.now }
{
    if algebra.size() < 4 {
        return Err("too few elements".into());
    }
    match subalgebra(alloc, Name::new(alloc, b"S")?, algebra, set) {
        Err(ProdError::NotClosed { op, args }) => Ok(Some((op, args[0], args[1]))),
        Err(ProdError::Size) => Ok(None),
        _ => Err("closed".into()),
    }
}

fn escapes(alloc: Global) -> Result<[Option<(u32, Elem, Elem)>; 3], Fail> {
    let sums = sums(alloc)?;
    let pair = escape(alloc, &sums, &[0, 1])?;
    let zero = escape(alloc, &sums, &[0])?;
    Ok([pair, zero, escape(alloc, &sums, &[])?])
}

/// A script can ask for generated subalgebras alone, which are closed.
#[test]
fn sets_that_are_not_closed(rt: HostRuntime) -> Result<(), Fail> {
    let found = escapes(rt.alloc())?;
    assert!(rt; found == [Some((0, 1, 1)), Some((1, 0, 0)), None]);
    Ok(())
}

/// Whether an operation of four arguments on 255 elements is too large to be drawn.
fn is_too_large(alloc: Global) -> Result<bool, Fail> {
    let name = Name::new(alloc, b"G")?;
    let made = random(alloc, &mut Lcg::new(0), name, 255, &[4]);
    Ok(matches!(made, Err(ProdError::Size)))
}

/// What is drawn within the limits is tested by the script that is generated.
#[test]
fn draws(rt: HostRuntime) -> Result<(), Fail> {
    let large = is_too_large(rt.alloc())?;
    assert!(rt; large);
    Ok(())
}
