//! Partitions by labels and by blocks, their lattice, and disjoint sets.

ghost use Rattle.std.specs.Prelude.{◌≡◌, length, IfOk};

use std::alloc::Global;
use std::test::Fail;
use ua_cases::{Asked, expect, put_bytes, put_flag, put_value_of};
use ua_part::{DisjointSets, Part};
use ua_table::Elem;

/// What is asked of partitions of three elements by their names, or of blocks.
enum Call {
    Printed,
    IsBelow,
    Fault,
}

impl Asked for Call {
    fn put_answer(&self, alloc: Global, text: &str, answer: &mut String) -> Result<(), Fail> {
        match self {
            Call::Printed => put_printed(alloc, text, answer),
            Call::IsBelow => put_is_below(alloc, text, answer),
            Call::Fault => put_fault(alloc, text, answer),
        }
    }
}

/// The elements of a block, which stand between blanks.
fn block(alloc: Global, text: &str) -> Result<Vec<u32>, Fail> {
    let mut members = Vec::new(alloc);
    for word in text.split_whitespace() {
        members.push(word.parse()?)?;
    }
    Ok(members)
}

/// The blocks of a text, which stand between commas.
fn blocks(alloc: Global, text: &str) -> Result<Vec<Vec<u32>>, Fail> {
    let mut list = Vec::new(alloc);
    for members in text.split(',') {
        list.push(block(alloc, members)?)?;
    }
    Ok(list)
}

fn labelled(alloc: Global) -> Result<Part, Fail>
    ensures { IfOk result (λ part. length part ≡ 3) }
{
    Ok(Part::from_labels(alloc, &[5, 5, 3])?)
}

fn blocked(alloc: Global) -> Result<Part, Fail>
    ensures { IfOk result (λ part. length part ≡ 3) }
{
    let list = blocks(alloc, "2 1, 0")?;
    Ok(Part::from_blocks(alloc, 3, list.as_slice())?)
}

/// A partition by its name.
fn named(alloc: Global, name: &str) -> Result<Part, Fail>
    ensures { IfOk result (λ part. length part ≡ 3) }
{
    match name {
        "labelled" => labelled(alloc),
        "copy" => Ok(labelled(alloc)?.copy(alloc)?),
        "blocked" => blocked(alloc),
        "identity" => Ok(Part::identity(alloc, 3)?),
        _ => Ok(Part::full(alloc, 3)?),
    }
}

fn text(alloc: Global, name: &str) -> Result<Vec<u8>, Fail> {
    let part = match name {
        "meet" => labelled(alloc)?.meet(alloc, &blocked(alloc)?)?,
        "join" => labelled(alloc)?.join(alloc, &blocked(alloc)?)?,
        _ => named(alloc, name)?,
    };
    Ok(part.print(alloc)?)
}

fn put_printed(alloc: Global, name: &str, answer: &mut String) -> Result<(), Fail> {
    let bytes = text(alloc, name)?;
    put_bytes(answer, bytes.as_slice())
}

/// Whether the first of two partitions is below the second.
fn put_is_below(alloc: Global, names: &str, answer: &mut String) -> Result<(), Fail> {
    let (low, high) = names.split_once(' ').ok_or("one name")?;
    put_flag(answer, named(alloc, low)?.le(&named(alloc, high)?))
}

/// Why these are not the blocks of a partition of three elements.
fn put_fault(alloc: Global, text: &str, answer: &mut String) -> Result<(), Fail> {
    let list = blocks(alloc, text)?;
    let fault = Part::from_blocks(alloc, 3, list.as_slice()).err();
    put_value_of(answer, &fault)
}

#[test]
fn lattice(rt: HostRuntime) -> Result<(), Fail> {
    let cases = "
        labelled => |0 1|2|
        copy => |0 1|2|
        blocked => |0|1 2|
        identity => |0|1|2|
        meet => |0|1|2|
        full => |0 1 2|
        join => |0 1 2|";
    expect(rt.alloc(), &Call::Printed, cases)
}

#[test]
fn order(rt: HostRuntime) -> Result<(), Fail> {
    let cases = "
        identity labelled => true
        labelled full => true
        labelled blocked => false";
    expect(rt.alloc(), &Call::IsBelow, cases)
}

#[test]
fn refusals(rt: HostRuntime) -> Result<(), Fail> {
    let cases = "
        0, 1 => Some(NotAPartition)
        0 3, 1 2 => Some(Range(3))
        0 1 2, => Some(NotAPartition)
        0 1, 2 1 => Some(NotAPartition)
        0 1, 1 5 => Some(Range(5))
        0 2, 1 => None";
    expect(rt.alloc(), &Call::Fault, cases)
}

#[test]
fn places(rt: HostRuntime) -> Result<(), Fail> {
    let part = labelled(rt.alloc())?;
    let counts = (part.size(), part.blocks(), part.rep(1));
    let same = (part.same(0, 1), part.same(1, 2));
    assert_eq!(rt; (counts, same), ((3, 2, 0), (true, false)));
    Ok(())
}

/// Unites sets of six elements: whether they were apart, and the least that is found with 5.
fn unite(sets: &mut DisjointSets) -> ([bool; 4], u32)
    requires { length sets.old ≡ 6 }
{
    let first = [sets.unite(4, 2), sets.unite(5, 4), sets.unite(2, 5)];
    let least = sets.find(5);
    let [one, two, again] = first;
    ([one, two, again, sets.unite(1, 5)], least)
}

/// What is answered as sets of six elements are united, and the blocks that they end as.
fn united(alloc: Global) -> Result<(([bool; 4], u32), Vec<u8>), Fail> {
    let mut sets = DisjointSets::new(alloc, 6)?;
    if sets.size() != 6 {
        return Err("another size".into());
    }
    let told = unite(&mut sets);
    Ok((told, sets.into_part().print(alloc)?))
}

#[test]
fn sets(rt: HostRuntime) -> Result<(), Fail> {
    let (told, blocks) = united(rt.alloc())?;
    assert!(rt; told == ([true, true, false, true], 2));
    assert!(rt; blocks.as_slice() == b"|0|1 2 4 5|3|".as_slice());
    Ok(())
}

/// The row of a partition by labels, and whether the partition of the row is the same.
fn row(alloc: Global) -> Result<([Elem; 4], bool), Fail> {
    let part = Part::from_labels(alloc, &[7, 7, 1, 7])?;
    let mut row = [9; 4];
    part.write_row(&mut row);
    let again = Part::from_row(alloc, &row)?;
    Ok((row, again.leaders() == part.leaders()))
}

/// The row of sets of four elements that a row is assigned to and two of which are united.
fn assigned(alloc: Global) -> Result<[Elem; 4], Fail> {
    let mut sets = DisjointSets::new(alloc, 4)?;
    sets.assign(&[0, 0, 2, 0]);
    sets.unite(2, 3);
    let mut row = [9; 4];
    sets.write_row(&mut row);
    Ok(row)
}

/// The blocks of sets that are united as a row tells.
fn united_by_row(alloc: Global) -> Result<Vec<u8>, Fail> {
    let mut sets = DisjointSets::new(alloc, 4)?;
    sets.unite_row(&[0, 0, 2, 0]);
    Ok(sets.into_part().print(alloc)?)
}

#[test]
fn rows(rt: HostRuntime) -> Result<(), Fail> {
    let (row, same) = row(rt.alloc())?;
    let joined = assigned(rt.alloc())?;
    assert!(rt; same && row == [0, 0, 2, 0] && joined == [0; 4]);
    let blocks = united_by_row(rt.alloc())?;
    assert!(rt; blocks.as_slice() == b"|0 1 3|2|".as_slice());
    Ok(())
}
