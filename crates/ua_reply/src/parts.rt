//! Partitions as they are written, and where they fail.

ghost use Rattle.std.specs.Prelude.{◌≡◌, length, IfOk};
ghost use Rattle.ua_part.specs.Blocks.{HasBlocks, members_of};
ghost use Rattle.ua_reply.specs.Checks.{AreFirst, Passes, all_in};
ghost use Rattle.ua_reply.specs.Parts.{blocks_of, are_blocks, member_in, block_in, part_in};
ghost use Rattle.ua_reply.specs.Parts as parts;

use crate::checks::FirstErrors;
use crate::known::Known;
use std::alloc::{AllocError, Global};
use ua_part::{Part, PartError};
use ua_script::{Number, PartText};
use ua_table::Listed;

/// Whether a number is below the size.
fn member_in(known: &Known, n: &Number) -> FirstErrors
    ensures { AreFirst (member_in known.now n.now) result }
{
    let mut errors = FirstErrors::none();
    if n.value >= known.algebra().size() {
        errors.range = Some(n.place);
    }
    errors
}

/// Whether each number of a block is below the size.
fn block_in(known: &Known, block: &[Number]) -> FirstErrors
    ensures { AreFirst (block_in known.now block.now) result }
{
    let mut errors = FirstErrors::none();
    for n in block {
        errors = errors.and(member_in(known, n));
    }
    errors
}

/// Whether each number of each block is below the size.
fn blocks_in(known: &Known, blocks: &[Listed<Number>]) -> FirstErrors
    ensures { AreFirst (all_in (block_in known.now) blocks.now) result }
{
    let mut errors = FirstErrors::none();
    for block in blocks {
        errors = errors.and(block_in(known, block.as_slice()));
    }
    errors
}

/// The numbers of a block.
fn members(alloc: Global, block: &[Number]) -> Result<Vec<u32>, AllocError>
    ensures { IfOk result (λ v. v.items ≡ parts.members_of block.now) }
{
    let mut members = Vec::with_capacity(alloc, block.len())?;
    for n in block {
        members.push(n.value)?;
    }
    Ok(members)
}

/// The numbers, block by block.
fn blocks(alloc: Global, p: &PartText) -> Result<Vec<Vec<u32>>, AllocError>
    ensures { IfOk result (λ v. members_of v.items ≡ blocks_of p.now) }
{
    let written = p.blocks.as_slice();
    let mut blocks = Vec::with_capacity(alloc, written.len())?;
    for block in written {
        blocks.push(members(alloc, block.as_slice())?)?;
    }
    Ok(blocks)
}

/// Whether these are the blocks of a partition of so many elements.
fn is_partition(alloc: Global, size: u32, p: &PartText) -> Result<bool, AllocError>
    ensures { IfOk result (λ is. is ≡ are_blocks size (blocks_of p.now)) }
{
    let blocks = blocks(alloc, p)?;
    match Part::from_blocks(alloc, size, &blocks) {
        Ok(_) => Ok(true),
        Err(PartError::Range(_)) => Ok(false),
        Err(PartError::NotAPartition) => Ok(false),
        Err(PartError::OutOfMemory) => Err(AllocError),
    }
}

/// Whether these are the blocks of a partition of the elements.
pub fn part_in(alloc: Global, known: &Known, p: &PartText) -> Result<FirstErrors, AllocError>
    ensures { IfOk result (AreFirst (part_in known.now p.now)) }
{
    let mut shape = FirstErrors::none();
    if !is_partition(alloc, known.algebra().size(), p)? {
        shape.shape = Some(p.place);
    }
    Ok(blocks_in(known, p.blocks.as_slice()).and(shape))
}

/// The partition that is written.
pub fn part(alloc: Global, known: &Known, p: &PartText) -> Result<Part, AllocError>
    requires { Passes (part_in known.now p.now) }
    ensures blocks { IfOk result (HasBlocks (blocks_of p.now)) }
    ensures size { IfOk result (λ part. length part ≡ known.now.algebra.size) }
{
    let blocks = blocks(alloc, p)?;
    match Part::from_blocks(alloc, known.algebra().size(), &blocks) {
        Ok(part) => Ok(part),
        Err(PartError::Range(_)) => unreachable!(),
        Err(PartError::NotAPartition) => unreachable!(),
        Err(PartError::OutOfMemory) => Err(AllocError),
    }
}
