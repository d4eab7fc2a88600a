//! Maps that are homomorphisms or not.

use crate::given::{algebra, are_below, elements, part};
use std::alloc::Global;
use std::test::Fail;
use ua_cases::{Asked, expect, put_word};
use ua_sub::{HomFlaw, is_hom};
use ua_table::{Algebra, Elem};

/// What is asked is whether a map is a homomorphism.
struct Map;

impl Asked for Map {
    fn put_answer(&self, alloc: Global, text: &str, answer: &mut String) -> Result<(), Fail> {
        put_flaw_of(alloc, text, answer)
    }
}

/// The first flaw, where the map is no homomorphism.
fn first_flaw(a: &Algebra, b: &Algebra, images: &[Elem]) -> Result<Option<HomFlaw>, Fail> {
    if !b.same_signature(a) || images.len() != a.size() as usize || !are_below(images, b.size()) {
        return Err("no map".into());
    }
    Ok(is_hom(a, b, images).err())
}

/// The operation and the first two of its arguments.
fn put_flaw(answer: &mut String, flaw: HomFlaw) -> Result<(), Fail> {
    let HomFlaw {
        op,
        args: [x, y, ..],
    } = flaw;
    write!(answer, "{op} {x} {y}")?;
    Ok(())
}

/// The first flaw of a text as `2: not 1 10; 2: not 1 10; 01`: two algebras, and the image of each element of the first.
fn put_flaw_of(alloc: Global, text: &str, answer: &mut String) -> Result<(), Fail> {
    let a = algebra(alloc, part(text, 0))?;
    let b = algebra(alloc, part(text, 1))?;
    let images = elements(alloc, part(text, 2))?;
    match first_flaw(&a, &b, images.as_slice())? {
        Some(flaw) => put_flaw(answer, flaw),
        None => put_word(answer, "none"),
    }
}

#[test]
fn homomorphisms(rt: HostRuntime) -> Result<(), Fail> {
    let cases = "
        4: plus 2 0123123023013012; 2: plus 2 0110; 0101 => none
        4: plus 2 0123123023013012; 2: plus 2 0110; 0000 => none
        4: plus 2 0123123023013012; 2: plus 2 0110; 0111 => 0 1 1
        4: plus 2 0123123023013012; 2: plus 2 0110; 1111 => 0 0 0
        4: plus 2 0123123023013012; 4: plus 2 0123123023013012; 0321 => none
        6: times 2 012345120534201453345012453201534120; 6: times 2 012345120534201453345012453201534120; 012345 => none
        6: times 2 012345120534201453345012453201534120; 6: times 2 012345120534201453345012453201534120; 021354 => none
        6: times 2 012345120534201453345012453201534120; 6: times 2 012345120534201453345012453201534120; 012354 => 0 1 3";
    expect(rt.alloc(), &Map, cases)
}
