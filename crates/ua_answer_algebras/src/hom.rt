//! The command `hom`.

ghost use Rattle.std.specs.Prelude.{◌≡◌, ◌≤◌, ◌++◌, length, Some, IfOk, OnOk};
ghost use Rattle.ua_table.specs.declared.limits.TheConstants.{SCRIPT};
ghost use Rattle.ua_sub.specs.Permitted.{MayMap};
ghost use Rattle.ua_reply.specs.Sessions.{run_bounds};
ghost use Rattle.ua_reply.specs.Checks.{Passes, AreFirst};
ghost use Rattle.ua_reply.specs.Operands.{values_of, elements_in};
ghost use Rattle.ua_reply.specs.Texts.{lines};
ghost use Rattle.ua_answer_algebras.specs.HomCommand.{hom_checks, image_text, hom_text, told_hom, HomReply};

use std::alloc::{AllocError, Global};
use std::thread::Threads;
use ua_reply::{
    Context, FirstErrors, Known, Refusal, elements, elements_in, length_in, push_counted,
    push_counted_steps, push_element, refusal_reply,
};
use ua_script::{Items, Word};
use ua_sub::extending::hom;
use ua_sub::{Hom, HomError};
use ua_table::{Elem, Gate};
use ua_text::Place;

/// Whether the generators are elements of the one algebra, and the images as many of the other.
fn hom_errors(first: &Known, second: &Known, gens: &Items, images: &Items) -> FirstErrors
    ensures first { AreFirst (hom_checks first.now second.now gens.now images.now) result }
    ensures each { Passes (hom_checks first.now second.now gens.now images.now)
        → Passes (elements_in first.now gens.now.values) × Passes (elements_in second.now images.now.values)
        × (length images.now.values ≡ length gens.now.values) }
{
    let elements = gens.values.as_slice();
    elements_in(first, elements)
        .and(elements_in(second, images.values.as_slice()))
        .and(length_in(elements.len(), images))
}

/// What `hom` answers of the elements that are written.
fn map<R: Threads + Sync, G: Gate>(
    context: &Context<R, G>,
    first: &Known,
    second: &Known,
    gens: &Items,
    images: &Items,
) -> Result<Hom, HomError>
    requires gens { Passes (elements_in first.now gens.now.values) }
    requires images { Passes (elements_in second.now images.now.values) }
    requires same { length images.now.values ≡ length gens.now.values }
    requires few { length gens.now.values ≤ SCRIPT }
    ensures { MayMap first.now.algebra second.now.algebra (values_of first.now gens.now) (values_of second.now images.now) context.now.run.now.budget context.now.run.now.workers result }
{
    let gens = elements(context.alloc, first, gens)?;
    let images = elements(context.alloc, second, images)?;
    hom(
        context.rt,
        context.alloc,
        first.algebra(),
        second.algebra(),
        &gens,
        &images,
        context.run,
    )
}

/// Appends each element with its image, on a line of its own.
fn push_images(
    out: &mut Vec<u8>,
    first: &Known,
    second: &Known,
    pairs: &[(Elem, Elem)],
) -> Result<(), AllocError>
    ensures { OnOk result (out.new.items ≡ out.old.items ++ lines (image_text first.now second.now) pairs.now) }
{
    for pair in pairs {
        push_element(out, first, pair.0)?;
        out.push(b' ')?;
        push_element(out, second, pair.1)?;
        out.push(b'\n')?;
    }
    Ok(())
}

/// The map, or the element with its two images and the steps to both.
fn hom_lines(
    alloc: Global,
    first: &Known,
    second: &Known,
    budget: u32,
    answer: &Hom,
) -> Result<Vec<u8>, AllocError>
    ensures { IfOk result (λ v. v.items ≡ hom_text first.now second.now budget answer.now) }
{
    let mut out = Vec::new(alloc);
    match answer {
        Hom::Map(pairs) => {
            push_counted(&mut out, b"map", pairs.as_slice().len() as u128)?;
            push_images(&mut out, first, second, pairs.as_slice())?;
        }
        Hom::Clash {
            element,
            first: image,
            second: other,
            first_steps,
            second_steps,
        } => {
            out.extend_from_slice(b"clash ")?;
            push_element(&mut out, first, *element)?;
            out.push(b' ')?;
            push_element(&mut out, second, *image)?;
            out.push(b' ')?;
            push_element(&mut out, second, *other)?;
            out.push(b'\n')?;
            push_counted_steps(&mut out, first, first_steps)?;
            push_counted_steps(&mut out, first, second_steps)?;
        }
        Hom::Exceeds => push_counted(&mut out, b"exceeds", u128::from(budget))?,
    }
    Ok(out)
}

/// The reply to what `hom` answers; the second algebra stands at this place.
fn hom_reply(
    alloc: Global,
    first: &Known,
    second: &Known,
    place: Place,
    budget: u32,
    answer: &Result<Hom, HomError>,
) -> Result<Vec<u8>, AllocError>
    ensures { IfOk result (λ v. told_hom first.now second.now place budget answer.now ≡ Some v.items) }
{
    match answer {
        Ok(hom) => hom_lines(alloc, first, second, budget, hom),
        Err(HomError::Signature) => refusal_reply(alloc, Refusal::Signature(place)),
        Err(HomError::Wide { records, cells }) => {
            let (records, cells) = (*records, *cells);
            refusal_reply(alloc, Refusal::Wide { records, cells })
        }
        Err(HomError::OutOfMemory) => Err(AllocError),
    }
}

/// The reply to `hom`: the first of its errors, or whether the images go on to a homomorphism.
pub fn answer_hom<R: Threads + Sync, G: Gate>(
    context: &Context<R, G>,
    first: &Word,
    second: &Word,
    gens: &Items,
    images: &Items,
) -> Result<Vec<u8>, AllocError>
    requires { length gens.now.values ≤ SCRIPT }
    ensures { IfOk result (λ v. HomReply context.now.session.now (run_bounds context.now) first.now second.now gens.now images.now v.items) }
{
    let alloc = context.alloc;
    let Some(source) = context.session.find(first.name.text()) else {
        return refusal_reply(alloc, Refusal::Unknown(first.place));
    };
    let Some(target) = context.session.find(second.name.text()) else {
        return refusal_reply(alloc, Refusal::Unknown(second.place));
    };
    if let Some(refusal) = hom_errors(source, target, gens, images).refusal() {
        return refusal_reply(alloc, refusal);
    }
    let answer = map(context, source, target, gens, images);
    hom_reply(
        alloc,
        source,
        target,
        second.place,
        context.run.budget,
        &answer,
    )
}
