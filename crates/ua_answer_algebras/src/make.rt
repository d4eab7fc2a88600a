//! The command `make`.

ghost use Rattle.std.specs.Prelude.{◌≤◌, length, IfOk};
ghost use Rattle.ua_table.specs.declared.limits.TheConstants.{SCRIPT};
ghost use Rattle.ua_script.specs.declared.script.MakeForm.{MakeForm};
ghost use Rattle.ua_answer_algebras.specs.MakeCommand.{MakeReply, IsNamedRight, left_by, IsConstructionBuilt};

use crate::answered::{Answered, introduced, refused, said};
use crate::reduct::{operations, operations_in};
use std::alloc::AllocError;
use std::thread::Threads;
use ua_prod::{ProdError, product, quotient, reduct, subalgebra};
use ua_reply::{Context, Refusal, congruence_reply, elements, elements_in, part, part_in};
use ua_script::{Items, MakeForm, PartText, Place, Word};
use ua_sub::{laws, sub};
use ua_table::Gate;

/// Makes the product of two algebras.
fn make_product<'a, R: Threads + Sync, G: Gate>(
    context: &Context<R, G>,
    place: Place,
    name: &'a Word,
    first: &Word,
    second: &Word,
) -> Result<Answered<'a>, AllocError>
    ensures reply { IfOk result (λ v. MakeReply context.now.session.now place name.now (MakeForm.Product first.now second.now) v.reply.items (left_by context.now.session.now v.made)) }
    ensures named { IfOk result (λ v. IsNamedRight v.made) }
{
    let alloc = context.alloc;
    let Some(left) = context.session.find(first.name.text()) else {
        return refused(alloc, Refusal::Unknown(first.place));
    };
    let Some(right) = context.session.find(second.name.text()) else {
        return refused(alloc, Refusal::Unknown(second.place));
    };
    match product(
        alloc,
        name.name.copy(alloc)?,
        left.algebra(),
        right.algebra(),
    ) {
        Ok(algebra) => introduced(alloc, &name.name, algebra),
        Err(ProdError::Signature) => refused(alloc, Refusal::Signature(second.place)),
        Err(ProdError::Size) => refused(alloc, Refusal::Size(place)),
        Err(ProdError::NotClosed { op: _, args: _ }) => unreachable!(),
        Err(ProdError::NotCongruence(_)) => unreachable!(),
        Err(ProdError::OutOfMemory) => Err(AllocError),
    }
}

/// Makes the quotient of an algebra by the partition that is written.
fn make_quotient<'a, R: Threads + Sync, G: Gate>(
    context: &Context<R, G>,
    place: Place,
    name: &'a Word,
    algebra: &Word,
    blocks: &PartText,
) -> Result<Answered<'a>, AllocError>
    ensures reply { IfOk result (λ v. MakeReply context.now.session.now place name.now (MakeForm.Quotient algebra.now blocks.now) v.reply.items (left_by context.now.session.now v.made)) }
    ensures named { IfOk result (λ v. IsNamedRight v.made) }
{
    let alloc = context.alloc;
    let Some(known) = context.session.find(algebra.name.text()) else {
        return refused(alloc, Refusal::Unknown(algebra.place));
    };
    if let Some(refusal) = part_in(alloc, known, blocks)?.refusal() {
        return refused(alloc, refusal);
    }
    let partition = part(alloc, known, blocks)?;
    match quotient(alloc, name.name.copy(alloc)?, known.algebra(), &partition) {
        Ok(algebra) => introduced(alloc, &name.name, algebra),
        Err(ProdError::NotCongruence(clash)) => {
            Ok(said(congruence_reply(alloc, known, blocks.place, &clash)?))
        }
        Err(ProdError::Signature) => unreachable!(),
        Err(ProdError::Size) => unreachable!(),
        Err(ProdError::NotClosed { op: _, args: _ }) => unreachable!(),
        Err(ProdError::OutOfMemory) => Err(AllocError),
    }
}

/// Makes the subalgebra on what elements generate.
fn make_sub<'a, R: Threads + Sync, G: Gate>(
    context: &Context<R, G>,
    place: Place,
    name: &'a Word,
    algebra: &Word,
    set: &Items,
) -> Result<Answered<'a>, AllocError>
    requires { length set.now.values ≤ SCRIPT }
    ensures reply { IfOk result (λ v. MakeReply context.now.session.now place name.now (MakeForm.Sub algebra.now set.now) v.reply.items (left_by context.now.session.now v.made)) }
    ensures named { IfOk result (λ v. IsNamedRight v.made) }
{
    let alloc = context.alloc;
    let Some(known) = context.session.find(algebra.name.text()) else {
        return refused(alloc, Refusal::Unknown(algebra.place));
    };
    if let Some(refusal) = elements_in(known, set.values.as_slice()).refusal() {
        return refused(alloc, refusal);
    }
    let whole = known.algebra();
    // What has a size is an algebra.
    let _size = whole.size();
    let gens = elements(alloc, known, set)?;
    let members = sub(context.rt, alloc, whole, &gens, context.run)?;
    laws::members();
    match subalgebra(alloc, name.name.copy(alloc)?, whole, &members) {
        Ok(algebra) => introduced(alloc, &name.name, algebra),
        Err(ProdError::Size) => refused(alloc, Refusal::Size(place)),
        Err(ProdError::Signature) => unreachable!(),
        Err(ProdError::NotClosed { op: _, args: _ }) => unreachable!(),
        Err(ProdError::NotCongruence(_)) => unreachable!(),
        Err(ProdError::OutOfMemory) => Err(AllocError),
    }
}

/// Makes the reduct of an algebra to some of its operations.
fn make_reduct<'a, R: Threads + Sync, G: Gate>(
    context: &Context<R, G>,
    place: Place,
    name: &'a Word,
    algebra: &Word,
    ops: &[Word],
) -> Result<Answered<'a>, AllocError>
    ensures reply { IfOk result (λ v. MakeReply context.now.session.now place name.now (MakeForm.Reduct algebra.now ops.now) v.reply.items (left_by context.now.session.now v.made)) }
    ensures named { IfOk result (λ v. IsNamedRight v.made) }
{
    let alloc = context.alloc;
    let Some(known) = context.session.find(algebra.name.text()) else {
        return refused(alloc, Refusal::Unknown(algebra.place));
    };
    if let Some(refusal) = operations_in(known, ops).refusal() {
        return refused(alloc, refusal);
    }
    let ops = operations(alloc, known, ops)?;
    match reduct(alloc, name.name.copy(alloc)?, known.algebra(), &ops) {
        Ok(algebra) => introduced(alloc, &name.name, algebra),
        Err(ProdError::Signature) => unreachable!(),
        Err(ProdError::Size) => unreachable!(),
        Err(ProdError::NotClosed { op: _, args: _ }) => unreachable!(),
        Err(ProdError::NotCongruence(_)) => unreachable!(),
        Err(ProdError::OutOfMemory) => Err(AllocError),
    }
}

/// The answer to `make`: the first of its errors, or the block of what it makes.
pub fn answer_make<'a, R: Threads + Sync, G: Gate>(
    context: &Context<R, G>,
    place: Place,
    name: &'a Word,
    what: &MakeForm,
) -> Result<Answered<'a>, AllocError>
    requires { IsConstructionBuilt what.now }
    ensures reply { IfOk result (λ v. MakeReply context.now.session.now place name.now (what.now) v.reply.items (left_by context.now.session.now v.made)) }
    ensures named { IfOk result (λ v. IsNamedRight v.made) }
{
    match what {
        MakeForm::Product(first, second) => make_product(context, place, name, first, second),
        MakeForm::Quotient(algebra, blocks) => make_quotient(context, place, name, algebra, blocks),
        MakeForm::Sub(algebra, set) => make_sub(context, place, name, algebra, set),
        MakeForm::Reduct(algebra, ops) => {
            make_reduct(context, place, name, algebra, ops.as_slice())
        }
    }
}
