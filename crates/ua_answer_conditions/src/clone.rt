//! The command `clone`.

ghost use Rattle.std.specs.Prelude.{◌≡◌, ◌<◌, ◌≤◌, ◌∷◌, [], ℕ, List, length, IfOk, OnOk};
ghost use Rattle.ua_table.specs.declared.limits.TheConstants.{SCRIPT};
ghost use Rattle.ua_operands.specs.declared.written.PointsText.TheVariants as PointsText;
ghost use Rattle.ua_clone.specs.Points.{points_of, ArePoints};
ghost use Rattle.ua_clone.specs.Permitted.{MayClone};
ghost use Rattle.ua_reply.specs.Sessions.{run_bounds};
ghost use Rattle.ua_reply.specs.Checks.{AreFirst, Passes};
ghost use Rattle.ua_answer_conditions.specs.ArgumentSets.{HoldsThese};
ghost use Rattle.ua_answer_conditions.specs.CloneCommand.{kind_of, total_in, arguments_of, point_in, points_in, written_points, IsShortTable, clone_checks, CloneReply};

use crate::arguments::ArgumentSet;
use std::alloc::{AllocError, Global};
use std::thread::Threads;
use ua_clone::{CloneKind, Points, clone_member, is_count};
use ua_close::{Answer, CloseError};
use ua_reply::{
    Context, FirstErrors, Known, Refusal, element_of, elements, elements_in, length_in,
    member_reply, refusal_reply, variables_in, vector,
};
use ua_script::{CloneWord, Items, Number, PointsText, Word};
use ua_table::{Gate, Vectors};

/// Which operations are asked for.
fn kind_of(kind: CloneWord) -> CloneKind
    ensures { result ≡ kind_of kind }
{
    match kind {
        CloneWord::Term => CloneKind::TermOps,
        CloneWord::Polynomial => CloneKind::Polynomials,
    }
}

/// Whether a vector has a value for each assignment of elements to so many variables, each an element.
fn total_in(known: &Known, k: u32, v: &Items) -> FirstErrors
    ensures { AreFirst (total_in known.now k v.now) result }
{
    let entries = v.values.as_slice();
    let mut errors = FirstErrors::none();
    if !is_count(entries.len(), known.algebra().size(), k) {
        errors.shape = Some(v.place);
    }
    elements_in(known, entries).and(errors)
}

/// The arguments in a vector of so many arguments and a value.
fn arguments_of(alloc: Global, known: &Known, k: u32, v: &Items) -> Result<Vec<usize>, AllocError>
    ensures { IfOk result (λ arguments. arguments.items ≡ arguments_of known.now k v.now) }
{
    let entries = v.values.as_slice();
    let mut arguments = Vec::new(alloc);
    for i in 0..(k as usize).min(entries.len()) {
        arguments.push(element_of(known, &entries[i]).unwrap_or(0))?;
    }
    Ok(arguments)
}

/// Whether a vector has so many arguments and a value, each an element, and the arguments are none of those that
/// the set holds, to which they are added.
fn point_in(
    alloc: Global,
    known: &Known,
    k: u32,
    seen: &mut ArgumentSet,
    v: &Items,
) -> Result<FirstErrors, AllocError>
    ensures errors { IfOk result (λ errors. (before : List (List ℕ)) → HoldsThese seen.old before → AreFirst (point_in known.now k before v.now) errors) }
    ensures seen { OnOk result ((before : List (List ℕ)) → HoldsThese seen.old before → HoldsThese seen.new (arguments_of known.now k v.now ∷ before)) }
{
    let arguments = arguments_of(alloc, known, k, v)?;
    let mut repeated = FirstErrors::none();
    if !seen.insert(arguments)? {
        repeated.shape = Some(v.place);
    }
    let errors = elements_in(known, v.values.as_slice()).and(length_in(k as usize + 1, v));
    Ok(errors.and(repeated))
}

/// Whether each vector has so many arguments and a value, each an element, and their arguments differ.
fn points_in(
    alloc: Global,
    known: &Known,
    k: u32,
    first: &Items,
    others: &[Items],
) -> Result<FirstErrors, AllocError>
    ensures { IfOk result (AreFirst (points_in known.now k [] (first.now ∷ others.now))) }
{
    let mut seen = ArgumentSet::new(alloc);
    let mut errors = point_in(alloc, known, k, &mut seen, first)?;
    for v in others {
        errors = errors.and(point_in(alloc, known, k, &mut seen, v)?);
    }
    Ok(errors)
}

/// Where the operands fail.
fn checked(
    alloc: Global,
    known: &Known,
    k: Number,
    points: &PointsText,
) -> Result<FirstErrors, AllocError>
    ensures { IfOk result (AreFirst (clone_checks known.now k points.now)) }
{
    let errors = match points {
        PointsText::Total(values) => total_in(known, k.value, values),
        PointsText::Partial(first, others) => {
            points_in(alloc, known, k.value, first, others.as_slice())?
        }
    };
    Ok(variables_in(k).and(errors))
}

/// The vectors of a partial table, which pass their checks.
fn vectors_of(
    alloc: Global,
    known: &Known,
    k: u32,
    first: &Items,
    others: &[Items],
) -> Result<Points, AllocError>
    requires checks { Passes (points_in known.now k [] (first.now ∷ others.now)) }
    requires small { k < u32.MAX }
    requires few { length others.now ≤ SCRIPT }
    ensures points { IfOk result (λ p. points_of known.now.algebra.size k p ≡ written_points known.now k (PointsText.Partial first.now others.now)) }
    ensures table { IfOk result (ArePoints known.now.algebra.size k) }
{
    let width = k + 1;
    let mut list = Vectors::new(alloc, width);
    let row = vector(alloc, known, width, first)?;
    list.add(&row)?;
    for v in others {
        let row = vector(alloc, known, width, v)?;
        list.add(&row)?;
    }
    Ok(Points::Partial(list))
}

/// The table that is written, which passes its checks.
fn table_of(
    alloc: Global,
    known: &Known,
    k: Number,
    points: &PointsText,
) -> Result<Points, AllocError>
    requires checks { Passes (clone_checks known.now k points.now) }
    requires few { IsShortTable points.now }
    ensures points { IfOk result (λ p. points_of known.now.algebra.size k.value p ≡ written_points known.now k.value points.now) }
    ensures table { IfOk result (ArePoints known.now.algebra.size k.value) }
{
    match points {
        PointsText::Total(values) => Ok(Points::Total(elements(alloc, known, values)?)),
        PointsText::Partial(first, others) => {
            vectors_of(alloc, known, k.value, first, others.as_slice())
        }
    }
}

/// Whether some operation of the clone agrees with the table.
fn membership<R: Threads + Sync, G: Gate>(
    context: &Context<R, G>,
    known: &Known,
    k: Number,
    kind: CloneWord,
    points: &PointsText,
) -> Result<Answer, CloseError>
    requires checks { Passes (clone_checks known.now k points.now) }
    requires few { IsShortTable points.now }
    ensures { MayClone known.now.algebra k.value (kind_of kind) (written_points known.now k.value points.now) context.now.run.now.budget context.now.run.now.workers result }
{
    let table = table_of(context.alloc, known, k, points)?;
    clone_member(
        context.rt,
        context.alloc,
        known.algebra(),
        k.value as u8,
        kind_of(kind),
        &table,
        context.run,
    )
}

/// The reply to `clone`: the first of its errors, or whether some operation of the clone agrees with the table.
pub fn answer_clone<R: Threads + Sync, G: Gate>(
    context: &Context<R, G>,
    algebra: &Word,
    k: Number,
    kind: CloneWord,
    points: &PointsText,
) -> Result<Vec<u8>, AllocError>
    requires { IsShortTable points.now }
    ensures { IfOk result (λ v. CloneReply context.now.session.now (run_bounds context.now) algebra.now k kind points.now v.items) }
{
    let Some(known) = context.session.find(algebra.name.text()) else {
        return refusal_reply(context.alloc, Refusal::Unknown(algebra.place));
    };
    if let Some(refusal) = checked(context.alloc, known, k, points)?.refusal() {
        return refusal_reply(context.alloc, refusal);
    }
    let answer = membership(context, known, k, kind, points);
    member_reply(context.alloc, known, context.run.budget, &answer)
}
