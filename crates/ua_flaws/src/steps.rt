//! The steps of a certificate.

ghost use Rattle.std.specs.Prelude.{◌≡◌, ◌<◌, ◌≤◌, ◌^◌, ◌==◌, ◌&&◌, nat_lt, slice_index, true, false, length, IfSome, IfNone, IfOk, OnOk, [], ◌∷◌, ◌++◌, Some, None, if◌then◌else◌};
ghost use Rattle.std.specs.List.{list_all};
ghost use Rattle.ua_table.specs.Algebras.{arities_of};
ghost use Rattle.ua_term.specs.Meanings.{operation_number, has_operation};
ghost use Rattle.ua_flaws.specs.Steps as steps;
ghost use Rattle.ua_flaws.specs.Flaws.{steps_flaw, Tells};

use crate::flaws::{CheckError, Flaw};
use crate::numbers::{are_below, has_length, in_places};
use std::alloc::{AllocError, Global};
use ua_cert::CertStep;
use ua_table::{Algebra, Origin};

/// The number of the operation of this name.
fn operation_of(a: &Algebra, word: &[u8]) -> Option<u32>
    ensures some { IfSome result (λ f. f ≡ operation_number a.now word.now) }
    ensures there { IfSome result (λ _. has_operation a.now word.now ≡ true) }
    ensures low { IfSome result (λ f. f < length a.now.operations) }
    ensures none { IfNone result (has_operation a.now word.now ≡ false) }
{
    // What this call ensures is that no two operations share a name.
    let _size = a.size();
    a.find_op(word)
}

/// Whether the text is that before the number of a generator.
fn is_generator(step: &CertStep) -> bool
    ensures { result ≡ steps.is_generator step.now }
{
    step.word.as_str().as_bytes() == b"gen".as_slice()
}

/// Whether the operation takes so many arguments, and each is below n.
fn takes(a: &Algebra, op: u32, n: u32, args: &[u32]) -> bool
    requires { op < length a.now.operations }
    ensures value { result ≡ ((length args.now == slice_index (arities_of a.now) op) && list_all (λ x. nat_lt x n) args.now) }
    ensures few { result ≡ true → length args.now ≤ 4 }
{
    let arity = usize::from(a.op(op).arity());
    has_length(args, arity) && are_below(args, n)
}

/// What a step is over so many generators, where its arguments must be below n, if it is a step.
pub(crate) fn read_step(a: &Algebra, gens: u32, n: u32, step: &CertStep) -> Option<Origin>
    ensures { result ≡ (if steps.is_step a.now gens n step.now then Some (steps.origin_of a.now step.now) else None) }
{
    let args = step.args.as_slice();
    if is_generator(step) {
        if !has_length(args, 1) || !are_below(args, gens) {
            return None;
        }
        return Some(Origin::Gen { index: args[0] });
    }
    let op = operation_of(a, step.word.as_str().as_bytes())?;
    if !takes(a, op, n, args) {
        return None;
    }
    let args = in_places(args);
    Some(Origin::Op { op, args })
}

/// Appends an origin.
fn keep(origins: &mut Vec<Origin>, origin: Origin) -> Result<(), AllocError>
    ensures { OnOk result (origins.new.items ≡ origins.old.items ++ origin ∷ []) }
{
    origins.push(origin)?;
    Ok(())
}

/// What the steps are, or the first that is none. A flaw tells the term to which they belong by its number, where one is
/// given.
pub fn read_steps(
    alloc: Global,
    a: &Algebra,
    gens: u32,
    term: Option<u32>,
    list: &[CertStep],
) -> Result<Vec<Origin>, CheckError>
    requires { length list.now < 2 ^ 32 }
    ensures told { Tells (steps_flaw a.now gens term list.now) result }
    ensures read { IfOk result (λ origins. origins.items ≡ steps.origins_of a.now list.now) }
{
    let mut origins = Vec::with_capacity(alloc, list.len())?;
    for (i, step) in list.iter().enumerate() {
        match read_step(a, gens, i as u32, step) {
            Some(origin) => keep(&mut origins, origin)?,
            None => return Err(CheckError::Flaw(Flaw::Step { term, at: i as u32 })),
        }
    }
    Ok(origins)
}
