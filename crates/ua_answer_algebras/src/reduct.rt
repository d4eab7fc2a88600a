//! The operations that a reduct names, and where they fail.

ghost use Rattle.std.specs.Prelude.{◌≡◌, ◌<◌, ◌≤◌, [], nat_eq, length, IfOk};
ghost use Rattle.std.specs.List.{AllByRecursion, IsDistinct};
ghost use Rattle.ua_term.specs.Meanings.{first_place};
ghost use Rattle.ua_reply.specs.Checks.{AreFirst, Passes, all_in};
ghost use Rattle.ua_answer_algebras.specs.MakeCommand.{number_of, numbers_of, operation_in, repeated, operations_in};

use std::alloc::{AllocError, Global};
use ua_reply::{FirstErrors, Known};
use ua_script::Word;
use ua_table::limits::OPERATIONS;
use ua_text::Place;

/// The number of the operation of this name, or how many there are where there is none.
fn number_of(known: &Known, name: &Word) -> usize
    ensures number { result ≡ number_of known.now name.now }
    ensures most { result ≤ length known.now.algebra.operations }
{
    let algebra = known.algebra();
    // The names of its operations differ.
    let _size = algebra.size();
    match algebra.find_op(name.name.text()) {
        Some(f) => f as usize,
        None => algebra.ops().len(),
    }
}

/// Whether a name is one of an operation.
fn operation_in(known: &Known, name: &Word) -> FirstErrors
    ensures { AreFirst (operation_in known.now name.now) result }
{
    let mut errors = FirstErrors::none();
    if number_of(known, name) >= known.algebra().ops().len() {
        errors.unknown = Some(name.place);
    }
    errors
}

/// Whether each name is one of an operation.
fn known_in(known: &Known, names: &[Word]) -> FirstErrors
    ensures { AreFirst (all_in (operation_in known.now) names.now) result }
{
    let mut errors = FirstErrors::none();
    for name in names {
        errors = errors.and(operation_in(known, name));
    }
    errors
}

/// The place of the first operation that stands before too.
fn first_repeated(known: &Known, names: &[Word]) -> Option<Place>
    ensures { result ≡ first_place (repeated known.now [] names.now) }
{
    // There are at most so many operations.
    let _size = known.algebra().size();
    let mut seen = [false; OPERATIONS + 1];
    for name in names {
        let number = number_of(known, name);
        if seen[number] {
            return Some(name.place);
        }
        seen[number] = true;
    }
    None
}

/// Whether the names are those of operations, none of them twice.
pub fn operations_in(known: &Known, names: &[Word]) -> FirstErrors
    ensures { AreFirst (operations_in known.now names.now) result }
{
    let mut errors = FirstErrors::none();
    errors.shape = first_repeated(known, names);
    known_in(known, names).and(errors)
}

/// The numbers of the operations of these names.
pub fn operations(alloc: Global, known: &Known, names: &[Word]) -> Result<Vec<u32>, AllocError>
    requires { Passes (operations_in known.now names.now) }
    ensures numbers { IfOk result (λ ops. ops.items ≡ numbers_of known.now names.now) }
    ensures range { IfOk result (λ ops. AllByRecursion (λ f. f < length known.now.algebra.operations) ops.items) }
    ensures different { IfOk result (λ ops. IsDistinct nat_eq ops.items) }
{
    // There are few operations.
    let _size = known.algebra().size();
    let mut ops = Vec::with_capacity(alloc, names.len())?;
    for name in names {
        ops.push(number_of(known, name) as u32)?;
    }
    Ok(ops)
}
