//! The command `holds`.

ghost use Rattle.std.specs.Prelude.{◌≡◌, Some, IfOk};
ghost use Rattle.ua_table.specs.declared.limits.TheConstants.{VARIABLES};
ghost use Rattle.ua_table.specs.Algebras.{arities_of};
ghost use Rattle.ua_table.specs.Terms.{IsTerm};
ghost use Rattle.ua_term.specs.Trees.{tree_of};
ghost use Rattle.ua_term.specs.Meanings.{tree_in};
ghost use Rattle.ua_free.specs.Permitted.{MayHold};
ghost use Rattle.ua_reply.specs.Checks.{Passes};
ghost use Rattle.ua_reply.specs.Operands.{term_in};
ghost use Rattle.ua_answer_conditions.specs.HoldsCommand.{holds_text, HoldsReply};

use std::alloc::{AllocError, Global};
use std::thread::Threads;
use ua_free::{HoldsError, holds};
use ua_reply::{Context, Known, Refusal, push_vector, refusal_reply, term_in};
use ua_script::Word;
use ua_table::limits::VARIABLES;
use ua_table::{Elem, Gate};
use ua_term::{Term, TermFault, Written};

/// The term that is written, in an algebra that has its operations.
fn term_of(alloc: Global, known: &Known, term: &Written) -> Result<Term, AllocError>
    requires { Passes (term_in known.now VARIABLES term.now) }
    ensures term { IfOk result (λ t. IsTerm (arities_of known.now.algebra) VARIABLES (tree_of t)) }
    ensures meaning { IfOk result (λ t. tree_of t ≡ tree_in known.now.algebra term.now) }
{
    match term.resolve(alloc, known.algebra()) {
        Ok(term) => Ok(term),
        Err(TermFault::OutOfMemory) => Err(AllocError),
        Err(_) => unreachable!(),
    }
}

/// What `holds` answers of two terms.
fn identity(
    alloc: Global,
    known: &Known,
    left: &Written,
    right: &Written,
) -> Result<Option<Vec<Elem>>, HoldsError>
    requires left { Passes (term_in known.now VARIABLES left.now) }
    requires right { Passes (term_in known.now VARIABLES right.now) }
    ensures { MayHold known.now.algebra (tree_in known.now.algebra left.now) (tree_in known.now.algebra right.now) result }
{
    let left = term_of(alloc, known, left)?;
    let right = term_of(alloc, known, right)?;
    holds(alloc, known.algebra(), &left, &right)
}

/// The line of what `holds` answers.
fn identity_reply(
    alloc: Global,
    known: &Known,
    answer: &Result<Option<Vec<Elem>>, HoldsError>,
) -> Result<Vec<u8>, AllocError>
    ensures { IfOk result (λ v. holds_text known.now answer.now ≡ Some v.items) }
{
    match answer {
        Ok(None) => Vec::from_slice(alloc, b"holds\n"),
        Ok(Some(assignment)) => {
            let mut out = Vec::from_slice(alloc, b"fails ")?;
            push_vector(&mut out, known, assignment)?;
            out.push(b'\n')?;
            Ok(out)
        }
        Err(HoldsError::Wide(count)) => {
            let records = 0;
            let cells = *count;
            refusal_reply(alloc, Refusal::Wide { records, cells })
        }
        Err(HoldsError::OutOfMemory) => Err(AllocError),
    }
}

/// The reply to `holds`: the first of its errors, or whether the identity holds at every assignment.
pub fn answer_holds<R: Threads + Sync, G: Gate>(
    context: &Context<R, G>,
    algebra: &Word,
    left: &Written,
    right: &Written,
) -> Result<Vec<u8>, AllocError>
    ensures { IfOk result (λ v. HoldsReply context.now.session.now algebra.now left.now right.now v.items) }
{
    let Some(known) = context.session.find(algebra.name.text()) else {
        return refusal_reply(context.alloc, Refusal::Unknown(algebra.place));
    };
    let most = VARIABLES as usize;
    let errors = term_in(known, most, left).and(term_in(known, most, right));
    if let Some(refusal) = errors.refusal() {
        return refusal_reply(context.alloc, refusal);
    }
    let answer = identity(context.alloc, known, left, right);
    identity_reply(context.alloc, known, &answer)
}
