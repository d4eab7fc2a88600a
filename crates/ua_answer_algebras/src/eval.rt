//! The command `eval`.

ghost use Rattle.std.specs.Prelude.{◌≡◌, ◌++◌, length, codes, IfOk};
ghost use Rattle.ua_table.specs.Terms.{eval};
ghost use Rattle.ua_term.specs.Meanings.{tree_in};
ghost use Rattle.ua_reply.specs.Checks.{Passes};
ghost use Rattle.ua_reply.specs.Operands.{values_of, term_in, elements_in};
ghost use Rattle.ua_reply.specs.Texts.{line, element_text};
ghost use Rattle.ua_answer_algebras.specs.EvalCommand.{EvalReply};

use std::alloc::{AllocError, Global};
use std::thread::Threads;
use ua_reply::{
    Context, Known, Refusal, elements, elements_in, push_element, refusal_reply, term_in,
};
use ua_script::{Items, Word};
use ua_table::{Elem, Gate};
use ua_term::{TermFault, Written, eval};

/// The value of a term at elements.
fn value(alloc: Global, known: &Known, term: &Written, args: &Items) -> Result<Elem, AllocError>
    requires term { Passes (term_in known.now (length args.now.values) term.now) }
    requires args { Passes (elements_in known.now args.now.values) }
    ensures { IfOk result (λ v. v ≡ eval known.now.algebra (values_of known.now args.now) (tree_in known.now.algebra term.now)) }
{
    let algebra = known.algebra();
    let args = elements(alloc, known, args)?;
    match term.resolve(alloc, algebra) {
        Ok(term) => Ok(eval(algebra, &term, &args)),
        Err(TermFault::OutOfMemory) => Err(AllocError),
        Err(_) => unreachable!(),
    }
}

/// The line of a value.
fn value_reply(alloc: Global, known: &Known, value: Elem) -> Result<Vec<u8>, AllocError>
    ensures { IfOk result (λ v. v.items ≡ line (codes "value " ++ element_text known.now value)) }
{
    let mut out = Vec::from_slice(alloc, b"value ")?;
    push_element(&mut out, known, value)?;
    out.push(b'\n')?;
    Ok(out)
}

/// The reply to `eval`: the first of its errors, or the value.
pub fn answer_eval<R: Threads + Sync, G: Gate>(
    context: &Context<R, G>,
    algebra: &Word,
    term: &Written,
    args: &Items,
) -> Result<Vec<u8>, AllocError>
    ensures { IfOk result (λ v. EvalReply context.now.session.now algebra.now term.now args.now v.items) }
{
    let Some(known) = context.session.find(algebra.name.text()) else {
        return refusal_reply(context.alloc, Refusal::Unknown(algebra.place));
    };
    let entries = args.values.as_slice();
    let errors = term_in(known, entries.len(), term).and(elements_in(known, entries));
    if let Some(refusal) = errors.refusal() {
        return refusal_reply(context.alloc, refusal);
    }
    let value = value(context.alloc, known, term, args)?;
    value_reply(context.alloc, known, value)
}
