//! The commands `jonsson`, `hm` and `day`.

ghost use Rattle.std.specs.Prelude.{◌≡◌, ◌++◌, Some, IfOk, OnOk};
ghost use Rattle.ua_chain.specs.Names.{kind_named};
ghost use Rattle.ua_chain.specs.Permitted.{MayChain};
ghost use Rattle.ua_reply.specs.Sessions.{run_bounds};
ghost use Rattle.ua_reply.specs.Closures.{told};
ghost use Rattle.ua_reply.specs.Texts.{line, lines, counted, row_text};
ghost use Rattle.ua_answer_conditions.specs.ChainCommand.{term_text, terms_text, reached_text, chain_text, ChainReply};

use std::alloc::{AllocError, Global};
use std::thread::Threads;
use ua_chain::{Chain, NamedKind, named_chain};
use ua_close::{CloseError, Listing};
use ua_part::push_number;
use ua_reply::{
    Context, Known, Refusal, cause_reply, push_counted, push_counted_steps, push_listed, push_rows,
    refusal_reply,
};
use ua_script::Word;
use ua_table::Gate;
use ua_term::Steps;

/// A least chain of this kind.
pub fn chain<R: Threads + Sync, G: Gate>(
    context: &Context<R, G>,
    known: &Known,
    asked: NamedKind,
) -> Result<Chain, CloseError>
    ensures { MayChain known.now.algebra (kind_named asked) context.now.run.now.budget context.now.run.now.workers result }
{
    named_chain(
        context.rt,
        context.alloc,
        known.algebra(),
        asked,
        context.run,
    )
}

/// Appends the steps of a term of a chain, behind its number and theirs.
fn push_term(
    out: &mut Vec<u8>,
    known: &Known,
    number: usize,
    steps: &Steps,
) -> Result<(), AllocError>
    ensures { OnOk result (out.new.items ≡ out.old.items ++ term_text known.now number steps.now) }
{
    out.extend_from_slice(b"term ")?;
    push_number(out, number as u128)?;
    out.push(b' ')?;
    push_counted_steps(out, known, steps)
}

/// Appends the terms of a chain.
fn push_terms(out: &mut Vec<u8>, known: &Known, terms: &[Steps]) -> Result<(), AllocError>
    ensures { OnOk result (out.new.items ≡ out.old.items ++ terms_text known.now 0 terms.now) }
{
    for i in 0..terms.len() {
        push_term(out, known, i, &terms[i])?;
    }
    Ok(())
}

/// Appends the positions of the rows that are reached.
fn push_reached(
    out: &mut Vec<u8>,
    asked: NamedKind,
    even: &[u32],
    odd: &[u32],
) -> Result<(), AllocError>
    ensures { OnOk result (out.new.items ≡ out.old.items ++ reached_text (kind_named asked) even.now odd.now) }
{
    push_listed(out, b"reached even", even)?;
    match asked {
        NamedKind::HagemannMitschke => Ok(()),
        NamedKind::Jonsson | NamedKind::Day => push_listed(out, b"reached odd", odd),
    }
}

/// Appends a word and the number of rows, on a line, and the rows.
fn push_counted_rows(
    out: &mut Vec<u8>,
    known: &Known,
    word: &[u8],
    count: u32,
    rows: &Listing,
) -> Result<(), AllocError>
    ensures { OnOk result (out.new.items ≡ out.old.items ++ line (counted word.now count) ++ lines (row_text known.now) rows.now) }
{
    push_counted(out, word, u128::from(count))?;
    push_rows(out, known, rows)
}

/// The reply to a least chain, within the budget told.
fn chain_reply(
    alloc: Global,
    known: &Known,
    budget: u32,
    asked: NamedKind,
    answer: &Result<Chain, CloseError>,
) -> Result<Vec<u8>, AllocError>
    ensures { IfOk result (λ v. told (chain_text known.now budget (kind_named asked)) answer.now ≡ Some v.items) }
{
    let mut out = Vec::new(alloc);
    match answer {
        Ok(Chain::Yes(terms)) => {
            push_counted(&mut out, b"chain", terms.len().saturating_sub(1) as u128)?;
            push_terms(&mut out, known, terms.as_slice())?;
        }
        Ok(Chain::No { list, even, odd }) => {
            push_counted_rows(&mut out, known, b"no", list.len(), list)?;
            push_reached(&mut out, asked, even.as_slice(), odd.as_slice())?;
        }
        Ok(Chain::Exceeds(list)) => push_counted_rows(&mut out, known, b"exceeds", budget, list)?,
        Err(cause) => return cause_reply(alloc, *cause),
    }
    Ok(out)
}

/// The reply to `jonsson`, `hm` or `day`: its error, or a chain of least length.
pub fn answer_chain<R: Threads + Sync, G: Gate>(
    context: &Context<R, G>,
    algebra: &Word,
    asked: NamedKind,
) -> Result<Vec<u8>, AllocError>
    ensures { IfOk result (λ v. ChainReply context.now.session.now (run_bounds context.now) algebra.now asked v.items) }
{
    let Some(known) = context.session.find(algebra.name.text()) else {
        return refusal_reply(context.alloc, Refusal::Unknown(algebra.place));
    };
    let answer = chain(context, known, asked);
    chain_reply(context.alloc, known, context.run.budget, asked, &answer)
}
