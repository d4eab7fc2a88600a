//! The command `types`.

ghost use Rattle.std.specs.Prelude.{◌≡◌, ◌++◌, Some, IfOk, OnOk};
ghost use Rattle.ua_reply.specs.Sessions.{run_bounds};
ghost use Rattle.ua_reply.specs.Closures.{told};
ghost use Rattle.ua_reply.specs.Texts.{lines};
ghost use Rattle.ua_type.specs.Permitted.{MayTypes};
ghost use Rattle.ua_answer_congruences.specs.TypesCommand.{typed_text, cover_text, types_text, TypesReply};

use std::alloc::{AllocError, Global};
use std::thread::Threads;
use ua_close::CloseError;
use ua_part::push_number;
use ua_reply::{Context, Known, Refusal, cause_reply, push_counted, push_pair, refusal_reply};
use ua_script::Word;
use ua_table::Gate;
use ua_type::labelling::types;
use ua_type::{Typed, Types};

/// Appends a type, and the pair at which it is read.
fn push_typed(out: &mut Vec<u8>, typed: Typed) -> Result<(), AllocError>
    ensures { OnOk result (out.new.items ≡ out.old.items ++ typed_text typed) }
{
    match typed {
        Typed::Found { number, low, high } => {
            out.extend_from_slice(b"type ")?;
            push_number(out, u128::from(number))?;
            out.extend_from_slice(b" pair ")?;
            push_pair(out, (u32::from(low), u32::from(high)))
        }
        Typed::Exceeds => out.extend_from_slice(b"exceeds"),
    }
}

/// Appends the type of each cover behind its two congruences, on a line of its own.
fn push_covers(out: &mut Vec<u8>, rows: &[(u32, u32, Typed)]) -> Result<(), AllocError>
    ensures { OnOk result (out.new.items ≡ out.old.items ++ lines cover_text rows.now) }
{
    for row in rows {
        push_pair(out, (row.0, row.1))?;
        out.push(b' ')?;
        push_typed(out, row.2)?;
        out.push(b'\n')?;
    }
    Ok(())
}

/// The reply to the types, within the budget told.
fn types_reply(
    alloc: Global,
    budget: u32,
    answer: &Result<Types, CloseError>,
) -> Result<Vec<u8>, AllocError>
    ensures { IfOk result (λ v. told (types_text budget) answer.now ≡ Some v.items) }
{
    let mut out = Vec::new(alloc);
    match answer {
        Ok(Types::Table(rows)) => {
            push_counted(&mut out, b"types", rows.len() as u128)?;
            push_covers(&mut out, rows.as_slice())?;
        }
        Ok(Types::Exceeds(_)) => push_counted(&mut out, b"exceeds", u128::from(budget))?,
        Err(cause) => return cause_reply(alloc, *cause),
    }
    Ok(out)
}

/// The types of the covers, within the budget.
fn typed<R: Threads + Sync, G: Gate>(
    context: &Context<R, G>,
    known: &Known,
) -> Result<Types, CloseError>
    ensures { MayTypes known.now.algebra context.now.run.now.budget result }
{
    types(context.rt, context.alloc, known.algebra(), context.run)
}

/// The reply to `types`: its error, or the type of each cover.
pub fn answer_types<R: Threads + Sync, G: Gate>(
    context: &Context<R, G>,
    algebra: &Word,
) -> Result<Vec<u8>, AllocError>
    ensures { IfOk result (λ v. TypesReply context.now.session.now (run_bounds context.now) algebra.now v.items) }
{
    let alloc = context.alloc;
    let Some(known) = context.session.find(algebra.name.text()) else {
        return refusal_reply(alloc, Refusal::Unknown(algebra.place));
    };
    let answer = typed(context, known);
    types_reply(alloc, context.run.budget, &answer)
}
