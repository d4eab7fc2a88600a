//! The command `series`.

ghost use Rattle.std.specs.Prelude.{◌≡◌, Some, IfOk};
ghost use Rattle.ua_comm.specs.Permitted.{MayDescend};
ghost use Rattle.ua_reply.specs.Sessions.{run_bounds};
ghost use Rattle.ua_reply.specs.Closures.{told};
ghost use Rattle.ua_answer_congruences.specs.SeriesCommand.{kind_of, series_text, SeriesReply};

use crate::texts::push_parts;
use std::alloc::{AllocError, Global};
use std::thread::Threads;
use ua_close::CloseError;
use ua_comm::{Series, derived_series, lower_series};
use ua_reply::{Context, Known, Refusal, cause_reply, push_counted, refusal_reply};
use ua_script::{SeriesWord, Word};
use ua_table::Gate;

/// The series of this word.
fn descent<R: Threads + Sync, G: Gate>(
    context: &Context<R, G>,
    known: &Known,
    kind: SeriesWord,
) -> Result<Series, CloseError>
    ensures { MayDescend known.now.algebra (kind_of kind) context.now.run.now.budget result }
{
    let algebra = known.algebra();
    match kind {
        SeriesWord::Derived => derived_series(context.rt, context.alloc, algebra, context.run),
        SeriesWord::Lower => lower_series(context.rt, context.alloc, algebra, context.run),
    }
}

/// The reply to a series, within the budget told.
fn series_reply(
    alloc: Global,
    budget: u32,
    answer: &Result<Series, CloseError>,
) -> Result<Vec<u8>, AllocError>
    ensures { IfOk result (λ v. told (series_text budget) answer.now ≡ Some v.items) }
{
    let mut out = Vec::new(alloc);
    match answer {
        Ok(Series::Whole(members)) => {
            push_counted(&mut out, b"series", members.len() as u128)?;
            push_parts(&mut out, members.as_slice())?;
        }
        Ok(Series::Exceeds(members)) => {
            push_counted(&mut out, b"exceeds", u128::from(budget))?;
            push_parts(&mut out, members.as_slice())?;
        }
        Err(cause) => return cause_reply(alloc, *cause),
    }
    Ok(out)
}

/// The reply to `series`: its error, or the derived or the lower series.
pub fn answer_series<R: Threads + Sync, G: Gate>(
    context: &Context<R, G>,
    algebra: &Word,
    kind: SeriesWord,
) -> Result<Vec<u8>, AllocError>
    ensures { IfOk result (λ v. SeriesReply context.now.session.now (run_bounds context.now) algebra.now kind v.items) }
{
    let Some(known) = context.session.find(algebra.name.text()) else {
        return refusal_reply(context.alloc, Refusal::Unknown(algebra.place));
    };
    let answer = descent(context, known, kind);
    series_reply(context.alloc, context.run.budget, &answer)
}
