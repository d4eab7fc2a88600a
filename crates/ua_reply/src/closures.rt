//! The replies to closures, to their sizes, and to members.

ghost use Rattle.std.specs.Prelude.{◌≡◌, Some, IfOk};
ghost use Rattle.ua_reply.specs.Closures.{size_text, closure_text, member_text, cause_text, told};

use crate::known::Known;
use crate::refusals::{Refusal, refusal_reply};
use crate::texts::{push_counted, push_rows, push_steps};
use std::alloc::{AllocError, Global};
use ua_close::{Answer, CloseError, Closure, Size};

/// The reply where nothing was closed. Want of memory has none.
pub fn cause_reply(alloc: Global, cause: CloseError) -> Result<Vec<u8>, AllocError>
    ensures { IfOk result (λ v. cause_text cause ≡ Some v.items) }
{
    match cause {
        CloseError::Wide { records, cells } => {
            refusal_reply(alloc, Refusal::Wide { records, cells })
        }
        CloseError::OutOfMemory => Err(AllocError),
    }
}

/// The line of a size.
fn size_line(alloc: Global, budget: u32, size: Size) -> Result<Vec<u8>, AllocError>
    ensures { IfOk result (λ v. v.items ≡ size_text budget size) }
{
    let mut out = Vec::new(alloc);
    match size {
        Size::Closed(count) => push_counted(&mut out, b"closed", u128::from(count))?,
        Size::Exceeds => push_counted(&mut out, b"exceeds", u128::from(budget))?,
    }
    Ok(out)
}

/// The line of a size, and the rows.
fn closure_lines(
    alloc: Global,
    known: &Known,
    budget: u32,
    closure: &Closure,
) -> Result<Vec<u8>, AllocError>
    ensures { IfOk result (λ v. v.items ≡ closure_text known.now budget closure.now) }
{
    let (size, rows) = match closure {
        Closure::Closed(rows) => (Size::Closed(rows.len()), rows),
        Closure::Exceeds(rows) => (Size::Exceeds, rows),
    };
    let mut out = size_line(alloc, budget, size)?;
    push_rows(&mut out, known, rows)?;
    Ok(out)
}

/// `yes` and the steps, or `no` or `exceeds` and the rows.
fn member_lines(
    alloc: Global,
    known: &Known,
    budget: u32,
    answer: &Answer,
) -> Result<Vec<u8>, AllocError>
    ensures { IfOk result (λ v. v.items ≡ member_text known.now budget answer.now) }
{
    let mut out = Vec::new(alloc);
    match answer {
        Answer::Yes(steps) => {
            let list = steps.list();
            push_counted(&mut out, b"yes", list.len() as u128)?;
            push_steps(&mut out, known, list)?;
        }
        Answer::No(rows) => {
            push_counted(&mut out, b"no", u128::from(rows.len()))?;
            push_rows(&mut out, known, rows)?;
        }
        Answer::Exceeds(rows) => {
            push_counted(&mut out, b"exceeds", u128::from(budget))?;
            push_rows(&mut out, known, rows)?;
        }
    }
    Ok(out)
}

/// The reply to the size of a closure, within the budget told.
pub fn size_reply(
    alloc: Global,
    budget: u32,
    answer: Result<Size, CloseError>,
) -> Result<Vec<u8>, AllocError>
    ensures { IfOk result (λ v. told (size_text budget) answer ≡ Some v.items) }
{
    match answer {
        Ok(size) => size_line(alloc, budget, size),
        Err(cause) => cause_reply(alloc, cause),
    }
}

/// The reply to a closure, within the budget told.
pub fn closure_reply(
    alloc: Global,
    known: &Known,
    budget: u32,
    answer: &Result<Closure, CloseError>,
) -> Result<Vec<u8>, AllocError>
    ensures { IfOk result (λ v. told (closure_text known.now budget) answer.now ≡ Some v.items) }
{
    match answer {
        Ok(closure) => closure_lines(alloc, known, budget, closure),
        Err(cause) => cause_reply(alloc, *cause),
    }
}

/// The reply to whether a vector is a member, within the budget told.
pub fn member_reply(
    alloc: Global,
    known: &Known,
    budget: u32,
    answer: &Result<Answer, CloseError>,
) -> Result<Vec<u8>, AllocError>
    ensures { IfOk result (λ v. told (member_text known.now budget) answer.now ≡ Some v.items) }
{
    match answer {
        Ok(answer) => member_lines(alloc, known, budget, answer),
        Err(cause) => cause_reply(alloc, *cause),
    }
}
