//! What closures are answered, in the power that a command asks for.

ghost use Rattle.std.specs.Prelude.{IfOk};
ghost use Rattle.std.specs.List.{AllByRecursion};
ghost use Rattle.ua_table.specs.Algebras.{IsVector};
ghost use Rattle.ua_reply.specs.Sessions.{run_bounds};
ghost use Rattle.ua_answer_algebras.specs.CloseCommand.{MayCloseLeast, ClosureAnswer};

use std::alloc::AllocError;
use std::thread::Threads;
use ua_close::{CloseError, Closure, close_set, least, subuniverse_size};
use ua_reply::{Context, Known, closure_reply, size_reply};
use ua_script::Mode;
use ua_table::{Frame, Gate, Vectors};

/// What `close_set` answers, with the least listing in place of a closed one.
fn least_closure<R: Threads + Sync, G: Gate>(
    context: &Context<R, G>,
    frame: &Frame,
    gens: &Vectors,
) -> Result<Closure, CloseError>
    requires { AllByRecursion (IsVector frame.now) gens.now.items }
    ensures { MayCloseLeast frame.now gens.now.items context.now.run.now.budget context.now.run.now.workers result }
{
    match close_set(context.rt, context.alloc, frame, gens, context.run)? {
        Closure::Closed(rows) => {
            let rows = least(context.alloc, frame, gens, &rows)?;
            Ok(Closure::Closed(rows))
        }
        Closure::Exceeds(rows) => Ok(Closure::Exceeds(rows)),
    }
}

/// The reply to a closure: its rows, those of the least listing, or their number, for which no listing is
/// made.
pub fn closing<R: Threads + Sync, G: Gate>(
    context: &Context<R, G>,
    known: &Known,
    frame: &Frame,
    gens: &Vectors,
    mode: Mode,
) -> Result<Vec<u8>, AllocError>
    requires { AllByRecursion (IsVector frame.now) gens.now.items }
    ensures { IfOk result (λ v. ClosureAnswer known.now (run_bounds context.now) frame.now gens.now.items mode v.items) }
{
    let alloc = context.alloc;
    let budget = context.run.budget;
    match mode {
        Mode::Plain => {
            let answer = close_set(context.rt, alloc, frame, gens, context.run);
            closure_reply(alloc, known, budget, &answer)
        }
        Mode::Least => {
            let answer = least_closure(context, frame, gens);
            closure_reply(alloc, known, budget, &answer)
        }
        Mode::Count => {
            let answer = subuniverse_size(context.rt, alloc, frame, gens, context.run);
            size_reply(alloc, budget, answer)
        }
    }
}
