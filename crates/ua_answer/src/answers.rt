//! The reply to a command: an arm for each form.

ghost use Rattle.std.specs.Prelude.{IfOk};
ghost use Rattle.ua_reply.specs.Sessions.{run_bounds};
ghost use Rattle.ua_answer.specs.Replies.{IsPlainBuilt, IsBuilt, PlainReply, Reply};
ghost use Rattle.ua_answer_algebras.specs.MakeCommand.{left_by, IsNamedRight};

use crate::questions::answer_asked;
use std::alloc::AllocError;
use std::thread::Threads;
use ua_answer_algebras::{
    Answered, answer_check, answer_eval, answer_free, answer_hom, answer_make, answer_ones,
    answer_sub, said,
};
use ua_answer_conditions::{answer_chain, answer_clone, answer_condition, answer_holds};
use ua_answer_congruences::{
    answer_central, answer_cg, answer_comm, answer_con, answer_series, answer_types,
};
use ua_chain::NamedKind;
use ua_reply::Context;
use ua_script::Command;
use ua_table::Gate;

/// The reply to a command that leaves the session as it was.
pub fn answer_plain<R: Threads + Sync, G: Gate>(
    context: &Context<R, G>,
    command: &Command,
) -> Result<Vec<u8>, AllocError>
    requires { IsPlainBuilt command.now }
    ensures { IfOk result (λ v. PlainReply context.now.session.now (run_bounds context.now) command.now v.items) }
{
    match command {
        Command::Ask { what, mode, cert } => answer_asked(context, what, *mode, *cert),
        Command::Check { algebra, json } => answer_check(context, algebra, json.as_slice()),
        Command::Free { algebra, k, mode } => answer_free(context, algebra, *k, *mode),
        Command::Sub { algebra, set } => answer_sub(context, algebra, set),
        Command::Ones { algebra } => answer_ones(context, algebra),
        Command::Eval {
            algebra,
            term,
            args,
        } => answer_eval(context, algebra, term, args),
        Command::Hom {
            first,
            second,
            gens,
            images,
        } => answer_hom(context, first, second, gens, images),
        Command::Cg { algebra, pairs } => answer_cg(context, algebra, pairs.as_slice()),
        Command::Con { algebra } => answer_con(context, algebra),
        Command::Types { algebra } => answer_types(context, algebra),
        Command::Central {
            algebra,
            alpha,
            beta,
            delta,
        } => answer_central(context, algebra, alpha, beta, delta),
        Command::Comm {
            algebra,
            alpha,
            beta,
        } => answer_comm(context, algebra, alpha, beta),
        Command::Series { algebra, kind } => answer_series(context, algebra, *kind),
        Command::Holds {
            algebra,
            left,
            right,
        } => answer_holds(context, algebra, left, right),
        Command::Day { algebra } => answer_chain(context, algebra, NamedKind::Day),
        Command::Condition {
            algebra,
            arity,
            identities,
        } => answer_condition(context, algebra, *arity, identities.as_slice()),
        Command::Clone {
            algebra,
            arity,
            kind,
            points,
        } => answer_clone(context, algebra, *arity, *kind, points),
        Command::Make { .. } => unreachable!(),
    }
}

/// The answer to a command.
pub fn answer<'a, R: Threads + Sync, G: Gate>(
    context: &Context<R, G>,
    command: &'a Command,
) -> Result<Answered<'a>, AllocError>
    requires { IsBuilt command.now }
    ensures reply { IfOk result (λ v. Reply context.now.session.now (run_bounds context.now) command.now v.reply.items (left_by context.now.session.now v.made)) }
    ensures named { IfOk result (λ v. IsNamedRight v.made) }
{
    match command {
        Command::Make { place, name, what } => answer_make(context, *place, name, what),
        _ => Ok(said(answer_plain(context, command)?)),
    }
}
