//! The command `check`.

ghost use Rattle.std.specs.Prelude.{◌≡◌, ◌++◌, Some, Err, IfOk, OnOk};
ghost use Rattle.ua_table.specs.Algebras.{FiniteAlgebra};
ghost use Rattle.ua_cert.specs.Certificates.{TellsCert};
ghost use Rattle.ua_flaws.specs.declared.flaws.Flaw.{Flaw};
ghost use Rattle.ua_reply.specs.Replies.{Says};
ghost use Rattle.ua_reply.specs.Texts.{counted};
ghost use Rattle.ua_answer_algebras.specs.CheckCommand.{list_word, step_text, flaw_text, verdict_text, path_text, check_text, CheckReply};

use std::alloc::{AllocError, Global};
use std::thread::Threads;
use ua_cert::{CertError, read};
use ua_check::{CheckError, Flaw, ListName, check};
use ua_part::push_number;
use ua_reply::{Context, Refusal, push_more, push_pair, refusal_reply};
use ua_script::Word;
use ua_table::{Algebra, Gate};

/// The name of a list of vectors.
fn list_word(list: ListName) -> &'static [u8]
    ensures { result.now ≡ list_word list }
{
    match list {
        ListName::Gens => b"gens",
        ListName::Rows => b"rows",
        ListName::Target => b"target",
    }
}

/// Appends a word, a blank and a number.
fn push_at(out: &mut Vec<u8>, word: &[u8], number: u32) -> Result<(), AllocError>
    ensures { OnOk result (out.new.items ≡ out.old.items ++ counted word.now number) }
{
    out.extend_from_slice(word)?;
    out.push(b' ')?;
    push_number(out, u128::from(number))
}

/// Appends the number of a step, behind that of its term in a chain.
fn push_step(out: &mut Vec<u8>, term: Option<u32>, at: u32) -> Result<(), AllocError>
    ensures { OnOk result (out.new.items ≡ out.old.items ++ step_text term at) }
{
    match term {
        None => push_number(out, u128::from(at)),
        Some(term) => push_pair(out, (term, at)),
    }
}

/// Appends an identity that fails, by its number and the elements that stand for its variables.
fn push_identity(out: &mut Vec<u8>, at: u32, x: u32, y: u32) -> Result<(), AllocError>
    ensures { OnOk result (out.new.items ≡ out.old.items ++ flaw_text (Flaw.Identity at x y)) }
{
    push_at(out, b"identity", at)?;
    out.extend_from_slice(b" [")?;
    push_pair(out, (x, y))?;
    out.push(b']')?;
    Ok(())
}

/// Appends a flaw by its numbers.
fn push_flaw(out: &mut Vec<u8>, flaw: &Flaw) -> Result<(), AllocError>
    ensures { OnOk result (out.new.items ≡ out.old.items ++ flaw_text flaw.now) }
{
    match flaw {
        Flaw::Width => out.extend_from_slice(b"width"),
        Flaw::Vector { list, at } => {
            out.extend_from_slice(b"vector ")?;
            push_at(out, list_word(*list), *at)
        }
        Flaw::Step { term, at } => {
            out.extend_from_slice(b"step ")?;
            push_step(out, *term, *at)
        }
        Flaw::Order(i) => push_at(out, b"order", *i),
        Flaw::Rank(i) => push_at(out, b"rank", *i),
        Flaw::Origin(i) => push_at(out, b"origin", *i),
        Flaw::Generator(i) => push_at(out, b"generator", *i),
        Flaw::Missing { op, rows } => {
            out.extend_from_slice(b"result ")?;
            out.extend_from_slice(op.text())?;
            push_more(out, rows.as_slice())
        }
        Flaw::Target => out.extend_from_slice(b"target"),
        Flaw::Identity { at, x, y } => push_identity(out, *at, *x, *y),
        Flaw::Link(i) => push_at(out, b"link", *i),
        Flaw::Reached(i) => push_at(out, b"reached", *i),
    }
}

/// The line of a certificate that has a flaw.
fn flaw_line(alloc: Global, flaw: &Flaw) -> Result<Vec<u8>, AllocError>
    ensures { IfOk result (λ v. v.items ≡ verdict_text (Some flaw.now)) }
{
    let mut out = Vec::from_slice(alloc, b"flaw ")?;
    push_flaw(&mut out, flaw)?;
    out.push(b'\n')?;
    Ok(out)
}

/// A word and a path, on a line. No blank stands before an empty path.
fn path_line(alloc: Global, word: &[u8], path: &[u8]) -> Result<Vec<u8>, AllocError>
    ensures { IfOk result (λ v. v.items ≡ path_text word.now path.now) }
{
    let mut out = Vec::from_slice(alloc, word)?;
    if !path.is_empty() {
        out.push(b' ')?;
        out.extend_from_slice(path)?;
    }
    out.push(b'\n')?;
    Ok(out)
}

/// The line of a text that is no certificate. Want of memory has none.
fn fault_line(alloc: Global, fault: &CertError) -> Result<Vec<u8>, AllocError>
    ensures { (a : FiniteAlgebra) → IfOk result (λ v. check_text a (Err fault.now) ≡ Some v.items) }
{
    match fault {
        CertError::Json => Vec::from_slice(alloc, b"cert json\n"),
        CertError::Shape(path) => path_line(alloc, b"cert shape", path.as_slice()),
        CertError::Range(path) => path_line(alloc, b"cert range", path.as_slice()),
        CertError::OutOfMemory => Err(AllocError),
    }
}

/// What is told of the certificate that a text writes.
fn checked(alloc: Global, a: &Algebra, json: &[u8]) -> Result<Vec<u8>, AllocError>
    ensures { IfOk result (λ v. Says (TellsCert json.now) (check_text a.now) v.items) }
{
    let cert = match read(alloc, json) {
        Ok(cert) => cert,
        Err(fault) => return fault_line(alloc, &fault),
    };
    match check(alloc, a, &cert) {
        Ok(()) => Vec::from_slice(alloc, b"valid\n"),
        Err(CheckError::Flaw(flaw)) => flaw_line(alloc, &flaw),
        Err(CheckError::OutOfMemory) => Err(AllocError),
    }
}

/// The reply to `check`: its error, or whether the certificate has no flaw, or why it is none.
pub fn answer_check<R: Threads + Sync, G: Gate>(
    context: &Context<R, G>,
    algebra: &Word,
    json: &[u8],
) -> Result<Vec<u8>, AllocError>
    ensures { IfOk result (λ v. CheckReply context.now.session.now algebra.now json.now v.items) }
{
    let Some(known) = context.session.find(algebra.name.text()) else {
        return refusal_reply(context.alloc, Refusal::Unknown(algebra.place));
    };
    checked(context.alloc, known.algebra(), json)
}
