//! The check of a certificate.

ghost use Rattle.std.specs.Prelude.{IsOk};
ghost use Rattle.ua_cert.specs.Lengths.{HasShortLists};
ghost use Rattle.ua_flaws.specs.Flaws.{Tells};
ghost use Rattle.ua_check.specs.Checking.{Holds, flaw_of};

use crate::chains::chain;
use crate::conditions::{condition, no_condition};
use crate::no_chains::no_chain;
use std::alloc::Global;
use ua_cert::Cert;
use ua_flaws::CheckError;
use ua_flaws::listings::listing;
use ua_flaws::members::{member, not_member};
use ua_table::Algebra;

/// Checks a certificate by itself, without any search: Ok exactly where it has no flaw, and then what it says
/// of the algebra is true; else its first flaw.
///
/// The rows of a certificate are looked up by value, so a certificate with n rows and operations of at most k
/// arguments takes about n^k look-ups.
pub fn check(alloc: Global, a: &Algebra, cert: &Cert) -> Result<(), CheckError>
    requires { HasShortLists cert.now }
    ensures told { Tells (flaw_of a.now cert.now) result }
    ensures holds { IsOk result → Holds a.now cert.now }
{
    match cert {
        Cert::Member {
            gens,
            steps,
            target,
            width,
        } => member(alloc, a, gens.as_slice(), steps.as_slice(), target, *width),
        Cert::NotMember {
            gens,
            rows,
            target,
            width,
        } => not_member(alloc, a, gens.as_slice(), rows.as_slice(), target, *width),
        Cert::Listing {
            gens,
            origins,
            ranks,
            rows,
            width,
        } => {
            let gens = gens.as_slice();
            let origins = origins.as_slice();
            let ranks = ranks.as_slice();
            let rows = rows.as_slice();
            listing(alloc, a, gens, origins, ranks, rows, *width)
        }
        Cert::Condition { name, k, steps } => condition(alloc, a, *name, *k, steps),
        Cert::NoCondition { name, k, rows } => no_condition(alloc, a, *name, *k, rows),
        Cert::Chain { name, terms } => chain(alloc, a, *name, terms),
        Cert::NoChain {
            name,
            rows,
            even,
            odd,
        } => no_chain(alloc, a, *name, rows, even, odd),
    }
}
