//! Polynomials as trees.

ghost use Rattle.std.specs.Prelude.{◌≡◌, ◌+◌, ◌<◌, ◌≤◌, ◌^◌, List, ℕ, length, IfOk, IfSome, option_map};
ghost use Rattle.std.specs.List.{AllByRecursion};
ghost use Rattle.ua_table.specs.Terms.{IsTerm};
ghost use Rattle.ua_term.specs.Trees.{tree_of};
ghost use Rattle.ua_term.specs.Steps.{step_term, within};
ghost use Rattle.ua_clone.specs.Polynomials.{polynomial_value, polynomial_of, variables_of, IsPoly};

use std::alloc::{AllocError, Global};
use ua_table::{Algebra, Elem};
use ua_term::{Steps, Term};

/// A polynomial of an algebra (S. Burris and H. P. Sankappanavar, A Course in Universal Algebra, chapter II):
/// a variable by its number, an element, or an operation by its index with its arguments.
#[derive(Drop, Debug)]
pub enum Poly {
    Var(u32),
    Const(Elem),
    Op(u32, Vec<Poly>),
}

/// The value of a polynomial in the algebra, where variable i stands for the i-th element. It takes no memory,
/// and as many steps as the polynomial has nodes.
pub fn poly_value(a: &Algebra, p: &Poly, args: &[Elem]) -> Elem
    requires polynomial { IsPoly a.now (length args.now) p.now }
    requires below { AllByRecursion (λ x. x < a.now.size) args.now }
    ensures value { result ≡ polynomial_value a.now args.now (polynomial_of (length args.now) p.now) }
    ensures element { result < a.now.size }
{
    match p {
        Poly::Var(i) => args[*i as usize],
        Poly::Const(c) => *c,
        Poly::Op(f, polys) => {
            let op = a.op(*f);
            let mut values = [0; 4];
            for i in 0..polys.len() {
                values[i] = poly_value(a, &polys[i], args);
            }
            op.value(&values[..polys.len()])
        }
    }
}

/// The term with a variable for each generator below k, and an element for each other.
fn poly_of(alloc: Global, term: &Term, k: u32) -> Result<Poly, AllocError>
    requires { (ks : List ℕ) × IsTerm ks (k + 2 ^ 16) (tree_of term.now) }
    ensures polynomial { IfOk result (λ p. polynomial_of k p ≡ tree_of term.now) }
    ensures variables { IfOk result (λ p. variables_of p ≤ k) }
{
    match term {
        Term::Var(i) => {
            if *i < k {
                Ok(Poly::Var(*i))
            } else {
                Ok(Poly::Const((*i - k) as Elem))
            }
        }
        Term::Op(f, terms) => {
            let mut polys = Vec::new(alloc);
            for i in 0..terms.len() {
                polys.push(poly_of(alloc, &terms[i], k)?)?;
            }
            Ok(Poly::Op(*f, polys))
        }
    }
}

/// The polynomial in k variables that a step unfolds to, or None where it has more nodes than the limit:
/// generator i below k is variable i, and generator k + c is the element c. So the last of the steps of a yes
/// of `clone_member` makes a polynomial that agrees with the points, as `laws::polynomials` says. The work is
/// within the limit, and the recursion is as deep as the polynomial.
pub fn to_poly(
    alloc: Global,
    steps: &Steps,
    k: u8,
    step: u32,
    limit: u32,
) -> Result<Option<Poly>, AllocError>
    requires step { step < length steps.now.items }
    requires elements { steps.now.gens ≤ k + 2 ^ 16 }
    ensures polynomial { IfOk result (λ p. option_map (polynomial_of k) p ≡ within limit (step_term steps.now.arities steps.now.items step)) }
    ensures variables { IfOk result (λ p. IfSome p (λ q. variables_of q ≤ k)) }
{
    let Some(term) = steps.unfold(alloc, step, limit)? else {
        return Ok(None);
    };
    Ok(Some(poly_of(alloc, &term, u32::from(k))?))
}
