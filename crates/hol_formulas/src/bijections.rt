//! The statements of a type definition about the constants to and from the new type.
ghost use Rattle.std.specs.Prelude.{◌≡◌, IfOk, Some, []};
ghost use Rattle.hol_types.specs.Fun.{fun_type};
ghost use Rattle.hol_terms.specs.Named.{var, constant, comb, named_type};
ghost use Rattle.hol_terms.specs.Nameless.{nameless};
ghost use Rattle.hol_formulas.specs.Equation.{bool_type, mk_eq};
ghost use Rattle.hol_formulas.specs.Bijections.{abs_rep, rep_abs};

use crate::equations::{mk_eq, mk_iff};
use crate::terms::{constant, occurrence, variable};
use hol_terms::Term;
use hol_types::{Name, Ty};
use std::alloc::{AllocError, Global};

/// `abs (rep a) = a`, for a variable `a` of the new type.
pub fn abs_rep(
    alloc: Global,
    abs: &Name,
    rep: &Name,
    old: &Ty,
    new: &Ty,
) -> Result<Term, AllocError>
    ensures is { IfOk result (λ t. nameless [] t ≡ abs_rep abs.now rep.now old.now new.now) }
    ensures typed { IfOk result (λ t. named_type t ≡ Some bool_type) }
{
    let a = letter(alloc, "a", new)?;
    returns(alloc, rep, abs, new, old, &a)
}

/// `P r = (rep (abs r) = r)`, for a variable `r` of the type that the predicate is about.
#[tactic(auto, using(crate::proofs::PartTypes::applications))]
pub fn rep_abs(
    alloc: Global,
    abs: &Name,
    rep: &Name,
    predicate: &Term,
    old: &Ty,
    new: &Ty,
) -> Result<Term, AllocError>
    requires { named_type predicate.now ≡ Some (fun_type old.now bool_type) }
    ensures is { IfOk result (λ t. nameless [] t ≡ rep_abs abs.now rep.now (nameless [] predicate.now) old.now new.now) }
    ensures typed { IfOk result (λ t. named_type t ≡ Some bool_type) }
{
    let r = letter(alloc, "r", old)?;
    let left = Term::application(alloc, predicate, &r)?;
    let right = returns(alloc, abs, rep, old, new, &r)?;
    mk_iff(alloc, &left, &right)
}

// The variable of the name and the type, as a term.
fn letter(alloc: Global, name: &str, ty: &Ty) -> Result<Term, AllocError>
    ensures is { IfOk result (λ t. t ≡ var (name.now, ty.now)) }
    ensures typed { IfOk result (λ t. named_type t ≡ Some ty.now) }
{
    let v = variable(alloc, name, ty)?;
    occurrence(alloc, &v)
}

// `rep (abs r) = r`.
fn returns(
    alloc: Global,
    abs: &Name,
    rep: &Name,
    old: &Ty,
    new: &Ty,
    r: &Term,
) -> Result<Term, AllocError>
    requires { named_type r.now ≡ Some old.now }
    ensures is { IfOk result (λ t. t ≡ mk_eq old.now (comb (constant rep.now (fun_type new.now old.now)) (comb (constant abs.now (fun_type old.now new.now)) r.now)) r.now) }
    ensures typed { IfOk result (λ t. named_type t ≡ Some bool_type) }
{
    let inner = image(alloc, abs, old, new, r)?;
    let outer = image(alloc, rep, new, old, &inner)?;
    mk_eq(alloc, old, &outer, r)
}

// The constant of the name, a function from the one type to the other, at the term.
#[tactic(auto, using(crate::proofs::PartTypes::applications))]
fn image(alloc: Global, name: &Name, domain: &Ty, range: &Ty, x: &Term) -> Result<Term, AllocError>
    requires { named_type x.now ≡ Some domain.now }
    ensures is { IfOk result (λ t. t ≡ comb (constant name.now (fun_type domain.now range.now)) x.now) }
    ensures typed { IfOk result (λ t. named_type t ≡ Some range.now) }
{
    let ty = Ty::fun(alloc, domain, range)?;
    let function = constant(alloc, name, &ty)?;
    Term::application(alloc, &function, x)
}
