//! A theorem's own variables, where a match doesn't determine them.
ghost use Rattle.std.specs.Prelude.{◌≡◌, ◌++◌, ◌∷◌, [], map, IfOk, OnOk};
ghost use Rattle.std.specs.FinSet as set;
ghost use Rattle.std.specs.List.{zip};
ghost use Rattle.hol_terms.specs.Nameless.{nameless, free};
ghost use Rattle.hol_kernel.specs.Given.{given_sequent};
ghost use Rattle.hol_match.specs.Instance.{instance_of};
ghost use Rattle.hol_just.specs.MatchMp.{is_undetermined, own_name, left_open, completed};
ghost use Rattle.hol_steps.specs.Fresh.{HaveSame};
ghost use Rattle.hol_steps.specs.Matching.{IsKept, kept_of};

use hol_formulas::occurrence;
use hol_kernel::Given;
use hol_match::Instance;
use hol_subst::{free_name, is_free_in_one};
use hol_terms::{Term, Variable, add_copies};
use hol_types::{Name, Ty};
use std::alloc::{AllocError, Global};

/// The match, where the theorem's own variables stay as they are if it doesn't determine them: `apart` begins with what they are called,
/// and `others` are the other variables that it doesn't determine.
pub(crate) fn completed(
    alloc: Global,
    th: &Given,
    own: &[Variable],
    apart: &[Variable],
    s: &Term,
    t: &Term,
    others: &[Variable],
    found: Instance,
) -> Result<Instance, AllocError>
    requires { others.now ≡ left_open own.now apart.now (nameless [] s.now, nameless [] t.now) found }
    ensures { IfOk result (λ a. a ≡ completed (set.items (given_sequent th.now).hyps) own.now apart.now (nameless [] s.now, nameless [] t.now) found) }
{
    let avoid = terms_apart(alloc, th, others)?;
    kept(alloc, own, apart, s, t, avoid, found)
}

// The variables, as terms, and then the theorem's hypotheses.
fn terms_apart(alloc: Global, th: &Given, others: &[Variable]) -> Result<Vec<Term>, AllocError>
    ensures { IfOk result (λ terms. HaveSame (map (nameless []) terms.items) (map (λ v. free v) others.now ++ set.items (given_sequent th.now).hyps)) }
{
    let mut terms = Vec::new(alloc);
    for v in others {
        terms.push(occurrence(alloc, v)?)?;
    }
    add_copies(&mut terms, th.hyps())?;
    Ok(terms)
}

// The instance, where each of the own variables that is called as the one beside it and not determined becomes itself, told from the
// terms and from those before it.
fn kept(
    alloc: Global,
    own: &[Variable],
    apart: &[Variable],
    s: &Term,
    t: &Term,
    avoid: Vec<Term>,
    found: Instance,
) -> Result<Instance, AllocError>
    ensures { IfOk result (λ a. a ≡ instance_of found.types (found.terms ++ kept_of (nameless [] s.now) (nameless [] t.now) found.types (map (nameless []) avoid.items) (zip own.now apart.now))) }
{
    let mut avoid = avoid;
    let mut whole = found;
    let mut own = own;
    let mut apart = apart;
    'own: while let Some((v, vs)) = own.split_first() {
        let Some((u, us)) = apart.split_first() else {
            return Ok(whole);
        };
        keep(alloc, v, u, s, t, &mut avoid, &mut whole)?;
        own = vs;
        apart = us;
    }
    Ok(whole)
}

// The same of one.
fn keep(
    alloc: Global,
    v: &Variable,
    u: &Variable,
    s: &Term,
    t: &Term,
    avoid: &mut Vec<Term>,
    whole: &mut Instance,
) -> Result<(), AllocError>
    ensures { OnOk result (IsKept (nameless [] s.now) (nameless [] t.now) (v.now, u.now) (map (nameless []) avoid.old.items) (map (nameless []) avoid.new.items) whole.old whole.new) }
{
    if !is_undetermined(s, t, u) {
        return Ok(());
    }
    let ty = u.ty().subst(alloc, whole.types())?;
    put_own(alloc, v, u, &ty, avoid, whole)
}

// Puts the variable for the one that is called apart, at this type, at the end of both.
fn put_own(
    alloc: Global,
    v: &Variable,
    u: &Variable,
    ty: &Ty,
    avoid: &mut Vec<Term>,
    whole: &mut Instance,
) -> Result<(), AllocError>
    ensures avoid { OnOk result (map (nameless []) avoid.new.items ≡ map (nameless []) avoid.old.items ++ free (own_name (map (nameless []) avoid.old.items) (v.now.0, ty.now)) ∷ []) }
    ensures whole { OnOk result (whole.new ≡ instance_of whole.old.types (whole.old.terms ++ (free (own_name (map (nameless []) avoid.old.items) (v.now.0, ty.now)), (u.now.0, ty.now)) ∷ [])) }
{
    let own = own_name(alloc, avoid, v.name(), ty)?;
    let apart = Variable::new(u.name(), ty)?;
    put_term(alloc, &own, &apart, avoid, whole)
}

// Puts the variable for the one that is called apart at the end of both.
fn put_term(
    alloc: Global,
    own: &Variable,
    apart: &Variable,
    avoid: &mut Vec<Term>,
    whole: &mut Instance,
) -> Result<(), AllocError>
    requires { own.now.1 ≡ apart.now.1 }
    ensures avoid { OnOk result (map (nameless []) avoid.new.items ≡ map (nameless []) avoid.old.items ++ free own.now ∷ []) }
    ensures whole { OnOk result (whole.new ≡ instance_of whole.old.types (whole.old.terms ++ (free own.now, apart.now) ∷ [])) }
{
    let term = occurrence(alloc, own)?;
    whole.add_term(alloc, &term, apart)?;
    avoid.push(term)?;
    Ok(())
}

// The variable of the name and the type, or one with the fewest primes that make its name new to the terms, where it is free in one.
fn own_name(alloc: Global, terms: &[Term], name: &Name, ty: &Ty) -> Result<Variable, AllocError>
    ensures { IfOk result (λ v. v ≡ own_name (map (nameless []) terms.now) (name.now, ty.now)) }
{
    let v = Variable::new(name, ty)?;
    if !is_free_in_one(terms, &v) {
        return Ok(v);
    }
    let other = free_name(alloc, terms, name)?;
    Variable::new(&other, ty)
}

/// Whether `s` has the variable and `t` lacks it.
pub(crate) fn is_undetermined(s: &Term, t: &Term, v: &Variable) -> bool
    ensures { result ≡ is_undetermined (nameless [] s.now) (nameless [] t.now) v.now }
{
    s.vfree_in(v) && !t.vfree_in(v)
}
