//! Quantifiers (bool.ml).
ghost use Rattle.std.specs.Prelude.{◌≡◌, IfOk, IfSome, MatchOption, Some, None, [], ◌∷◌};
ghost use Rattle.hol_types.specs.Fun.{fun_type};
ghost use Rattle.hol_terms.specs.Named.{constant, abs, named_type};
ghost use Rattle.hol_terms.specs.Nameless.{nameless, base_of};
ghost use Rattle.hol_formulas.specs.Equation.{bool_type};
ghost use Rattle.hol_formulas.specs.Formula.{quantifier_type, is_constant, dest_quantifier, dest_forall, dest_exists, is_forall, is_exists};
ghost use Rattle.hol_formulas.specs.Making.{mk_quantifier, mk_forall, mk_exists};

use crate::terms::constant_named;
use crate::types::{is_quantifier_type, quantifier_type};
use hol_terms::{Term, TermNode, Variable};
use hol_types::Ty;
use std::alloc::{AllocError, Global};

/// `!v. p`, for a term of type `bool`.
pub fn mk_forall(alloc: Global, v: &Variable, p: &Term) -> Result<Term, AllocError>
    requires body { named_type p.now ≡ Some bool_type }
    ensures is { IfOk result (λ t. t ≡ mk_forall v.now p.now) }
    ensures typed { IfOk result (λ t. named_type t ≡ Some bool_type) }
{
    mk_quantifier(alloc, "!", v, p)
}

/// `?v. p`, for a term of type `bool`.
pub fn mk_exists(alloc: Global, v: &Variable, p: &Term) -> Result<Term, AllocError>
    requires body { named_type p.now ≡ Some bool_type }
    ensures is { IfOk result (λ t. t ≡ mk_exists v.now p.now) }
    ensures typed { IfOk result (λ t. named_type t ≡ Some bool_type) }
{
    mk_quantifier(alloc, "?", v, p)
}

/// `v` and `p` of `!v. p`, and `None` of another term.
pub fn dest_forall(term: &Term) -> Option<(&Variable, &Term)>
    ensures parts { MatchOption result (dest_forall (nameless [] term.now) ≡ None) (λ x. dest_forall (nameless [] term.now) ≡ Some (record { base = base_of x.0.now.0; domain = x.0.now.1; body = nameless (x.0.now ∷ []) x.1.now })) }
    ensures typed { IfSome result (λ x. named_type x.1.now ≡ Some bool_type) }
{
    quantified(term, "!")
}

/// `v` and `p` of `?v. p`, and `None` of another term.
pub fn dest_exists(term: &Term) -> Option<(&Variable, &Term)>
    ensures parts { MatchOption result (dest_exists (nameless [] term.now) ≡ None) (λ x. dest_exists (nameless [] term.now) ≡ Some (record { base = base_of x.0.now.0; domain = x.0.now.1; body = nameless (x.0.now ∷ []) x.1.now })) }
    ensures typed { IfSome result (λ x. named_type x.1.now ≡ Some bool_type) }
{
    quantified(term, "?")
}

/// Whether the term is a universal quantification.
pub fn is_forall(term: &Term) -> bool
    ensures { result ≡ is_forall (nameless [] term.now) }
{
    dest_forall(term).is_some()
}

/// Whether the term is an existential quantification.
pub fn is_exists(term: &Term) -> bool
    ensures { result ≡ is_exists (nameless [] term.now) }
{
    dest_exists(term).is_some()
}

// The property of the variable that the term says.
#[tactic(auto, using(hol_terms::proofs::Typing::abs_type))]
fn property_of(alloc: Global, v: &Variable, p: &Term) -> Result<Term, AllocError>
    requires body { named_type p.now ≡ Some bool_type }
    ensures is { IfOk result (λ t. t ≡ abs v.now p.now) }
    ensures typed { IfOk result (λ t. named_type t ≡ Some (fun_type v.now.1 bool_type)) }
{
    Term::abstraction(alloc, v, p)
}

// The quantifier of the name over the type.
fn quantifier_over(alloc: Global, name: &str, domain: &Ty) -> Result<Term, AllocError>
    ensures is { IfOk result (λ t. t ≡ constant name.now (quantifier_type domain.now)) }
    ensures typed { IfOk result (λ t. named_type t ≡ Some (quantifier_type domain.now)) }
{
    let ty = quantifier_type(alloc, domain)?;
    constant_named(alloc, name, &ty)
}

/// The quantifier of the name over the variable.
#[tactic(auto, using(crate::proofs::PartTypes::applications))]
pub(crate) fn mk_quantifier(
    alloc: Global,
    name: &str,
    v: &Variable,
    p: &Term,
) -> Result<Term, AllocError>
    requires body { named_type p.now ≡ Some bool_type }
    ensures is { IfOk result (λ t. t ≡ mk_quantifier name.now v.now p.now) }
    ensures typed { IfOk result (λ t. named_type t ≡ Some bool_type) }
{
    let quantifier = quantifier_over(alloc, name, v.ty())?;
    let body = property_of(alloc, v, p)?;
    Term::application(alloc, &quantifier, &body)
}

// What the quantifier of the name stands before.
fn quantified<'a>(term: &'a Term, name: &str) -> Option<(&'a Variable, &'a Term)>
    ensures parts { MatchOption result (dest_quantifier name.now (nameless [] term.now) ≡ None) (λ x. dest_quantifier name.now (nameless [] term.now) ≡ Some (record { base = base_of x.0.now.0; domain = x.0.now.1; body = nameless (x.0.now ∷ []) x.1.now })) }
    ensures typed { IfSome result (λ x. named_type x.1.now ≡ Some bool_type) }
{
    let _ty = term.type_of();
    let TermNode::Comb(quantifier, property) = term.node() else {
        return None;
    };
    let TermNode::Abs(v, body) = property.node() else {
        return None;
    };
    if !is_quantifier(quantifier, name, v.ty()) {
        return None;
    }
    Some((v, body))
}

// Whether the term is the quantifier of the name over the type.
fn is_quantifier(term: &Term, name: &str, domain: &Ty) -> bool
    ensures { result ≡ is_constant name.now (quantifier_type domain.now) (nameless [] term.now) }
{
    match term.node() {
        TermNode::Const(own, ty) => own.as_str() == name && is_quantifier_type(ty, domain),
        TermNode::Var(_) => false,
        TermNode::Comb(..) => false,
        TermNode::Abs(..) => false,
    }
}
