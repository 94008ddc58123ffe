//! Truth values and connectives (bool.ml).
ghost use Rattle.std.specs.Prelude.{◌≡◌, IfOk, IfSome, MatchOption, Some, None, [], codes};
ghost use Rattle.hol_terms.specs.Named.{comb, named_type};
ghost use Rattle.hol_terms.specs.Nameless.{nameless};
ghost use Rattle.hol_formulas.specs.Equation.{bool_type};
ghost use Rattle.hol_formulas.specs.Formula.{connective_type, negation_type, is_constant, is_truth, is_falsity, dest_binary, dest_conj, dest_disj, dest_imp, dest_neg, is_conj, is_disj, is_imp, is_neg};
ghost use Rattle.hol_formulas.specs.Making.{mk_truth, mk_falsity, mk_binary, mk_conj, mk_disj, mk_imp, mk_neg};

use crate::terms::constant_named;
use crate::types::{
    bool_type, connective_type, is_bool, is_connective_type, is_negation_type, negation_type,
};
use hol_terms::{Term, TermNode};
use std::alloc::{AllocError, Global};

/// `T`.
pub fn mk_truth(alloc: Global) -> Result<Term, AllocError>
    ensures is { IfOk result (λ t. t ≡ mk_truth) }
    ensures typed { IfOk result (λ t. named_type t ≡ Some bool_type) }
{
    let ty = bool_type(alloc)?;
    constant_named(alloc, "T", &ty)
}

/// `F`.
pub fn mk_falsity(alloc: Global) -> Result<Term, AllocError>
    ensures is { IfOk result (λ t. t ≡ mk_falsity) }
    ensures typed { IfOk result (λ t. named_type t ≡ Some bool_type) }
{
    let ty = bool_type(alloc)?;
    constant_named(alloc, "F", &ty)
}

/// Whether the term is `T`.
pub fn is_truth(term: &Term) -> bool
    ensures { result ≡ is_truth (nameless [] term.now) }
{
    is_truth_value(term, "T")
}

/// Whether the term is `F`.
pub fn is_falsity(term: &Term) -> bool
    ensures { result ≡ is_falsity (nameless [] term.now) }
{
    is_truth_value(term, "F")
}

/// `p /\ q`, for two terms of type `bool`.
pub fn mk_conj(alloc: Global, p: &Term, q: &Term) -> Result<Term, AllocError>
    requires first { named_type p.now ≡ Some bool_type }
    requires second { named_type q.now ≡ Some bool_type }
    ensures is { IfOk result (λ t. t ≡ mk_conj p.now q.now) }
    ensures typed { IfOk result (λ t. named_type t ≡ Some bool_type) }
{
    mk_binary(alloc, "/\\", p, q)
}

/// `p \/ q`, for two terms of type `bool`.
pub fn mk_disj(alloc: Global, p: &Term, q: &Term) -> Result<Term, AllocError>
    requires first { named_type p.now ≡ Some bool_type }
    requires second { named_type q.now ≡ Some bool_type }
    ensures is { IfOk result (λ t. t ≡ mk_disj p.now q.now) }
    ensures typed { IfOk result (λ t. named_type t ≡ Some bool_type) }
{
    mk_binary(alloc, "\\/", p, q)
}

/// `p ==> q`, for two terms of type `bool`.
pub fn mk_imp(alloc: Global, p: &Term, q: &Term) -> Result<Term, AllocError>
    requires first { named_type p.now ≡ Some bool_type }
    requires second { named_type q.now ≡ Some bool_type }
    ensures is { IfOk result (λ t. t ≡ mk_imp p.now q.now) }
    ensures typed { IfOk result (λ t. named_type t ≡ Some bool_type) }
{
    mk_binary(alloc, "==>", p, q)
}

/// `~p`, for a term of type `bool`.
#[tactic(auto, using(crate::proofs::PartTypes::applications))]
pub fn mk_neg(alloc: Global, p: &Term) -> Result<Term, AllocError>
    requires { named_type p.now ≡ Some bool_type }
    ensures is { IfOk result (λ t. t ≡ mk_neg p.now) }
    ensures typed { IfOk result (λ t. named_type t ≡ Some bool_type) }
{
    let ty = negation_type(alloc)?;
    let sign = constant_named(alloc, "~", &ty)?;
    Term::application(alloc, &sign, p)
}

/// `p` and `q` of `p /\ q`, and `None` of another term.
pub fn dest_conj(term: &Term) -> Option<(&Term, &Term)>
    ensures parts { MatchOption result (dest_conj (nameless [] term.now) ≡ None) (λ x. dest_conj (nameless [] term.now) ≡ Some (nameless [] x.0.now, nameless [] x.1.now)) }
    ensures first { IfSome result (λ x. named_type x.0.now ≡ Some bool_type) }
    ensures second { IfSome result (λ x. named_type x.1.now ≡ Some bool_type) }
{
    operands(term, "/\\")
}

/// `p` and `q` of `p \/ q`, and `None` of another term.
pub fn dest_disj(term: &Term) -> Option<(&Term, &Term)>
    ensures parts { MatchOption result (dest_disj (nameless [] term.now) ≡ None) (λ x. dest_disj (nameless [] term.now) ≡ Some (nameless [] x.0.now, nameless [] x.1.now)) }
    ensures first { IfSome result (λ x. named_type x.0.now ≡ Some bool_type) }
    ensures second { IfSome result (λ x. named_type x.1.now ≡ Some bool_type) }
{
    operands(term, "\\/")
}

/// `p` and `q` of `p ==> q`, and `None` of another term.
pub fn dest_imp(term: &Term) -> Option<(&Term, &Term)>
    ensures parts { MatchOption result (dest_imp (nameless [] term.now) ≡ None) (λ x. dest_imp (nameless [] term.now) ≡ Some (nameless [] x.0.now, nameless [] x.1.now)) }
    ensures first { IfSome result (λ x. named_type x.0.now ≡ Some bool_type) }
    ensures second { IfSome result (λ x. named_type x.1.now ≡ Some bool_type) }
{
    operands(term, "==>")
}

/// `p` of `~p`, and `None` of another term.
#[tactic(auto, using(crate::proofs::TakingApart::operands_found))]
pub fn dest_neg(term: &Term) -> Option<&Term>
    ensures part { MatchOption result (dest_neg (nameless [] term.now) ≡ None) (λ x. dest_neg (nameless [] term.now) ≡ Some (nameless [] x.now)) }
    ensures typed { IfSome result (λ x. named_type x.now ≡ Some bool_type) }
{
    let _ty = term.type_of();
    let TermNode::Comb(sign, p) = term.node() else {
        return None;
    };
    if !is_negation_sign(sign) {
        return None;
    }
    Some(p)
}

/// Whether the term is a conjunction.
pub fn is_conj(term: &Term) -> bool
    ensures { result ≡ is_conj (nameless [] term.now) }
{
    dest_conj(term).is_some()
}

/// Whether the term is a disjunction.
pub fn is_disj(term: &Term) -> bool
    ensures { result ≡ is_disj (nameless [] term.now) }
{
    dest_disj(term).is_some()
}

/// Whether the term is an implication.
pub fn is_imp(term: &Term) -> bool
    ensures { result ≡ is_imp (nameless [] term.now) }
{
    dest_imp(term).is_some()
}

/// Whether the term is a negation.
pub fn is_neg(term: &Term) -> bool
    ensures { result ≡ is_neg (nameless [] term.now) }
{
    dest_neg(term).is_some()
}

/// The application of a function of two truth values, whose values are truth values.
#[tactic(auto, using(crate::proofs::PartTypes::applications))]
pub fn applied_to_two(alloc: Global, f: &Term, p: &Term, q: &Term) -> Result<Term, AllocError>
    requires function { named_type f.now ≡ Some connective_type }
    requires first { named_type p.now ≡ Some bool_type }
    requires second { named_type q.now ≡ Some bool_type }
    ensures is { IfOk result (λ t. t ≡ comb (comb f.now p.now) q.now) }
    ensures typed { IfOk result (λ t. named_type t ≡ Some bool_type) }
{
    let one = Term::application(alloc, f, p)?;
    Term::application(alloc, &one, q)
}

/// The connective of the name between two terms of type `bool`.
pub(crate) fn mk_binary(alloc: Global, name: &str, p: &Term, q: &Term) -> Result<Term, AllocError>
    requires first { named_type p.now ≡ Some bool_type }
    requires second { named_type q.now ≡ Some bool_type }
    ensures is { IfOk result (λ t. t ≡ mk_binary name.now p.now q.now) }
    ensures typed { IfOk result (λ t. named_type t ≡ Some bool_type) }
{
    let ty = connective_type(alloc)?;
    let connective = constant_named(alloc, name, &ty)?;
    applied_to_two(alloc, &connective, p, q)
}

// What the connective of the name stands between.
#[tactic(auto, using(crate::proofs::TakingApart::operands_found))]
fn operands<'a>(term: &'a Term, name: &str) -> Option<(&'a Term, &'a Term)>
    ensures parts { MatchOption result (dest_binary name.now connective_type (nameless [] term.now) ≡ None) (λ x. dest_binary name.now connective_type (nameless [] term.now) ≡ Some (nameless [] x.0.now, nameless [] x.1.now)) }
    ensures first { IfSome result (λ x. named_type x.0.now ≡ Some bool_type) }
    ensures second { IfSome result (λ x. named_type x.1.now ≡ Some bool_type) }
{
    let _ty = term.type_of();
    let TermNode::Comb(applied, q) = term.node() else {
        return None;
    };
    let TermNode::Comb(connective, p) = applied.node() else {
        return None;
    };
    if !is_connective(connective, name) {
        return None;
    }
    Some((p, q))
}

// Whether the term is the truth value of the name.
fn is_truth_value(term: &Term, name: &str) -> bool
    ensures { result ≡ is_constant name.now bool_type (nameless [] term.now) }
{
    match term.node() {
        TermNode::Const(own, ty) => own.as_str() == name && is_bool(ty),
        TermNode::Var(_) => false,
        TermNode::Comb(..) => false,
        TermNode::Abs(..) => false,
    }
}

// Whether the term is the connective of the name.
fn is_connective(term: &Term, name: &str) -> bool
    ensures { result ≡ is_constant name.now connective_type (nameless [] term.now) }
{
    match term.node() {
        TermNode::Const(own, ty) => own.as_str() == name && is_connective_type(ty),
        TermNode::Var(_) => false,
        TermNode::Comb(..) => false,
        TermNode::Abs(..) => false,
    }
}

// Whether the term is `~`.
fn is_negation_sign(term: &Term) -> bool
    ensures { result ≡ is_constant (codes "~") negation_type (nameless [] term.now) }
{
    match term.node() {
        TermNode::Const(own, ty) => own.as_str() == "~" && is_negation_type(ty),
        TermNode::Var(_) => false,
        TermNode::Comb(..) => false,
        TermNode::Abs(..) => false,
    }
}
