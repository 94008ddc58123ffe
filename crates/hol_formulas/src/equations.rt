//! Equations (basics.ml, mk_eq, dest_eq, is_eq; bool.ml, mk_iff).
ghost use Rattle.std.specs.Prelude.{◌≡◌, IfOk, IfSome, IsTrue, MatchOption, Some, None, [], codes};
ghost use Rattle.hol_terms.specs.Named.{comb, constant, named_type};
ghost use Rattle.hol_terms.specs.Nameless.{nameless};
ghost use Rattle.hol_formulas.specs.Equation.{bool_type, equality_type, mk_eq, dest_eq, is_eq};
ghost use Rattle.hol_formulas.specs.Making.{mk_iff};

use crate::equality::Equality;
use crate::types::{bool_type, is_property_type};
use hol_terms::{Term, TermNode};
use hol_types::{KnownName, Ty};
use std::alloc::{AllocError, Global};

/// `left = right`, for two terms of the type.
pub fn mk_eq(alloc: Global, ty: &Ty, left: &Term, right: &Term) -> Result<Term, AllocError>
    requires left { named_type left.now ≡ Some ty.now }
    requires right { named_type right.now ≡ Some ty.now }
    ensures is { IfOk result (λ t. t ≡ mk_eq ty.now left.now right.now) }
    ensures typed { IfOk result (λ t. named_type t ≡ Some bool_type) }
{
    let equality = Equality::at(alloc, ty)?;
    equality.between(alloc, left, right)
}

/// `p <=> q`: the equation of two terms of type `bool`.
pub(crate) fn mk_iff(alloc: Global, p: &Term, q: &Term) -> Result<Term, AllocError>
    requires first { named_type p.now ≡ Some bool_type }
    requires second { named_type q.now ≡ Some bool_type }
    ensures is { IfOk result (λ t. t ≡ mk_iff p.now q.now) }
    ensures typed { IfOk result (λ t. named_type t ≡ Some bool_type) }
{
    let ty = bool_type(alloc)?;
    mk_eq(alloc, &ty, p, q)
}

/// The sides of an equation and their type, and what it is made with.
#[derive(Clone, Copy)]
pub struct Sides<'a> {
    /// The type of both sides.
    pub ty: &'a Ty,
    /// The left side.
    pub left: &'a Term,
    /// The right side.
    pub right: &'a Term,
    /// `=` between terms of the type.
    pub sign: &'a Term,
    /// `=` with the left side.
    pub half: &'a Term,
}

/// The sides of the term, and `None` where it is no equation.
#[tactic(auto, using(crate::proofs::TakingApart::sides_found))]
pub fn dest_eq(term: &Term) -> Option<Sides<'_>>
    ensures sides { MatchOption result (dest_eq (nameless [] term.now) ≡ None) (λ x. dest_eq (nameless [] term.now) ≡ Some (record { sides_type = x.ty.now; left = nameless [] x.left.now; right = nameless [] x.right.now })) }
    ensures left { IfSome result (λ x. named_type x.left.now ≡ Some x.ty.now) }
    ensures right { IfSome result (λ x. named_type x.right.now ≡ Some x.ty.now) }
    ensures sign { IfSome result (λ x. x.sign.now ≡ constant (codes "=") (equality_type x.ty.now)) }
    ensures half { IfSome result (λ x. x.half.now ≡ comb (constant (codes "=") (equality_type x.ty.now)) x.left.now) }
{
    let _ty = term.type_of();
    let TermNode::Comb(half, right) = term.node() else {
        return None;
    };
    let TermNode::Comb(sign, left) = half.node() else {
        return None;
    };
    let TermNode::Const(name, ty) = sign.node() else {
        return None;
    };
    let (domain, property) = ty.dest_fun()?;
    if !name.is(KnownName::Equality) || !is_property_type(property, domain) {
        return None;
    }
    Some(Sides {
        ty: domain,
        left,
        right,
        sign,
        half,
    })
}

/// The equation of the left side of one with another term of its type. It shares `=` with the left side.
#[tactic(auto, using(crate::proofs::PartTypes::applications, crate::proofs::Signs::half_typed))]
pub fn mk_eq_from(alloc: Global, x: Sides<'_>, right: &Term) -> Result<Term, AllocError>
    requires half { x.half.now ≡ comb (constant (codes "=") (equality_type x.ty.now)) x.left.now }
    requires left { named_type x.left.now ≡ Some x.ty.now }
    requires right { named_type right.now ≡ Some x.ty.now }
    ensures is { IfOk result (λ t. t ≡ mk_eq x.entry.ty.now x.entry.left.now right.now) }
    ensures typed { IfOk result (λ t. named_type t ≡ Some bool_type) }
{
    Term::application(alloc, x.half, right)
}

/// Whether the term is an equation.
pub fn is_eq(term: &Term) -> bool
    ensures { result ≡ is_eq (nameless [] term.now) }
{
    dest_eq(term).is_some()
}
