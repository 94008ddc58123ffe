//! The order of terms up to the names of bound variables.
ghost use Rattle.std.specs.Prelude.{◌≡◌, ◌↔◌, [], IsTrue};
ghost use Rattle.std.specs.declared.cmp.Ordering.TheVariants.{Equal};
ghost use Rattle.hol_terms.specs.Nameless.{nameless};
ghost use Rattle.hol_terms.specs.Alpha.{strip, alpha_eq};
ghost use Rattle.hol_terms.specs.Scope.{binders};
ghost use Rattle.hol_terms.specs.Scoped.{AgreeBut};
ghost use Rattle.hol_subst.specs.AlphaOrder.{alpha_cmp};
ghost use Rattle.hol_subst.specs.Ordered.{variable_cmp, place_cmp, named_cmp};

use hol_terms::{Scope, Term, TermNode, Variable, with_binders};
use hol_types::NameFilter;
use std::cmp::Ordering;

/// The order of terms up to the names of bound variables: constants, then bound variables, free variables, applications and
/// abstractions, and within a kind the parts from the left. It is total (`laws::alpha_order_is_total`) and ties just at alpha equivalence.
///
/// Takes no memory. Both are walked up to the first difference, but for parts where both have one node under binders that give it one
/// meaning.
#[tactic(auto, using(crate::proofs::AlphaOrder::alpha_orders, hol_terms::proofs::SameNode::agree_outside))]
pub fn alpha_order(s: &Term, t: &Term) -> Ordering
    ensures order { result ≡ alpha_cmp (nameless [] s.now) (nameless [] t.now) }
    ensures tie { (result ≡ Equal) ↔ (strip (nameless [] s.now) ≡ strip (nameless [] t.now)) }
{
    let none = NameFilter::empty();
    order_under(s, &Scope::Outside, t, &Scope::Outside, none)
}

/// Whether the terms are alpha equivalent: equal as nameless terms where base names are left out.
///
/// Takes no memory, and no more time than [`Term::alpha_equivalent`].
pub fn aconv(s: &Term, t: &Term) -> bool
    ensures test { result ≡ alpha_eq (nameless [] s.now) (nameless [] t.now) }
    ensures equal { IsTrue result ↔ (strip (nameless [] s.now) ≡ strip (nameless [] t.now)) }
{
    s.alpha_equivalent(t)
}

// The order of the terms under their binders, of which those that differ have names among `apart`.
#[tactic(auto, using(crate::proofs::SameOrder::order_alike, hol_terms::proofs::SameNode::agree_inside))]
fn order_under(s: &Term, left: &Scope, t: &Term, right: &Scope, apart: NameFilter) -> Ordering
    requires { AgreeBut apart.bits (binders left.now) (binders right.now) }
    ensures { result ≡ named_cmp (binders left.now) s.now (binders right.now) t.now }
{
    if !s.filter().meets(apart) && s.same_node(t) {
        return Ordering::Equal;
    }
    match (s.node(), t.node()) {
        (TermNode::Const(c, s), TermNode::Const(d, t)) => c.order(d).then_with(|| s.order(t)),
        (TermNode::Const(_, _), _) => Ordering::Less,
        (_, TermNode::Const(_, _)) => Ordering::Greater,
        (TermNode::Var(v), TermNode::Var(w)) => place_order(left, v, right, w),
        (TermNode::Var(_), _) => Ordering::Less,
        (_, TermNode::Var(_)) => Ordering::Greater,
        (TermNode::Comb(f, x), TermNode::Comb(g, y)) => {
            match order_under(f, left, g, right, apart) {
                Ordering::Equal => order_under(x, left, y, right, apart),
                unequal => unequal,
            }
        }
        (TermNode::Comb(_, _), TermNode::Abs(_, _)) => Ordering::Less,
        (TermNode::Abs(_, _), TermNode::Comb(_, _)) => Ordering::Greater,
        (TermNode::Abs(v, b), TermNode::Abs(w, c)) => match v.ty().order(w.ty()) {
            Ordering::Equal => {
                let inside = with_binders(apart, v, w);
                let left = &Scope::Inside(v, &*left);
                let right = &Scope::Inside(w, &*right);
                order_under(b, left, c, right, inside)
            }
            unequal => unequal,
        },
    }
}

// The order of what the variables stand for under their binders: the innermost first, and free variables last.
fn place_order(left: &Scope, v: &Variable, right: &Scope, w: &Variable) -> Ordering
    ensures { result ≡ place_cmp (binders left.now) v.now (binders right.now) w.now }
{
    match (left, right) {
        (Scope::Outside, Scope::Outside) => v
            .name()
            .order(w.name())
            .then_with(|| v.ty().order(w.ty())),
        (Scope::Outside, Scope::Inside(_, _)) => Ordering::Less,
        (Scope::Inside(_, _), Scope::Outside) => Ordering::Greater,
        (Scope::Inside(l, left), Scope::Inside(r, right)) => match (l.same(v), r.same(w)) {
            (true, true) => Ordering::Equal,
            (true, false) => Ordering::Less,
            (false, true) => Ordering::Greater,
            (false, false) => place_order(left, v, right, w),
        },
    }
}
