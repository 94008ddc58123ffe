//! Whether what stands is the same: terms by their nameless terms, base names included, theorems by their bases too; expressions are apart.
ghost use Rattle.std.specs.Prelude.{◌≡◌, ◌↔◌, IsTrue, map};
ghost use Rattle.hol_kernel.specs.Sequent.{hyp_of};

use crate::same_expr::same_expr;
use crate::value::{Value, ValueNode};
use hol_kernel::{Basis, Item, Thm};
use hol_terms::Term;

impl Value {
    /// Whether both are the same: arities, types, items with the base names of their terms, theorems with their bases, expressions with their bases and with what
    /// each of their theorems rests on.
    pub fn same(&self, other: &Value) -> bool
        ensures { IsTrue result ↔ (self.now ≡ other.now) }
    {
        self.same_node(other) || self.has_same_parts(other)
    }

    // Whether the parts are the same, one by one.
    fn has_same_parts(&self, other: &Value) -> bool
        ensures { IsTrue result ↔ (self.now ≡ other.now) }
    {
        match (self.node(), other.node()) {
            (
                ValueNode::Type { arity, item, basis },
                ValueNode::Type {
                    arity: other_arity,
                    item: other_item,
                    basis: other_basis,
                },
            ) => *arity == *other_arity && same_item(item, basis, other_item, other_basis),
            (
                ValueNode::Constant { ty, item, basis },
                ValueNode::Constant {
                    ty: other_ty,
                    item: other_item,
                    basis: other_basis,
                },
            ) => ty.same(other_ty) && same_item(item, basis, other_item, other_basis),
            (ValueNode::Theorem(th), ValueNode::Theorem(other_th)) => same_theorem(th, other_th),
            (
                ValueNode::Tac { expr, bases, basis },
                ValueNode::Tac {
                    expr: other_expr,
                    bases: other_bases,
                    basis: other_basis,
                },
            ) => {
                same_expr(expr, other_expr)
                    && same_bases(bases, other_bases)
                    && same_basis(basis, other_basis)
            }
            (
                ValueNode::Type { .. },
                ValueNode::Constant { .. } | ValueNode::Theorem(_) | ValueNode::Tac { .. },
            )
            | (
                ValueNode::Constant { .. },
                ValueNode::Type { .. } | ValueNode::Theorem(_) | ValueNode::Tac { .. },
            )
            | (
                ValueNode::Theorem(_),
                ValueNode::Type { .. } | ValueNode::Constant { .. } | ValueNode::Tac { .. },
            )
            | (
                ValueNode::Tac { .. },
                ValueNode::Type { .. } | ValueNode::Constant { .. } | ValueNode::Theorem(_),
            ) => false,
        }
    }
}

// Whether the items and their bases are the same.
fn same_item(item: &Item, basis: &Basis, other_item: &Item, other_basis: &Basis) -> bool
    ensures { IsTrue result ↔ ((item.now ≡ other_item.now) × (basis.now ≡ other_basis.now)) }
{
    item.same(other_item) && same_basis(basis, other_basis)
}

/// Whether the bases have the same items.
#[tactic(auto, using(crate::proofs::Comparing::same_bases))]
pub fn same_basis(left: &Basis, right: &Basis) -> bool
    ensures { IsTrue result ↔ (left.now ≡ right.now) }
{
    same_items(left.items(), right.items())
}

// Whether the lists have the same bases in the same order.
fn same_bases(left: &[Basis], right: &[Basis]) -> bool
    ensures { IsTrue result ↔ (left.now ≡ right.now) }
{
    if left.len() != right.len() {
        return false;
    }
    for (i, basis) in left.iter().enumerate() {
        if !same_basis(basis, &right[i]) {
            return false;
        }
    }
    true
}

// Whether the lists have the same items in the same order.
fn same_items(left: &[Item], right: &[Item]) -> bool
    ensures { IsTrue result ↔ (left.now ≡ right.now) }
{
    if left.len() != right.len() {
        return false;
    }
    for (i, x) in left.iter().enumerate() {
        if !x.same(&right[i]) {
            return false;
        }
    }
    true
}

/// Whether the theorems are the same, with their bases.
pub(crate) fn same_theorem(left: &Thm, right: &Thm) -> bool
    ensures { IsTrue result ↔ (left.now ≡ right.now) }
{
    left.concl().same(right.concl())
        && same_hyps(left, right)
        && same_basis(left.basis(), right.basis())
}

// Whether the theorems have the same hypotheses, up to bound names.
fn same_hyps(left: &Thm, right: &Thm) -> bool
    ensures { IsTrue result ↔ (left.now.sequent.hyps ≡ right.now.sequent.hyps) }
{
    alpha_equivalent_terms(left.hyps(), right.hyps())
}

// Whether the terms are equal up to bound names, one by one.
fn alpha_equivalent_terms(left: &[Term], right: &[Term]) -> bool
    ensures { IsTrue result ↔ (map hyp_of left.now ≡ map hyp_of right.now) }
{
    if left.len() != right.len() {
        return false;
    }
    for (i, t) in left.iter().enumerate() {
        if !t.alpha_equivalent(&right[i]) {
            return false;
        }
    }
    true
}
