//! Rules whose theorems are needed no more, and those of a node alone.
//!
//! What calls itself hands theorems over and up in boxes, and keeps no place for their parts on the stack.
ghost use Rattle.std.specs.Prelude.{◌≡◌, true, [], IfOk, IsSome, IsTrue, Some};
ghost use Rattle.hol_terms.specs.Named.{var, named_type};
ghost use Rattle.hol_terms.specs.Nameless.{nameless};
ghost use Rattle.hol_kernel.specs.NamedTyping.{is_known_named};
ghost use Rattle.hol_kernel.specs.Rules.{reflexive, trans_of, mk_comb_of, abs_of};
ghost use Rattle.hol_kernel.specs.Theorem.{theorem_on};
ghost use Rattle.hol_kernel.specs.Typing.{HasType};
ghost use Rattle.hol_equal.specs.Applied.{transitive, combined, abstracted, contraction};
ghost use Rattle.hol_equal.specs.Rules.{beta_conv_of};
ghost use Rattle.hol_match.specs.Contracta.{contracted};
ghost use Rattle.hol_match.specs.Givens.{holds_given};
ghost use Rattle.hol_match.specs.SetView.{set_rule, set_given};
ghost use Rattle.hol_replay.specs.RuleTheorems.{redex_equation};

use crate::redex_theorem::redex_theorem;
use hol_derived::applied;
use hol_equal::applied::{abs, beta_conv, mk_comb, refl, trans};
use hol_kernel::{Basis, Thm};
use hol_match::SetRule;
use hol_terms::{Term, Variable};
use hol_types::Ty;
use std::alloc::{AllocError, Global};

/// MK_COMB.
#[inline(never)]
pub(crate) fn in_application(
    alloc: Global,
    a: Box<Thm>,
    b: Box<Thm>,
) -> Result<Box<Thm>, AllocError>
    requires one_basis { a.value.basis ≡ b.value.basis }
    requires applies { mk_comb_of a.value.sequent b.value.sequent ≡ Some (combined a.value.sequent b.value.sequent) }
    ensures { IfOk result (λ th. th.value ≡ theorem_on a.value.basis (combined a.value.sequent b.value.sequent)) }
{
    boxed(alloc, mk_comb(alloc, &*a, &*b)?)
}

/// ABS.
#[inline(never)]
pub(crate) fn in_abstraction(
    alloc: Global,
    v: &Variable,
    a: Box<Thm>,
) -> Result<Box<Thm>, AllocError>
    requires applies { abs_of a.value.basis (var v.now) a.value.sequent ≡ Some (abstracted v.now a.value.sequent) }
    ensures { IfOk result (λ th. th.value ≡ theorem_on a.value.basis (abstracted v.now a.value.sequent)) }
{
    boxed(alloc, abs(alloc, v, &*a)?)
}

/// TRANS.
#[inline(never)]
pub(crate) fn one_after_other(
    alloc: Global,
    a: Box<Thm>,
    b: Box<Thm>,
) -> Result<Box<Thm>, AllocError>
    requires one_basis { a.value.basis ≡ b.value.basis }
    requires applies { trans_of a.value.sequent b.value.sequent ≡ Some (transitive a.value.sequent b.value.sequent) }
    ensures { IfOk result (λ th. th.value ≡ theorem_on a.value.basis (transitive a.value.sequent b.value.sequent)) }
{
    boxed(alloc, trans(alloc, &*a, &*b)?)
}

/// REFL.
#[inline(never)]
pub(crate) fn unchanged(
    alloc: Global,
    basis: &Basis,
    ty: &Ty,
    t: &Term,
) -> Result<Box<Thm>, AllocError>
    requires typed { HasType basis.now (nameless [] t.now) ty.now }
    ensures { IfOk result (λ th. th.value ≡ theorem_on basis.now (reflexive (nameless [] t.now) ty.now)) }
{
    boxed(alloc, refl(alloc, basis, ty, t)?)
}

/// BETA_CONV.
#[inline(never)]
pub(crate) fn reduced(
    alloc: Global,
    basis: &Basis,
    ty: &Ty,
    redex: &Term,
) -> Result<Box<Thm>, AllocError>
    requires typed { HasType basis.now (nameless [] redex.now) ty.now }
    requires applies { beta_conv_of basis.now (nameless [] redex.now) ≡ Some (contraction ty.now (nameless [] redex.now)) }
    ensures { IfOk result (λ th. th.value ≡ theorem_on basis.now (contraction ty.now (nameless [] redex.now))) }
{
    boxed(alloc, beta_conv(alloc, basis, ty, redex)?)
}

/// The theorem of a redex of the rule, as [`redex_theorem`] makes it.
#[inline(never)]
pub(crate) fn replaced(
    alloc: Global,
    basis: &Basis,
    rule: &SetRule,
    ty: &Ty,
    t: &Term,
) -> Result<Box<Thm>, AllocError>
    requires read { IsTrue (holds_given (set_given rule.now) basis.now) }
    requires known { is_known_named basis.now t.now ≡ true }
    requires typed { named_type t.now ≡ Some ty.now }
    requires matches { IsSome (contracted [] (set_rule rule.now) (nameless [] t.now)) }
    ensures { IfOk result (λ th. redex_equation basis.now ty.now rule.now (nameless [] t.now) ≡ Some th.value) }
{
    boxed(alloc, redex_theorem(alloc, basis, rule, ty, t)?)
}

// The theorem in a box.
fn boxed(alloc: Global, th: Thm) -> Result<Box<Thm>, AllocError>
    ensures { IfOk result (λ b. b.value ≡ th) }
{
    Ok(Box::new(alloc, th)?)
}
