//! The equation of a redex, by a rule.
ghost use Rattle.std.specs.Prelude.{◌≡◌, true, [], IfOk, IsSome, IsTrue, Some};
ghost use Rattle.hol_terms.specs.Named.{named_type};
ghost use Rattle.hol_terms.specs.Nameless.{nameless};
ghost use Rattle.hol_subst.specs.Substitution.{term_subst, types_inst};
ghost use Rattle.hol_kernel.specs.NamedTyping.{is_known_named};
ghost use Rattle.hol_kernel.specs.Rules.{sequent_image};
ghost use Rattle.hol_kernel.specs.Theorem.{theorem_on};
ghost use Rattle.hol_kernel.specs.Typing.{are_types_for};
ghost use Rattle.hol_match.specs.Contracta.{contracted};
ghost use Rattle.hol_match.specs.Givens.{holds_given};
ghost use Rattle.hol_match.specs.SetView.{set_rule, set_given};
ghost use Rattle.hol_replay.specs.RuleTheorems.{redex_equation};
ghost use Rattle.hol_match.specs.Standing.{TermsStand};

use crate::rule_theorems::rule_theorem;
use hol_derived::applied;
use hol_equal::applied::{refl, trans, unrefused};
use hol_kernel::{Basis, Thm};
use hol_match::{Instance, SetRule};
use hol_terms::Term;
use hol_types::Ty;
use std::alloc::{AllocError, Global};

/// `|- t = u` for a term `t` of the type that is well typed over the basis, and the `u` that the rule makes of it; under the hypotheses of
/// the rule's theorem.
#[tactic(auto, using(crate::proofs::Instances::redexes))]
pub(crate) fn redex_theorem(
    alloc: Global,
    basis: &Basis,
    rule: &SetRule,
    ty: &Ty,
    t: &Term,
) -> Result<Thm, AllocError>
    requires read { IsTrue (holds_given (set_given rule.now) basis.now) }
    requires known { is_known_named basis.now t.now ≡ true }
    requires typed { named_type t.now ≡ Some ty.now }
    requires matches { IsSome (contracted [] (set_rule rule.now) (nameless [] t.now)) }
    ensures { IfOk result (λ th. redex_equation basis.now ty.now rule.now (nameless [] t.now) ≡ Some th) }
{
    rule.sound();
    let general = rule_theorem(alloc, basis, rule)?;
    let Some(found) = rule.fit(alloc, t)? else {
        unreachable!()
    };
    let _hyps = rule.given().hyps();
    let own = at_instance(alloc, &found, &general)?;
    let same = refl(alloc, basis, ty, t)?;
    trans(alloc, &same, &own)
}

// The theorem at the instance (INST_TYPE, INST).
#[tactic(auto, using(crate::proofs::Instances::applying))]
fn at_instance(alloc: Global, a: &Instance, th: &Thm) -> Result<Thm, AllocError>
    requires types { are_types_for th.now.basis a.now.types ≡ true }
    requires terms { TermsStand th.now.basis a.now.terms }
    ensures { IfOk result (λ r. r ≡ theorem_on th.now.basis (sequent_image (term_subst a.now.terms 0) (sequent_image (types_inst a.now.types) th.now.sequent))) }
{
    let typed = unrefused(Thm::inst_type(alloc, a.types(), th))?;
    unrefused(Thm::inst(alloc, a.terms(), &typed))
}
