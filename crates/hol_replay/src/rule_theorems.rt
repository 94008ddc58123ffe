//! The theorems of rules.
ghost use Rattle.std.specs.Prelude.{◌≡◌, IfOk, IsSome, IsTrue};
ghost use Rattle.hol_kernel.specs.Given.{given_sequent};
ghost use Rattle.hol_kernel.specs.Theorem.{theorem_on};
ghost use Rattle.hol_match.specs.Rules.{generalized};
ghost use Rattle.hol_match.specs.Givens.{holds_given};
ghost use Rattle.hol_match.specs.SetView.{set_rule, set_given, set_single};
ghost use Rattle.hol_match.specs.Ways.{stepped, way};
ghost use Rattle.hol_match.specs.declared.rule_step.RuleStep.TheVariants.{At};
ghost use Rattle.hol_replay.specs.RuleTheorems.{IsRuleTheorem};
ghost use Rattle.hol_replay.specs.RuleSteps.{IsSame, IsStepped, IsFollowed, AreGeneral, IsEquation, is_taken};

use hol_derived::applied;
use hol_equal::applied::{sides_of, unrefused};
use hol_formulas::{dest_neg, occurrence};
use hol_kernel::{Basis, Given, Thm};
use hol_match::{RuleStep, SetRule, Way, WayNode};
use hol_terms::Variable;
use std::alloc::{AllocError, Global};

/// `|- l = r` for the rule of `l` to `r`, under the hypotheses of its theorem, over the basis.
///
/// The general theorems are those over the basis. The basis has to contain that of the theorem, and an assumed term has to be well typed over it. One rule of the logic for each variable
/// of the theorem that may be instantiated, and for each quantifier and conjunction above the rule.
pub fn rule_theorem(alloc: Global, basis: &Basis, rule: &SetRule) -> Result<Thm, AllocError>
    requires { IsTrue (holds_given (set_given rule.now) basis.now) }
    ensures { IfOk result (λ th. IsRuleTheorem basis.now rule.now th) }
{
    rule.sound();
    let given = given_theorem(alloc, basis, rule.given())?;
    given.well_typed();
    let whole = generalized(alloc, rule.variables(), &given)?;
    let part = followed(alloc, rule.way(), &whole)?;
    as_equation(alloc, rule, &part)
}

// The theorem over the basis, or the assumption of the term.
#[tactic(auto, using(crate::proofs::RuleTheorems::reading))]
fn given_theorem(alloc: Global, basis: &Basis, given: &Given) -> Result<Thm, AllocError>
    requires { IsTrue (holds_given given.now basis.now) }
    ensures { IfOk result (λ th. th ≡ theorem_on basis.now (given_sequent given.now)) }
{
    unrefused(given.over(alloc, basis))
}

// The theorem, generalized over each of the variables in turn.
#[tactic(auto, using(crate::proofs::RuleTheorems::generalizing))]
fn generalized(alloc: Global, variables: &[Variable], th: &Thm) -> Result<Thm, AllocError>
    requires { AreGeneral th.now.basis th.now.sequent.hyps variables.now }
    ensures { IfOk result (λ r. IsSame (generalized variables.now th.now.sequent.concl) th.now r) }
{
    let mut whole = th.copy()?;
    for v in variables {
        whole = applied::for_each(alloc, v, &whole)?;
    }
    Ok(whole)
}

// The theorem after all steps.
#[tactic(auto, using(crate::proofs::RuleTheorems::following))]
fn followed(alloc: Global, steps: &Way, th: &Thm) -> Result<Thm, AllocError>
    requires { IsSome (way steps.now th.now.sequent.concl) }
    ensures { IfOk result (λ r. IsFollowed steps.now th.now r) }
{
    match steps.node() {
        WayNode::Start => th.copy(),
        WayNode::After(before, last) => {
            let part = followed(alloc, before, th)?;
            stepped(alloc, last, &part)
        }
    }
}

// The theorem after the step.
#[tactic(auto, using(crate::proofs::RuleTheorems::stepping))]
fn stepped(alloc: Global, step: &RuleStep, th: &Thm) -> Result<Thm, AllocError>
    requires { IsSome (stepped step.now th.now.sequent.concl) }
    ensures { IfOk result (λ r. IsStepped step.now th.now r) }
{
    match step {
        RuleStep::At(v) => at_variable(alloc, v, th),
        RuleStep::First => applied::conjunct1(th),
        RuleStep::Second => applied::conjunct2(th),
    }
}

// The theorem's body at the variable.
#[tactic(auto, using(crate::proofs::RuleTheorems::specializing))]
fn at_variable(alloc: Global, v: &Variable, th: &Thm) -> Result<Thm, AllocError>
    requires { IsSome (stepped (At v.now) th.now.sequent.concl) }
    ensures { IfOk result (λ r. IsStepped (At v.now) th.now r) }
{
    th.well_typed();
    let own = occurrence(alloc, v)?;
    applied::specialize(alloc, &own, th)
}

// The equation of the rule of a theorem that has this one alone.
#[tactic(auto, using(crate::proofs::RuleTheorems::ending))]
fn as_equation(alloc: Global, rule: &SetRule, th: &Thm) -> Result<Thm, AllocError>
    requires { set_single rule.now th.now.sequent.concl ≡ (set_rule rule.now).rule }
    ensures { IfOk result (λ r. IsEquation (set_rule rule.now).rule th.now r) }
{
    if is_taken(alloc, rule, th)? {
        return th.copy();
    }
    match dest_neg(th.concl()) {
        Some(_) => applied::eqf_intro(alloc, th),
        None => applied::eqt_intro(alloc, th),
    }
}

// Whether the rule of the theorem is its equation.
#[tactic(auto, using(crate::proofs::RuleTheorems::taking))]
fn is_taken(alloc: Global, rule: &SetRule, th: &Thm) -> Result<bool, AllocError>
    ensures { IfOk result (λ b. b ≡ is_taken rule.now.source.value.fixed.names.items rule.now.source.value.fixed.variables.items th.now.sequent.concl) }
{
    match sides_of(th) {
        Some(sides) => rule.takes(alloc, sides.left, sides.right),
        None => Ok(false),
    }
}
