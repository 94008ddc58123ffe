//! The step that matches the conclusion.
ghost use Rattle.std.specs.Prelude.{◌≡◌, ◌∷◌, ◌++◌, ℕ, true, false, List, [], map, drop, length, IfOk, IfSome, OnOk, IsTrue, MatchOption, Some, None};
ghost use Rattle.std.specs.Option.{option_map};
ghost use Rattle.std.specs.FinSet as set;
ghost use Rattle.hol_types.specs.Tree.{TypeTree};
ghost use Rattle.hol_terms.specs.Named.{named_type};
ghost use Rattle.hol_terms.specs.Nameless.{nameless};
ghost use Rattle.hol_terms.specs.Scoped.{binds};
ghost use Rattle.hol_subst.specs.FreeName.{is_taken};
ghost use Rattle.hol_subst.specs.Substitution.{variable_inst};
ghost use Rattle.hol_formulas.specs.Equation.{bool_type};
ghost use Rattle.hol_formulas.specs.Formula.{dest_forall};
ghost use Rattle.hol_kernel.specs.Given.{given_sequent};
ghost use Rattle.hol_match.specs.Instance.{instantiated};
ghost use Rattle.hol_match.specs.Fixed.{stays_of};
ghost use Rattle.hol_match.specs.Matches as matches;
ghost use Rattle.hol_match.specs.Matching.{matched};
ghost use Rattle.hol_match.specs.Patterns.{is_apart};
ghost use Rattle.hol_goal.specs.Arguments.{Theorem};
ghost use Rattle.hol_just.specs.Leaving.{concluding};
ghost use Rattle.hol_just.specs.MatchMp.{own_variables, generalized_concl, opened, undetermined, left_open, completed, existentials, premise_at, match_mp_tac};
ghost use Rattle.hol_just.specs.QuantifierTacs.{terms_by};
ghost use Rattle.hol_just.specs.Answering.{IsJustified};
ghost use Rattle.hol_steps.specs.Matching.{IsFound, LeavesByGeneral};

use crate::generalizing::{generalized, opened_apart, universals};
use crate::keeping::{completed, is_undetermined};
use crate::opening::Opened;
use crate::steps::leaving_one;
use hol_formulas::{dest_imp, mk_exists};
use hol_goal::Goal;
use hol_just::{Just, Step};
use hol_kernel::Given;
use hol_match::{Instance, conclusion_typed, pattern_variables, term_match};
use hol_terms::{Term, Variable};
use std::alloc::{AllocError, Global};

/// The step to the premise at the match, where the theorem is an implication under its outer quantifiers and matches.
pub fn match_mp_step(alloc: Global, th: &Given, goal: &Goal) -> Result<Option<Step>, AllocError>
    ensures goals { IfOk result (λ o. match_mp_tac th.now goal.now ≡ option_map (λ step. step.goals.items) o) }
    ensures valid { IfOk result (λ o. IfSome o (λ step. IsJustified (Theorem th.now) goal.now step)) }
{
    conclusion_typed(th);
    let own = own_variables(alloc, th)?;
    let opened = opened_apart(alloc, th, goal, &own)?;
    opened_step(alloc, th, goal, &own, &opened)
}

// The same step, by what stands under the outer quantifiers.
fn opened_step(
    alloc: Global,
    th: &Given,
    goal: &Goal,
    own: &[Variable],
    under: &Opened,
) -> Result<Option<Step>, AllocError>
    requires own { own.now ≡ own_variables th.now }
    requires opened { opened (terms_by th.now goal.now) (generalized_concl th.now) ≡ record { variables = under.now.variables.items; body = nameless [] under.now.body } }
    requires new { (v : List ℕ × TypeTree) → binds under.now.variables.items v ≡ true → is_taken (terms_by th.now goal.now) v.0 ≡ false }
    requires apart { is_apart (set.items (given_sequent th.now).hyps) (nameless [] under.now.body) ≡ true }
    requires typed { named_type under.now.body ≡ Some bool_type }
    requires last { dest_forall (nameless [] under.now.body) ≡ None }
    ensures goals { IfOk result (λ o. match_mp_tac th.now goal.now ≡ option_map (λ step. step.goals.items) o) }
    ensures valid { IfOk result (λ o. IfSome o (λ step. IsJustified (Theorem th.now) goal.now step)) }
{
    let Some((s, t)) = dest_imp(&under.body) else {
        return Ok(None);
    };
    let Some(found) = matching_instance(alloc, th, goal, t)? else {
        return Ok(None);
    };
    let step = premise_step(alloc, th, goal, own, under, s, t, found)?;
    Ok(Some(step))
}

// The theorem's own variables that may be instantiated.
fn own_variables(alloc: Global, th: &Given) -> Result<Vec<Variable>, AllocError>
    ensures { IfOk result (λ vs. vs.items ≡ own_variables th.now) }
{
    pattern_variables(alloc, th.hyps(), th.concl())
}

// The instance of the term that is the conclusion. What the theorem's hypotheses have stays.
fn matching_instance(
    alloc: Global,
    th: &Given,
    goal: &Goal,
    t: &Term,
) -> Result<Option<Instance>, AllocError>
    requires { IsTrue (is_apart (set.items (given_sequent th.now).hyps) (nameless [] t.now)) }
    ensures { IfOk result (λ o. MatchOption o (matched 0 (nameless [] t.now) (stays_of (set.items (given_sequent th.now).hyps)) goal.now.conclusion ≡ None) (λ f. IsFound th.now goal.now (nameless [] t.now) f)) }
{
    term_match(alloc, th.hyps(), t, goal.conclusion())
}

// The step to the premise `s` at the instance, for some values of the variables that `t` lacks.
fn premise_step(
    alloc: Global,
    th: &Given,
    goal: &Goal,
    own: &[Variable],
    opened: &Opened,
    s: &Term,
    t: &Term,
    found: Instance,
) -> Result<Step, AllocError>
    requires own { own.now ≡ own_variables th.now }
    requires premise { named_type s.now ≡ Some bool_type }
    requires body { named_type opened.now.body ≡ Some bool_type }
    requires last { dest_forall (nameless [] opened.now.body) ≡ None }
    requires instance { matches.IsWellTyped found }
    ensures goals { IfOk result (λ step. step.goals.items ≡ concluding goal.now (premise_at (set.items (given_sequent th.now).hyps) own.now opened.now.variables.items (nameless [] s.now, nameless [] t.now) found) ∷ []) }
    ensures just { IfOk result (λ step. LeavesByGeneral th.now opened.now.variables.items (left_open own.now opened.now.variables.items (nameless [] s.now, nameless [] t.now) found) (instantiated (completed (set.items (given_sequent th.now).hyps) own.now opened.now.variables.items (nameless [] s.now, nameless [] t.now) found) 0 (nameless [] s.now)) goal.now.conclusion step.just) }
{
    let variables = undetermined(alloc, after(own, &opened.variables), s, t, &found)?;
    let premise = premise_of(alloc, th, own, opened, s, t, &variables, found)?;
    leaving_premise(alloc, th, goal, own, opened, &variables, &premise)
}

// The premise `s` at the instance, where the variables are those that `t` lacks.
fn premise_of(
    alloc: Global,
    th: &Given,
    own: &[Variable],
    opened: &Opened,
    s: &Term,
    t: &Term,
    variables: &[Variable],
    found: Instance,
) -> Result<Term, AllocError>
    requires variables { variables.now ≡ left_open own.now opened.now.variables.items (nameless [] s.now, nameless [] t.now) found }
    requires premise { named_type s.now ≡ Some bool_type }
    requires instance { matches.IsWellTyped found }
    ensures is { IfOk result (λ p. nameless [] p ≡ instantiated (completed (set.items (given_sequent th.now).hyps) own.now opened.now.variables.items (nameless [] s.now, nameless [] t.now) found) 0 (nameless [] s.now)) }
    ensures typed { IfOk result (λ p. named_type p ≡ Some bool_type) }
{
    let whole = completed(alloc, th, own, &opened.variables, s, t, variables, found)?;
    at_instance(alloc, &whole, s)
}

// The step to the premise, for some values of the variables.
fn leaving_premise(
    alloc: Global,
    th: &Given,
    goal: &Goal,
    own: &[Variable],
    opened: &Opened,
    variables: &[Variable],
    premise: &Term,
) -> Result<Step, AllocError>
    requires own { own.now ≡ own_variables th.now }
    requires premise { named_type premise.now ≡ Some bool_type }
    requires body { named_type opened.now.body ≡ Some bool_type }
    requires last { dest_forall (nameless [] opened.now.body) ≡ None }
    ensures goals { IfOk result (λ step. step.goals.items ≡ concluding goal.now (existentials variables.now (nameless [] premise.now)) ∷ []) }
    ensures just { IfOk result (λ step. LeavesByGeneral th.now opened.now.variables.items variables.now (nameless [] premise.now) goal.now.conclusion step.just) }
{
    let just = leaving_by(alloc, th, goal, own, opened, variables, premise)?;
    let left = premise_goal(alloc, goal, variables, premise)?;
    leaving_one(alloc, left, just)
}

// The goal whose conclusion is that the premise holds for some values of the variables.
fn premise_goal(
    alloc: Global,
    goal: &Goal,
    variables: &[Variable],
    premise: &Term,
) -> Result<Goal, AllocError>
    requires { named_type premise.now ≡ Some bool_type }
    ensures { IfOk result (λ g. g ≡ concluding goal.now (existentials variables.now (nameless [] premise.now))) }
{
    let whole = existentials(alloc, variables, premise)?;
    goal.with_conclusion(alloc, &whole)
}

// Why that goal is left: by the theorem, generalized over its own variables.
fn leaving_by(
    alloc: Global,
    th: &Given,
    goal: &Goal,
    own: &[Variable],
    opened: &Opened,
    variables: &[Variable],
    premise: &Term,
) -> Result<Just, AllocError>
    requires own { own.now ≡ own_variables th.now }
    requires premise { named_type premise.now ≡ Some bool_type }
    requires body { named_type opened.now.body ≡ Some bool_type }
    requires last { dest_forall (nameless [] opened.now.body) ≡ None }
    ensures { IfOk result (λ just. LeavesByGeneral th.now opened.now.variables.items variables.now (nameless [] premise.now) goal.now.conclusion just) }
{
    let formula = universals(alloc, &opened.variables, &opened.body)?;
    let general = generalized(alloc, th, own)?;
    conclusion_typed(&general);
    let just = Just::match_mp_tac(
        alloc,
        &general,
        &formula,
        variables,
        premise,
        goal.conclusion(),
    );
    drop(general);
    just
}

// Those of the variables that come after as many as these.
fn after<'a>(own: &[Variable], variables: &'a [Variable]) -> &'a [Variable]
    ensures { result.now ≡ drop (length own.now) variables.now }
{
    let mut own = own;
    let mut rest = variables;
    'own: while let Some((_, vs)) = own.split_first() {
        let Some((_, us)) = rest.split_first() else {
            return rest;
        };
        own = vs;
        rest = us;
    }
    rest
}

// The formula at the instance.
fn at_instance(alloc: Global, found: &Instance, s: &Term) -> Result<Term, AllocError>
    requires premise { named_type s.now ≡ Some bool_type }
    requires instance { matches.IsWellTyped found.now }
    ensures is { IfOk result (λ p. nameless [] p ≡ instantiated found.now 0 (nameless [] s.now)) }
    ensures typed { IfOk result (λ p. named_type p ≡ Some bool_type) }
{
    found.apply(alloc, s)
}

// Those of the variables that `s` has and `t` lacks, of the types that they have at the instance.
fn undetermined(
    alloc: Global,
    variables: &[Variable],
    s: &Term,
    t: &Term,
    found: &Instance,
) -> Result<Vec<Variable>, AllocError>
    ensures { IfOk result (λ rest. rest.items ≡ map (variable_inst found.now.types) (undetermined (nameless [] s.now) (nameless [] t.now) variables.now)) }
{
    let mut rest = Vec::new(alloc);
    for v in variables {
        add_undetermined(alloc, &mut rest, v, s, t, found)?;
    }
    Ok(rest)
}

// Puts the variable at the end, of the type that it has at the instance, where `s` has it and `t` lacks it.
fn add_undetermined(
    alloc: Global,
    rest: &mut Vec<Variable>,
    v: &Variable,
    s: &Term,
    t: &Term,
    found: &Instance,
) -> Result<(), AllocError>
    ensures { OnOk result (rest.new.items ≡ rest.old.items ++ map (variable_inst found.now.types) (undetermined (nameless [] s.now) (nameless [] t.now) (v.now ∷ []))) }
{
    if !is_undetermined(s, t, v) {
        return Ok(());
    }
    let ty = v.ty().subst(alloc, found.types())?;
    let own = Variable::new(v.name(), &ty)?;
    rest.push(own)?;
    Ok(())
}

// That p holds for some values of the variables.
fn existentials(alloc: Global, variables: &[Variable], p: &Term) -> Result<Term, AllocError>
    requires { named_type p.now ≡ Some bool_type }
    ensures is { IfOk result (λ r. nameless [] r ≡ existentials variables.now (nameless [] p.now)) }
    ensures typed { IfOk result (λ r. named_type r ≡ Some bool_type) }
{
    let mut whole = p.copy()?;
    let mut left = variables;
    'variables: while let Some((v, outer)) = left.split_last() {
        whole = mk_exists(alloc, v, &whole)?;
        left = outer;
    }
    Ok(whole)
}
