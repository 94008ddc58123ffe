//! A theorem, generalized over its own variables.
ghost use Rattle.std.specs.Prelude.{◌≡◌, ◌++◌, ℕ, List, [], map, false, true, IfOk};
ghost use Rattle.std.specs.FinSet as set;
ghost use Rattle.hol_types.specs.Tree.{TypeTree};
ghost use Rattle.hol_terms.specs.Named.{named_type};
ghost use Rattle.hol_terms.specs.Nameless.{nameless};
ghost use Rattle.hol_terms.specs.Scoped.{binds};
ghost use Rattle.hol_subst.specs.FreeName.{is_taken};
ghost use Rattle.hol_formulas.specs.Equation.{bool_type};
ghost use Rattle.hol_formulas.specs.Formula.{dest_forall};
ghost use Rattle.hol_kernel.specs.Given.{given_sequent};
ghost use Rattle.hol_kernel.specs.Sequent.{sequent_of};
ghost use Rattle.hol_kernel.specs.Theorem.{theorem_on};
ghost use Rattle.hol_match.specs.Patterns.{is_apart};
ghost use Rattle.hol_just.specs.Matching.{bound_variables};
ghost use Rattle.hol_just.specs.MatchMp.{universals, own_variables, generalized_concl, opened};
ghost use Rattle.hol_just.specs.QuantifierTacs.{terms_by};
ghost use Rattle.hol_steps.specs.Matching.{AreGeneral, IsGeneralized};

use crate::choosing::all_terms_by;
use crate::opening::Opened;
use hol_derived::applied::for_each;
use hol_formulas::mk_forall;
use hol_goal::Goal;
use hol_kernel::{Given, GivenNode, Thm};
use hol_terms::{Term, Variable};
use std::alloc::{AllocError, Global};

/// What stands under the outer quantifiers of the theorem's conclusion, generalized over its own variables. All that is bound is called
/// apart.
pub(crate) fn opened_apart(
    alloc: Global,
    th: &Given,
    goal: &Goal,
    own: &[Variable],
) -> Result<Opened, AllocError>
    requires { own.now ≡ own_variables th.now }
    ensures opened { IfOk result (λ o. opened (terms_by th.now goal.now) (generalized_concl th.now) ≡ record { variables = o.variables.items; body = nameless [] o.body }) }
    ensures new { IfOk result (λ o. (v : List ℕ × TypeTree) → binds o.variables.items v ≡ true → is_taken (terms_by th.now goal.now) v.0 ≡ false) }
    ensures apart { IfOk result (λ o. is_apart (set.items (given_sequent th.now).hyps) (nameless [] o.body) ≡ true) }
    ensures typed { IfOk result (λ o. named_type o.body ≡ Some bool_type) }
    ensures last { IfOk result (λ o. dest_forall (nameless [] o.body) ≡ None) }
{
    let whole = universals(alloc, own, th.concl())?;
    Opened::of(alloc, all_terms_by(alloc, th, goal)?, &whole)
}

/// The formula for all values of the variables.
pub(crate) fn universals(
    alloc: Global,
    variables: &[Variable],
    p: &Term,
) -> Result<Term, AllocError>
    requires { named_type p.now ≡ Some bool_type }
    ensures bound { IfOk result (λ r. bound_variables r ≡ variables.now ++ bound_variables p.now) }
    ensures is { IfOk result (λ r. nameless [] r ≡ universals variables.now (nameless [] p.now)) }
    ensures typed { IfOk result (λ r. named_type r ≡ Some bool_type) }
{
    let mut whole = p.copy()?;
    let mut left = variables;
    'variables: while let Some((v, outer)) = left.split_last() {
        whole = mk_forall(alloc, v, &whole)?;
        left = outer;
    }
    Ok(whole)
}

/// The theorem, generalized over its own variables.
pub(crate) fn generalized(alloc: Global, th: &Given, own: &[Variable]) -> Result<Given, AllocError>
    requires { own.now ≡ own_variables th.now }
    ensures { IfOk result (λ g. IsGeneralized th.now g) }
{
    match th.node() {
        GivenNode::Theorem(theorem) => {
            theorem.well_typed();
            let whole = generalized_theorem(alloc, theorem, own)?;
            let given = Given::theorem(&whole);
            drop(whole);
            given
        }
        GivenNode::Assumed(_) => th.copy(),
    }
}

// The theorem, generalized over the variables, from the last one on.
fn generalized_theorem(alloc: Global, th: &Thm, variables: &[Variable]) -> Result<Thm, AllocError>
    requires { AreGeneral th.now.basis th.now.sequent.hyps variables.now }
    ensures { IfOk result (λ r. r ≡ theorem_on th.now.basis (sequent_of th.now.sequent.hyps (universals variables.now th.now.sequent.concl))) }
{
    let mut whole = th.copy()?;
    let mut left = variables;
    'variables: while let Some((v, outer)) = left.split_last() {
        let next = for_each(alloc, v, &whole);
        drop(whole);
        whole = next?;
        left = outer;
    }
    Ok(whole)
}
