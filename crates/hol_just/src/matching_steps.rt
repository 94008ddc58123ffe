//! The reason by an instance of what stands under a theorem's quantifiers, applied to theorems.
ghost use Rattle.std.specs.Prelude.{◌≡◌, ◌∷◌, IfOk, IsSome, MatchOption, Some, [], OnOk};
ghost use Rattle.std.specs.Option.{option_and_then};
ghost use Rattle.hol_terms.specs.Nameless.{nameless};
ghost use Rattle.hol_kernel.specs.Given as premise;
ghost use Rattle.hol_kernel.specs.Theorem.{over};
ghost use Rattle.hol_just.specs.Inference.{from_none, inferred};
ghost use Rattle.hol_just.specs.Reasons.{premise_of};
ghost use Rattle.hol_just.specs.Matching.{bound_variables, specialized, instance_like, matching};
ghost use Rattle.hol_just.specs.Over.{Infers};

use crate::cursor::Cursor;
use crate::refusals::made_in_kernel;
use hol_derived::applied;
use hol_formulas::{is_forall, occurrence};
use hol_kernel::{Given, Thm};
use hol_match::term_match;
use hol_terms::{Term, TermNode, Variable};
use std::alloc::{AllocError, Global};

/// The instance of what stands under the theorem's outer quantifiers that is the term. Their variables are called as those of the formula.
pub(crate) fn matching(
    alloc: Global,
    given: &Given,
    formula: &Term,
    t: &Term,
    thms: &mut Cursor,
) -> Result<(), AllocError>
    requires gives { IsSome (inferred (from_none (option_and_then (matching thms.old.basis (bound_variables formula.now) (nameless [] t.now)) (premise_of thms.old.basis given.now))) thms.old.after) }
    requires within { premise.IsOver given.now thms.old.basis }
    ensures { OnOk result (Infers (from_none (option_and_then (matching thms.old.basis (bound_variables formula.now) (nameless [] t.now)) (premise_of thms.old.basis given.now))) thms.old thms.new) }
{
    let whole = made_in_kernel(given.over(alloc, thms.basis()))?;
    let body = specialized(alloc, formula, whole)?;
    let made = instance_like(alloc, t, &body);
    drop(body);
    let thm = made?;
    thms.put(thm)
}

// SPEC at the variables that the formula's outer quantifiers bind, one after the other.
fn specialized(alloc: Global, formula: &Term, th: Thm) -> Result<Thm, AllocError>
    requires { IsSome (over th.basis (specialized th.basis (bound_variables formula.now) th.sequent)) }
    ensures { IfOk result (λ r. over th.basis (specialized th.basis (bound_variables formula.now) th.sequent) ≡ Some r) }
{
    let Some((v, body)) = outer_variable(formula) else {
        return Ok(th);
    };
    let variable = occurrence(alloc, v)?;
    let made = applied::spec(alloc, &variable, &th);
    drop(th);
    let instance = made?;
    specialized(alloc, body, instance)
}

// The variable that the formula's outer quantifier binds, by its name there, and what stands under it.
fn outer_variable(formula: &Term) -> Option<(&Variable, &Term)>
    ensures { MatchOption result (bound_variables formula.now ≡ []) (λ x. bound_variables formula.now ≡ x.0.now ∷ bound_variables x.1.now) }
{
    if !is_forall(formula) {
        return None;
    }
    let TermNode::Comb(_, abstraction) = formula.node() else {
        return None;
    };
    match abstraction.node() {
        TermNode::Abs(v, body) => Some((v, body)),
        TermNode::Var(_) | TermNode::Const(_, _) | TermNode::Comb(_, _) => None,
    }
}

// The instance of the theorem that is the term.
fn instance_like(alloc: Global, t: &Term, th: &Thm) -> Result<Thm, AllocError>
    requires { IsSome (over th.now.basis (instance_like th.now.basis (nameless [] t.now) th.now.sequent)) }
    ensures { IfOk result (λ r. over th.now.basis (instance_like th.now.basis (nameless [] t.now) th.now.sequent) ≡ Some r) }
{
    let Some(found) = term_match(alloc, th.hyps(), th.concl(), t)? else {
        unreachable!()
    };
    let typed = made_in_kernel(Thm::inst_type(alloc, found.types(), th))?;
    let made = made_in_kernel(Thm::inst(alloc, found.terms(), &typed));
    drop(typed);
    made
}
