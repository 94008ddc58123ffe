//! Steps on equations of applications.
ghost use Rattle.std.specs.Prelude.{◌≡◌, IfOk, MatchOption, Some, None, []};
ghost use Rattle.hol_terms.specs.Named.{comb, named_type};
ghost use Rattle.hol_terms.specs.Nameless.{nameless};
ghost use Rattle.hol_formulas.specs.Equation.{dest_comb};
ghost use Rattle.hol_just.specs.EquationTacs.{equating, only, both};
ghost use Rattle.hol_just.specs.Justifies.{SplitsApplications, LeavesArguments, LeavesFunctions};
ghost use Rattle.hol_steps.specs.Applications.{HasNoApplications, AreApplications};

use crate::steps::{leaving_one, leaving_two};
use hol_formulas::{dest_eq, mk_eq};
use hol_goal::Goal;
use hol_just::{Just, Step};
use hol_terms::{Term, TermNode};
use std::alloc::{AllocError, Global};

/// The functions and the arguments of both sides of `f x = g y`.
#[derive(Clone, Copy)]
pub struct Applications<'a> {
    /// `f`
    pub function: &'a Term,
    /// `x`
    pub argument: &'a Term,
    /// `g`
    pub other_function: &'a Term,
    /// `y`
    pub other_argument: &'a Term,
}

/// The step to the arguments.
pub fn ap_term_step(
    alloc: Global,
    goal: &Goal,
    f: &Term,
    x: &Term,
    y: &Term,
) -> Result<Step, AllocError>
    requires { named_type x.now ≡ named_type y.now }
    ensures goals { IfOk result (λ step. only (equating goal.now (nameless [] x.now) (nameless [] y.now)) ≡ Some step.goals.items) }
    ensures just { IfOk result (λ step. LeavesArguments (nameless [] f.now) step.just) }
{
    let left = equate(alloc, goal, x, y)?;
    let just = Just::ap_term_tac(alloc, f)?;
    leaving_one(alloc, left, just)
}

/// The step to the functions.
pub fn ap_thm_step(
    alloc: Global,
    goal: &Goal,
    x: &Term,
    f: &Term,
    g: &Term,
) -> Result<Step, AllocError>
    requires { named_type f.now ≡ named_type g.now }
    ensures goals { IfOk result (λ step. only (equating goal.now (nameless [] f.now) (nameless [] g.now)) ≡ Some step.goals.items) }
    ensures just { IfOk result (λ step. LeavesFunctions (nameless [] x.now) step.just) }
{
    let left = equate(alloc, goal, f, g)?;
    let just = Just::ap_thm_tac(alloc, x)?;
    leaving_one(alloc, left, just)
}

/// The step to the functions and the arguments.
pub fn mk_comb_step(
    alloc: Global,
    goal: &Goal,
    parts: &Applications<'_>,
) -> Result<Step, AllocError>
    requires functions { named_type parts.now.function.now ≡ named_type parts.now.other_function.now }
    requires arguments { named_type parts.now.argument.now ≡ named_type parts.now.other_argument.now }
    ensures goals { IfOk result (λ step. both (equating goal.now (nameless [] parts.now.function.now) (nameless [] parts.now.other_function.now)) (equating goal.now (nameless [] parts.now.argument.now) (nameless [] parts.now.other_argument.now)) ≡ Some step.goals.items) }
    ensures just { IfOk result (λ step. SplitsApplications step.just) }
{
    let functions = equate(alloc, goal, parts.function, parts.other_function)?;
    let arguments = equate(alloc, goal, parts.argument, parts.other_argument)?;
    let just = Just::mk_comb_tac(alloc)?;
    leaving_two(alloc, functions, arguments, just)
}

// The goal with the conclusion `s = t`.
fn equate(alloc: Global, goal: &Goal, s: &Term, t: &Term) -> Result<Goal, AllocError>
    requires { named_type s.now ≡ named_type t.now }
    ensures { IfOk result (λ g. equating goal.now (nameless [] s.now) (nameless [] t.now) ≡ Some g) }
{
    let equation = mk_eq(alloc, s.type_of(), s, t)?;
    goal.with_conclusion(alloc, &equation)
}

/// The parts of the conclusion, where it is such an equation.
pub fn dest_applications(goal: &Goal) -> Option<Applications<'_>>
    ensures { MatchOption result (HasNoApplications goal.now) (λ a. AreApplications goal.now a.function.now a.argument.now a.other_function.now a.other_argument.now) }
{
    let sides = dest_eq(goal.conclusion())?;
    let (function, argument) = dest_comb(sides.left)?;
    let (other_function, other_argument) = dest_comb(sides.right)?;
    Some(Applications {
        function,
        argument,
        other_function,
        other_argument,
    })
}

// The function and the argument of an application.
fn dest_comb(term: &Term) -> Option<(&Term, &Term)>
    ensures { MatchOption result (dest_comb (nameless [] term.now) ≡ None) (λ x. term.now ≡ comb x.0.now x.1.now) }
{
    let TermNode::Comb(function, argument) = term.node() else {
        return None;
    };
    Some((function, argument))
}
