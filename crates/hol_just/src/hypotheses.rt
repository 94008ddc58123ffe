//! Whether theorems that are handed to a function on goals rest on what a goal assumes.
ghost use Rattle.std.specs.Prelude.{◌≡◌, [], IsTrue};
ghost use Rattle.std.specs.FinSet as set;
ghost use Rattle.std.specs.List.{list_any, list_all};
ghost use Rattle.hol_terms.specs.Nameless.{nameless};
ghost use Rattle.hol_terms.specs.Alpha.{alpha_eq};
ghost use Rattle.hol_kernel.specs.Given.{given_sequent};
ghost use Rattle.hol_kernel.specs.Sequent.{no_hyps, hyp_of};
ghost use Rattle.hol_goal.specs.Achieves.{assumed};
ghost use Rattle.hol_goal.specs.ArgumentsView.{args_value};
ghost use Rattle.hol_just.specs.Answering.{are_assumed, AreLeft};

use hol_goal::{Goal, TacArgs};
use hol_kernel::Given;
use hol_terms::Term;

/// Whether each hypothesis of each theorem among the arguments is an assumption of the goal, up to bound names.
pub fn are_assumed(args: &TacArgs, goal: &Goal) -> bool
    ensures test { result ≡ are_assumed (args_value args.now) goal.now }
    ensures left { IsTrue result → AreLeft no_hyps (args_value args.now) goal.now }
{
    are_args_assumed(args, goal)
}

#[tactic(auto, using(crate::proofs::Assumed::none_are, crate::proofs::Assumed::givens_are))]
fn are_args_assumed(args: &TacArgs, goal: &Goal) -> bool
    ensures { result ≡ are_assumed (args_value args.now) goal.now }
{
    match args {
        TacArgs::Nothing | TacArgs::Term(_) | TacArgs::Pair(_, _) => true,
        TacArgs::Theorem(th) | TacArgs::TermAndTheorem(_, th) => is_given_assumed(th, goal),
        TacArgs::Theorems(ths) => are_givens_assumed(ths, goal),
    }
}

fn are_givens_assumed(ths: &[Given], goal: &Goal) -> bool
    ensures { result ≡ list_all (λ th. set.is_subset (given_sequent th).hyps (assumed goal.now.assumptions)) ths.now }
{
    ths.iter().all(|th| is_given_assumed(th, goal))
}

#[tactic(auto, using(crate::proofs::Assumed::given_is))]
fn is_given_assumed(th: &Given, goal: &Goal) -> bool
    ensures { result ≡ set.is_subset (given_sequent th.now).hyps (assumed goal.now.assumptions) }
{
    are_assumptions(th.hyps(), goal)
}

fn are_assumptions(terms: &[Term], goal: &Goal) -> bool
    ensures { result ≡ list_all (λ t. set.contains (assumed goal.now.assumptions) (hyp_of t)) terms.now }
{
    terms.iter().all(|term| is_assumption(term, goal))
}

#[tactic(auto, using(crate::proofs::Assumed::is_assumption_is))]
fn is_assumption(p: &Term, goal: &Goal) -> bool
    ensures { result ≡ set.contains (assumed goal.now.assumptions) (hyp_of p.now) }
{
    is_among(p, goal.assumptions())
}

// Whether the term is one of these, up to bound names.
fn is_among(p: &Term, terms: &[Term]) -> bool
    ensures { result ≡ list_any (λ t. alpha_eq (nameless [] t) (nameless [] p.now)) terms.now }
{
    terms.iter().any(|term| term.alpha_equivalent(p))
}
