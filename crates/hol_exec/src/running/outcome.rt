//! What a command does to a state.
ghost use Rattle.std.specs.Prelude.{◌≡◌, ◌↔◌, true, IsTrue, string_bytes, []};
ghost use Rattle.hol_terms.specs.Nameless.{nameless};
ghost use Rattle.std.specs.List.{IsDistinct};
ghost use Rattle.std.specs.Map.{keys_of};
ghost use Rattle.hol_theory.specs.Key.{key_eq};
ghost use Rattle.hol_theory.specs.Entry.{EachIsEntry};
ghost use Rattle.hol_exec.specs.OutcomeValue.{OutcomeValue, Opens, Leaves, Undoes, Rotates, Makes, Refuses, MakesTheorems, after};
ghost use Rattle.hol_exec.specs.StateValue.{StateValue};
ghost use Rattle.hol_exec.specs.ChangedKeys.{keys_made};
ghost use Rattle.hol_exec.specs.OutcomeView.{outcome_of};
ghost use Rattle.hol_exec.specs.Valid.{IsStatement, IsLeft, IsValidChange};

use crate::reads::{Same, same_each};
use crate::reports::RefusalKind;
use crate::state::NewEntries;
use crate::weight::basis_weight;
use hol_goal::Goal;
use hol_kernel::Basis;
use hol_stack::SharedStep;
use hol_terms::Term;
use hol_theory::{Entries, Env, same_basis};
use std::marker::Model;

/// What a command does to a state. Only running a command makes one.
#[derive(Drop)]
pub struct Outcome {
    change: Change,
}

/// The kinds of outcomes.
#[derive(Drop)]
pub(crate) enum Change {
    /// Opens a proof of this name and statement, on this basis.
    Opens(String, Term, Basis),
    /// The first goal, which is this one, gives way to those that the step left; the basis is that of all that was resolved.
    Leaves(Goal, SharedStep, Basis),
    /// Drops the newest element of the proof's history.
    Undoes,
    /// Puts the first goal last, so many times.
    Rotates(usize),
    /// Makes these entries, if any, after which no proof is open.
    Makes(NewEntries),
    /// The command is refused; the text is what the refusal speaks of, or empty.
    Refuses(RefusalKind, String),
}

impl Model for Outcome {
    ghost use Rattle.hol_exec.specs.OutcomeValue.{OutcomeValue};
    ghost use Rattle.hol_exec.specs.OutcomeView.{outcome_of};
    ghost use Rattle.hol_exec.specs.Valid.{IsValidChange};
    ghost use Rattle.hol_exec.specs.Codes.{coded_outcome};

    ghost Value = { OutcomeValue };

    ghost coded = { coded_outcome };

    ghost view = { λ o. outcome_of o.change };

    ghost invariant = { λ o. IsValidChange o.change };
}

impl Outcome {
    /// The opening of a proof of this name and statement, on this basis.
    pub(crate) fn opens(name: String, statement: Term, basis: Basis) -> Outcome
        requires { IsStatement basis (nameless [] statement) }
        ensures { result ≡ Opens (string_bytes name) (nameless [] statement) basis }
    {
        Outcome {
            change: Change::Opens(name, statement, basis),
        }
    }

    /// The step that leaves these goals of the first one; the basis is that of all that was resolved.
    pub(crate) fn leaves(goal: Goal, step: SharedStep, basis: Basis) -> Outcome
        requires { IsLeft basis step.moves goal step.goals }
        ensures { result ≡ Leaves goal step.goals basis }
    {
        Outcome {
            change: Change::Leaves(goal, step, basis),
        }
    }

    /// The making of these entries, if any.
    pub(crate) fn makes(entries: Entries) -> Outcome
        requires entries { EachIsEntry entries.items }
        requires keys { IsDistinct key_eq (keys_of entries.items) }
        ensures { result ≡ Makes entries.items }
    {
        Outcome::makes_new(NewEntries::listed(entries))
    }

    /// The making of all entries of the theory, if any.
    #[tactic(auto, using(crate::proofs::NewEntries::theory_entries))]
    pub(crate) fn makes_shared(env: Env) -> Outcome
        ensures { result ≡ Makes env }
    {
        env.promise();
        Outcome::makes_new(NewEntries::shared(env))
    }

    // The making of these entries, if any.
    fn makes_new(entries: NewEntries) -> Outcome
        requires entries { EachIsEntry entries }
        requires keys { IsDistinct key_eq (keys_of entries) }
        ensures { result ≡ Makes entries }
    {
        Outcome {
            change: Change::Makes(entries),
        }
    }

    /// The drop of the newest element of the proof's history.
    pub(crate) fn undoes() -> Outcome
        ensures { result ≡ Undoes }
    {
        Outcome {
            change: Change::Undoes,
        }
    }

    /// The turn of the first goal to the end, so many times.
    pub(crate) fn rotates(times: usize) -> Outcome
        ensures { result ≡ Rotates times }
    {
        Outcome {
            change: Change::Rotates(times),
        }
    }

    /// The refusal of the command; the text is what it speaks of, or empty.
    pub(crate) fn refuses(kind: RefusalKind, arg: String) -> Outcome
        ensures { result ≡ Refuses kind (string_bytes arg) }
    {
        Outcome {
            change: Change::Refuses(kind, arg),
        }
    }

    /// What it does.
    pub(crate) fn change(&self) -> &Change
        ensures change { outcome_of result.now ≡ self.now }
        ensures valid { IsValidChange result.now }
    {
        &self.change
    }

    /// Whether it makes no entries.
    pub fn makes_nothing(&self) -> bool
        ensures { IsTrue result ↔ (keys_made self.now ≡ []) }
    {
        match self.change() {
            Change::Makes(entries) => are_none(entries),
            Change::Opens(_, _, _)
            | Change::Leaves(_, _, _)
            | Change::Undoes
            | Change::Rotates(_)
            | Change::Refuses(_, _) => true,
        }
    }

    /// What it makes are entries: theorems without hypotheses that have derivations over their bases, which are legal; types and constants that items of their
    /// bases make; and named expressions with legal bases that suit them.
    #[tactic(auto, using(crate::proofs::Outcomes::makes_theorems))]
    pub fn promise(&self)
        ensures { MakesTheorems self.now }
    {
        let _ = self.change();
    }

    /// How much it holds, in nodes of terms, up to 2^32 - 1. What it shares counts too.
    pub fn weight(&self) -> u32 {
        match self.change() {
            Change::Opens(_, statement, _) => statement.size(),
            Change::Leaves(goal, step, basis) => goal
                .size()
                .saturating_add(step.weight())
                .saturating_add(basis_weight(basis)),
            Change::Makes(entries) => entries.weight(),
            Change::Undoes | Change::Rotates(_) | Change::Refuses(_, _) => 1,
        }
    }

    /// Whether both are the same: terms with their base names, and theorems with their bases.
    pub fn same(&self, other: &Outcome) -> bool
        ensures { IsTrue result ↔ (self.now ≡ other.now) }
    {
        match self.change() {
            Change::Opens(name, statement, basis) => {
                let Change::Opens(name2, statement2, basis2) = other.change() else {
                    return false;
                };
                name.as_str() == name2.as_str()
                    && statement.same(statement2)
                    && same_basis(basis, basis2)
            }
            Change::Leaves(goal, step, basis) => {
                let Change::Leaves(goal2, step2, basis2) = other.change() else {
                    return false;
                };
                goal.same_as(goal2)
                    && same_each(step.goals(), step2.goals())
                    && same_basis(basis, basis2)
            }
            Change::Undoes => matches!(other.change(), Change::Undoes),
            Change::Rotates(times) =>
                matches!(other.change(), Change::Rotates(times2) if times == times2),
            Change::Makes(entries) => {
                let Change::Makes(entries2) = other.change() else {
                    return false;
                };
                entries.same(entries2)
            }
            Change::Refuses(kind, arg) => {
                let Change::Refuses(kind2, arg2) = other.change() else {
                    return false;
                };
                kind == kind2 && arg.as_str() == arg2.as_str()
            }
        }
    }
}

// Whether these are no entries.
#[tactic(auto, using(crate::proofs::NewEntries::none_made, crate::proofs::NewEntries::none_there))]
fn are_none(entries: &NewEntries) -> bool
    ensures { IsTrue result ↔ (keys_of entries.now ≡ []) }
{
    entries.len() == 0
}
