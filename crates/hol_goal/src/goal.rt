//! Goals: assumptions and a conclusion.
ghost use Rattle.std.specs.Prelude.{◌≡◌, ◌+◌, IfOk, Some, map, min, []};
ghost use Rattle.hol_terms.specs.Named.{named_type};
ghost use Rattle.hol_terms.specs.Nameless.{nameless};
ghost use Rattle.hol_terms.specs.Size.{term_size};
ghost use Rattle.hol_formulas.specs.Equation.{bool_type};
ghost use Rattle.hol_goal.specs.Goal.{goal_of, goal_size, terms_size};
ghost use Rattle.hol_goal.specs.Formulas.{AreFormulas};

use hol_terms::{Term, copies};
use std::alloc::{AllocError, Global};
use std::marker::Model;
use std::rc::Rc;

/// A goal: its assumptions, the newest first, and its conclusion, all of type `bool`. It keeps its size. Its copies share all of it.
#[derive(Drop)]
pub struct Goal {
    shared: Rc<GoalShared>,
}

// What the copies of a goal share.
#[derive(Drop)]
struct GoalShared {
    assumptions: Vec<Term>,
    conclusion: Term,
    size: u32,
}

impl Model for Goal {
    ghost use Rattle.std.specs.Prelude.{◌≡◌, Some, min};
    ghost use Rattle.hol_terms.specs.Named.{named_type};
    ghost use Rattle.hol_formulas.specs.Equation.{bool_type};
    ghost use Rattle.hol_goal.specs.Goal.{GoalValue, goal_code, goal_of, goal_size};
    ghost use Rattle.hol_goal.specs.Formulas.{AreFormulas};

    ghost Value = { GoalValue };

    ghost coded = { goal_code };

    ghost view = { λ g. goal_of g.shared.value.assumptions.items g.shared.value.conclusion };

    ghost invariant = { λ g. (AreFormulas g.shared.value.assumptions.items) × (named_type g.shared.value.conclusion ≡ Some bool_type) × (g.shared.value.size ≡ min (goal_size (goal_of g.shared.value.assumptions.items g.shared.value.conclusion)) 20001) };
}

impl Goal {
    /// The goal of these assumptions, the newest first, and this conclusion.
    pub fn new(alloc: Global, assumptions: Vec<Term>, conclusion: Term) -> Result<Goal, AllocError>
        requires assumptions { AreFormulas assumptions.items }
        requires conclusion { named_type conclusion ≡ Some bool_type }
        ensures { IfOk result (λ g. g ≡ goal_of assumptions.items conclusion) }
    {
        let size = total_size(&assumptions, &conclusion);
        let shared = GoalShared {
            assumptions,
            conclusion,
            size,
        };
        Ok(Goal {
            shared: Rc::new(alloc, shared)?,
        })
    }

    /// The assumptions, the newest first.
    pub fn assumptions(&self) -> &[Term]
        ensures terms { map (nameless []) result.now ≡ self.now.assumptions }
        ensures typed { AreFormulas result.now }
    {
        self.shared.assumptions.as_slice()
    }

    /// The conclusion.
    pub fn conclusion(&self) -> &Term
        ensures term { nameless [] result.now ≡ self.now.conclusion }
        ensures typed { named_type result.now ≡ Some bool_type }
    {
        &self.shared.conclusion
    }

    /// The size of all its terms, or 20,001 for more. Takes no memory: each goal keeps it.
    pub fn size(&self) -> u32
        ensures { result ≡ min (goal_size self.now) 20001 }
    {
        self.shared.size
    }

    /// The same goal.
    /// An error says that no count is left for one more copy.
    pub fn copy(&self) -> Result<Goal, AllocError>
        ensures { IfOk result (λ g. g ≡ self.now) }
    {
        Ok(Goal {
            shared: self.shared.clone()?,
        })
    }

    /// The goal with another conclusion.
    pub fn with_conclusion(&self, alloc: Global, conclusion: &Term) -> Result<Goal, AllocError>
        requires { named_type conclusion.now ≡ Some bool_type }
        ensures { IfOk result (λ g. g ≡ record self.now { conclusion = nameless [] conclusion.now }) }
    {
        let assumptions = copies(alloc, self.assumptions())?;
        let conclusion = conclusion.copy()?;
        Goal::new(alloc, assumptions, conclusion)
    }
}

// The most that a size says.
const LARGEST_SIZE: u32 = 20_001;

/// The size of the terms and of a last one, or 20,001 for more.
pub fn total_size(terms: &[Term], last: &Term) -> u32
    ensures { result ≡ min (term_size [] (nameless [] last.now) + terms_size (map (nameless []) terms.now)) 20001 }
{
    let mut size = last.size();
    for term in terms {
        size = (size + term.size()).min(LARGEST_SIZE);
    }
    size
}
