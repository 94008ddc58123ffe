//! Pieces that wait to be stripped.
ghost use Rattle.std.specs.Prelude.{◌≡◌, ◌∷◌, ◌++◌, ◌||◌, ℕ, List, map, IfOk, IfSome, OnOk, Some, []};
ghost use Rattle.hol_terms.specs.Named.{named_type};
ghost use Rattle.hol_terms.specs.Nameless.{nameless};
ghost use Rattle.hol_subst.specs.FreeName.{is_taken};
ghost use Rattle.hol_formulas.specs.Equation.{bool_type};
ghost use Rattle.hol_just.specs.Leaving.{goal_terms};
ghost use Rattle.hol_just.specs.Strip.{waiting};
ghost use Rattle.hol_steps.specs.Waiting.{IsFirst};

use hol_goal::Goal;
use hol_terms::{Term, add_copies};
use std::alloc::{AllocError, Global};
use std::marker::Model;

/// Pieces that wait to be stripped, and the goal on which.
#[derive(Drop)]
pub struct Waiting {
    // The first one last.
    pieces: Vec<Term>,
    goal: Goal,
}

impl Model for Waiting {
    ghost use Rattle.std.specs.Prelude.{[], map, reverse};
    ghost use Rattle.hol_terms.specs.Nameless.{nameless};
    ghost use Rattle.hol_goal.specs.Formulas.{AreFormulas};
    ghost use Rattle.hol_just.specs.Strip.{WaitingValue, waiting};
    ghost use Rattle.hol_steps.specs.Waiting.{waiting_code};

    ghost Value = { WaitingValue };

    ghost coded = { waiting_code };

    ghost view = { λ w. waiting (map (nameless []) (reverse w.pieces.items)) w.goal };

    ghost invariant = { λ w. AreFormulas w.pieces.items };
}

impl Waiting {
    /// A piece on a goal.
    pub fn one(alloc: Global, piece: &Term, goal: Goal) -> Result<Waiting, AllocError>
        requires { named_type piece.now ≡ Some bool_type }
        ensures { IfOk result (λ w. w ≡ waiting (nameless [] piece.now ∷ []) goal) }
    {
        let mut pieces = Vec::new(alloc);
        pieces.push(piece.copy()?)?;
        Ok(Waiting { pieces, goal })
    }

    /// The goal.
    pub(crate) fn goal(&self) -> &Goal
        ensures { result.now ≡ self.now.goal }
    {
        &self.goal
    }

    /// The goal alone.
    pub(crate) fn into_goal(self) -> Goal
        ensures { result ≡ self.goal }
    {
        self.goal
    }

    /// The same pieces on another goal.
    pub(crate) fn on(self, goal: Goal) -> Waiting
        ensures { result ≡ waiting self.pieces goal }
    {
        Waiting {
            pieces: self.pieces,
            goal,
        }
    }

    /// Takes the first piece, if there is one.
    pub(crate) fn take(&mut self) -> Option<Term>
        ensures first { IsFirst self.old self.new result }
        ensures typed { IfSome result (λ p. named_type p ≡ Some bool_type) }
    {
        self.pieces.pop()
    }

    /// Puts a piece before the others.
    pub(crate) fn put(&mut self, piece: &Term) -> Result<(), AllocError>
        requires { named_type piece.now ≡ Some bool_type }
        ensures { OnOk result (self.new ≡ waiting (nameless [] piece.now ∷ self.old.pieces) self.old.goal) }
    {
        self.pieces.push(piece.copy()?)?;
        Ok(())
    }

    /// Equal pieces on an equal goal.
    pub(crate) fn copy(&self, alloc: Global) -> Result<Waiting, AllocError>
        ensures { IfOk result (λ w. w ≡ self.now) }
    {
        let mut pieces = Vec::with_capacity(alloc, self.pieces.len())?;
        add_copies(&mut pieces, &self.pieces)?;
        Ok(Waiting {
            pieces,
            goal: self.goal.copy()?,
        })
    }

    /// Puts copies of the terms of the goal, and of the pieces, at the end.
    pub(crate) fn add_terms(&self, to: &mut Vec<Term>) -> Result<(), AllocError>
        ensures { OnOk result ((a : List ℕ) → is_taken (map (nameless []) to.new.items) a ≡ (is_taken (map (nameless []) to.old.items) a || is_taken (self.now.pieces ++ goal_terms self.now.goal) a)) }
    {
        add_copies(to, self.goal.assumptions())?;
        to.push(self.goal.conclusion().copy()?)?;
        add_copies(to, &self.pieces)
    }
}
