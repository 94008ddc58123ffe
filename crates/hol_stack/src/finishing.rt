//! The theorem of a finished stack.
ghost use Rattle.std.specs.Prelude.{◌≡◌, [], reverse, IfOk};
ghost use Rattle.hol_terms.specs.Nameless.{nameless};
ghost use Rattle.hol_terms.specs.Alpha.{strip};
ghost use Rattle.hol_formulas.specs.Equation.{bool_type};
ghost use Rattle.hol_kernel.specs.Sequent.{no_hyps};
ghost use Rattle.hol_kernel.specs.Theorem.{theorem_over};
ghost use Rattle.hol_kernel.specs.Typing.{HasType};
ghost use Rattle.hol_just.specs.Over.{AreOver, sequents};
ghost use Rattle.hol_just.specs.Valid.{AchieveAll};
ghost use Rattle.hol_stack.specs.Sound.{AreSound, AchievesNext};

use crate::element::{Change, Earlier, Element};
use hol_equal::applied;
use hol_goal::Goal;
use hol_just::justify;
use hol_kernel::{Basis, Thm};
use hol_terms::Term;
use std::alloc::{AllocError, Global};

/// The theorem of the goal, where no goal is open: theorems of the goals of each element, from the newest to the first.
pub(crate) fn theorem(
    alloc: Global,
    goal: &Goal,
    earlier: &[Earlier],
    newest: &Element,
) -> Result<Thm, AllocError>
    requires closed { newest.now.goals ≡ [] }
    requires sound { AreSound goal.now newest.now (reverse earlier.now) }
    ensures { IfOk result (λ th. th ≡ theorem_over newest.now.basis no_hyps goal.now.conclusion) }
{
    let basis = newest.basis();
    let mut thms = Vec::new(alloc);
    let mut left = earlier.len();
    'back: while left > 0 {
        left -= 1;
        thms = before(alloc, &earlier[left], thms, basis)?;
    }
    let Some(thm) = thms.pop() else {
        unreachable!()
    };
    exactly(alloc, goal.conclusion(), &thm)
}

// Theorems of the goals of an element, from those of the next one's.
fn before(
    alloc: Global,
    one: &Earlier,
    thms: Vec<Thm>,
    basis: &Basis,
) -> Result<Vec<Thm>, AllocError>
    requires over { AreOver basis.now thms.items }
    requires next { AchievesNext basis.now one.now (sequents thms.items) }
    ensures over { IfOk result (λ out. AreOver basis.now out.items) }
    ensures achieved { IfOk result (λ out. AchieveAll no_hyps (sequents out.items) one.now.step.goals) }
{
    match &one.change {
        Change::Left(step) => justify(alloc, step.just(), thms, basis),
        Change::Turned(by) => {
            let mut thms = thms;
            thms.rotate_right(*by);
            Ok(thms)
        }
    }
}

// The theorem with the statement for its conclusion, which is the same up to bound names (EQ_MP of the statement's reflexivity).
fn exactly(alloc: Global, statement: &Term, thm: &Thm) -> Result<Thm, AllocError>
    requires alike { strip thm.now.sequent.concl ≡ strip (nameless [] statement.now) }
    requires typed { HasType thm.now.basis (nameless [] statement.now) bool_type }
    requires free { thm.now.sequent.hyps ≡ no_hyps }
    ensures { IfOk result (λ th. th ≡ theorem_over thm.now.basis no_hyps (nameless [] statement.now)) }
{
    let same = applied::refl(alloc, thm.basis(), statement.type_of(), statement)?;
    applied::eq_mp(alloc, &same, thm)
}
