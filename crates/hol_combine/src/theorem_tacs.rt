//! Functions of a theorem, and the tacticals that hand them one.
ghost use Rattle.std.specs.Prelude.{◌≡◌, ◌≤◌, ◌∷◌, Some, [], IfOk};
ghost use Rattle.hol_terms.specs.Named.{named_type};
ghost use Rattle.hol_terms.specs.Nameless.{nameless};
ghost use Rattle.hol_formulas.specs.Equation.{bool_type};
ghost use Rattle.hol_kernel.specs.Sequent.{no_hyps};
ghost use Rattle.hol_goal.specs.Goal.{GoalValue};
ghost use Rattle.hol_just.specs.Answering.{IsJustified};
ghost use Rattle.hol_just.specs.Justifies.{always};
ghost use Rattle.hol_just.specs.Leaving.{assuming};
ghost use Rattle.hol_just.specs.Strip.{antecedent};
ghost use Rattle.hol_just.specs.Valid.{IsValid};
ghost use Rattle.hol_combine.specs.ExprView.{theorem_tac_value, expr_of_handing};
ghost use Rattle.hol_combine.specs.ExprValue.{SubgoalThen};
ghost use Rattle.hol_combine.specs.Runs.{handed, hand, disch_then, pop_assum, first_assum, subgoal_then, run};
ghost use Rattle.hol_combine.specs.Suits.{suits_written, suits_expr};
ghost use Rattle.hol_goal.specs.UsedView.{used_value};
ghost use Rattle.hol_combine.specs.RunView.{IsRun, IsValidRun};
ghost use Rattle.hol_combine.specs.Going.{LeavesAtMost};

use crate::calls::{call_paid, has_large, paid};
use crate::expr::{Handing, TheoremTac};
use crate::formula::Formula;
use crate::handing::{after, after_cut, handed};
use crate::parts::refused;
use crate::ran::{Ran, RunError};
use crate::tacs::Tacs;
use hol_formulas::{dest_imp, dest_neg, mk_falsity};
use hol_goal::{Goal, Used};
use hol_just::Just;
use hol_terms::{Term, copies};
use std::alloc::Global;
use std::slice;

/// Hands a theorem over.
pub(crate) fn run_handing<T: Tacs>(
    alloc: Global,
    how: &Handing,
    tac: &TheoremTac,
    goal: &Goal,
    tacs: &T,
    used: Used,
) -> Result<Ran, RunError>
    requires turns { used.left ≤ 100000 }
    ensures answer { IsRun (run (T.Tacs.known_of tacs.now) (expr_of_handing how.now (theorem_tac_value tac.now)) goal.now (used_value used)) result }
    ensures valid { IfOk result (IsValidRun (suits_expr (expr_of_handing how.now (theorem_tac_value tac.now))) (goal.now ∷ [])) }
    ensures left { LeavesAtMost used.left result }
{
    match how {
        Handing::DischThen => disch_then(alloc, tac, goal, tacs, used),
        Handing::PopAssum => pop_assum(alloc, tac, goal, tacs, used),
        Handing::FirstAssum => first_assum(alloc, tac, goal, tacs, used),
        Handing::SubgoalThen(p) => subgoal_then(alloc, p, tac, goal, tacs, used),
    }
}

// Pays a turn, and calls the function with the theorem `{p} |- p`.
fn hand<T: Tacs>(
    alloc: Global,
    tac: &TheoremTac,
    p: &Term,
    goal: &Goal,
    tacs: &T,
    used: Used,
) -> Result<Ran, RunError>
    requires formula { named_type p.now ≡ Some bool_type }
    requires turns { used.left ≤ 100000 }
    ensures answer { IsRun (hand (T.Tacs.known_of tacs.now) (theorem_tac_value tac.now) (nameless [] p.now) goal.now (used_value used)) result }
    ensures valid { IfOk result (λ ran. IsJustified (handed (theorem_tac_value tac.now) (nameless [] p.now)).args goal.now ran.step) }
    ensures left { LeavesAtMost used.left result }
{
    let used = paid(used)?;
    let call = handed(alloc, tac, p)?;
    call_paid(alloc, &call, goal, tacs, used)
}

// DISCH_THEN: what the conclusion is from.
fn disch_then<T: Tacs>(
    alloc: Global,
    tac: &TheoremTac,
    goal: &Goal,
    tacs: &T,
    used: Used,
) -> Result<Ran, RunError>
    requires turns { used.left ≤ 100000 }
    ensures answer { IsRun (disch_then (T.Tacs.known_of tacs.now) (theorem_tac_value tac.now) goal.now (antecedent goal.now.conclusion) (used_value used)) result }
    ensures valid { IfOk result (IsValidRun (suits_written (theorem_tac_value tac.now)) (goal.now ∷ [])) }
    ensures left { LeavesAtMost used.left result }
{
    if let Some((p, q)) = dest_imp(goal.conclusion()) {
        let next = goal.with_conclusion(alloc, q)?;
        let just = Just::disch_tac(alloc, p)?;
        return hand_after(alloc, just, tac, p, &next, tacs, used);
    }
    let Some(p) = dest_neg(goal.conclusion()) else {
        return Err(refused(alloc, "DISCH_THEN", used));
    };
    let next = goal.with_conclusion(alloc, &mk_falsity(alloc)?)?;
    let just = Just::disch_neg_tac(alloc, p)?;
    hand_after(alloc, just, tac, p, &next, tacs, used)
}

// Hands over what moves assumed.
fn hand_after<T: Tacs>(
    alloc: Global,
    just: Just,
    tac: &TheoremTac,
    p: &Term,
    goal: &Goal,
    tacs: &T,
    used: Used,
) -> Result<Ran, RunError>
    requires formula { named_type p.now ≡ Some bool_type }
    requires turns { used.left ≤ 100000 }
    ensures answer { IsRun (hand (T.Tacs.known_of tacs.now) (theorem_tac_value tac.now) (nameless [] p.now) goal.now (used_value used)) result }
    ensures valid { IfOk result (λ ran. (whole : GoalValue) → IsValid always no_hyps just (whole ∷ []) (assuming goal.now (nameless [] p.now) goal.now.conclusion ∷ []) → IsValidRun (suits_written (theorem_tac_value tac.now)) (whole ∷ []) ran) }
    ensures left { LeavesAtMost used.left result }
{
    let ran = hand(alloc, tac, p, goal, tacs, used)?;
    Ok(after(just, ran)?)
}

// POP_ASSUM: the newest assumption, taken out.
fn pop_assum<T: Tacs>(
    alloc: Global,
    tac: &TheoremTac,
    goal: &Goal,
    tacs: &T,
    used: Used,
) -> Result<Ran, RunError>
    requires turns { used.left ≤ 100000 }
    ensures answer { IsRun (pop_assum (T.Tacs.known_of tacs.now) (theorem_tac_value tac.now) goal.now.assumptions goal.now.conclusion (used_value used)) result }
    ensures valid { IfOk result (IsValidRun (suits_written (theorem_tac_value tac.now)) (goal.now ∷ [])) }
    ensures left { LeavesAtMost used.left result }
{
    let Some((p, older)) = goal.assumptions().split_first() else {
        return Err(refused(alloc, "POP_ASSUM", used));
    };
    let popped = Goal::new(alloc, copies(alloc, older)?, goal.conclusion().copy()?)?;
    hand(alloc, tac, p, &popped, tacs, used)
}

// FIRST_ASSUM: the newest assumption with which the function isn't refused.
fn first_assum<T: Tacs>(
    alloc: Global,
    tac: &TheoremTac,
    goal: &Goal,
    tacs: &T,
    used: Used,
) -> Result<Ran, RunError>
    requires turns { used.left ≤ 100000 }
    ensures answer { IsRun (first_assum (T.Tacs.known_of tacs.now) (theorem_tac_value tac.now) goal.now.assumptions goal.now (used_value used)) result }
    ensures valid { IfOk result (IsValidRun (suits_written (theorem_tac_value tac.now)) (goal.now ∷ [])) }
    ensures left { LeavesAtMost used.left result }
{
    let mut used = used;
    for p in goal.assumptions() {
        match hand(alloc, tac, p, goal, tacs, used) {
            Ok(ran) => return Ok(ran),
            Err(RunError::Refused(_, left, tested)) => {
                used = Used { left, tested };
                continue;
            }
            Err(RunError::TurnLimit(tested)) => return Err(RunError::TurnLimit(tested)),
            Err(RunError::LargeGoal(tested)) => return Err(RunError::LargeGoal(tested)),
            Err(RunError::Memory) => return Err(RunError::Memory),
        }
    }
    Err(refused(alloc, "FIRST_ASSUM", used))
}

// SUBGOAL_THEN: the formula, which is left as the first goal.
fn subgoal_then<T: Tacs>(
    alloc: Global,
    p: &Formula,
    tac: &TheoremTac,
    goal: &Goal,
    tacs: &T,
    used: Used,
) -> Result<Ran, RunError>
    requires turns { used.left ≤ 100000 }
    ensures answer { IsRun (subgoal_then (T.Tacs.known_of tacs.now) p.now (theorem_tac_value tac.now) goal.now (used_value used)) result }
    ensures valid { IfOk result (IsValidRun (suits_expr (SubgoalThen p.now (theorem_tac_value tac.now))) (goal.now ∷ [])) }
    ensures left { LeavesAtMost used.left result }
{
    let first = goal.with_conclusion(alloc, p.term())?;
    if has_large(slice::from_ref(&first)) {
        return Err(RunError::LargeGoal(used.tested));
    }
    let ran = hand(alloc, tac, p.term(), goal, tacs, used)?;
    Ok(after_cut(alloc, first, ran)?)
}
