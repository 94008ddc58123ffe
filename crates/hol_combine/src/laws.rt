//! Laws of runs.

ghost use Rattle.std.specs.Prelude.{◌≡◌, ℕ, List};
ghost use Rattle.hol_goal.specs.Answer.{UsedValue, starting};
ghost use Rattle.hol_goal.specs.Goal.{GoalValue};
ghost use Rattle.hol_goal.specs.Names.{AgreeOn};
ghost use Rattle.hol_goal.specs.declared.tac_code.TacCode.{TacCode};
ghost use Rattle.hol_combine.specs.Agreeing.{known, tested_of};
ghost use Rattle.hol_combine.specs.ExprValue.{ExprValue, Then, Repeat};
ghost use Rattle.hol_combine.specs.Runs.{KnownValue, otherwise, unchanged, paying, run};

/// `REPEAT t` pays a turn, and is then `t THEN REPEAT t`, or the goal unchanged where that is refused. This function does nothing: its clause is the law.
pub fn repeat_law()
    ensures { (known : KnownValue) (t : ExprValue) (goal : GoalValue) (used : UsedValue) → run known (Repeat t) goal used ≡ paying (λ left. otherwise (run known (Then t (Repeat t)) goal left) (unchanged goal)) used }
{}

/// Names of constants that agree on what a run tested give the same run: so what it tested says whether it can be taken elsewhere.
pub fn runs_need_the_tested_names_alone()
    ensures { (table : List (List ℕ × TacCode)) (a b : List (List ℕ)) (t : ExprValue) (goal : GoalValue) (turns : ℕ) →
        AgreeOn a b (tested_of (run (known table a) t goal (starting turns))) → run (known table b) t goal (starting turns) ≡ run (known table a) t goal (starting turns) }
{}
