//! Laws of valid justifications.
ghost use Rattle.std.specs.Prelude.{◌≡◌, ℕ, Bool, IsTrue, List, [], ◌∷◌, ◌++◌, length};
ghost use Rattle.std.specs.FinSet as set;
ghost use Rattle.hol_terms.specs.Nameless.{Nameless};
ghost use Rattle.hol_kernel.specs.Items.{Items};
ghost use Rattle.hol_kernel.specs.Sequent.{Hyps, only_hyp};
ghost use Rattle.hol_goal.specs.Answer.{UsedValue};
ghost use Rattle.hol_goal.specs.Goal.{GoalValue};
ghost use Rattle.hol_just.specs.Fresh.{fresh, IsNewName};
ghost use Rattle.hol_just.specs.Gives.{moved};
ghost use Rattle.hol_just.specs.Openings.{OpeningGoesByQuantifiers};
ghost use Rattle.hol_just.specs.Justifies.{goal_at};
ghost use Rattle.hol_just.specs.Strip.{AvoidedValue, piece, waiting, becomes, Leaves, strip_parts, strip};
ghost use Rattle.hol_just.specs.Valid.{IsValid};
ghost use Rattle.hol_just.specs.declared.reason.Move.{Move};

/// No moves leave the goals as they are.
#[tactic(auto, using(crate::proofs::Validity::valid_none))]
pub fn none_is_valid()
    ensures { (suits : Items → Bool) (extra : Hyps) (goals : List GoalValue) → IsValid suits extra [] goals goals }
{}

/// Moves after moves: on all the goals that these left.
pub fn valid_one_after_the_other()
    ensures { (suits : Items → Bool) (extra : Hyps) (moves more : List Move) (before mid after : List GoalValue) → IsValid suits extra moves before mid → IsValid suits extra more mid after → IsValid suits extra (moves ++ more) before after }
{}

/// Moves after moves: on some of the goals that these left, from a place on. The other goals stay.
pub fn valid_at_a_place()
    ensures { (suits : Items → Bool) (extra : Hyps) (moves more : List Move) (before pre goals new post : List GoalValue) (place : ℕ) → place ≡ length pre → IsValid suits extra moves before (pre ++ (goals ++ post)) → IsValid suits extra more goals new → IsValid suits extra (moves ++ moved place more) before (pre ++ (new ++ post)) }
{}

/// A narrower condition on bases.
#[tactic(auto, using(crate::proofs::Validity::valid_under))]
pub fn valid_under()
    ensures { (suits narrower : Items → Bool) (extra : Hyps) (moves : List Move) (before after : List GoalValue) → ((basis : Items) → IsTrue (narrower basis) → IsTrue (suits basis)) → IsValid suits extra moves before after → IsValid narrower extra moves before after }
{}

/// An assumption that is handed over: what is valid with it as an extra hypothesis, from the goal without it, is valid from the goal
/// with it. So POP_ASSUM needs no move, and DISCH_THEN that of DISCH_TAC alone.
pub fn valid_from_assumption()
    ensures { (suits : Items → Bool) (extra : Hyps) (moves : List Move) (assumptions : List Nameless) (p q : Nameless) (after : List GoalValue) → IsValid suits (set.union extra (only_hyp p)) moves (goal_at assumptions q ∷ []) after → IsValid suits extra moves (goal_at (p ∷ assumptions) q ∷ []) after }
{}

/// Validity has one proof at most, so that what is kept beside a function may say it.
pub fn validity_is_a_proposition()
    ensures { (suits : Items → Bool) (extra : Hyps) (moves : List Move) (before after : List GoalValue) → IsProp (IsValid suits extra moves before after) }
{}

/// Outer quantifiers are taken off one after the other: under the first one's variable, what is left is opened in the same way, so that the number of steps that the definition counts is
/// always enough.
#[tactic(auto, using(crate::proofs::MatchOpened::go_by_quantifiers))]
pub fn opening_goes_by_quantifiers()
    ensures { OpeningGoesByQuantifiers }
{}

/// Stripping goes by pieces: what is left of pieces is what is left of what the first one becomes, and turns run out where none is left to pay for that. So the number of steps that the
/// definition counts is always enough.
pub fn strip_goes_by_pieces()
    ensures none { (avoided : AvoidedValue) (goal : GoalValue) (used : UsedValue) → strip avoided (waiting [] goal) used ≡ Leaves (goal ∷ []) used }
    ensures first { (avoided : AvoidedValue) (p : Nameless) (ps : List Nameless) (goal : GoalValue) (used : UsedValue) → strip avoided (waiting (p ∷ ps) goal) used ≡ strip_parts (strip avoided) used.tested (becomes avoided p ps goal (piece goal p) used) }
{}

/// A new name is that of no free variable and no constant of the terms, and of no constant that stands: so the number of names that the definition tests is always enough.
pub fn fresh_names_are_new()
    ensures { (names : List (List ℕ)) (avoid : List Nameless) (base : List ℕ) → IsNewName names avoid (fresh names avoid base) }
{}
