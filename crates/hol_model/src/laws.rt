//! What derives F has to use the axiom of infinity.
ghost use Rattle.std.specs.Prelude.{◌≡◌, true, false, List};
ghost use Rattle.hol_formulas.specs.Formula.{falsity};
ghost use Rattle.hol_kernel.specs.Item.{Item};
ghost use Rattle.hol_kernel.specs.Items.{no_items, item_set};
ghost use Rattle.hol_kernel.specs.Sequent.{no_hyps};
ghost use Rattle.hol_kernel.specs.Legal.{IsLegal};
ghost use Rattle.hol_kernel.specs.Theorem.{Theorem, IsTheorem};
ghost use Rattle.hol_kernel.specs.Derivation.{Derives};
ghost use Rattle.hol_model.specs.Infinity.{uses_infinity, members_use_infinity, theorem_uses_infinity, StatesFalsity, HasNoAxiom};
ghost use Rattle.hol_model.specs.Leaves.{InfinityUses, PostulatesAvoid, ReflAvoids, BetaAvoids, AssumeAvoids, AxiomAvoids, DefinitionAvoids, AbsRepAvoids, RepAbsAvoids, TransJoins, MkCombJoins, AbsKeeps, EqMpJoins, DeductAntisymJoins, InstTypeKeeps, InstKeeps};

/// Each derivation of F from no hypotheses, over the prelude alone, has INFINITY_AX for a leaf.
pub fn falsity_needs_infinity()
    ensures { (t : Derives no_items no_hyps falsity) → uses_infinity no_items no_hyps falsity t ≡ true }
{}

/// So has each one over a legal list of declared types, declared constants, constant definitions and type definitions, if the members of the defined types were
/// derived without INFINITY_AX: no declaration and no definition makes F derivable without it.
pub fn definitions_need_infinity_for_falsity()
    ensures { (order : List Item) (legal : IsLegal order) → HasNoAxiom (item_set order) → members_use_infinity order legal ≡ false →
        (t : Derives (item_set order) no_hyps falsity) → uses_infinity (item_set order) no_hyps falsity t ≡ true }
{}

/// A theorem `|- F` without hypotheses whose basis has no axiom uses INFINITY_AX: in its derivation, or in that of the member of a type that its basis defines. This
/// holds whatever derivations `IsTheorem` is shown by.
pub fn false_theorem_needs_infinity()
    ensures { (t : Theorem) → StatesFalsity t → HasNoAxiom t.basis → (is : IsTheorem t) → theorem_uses_infinity t is ≡ true }
{}

/// INFINITY_AX is the one leaf of derivations that uses it. The other definitions and axioms of the prelude don't, nor what items say, nor a rule without premises.
pub fn infinity_is_one_leaf()
    ensures infinity { InfinityUses }
    ensures postulates { PostulatesAvoid }
    ensures refl { ReflAvoids }
    ensures beta { BetaAvoids }
    ensures assume { AssumeAvoids }
    ensures axiom { AxiomAvoids }
    ensures definition { DefinitionAvoids }
    ensures abs_rep { AbsRepAvoids }
    ensures rep_abs { RepAbsAvoids }
{}

/// A rule with premises uses INFINITY_AX exactly where the derivation of one of them does.
pub fn rules_use_what_premises_use()
    ensures trans { TransJoins }
    ensures mk_comb { MkCombJoins }
    ensures abs { AbsKeeps }
    ensures eq_mp { EqMpJoins }
    ensures deduct_antisym { DeductAntisymJoins }
    ensures inst_type { InstTypeKeeps }
    ensures inst { InstKeeps }
{}
