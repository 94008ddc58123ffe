//! Laws of the rules.
ghost use Rattle.std.specs.Prelude.{ℕ, List};
ghost use Rattle.hol_types.specs.Tree.{TypeTree};
ghost use Rattle.hol_terms.specs.Named.{Named};
ghost use Rattle.hol_terms.specs.Nameless.{Nameless};
ghost use Rattle.hol_kernel.specs.Sequent.{Sequent};
ghost use Rattle.hol_kernel.specs.Rules.{refl_of, assume_of, beta_of, abs_of, inst_type_of, inst_of};
ghost use Rattle.hol_kernel.specs.Widening.{IsMonotone};

/// A rule that takes a term or a type over a set of items gives the same sequent over every larger set. The other rules take sequents alone, so that they do so by
/// their form.
#[tactic(auto, using(crate::proofs::RuleLaws::monotone))]
pub fn rules_widen()
    ensures refl { (t : Nameless) → IsMonotone (λ basis. refl_of basis t) }
    ensures assume { (p : Nameless) → IsMonotone (λ basis. assume_of basis p) }
    ensures beta { (t : Named) → IsMonotone (λ basis. beta_of basis t) }
    ensures abs { (v : Named) (s : Sequent) → IsMonotone (λ basis. abs_of basis v s) }
    ensures inst_type { (pairs : List (TypeTree × List ℕ)) (s : Sequent) → IsMonotone (λ basis. inst_type_of basis pairs s) }
    ensures inst { (pairs : List (Named × Named)) (s : Sequent) → IsMonotone (λ basis. inst_of basis pairs s) }
{}
