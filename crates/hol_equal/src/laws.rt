//! Laws of the rules.
ghost use Rattle.std.specs.Prelude.{Some};
ghost use Rattle.std.specs.FinSet as set;
ghost use Rattle.hol_terms.specs.Named.{Named};
ghost use Rattle.hol_terms.specs.Nameless.{Nameless};
ghost use Rattle.hol_kernel.specs.Items.{Items};
ghost use Rattle.hol_kernel.specs.Sequent.{no_hyps, Sequent};
ghost use Rattle.hol_kernel.specs.Widening.{IsMonotone};
ghost use Rattle.hol_equal.specs.Hypotheses.{StaysWithin};
ghost use Rattle.hol_equal.specs.Rules.{sym_of, ap_term_of, ap_thm_of, alpha_of, beta_conv_of, prove_hyp_of, subst_of};

/// A rule that takes a term over a set of items gives the same sequent over every larger set. The other rules take sequents alone, so that they do so by their form.
pub fn rules_widen()
    ensures ap_term { (f : Nameless) (a : Sequent) → IsMonotone (λ basis. ap_term_of basis f a) }
    ensures ap_thm { (a : Sequent) (x : Nameless) → IsMonotone (λ basis. ap_thm_of basis a x) }
    ensures alpha { (s : Nameless) (t : Nameless) → IsMonotone (λ basis. alpha_of basis s t) }
    ensures beta_conv { (t : Nameless) → IsMonotone (λ basis. beta_conv_of basis t) }
    ensures subst { (a : Sequent) (v : Named) (m : Nameless) (b : Sequent) → IsMonotone (λ basis. subst_of basis a v m b) }
{}

/// The hypotheses of what a rule gives are among those of its premises; what is made of terms alone has none.
pub fn rules_keep_hypotheses()
    ensures sym { (a : Sequent) → StaysWithin a.hyps (sym_of a) }
    ensures ap_term { (basis : Items) (f : Nameless) (a : Sequent) → StaysWithin a.hyps (ap_term_of basis f a) }
    ensures ap_thm { (basis : Items) (a : Sequent) (x : Nameless) → StaysWithin a.hyps (ap_thm_of basis a x) }
    ensures alpha { (basis : Items) (s t : Nameless) → StaysWithin no_hyps (alpha_of basis s t) }
    ensures beta_conv { (basis : Items) (t : Nameless) → StaysWithin no_hyps (beta_conv_of basis t) }
    ensures prove_hyp { (a b : Sequent) → StaysWithin (set.union a.hyps b.hyps) (Some (prove_hyp_of a b)) }
    ensures subst { (basis : Items) (a : Sequent) (v : Named) (m : Nameless) (b : Sequent) → StaysWithin (set.union a.hyps b.hyps) (subst_of basis a v m b) }
{}
