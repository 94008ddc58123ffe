//! Each node of a derivation is what its rule makes: the constructors of `Derives`, and the functions of Rules.antt by which the contracts of the rules speak.
ghost use Rattle.std.specs.Prelude.{◌≡◌, ℕ, List, [], ◌∷◌, false, Some};
ghost use Rattle.std.specs.FinSet as set;
ghost use Rattle.hol_types.specs.Tree.{TypeTree};
ghost use Rattle.hol_types.specs.Fun.{fun_type};
ghost use Rattle.hol_terms.specs.Alpha.{strip};
ghost use Rattle.hol_terms.specs.Named.{Named, abs, comb, var};
ghost use Rattle.hol_terms.specs.Nameless.{Nameless, app, base_of, free, lam, nameless};
ghost use Rattle.hol_subst.specs.Closing.{bind, open_with};
ghost use Rattle.hol_subst.specs.Substitution.{term_subst, types_inst};
ghost use Rattle.hol_subst.specs.Variant.{is_free_in};
ghost use Rattle.hol_formulas.specs.Equation.{bool_type, equation};
ghost use Rattle.hol_kernel.specs.Derivation.{Derives};
ghost use Rattle.hol_kernel.specs.Items.{Items};
ghost use Rattle.hol_kernel.specs.Rules.{refl_of, assume_of, beta_of, trans_of, mk_comb_of, abs_of, eq_mp_of, deduct_antisym_of, inst_type_of, inst_of};
ghost use Rattle.hol_kernel.specs.Sequent.{Hyps, hyps_image, no_hyps, only_hyp, sequent_of};
ghost use Rattle.hol_kernel.specs.Typing.{AreTyped, AreTypes, HasType, IsType};
ghost use Rattle.hol_model.specs.LastRule.{EndsWithRule};
ghost use Rattle.hol_model.specs.Pairs.{with_variables, without_names};

/// Under the conditions of its constructor the node of a rule is what the rule's function gives of the sequents above it: so no node goes beyond what HOL Light's rule does.
#[tactic(auto, using(crate::proofs::MadeNodes::nodes))]
pub fn nodes_are_made_by_rules()
    ensures refl { (items : Items) (t : Nameless) (a : TypeTree) → HasType items t a → refl_of items t ≡ Some (sequent_of no_hyps (equation a t t)) }
    ensures trans { (hs ks : Hyps) (a b : TypeTree) (s m n t : Nameless) → strip m ≡ strip n
        → trans_of (sequent_of hs (equation a s m)) (sequent_of ks (equation b n t)) ≡ Some (sequent_of (set.union hs ks) (equation a s t)) }
    ensures mk_comb { (hs ks : Hyps) (a b : TypeTree) (f g x y : Nameless)
        → mk_comb_of (sequent_of hs (equation (fun_type a b) f g)) (sequent_of ks (equation a x y)) ≡ Some (sequent_of (set.union hs ks) (equation b (app f x) (app g y))) }
    ensures abs { (items : Items) (hs : Hyps) (a : TypeTree) (v : List ℕ × TypeTree) (l r : Nameless) → IsType items v.1 → is_free_in (set.items hs) v ≡ false
        → abs_of items (var v) (sequent_of hs (equation a l r)) ≡ Some (sequent_of hs (equation (fun_type v.1 a) (bind v l) (bind v r))) }
    ensures beta { (items : Items) (v : List ℕ × TypeTree) (b : Named) (a : TypeTree) → HasType items (app (lam (base_of v.0) v.1 (nameless (v ∷ []) b)) (free v)) a
        → beta_of items (comb (abs v b) (var v))
        ≡ Some (sequent_of no_hyps (equation a (app (lam (base_of v.0) v.1 (nameless (v ∷ []) b)) (free v)) (open_with (free v) 0 (nameless (v ∷ []) b)))) }
    ensures assume { (items : Items) (p : Nameless) → HasType items p bool_type → assume_of items p ≡ Some (sequent_of (only_hyp p) p) }
    ensures eq_mp { (hs ks : Hyps) (a : TypeTree) (l r m : Nameless) → strip l ≡ strip m
        → eq_mp_of (sequent_of hs (equation a l r)) (sequent_of ks m) ≡ Some (sequent_of (set.union hs ks) r) }
    ensures deduct_antisym { (hs ks : Hyps) (p q : Nameless)
        → deduct_antisym_of (sequent_of hs p) (sequent_of ks q) ≡ sequent_of (set.union (set.remove hs (strip q)) (set.remove ks (strip p))) (equation bool_type p q) }
    ensures inst_type { (items : Items) (hs : Hyps) (p : Nameless) (pairs : List (TypeTree × List ℕ)) → AreTypes items pairs
        → inst_type_of items pairs (sequent_of hs p) ≡ Some (sequent_of (hyps_image (types_inst pairs) hs) (types_inst pairs p)) }
    ensures inst { (items : Items) (hs : Hyps) (p : Nameless) (pairs : List (Named × (List ℕ × TypeTree))) → AreTyped items (without_names pairs)
        → inst_of items (with_variables pairs) (sequent_of hs p) ≡ Some (sequent_of (hyps_image (term_subst (without_names pairs) 0) hs) (term_subst (without_names pairs) 0 p)) }
{}

/// So a derivation ends with what a rule's function makes of sequents that have derivations, or with what the prelude or an item says.
pub fn derivations_end_with_rules()
    ensures { (items : Items) (hs : Hyps) (p : Nameless) → Derives items hs p → EndsWithRule items (sequent_of hs p) }
{}
