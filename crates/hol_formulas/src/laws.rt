//! Laws of formulas: what is made is taken apart into its parts, and nothing else is.
ghost use Rattle.std.specs.Prelude.{◌≡◌, Some};
ghost use Rattle.hol_types.specs.Tree.{TypeTree};
ghost use Rattle.hol_terms.specs.Nameless.{Nameless};
ghost use Rattle.hol_formulas.specs.Equation.{equation, dest_eq};
ghost use Rattle.hol_formulas.specs.Formula.{conjunction, disjunction, implication, negation, Abstraction, universal, existential, dest_conj, dest_disj, dest_imp, dest_neg, dest_forall, dest_exists};

/// What is made is taken apart into its parts.
#[tactic(auto, using(crate::proofs::FormulaLaws::parts))]
pub fn formulas_have_parts()
    ensures equation { (a : TypeTree) (l r : Nameless) → dest_eq (equation a l r) ≡ Some (record { sides_type = a; left = l; right = r }) }
    ensures conjunction { (p q : Nameless) → dest_conj (conjunction p q) ≡ Some (p, q) }
    ensures disjunction { (p q : Nameless) → dest_disj (disjunction p q) ≡ Some (p, q) }
    ensures implication { (p q : Nameless) → dest_imp (implication p q) ≡ Some (p, q) }
    ensures negation { (p : Nameless) → dest_neg (negation p) ≡ Some p }
    ensures universal { (x : Abstraction) → dest_forall (universal x) ≡ Some x }
    ensures existential { (x : Abstraction) → dest_exists (existential x) ≡ Some x }
{}

/// What is taken apart is made of these parts.
pub fn parts_make_formulas()
    ensures conjunction { (t p q : Nameless) → dest_conj t ≡ Some (p, q) → t ≡ conjunction p q }
    ensures disjunction { (t p q : Nameless) → dest_disj t ≡ Some (p, q) → t ≡ disjunction p q }
    ensures implication { (t p q : Nameless) → dest_imp t ≡ Some (p, q) → t ≡ implication p q }
    ensures negation { (t p : Nameless) → dest_neg t ≡ Some p → t ≡ negation p }
    ensures universal { (t : Nameless) (x : Abstraction) → dest_forall t ≡ Some x → t ≡ universal x }
    ensures existential { (t : Nameless) (x : Abstraction) → dest_exists t ≡ Some x → t ≡ existential x }
{}
