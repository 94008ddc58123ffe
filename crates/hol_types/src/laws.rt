//! Laws of types.
ghost use Rattle.std.specs.Prelude.{◌≡◌, ℕ, List};
ghost use Rattle.std.specs.Cmp.{IsTotalOrder};
ghost use Rattle.hol_types.specs.Tree.{TypeTree};
ghost use Rattle.hol_types.specs.Subst.{type_subst, types_composed, TypeUntouched};
ghost use Rattle.hol_types.specs.Order.{type_cmp};

/// `Ty::order` is a total order.
#[tactic(auto, using(crate::proofs::OrderLaws::type_cmp_total))]
pub fn order_is_total()
    ensures { IsTotalOrder type_cmp }
{}

/// One substitution after another is one substitution.
#[tactic(auto, using(crate::proofs::SubstLaws::type_subst_composed))]
pub fn substitutions_compose()
    ensures { (ps : List (TypeTree × List ℕ)) (qs : List (TypeTree × List ℕ)) (t : TypeTree) → type_subst ps (type_subst qs t) ≡ type_subst (types_composed ps qs) t }
{}

/// A type of whose variables none has a pair stays as it is.
#[tactic(auto, using(crate::proofs::SubstLaws::type_untouched))]
pub fn untouched_type_stays()
    ensures { (pairs : List (TypeTree × List ℕ)) (t : TypeTree) → TypeUntouched pairs t → type_subst pairs t ≡ t }
{}
