//! Laws of substitution, and of the order of terms.
ghost use Rattle.std.specs.Cmp.{IsTotalOrder};
ghost use Rattle.hol_subst.specs.AlphaOrder.{alpha_cmp};
ghost use Rattle.hol_subst.specs.Laws.{OpeningSubstitutes, ClosingReverses, OpeningReverses, OpeningClosedSubstitutes, SubstitutionsCompose, InstancesCompose, UntouchedStays, UntouchedTypesStay};

/// `alpha_order` is a total order.
#[tactic(auto, using(crate::proofs::AlphaOrder::alpha_total))]
pub fn alpha_order_is_total()
    ensures { IsTotalOrder alpha_cmp }
{}

/// Opening an abstraction's body with a variable, and what undoes it.
#[tactic(auto, using(crate::proofs::Opening::open_subst, crate::proofs::Opening::close_open, crate::proofs::Closing::open_close, crate::proofs::Opening::open_close_subst))]
pub fn bodies_open_and_close()
    ensures substitutes { OpeningSubstitutes }
    ensures closes { ClosingReverses }
    ensures opens { OpeningReverses }
    ensures closed_substitutes { OpeningClosedSubstitutes }
{}

/// One substitution after another is one substitution, and so for types.
#[tactic(auto, using(crate::proofs::Composition::subst_composed, crate::proofs::Composition::inst_composed))]
pub fn substitutions_compose()
    ensures terms { SubstitutionsCompose }
    ensures types { InstancesCompose }
{}

/// A term stays as it is in which no variable that is substituted for is free, or no type variable occurs that gets a type.
#[tactic(auto, using(crate::proofs::Composition::subst_untouched, crate::proofs::Composition::inst_untouched))]
pub fn untouched_term_stays()
    ensures terms { UntouchedStays }
    ensures types { UntouchedTypesStay }
{}
