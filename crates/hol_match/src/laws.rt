//! Laws of matching.
ghost use Rattle.std.specs.Prelude.{◌≡◌, ℕ, List, Some, None};
ghost use Rattle.hol_terms.specs.Nameless.{Nameless};
ghost use Rattle.hol_subst.specs.FreeName.{IsFreeName};
ghost use Rattle.hol_match.specs.FreeNames.{free_name};
ghost use Rattle.hol_match.specs.Matches.{FoundIsMostGeneral, NoneIsMissing};
ghost use Rattle.hol_match.specs.RuleLaws.{FirstMakes, FoundIsFirst, RulesGoByParts};
ghost use Rattle.hol_match.specs.Binding.{BindingCommutes};

/// What matching finds beside what stays is a match and says only what every match says, and where it finds nothing there is none.
#[tactic(auto, using(crate::proofs::Staying::answers))]
pub fn matches_are_most_general()
    ensures found { FoundIsMostGeneral }
    ensures none { NoneIsMissing }
{}

/// The rules of a formula are those of what it quantifies over, or of the parts of a conjunction, or its own.
#[tactic(auto, using(crate::proofs::RuleLists::go_by_parts))]
pub fn rules_go_by_parts()
    ensures { RulesGoByParts }
{}

/// The rule of the number that is found is the first one that matches, and where none is found, none matches. What rules make of a term is
/// what the first one makes of it.
#[tactic(auto, using(crate::proofs::FirstEntries::first_found, crate::proofs::FirstEntries::made_by_first))]
pub fn found_is_first()
    ensures found { FoundIsFirst }
    ensures makes { FirstMakes }
{}

/// The search for a name ends at the one with the fewest primes that is the name of no free variable and no constant of the terms.
pub fn free_names_are_new()
    ensures { (avoid : List Nameless) (base : List ℕ) → IsFreeName avoid base (free_name avoid base) }
{}

/// Where a variable that is apart from the rules is bound outside, rules make the same of a term as where it is free, up to the binding.
#[tactic(auto, using(crate::proofs::Contracta::contractum_close))]
pub fn binding_commutes()
    ensures { BindingCommutes }
{}
