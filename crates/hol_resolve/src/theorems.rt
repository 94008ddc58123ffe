//! Theorems as they are written.
ghost use Rattle.std.specs.Prelude.{◌≡◌, IfOk, bytes_eq, option_copied};
ghost use Rattle.std.specs.Map.{lookup};
ghost use Rattle.hol_resolve.specs.Forward.{standing, theorem_written};
ghost use Rattle.hol_resolve.specs.Over.{AreOver, AreWithin};
ghost use Rattle.hol_resolve.specs.ReadingView.{readings_value};
ghost use Rattle.hol_resolve.specs.Steps.{placed, IsPlaced};

use crate::readings::Readings;
use crate::refusal::Refusal;
use crate::rules::{
    Written, by_assume, by_conjunct1, by_conjunct2, by_inst_type, by_mp, by_refl, by_spec, by_sym,
};
use hol_kernel::{Basis, Thm};
use hol_notation_tactics::{ThmExpr, ThmExprNode};
use hol_types::Name;
use std::alloc::{AllocError, Global};

/// What a theorem as it is written comes to over a basis that contains those of the theorems that are cited by their names, and over which the readings stand.
///
/// Rules are applied innermost first, from left to right, and the first that is refused answers: by `UnknownTheorem` where nothing stands under a name, by `BadRule` where
/// the rule does not apply, by `TooLarge` where what it gives has over 20,000 nodes, all terms counted.
#[tactic(auto, using(crate::proofs::Applied::placed_is, crate::proofs::Applied::placed_step, crate::proofs::Applied::placed_both, crate::proofs::Over::term_over, crate::proofs::Over::term_over_these, crate::proofs::Applied::placed_over_these))]
pub fn theorem_written(
    alloc: Global,
    theorem: &ThmExpr,
    cited: &[(Name, Thm)],
    readings: &Readings,
    basis: &Basis,
) -> Result<Result<Thm, Refusal>, AllocError>
    requires over { AreOver basis.now (readings_value readings.now) }
    requires within { AreWithin basis.now cited.now }
    ensures value { IfOk result (λ r. r ≡ placed basis.now (theorem_written cited.now (readings_value readings.now) theorem.now)) }
    ensures placed { IfOk result (IsPlaced basis.now) }
{
    match theorem.node() {
        ThmExprNode::Name(name) => cited_theorem(alloc, name.as_str(), cited, basis),
        ThmExprNode::Assume(p) => by_assume(alloc, basis, readings.term_at(p.place)),
        ThmExprNode::Refl(t) => by_refl(alloc, basis, readings.term_at(t.place)),
        ThmExprNode::Spec(t, part) => {
            let part = theorem_written(alloc, part, cited, readings, basis)?;
            by_spec(alloc, basis, readings.term_at(t.place), part)
        }
        ThmExprNode::Sym(part) => {
            by_sym(alloc, theorem_written(alloc, part, cited, readings, basis)?)
        }
        ThmExprNode::Conjunct1(part) => {
            let part = theorem_written(alloc, part, cited, readings, basis)?;
            by_conjunct1(part)
        }
        ThmExprNode::Conjunct2(part) => {
            let part = theorem_written(alloc, part, cited, readings, basis)?;
            by_conjunct2(part)
        }
        ThmExprNode::Mp(implication, premise) => {
            let implication = theorem_written(alloc, implication, cited, readings, basis)?;
            let premise = theorem_written(alloc, premise, cited, readings, basis)?;
            by_mp(alloc, basis, implication, premise)
        }
        ThmExprNode::InstType(pairs, part) => {
            let part = theorem_written(alloc, part, cited, readings, basis)?;
            by_inst_type(alloc, basis, readings, pairs, part)
        }
    }
}

// The theorem that stands under the name.
fn find<'a>(cited: &'a [(Name, Thm)], name: &str) -> Option<&'a Thm>
    ensures { option_copied result ≡ lookup (bytes_eq name.now) cited.now }
{
    for entry in cited {
        if name == entry.0.as_str() {
            return Some(&entry.1);
        }
    }
    None
}

/// The theorem that stands under the name, over the basis.
#[tactic(auto, using(crate::proofs::Over::cited_within))]
pub(crate) fn cited_theorem(
    alloc: Global,
    name: &str,
    cited: &[(Name, Thm)],
    basis: &Basis,
) -> Result<Written, AllocError>
    requires { AreWithin basis.now cited.now }
    ensures { IfOk result (λ r. r ≡ placed basis.now (standing name.now (lookup (bytes_eq name.now) cited.now))) }
{
    match find(cited, name) {
        Some(th) => Ok(Ok(th.widen(basis)?)),
        None => Ok(Err(Refusal::UnknownTheorem(Name::new(alloc, name)?))),
    }
}
