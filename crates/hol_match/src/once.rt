//! Rules that never are the first to match are left out.
ghost use Rattle.std.specs.Prelude.{IfOk, IsTrue};
ghost use Rattle.hol_match.specs.Spared.{IsSpared, IsAgain, ComesAgain};

use crate::set_rule::SetRule;
use crate::side::Side;
use std::alloc::{AllocError, Global};
use std::collections::BTreeMap;

/// So many rules are tried sooner than they are compared with one another, or looked up.
pub(crate) const FEW: usize = 64;

/// The rules, if they are many without those before which a rule stands that matches the same terms: one of the same left side up to bound
/// names, in which the same stays.
#[tactic(auto, using(crate::proofs::Spared::spared_none))]
pub(crate) fn each_once(alloc: Global, rules: Vec<SetRule>) -> Result<Vec<SetRule>, AllocError>
    ensures { IfOk result (λ kept. IsSpared rules.items kept.items) }
{
    if rules.len() <= FEW {
        return Ok(rules);
    }
    first_ones(alloc, &rules)
}

// The rules that don't come again.
#[tactic(auto, using(crate::proofs::Spared::loops))]
fn first_ones(alloc: Global, rules: &[SetRule]) -> Result<Vec<SetRule>, AllocError>
    ensures { IfOk result (λ kept. IsSpared rules.now kept.items) }
{
    let mut kept = Vec::new(alloc);
    let mut places = BTreeMap::new(alloc);
    for rule in rules {
        if comes_again(&kept, &places, rule)? {
            continue;
        }
        places.insert(Side::of(rule.left())?, kept.len())?;
        kept.push(rule.copy()?)?;
    }
    Ok(kept)
}

// Whether one of these matches the same terms as the rule: the last one of its left side, which is at that place.
#[tactic(auto, using(crate::proofs::Spared::again_at))]
fn comes_again(
    kept: &[SetRule],
    places: &BTreeMap<Side, usize>,
    rule: &SetRule,
) -> Result<bool, AllocError>
    ensures { IfOk result (λ again. IsTrue again → ComesAgain kept.now rule.now) }
{
    let side = Side::of(rule.left())?;
    match places.get(&side).copied() {
        Some(i) => Ok(i < kept.len() && is_again(&kept[i], rule)),
        None => Ok(false),
    }
}

// Whether the two have one left side up to bound names, and the same stays in them.
#[tactic(auto, using(crate::proofs::Spared::again_of))]
fn is_again(earlier: &SetRule, rule: &SetRule) -> bool
    ensures { IsTrue result → IsAgain earlier.now rule.now }
{
    earlier.left().alpha_equivalent(rule.left()) && earlier.fixed().is_same(rule.fixed())
}
