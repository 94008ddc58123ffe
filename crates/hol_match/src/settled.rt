//! Rules of whose left sides all stays, by these.
ghost use Rattle.std.specs.Prelude.{◌≡◌, ◌&&◌, [], cond, IfOk, OnOk, Some};
ghost use Rattle.std.specs.BTreeMap.{get};
ghost use Rattle.std.specs.Ordering.{is_eq};
ghost use Rattle.hol_terms.specs.Nameless.{nameless};
ghost use Rattle.hol_subst.specs.AlphaOrder.{alpha_cmp};
ghost use Rattle.hol_match.specs.Heads.{is_settled};
ghost use Rattle.hol_match.specs.HeadView.{ArePlaces, side_cmp};
ghost use Rattle.hol_match.specs.SetView.{set_rule};
ghost use Rattle.hol_match.specs.declared.side.Side.{Side};

use crate::set_rule::SetRule;
use crate::side::Side;
use std::alloc::{AllocError, Global};
use std::collections::BTreeMap;

/// At each left side of which all stays the number of its first rule.
#[tactic(auto, using(crate::proofs::Ground::placing))]
pub(crate) fn settled_rules(
    alloc: Global,
    rules: &[SetRule],
) -> Result<BTreeMap<Side, usize>, AllocError>
    ensures { IfOk result (λ places. ArePlaces rules.now places) }
{
    let mut places = BTreeMap::new(alloc);
    let mut left = rules.len();
    'rules: while left > 0 {
        left -= 1;
        put_rule(&mut places, &rules[left], left)?;
    }
    Ok(places)
}

// Puts the number of the rule at its left side, if all of that stays.
#[tactic(auto, using(crate::proofs::Ground::putting))]
fn put_rule(places: &mut BTreeMap<Side, usize>, rule: &SetRule, i: usize) -> Result<(), AllocError>
    ensures { OnOk result ((q : Side) → get side_cmp places.new q ≡ cond (is_settled (set_rule rule.now) && is_eq (alpha_cmp (set_rule rule.now).rule.left (nameless [] q.term))) (Some i) (get side_cmp places.old q)) }
{
    if !rule.is_settled() {
        return Ok(());
    }
    places.insert(Side::of(rule.left())?, i)?;
    Ok(())
}
