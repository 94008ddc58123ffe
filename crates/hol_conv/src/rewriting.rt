//! Rewriting by rules.
ghost use Rattle.std.specs.Prelude.{[], IfOk};
ghost use Rattle.hol_terms.specs.Nameless.{nameless};
ghost use Rattle.hol_match.specs.SetView.{set_rules, set_givens, AreGivenIn};
ghost use Rattle.hol_conv.specs.Turns.{all_turns};
ghost use Rattle.hol_conv.specs.Rewriting.{rewrite_turn};
ghost use Rattle.hol_conv.specs.Once.{rewritten_once};
ghost use Rattle.hol_conv.specs.Outcomes.{Tells, IsTraceOf};

use crate::all_turns::all_turns;
use crate::error::ConvError;
use crate::once_beside::once_beside;
use crate::redexes::Redexes;
use crate::rewritten::Rewritten;
use hol_match::RuleSet;
use hol_terms::Term;
use std::alloc::Global;

/// Replaces the first part in preorder that a rule matches by what the first such rule makes of it, under binders too, until no rule
/// matches a part. Each costs a turn.
///
/// Answers `Limit` where a rule matches and no turn is left, and `TooLarge` where a turn makes a term of over 20,000 nodes.
///
/// What is to the left of a replaced part is not searched again. The first search goes through the term at each place where its nodes
/// stand, up to the first part that a rule matches. Parts that can have no redex, by their constants, are passed over.
#[tactic(auto, using(crate::proofs::Tracing::ends))]
pub fn rewrite(
    alloc: Global,
    rules: &RuleSet,
    term: &Term,
    turns: u32,
) -> Result<Rewritten, ConvError>
    ensures tells { Tells result (all_turns (rewrite_turn (set_rules rules.now.rules.items)) turns (nameless [] term.now)) }
    ensures traced { IfOk result (λ r. IsTraceOf term.now r) }
    ensures used { IfOk result (λ r. AreGivenIn (set_givens rules.now.rules.items) r.trace.used) }
{
    let ended = all_turns(alloc, &Redexes::Rules(rules), term, turns)?;
    Ok(Rewritten::of(alloc, term, ended)?)
}

/// Replaces each topmost part that a rule matches by what the first such rule makes of it, under binders too, once: what a part became is
/// not searched again, nor is what stands above it. Each costs a turn.
///
/// Answers `Limit` where a rule matches a further part and no turn is left, and `TooLarge` where the whole term has over 20,000 nodes
/// after a turn.
///
/// The term is gone through at each place where its nodes stand, and built again, but for parts that can have no redex, by their constants.
#[tactic(auto, using(crate::proofs::OnceParts::whole, crate::proofs::Tracing::ends))]
pub fn once(alloc: Global, rules: &RuleSet, term: &Term, turns: u32) -> Result<Rewritten, ConvError>
    ensures tells { Tells result (rewritten_once (set_rules rules.now.rules.items) turns (nameless [] term.now)) }
    ensures traced { IfOk result (λ r. IsTraceOf term.now r) }
    ensures used { IfOk result (λ r. AreGivenIn (set_givens rules.now.rules.items) r.trace.used) }
{
    let ended = once_beside(alloc, &Redexes::Rules(rules), term, 0, turns)?;
    Ok(Rewritten::of(alloc, term, Box::into_inner(ended))?)
}
