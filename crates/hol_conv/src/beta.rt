//! Beta reduction to the end.
ghost use Rattle.std.specs.Prelude.{◌≡◌, [], IfOk};
ghost use Rattle.hol_terms.specs.Nameless.{nameless};
ghost use Rattle.hol_conv.specs.Beta.{beta_turn};
ghost use Rattle.hol_conv.specs.Turns.{all_turns};
ghost use Rattle.hol_conv.specs.Outcomes.{Tells, IsTraceOf};

use crate::all_turns::all_turns;
use crate::error::ConvError;
use crate::redexes::Redexes;
use crate::rewritten::Rewritten;
use hol_terms::Term;
use std::alloc::Global;

/// Replaces the first redex `(\x. b) a` in preorder by `b` with `a` for `x`, under binders too, until there is none. Each costs a turn.
///
/// Answers `Limit` where a redex is there and no turn is left, and `TooLarge` where a turn makes a term of over 20,000 nodes.
///
/// What is to the left of a replaced redex is not searched again. The first search goes through the term at each place where its nodes
/// stand, up to the first redex.
#[tactic(auto, using(crate::proofs::RedexLaws::beta_turns, crate::proofs::Tracing::ends, crate::proofs::Tracing::nothing_given))]
pub fn beta_all(alloc: Global, term: &Term, turns: u32) -> Result<Rewritten, ConvError>
    ensures tells { Tells result (all_turns beta_turn turns (nameless [] term.now)) }
    ensures traced { IfOk result (λ r. IsTraceOf term.now r) }
    ensures used { IfOk result (λ r. r.trace.used ≡ []) }
{
    let ended = all_turns(alloc, &Redexes::Beta, term, turns)?;
    Ok(Rewritten::of(alloc, term, ended)?)
}
