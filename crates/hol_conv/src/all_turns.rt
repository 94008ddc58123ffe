//! Turns to the end.
ghost use Rattle.std.specs.Prelude.{[], IfOk};
ghost use Rattle.hol_terms.specs.Nameless.{nameless};
ghost use Rattle.hol_conv.specs.Redexes.{contraction};
ghost use Rattle.hol_conv.specs.Turns.{turn, all_turns};
ghost use Rattle.hol_conv.specs.Ends.{TellsEnd};
ghost use Rattle.hol_conv.specs.Tracing.{Traces, redex_givens};

use crate::ended::Ended;
use crate::error::ConvError;
use crate::kept::whole;
use crate::place::Place;
use crate::redexes::Redexes;
use hol_terms::Term;
use std::alloc::Global;

/// Replaces the first redex in preorder, under binders too, until there is none. Each costs a turn.
///
/// Answers `Limit` where a redex is there and no turn is left, and `TooLarge` where a turn makes a term of over 20,000 nodes.
#[tactic(auto, using(crate::proofs::AllTurns::all, crate::proofs::Tracing::in_turns))]
pub(crate) fn all_turns(
    alloc: Global,
    redexes: &Redexes,
    term: &Term,
    turns: u32,
) -> Result<Ended, ConvError>
    ensures tells { TellsEnd result (all_turns (turn (contraction redexes.now) []) turns (nameless [] term.now)) }
    ensures traces { IfOk result (λ r. Traces (redex_givens redexes.now) r.node.value (nameless [] term.now) (nameless [] r.term)) }
{
    let depth = redexes.depth();
    let mut place = Place::of(alloc, term)?;
    let mut left = turns;
    'turns: loop {
        let Some(redex) = place.next(alloc, redexes)? else {
            let Place { part, node, .. } = place;
            return Ok(Ended {
                term: part,
                left,
                node: whole(alloc, node)?,
            });
        };
        if left == 0 {
            return Err(ConvError::Limit);
        }
        if place.size_with(&redex.term) > 20_000 {
            return Err(ConvError::TooLarge);
        }
        left -= 1;
        place.put(alloc, redexes, depth, redex)?;
    }
}
