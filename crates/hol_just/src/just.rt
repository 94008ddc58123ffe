//! Justifications, as lists of moves.
ghost use Rattle.std.specs.Prelude.{◌≡◌, ◌∷◌, ◌++◌, [], IfOk, OnOk};
ghost use Rattle.hol_just.specs.Gives.{moved};

use crate::reason::{Move, Reason};
use std::alloc::{AllocError, Global};
use std::marker::Model;

/// A justification: the moves by which goals were left, in the order in which they were made. It is flat, so that nothing that is
/// done with it recurses as deep as a proof.
#[derive(Drop)]
pub struct Just {
    moves: Vec<Move>,
}

impl Model for Just {
    ghost use Rattle.std.specs.Prelude.{List};
    ghost use Rattle.hol_just.specs.declared.reason.Move.{Move};

    ghost Value = { List Move };

    ghost use Rattle.std.specs.Coded.{codes};
    ghost use Rattle.hol_terms.specs.Code.{coded_named};
    ghost use Rattle.hol_kernel.specs.Given.{given_code};
    ghost use Rattle.hol_conv.specs.Traces.{trace_code};

    ghost coded = { Prim.hlevel (codes, coded_named, given_code, trace_code) };

    ghost view = { λ j. j.moves.items };
}

impl Just {
    /// Of goals that were left as they are.
    pub fn none(alloc: Global) -> Just
        ensures { result ≡ [] }
    {
        Just {
            moves: Vec::new(alloc),
        }
    }

    /// Of the goals that a reason left of the first goal.
    pub fn one(alloc: Global, reason: Reason) -> Result<Just, AllocError>
        ensures { IfOk result (λ just. just ≡ record { place = 0; reason = reason } ∷ []) }
    {
        let mut moves = Vec::new(alloc);
        moves.push(Move { place: 0, reason })?;
        Ok(Just { moves })
    }

    /// The moves.
    pub fn moves(&self) -> &[Move]
        ensures { result.now ≡ self.now }
    {
        self.moves.as_slice()
    }

    /// The moves, and then those of another justification, whose first goal stands at a place.
    pub fn then_at(&mut self, place: usize, more: &Just) -> Result<(), AllocError>
        ensures { OnOk result (self.new ≡ self.old ++ moved place more.now) }
    {
        add_moves(&mut self.moves, place, more.moves())
    }

    /// The moves, and then those of another justification, whose first goal stands at a place.
    pub(crate) fn joined(self, place: usize, more: Just) -> Result<Just, AllocError>
        ensures { IfOk result (λ just. just ≡ self ++ moved place more) }
    {
        let mut just = self;
        just.then_at(place, &more)?;
        Ok(just)
    }

    /// An equal justification.
    pub fn copy(&self, alloc: Global) -> Result<Just, AllocError>
        ensures { IfOk result (λ just. just ≡ self.now) }
    {
        let mut moves = Vec::with_capacity(alloc, self.moves.len())?;
        for one in self.moves.as_slice() {
            moves.push(one.copy()?)?;
        }
        Ok(Just { moves })
    }
}

// Puts the moves, so many places further on, at the end. No list in memory has places beyond `usize`, so that memory is short where one would be.
fn add_moves(to: &mut Vec<Move>, place: usize, moves: &[Move]) -> Result<(), AllocError>
    ensures { OnOk result (to.new.items ≡ to.old.items ++ moved place moves.now) }
{
    for one in moves {
        let Some(further) = place.checked_add(one.place) else {
            return Err(AllocError);
        };
        to.push(Move {
            place: further,
            reason: one.reason.copy()?,
        })?;
    }
    Ok(())
}
