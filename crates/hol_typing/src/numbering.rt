//! Numbers for the open types of generic types whose parts have no slots.
ghost use Rattle.std.specs.Prelude.{◌≡◌, ℕ, ◌+◌, ◌*◌, ◌<◌, ◌≤◌, ◌^◌, length, IfOk, IfErr, IfSome};
ghost use Rattle.hol_types.specs.Names.{tyvars};
ghost use Rattle.hol_typing.specs.Numbering.{base_at, limit_of, IsCounted, IsNumbering};
ghost use Rattle.hol_typing.specs.Graph.{cell_at};

use crate::cell::Cell;
use crate::fault::Fault;
use hol_types::Ty;
use std::alloc::{AllocError, Global};

/// Numbers for the type variables of the generic types of a graph: those of one slot stand in a row, as many as any slot needs, and the
/// rows stand after the numbers of the slots. So the row of a slot needs no walk over its type.
#[derive(Clone, Copy)]
pub(crate) struct Numbering {
    /// How many slots there are.
    pub(crate) slots: usize,
    /// How many numbers a row has.
    pub(crate) row: usize,
}

impl Numbering {
    /// The first number of a slot's row.
    #[tactic(auto, using(crate::proofs::Numbers::row_fits))]
    pub(crate) fn base(self, slot: usize) -> usize
        requires slot_in { slot < self.slots }
        requires fits { limit_of self < 2 ^ 64 }
        ensures { result ≡ base_at self slot }
    {
        self.slots + slot * self.row
    }
}

// A number that the number of the type's variables doesn't exceed. Only for types over the size of any that is written it takes a walk.
#[tactic(auto, using(crate::proofs::Numbers::few_names))]
fn variables(alloc: Global, ty: &Ty) -> Result<usize, AllocError>
    ensures { IfOk result (λ n. length (tyvars ty.now) ≤ n) }
{
    if ty.size() <= 20_000 {
        return Ok(ty.size() as usize);
    }
    let names = ty.tyvars(alloc)?;
    Ok(names.len())
}

// How many numbers the row of a slot with this cell needs at most.
fn needed(alloc: Global, cell: &Cell) -> Result<usize, AllocError>
    ensures { IfOk result (λ n. IsCounted n cell.now) }
{
    match cell {
        Cell::Unknown => Ok(0),
        Cell::Link(_) => Ok(0),
        Cell::Rigid(_) => Ok(0),
        Cell::App(_, _) => Ok(0),
        Cell::Generic(generic) => variables(alloc, generic.ty()),
        Cell::Part(part) => variables(alloc, &part.ty),
    }
}

// How many numbers a row has, so that each slot's row has enough.
fn longest(alloc: Global, cells: &[Cell]) -> Result<usize, AllocError>
    ensures { IfOk result (λ n. (i : ℕ) → IsCounted n (cell_at cells.now i)) }
{
    let mut most: usize = 0;
    for cell in cells {
        most = most.max(needed(alloc, cell)?);
    }
    Ok(most)
}

// One more than the greatest number of a numbering.
fn limit(slots: usize, row: usize) -> Option<usize>
    ensures { IfSome result (λ limit. limit ≡ slots + slots * row) }
{
    slots.checked_mul(row)?.checked_add(slots)
}

/// Numbers for the generic types of the graph. Where there are not enough of them in a machine word, there isn't the memory either.
pub(crate) fn numbering_of(alloc: Global, cells: &[Cell]) -> Result<Numbering, Fault>
    ensures numbering { IfOk result (λ numbering. IsNumbering cells.now numbering) }
    ensures typable { IfErr result (λ e. e ≡ Fault.Untypable → ⊥) }
{
    let row = longest(alloc, cells)?;
    let slots = cells.len();
    match limit(slots, row) {
        Some(_) => Ok(Numbering { slots, row }),
        None => Err(Fault::Memory),
    }
}
