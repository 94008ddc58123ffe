//! An order of slots in which each comes after its parts.
ghost use Rattle.std.specs.Prelude.{◌<◌, length, IfOk, OnOk};
ghost use Rattle.std.specs.List.{All};

use crate::cell::Cell;
use std::alloc::{AllocError, Global};

// A step of the walk over slots and their parts.
#[derive(Clone, Copy)]
enum Visit {
    // To a slot, and first to its parts.
    Enter(usize),
    // Back at a slot, all whose parts were visited.
    Leave(usize),
}

// The visits to all slots, none of which was seen.
fn all_slots(alloc: Global, count: usize) -> Result<(Vec<Visit>, Vec<bool>), AllocError> {
    let mut visits = Vec::with_capacity(alloc, count)?;
    let mut seen = Vec::with_capacity(alloc, count)?;
    for slot in 0..count {
        visits.push(Visit::Enter(slot))?;
        seen.push(false)?;
    }
    Ok((visits, seen))
}

// How many visits there are at most: each slot is entered once for itself and once for each cell that it is a part of, and left once.
fn visits_count(cells: &[Cell]) -> usize {
    let mut count: usize = 0;
    for cell in cells {
        let visits = match cell {
            Cell::Unknown => 2,
            Cell::Rigid(_) => 2,
            Cell::Link(_) => 3,
            Cell::App(_, parts) => parts.len().saturating_add(2),
            Cell::Generic(_) => 2,
            Cell::Part(part) => part.names.len().saturating_add(2),
        };
        count = count.saturating_add(visits);
    }
    count
}

// Plans the visits to so many slots from `base` on.
fn enter_row(visits: &mut Vec<Visit>, base: usize, count: usize) -> Result<(), AllocError> {
    for place in 0..count {
        visits.push(Visit::Enter(base.saturating_add(place)))?;
    }
    Ok(())
}

// Plans the visits to the parts of a slot and back to it, if it wasn't seen yet.
fn enter(
    cells: &[Cell],
    visits: &mut Vec<Visit>,
    seen: &mut [bool],
    slot: usize,
) -> Result<(), AllocError> {
    match seen.get_mut(slot) {
        Some(mark) => {
            if *mark {
                return Ok(());
            }
            *mark = true;
        }
        None => return Ok(()),
    }
    visits.push(Visit::Leave(slot))?;
    match cells.get(slot) {
        Some(Cell::Link(target)) => visits.push(Visit::Enter(*target))?,
        Some(Cell::App(_, parts)) => {
            for part in parts {
                visits.push(Visit::Enter(*part))?;
            }
        }
        Some(Cell::Unknown) => {}
        Some(Cell::Rigid(_)) => {}
        Some(Cell::Generic(_)) => {}
        Some(Cell::Part(part)) => enter_row(visits, part.base, part.names.len())?,
        None => {}
    }
    Ok(())
}

// Makes a visit: a slot that it is back at is the next in order.
fn make(
    cells: &[Cell],
    visits: &mut Vec<Visit>,
    seen: &mut [bool],
    order: &mut Vec<usize>,
    visit: Visit,
) -> Result<(), AllocError>
    requires { All (λ s. s < length cells.now) order.old.items }
    ensures { OnOk result (All (λ s. s < length cells.now) order.new.items) }
{
    match visit {
        Visit::Enter(slot) => enter(cells, visits, seen, slot),
        Visit::Leave(slot) => {
            if slot < cells.len() {
                order.push(slot)?;
            }
            Ok(())
        }
    }
}

/// The slots of the cells, each after its parts where no slot is a part of itself.
pub(crate) fn parts_first(alloc: Global, cells: &[Cell]) -> Result<Vec<usize>, AllocError>
    ensures { IfOk result (λ order. All (λ s. s < length cells.now) order.items) }
{
    let (mut visits, mut seen) = all_slots(alloc, cells.len())?;
    let mut order = Vec::with_capacity(alloc, cells.len())?;
    for _ in 0..visits_count(cells) {
        match visits.pop() {
            Some(visit) => make(cells, &mut visits, &mut seen, &mut order, visit)?,
            None => return Ok(order),
        }
    }
    Ok(order)
}
