//! The shapes of the slots of a solved graph, or that there are none.
ghost use Rattle.std.specs.Prelude.{◌≡◌, ℕ, ◌+◌, ◌<◌, ◌≤◌, ◌^◌, length, IfOk, IfErr, OnOk, MatchOption, None};
ghost use Rattle.std.specs.List.{All};
ghost use Rattle.hol_types.specs.Tree.{TypeTree};
ghost use Rattle.hol_typing.specs.Graph.{Respects, IsGraph, IsCellIn, IsPartIn, bound_names};
ghost use Rattle.hol_typing.specs.declared.cell.Cell.TheVariants.{Part};
ghost use Rattle.hol_types.specs.Names.{tyvars};
ghost use Rattle.hol_typing.specs.declared.numbering.Numbering.{Numbering};
ghost use Rattle.hol_typing.specs.Numbering.{IsNumbering, IsCounted, limit_of};
ghost use Rattle.hol_typing.specs.Found.{found_at, ArePartsFound, IsPartMissing, AreBoundFound, IsBoundMissing, AddsBound, BuiltFrom, IsBlocked, IsBuilt, IsStuck, missing, StepGives, SweepGives, AreGeneral};

use crate::cell::{Cell, GenericPart};
use crate::expanding::has_variable;
use crate::fault::Fault;
use crate::numbering::{Numbering, numbering_of};
use crate::order::parts_first;
use crate::shape::Shape;
use hol_types::Name;
use std::alloc::{AllocError, Global};

// The shapes of the parts, where each is found.
fn parts_found(
    alloc: Global,
    found: &[Option<Shape>],
    parts: &[usize],
) -> Result<Option<Vec<Shape>>, AllocError>
    requires parts_in { All (λ p. p < length found.now) parts.now }
    ensures { IfOk result (λ o. MatchOption o (IsPartMissing found.now parts.now) (λ shapes. ArePartsFound found.now parts.now shapes.items)) }
{
    let mut shapes = Vec::with_capacity(alloc, parts.len())?;
    for part in parts {
        match &found[*part] {
            Some(shape) => shapes.push(shape.copy()?)?,
            None => return Ok(None),
        }
    }
    Ok(Some(shapes))
}

// Puts the shape of the variable's slot at the end, where the variable stands in the part. Says whether that shape is found.
fn add_bound(
    found: &[Option<Shape>],
    part: &GenericPart,
    at: usize,
    name: &Name,
    bound: &mut Vec<(Shape, Name)>,
) -> Result<bool, AllocError>
    requires row_in { part.now.base + at < length found.now }
    ensures { IfOk result (λ b. AddsBound b found.now part.now at name.now bound.old.items bound.new.items) }
{
    if !has_variable(&part.ty, name) {
        return Ok(true);
    }
    match &found[part.base + at] {
        Some(shape) => {
            bound.push((shape.copy()?, name.copy()?))?;
            Ok(true)
        }
        None => Ok(false),
    }
}

// The shapes of the slots of those variables that stand in the part, where each is found.
fn bound_found(
    alloc: Global,
    found: &[Option<Shape>],
    part: &GenericPart,
) -> Result<Option<Vec<(Shape, Name)>>, AllocError>
    requires row_in { part.now.base + length (bound_names part.now) ≤ length found.now }
    ensures { IfOk result (λ o. MatchOption o (IsBoundMissing found.now part.now) (λ bound. AreBoundFound found.now part.now bound.items)) }
{
    let mut bound = Vec::new(alloc);
    for (at, name) in part.names.iter().enumerate() {
        if !add_bound(found, part, at, name, &mut bound)? {
            return Ok(None);
        }
    }
    Ok(Some(bound))
}

// The shape of a part of an instance, where the shapes of its variables' slots are found.
fn part_shape_of(
    alloc: Global,
    numbering: Numbering,
    found: &[Option<Shape>],
    slot: usize,
    part: &GenericPart,
) -> Result<Option<Shape>, AllocError>
    requires numbered { slot < numbering.slots }
    requires part_in { IsPartIn (length found.now) part.now }
    requires fits { limit_of numbering < 2 ^ 64 }
    requires counted { length (tyvars part.now.ty) ≤ numbering.row }
    ensures { IfOk result (λ o. MatchOption o (IsBoundMissing found.now part.now) (λ shape. BuiltFrom numbering found.now slot shape (Part part.now))) }
{
    match bound_found(alloc, found, part)? {
        Some(bound) => {
            let shape = Shape::part(alloc, &part.ty, bound, numbering.base(slot))?;
            Ok(Some(shape))
        }
        None => Ok(None),
    }
}

// The shape of a slot with this cell, where the shapes of the cell's parts are found.
#[tactic(auto, using(crate::proofs::Numbers::instance_fits))]
fn shape_of_cell(
    alloc: Global,
    numbering: Numbering,
    found: &[Option<Shape>],
    slot: usize,
    cell: &Cell,
) -> Result<Option<Shape>, AllocError>
    requires slot_in { slot < length found.now }
    requires numbered { slot < numbering.slots }
    requires cell_in { IsCellIn (length found.now) slot cell.now }
    requires fits { limit_of numbering < 2 ^ 64 }
    requires counted { IsCounted numbering.row cell.now }
    ensures { IfOk result (λ o. MatchOption o (IsBlocked found.now cell.now) (λ shape. BuiltFrom numbering found.now slot shape cell.now)) }
{
    match cell {
        Cell::Unknown => Ok(Some(Shape::open(alloc, slot)?)),
        Cell::Rigid(name) => Ok(Some(Shape::rigid(alloc, name)?)),
        Cell::Link(target) => match &found[*target] {
            Some(shape) => Ok(Some(shape.copy()?)),
            None => Ok(None),
        },
        Cell::App(name, parts) => match parts_found(alloc, found, parts)? {
            Some(shapes) => Ok(Some(Shape::app(alloc, name, shapes)?)),
            None => Ok(None),
        },
        Cell::Generic(generic) => {
            let shape = Shape::instance(alloc, generic.ty(), numbering.base(slot))?;
            Ok(Some(shape))
        }
        Cell::Part(part) => part_shape_of(alloc, numbering, found, slot, part),
    }
}

// Gives the slot its shape, where it has none and those of its parts are found. Says whether it did.
fn step(
    alloc: Global,
    numbering: Numbering,
    cells: &[Cell],
    found: &mut [Option<Shape>],
    slot: usize,
) -> Result<bool, AllocError>
    requires graph { IsGraph cells.now }
    requires numbering { IsNumbering cells.now numbering }
    requires len { length found.old ≡ length cells.now }
    requires slot_in { slot < length cells.now }
    requires built { IsBuilt cells.now numbering found.old }
    ensures len { length found.new ≡ length cells.now }
    ensures built { IsBuilt cells.now numbering found.new }
    ensures gives { IfOk result (λ b. StepGives cells.now found.old found.new slot b) }
{
    if found[slot].is_some() {
        return Ok(false);
    }
    match shape_of_cell(alloc, numbering, found, slot, &cells[slot])? {
        Some(shape) => {
            found[slot] = Some(shape);
            Ok(true)
        }
        None => Ok(false),
    }
}

// Gives shapes to all slots whose parts have shapes, from the lowest up. Says whether there were such slots.
fn sweep(
    alloc: Global,
    numbering: Numbering,
    cells: &[Cell],
    found: &mut [Option<Shape>],
) -> Result<bool, AllocError>
    requires graph { IsGraph cells.now }
    requires numbering { IsNumbering cells.now numbering }
    requires len { length found.old ≡ length cells.now }
    requires built { IsBuilt cells.now numbering found.old }
    ensures len { length found.new ≡ length cells.now }
    ensures built { IsBuilt cells.now numbering found.new }
    ensures gives { IfOk result (λ b. SweepGives cells.now found.old found.new b) }
{
    let mut progress = false;
    for slot in 0..cells.len() {
        if step(alloc, numbering, cells, found, slot)? {
            progress = true;
        }
    }
    Ok(progress)
}

// Gives each of the slots its shape in turn, where those of its parts are found.
fn find_in_order(
    alloc: Global,
    numbering: Numbering,
    cells: &[Cell],
    found: &mut [Option<Shape>],
    order: &[usize],
) -> Result<(), AllocError>
    requires graph { IsGraph cells.now }
    requires numbering { IsNumbering cells.now numbering }
    requires len { length found.old ≡ length cells.now }
    requires order_in { All (λ s. s < length cells.now) order.now }
    requires built { IsBuilt cells.now numbering found.old }
    ensures len { length found.new ≡ length cells.now }
    ensures built { IsBuilt cells.now numbering found.new }
{
    for slot in order {
        step(alloc, numbering, cells, found, *slot)?;
    }
    Ok(())
}

// Gives shapes to slots until no slot can get one.
fn saturate(
    alloc: Global,
    numbering: Numbering,
    cells: &[Cell],
    found: &mut [Option<Shape>],
) -> Result<(), AllocError>
    requires graph { IsGraph cells.now }
    requires numbering { IsNumbering cells.now numbering }
    requires len { length found.old ≡ length cells.now }
    requires built { IsBuilt cells.now numbering found.old }
    ensures len { length found.new ≡ length cells.now }
    ensures built { IsBuilt cells.now numbering found.new }
    ensures stuck { OnOk result (IsStuck cells.now found.new) }
{
    while sweep(alloc, numbering, cells, found)? {}
    Ok(())
}

// The shapes found, where each slot has one.
fn all_found(alloc: Global, cells: &[Cell], found: &[Option<Shape>]) -> Result<Vec<Shape>, Fault>
    requires graph { IsGraph cells.now }
    requires len { length found.now ≡ length cells.now }
    requires built { (numbering : Numbering) × IsNumbering cells.now numbering × IsBuilt cells.now numbering found.now }
    requires stuck { IsStuck cells.now found.now }
    ensures general { IfOk result (λ v. AreGeneral cells.now v.items) }
    ensures untypable { IfErr result (λ e. e ≡ Fault.Untypable → (types : ℕ → TypeTree) → Respects cells.now types → ⊥) }
{
    let mut shapes = Vec::with_capacity(alloc, found.len())?;
    for shape in found {
        match shape {
            Some(shape) => shapes.push(shape.copy()?)?,
            None => return Err(Fault::Untypable),
        }
    }
    Ok(shapes)
}

// No shapes for as many slots.
fn none_found(alloc: Global, count: usize) -> Result<Vec<Option<Shape>>, AllocError>
    ensures len { IfOk result (λ v. length v.items ≡ count) }
    ensures none { IfOk result (λ v. (i : ℕ) → found_at v.items i ≡ None) }
{
    let mut found = Vec::with_capacity(alloc, count)?;
    for _ in 0..count {
        found.push(None)?;
    }
    Ok(found)
}

/// The shape of each slot: of these the types that meet the graph are the instances.
///
/// Answers `Untypable` only where no types meet the graph. Its time is linear in the graph: with each slot after its parts, one pass finds
/// all that can be found, and one sweep sees that nothing is left. A generic type whose parts have no slots has its shape at once, however
/// large it is. A part of an instance whose variables have slots costs a walk for each of these, up to where it first stands.
pub(crate) fn shapes_of(alloc: Global, cells: &[Cell]) -> Result<Vec<Shape>, Fault>
    requires graph { IsGraph cells.now }
    ensures general { IfOk result (λ v. AreGeneral cells.now v.items) }
    ensures untypable { IfErr result (λ e. e ≡ Fault.Untypable → (types : ℕ → TypeTree) → Respects cells.now types → ⊥) }
{
    let numbering = numbering_of(alloc, cells)?;
    let order = parts_first(alloc, cells)?;
    let mut found = none_found(alloc, cells.len())?;
    find_in_order(alloc, numbering, cells, &mut found, &order)?;
    saturate(alloc, numbering, cells, &mut found)?;
    all_found(alloc, cells, &found)
}
