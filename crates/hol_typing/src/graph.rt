//! Unification over a graph of slots.
ghost use Rattle.std.specs.Prelude.{◌≡◌, ℕ, ◌+◌, ◌<◌, ◌≤◌, ◌++◌, ◌∷◌, [], length, set, OnOk, IfOk, IfErr, IfSome, MatchOption, None};
ghost use Rattle.hol_typing.specs.declared.cell.Cell.TheVariants.{Link};
ghost use Rattle.hol_types.specs.Tree.{TypeTree};
ghost use Rattle.hol_typing.specs.Graph.{cell_at, Respects, SameSolutions, HasNoSolution, IsGraph, AreIn, IsRootCell, IsKnownCell, IsJoined, HaveNoType, part_equations, work_left, generics, AreJoinable, IsGenericSide, IsGenericAt};

use crate::cell::{Cell, Equation};
use crate::fault::Fault;
use hol_types::Name;
use std::alloc::AllocError;

// The slot at the end of a slot's links.
fn root(cells: &[Cell], slot: usize) -> usize
    requires slot_in { slot < length cells.now }
    requires graph { IsGraph cells.now }
    ensures lower { result ≤ slot }
    ensures no_link { IsRootCell (cell_at cells.now result) }
    ensures same { (types : ℕ → TypeTree) → Respects cells.now types → types slot ≡ types result }
{
    let mut at = slot;
    while let Cell::Link(next) = &cells[at] {
        at = *next;
    }
    at
}

// Puts the equations between the parts at the end.
fn push_parts(
    pending: &mut Vec<Equation>,
    lefts: &[usize],
    rights: &[usize],
) -> Result<(), AllocError>
    requires one_length { length lefts.now ≡ length rights.now }
    ensures { OnOk result (pending.new.items ≡ pending.old.items ++ part_equations lefts.now rights.now) }
{
    for (i, left) in lefts.iter().enumerate() {
        pending.push(Equation {
            left: *left,
            right: rights[i],
        })?;
    }
    Ok(())
}

// Answers `Untypable` unless the names are one.
fn one_name(a: &Name, b: &Name) -> Result<(), Fault>
    ensures same { OnOk result (a.now ≡ b.now) }
    ensures other { IfErr result (λ e. a.now ≡ b.now → ⊥) }
{
    if a.same(b) {
        return Ok(());
    }
    Err(Fault::Untypable)
}

// Puts the equations between the parts of two types of one constructor at the end. Answers `Untypable` where one has more parts.
fn join_parts(lefts: &[usize], rights: &[usize], pending: &mut Vec<Equation>) -> Result<(), Fault>
    ensures equations { OnOk result ((length lefts.now ≡ length rights.now) × (pending.new.items ≡ pending.old.items ++ part_equations lefts.now rights.now)) }
    ensures untypable { IfErr result (λ e. e ≡ Fault.Untypable → length lefts.now ≡ length rights.now → ⊥) }
{
    if lefts.len() != rights.len() {
        return Err(Fault::Untypable);
    }
    push_parts(pending, lefts, rights)?;
    Ok(())
}

// Puts the equations at the end that hold where a type that meets the first cell meets the second.
fn join(low: &Cell, high: &Cell, pending: &mut Vec<Equation>) -> Result<(), Fault>
    requires low_known { IsKnownCell low.now }
    requires high_root { IsRootCell high.now }
    requires joinable { AreJoinable low.now high.now }
    ensures joined { OnOk result (IsJoined low.now high.now pending.old.items pending.new.items) }
    ensures untypable { IfErr result (λ e. e ≡ Fault.Untypable → HaveNoType low.now high.now) }
{
    match (low, high) {
        (Cell::Rigid(_), Cell::Unknown) => Ok(()),
        (Cell::App(_, _), Cell::Unknown) => Ok(()),
        (Cell::Generic(_), Cell::Unknown) => Ok(()),
        (Cell::Generic(_), Cell::Generic(_)) => Ok(()),
        (Cell::Part(_), Cell::Unknown) => Ok(()),
        (Cell::Rigid(a), Cell::Rigid(b)) => one_name(a, b),
        (Cell::App(c, lefts), Cell::App(d, rights)) => {
            one_name(c, d)?;
            join_parts(lefts, rights, pending)
        }
        (Cell::Rigid(_), Cell::App(_, _)) => Err(Fault::Untypable),
        (Cell::App(_, _), Cell::Rigid(_)) => Err(Fault::Untypable),
        (Cell::Generic(_), Cell::Rigid(_)) => Err(Fault::Untypable),
        (Cell::Generic(_), Cell::App(_, _)) => Err(Fault::Untypable),
        (Cell::Rigid(_), Cell::Generic(_)) => Err(Fault::Untypable),
        (Cell::App(_, _), Cell::Generic(_)) => Err(Fault::Untypable),
        (Cell::Unknown, _) => Err(Fault::Untypable),
        (Cell::Link(_), _) => Err(Fault::Untypable),
        (_, Cell::Link(_)) => Err(Fault::Untypable),
        (Cell::Rigid(_), Cell::Part(_)) => Err(Fault::Untypable),
        (Cell::App(_, _), Cell::Part(_)) => Err(Fault::Untypable),
        (Cell::Generic(_), Cell::Part(_)) => Err(Fault::Untypable),
        (Cell::Part(_), Cell::Rigid(_)) => Err(Fault::Untypable),
        (Cell::Part(_), Cell::App(_, _)) => Err(Fault::Untypable),
        (Cell::Part(_), Cell::Generic(_)) => Err(Fault::Untypable),
        (Cell::Part(_), Cell::Part(_)) => Err(Fault::Untypable),
    }
}

// Makes one slot of two roots.
fn merge(
    cells: &mut [Cell],
    pending: &mut Vec<Equation>,
    low: usize,
    high: usize,
) -> Result<(), Fault>
    requires order { low < high }
    requires high_in { high < length cells.old }
    requires graph { IsGraph cells.old }
    requires pending_in { AreIn cells.old pending.old.items }
    requires low_root { IsRootCell (cell_at cells.old low) }
    requires high_root { IsRootCell (cell_at cells.old high) }
    requires joinable { AreJoinable (cell_at cells.old low) (cell_at cells.old high) }
    ensures graph { IsGraph cells.new }
    ensures len { length cells.new ≡ length cells.old }
    ensures pending_in { OnOk result (AreIn cells.new pending.new.items) }
    ensures solutions { OnOk result (SameSolutions cells.new pending.new.items cells.old (record { left = low; right = high } ∷ pending.old.items)) }
    ensures untypable { IfErr result (λ e. e ≡ Fault.Untypable → HasNoSolution cells.old (record { left = low; right = high } ∷ pending.old.items)) }
    ensures less { OnOk result (work_left cells.new pending.new.items < work_left cells.old pending.old.items) }
    ensures generics { generics cells.new ≤ generics cells.old }
{
    if let Cell::Unknown = &cells[low] {
        take_cell(cells, low, high);
        return Ok(());
    }
    join(&cells[low], &cells[high], pending)?;
    cells[high] = Cell::Link(low);
    Ok(())
}

// Moves the cell of a slot to a lower one, and links the slot to that.
fn take_cell(cells: &mut [Cell], low: usize, high: usize)
    requires order { low < high }
    requires high_in { high < length cells.old }
    ensures { cells.new ≡ set (set cells.old high (Link low)) low (cell_at cells.old high) }
{
    let cell = std::mem::replace(&mut cells[high], Cell::Link(low));
    cells[low] = cell;
}

/// One of two slots.
#[derive(Clone, Copy)]
pub(crate) enum Side {
    /// That of the lower number.
    Low,
    /// That of the higher number.
    High,
}

// Which of two slots of these cells must get slots for the parts of its generic type before they can be one.
fn waiting(low: &Cell, high: &Cell) -> Option<Side>
    ensures { MatchOption result (AreJoinable low.now high.now) (λ side. IsGenericSide side low.now high.now) }
{
    match (low, high) {
        (Cell::Generic(a), Cell::Generic(b)) => {
            if a.same(b) {
                return None;
            }
            Some(Side::Low)
        }
        (Cell::Generic(_), Cell::Rigid(_) | Cell::App(_, _) | Cell::Part(_)) => Some(Side::Low),
        (Cell::Part(_), Cell::Rigid(_) | Cell::App(_, _)) => Some(Side::Low),
        (Cell::Part(_), Cell::Generic(_) | Cell::Part(_)) => Some(Side::Low),
        (Cell::Rigid(_) | Cell::App(_, _), Cell::Generic(_) | Cell::Part(_)) => Some(Side::High),
        (Cell::Generic(_) | Cell::Part(_), Cell::Unknown | Cell::Link(_)) => None,
        (Cell::Rigid(_) | Cell::App(_, _), Cell::Unknown | Cell::Link(_)) => None,
        (Cell::Rigid(_) | Cell::App(_, _), Cell::Rigid(_) | Cell::App(_, _)) => None,
        (Cell::Unknown, _) => None,
        (Cell::Link(_), _) => None,
    }
}

// Makes one slot of two roots; or puts the equation back and answers the root that must first get slots for the parts of its generic type.
fn settle(
    cells: &mut [Cell],
    pending: &mut Vec<Equation>,
    low: usize,
    high: usize,
) -> Result<Option<usize>, Fault>
    requires order { low < high }
    requires high_in { high < length cells.old }
    requires graph { IsGraph cells.old }
    requires pending_in { AreIn cells.old pending.old.items }
    requires low_root { IsRootCell (cell_at cells.old low) }
    requires high_root { IsRootCell (cell_at cells.old high) }
    ensures graph { IsGraph cells.new }
    ensures len { length cells.new ≡ length cells.old }
    ensures pending_in { OnOk result (AreIn cells.new pending.new.items) }
    ensures solutions { OnOk result (SameSolutions cells.new pending.new.items cells.old (record { left = low; right = high } ∷ pending.old.items)) }
    ensures untypable { IfErr result (λ e. e ≡ Fault.Untypable → HasNoSolution cells.old (record { left = low; right = high } ∷ pending.old.items)) }
    ensures waits { IfOk result (λ o. IfSome o (λ slot. IsGenericAt cells.new slot)) }
    ensures less { IfOk result (λ o. o ≡ None → work_left cells.new pending.new.items < work_left cells.old pending.old.items) }
    ensures generics { generics cells.new ≤ generics cells.old }
{
    let slot = match waiting(&cells[low], &cells[high]) {
        None => {
            merge(cells, pending, low, high)?;
            return Ok(None);
        }
        Some(Side::Low) => low,
        Some(Side::High) => high,
    };
    pending.push(Equation {
        left: low,
        right: high,
    })?;
    Ok(Some(slot))
}

// Makes one slot of the roots of two slots; or puts an equation between the roots back and answers the one that must first get slots
// for the parts of its generic type.
fn equate(
    cells: &mut [Cell],
    pending: &mut Vec<Equation>,
    equation: Equation,
) -> Result<Option<usize>, Fault>
    requires graph { IsGraph cells.old }
    requires pending_in { AreIn cells.old pending.old.items }
    requires left_in { equation.left < length cells.old }
    requires right_in { equation.right < length cells.old }
    ensures graph { IsGraph cells.new }
    ensures len { length cells.new ≡ length cells.old }
    ensures pending_in { OnOk result (AreIn cells.new pending.new.items) }
    ensures solutions { OnOk result (SameSolutions cells.new pending.new.items cells.old (equation ∷ pending.old.items)) }
    ensures untypable { IfErr result (λ e. e ≡ Fault.Untypable → HasNoSolution cells.old (equation ∷ pending.old.items)) }
    ensures waits { IfOk result (λ o. IfSome o (λ slot. IsGenericAt cells.new slot)) }
    ensures less { IfOk result (λ o. o ≡ None → work_left cells.new pending.new.items ≤ work_left cells.old pending.old.items) }
    ensures generics { generics cells.new ≤ generics cells.old }
{
    let left = root(cells, equation.left);
    let right = root(cells, equation.right);
    if left < right {
        return settle(cells, pending, left, right);
    }
    if right < left {
        return settle(cells, pending, right, left);
    }
    Ok(None)
}

/// Solves equations, until none is left or a slot must get slots for the parts of its generic type, which is then the answer: the types that
/// meet the graph and the equations afterwards are those that did before.
///
/// Answers `Untypable` only where there were none.
pub(crate) fn unify(cells: &mut [Cell], pending: &mut Vec<Equation>) -> Result<Option<usize>, Fault>
    requires graph { IsGraph cells.old }
    requires pending_in { AreIn cells.old pending.old.items }
    ensures graph { IsGraph cells.new }
    ensures len { length cells.new ≡ length cells.old }
    ensures pending_in { OnOk result (AreIn cells.new pending.new.items) }
    ensures solutions { OnOk result (SameSolutions cells.new pending.new.items cells.old pending.old.items) }
    ensures stops { IfOk result (λ o. MatchOption o (pending.new.items ≡ []) (λ slot. IsGenericAt cells.new slot)) }
    ensures generics { generics cells.new ≤ generics cells.old }
    ensures untypable { IfErr result (λ e. e ≡ Fault.Untypable → HasNoSolution cells.old pending.old.items) }
{
    while let Some(equation) = pending.pop() {
        if let Some(slot) = equate(cells, pending, equation)? {
            return Ok(Some(slot));
        }
    }
    Ok(None)
}
