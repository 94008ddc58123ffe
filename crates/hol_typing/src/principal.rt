//! The most general typing of a term.
ghost use Rattle.std.specs.Prelude.{◌≡◌, ℕ, ◌+◌, IfOk, IfErr, min, slice_get};
ghost use Rattle.hol_types.specs.Tree.{TypeTree};
ghost use Rattle.hol_typing.specs.RawView.{raw_tree, slot_tree, scope_slots};
ghost use Rattle.hol_typing.specs.Graph.{IsSolution};
ghost use Rattle.hol_typing.specs.Generate.{IsWellFormed, IsClosedAt};
ghost use Rattle.hol_typing.specs.Typing.{HasNoTyping};
ghost use Rattle.hol_typing.specs.Solved.{IsGraphOf, IsSolvedBy, IsGeneralTyping, slot_term_size, slot_size_of};
ghost use Rattle.hol_typing.specs.Shape.{shape_size};
ghost use Rattle.hol_typing.specs.Found.{shape_at};

use crate::cell::Cell;
use crate::fault::Fault;
use crate::finding::shapes_of;
use crate::generate::Graph;
use crate::raw::RawTerm;
use crate::shape::{Shape, TOO_LARGE};
use crate::skeleton::{Scope, Skeleton};
use std::alloc::{AllocError, Global};

/// A term with a table of the shapes of its slots.
#[derive(Drop)]
pub struct Typed {
    /// The term, with slots for its types.
    pub skeleton: Skeleton,
    /// The shape of each slot's type, by the slot's number.
    pub shapes: Vec<Shape>,
}

// The slots of a term and the equations between them.
fn equations(alloc: Global, term: &RawTerm) -> Result<(Graph, Skeleton), AllocError>
    requires { IsClosedAt 0 (raw_tree term.now) }
    ensures { IfOk result (λ p. IsGraphOf (raw_tree term.now) p.0 (slot_tree p.1)) }
{
    let mut graph = Graph::new(alloc);
    let expected = graph.fresh(Cell::Unknown)?;
    let outermost = Scope::Outermost;
    let skeleton = graph.generate(alloc, &outermost, term, expected)?;
    Ok((graph, Box::into_inner(skeleton)))
}

// The shapes of the slots of a graph, once its equations are solved.
fn solve(alloc: Global, graph: Graph) -> Result<Vec<Shape>, Fault>
    requires { IsWellFormed graph }
    ensures solved { IfOk result (λ v. IsSolvedBy graph v.items) }
    ensures untypable { IfErr result (λ e. e ≡ Fault.Untypable → (types : ℕ → TypeTree) → IsSolution graph.cells.items graph.pending.items types → ⊥) }
{
    let mut settled = graph;
    settled.settle(alloc)?;
    shapes_of(alloc, &settled.cells)
}

/// The most general typing of a term.
///
/// Answers `Untypable` only where there is none.
pub fn principal_typing(alloc: Global, term: &RawTerm) -> Result<Typed, Fault>
    requires { IsClosedAt 0 (raw_tree term.now) }
    ensures general { IfOk result (λ t. IsGeneralTyping (raw_tree term.now) t.shapes.items (slot_tree t.skeleton)) }
    ensures untypable { IfErr result (λ e. e ≡ Fault.Untypable → HasNoTyping (raw_tree term.now)) }
{
    let (graph, skeleton) = equations(alloc, term)?;
    match solve(alloc, graph) {
        Ok(shapes) => Ok(Typed { skeleton, shapes }),
        Err(fault) => Err(fault),
    }
}

// The number of nodes of a slot's type, or 20,001 for more.
fn slot_size(shapes: &[Shape], slot: usize) -> u32
    ensures { result ≡ min (shape_size (shape_at shapes.now slot)) 20001 }
{
    match shapes.get(slot) {
        Some(shape) => shape.size(),
        None => 1,
    }
}

// The size of the type of the variable that an index means.
fn bound_size(shapes: &[Shape], scope: &Scope<'_>, index: usize) -> u32
    ensures { result ≡ min (slot_size_of shapes.now (slice_get (scope_slots scope.now) index)) 20001 }
{
    match scope {
        Scope::Outermost => 0,
        Scope::Inside(slot, outer) => {
            if index == 0 {
                slot_size(shapes, *slot)
            } else {
                bound_size(shapes, outer, index - 1)
            }
        }
    }
}

/// The number of nodes of a term with its types, or 20,001 for more.
pub fn size(shapes: &[Shape], scope: &Scope<'_>, term: &Skeleton) -> u32
    ensures { result ≡ min (slot_term_size shapes.now (scope_slots scope.now) (slot_tree term.now)) 20001 }
{
    match term {
        Skeleton::Bound(index) => (1 + bound_size(shapes, scope, *index)).min(TOO_LARGE),
        Skeleton::Constant(_, slot) => (1 + slot_size(shapes, *slot)).min(TOO_LARGE),
        Skeleton::Free(_, slot) => (1 + slot_size(shapes, *slot)).min(TOO_LARGE),
        Skeleton::Apply(function, argument) => (1
            + size(shapes, scope, function)
            + size(shapes, scope, argument)).min(TOO_LARGE),
        Skeleton::Abstraction(_, slot, body) => {
            let inside = Scope::Inside(*slot, &*scope);
            let body_size = size(shapes, &inside, body);
            (1 + slot_size(shapes, *slot) + body_size).min(TOO_LARGE)
        }
    }
}
