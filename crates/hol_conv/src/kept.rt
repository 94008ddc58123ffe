//! Traces of terms around the part at which a search stands.
ghost use Rattle.std.specs.Prelude.{◌≡◌, reverse, IfOk, OnOk};
ghost use Rattle.hol_conv.specs.Tracing.{IsAfter};
ghost use Rattle.hol_conv.specs.Kept.{node_of, is_kept, kept_at, kept_outside, IsPut, LeadsOut};

use crate::frame::Step;
use crate::trace_node::{TraceNode, append};
use std::alloc::{AllocError, Global};

/// How a term at some depth was rewritten, before the search went on from it.
#[derive(Drop)]
pub(crate) struct Kept {
    depth: usize,
    node: Box<TraceNode>,
}

/// Puts the trace of a term at this depth at the end, if there is one: where nothing became of the term, nothing is kept.
#[tactic(auto, using(crate::proofs::PlaceTraces::put_none))]
pub(crate) fn put(
    kept: &mut Vec<Kept>,
    depth: usize,
    node: Option<Box<TraceNode>>,
) -> Result<(), AllocError>
    ensures { OnOk result (IsPut depth (node_of node) (reverse kept.old.items) (reverse kept.new.items)) }
{
    match node {
        Some(node) => put_trace(kept, depth, node),
        None => Ok(()),
    }
}

// The same of a trace that there is.
#[inline(never)]
#[tactic(auto, using(crate::proofs::PlaceTraces::put_last))]
fn put_trace(kept: &mut Vec<Kept>, depth: usize, node: Box<TraceNode>) -> Result<(), AllocError>
    ensures { OnOk result (IsPut depth node.value (reverse kept.old.items) (reverse kept.new.items)) }
{
    Ok(kept.push(Kept { depth, node })?)
}

/// Takes the trace of the term at this depth, if it is the last one.
#[tactic(auto, using(crate::proofs::PlaceTraces::took_last, crate::proofs::PlaceTraces::kept_nowhere))]
pub(crate) fn take(kept: &mut Vec<Kept>, depth: usize) -> Option<Box<TraceNode>>
    ensures node { node_of result ≡ kept_at depth (reverse kept.old.items) }
    ensures outside { reverse kept.new.items ≡ kept_outside depth (reverse kept.old.items) }
{
    if !is_kept(kept, depth) {
        return None;
    }
    match kept.pop() {
        Some(last) => Some(last.node),
        None => None,
    }
}

/// Whether the last one is of a term at this depth.
pub(crate) fn is_kept(kept: &[Kept], depth: usize) -> bool
    ensures { result ≡ is_kept depth (reverse kept.now) }
{
    match kept.last() {
        Some(last) => last.depth == depth,
        None => false,
    }
}

/// The one and then the other.
#[tactic(auto, using(crate::proofs::Traces::after_nothing, crate::proofs::Traces::then_none))]
pub(crate) fn then(
    alloc: Global,
    first: Option<Box<TraceNode>>,
    second: Option<Box<TraceNode>>,
) -> Result<Option<Box<TraceNode>>, AllocError>
    ensures { IfOk result (λ n. IsAfter (node_of first) (node_of second) (node_of n)) }
{
    let Some(second) = second else {
        return Ok(first);
    };
    let Some(mut first) = first else {
        return Ok(Some(second));
    };
    append(alloc, &mut first, second)?;
    Ok(Some(first))
}

/// How the term around a part was rewritten, where the part was so, and the function beside it so.
#[tactic(auto, using(crate::proofs::PlaceTraces::unchanged_out))]
pub(crate) fn around(
    alloc: Global,
    step: &Step,
    function: Option<Box<TraceNode>>,
    part: Option<Box<TraceNode>>,
) -> Result<Option<Box<TraceNode>>, AllocError>
    ensures { IfOk result (λ n. LeadsOut step.now (node_of function) (node_of part) (node_of n)) }
{
    if function.is_none() && part.is_none() {
        return Ok(None);
    }
    let part = whole(alloc, part)?;
    Ok(Some(around_part(alloc, step, function, part)?))
}

// The same, whatever became of the part.
#[tactic(auto, using(crate::proofs::PlaceTraces::one_out))]
fn around_part(
    alloc: Global,
    step: &Step,
    function: Option<Box<TraceNode>>,
    part: Box<TraceNode>,
) -> Result<Box<TraceNode>, AllocError>
    ensures { IfOk result (λ n. LeadsOut step.now (node_of function) part.value n.value) }
{
    match step {
        Step::Function(_) => {
            let same = TraceNode::boxed(alloc, TraceNode::Same)?;
            TraceNode::parts(alloc, part, same)
        }
        Step::Argument(_) => {
            let function = whole(alloc, function)?;
            TraceNode::parts(alloc, function, part)
        }
        Step::Body(v) => TraceNode::body(alloc, v, part),
    }
}

/// The trace: that nothing became of the term, where there is none.
pub(crate) fn whole(
    alloc: Global,
    node: Option<Box<TraceNode>>,
) -> Result<Box<TraceNode>, AllocError>
    ensures { IfOk result (λ n. n.value ≡ node_of node) }
{
    match node {
        Some(node) => Ok(node),
        None => TraceNode::boxed(alloc, TraceNode::Same),
    }
}
