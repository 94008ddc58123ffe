//! Each topmost redex replaced once.
ghost use Rattle.std.specs.Prelude.{◌≡◌, ◌+◌, ◌≤◌, [], min, IfOk, IfErr, None};
ghost use Rattle.hol_terms.specs.Named.{comb, abs, named_type};
ghost use Rattle.hol_terms.specs.Nameless.{nameless};
ghost use Rattle.hol_conv.specs.Redexes.{contraction};
ghost use Rattle.hol_conv.specs.Beside.{paid_beside, once_beside, inner_once};
ghost use Rattle.hol_conv.specs.Ends.{TellsBoxed};
ghost use Rattle.hol_conv.specs.Tracing.{Traces, IsParts, IsBody, redex_givens};
ghost use Rattle.hol_conv.specs.declared.trace_node.TraceNode.TheVariants.{Same};
ghost use Rattle.hol_conv.specs.declared.error.ConvError.TheVariants.{Memory};

use crate::ended::Ended;
use crate::error::ConvError;
use crate::redexes::{Contracted, Redexes};
use crate::trace_node::TraceNode;
use hol_terms::{Term, TermNode, Variable};
use std::alloc::{AllocError, Global};

/// Replaces each topmost redex of a part of a term, beside which the term has so many nodes, or 20,001 for more. Each costs a turn.
///
/// Answers `Limit` where a redex is next and no turn is left, and `TooLarge` where the whole term has over 20,000 nodes after a turn.
///
/// A part that can have no redex stays as it is.
#[cycle(once_beside)]
#[tactic(auto, using(crate::proofs::OnceParts::parts, crate::proofs::Tracing::part_traces))]
pub(crate) fn once_beside(
    alloc: Global,
    redexes: &Redexes,
    t: &Term,
    outside: u32,
    left: u32,
) -> Result<Box<Ended>, ConvError>
    requires counted { outside ≤ 20001 }
    ensures tells { TellsBoxed result (once_beside (contraction redexes.now) [] outside left (nameless [] t.now)) }
    ensures typed { IfOk result (λ r. named_type r.value.term ≡ named_type t.now) }
    ensures traces { IfOk result (λ r. Traces (redex_givens redexes.now) r.value.node.value (nameless [] t.now) (nameless [] r.value.term)) }
{
    if !redexes.may_have_redex(t) {
        return kept(alloc, t, left);
    }
    if redexes.is_redex(alloc, t)? {
        return at_redex(alloc, redexes, t, outside, left);
    }
    let _ty = t.type_of();
    match t.node() {
        TermNode::Comb(f, x) => once_in_parts(alloc, redexes, f, x, outside, left),
        TermNode::Abs(v, b) => once_in_body(alloc, redexes, v, b, outside, left),
        TermNode::Var(_) | TermNode::Const(_, _) => kept(alloc, t, left),
    }
}

// The end of a part that has no redex.
#[inline(never)]
fn kept(alloc: Global, t: &Term, left: u32) -> Result<Box<Ended>, ConvError>
    ensures term { IfOk result (λ r. r.value.term ≡ t.now) }
    ensures left { IfOk result (λ r. r.value.left ≡ left) }
    ensures node { IfOk result (λ r. r.value.node.value ≡ Same) }
    ensures memory { IfErr result (λ e. e ≡ Memory) }
{
    let term = t.copy()?;
    let node = TraceNode::boxed(alloc, TraceNode::Same)?;
    Ok(Ended { term, left, node }.boxed(alloc)?)
}

// The end of a part that is a redex.
#[inline(never)]
#[tactic(auto, using(crate::proofs::OnceParts::parts))]
fn at_redex(
    alloc: Global,
    redexes: &Redexes,
    t: &Term,
    outside: u32,
    left: u32,
) -> Result<Box<Ended>, ConvError>
    requires counted { outside ≤ 20001 }
    requires redex { contraction redexes.now [] (nameless [] t.now) ≡ None → ⊥ }
    ensures tells { TellsBoxed result (once_beside (contraction redexes.now) [] outside left (nameless [] t.now)) }
    ensures typed { IfOk result (λ r. named_type r.value.term ≡ named_type t.now) }
    ensures traces { IfOk result (λ r. Traces (redex_givens redexes.now) r.value.node.value (nameless [] t.now) (nameless [] r.value.term)) }
{
    match redexes.contract(alloc, t)? {
        Some(redex) => paid_beside(alloc, redex, outside, left),
        None => unreachable!(),
    }
}

// The turn in which the part becomes this term.
fn paid_beside(
    alloc: Global,
    redex: Contracted,
    outside: u32,
    left: u32,
) -> Result<Box<Ended>, ConvError>
    requires counted { outside ≤ 20001 }
    ensures tells { TellsBoxed result (paid_beside [] outside left (nameless [] redex.term)) }
    ensures term { IfOk result (λ r. r.value.term ≡ redex.term) }
    ensures node { IfOk result (λ r. r.value.node ≡ redex.node) }
{
    if left == 0 {
        return Err(ConvError::Limit);
    }
    if outside + redex.term.size() > 20_000 {
        return Err(ConvError::TooLarge);
    }
    let Contracted { term, node } = redex;
    let left = left - 1;
    Ok(Ended { term, left, node }.boxed(alloc)?)
}

// The same in the function and then in the argument.
#[inline(never)]
#[cycle(once_beside)]
#[tactic(auto, using(crate::proofs::OnceParts::application_parts, crate::proofs::Tracing::in_application))]
fn once_in_parts(
    alloc: Global,
    redexes: &Redexes,
    f: &Term,
    x: &Term,
    outside: u32,
    left: u32,
) -> Result<Box<Ended>, ConvError>
    requires counted { outside ≤ 20001 }
    requires fits { named_type (comb f.now x.now) ≡ None → ⊥ }
    ensures tells { TellsBoxed result (inner_once (contraction redexes.now) [] outside left (nameless [] (comb f.now x.now))) }
    ensures typed { IfOk result (λ r. named_type r.value.term ≡ named_type (comb f.now x.now)) }
    ensures traces { IfOk result (λ r. Traces (redex_givens redexes.now) r.value.node.value (nameless [] (comb f.now x.now)) (nameless [] r.value.term)) }
{
    let function = once_beside(alloc, redexes, f, beside(outside, x.size()), left)?;
    let nodes = beside(outside, function.term.size());
    let argument = once_beside(alloc, redexes, x, nodes, function.left)?;
    in_application(alloc, function, argument)
}

// The end of an application, by those of its function and its argument.
#[inline(never)]
fn in_application(
    alloc: Global,
    function: Box<Ended>,
    argument: Box<Ended>,
) -> Result<Box<Ended>, ConvError>
    requires { named_type (comb function.value.term argument.value.term) ≡ None → ⊥ }
    ensures term { IfOk result (λ r. r.value.term ≡ comb function.value.term argument.value.term) }
    ensures left { IfOk result (λ r. r.value.left ≡ argument.value.left) }
    ensures node { IfOk result (λ r. IsParts function.value.node.value argument.value.node.value r.value.node.value) }
    ensures memory { IfErr result (λ e. e ≡ Memory) }
{
    let function = Box::into_inner(function);
    let Ended { term, left, node } = Box::into_inner(argument);
    let term = Term::application(alloc, &function.term, &term)?;
    let node = TraceNode::parts(alloc, function.node, node)?;
    Ok(Ended { term, left, node }.boxed(alloc)?)
}

// The same in the body of the abstraction of `v`.
#[inline(never)]
#[cycle(once_beside)]
#[tactic(auto, using(crate::proofs::OnceParts::body_parts, crate::proofs::Parts::nodes_of_body, crate::proofs::Tracing::in_abstraction))]
fn once_in_body(
    alloc: Global,
    redexes: &Redexes,
    v: &Variable,
    b: &Term,
    outside: u32,
    left: u32,
) -> Result<Box<Ended>, ConvError>
    requires counted { outside ≤ 20001 }
    ensures tells { TellsBoxed result (inner_once (contraction redexes.now) [] outside left (nameless [] (abs v.now b.now))) }
    ensures typed { IfOk result (λ r. named_type r.value.term ≡ named_type (abs v.now b.now)) }
    ensures traces { IfOk result (λ r. Traces (redex_givens redexes.now) r.value.node.value (nameless [] (abs v.now b.now)) (nameless [] r.value.term)) }
{
    let inside = redexes.opened(alloc, v, b)?;
    let nodes = beside(outside, v.ty().size());
    let body = once_beside(alloc, redexes, &inside.body, nodes, left)?;
    in_abstraction(alloc, &inside.variable, body)
}

// The end of an abstraction of `v`, by that of its body.
#[inline(never)]
fn in_abstraction(alloc: Global, v: &Variable, body: Box<Ended>) -> Result<Box<Ended>, ConvError>
    ensures term { IfOk result (λ r. r.value.term ≡ abs v.now body.value.term) }
    ensures left { IfOk result (λ r. r.value.left ≡ body.value.left) }
    ensures node { IfOk result (λ r. IsBody v.now body.value.node.value r.value.node.value) }
    ensures memory { IfErr result (λ e. e ≡ Memory) }
{
    let Ended { term, left, node } = Box::into_inner(body);
    let term = Term::abstraction(alloc, v, &term)?;
    let node = TraceNode::body(alloc, v, node)?;
    Ok(Ended { term, left, node }.boxed(alloc)?)
}

// The nodes beside a part, where there are `outside` beside the term and one more and `nodes` beside the part in it.
fn beside(outside: u32, nodes: u32) -> u32
    requires outside { outside ≤ 20001 }
    requires nodes { nodes ≤ 20001 }
    ensures is { result ≡ min (outside + (1 + nodes)) 20001 }
    ensures counted { result ≤ 20001 }
{
    (outside + (1 + nodes)).min(20_001)
}
