//! How a term was rewritten, as a tree that follows the term.
ghost use Rattle.std.specs.Prelude.{◌≡◌, ◌++◌, IfOk, OnOk};
ghost use Rattle.hol_conv.specs.Traces.{in_parts, in_body, traced, used};
ghost use Rattle.hol_conv.specs.Tracing.{IsThen, IsAfter};

use hol_match::SetRule;
use hol_terms::Variable;
use std::alloc::{AllocError, Global};
use std::mem;

/// How a term was rewritten.
#[derive(Drop)]
pub enum TraceNode {
    /// Nothing became of it.
    Same,
    /// Its function was rewritten, and its argument.
    Parts(Box<TraceNode>, Box<TraceNode>),
    /// The body of the abstraction was, in which the variable was free.
    Body(Variable, Box<TraceNode>),
    /// The rule was applied to it.
    Rule(Box<SetRule>),
    /// It was an abstraction that is applied, and became its body at the argument.
    Beta,
    /// One after the other, so many in all.
    Both(u32, Box<TraceNode>, Box<TraceNode>),
}

impl TraceNode {
    ghost use Rattle.hol_conv.specs.Tracing.{IsParts, IsBody, IsRule, IsBoth};

    /// The node in a box.
    pub(crate) fn boxed(alloc: Global, node: TraceNode) -> Result<Box<TraceNode>, AllocError>
        ensures { IfOk result (λ b. b.value ≡ node) }
    {
        Ok(Box::new(alloc, node)?)
    }

    /// The function was rewritten so, and the argument so.
    #[tactic(auto, using(crate::proofs::Traces::is_parts))]
    pub(crate) fn parts(
        alloc: Global,
        function: Box<TraceNode>,
        argument: Box<TraceNode>,
    ) -> Result<Box<TraceNode>, AllocError>
        ensures { IfOk result (λ n. IsParts function.value argument.value n.value) }
    {
        TraceNode::boxed(alloc, TraceNode::Parts(function, argument))
    }

    /// The body was rewritten so, with the variable free in it.
    #[tactic(auto, using(crate::proofs::Traces::is_body))]
    pub(crate) fn body(
        alloc: Global,
        v: &Variable,
        inside: Box<TraceNode>,
    ) -> Result<Box<TraceNode>, AllocError>
        ensures { IfOk result (λ n. IsBody v.now inside.value n.value) }
    {
        let variable = v.copy()?;
        TraceNode::boxed(alloc, TraceNode::Body(variable, inside))
    }

    /// The rule was applied.
    #[tactic(auto, using(crate::proofs::Traces::is_rule))]
    pub(crate) fn rule(alloc: Global, rule: SetRule) -> Result<Box<TraceNode>, AllocError>
        ensures { IfOk result (λ n. IsRule rule n.value) }
    {
        let own = Box::new(alloc, rule)?;
        TraceNode::boxed(alloc, TraceNode::Rule(own))
    }

    /// The one and then the other, whatever they are.
    #[tactic(auto, using(crate::proofs::Traces::is_both))]
    pub(crate) fn both(
        alloc: Global,
        first: TraceNode,
        second: TraceNode,
    ) -> Result<TraceNode, AllocError>
        ensures { IfOk result (λ n. IsBoth first second n) }
    {
        let count = first.count().saturating_add(second.count());
        let a = Box::new(alloc, first)?;
        let b = Box::new(alloc, second)?;
        Ok(TraceNode::Both(count, a, b))
    }

    // How many there are one after the other.
    fn count(&self) -> u32 {
        match self {
            TraceNode::Both(count, _, _) => *count,
            TraceNode::Same
            | TraceNode::Parts(_, _)
            | TraceNode::Body(_, _)
            | TraceNode::Rule(_)
            | TraceNode::Beta => 1,
        }
    }

    // Whether the last of them is in the parts of an application.
    fn ends_in_parts(&self) -> bool {
        match self {
            TraceNode::Both(_, _, last) => last.ends_in_parts(),
            TraceNode::Parts(_, _) => true,
            TraceNode::Same | TraceNode::Body(_, _) | TraceNode::Rule(_) | TraceNode::Beta => false,
        }
    }

    // Whether the last of them is in the body of an abstraction.
    fn ends_in_body(&self) -> bool {
        match self {
            TraceNode::Both(_, _, last) => last.ends_in_body(),
            TraceNode::Body(_, _) => true,
            TraceNode::Same | TraceNode::Parts(_, _) | TraceNode::Rule(_) | TraceNode::Beta =>
                false,
        }
    }
}

/// The first trace goes on with the second one: where both are in parts of the term, so is what comes of them.
///
/// A node that is one after another goes on within its last one, if that is in parts as the second is, or if it is shorter than what is
/// before it. So turns at one place lie about as deep as there are doublings to their number.
#[cycle(append)]
#[tactic(auto, using(crate::proofs::Traces::joining))]
pub(crate) fn append(
    alloc: Global,
    first: &mut TraceNode,
    second: Box<TraceNode>,
) -> Result<(), AllocError>
    ensures { OnOk result (IsAfter first.old second.value first.new) }
{
    match Box::into_inner(second) {
        TraceNode::Parts(g, y) => append_parts(alloc, first, g, y),
        TraceNode::Body(w, c) => append_body(alloc, first, w, c),
        TraceNode::Rule(r) => append_whole(alloc, first, TraceNode::Rule(r)),
        TraceNode::Both(n, a, b) => append_whole(alloc, first, TraceNode::Both(n, a, b)),
        TraceNode::Beta => append_whole(alloc, first, TraceNode::Beta),
        TraceNode::Same => Ok(()),
    }
}

// The same where the second one is in the parts of an application.
#[cycle(append)]
#[tactic(auto, using(crate::proofs::Traces::joining))]
fn append_parts(
    alloc: Global,
    first: &mut TraceNode,
    g: Box<TraceNode>,
    y: Box<TraceNode>,
) -> Result<(), AllocError>
    ensures { OnOk result (IsThen (traced first.old) (in_parts (traced g.value) (traced y.value)) (used first.old ++ (used g.value ++ used y.value)) first.new) }
{
    match first {
        TraceNode::Parts(f, x) => {
            append(alloc, f, g)?;
            return append(alloc, x, y);
        }
        TraceNode::Both(count, a, b) => {
            if b.count() < a.count() || b.ends_in_parts() {
                append_parts(alloc, b, g, y)?;
                *count = a.count().saturating_add(b.count());
                return Ok(());
            }
        }
        TraceNode::Same => {
            *first = TraceNode::Parts(g, y);
            return Ok(());
        }
        TraceNode::Body(_, _) | TraceNode::Rule(_) | TraceNode::Beta => {}
    }
    follow(alloc, first, TraceNode::Parts(g, y))
}

// The same where the second one is in the body of an abstraction, in which the variable was free.
#[cycle(append)]
#[tactic(auto, using(crate::proofs::Traces::joining))]
fn append_body(
    alloc: Global,
    first: &mut TraceNode,
    w: Variable,
    c: Box<TraceNode>,
) -> Result<(), AllocError>
    ensures { OnOk result (IsThen (traced first.old) (in_body w (used c.value) (traced c.value)) (used first.old ++ used c.value) first.new) }
{
    match first {
        TraceNode::Body(v, b) => {
            if v.same(&w) {
                return append(alloc, b, c);
            }
        }
        TraceNode::Both(count, a, b) => {
            if b.count() < a.count() || b.ends_in_body() {
                append_body(alloc, b, w, c)?;
                *count = a.count().saturating_add(b.count());
                return Ok(());
            }
        }
        TraceNode::Same => {
            *first = TraceNode::Body(w, c);
            return Ok(());
        }
        TraceNode::Parts(_, _) | TraceNode::Rule(_) | TraceNode::Beta => {}
    }
    follow(alloc, first, TraceNode::Body(w, c))
}

// The same where the second one begins with the whole term.
#[tactic(auto, using(crate::proofs::Traces::joining))]
fn append_whole(alloc: Global, first: &mut TraceNode, second: TraceNode) -> Result<(), AllocError>
    ensures { OnOk result (IsAfter first.old second first.new) }
{
    match first {
        TraceNode::Both(count, a, b) => {
            if b.count() < a.count() {
                append_whole(alloc, b, second)?;
                *count = a.count().saturating_add(b.count());
                return Ok(());
            }
        }
        TraceNode::Same => {
            *first = second;
            return Ok(());
        }
        TraceNode::Parts(_, _) | TraceNode::Body(_, _) | TraceNode::Rule(_) | TraceNode::Beta => {}
    }
    follow(alloc, first, second)
}

// The one and then the other, whatever they are.
#[inline(never)]
#[tactic(auto, using(crate::proofs::Traces::following))]
fn follow(alloc: Global, first: &mut TraceNode, second: TraceNode) -> Result<(), AllocError>
    ensures { OnOk result (IsAfter first.old second first.new) }
{
    let before = mem::replace(first, TraceNode::Same);
    *first = TraceNode::both(alloc, before, second)?;
    Ok(())
}
