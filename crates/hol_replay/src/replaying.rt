//! Theorems of traces.
ghost use Rattle.std.specs.Prelude.{◌≡◌, ◌++◌, true, [], IfOk, IsSome, IsTrue, Some};
ghost use Rattle.hol_terms.specs.Named.{named_type};
ghost use Rattle.hol_terms.specs.Nameless.{nameless};
ghost use Rattle.hol_kernel.specs.NamedTyping.{is_known_named};
ghost use Rattle.std.specs.Option.{option_and_then};
ghost use Rattle.hol_conv.specs.Traces.{traced, used, in_parts, in_body};
ghost use Rattle.hol_match.specs.Givens.{all_hold, all_hyps};
ghost use Rattle.hol_replay.specs.Replays.{trace_equation};
ghost use Rattle.hol_replay.specs.NodeTheorems.{IsNode};

use crate::consumed::{
    in_abstraction, in_application, one_after_other, reduced, replaced, unchanged,
};
use crate::parts::{abstraction, application};
use hol_conv::{Trace, TraceNode, body_at};
use hol_derived::applied;
use hol_equal::applied::sides_of;
use hol_formulas::occurrence;
use hol_kernel::{Basis, Thm};
use hol_terms::{Term, Variable};
use hol_types::Ty;
use std::alloc::{AllocError, Global};

/// `|- t = u` over the basis, for the term `t` that was rewritten and the `u` that it became, under the hypotheses of what was given for
/// the rules that were used.
///
/// The basis has to contain the bases of the theorems that were given; `t` and the terms that were assumed have to be well typed over it.
/// The general theorems are those over the basis. So it fails for want of memory alone. One rule of equations for each node of the trace's tree.
#[tactic(auto, using(crate::proofs::Nodes::whole))]
pub fn replay(alloc: Global, basis: &Basis, trace: &Trace) -> Result<Thm, AllocError>
    requires { IsSome (trace_equation basis.now trace.now) }
    ensures { IfOk result (λ th. trace_equation basis.now trace.now ≡ Some th) }
{
    let t = trace.old();
    let th = node_theorem(alloc, basis, trace.node(), t.type_of(), t)?;
    Ok(Box::into_inner(th))
}

// The same of a node, for a term of the type.
#[cycle(node_theorem)]
#[tactic(auto, using(crate::proofs::Nodes::nodes))]
fn node_theorem(
    alloc: Global,
    basis: &Basis,
    node: &TraceNode,
    ty: &Ty,
    t: &Term,
) -> Result<Box<Thm>, AllocError>
    requires given { IsTrue (all_hold (used node.now) basis.now) }
    requires known { is_known_named basis.now t.now ≡ true }
    requires typed { named_type t.now ≡ Some ty.now }
    requires traced { IsSome (traced node.now (nameless [] t.now)) }
    ensures { IfOk result (λ th. IsNode basis.now (all_hyps (used node.now)) ty.now (nameless [] t.now) (traced node.now (nameless [] t.now)) th.value) }
{
    match node {
        TraceNode::Same => unchanged(alloc, basis, ty, t),
        TraceNode::Parts(f, x) => parts_theorem(alloc, basis, f, x, ty, t),
        TraceNode::Body(v, b) => body_theorem(alloc, basis, v, b, ty, t),
        TraceNode::Rule(rule) => replaced(alloc, basis, rule, ty, t),
        TraceNode::Beta => reduced(alloc, basis, ty, t),
        TraceNode::Both(_, a, b) => both_theorem(alloc, basis, a, b, ty, t),
    }
}

// The same where the function and the argument were rewritten (MK_COMB).
#[inline(never)]
#[cycle(node_theorem)]
#[tactic(auto, using(crate::proofs::Nodes::application_nodes))]
fn parts_theorem(
    alloc: Global,
    basis: &Basis,
    function: &TraceNode,
    argument: &TraceNode,
    ty: &Ty,
    t: &Term,
) -> Result<Box<Thm>, AllocError>
    requires given { IsTrue (all_hold (used function.now ++ used argument.now) basis.now) }
    requires known { is_known_named basis.now t.now ≡ true }
    requires typed { named_type t.now ≡ Some ty.now }
    requires traced { IsSome (in_parts (traced function.now) (traced argument.now) (nameless [] t.now)) }
    ensures { IfOk result (λ th. IsNode basis.now (all_hyps (used function.now ++ used argument.now)) ty.now (nameless [] t.now) (in_parts (traced function.now) (traced argument.now) (nameless [] t.now)) th.value) }
{
    let (f, x) = application(t);
    let left = node_theorem(alloc, basis, function, f.type_of(), f)?;
    let right = node_theorem(alloc, basis, argument, x.type_of(), x)?;
    in_application(alloc, left, right)
}

// The same where the body was rewritten, with the variable free in it (ABS).
#[inline(never)]
#[cycle(node_theorem)]
#[tactic(auto, using(crate::proofs::Nodes::abstraction_nodes))]
fn body_theorem(
    alloc: Global,
    basis: &Basis,
    v: &Variable,
    body: &TraceNode,
    ty: &Ty,
    t: &Term,
) -> Result<Box<Thm>, AllocError>
    requires given { IsTrue (all_hold (used body.now) basis.now) }
    requires known { is_known_named basis.now t.now ≡ true }
    requires typed { named_type t.now ≡ Some ty.now }
    requires traced { IsSome (in_body v.now (used body.now) (traced body.now) (nameless [] t.now)) }
    ensures { IfOk result (λ th. IsNode basis.now (all_hyps (used body.now)) ty.now (nameless [] t.now) (in_body v.now (used body.now) (traced body.now) (nameless [] t.now)) th.value) }
{
    let (w, b) = abstraction(t);
    let own = occurrence(alloc, v)?;
    let inside = body_at(alloc, w, b, &own)?;
    let th = node_theorem(alloc, basis, body, inside.type_of(), &inside)?;
    in_abstraction(alloc, v, th)
}

// The same where one trace comes after another (TRANS).
#[inline(never)]
#[cycle(node_theorem)]
#[tactic(auto, using(crate::proofs::Nodes::following_nodes))]
fn both_theorem(
    alloc: Global,
    basis: &Basis,
    first: &TraceNode,
    second: &TraceNode,
    ty: &Ty,
    t: &Term,
) -> Result<Box<Thm>, AllocError>
    requires given { IsTrue (all_hold (used first.now ++ used second.now) basis.now) }
    requires known { is_known_named basis.now t.now ≡ true }
    requires typed { named_type t.now ≡ Some ty.now }
    requires traced { IsSome (option_and_then (traced second.now) (traced first.now (nameless [] t.now))) }
    ensures { IfOk result (λ th. IsNode basis.now (all_hyps (used first.now ++ used second.now)) ty.now (nameless [] t.now) (option_and_then (traced second.now) (traced first.now (nameless [] t.now))) th.value) }
{
    let left = node_theorem(alloc, basis, first, ty, t)?;
    left.well_typed();
    let Some(sides) = sides_of(&*left) else {
        unreachable!()
    };
    let right = node_theorem(alloc, basis, second, ty, sides.right)?;
    one_after_other(alloc, left, right)
}
