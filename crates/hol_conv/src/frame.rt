//! What stands around a part of a term.
ghost use Rattle.std.specs.Prelude.{◌≡◌, ◌+◌, ◌≤◌, [], min, IfOk, IsTrue, None};
ghost use Rattle.hol_terms.specs.Named.{comb, abs, named_type};
ghost use Rattle.hol_terms.specs.Nameless.{nameless};

use hol_terms::{Term, TermNode, Variable};
use std::alloc::{AllocError, Global};

/// A step from a term to one of its parts, with what stands beside the part.
#[derive(Drop)]
pub(crate) enum Step {
    /// To the function, which is applied to this.
    Function(Term),
    /// To the argument of this.
    Argument(Term),
    /// To the body of the abstraction of this variable, which is free in it.
    Body(Variable),
}

impl Step {
    ghost use Rattle.hol_conv.specs.Places.{around, FitsIn, beside_size};

    /// The term around the part.
    #[inline(never)]
    #[tactic(auto, using(crate::proofs::Places::arounds))]
    pub(crate) fn around(&self, alloc: Global, part: &Term) -> Result<Term, AllocError>
        requires { FitsIn self.now (nameless [] part.now) }
        ensures { IfOk result (λ t. nameless [] t ≡ around self.now (nameless [] part.now)) }
    {
        match self {
            Step::Function(x) => Term::application(alloc, part, x),
            Step::Argument(f) => Term::application(alloc, f, part),
            Step::Body(v) => Term::abstraction(alloc, v, part),
        }
    }

    /// The size of the term around a part of this size, both up to 20,001.
    pub(crate) fn size_around(&self, part: u32) -> u32
        requires { part ≤ 20001 }
        ensures { result ≡ min (1 + min (beside_size self.now) 20001 + part) 20001 }
    {
        let beside = match self {
            Step::Function(x) => x.size(),
            Step::Argument(f) => f.size(),
            Step::Body(v) => v.ty().size(),
        };
        (1 + beside + part).min(20_001)
    }
}

/// The term around a part.
#[derive(Drop)]
pub(crate) struct Frame {
    /// How the part stands in it.
    pub(crate) step: Step,
    /// Whether it is known that its term, and each one above, is passed over.
    pub(crate) is_passed_over: bool,
}

/// The application of `f` to `x`: the term `entered` itself, where its parts are these very nodes.
pub(crate) fn application_of(
    alloc: Global,
    entered: Option<&Term>,
    f: &Term,
    x: &Term,
) -> Result<Term, AllocError>
    requires { named_type (comb f.now x.now) ≡ None → ⊥ }
    ensures { IfOk result (λ t. t ≡ comb f.now x.now) }
{
    if let Some(t) = entered {
        if is_application_of(t, f, x) {
            return t.copy();
        }
    }
    Term::application(alloc, f, x)
}

// Whether the term's parts are these very nodes.
#[tactic(auto, using(crate::proofs::Places::very_application))]
fn is_application_of(t: &Term, f: &Term, x: &Term) -> bool
    ensures { IsTrue result → t.now ≡ comb f.now x.now }
{
    match t.node() {
        TermNode::Comb(g, y) => g.same_node(f) && y.same_node(x),
        TermNode::Var(_) | TermNode::Const(_, _) | TermNode::Abs(_, _) => false,
    }
}

/// The abstraction of `v` in `body`: the term `entered` itself, where it is of this variable and this very node.
pub(crate) fn abstraction_of(
    alloc: Global,
    entered: Option<&Term>,
    v: &Variable,
    body: &Term,
) -> Result<Term, AllocError>
    ensures { IfOk result (λ t. t ≡ abs v.now body.now) }
{
    if let Some(t) = entered {
        if is_abstraction_of(t, v, body) {
            return t.copy();
        }
    }
    Term::abstraction(alloc, v, body)
}

// Whether the term is the abstraction of this variable in this very node.
#[tactic(auto, using(crate::proofs::Places::very_abstraction))]
fn is_abstraction_of(t: &Term, v: &Variable, body: &Term) -> bool
    ensures { IsTrue result → t.now ≡ abs v.now body.now }
{
    match t.node() {
        TermNode::Abs(w, b) => w.same(v) && b.same_node(body),
        TermNode::Var(_) | TermNode::Const(_, _) | TermNode::Comb(_, _) => false,
    }
}
