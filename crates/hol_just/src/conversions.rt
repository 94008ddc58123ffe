//! The justifications of the functions that convert the conclusion.
ghost use Rattle.std.specs.Prelude.{◌≡◌, [], IfOk};
ghost use Rattle.hol_terms.specs.Nameless.{nameless_type};
ghost use Rattle.hol_just.specs.Justifies.{ClosesTruth, LeavesConverted};
ghost use Rattle.hol_just.specs.TraceTypes.{KeepsType};

use crate::just::Just;
use crate::reason::Reason;
use hol_conv::{Trace, TraceNode};
use std::alloc::{AllocError, Global};

impl Just {
    /// That of closing `T`.
    pub fn truth(alloc: Global) -> Result<Just, AllocError>
        ensures { IfOk result (λ just. ClosesTruth just) }
    {
        Just::one(alloc, Reason::Truth)
    }

    /// That of a conversion of the conclusion, by its trace.
    pub fn conversion(alloc: Global, trace: &Trace) -> Result<Just, AllocError>
        ensures { IfOk result (λ just. LeavesConverted trace.now just) }
    {
        trace.keeps_types();
        let own = trace.copy()?;
        Just::one(alloc, Reason::Conversion(own))
    }
}

/// What a term became has the term's type.
pub fn conversion_typed(trace: &Trace)
    ensures { nameless_type [] trace.now.new ≡ nameless_type [] trace.now.old }
{
    let _ty = trace.old().type_of();
    keeps_type(trace.node());
}

// What the trace makes of a term of a type has the type: each rule has two sides of one type.
fn keeps_type(node: &TraceNode)
    ensures { KeepsType node.now }
{
    match node {
        TraceNode::Same => {}
        TraceNode::Parts(f, x) => {
            keeps_type(f);
            keeps_type(x);
        }
        TraceNode::Body(_, b) => keeps_type(b),
        TraceNode::Rule(rule) => {
            let _left = rule.left();
        }
        TraceNode::Beta => {}
        TraceNode::Both(_, a, b) => {
            keeps_type(a);
            keeps_type(b);
        }
    }
}
