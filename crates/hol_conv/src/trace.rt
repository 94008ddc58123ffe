//! Traces of rewriting.
ghost use Rattle.std.specs.Prelude.{◌≡◌, [], Some, IfOk};
ghost use Rattle.hol_terms.specs.Nameless.{nameless};

use crate::trace_node::TraceNode;
use hol_terms::Term;
use std::alloc::{AllocError, Global};
use std::marker::Model;
use std::rc::Rc;

/// How a term was rewritten.
#[derive(Drop)]
pub struct Trace {
    old: Term,
    new: Term,
    node: Rc<TraceNode>,
}

impl Model for Trace {
    ghost use Rattle.std.specs.Prelude.{◌≡◌, [], Some};
    ghost use Rattle.hol_terms.specs.Nameless.{nameless};
    ghost use Rattle.hol_conv.specs.Traces.{TraceValue, trace_code, traced, used};

    ghost Value = { TraceValue };

    ghost coded = { trace_code };

    ghost view = { λ a. record { old = nameless [] a.old; new = nameless [] a.new; used = used a.node.value } };

    ghost invariant = { λ a. traced a.node.value (nameless [] a.old) ≡ Some (nameless [] a.new) };
}

impl Trace {
    ghost use Rattle.hol_conv.specs.Traces.{traced, used, KeepsTypes};

    /// That of a term that became this one.
    pub(crate) fn of(
        alloc: Global,
        old: &Term,
        new: &Term,
        node: TraceNode,
    ) -> Result<Trace, AllocError>
        requires { traced node (nameless [] old.now) ≡ Some (nameless [] new.now) }
        ensures { IfOk result (λ t. t ≡ record { old = nameless [] old.now; new = nameless [] new.now; used = used node }) }
    {
        Ok(Trace {
            old: old.copy()?,
            new: new.copy()?,
            node: Rc::new(alloc, node)?,
        })
    }

    /// The term that was rewritten.
    pub fn old(&self) -> &Term
        ensures { nameless [] result.now ≡ self.now.old }
    {
        &self.old
    }

    /// The tree.
    pub fn node(&self) -> &TraceNode
        ensures used { used result.now ≡ self.now.used }
        ensures gives { traced result.now self.now.old ≡ Some self.now.new }
    {
        &self.node
    }

    /// What the term became has the type of the term, wherever all that was used can be read.
    #[tactic(auto, using(crate::proofs::TypesKept::trace_keeps))]
    pub fn keeps_types(&self)
        ensures { KeepsTypes self.now }
    {
        let _old = &self.old;
    }

    /// An equal trace.
    pub fn copy(&self) -> Result<Trace, AllocError>
        ensures { IfOk result (λ t. t ≡ self.now) }
    {
        Ok(Trace {
            old: self.old.copy()?,
            new: self.new.copy()?,
            node: self.node.clone()?,
        })
    }
}
