//! What rewriting comes to.
ghost use Rattle.std.specs.Prelude.{◌≡◌, [], Some, IfOk};
ghost use Rattle.hol_terms.specs.Nameless.{nameless};

use crate::ended::Ended;
use crate::trace::Trace;
use hol_terms::Term;
use std::alloc::{AllocError, Global};

/// A term in which nothing is left to rewrite.
#[derive(Drop)]
pub struct Rewritten {
    /// The term.
    pub term: Term,
    /// The turns that are left.
    pub left: u32,
    /// How the term was rewritten.
    pub trace: Trace,
}

impl Rewritten {
    ghost use Rattle.hol_conv.specs.Traces.{used, traced};

    /// What the term came to.
    pub(crate) fn of(alloc: Global, old: &Term, ended: Ended) -> Result<Rewritten, AllocError>
        requires { traced ended.node.value (nameless [] old.now) ≡ Some (nameless [] ended.term) }
        ensures term { IfOk result (λ r. r.term ≡ ended.term) }
        ensures left { IfOk result (λ r. r.left ≡ ended.left) }
        ensures trace { IfOk result (λ r. r.trace ≡ record { old = nameless [] old.now; new = nameless [] ended.term; used = used ended.node.value }) }
    {
        let Ended { term, left, node } = ended;
        let trace = Trace::of(alloc, old, &term, Box::into_inner(node))?;
        Ok(Rewritten { term, left, trace })
    }
}
