//! What turns come to, and how.

ghost use Rattle.std.specs.Prelude.{◌≡◌, IfOk};

use crate::trace_node::TraceNode;
use hol_terms::Term;
use std::alloc::{AllocError, Global};

/// A part of a term after all its turns, the turns that are left, and how it was rewritten.
#[derive(Drop)]
pub(crate) struct Ended {
    pub(crate) term: Term,
    pub(crate) left: u32,
    pub(crate) node: Box<TraceNode>,
}

impl Ended {
    /// The end in a box: so a call that answers it takes less of the stack.
    pub(crate) fn boxed(self, alloc: Global) -> Result<Box<Ended>, AllocError>
        ensures { IfOk result (λ b. b.value ≡ self) }
    {
        Ok(Box::new(alloc, self)?)
    }
}
