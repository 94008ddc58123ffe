//! Lists of terms and of variables.
ghost use Rattle.std.specs.Prelude.{◌≡◌, ◌++◌, IfOk, OnOk};
ghost use Rattle.hol_terms.specs.Scoped.{binds};

use crate::term::Term;
use crate::variable::Variable;
use std::alloc::{AllocError, Global};

/// Copies of the terms.
pub fn copies(alloc: Global, terms: &[Term]) -> Result<Vec<Term>, AllocError>
    ensures { IfOk result (λ copied. copied.items ≡ terms.now) }
{
    let mut copied = Vec::with_capacity(alloc, terms.len())?;
    for term in terms {
        copied.push(term.copy()?)?;
    }
    Ok(copied)
}

/// Puts copies of the terms at the end.
pub fn add_copies(to: &mut Vec<Term>, terms: &[Term]) -> Result<(), AllocError>
    ensures { OnOk result (to.new.items ≡ to.old.items ++ terms.now) }
{
    for term in terms {
        to.push(term.copy()?)?;
    }
    Ok(())
}

/// Whether the variable is one of these.
pub fn contains(variables: &[Variable], v: &Variable) -> bool
    ensures { result ≡ binds variables.now v.now }
{
    for u in variables {
        if u.same(v) {
            return true;
        }
    }
    false
}
