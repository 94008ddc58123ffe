//! Terms whose bound variables are found at once.
ghost use Rattle.std.specs.Prelude.{◌≡◌, ◌+◌, IfOk, IfSome, IsNone, MatchOption, None, Some, true, false};
ghost use Rattle.hol_terms.specs.Nameless.{nameless, place, free, bound};
ghost use Rattle.hol_terms.specs.Scope.{binders};
ghost use Rattle.hol_print.specs.BareView.{bare_of};

use hol_terms::{Scope, Term, TermNode, Variable};
use hol_types::{Name, Ty};
use std::alloc::{AllocError, Global};

/// A nameless term over the names and types of the term that it was made from.
#[derive(Drop)]
pub(crate) enum Bare<'a> {
    /// A free variable.
    Free(&'a Variable),
    /// The variable of the enclosing abstraction with this index, counted from the inside from 0.
    Bound(usize),
    /// A constant: its name and its type.
    Constant(&'a Name, &'a Ty),
    /// An application of the first to the second.
    App(Box<Bare<'a>>, Box<Bare<'a>>),
    /// An abstraction: the variable, of which only the base name counts, and its type, and the body.
    Lam(&'a Variable, Box<Bare<'a>>),
}

impl<'a> Bare<'a> {
    /// The nameless term of a term under the binders.
    pub(crate) fn new(alloc: Global, t: &'a Term, scope: &Scope) -> Result<Bare<'a>, AllocError>
        ensures { IfOk result (λ b. bare_of b ≡ nameless (binders scope.now) t.now) }
    {
        match t.node() {
            TermNode::Var(v) => occurrence(scope, v),
            TermNode::Const(c, s) => Ok(Bare::Constant(c, s)),
            TermNode::Comb(f, x) => {
                let f = Bare::new(alloc, f, scope)?;
                let x = Bare::new(alloc, x, scope)?;
                Ok(Bare::App(Box::new(alloc, f)?, Box::new(alloc, x)?))
            }
            TermNode::Abs(v, b) => {
                let body = Bare::new(alloc, b, &Scope::Inside(v, scope))?;
                Ok(Bare::Lam(v, Box::new(alloc, body)?))
            }
        }
    }
}

// An occurrence of v under the binders, of which the innermost that binds it counts.
fn occurrence<'a>(scope: &Scope, v: &'a Variable) -> Result<Bare<'a>, AllocError>
    ensures { IfOk result (λ b. bare_of b ≡ place (binders scope.now) 0 v.now) }
{
    let mut around = scope;
    let mut passed = 0;
    'outwards: while let Scope::Inside(binder, outer) = around {
        if binder.same(v) {
            return Ok(Bare::Bound(passed));
        }
        passed = one_more(passed)?;
        around = outer;
    }
    Ok(Bare::Free(v))
}

/// One more. More binders than `usize` counts fit no memory.
pub(crate) fn one_more(binders: usize) -> Result<usize, AllocError>
    ensures { IfOk result (λ n. n ≡ binders + 1) }
{
    match binders.checked_add(1) {
        Some(more) => Ok(more),
        None => Err(AllocError),
    }
}
