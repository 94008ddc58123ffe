//! What the functions on goals take, and of which kinds that is.
ghost use Rattle.std.specs.Prelude.{◌≡◌, IfOk};
ghost use Rattle.hol_goal.specs.Arguments.{kind_of};
ghost use Rattle.hol_goal.specs.ArgumentsView.{args_value};

use hol_kernel::Given;
use hol_terms::Term;
use std::alloc::{AllocError, Global};

/// The kinds of arguments that a function on goals takes.
#[derive(Clone, Copy, Debug, PartialEq, Eq)]
pub enum ArgumentKind {
    /// None.
    Nothing,
    /// A term.
    Term,
    /// Two terms.
    Pair,
    /// A theorem.
    Theorem,
    /// A term and a theorem.
    TermAndTheorem,
    /// Theorems, or none.
    Theorems,
}

/// The arguments of a function on goals.
#[derive(Drop)]
pub enum TacArgs {
    /// None.
    Nothing,
    /// A term.
    Term(Term),
    /// Two terms.
    Pair(Term, Term),
    /// A theorem.
    Theorem(Given),
    /// A term and a theorem.
    TermAndTheorem(Term, Given),
    /// Theorems, or none.
    Theorems(Vec<Given>),
}

impl TacArgs {
    /// Their kind.
    pub fn kind(&self) -> ArgumentKind
        ensures { result ≡ kind_of (args_value self.now) }
    {
        match self {
            TacArgs::Nothing => ArgumentKind::Nothing,
            TacArgs::Term(_) => ArgumentKind::Term,
            TacArgs::Pair(_, _) => ArgumentKind::Pair,
            TacArgs::Theorem(_) => ArgumentKind::Theorem,
            TacArgs::TermAndTheorem(_, _) => ArgumentKind::TermAndTheorem,
            TacArgs::Theorems(_) => ArgumentKind::Theorems,
        }
    }

    /// Equal arguments.
    pub fn copy(&self, alloc: Global) -> Result<TacArgs, AllocError>
        ensures { IfOk result (λ args. args_value args ≡ args_value self.now) }
    {
        Ok(match self {
            TacArgs::Nothing => TacArgs::Nothing,
            TacArgs::Term(t) => TacArgs::Term(t.copy()?),
            TacArgs::Pair(s, t) => TacArgs::Pair(s.copy()?, t.copy()?),
            TacArgs::Theorem(th) => TacArgs::Theorem(th.copy()?),
            TacArgs::TermAndTheorem(t, th) => TacArgs::TermAndTheorem(t.copy()?, th.copy()?),
            TacArgs::Theorems(ths) => TacArgs::Theorems(copies(alloc, ths)?),
        })
    }
}

// Copies of the theorems.
fn copies(alloc: Global, ths: &[Given]) -> Result<Vec<Given>, AllocError>
    ensures { IfOk result (λ copied. copied.items ≡ ths.now) }
{
    let mut copied = Vec::with_capacity(alloc, ths.len())?;
    for th in ths {
        copied.push(th.copy()?)?;
    }
    Ok(copied)
}
