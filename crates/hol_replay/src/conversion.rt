//! The equation of a term with what beta reduction to the end makes of it.
ghost use Rattle.std.specs.Prelude.{◌≡◌, [], IfOk, IsSome, Some};
ghost use Rattle.hol_terms.specs.Nameless.{nameless};
ghost use Rattle.hol_replay.specs.Equations.{beta_conversion};

use crate::replaying::replay;
use hol_conv::{ConvError, beta_all};
use hol_kernel::{Basis, Thm};
use hol_terms::Term;
use std::alloc::{AllocError, Global};

/// `|- t = u` over the basis, where `u` is what [`beta_all`](hol_conv::beta_all) makes of `t` with so many turns.
///
/// They have to be enough, no term may become too large, and `t` has to be well typed over the basis. So it fails for want of memory
/// alone. The turns are taken again, and their trace is replayed.
#[tactic(auto, using(crate::proofs::Reductions::reductions))]
pub fn beta_conversion(
    alloc: Global,
    basis: &Basis,
    term: &Term,
    turns: u32,
) -> Result<Thm, AllocError>
    requires { IsSome (beta_conversion basis.now turns (nameless [] term.now)) }
    ensures { IfOk result (λ th. beta_conversion basis.now turns (nameless [] term.now) ≡ Some th) }
{
    match beta_all(alloc, term, turns) {
        Ok(reduced) => replay(alloc, basis, &reduced.trace),
        Err(ConvError::Memory) => Err(AllocError),
        Err(ConvError::Limit) | Err(ConvError::TooLarge) => unreachable!(),
    }
}
