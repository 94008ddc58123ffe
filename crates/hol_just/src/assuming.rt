//! What is given in place of theorems: formulas that are assumed.
ghost use Rattle.std.specs.Prelude.{◌≡◌, IfOk, Some, []};
ghost use Rattle.hol_terms.specs.Named.{named_type};
ghost use Rattle.hol_terms.specs.Nameless.{nameless};
ghost use Rattle.hol_formulas.specs.Equation.{bool_type};
ghost use Rattle.hol_kernel.specs.Given.{assumed};

use hol_kernel::{Given, KernelError};
use hol_terms::Term;
use std::alloc::AllocError;

/// The assumption of the formula.
pub fn assumption(p: &Term) -> Result<Given, AllocError>
    requires { named_type p.now ≡ Some bool_type }
    ensures { IfOk result (λ th. th ≡ assumed (nameless [] p.now)) }
{
    match Given::assumed(p) {
        Ok(th) => Ok(th),
        Err(KernelError::Memory) => Err(AllocError),
        Err(KernelError::Refused(_)) => unreachable!(),
        Err(KernelError::Clash(_)) => unreachable!(),
    }
}
