//! Answers of rules that apply.
ghost use Rattle.std.specs.Prelude.{◌≡◌, Ok, IfOk};
ghost use Rattle.hol_kernel.specs.Gives.{in_kernel};
ghost use Rattle.hol_equal.specs.Refusals.{in_equal};
ghost use Rattle.hol_just.specs.Made.{IsMade};

use hol_equal::EqualError;
use hol_kernel::{KernelError, Thm};
use std::alloc::AllocError;

/// The theorem that a rule of the kernel made, where it was not refused.
pub(crate) fn made_in_kernel(answer: Result<Thm, KernelError>) -> Result<Thm, AllocError>
    requires { IsMade in_kernel answer }
    ensures { IfOk result (λ thm. answer ≡ Ok thm) }
{
    match answer {
        Ok(thm) => Ok(thm),
        Err(KernelError::Memory) => Err(AllocError),
        Err(KernelError::Refused(_)) => unreachable!(),
        Err(KernelError::Clash(_)) => unreachable!(),
    }
}

/// The theorem that a rule of equations made, where it was not refused.
pub(crate) fn made_in_equal(answer: Result<Thm, EqualError>) -> Result<Thm, AllocError>
    requires { IsMade in_equal answer }
    ensures { IfOk result (λ thm. answer ≡ Ok thm) }
{
    match answer {
        Ok(thm) => Ok(thm),
        Err(EqualError::Memory) => Err(AllocError),
        Err(EqualError::Refused(_)) => unreachable!(),
    }
}
