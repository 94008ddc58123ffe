//! Why a call of the kernel gives nothing.
ghost use Rattle.std.specs.Prelude.{◌≡◌, IfOk};
ghost use Rattle.hol_kernel.specs.declared.error.KernelError.TheVariants.{Memory};

use hol_types::Name;
use std::alloc::{AllocError, AllocFailed};
use std::fmt;
use thiserror::Error;

/// The rules of the kernel, as a refusal names them.
#[derive(Clone, Copy, Debug, PartialEq, Eq)]
pub enum Rule {
    /// `|- t = t`.
    Refl,
    /// From `s = m` and `m = t`, `s = t`.
    Trans,
    /// From `f = g` and `x = y`, `f x = g y`.
    MkComb,
    /// From `l = r`, `(\v. l) = (\v. r)`.
    Abs,
    /// `(\v. b) v = b`.
    Beta,
    /// `{p} |- p`.
    Assume,
    /// From `l = r` and `l`, `r`.
    EqMp,
    /// Types for type variables.
    InstType,
    /// Terms for variables.
    Inst,
    /// A type constructor is declared.
    DeclareType,
    /// A constant is declared.
    DeclareConst,
    /// An axiom is declared.
    DeclareAxiom,
    /// An axiom is taken by its name.
    AxiomOf,
    /// A constant is defined.
    Define,
    /// A type is defined.
    TypeDefine,
}

/// Why a call of the kernel gives nothing.
#[derive(Drop, Error)]
pub enum KernelError {
    /// The rule does not apply to what it was handed.
    #[error("the rule does not apply")]
    Refused(Rule),
    /// Two different items of the bases that were to be joined have this name of a type, a constant or an axiom.
    #[error("two different items have one name")]
    Clash(Name),
    /// Memory is short.
    #[error("out of memory")]
    Memory,
}

impl KernelError {
    /// The same error.
    pub fn copy(&self) -> Result<KernelError, AllocError>
        ensures { IfOk result (λ error. error ≡ self.now) }
    {
        Ok(match self {
            KernelError::Refused(rule) => KernelError::Refused(*rule),
            KernelError::Clash(name) => KernelError::Clash(name.copy()?),
            KernelError::Memory => KernelError::Memory,
        })
    }
}

impl fmt::Debug for KernelError {
    fn fmt<W: fmt::Write>(&self, f: &mut fmt::Formatter<W>) -> fmt::Result {
        match self {
            KernelError::Refused(rule) => write!(f, "Refused({rule:?})"),
            KernelError::Clash(name) => {
                let text = name.as_str();
                write!(f, "Clash({text})")
            }
            KernelError::Memory => write!(f, "Memory"),
        }
    }
}

impl From<AllocError> for KernelError {
    ghost from_gives = { λ _ e. e ≡ Memory };

    fn from(_error: AllocError) -> KernelError {
        KernelError::Memory
    }
}

impl<T: Drop> From<AllocFailed<T>> for KernelError {
    ghost from_gives = { λ _ e. e ≡ Memory };

    fn from(_error: AllocFailed<T>) -> KernelError {
        KernelError::Memory
    }
}
