//! Why nothing is added to a theory.
ghost use Rattle.std.specs.Prelude.{◌≡◌};
ghost use Rattle.hol_theory.specs.declared.error.EnvError.TheVariants.{Memory};

use crate::key::{Key, Kind};
use std::alloc::{AllocError, AllocFailed};
use std::fmt;
use thiserror::Error;

/// Why nothing is added to a theory.
#[derive(Drop, Error)]
pub enum EnvError {
    /// Something stands under the key.
    #[error("the name is taken")]
    Taken(Key),
    /// The theory that is imported has another value under the key.
    #[error("the theories differ under one name")]
    ImportClash(Key),
    /// Memory is short.
    #[error("out of memory")]
    Memory,
}

impl fmt::Debug for EnvError {
    fn fmt<W: fmt::Write>(&self, f: &mut fmt::Formatter<W>) -> fmt::Result {
        match self {
            EnvError::Taken(key) => write_key(f, "Taken", key.kind(), key.name()),
            EnvError::ImportClash(key) => write_key(f, "ImportClash", key.kind(), key.name()),
            EnvError::Memory => write!(f, "Memory"),
        }
    }
}

fn write_key<W: fmt::Write>(
    f: &mut fmt::Formatter<W>,
    what: &str,
    kind: Kind,
    name: &str,
) -> fmt::Result {
    write!(f, "{what}({kind:?}, {name})")
}

impl From<AllocError> for EnvError {
    ghost from_gives = { λ _ e. e ≡ Memory };

    fn from(_error: AllocError) -> EnvError {
        EnvError::Memory
    }
}

impl<T: Drop> From<AllocFailed<T>> for EnvError {
    ghost from_gives = { λ _ e. e ≡ Memory };

    fn from(_error: AllocFailed<T>) -> EnvError {
        EnvError::Memory
    }
}
