//! Why entries make no registry.

use thiserror::Error;

/// Why entries make no registry.
#[derive(Debug, Drop, Error)]
pub enum RegistryError {
    /// Two entries have this name.
    #[error("{0} stands twice")]
    Twice(String),
}
