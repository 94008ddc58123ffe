//! Substitution of terms for variables and of types for type variables, with renaming of bound variables.
//!
//! A call that answers a `Result` answers the error of memory where memory is short, and nowhere else.
#![tactic(auto)]

mod alpha;
mod closed;
mod error;
mod hypotheses;
mod instances;
pub mod laws;
mod names;
mod pairs;
mod rebuilt;
mod substitution;
mod types;
mod tyvars;
mod variants;

pub use alpha::{aconv, alpha_order};
pub use closed::is_closed;
pub use error::SubstError;
pub use hypotheses::{Hypotheses, is_free_in_one};
pub use instances::inst;
pub use names::{free_name, taken_primes, with_primes};
pub use substitution::{vsubst, vsubst_good};
pub use tyvars::{has_tyvars_in, term_tyvars};
pub use variants::variant;
