//! Theorems of rewriting.
//!
//! A call that answers a `Result` answers the error of memory where memory is short, and nowhere else.
#![tactic(auto)]

mod consumed;
mod conversion;
mod parts;
mod redex_theorem;
mod replaying;
mod rule_theorems;

pub use conversion::beta_conversion;
pub use replaying::replay;
pub use rule_theorems::rule_theorem;
