//! Rewriting and beta reduction of terms, as far as turns and size allow.
//!
//! A call that answers a `Result` answers its memory error where memory is short, and nowhere else.
#![tactic(auto)]

mod all_turns;
mod beta;
mod ended;
mod error;
mod frame;
mod kept;
pub mod laws;
mod once_beside;
mod place;
mod redexes;
mod reduct;
mod rewriting;
mod rewritten;
mod trace;
mod trace_node;

pub use beta::beta_all;
pub use error::ConvError;
pub use reduct::body_at;
pub use rewriting::{once, rewrite};
pub use rewritten::Rewritten;
pub use trace::Trace;
pub use trace_node::TraceNode;
