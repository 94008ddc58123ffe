//! What is written, read: a command's text, and a term over what stands.

mod parsed;
mod signature;
mod terms;

pub use parsed::{Parsed, parse, unread};
pub(crate) use signature::signature_of;
pub(crate) use terms::{is_statement, read_cited};
