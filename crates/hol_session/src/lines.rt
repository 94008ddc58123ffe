//! Lines in, replies out: the loop of a server over any reader and writer.

mod line;
mod service;
mod session;
mod watched;
mod writing;

pub(crate) use line::Line;
pub(crate) use service::Service;
pub use service::{Sink, Source};
pub use session::Fault;
pub(crate) use session::{READ_LIMIT, run_lines};
pub use watched::Watched;
pub use writing::{WriteFault, write_reply};
