//! What a client is told of a command.

mod refusal;
mod report;
mod reporting;

pub use refusal::RefusalKind;
pub use report::Report;
pub use reporting::{entry_text, goals_of, report_of, report_with};
