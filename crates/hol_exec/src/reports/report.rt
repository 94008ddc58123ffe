//! What a client is told of a command.

use crate::reports::refusal::RefusalKind;
use hol_print::ShownGoal;

/// What a client is told of a command.
#[derive(Drop)]
pub enum Report {
    /// The open goals after it, in order.
    Goals(Vec<ShownGoal>),
    /// The texts of the entries that it made.
    Made(Vec<String>),
    /// Why it was refused, and what the refusal speaks of.
    Refusal { no: RefusalKind, arg: String },
}
