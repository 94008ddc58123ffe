//! What a command that runs functions on goals has written: the readings of its quotations, the theorems that rules make of those that it cites, and the arguments of a
//! function on goals.
//!
//! Calls that answer a `Result` answer its memory error where memory is short, and nowhere else.
#![tactic(auto)]

mod arguments;
mod attempts;
mod forward_rule;
mod laws;
mod pairs;
mod quotations;
mod reading;
mod reading_all;
mod readings;
mod refusal;
mod rules;
mod signature;
mod sizes;
mod theorems;
mod written;

pub use arguments::arguments_given;
pub use forward_rule::ForwardRule;
pub use laws::readings_are_over;
pub use quotations::{AnyQuotation, quotations_in};
pub use reading::{Reading, term_reading};
pub use reading_all::read_quotations;
pub use readings::{Quoted, Readings};
pub use refusal::Refusal;
pub use signature::Signature;
pub use theorems::theorem_written;
pub use written::{WrittenArgs, written_as};
