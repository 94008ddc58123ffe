//! Commands: what one reads of a theory's state, its outcome, the next state, and the report on it.
//!
//! A call that answers a `Result` answers its memory error where memory is short, and nowhere else.
#![tactic(auto)]

mod declaring;
mod laws;
mod reading;
mod reads;
mod reports;
mod resolving;
mod running;
mod state;
mod weight;

pub use hol_notation_commands::{Command, CommandNode, DirectCommand, LocalCommand, Making};
pub use hol_print::{Room, ShownGoal};
pub use hol_stack::Element;
pub use laws::{one_outcome, outcomes_need_the_tested_names_alone, own_bases_are_of_own_keys};
pub use reading::{Parsed, parse, unread};
pub use reads::{ChangedKeys, CommandKeys, Reads, ReadsMark};
pub use reports::{RefusalKind, Report, entry_text, goals_of, report_of, report_with};
pub use running::{
    EarlierTheory, Meter, Outcome, Setup, SetupTable, Tested, agrees, apply, direct, promise_each,
    resume, run_local,
};
pub use state::State;
