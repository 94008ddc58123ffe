//! Requests and replies as lines of JSON say them.
//!
//! A call that answers a `Result` answers its memory error where memory is short, and nowhere else.
#![tactic(auto)]

mod constants;
mod laws;
mod reading;
mod replies;
mod reply;
mod requests;

pub use constants::{closed, done, line_too_long, memory, not_json, refused, shape};
pub use laws::replies_are_told_apart;
pub use reading::request_of;
pub use replies::{counts, lists, reports, rests_on};
pub use reply::{Reply, ReplyText};
pub use requests::Request;
