//! Sessions: lines of a reader, each answered over documents by a line on a writer.
//!
//! A call that answers a `Result` answers its memory error where memory is short, and nowhere else.
#![tactic(auto)]

mod answering;
mod ending;
mod laws;
mod lines;
mod serving;

pub use ending::Ending;
pub use laws::{
    axioms_are_stated_by_commands, axioms_of_theorems_are_stated, finished_proofs_tell_their_goals,
    replies_tell_of_theorems, texts_are_their_lines, theorems_have_origins,
};
pub use lines::{Fault, Sink, Source, Watched, WriteFault, write_reply};
pub use serving::{answer_all, run};
