//! Types, terms, quotations and definitions as they are written.
//!
//! Calls that answer a `Result` answer its memory error where memory is short, and nowhere else.
//!
//! Dropping, comparing and hashing what is read call themselves for each part inside another and for each that follows. Texts at the limits on
//! tokens and brackets are read, copied, compared, hashed and dropped natively in the 8 MB of call stack that a program's main thread has
//! (hol_reading_tests).
#![tactic(auto)]

mod definition;
mod operator;
mod pre_term;
mod pre_type;
mod pre_variable;
mod quotation;

pub use definition::{Definition, RightSide};
pub use operator::Operator;
pub use pre_term::{PreTerm, PreTermNode};
pub use pre_type::{PreType, PreTypeNode};
pub use pre_variable::PreVariable;
pub use quotation::{Quotation, TypeQuotation};
