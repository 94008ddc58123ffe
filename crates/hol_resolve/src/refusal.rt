//! Why what is written comes to nothing.

use crate::forward_rule::ForwardRule;
use hol_types::Name;

/// Why what is written comes to nothing.
#[derive(Drop)]
pub enum Refusal {
    /// In the quotation at this place a type constructor has another number of arguments than its arity.
    WrongArity(usize),
    /// No types make the term at this place well typed.
    NoTyping(usize),
    /// A reading, or what a rule gives, has over 20,000 nodes.
    TooLarge,
    /// Nothing stands under the name of a theorem.
    UnknownTheorem(Name),
    /// The arguments are not of the kind.
    WrongArguments,
    /// The rule does not apply to what it was handed.
    BadRule(ForwardRule),
}
