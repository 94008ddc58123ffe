//! Theorem and tactic expressions as they are written.
//!
//! Calls that answer a `Result` answer its memory error where memory is short, and nowhere else.
#![tactic(auto)]

mod cited_name;
mod parts;
mod tac_arg;
mod tac_call;
mod tac_expr;
mod thm_expr;
mod type_pair;

pub use cited_name::CitedName;
pub use parts::{Part, Role, calls_in, parts_of, parts_of_theorem};
pub use tac_arg::{TacArg, TacArgNode};
pub use tac_call::TacCall;
pub use tac_expr::{TacExpr, TacExprNode};
pub use thm_expr::{ThmExpr, ThmExprNode};
pub use type_pair::TypePair;
