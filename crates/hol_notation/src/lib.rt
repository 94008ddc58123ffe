//! Commands, tactic and theorem expressions, quotations, types and terms as they are written, and the reading of them: what the crates
//! of the notation give to those above.
#![tactic(auto)]

pub use hol_notation_commands::{
    Command, CommandNode, DirectCommand, LocalCommand, Making, TypeDefinition,
};
pub use hol_notation_reader::read_command;
pub use hol_notation_tactics::{
    CitedName, Part, Role, TacArg, TacArgNode, TacCall, TacExpr, TacExprNode, ThmExpr, ThmExprNode,
    TypePair, calls_in, parts_of,
};
pub use hol_notation_terms::{
    Definition, Operator, PreTerm, PreTermNode, PreType, PreTypeNode, PreVariable, Quotation,
    RightSide, TypeQuotation,
};
pub use hol_notation_tokens::{
    Kind, MAX_OPEN, MAX_TOKENS, SyntaxError, Token, is_identifier, lex, skip,
};
