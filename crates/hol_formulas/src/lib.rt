//! Formulas of HOL Light's core: `bool`, equations, connectives and quantifiers, made and taken apart; and the prelude's statements.
//!
//! Calls that answer a `Result` answer its memory error where memory is short, and nowhere else.
#![tactic(auto)]

mod bijections;
mod connectives;
mod equality;
mod equations;
mod generic;
mod laws;
mod logical;
mod names;
mod postulate;
mod prelude;
mod quantifiers;
mod sort;
mod standing;
mod statements;
mod terms;
mod types;
mod written;

pub use bijections::{abs_rep, rep_abs};
pub use connectives::{
    applied_to_two, dest_conj, dest_disj, dest_imp, dest_neg, is_conj, is_disj, is_falsity, is_imp,
    is_neg, is_truth, mk_conj, mk_disj, mk_falsity, mk_imp, mk_neg, mk_truth,
};
pub use equality::Equality;
pub use equations::{Sides, dest_eq, is_eq, mk_eq, mk_eq_from};
pub use laws::{formulas_have_parts, parts_make_formulas};
pub use logical::Connectives;
pub use names::{has_axiom_name, has_constant_name, has_type_name};
pub use postulate::Postulate;
pub use prelude::{has_constant, has_type, instances_are_substitutions, is_instance};
pub use quantifiers::{dest_exists, dest_forall, is_exists, is_forall, mk_exists, mk_forall};
pub use sort::{Sort, function_type};
pub use standing::{prelude_constants, prelude_types};
pub use statements::statement;
pub use terms::{constant, occurrence, variable};
pub use types::{
    bool_type, connective_type, is_bool, negation_type, quantifier_type, type_variable,
};
pub use written::{Written, written_term};
