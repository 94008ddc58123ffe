//! The texts of types, terms and goals. The text of a term is a function of its nameless term.
//!
//! Each call that answers a `Result` answers an error where memory is short, and nowhere else.
#![tactic(auto)]

mod bare;
mod free_variables;
mod goal_text;
mod laws;
mod names;
mod notation;
mod primed_name;
mod room;
mod shape;
mod shown_before;
mod shown_goal;
mod shown_names;
mod shown_terms;
mod site;
mod term_text;
mod type_text;

pub use goal_text::show_goal;
pub use laws::shown_names_have_fewest_primes;
pub use room::Room;
pub use shown_before::ShownBefore;
pub use shown_goal::ShownGoal;
pub use term_text::show_term;
pub use type_text::show_type;
