//! First-order matching, and the rules by which terms are rewritten.
//!
//! A call that answers a `Result` answers the error of memory where memory is short, and nowhere else.
#![tactic(auto)]

mod binder;
mod fixed;
mod head_names;
mod heads;
mod instance;
mod kept_rules;
pub mod laws;
mod matching;
mod once;
mod outline;
mod rule;
mod rule_set;
mod rule_step;
mod rules;
mod set_rule;
mod settled;
mod side;
mod source;
mod type_matching;
mod way;

pub use binder::Binder;
pub use instance::Instance;
pub use kept_rules::KeptRules;
pub use matching::{pattern_variables, term_match};
pub use rule_set::RuleSet;
pub use rule_step::RuleStep;
pub use set_rule::SetRule;
pub use source::conclusion_typed;
pub use way::{Way, WayNode};
