//! Rules of the connectives and quantifiers, which are refused where they do not apply (HOL Light's bool.ml).
//!
//! Calls that answer a `Result` answer its memory error where memory is short, and nowhere else.
#![tactic(auto)]

mod connectives;
mod error;
mod laws;
mod rules;

pub use connectives::{
    conjunct1, conjunct2, contr, disch, disj_cases, disj1, disj2, eqf_intro, mp, not_intro, undisch,
};
pub use error::{BoolError, Rule};
pub use hol_derived::applied::{conj, eqt_intro};
pub use hol_derived::unfold;
pub use laws::{rules_keep_hypotheses, rules_widen};
pub use rules::{choose, exists, generalize, spec};
