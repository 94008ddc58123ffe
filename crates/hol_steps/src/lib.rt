//! Steps of the functions on goals, for callers that know that they apply: the goals that are left, with the justification.
//!
//! Calls that answer a `Result` answer its memory error where memory is short, and nowhere else.
//!
//! A theorem that was used is let go by a call of `drop`: where a scope ends with it, a check goes through the drops of all its parts.
#![tactic(auto)]

mod applications;
mod assumptions;
mod choosing;
mod connectives;
mod converting;
mod equations;
mod fresh;
mod generalizing;
mod keeping;
mod matching;
mod opening;
mod pieces;
mod progress;
mod quantifiers;
mod replacing;
mod steps;
mod stripping;
mod substituting;
mod waiting;

pub use applications::{Applications, ap_term_step, ap_thm_step, dest_applications, mk_comb_step};
pub use assumptions::{take_out, undisch_step};
pub use choosing::{choose_step, is_free_by, x_choose_step};
pub use connectives::{
    assume_step, conj_step, disch_neg_step, disch_step, disj_cases_step, disj1_step, disj2_step,
    mp_step,
};
pub use converting::converted;
pub use equations::eq_step;
pub use fresh::FreeingStep;
pub use matching::match_mp_step;
pub use quantifiers::{exists_step, gen_step, is_free_in_goal, x_gen_step};
pub use steps::{closing, leaving_one};
pub use stripping::strip;
pub use substituting::{spec_step, subst1_step};
pub use waiting::Waiting;
