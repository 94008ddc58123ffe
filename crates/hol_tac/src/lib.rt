//! The functions on goals, by their codes.
//!
//! Calls that answer a `Result` answer its memory error where memory is short, and nowhere else.
#![tactic(auto)]

mod applications;
mod assumptions;
mod by_code;
mod choosing;
mod connectives;
mod converting;
mod equations;
mod matching;
mod quantifiers;
mod rewriting;
mod stripping;
mod substituting;
mod trivial;

pub use applications::{ap_term_tac, ap_thm_tac, mk_comb_tac};
pub use assumptions::undisch_tac;
pub use by_code::tac;
pub use choosing::{choose_tac, x_choose_tac};
pub use connectives::{
    accept_tac, assume_tac, conj_tac, contr_tac, disch_tac, disj_cases_tac, disj1_tac, disj2_tac,
    mp_tac,
};
pub use converting::beta_tac;
pub use equations::{eq_tac, refl_tac};
pub use matching::match_mp_tac;
pub use quantifiers::{exists_tac, gen_tac, x_gen_tac};
pub use rewriting::{
    asm_rewrite_tac, once_asm_rewrite_tac, once_rewrite_tac, pure_rewrite_tac, rewrite_tac,
};
pub use stripping::{strip_assume_tac, strip_tac};
pub use substituting::{spec_tac, subst1_tac};
pub use trivial::{all_tac, no_tac};
