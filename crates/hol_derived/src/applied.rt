//! The rules, for callers that know that they apply: such a call is not refused.

pub use crate::cases::{by_cases, disj_cases};
pub use crate::existential::{choose, exists, left_of_choice};
pub use crate::rules::{
    conj, conjunct1, conjunct2, contr, disch, disj1, disj2, eqf_intro, eqt_intro, for_each,
    generalize, mp, not_intro, truth, undisch,
};
pub use crate::universal::{spec, specialize};
