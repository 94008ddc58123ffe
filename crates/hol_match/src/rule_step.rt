//! Steps from a theorem's conclusion to the formulas of its rules.

use hol_terms::Variable;

/// A step from a formula to one that follows from it.
#[derive(Drop)]
pub enum RuleStep {
    /// From `!x. p` to `p` at the variable (SPEC).
    At(Variable),
    /// From `p /\ q` to `p` (CONJUNCT1).
    First,
    /// From `p /\ q` to `q` (CONJUNCT2).
    Second,
}
