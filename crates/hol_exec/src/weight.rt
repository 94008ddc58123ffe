//! How much what stands in a theory holds.

use hol_kernel::Basis;
use hol_theory::{Key, Value, ValueNode};

// That of an expression, whatever it holds: it is as large as a goal at the most.
const EXPRESSION: u32 = 20_000;

/// How much the values hold, in nodes of terms, up to 2^32 - 1, one at least for each.
pub(crate) fn values_weight(values: &[(Key, Option<Value>)]) -> u32 {
    let mut weight: u32 = 0;
    for one in values {
        weight = weight.saturating_add(match &one.1 {
            Some(value) => value_weight(value),
            None => 1,
        });
    }
    weight
}

/// How much the entries hold, in the same way.
pub(crate) fn entries_weight(entries: &[(Key, Value)]) -> u32 {
    let mut weight: u32 = 0;
    for one in entries {
        weight = weight.saturating_add(value_weight(&one.1));
    }
    weight
}

// How much the value holds: one, and of a theorem its conclusion, of a constant its type.
fn value_weight(value: &Value) -> u32 {
    match value.node() {
        ValueNode::Type { .. } => 1,
        ValueNode::Constant { ty, .. } => ty.size().saturating_add(1),
        ValueNode::Theorem(theorem) => theorem.concl().size().saturating_add(1),
        ValueNode::Tac { .. } => EXPRESSION,
    }
}

/// How much the list of a basis's items holds: these stand elsewhere.
pub(crate) fn basis_weight(basis: &Basis) -> u32 {
    (basis.items().len().min(1_000_000) as u32) / 8
}
