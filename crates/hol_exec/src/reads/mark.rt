//! What tells most reads apart at once.

use crate::reads::closing::Closing;
use hol_goal::Goal;
use hol_kernel::Basis;
use hol_terms::{Term, TermNode};
use hol_theory::{Key, Value, ValueNode};
use hol_types::{Ty, TyNode};

/// What tells most reads apart at once. Those that are the same mostly have the same mark; no more is promised.
#[derive(Clone, Copy, PartialEq, Eq, Hash, Drop)]
pub struct ReadsMark {
    in_proof: bool,
    cited: usize,
    // how many assumptions the goal has, or how many goals are open where the proof ends
    beside: usize,
    // the size of the goal, or of the statement
    size: u32,
    // mixed of the first nodes, and of what stands under the keys
    nodes: u32,
}

// How many nodes of a goal are looked at.
const NODES: u32 = 64;

// How many nodes of a theorem that stands.
const CITED_NODES: u32 = 8;

// How many of the keys.
const KEYS: usize = 64;

// How many bytes of a name.
const BYTES: usize = 16;

// The numbers that are mixed are below this.
const MODULUS: u32 = 16_777_213;

impl ReadsMark {
    /// That of what is read: whether a proof is open, what stands under the keys that are cited and made, the first goal, and what the end of a proof reads.
    pub(crate) fn of(
        in_proof: bool,
        cited: &[(Key, Option<Value>)],
        made: &[(Key, Option<Value>)],
        goal: Option<&Goal>,
        closing: Option<&Closing>,
    ) -> ReadsMark {
        let nodes = values_mark(made, values_mark(cited, 0));
        let mark = ReadsMark {
            in_proof,
            cited: cited.len(),
            beside: 0,
            size: 0,
            nodes,
        };
        match (goal, closing) {
            (Some(goal), _) => mark.with_goal(goal),
            (None, Some(closing)) => mark.with_closing(closing),
            (None, None) => mark,
        }
    }

    // With the first nodes of the goal's conclusion and of its newest assumption.
    fn with_goal(self, goal: &Goal) -> ReadsMark {
        let concluded = mixed_term(goal.conclusion(), NODES, self.nodes).1;
        let nodes = match goal.assumptions() {
            [newest, ..] => mixed_term(newest, NODES, concluded).1,
            [] => concluded,
        };
        ReadsMark {
            in_proof: self.in_proof,
            cited: self.cited,
            beside: goal.assumptions().len(),
            size: goal.size(),
            nodes,
        }
    }

    // With the name and the first nodes of the statement.
    fn with_closing(self, closing: &Closing) -> ReadsMark {
        let named = mixed_name(closing.name(), mixed_basis(closing.basis(), self.nodes));
        ReadsMark {
            in_proof: self.in_proof,
            cited: self.cited,
            beside: closing.open_goals(),
            size: closing.statement().size(),
            nodes: mixed_term(closing.statement(), NODES, named).1,
        }
    }
}

// What stands under the first of the keys, mixed into the mark.
fn values_mark(values: &[(Key, Option<Value>)], mark: u32) -> u32 {
    let mut mark = mark;
    for entry in values.iter().take(KEYS) {
        mark = match &entry.1 {
            Some(value) => value_mark(value, mark),
            None => mixed(mark, 1),
        };
    }
    mark
}

// What the value is, mixed into the mark.
fn value_mark(value: &Value, mark: u32) -> u32 {
    match value.node() {
        ValueNode::Type { basis, .. } => mixed_basis(basis, mixed(mark, 2)),
        ValueNode::Constant { ty, basis, .. } => mixed_type(ty, mixed_basis(basis, mixed(mark, 3))),
        ValueNode::Theorem(theorem) => {
            let based = mixed_basis(theorem.basis(), mixed(mark, 4));
            mixed_term(theorem.concl(), CITED_NODES, based).1
        }
        ValueNode::Tac { basis, .. } => mixed_basis(basis, mixed(mark, 5)),
    }
}

// The term's first nodes in preorder, at most so many, mixed into the mark; how many more may be, and the mark.
fn mixed_term(t: &Term, nodes: u32, mark: u32) -> (u32, u32) {
    if nodes == 0 {
        return (0, mark);
    }
    let left = nodes - 1;
    let mark = mixed(mark, t.size());
    match t.node() {
        TermNode::Var(v) => (left, mixed_name(v.name().as_str(), mixed(mark, 6))),
        TermNode::Const(name, _) => (left, mixed_name(name.as_str(), mixed(mark, 7))),
        TermNode::Comb(f, x) => {
            let function = mixed_term(f, left, mark);
            mixed_term(x, function.0, function.1)
        }
        TermNode::Abs(_, b) => mixed_term(b, left, mark),
    }
}

// The size of the type and its first name, mixed into the mark.
fn mixed_type(ty: &Ty, mark: u32) -> u32 {
    let sized = mixed(mark, ty.size());
    match ty.node() {
        TyNode::Var(name) | TyNode::App(name, _) => mixed_name(name.as_str(), sized),
    }
}

// How many items the basis has, mixed into the mark.
fn mixed_basis(basis: &Basis, mark: u32) -> u32 {
    mixed(mark, basis.items().len().min(1_000_000) as u32)
}

// The name's first bytes, mixed into the mark.
fn mixed_name(name: &str, mark: u32) -> u32 {
    let mut mark = mark;
    for byte in name.as_bytes().iter().take(BYTES) {
        mark = mixed(mark, u32::from(*byte));
    }
    mark
}

// The number, mixed into the mark.
fn mixed(mark: u32, number: u32) -> u32 {
    (31 * (mark % MODULUS) + number % MODULUS) % MODULUS
}
