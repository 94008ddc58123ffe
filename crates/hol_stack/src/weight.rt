//! How much steps and histories hold.

use crate::element::{Change, Earlier};
use hol_conv::{Trace, TraceNode};
use hol_goal::Goal;
use hol_just::{Move, Reason};
use hol_kernel::{Basis, Given};
use hol_terms::Term;

/// How much is held, in nodes of terms, up to 2^32 - 1. What is shared counts at each that holds it, so this is never too small; of a theorem by whose rules a term
/// is rewritten, one after the other, it counts once.
#[derive(Drop)]
pub(crate) struct Weight<'a> {
    nodes: u32,
    // the conclusion of the theorem whose rule was used last
    last: Option<&'a Term>,
}

impl<'a> Weight<'a> {
    /// Nothing.
    pub(crate) fn none() -> Weight<'a> {
        Weight {
            nodes: 0,
            last: None,
        }
    }

    /// In nodes.
    pub(crate) fn nodes(&self) -> u32 {
        self.nodes
    }

    // So many more nodes.
    fn add(&mut self, nodes: u32) {
        self.nodes = self.nodes.saturating_add(nodes);
    }

    /// That of the goals.
    pub(crate) fn add_goals(&mut self, goals: &[Goal]) {
        for goal in goals {
            self.add(goal.size());
        }
    }

    /// That of a part of a history: of its goals, which steps left, the list alone.
    pub(crate) fn add_earlier(&mut self, one: &'a Earlier) {
        self.add(list_weight(one.step.goals().len()));
        self.add_basis(one.step.basis());
        match &one.change {
            Change::Left(step) => {
                self.add_goals(step.goals());
                self.add_moves(step.just().moves());
            }
            Change::Turned(_) => {}
        }
    }

    /// That of a basis, whose items stand elsewhere.
    pub(crate) fn add_basis(&mut self, basis: &Basis) {
        self.add(list_weight(basis.items().len()));
    }

    /// That of the moves.
    pub(crate) fn add_moves(&mut self, moves: &'a [Move]) {
        for one in moves {
            self.add(1);
            self.add_reason(&one.reason);
        }
    }

    // That of the reason: of its terms, and of its trace.
    fn add_reason(&mut self, reason: &'a Reason) {
        match reason {
            Reason::Reflexivity(t)
            | Reason::LeftDisjunct(t)
            | Reason::RightDisjunct(t)
            | Reason::Discharge(t)
            | Reason::Contradiction(t)
            | Reason::Generalization(t)
            | Reason::Specialization(t)
            | Reason::Choice(t) => self.add(t.size()),
            Reason::Existence(t, u) | Reason::Replacement(t, u) => {
                self.add(t.size());
                self.add(u.size());
            }
            Reason::Premise(given) => self.add(given.concl().size()),
            Reason::Matching(given, formula, t) => {
                self.add(given.concl().size());
                self.add(formula.size());
                self.add(t.size());
            }
            Reason::Conversion(trace) => self.add_trace(trace),
            Reason::Combination
            | Reason::Antisymmetry
            | Reason::Conjunction
            | Reason::Undischarge
            | Reason::Negation
            | Reason::ModusPonens
            | Reason::LeftConjunct
            | Reason::RightConjunct
            | Reason::Cases
            | Reason::Cut
            | Reason::Symmetry
            | Reason::Truth => {}
        }
    }

    // That of the trace: of its term, of what that became, and of its tree.
    fn add_trace(&mut self, trace: &'a Trace) {
        self.add(trace.old().size());
        self.add_node(trace.node());
    }

    // That of the tree: a node takes no more than one of a term, and a rule as much as two.
    fn add_node(&mut self, node: &'a TraceNode) {
        self.add(1);
        match node {
            TraceNode::Parts(function, argument) => {
                self.add_node(function);
                self.add_node(argument);
            }
            TraceNode::Body(_, body) => self.add_node(body),
            TraceNode::Rule(rule) => self.add_rule(rule.given()),
            TraceNode::Both(_, first, second) => {
                self.add_node(first);
                self.add_node(second);
            }
            TraceNode::Same | TraceNode::Beta => {}
        }
    }

    // That of a rule of the theorem.
    fn add_rule(&mut self, given: &'a Given) {
        self.add(2);
        let concl = given.concl();
        if !is_last(self.last, concl) {
            self.add(concl.size());
            self.last = Some(concl);
        }
    }
}

// Whether the conclusion is seen to be the last one.
fn is_last(last: Option<&Term>, concl: &Term) -> bool {
    match last {
        Some(last) => last.same_node(concl),
        None => false,
    }
}

// That of a list of so many that stand elsewhere.
fn list_weight(len: usize) -> u32 {
    (len.min(1_000_000) as u32) / 8
}
