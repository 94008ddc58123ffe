//! What is written after the name of a TAC.
ghost use Rattle.std.specs.Prelude.{◌≡◌, ◌↔◌, IfOk, IsTrue};
ghost use Rattle.hol_notation_tactics.specs.ArgumentView.{argument_of_node};

use crate::thm_expr::ThmExpr;
use hol_notation_terms::Quotation;
use std::alloc::{AllocError, Global};
use std::marker::Model;

/// An argument of a TAC, as it is written.
#[derive(Drop)]
pub struct TacArg {
    node: TacArgNode,
}

/// What an argument of a TAC is.
#[derive(Drop)]
pub enum TacArgNode {
    /// A term.
    Term(Quotation),
    /// A theorem.
    Theorem(ThmExpr),
    /// Two terms.
    Pair(Quotation, Quotation),
    /// Theorems, none or more, in order.
    Theorems(Vec<ThmExpr>),
}

impl Model for TacArg {
    ghost use Rattle.hol_notation_tactics.specs.Text.{ArgumentText};
    ghost use Rattle.hol_notation_tactics.specs.Code.{coded_argument};

    ghost Value = { ArgumentText };

    ghost coded = { coded_argument };

    ghost use Rattle.hol_notation_tactics.specs.ArgumentView.{argument_of_node};

    ghost view = { λ a. argument_of_node a.node };
}

fn copies(alloc: Global, theorems: &[ThmExpr]) -> Result<Vec<ThmExpr>, AllocError>
    ensures { IfOk result (λ copied. copied.items ≡ theorems.now) }
{
    let mut copied = Vec::with_capacity(alloc, theorems.len())?;
    for theorem in theorems {
        copied.push(theorem.copy()?)?;
    }
    Ok(copied)
}

impl TacArg {
    /// The argument that is this.
    pub fn new(node: TacArgNode) -> TacArg
        ensures { result ≡ argument_of_node node }
    {
        TacArg { node }
    }

    /// What it is, with its parts by reference.
    pub fn node(&self) -> &TacArgNode
        ensures { argument_of_node result.now ≡ self.now }
    {
        &self.node
    }

    /// The same argument, sharing its nodes.
    pub fn copy(&self, alloc: Global) -> Result<TacArg, AllocError>
        ensures { IfOk result (λ argument. argument ≡ self.now) }
    {
        let node = match &self.node {
            TacArgNode::Term(quotation) => TacArgNode::Term(quotation.copy()?),
            TacArgNode::Theorem(theorem) => TacArgNode::Theorem(theorem.copy()?),
            TacArgNode::Pair(first, second) => TacArgNode::Pair(first.copy()?, second.copy()?),
            TacArgNode::Theorems(theorems) => TacArgNode::Theorems(copies(alloc, theorems)?),
        };
        Ok(TacArg { node })
    }

    /// Whether the two arguments are the same, their places included.
    pub fn same(&self, other: &TacArg) -> bool
        ensures { IsTrue result ↔ (self.now ≡ other.now) }
    {
        match &self.node {
            TacArgNode::Term(quotation) => {
                let TacArgNode::Term(other_quotation) = &other.node else {
                    return false;
                };
                quotation.same(other_quotation)
            }
            TacArgNode::Theorem(theorem) => {
                let TacArgNode::Theorem(other_theorem) = &other.node else {
                    return false;
                };
                theorem.same(other_theorem)
            }
            TacArgNode::Pair(first, second) => {
                let TacArgNode::Pair(other_first, other_second) = &other.node else {
                    return false;
                };
                first.same(other_first) && second.same(other_second)
            }
            TacArgNode::Theorems(theorems) => {
                let TacArgNode::Theorems(other_theorems) = &other.node else {
                    return false;
                };
                same_theorems(theorems, other_theorems)
            }
        }
    }
}

// Whether the theorems are the same, one by one.
fn same_theorems(theorems: &[ThmExpr], others: &[ThmExpr]) -> bool
    ensures { IsTrue result ↔ (theorems.now ≡ others.now) }
{
    if theorems.len() != others.len() {
        return false;
    }
    for (i, theorem) in theorems.iter().enumerate() {
        if !theorem.same(&others[i]) {
            return false;
        }
    }
    true
}
