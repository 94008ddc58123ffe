//! Tactic expressions as they are written.
ghost use Rattle.std.specs.Prelude.{◌≡◌, ◌↔◌, IfOk, IsTrue};
ghost use Rattle.hol_notation_tactics.specs.Text.{tac_texts};
ghost use Rattle.hol_notation_tactics.specs.Leading.{leading_name};
ghost use Rattle.hol_notation_tactics.specs.TacView.{tac_of_node};

use crate::tac_call::TacCall;
use hol_notation_terms::Quotation;
use std::alloc::{AllocError, Global};
use std::marker::Model;
use std::rc::Rc;

/// A tactic expression as it is written: a call of a TAC, or a tactical of HOL Light applied to what it takes. Copies share
/// their nodes.
#[cycle(tac_expr)]
#[derive(Drop)]
pub struct TacExpr {
    node: Rc<TacExprNode>,
}

/// The top node of a tactic expression. A call that stands for a theorem tactic lacks its last argument, a theorem.
#[cycle(tac_expr)]
#[derive(Drop)]
pub enum TacExprNode {
    /// A TAC with its arguments.
    Call(TacCall),
    /// `t THEN u`
    Then(TacExpr, TacExpr),
    /// `t THENL [u; ..]`
    ThenL(TacExpr, Vec<TacExpr>),
    /// `t ORELSE u`
    OrElse(TacExpr, TacExpr),
    /// `REPEAT t`
    Repeat(TacExpr),
    /// `TRY t`
    Try(TacExpr),
    /// `CHANGED_TAC t`
    Changed(TacExpr),
    /// `EVERY [t; ..]`
    Every(Vec<TacExpr>),
    /// `FIRST [t; ..]`
    First(Vec<TacExpr>),
    /// `REPLICATE_TAC n t`, n being at most 9,999.
    Replicate(usize, TacExpr),
    /// `DISCH_THEN tt`
    DischThen(TacCall),
    /// `POP_ASSUM tt`
    PopAssum(TacCall),
    /// `FIRST_ASSUM tt`
    FirstAssum(TacCall),
    /// `SUBGOAL_THEN p tt`
    SubgoalThen(Quotation, TacCall),
}

impl Model for TacExpr {
    ghost use Rattle.hol_notation_tactics.specs.Text.{TacText, tac_nodes};
    ghost use Rattle.hol_notation_tactics.specs.Code.{coded_tac};

    ghost Value = { TacText };

    ghost coded = { coded_tac };

    ghost use Rattle.hol_notation_tactics.specs.TacView.{tac_of_node};

    ghost view = { λ a. tac_of_node a.node.value };

    ghost size = { tac_nodes };

    ghost use Rattle.hol_notation_tactics.specs.Falls.{deep_le_tac_nodes};

    ghost size_decreases = { λ a h. deep_le_tac_nodes a.node.value };
}

impl TacExpr {
    /// The tactic expression with this top node.
    pub fn new(alloc: Global, node: TacExprNode) -> Result<TacExpr, AllocError>
        ensures { IfOk result (λ tactic. tactic ≡ tac_of_node node) }
    {
        Ok(TacExpr {
            node: Rc::new(alloc, node)?,
        })
    }

    /// The top node, with its parts by reference.
    pub fn node(&self) -> &TacExprNode
        ensures { tac_of_node result.now ≡ self.now }
    {
        self.node.as_ref()
    }

    /// The same tactic expression, sharing its nodes.
    pub fn copy(&self) -> Result<TacExpr, AllocError>
        ensures { IfOk result (λ tactic. tactic ≡ self.now) }
    {
        Ok(TacExpr {
            node: self.node.clone()?,
        })
    }

    /// The name of the TAC that is written first, or no text where there is none.
    pub fn leading_name(&self) -> &str
        ensures { result.now ≡ leading_name self.now }
    {
        match self.node() {
            TacExprNode::Call(call)
            | TacExprNode::DischThen(call)
            | TacExprNode::PopAssum(call)
            | TacExprNode::FirstAssum(call)
            | TacExprNode::SubgoalThen(_, call) => call.name.as_str(),
            TacExprNode::Then(tactic, _)
            | TacExprNode::ThenL(tactic, _)
            | TacExprNode::OrElse(tactic, _)
            | TacExprNode::Repeat(tactic)
            | TacExprNode::Try(tactic)
            | TacExprNode::Changed(tactic)
            | TacExprNode::Replicate(_, tactic) => tactic.leading_name(),
            TacExprNode::Every(tactics) | TacExprNode::First(tactics) => match tactics.first() {
                Some(tactic) => tactic.leading_name(),
                None => "",
            },
        }
    }

    /// Whether the two tactic expressions are the same, the places of their quotations included.
    #[cycle(same)]
    pub fn same(&self, other: &TacExpr) -> bool
        ensures { IsTrue result ↔ (self.now ≡ other.now) }
    {
        match self.node() {
            TacExprNode::Call(call) => {
                let TacExprNode::Call(other_call) = other.node() else {
                    return false;
                };
                call.same(other_call)
            }
            TacExprNode::Then(first, second) => {
                let TacExprNode::Then(other_first, other_second) = other.node() else {
                    return false;
                };
                first.same(other_first) && second.same(other_second)
            }
            TacExprNode::ThenL(first, tactics) => {
                let TacExprNode::ThenL(other_first, other_tactics) = other.node() else {
                    return false;
                };
                first.same(other_first) && same_tactics(tactics, other_tactics)
            }
            TacExprNode::OrElse(first, second) => {
                let TacExprNode::OrElse(other_first, other_second) = other.node() else {
                    return false;
                };
                first.same(other_first) && second.same(other_second)
            }
            TacExprNode::Repeat(tactic) => {
                let TacExprNode::Repeat(other_tactic) = other.node() else {
                    return false;
                };
                tactic.same(other_tactic)
            }
            TacExprNode::Try(tactic) => {
                let TacExprNode::Try(other_tactic) = other.node() else {
                    return false;
                };
                tactic.same(other_tactic)
            }
            TacExprNode::Changed(tactic) => {
                let TacExprNode::Changed(other_tactic) = other.node() else {
                    return false;
                };
                tactic.same(other_tactic)
            }
            TacExprNode::Every(tactics) => {
                let TacExprNode::Every(other_tactics) = other.node() else {
                    return false;
                };
                same_tactics(tactics, other_tactics)
            }
            TacExprNode::First(tactics) => {
                let TacExprNode::First(other_tactics) = other.node() else {
                    return false;
                };
                same_tactics(tactics, other_tactics)
            }
            TacExprNode::Replicate(times, tactic) => {
                let TacExprNode::Replicate(other_times, other_tactic) = other.node() else {
                    return false;
                };
                *times == *other_times && tactic.same(other_tactic)
            }
            TacExprNode::DischThen(call) => {
                let TacExprNode::DischThen(other_call) = other.node() else {
                    return false;
                };
                call.same(other_call)
            }
            TacExprNode::PopAssum(call) => {
                let TacExprNode::PopAssum(other_call) = other.node() else {
                    return false;
                };
                call.same(other_call)
            }
            TacExprNode::FirstAssum(call) => {
                let TacExprNode::FirstAssum(other_call) = other.node() else {
                    return false;
                };
                call.same(other_call)
            }
            TacExprNode::SubgoalThen(quotation, call) => {
                let TacExprNode::SubgoalThen(other_quotation, other_call) = other.node() else {
                    return false;
                };
                quotation.same(other_quotation) && call.same(other_call)
            }
        }
    }
}

// Whether the tactic expressions are the same, one by one.
#[cycle(same)]
#[tactic(auto, using(crate::proofs::SameTactics::tac_texts_same))]
fn same_tactics(tactics: &[TacExpr], others: &[TacExpr]) -> bool
    ensures { IsTrue result ↔ (tac_texts tactics.now ≡ tac_texts others.now) }
{
    if tactics.len() != others.len() {
        return false;
    }
    for (i, tactic) in tactics.iter().enumerate() {
        if !tactic.same(&others[i]) {
            return false;
        }
    }
    true
}
