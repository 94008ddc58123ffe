//! Theorem expressions as they are written.
ghost use Rattle.std.specs.Prelude.{◌≡◌, ◌↔◌, IfOk, IsTrue};
ghost use Rattle.hol_notation_tactics.specs.ThmView.{thm_of_node};

use crate::type_pair::TypePair;
use hol_notation_terms::Quotation;
use std::alloc::{AllocError, Global};
use std::marker::Model;
use std::rc::Rc;

/// A theorem expression as it is written: a cited theorem, or a rule of HOL Light applied to what it takes. Copies share
/// their nodes.
#[cycle(thm_expr)]
#[derive(Drop)]
pub struct ThmExpr {
    node: Rc<ThmExprNode>,
}

/// The top node of a theorem expression.
#[cycle(thm_expr)]
#[derive(Drop)]
pub enum ThmExprNode {
    /// A theorem, by its name.
    Name(String),
    /// `ASSUME p`
    Assume(Quotation),
    /// `REFL t`
    Refl(Quotation),
    /// `SPEC t th`
    Spec(Quotation, ThmExpr),
    /// `SYM th`
    Sym(ThmExpr),
    /// `CONJUNCT1 th`
    Conjunct1(ThmExpr),
    /// `CONJUNCT2 th`
    Conjunct2(ThmExpr),
    /// `MP th th`: the implication and its premise.
    Mp(ThmExpr, ThmExpr),
    /// `INST_TYPE [ty, v; ..] th`: one pair or more, in order.
    InstType(Vec<TypePair>, ThmExpr),
}

impl Model for ThmExpr {
    ghost use Rattle.hol_notation_tactics.specs.Text.{ThmText, thm_nodes};
    ghost use Rattle.hol_notation_tactics.specs.Code.{coded_thm};

    ghost Value = { ThmText };

    ghost coded = { coded_thm };

    ghost use Rattle.hol_notation_tactics.specs.ThmView.{thm_of_node};

    ghost view = { λ a. thm_of_node a.node.value };

    ghost size = { thm_nodes };

    ghost use Rattle.hol_notation_tactics.specs.Falls.{deep_le_thm_nodes};

    ghost size_decreases = { λ a h. deep_le_thm_nodes a.node.value };
}

impl ThmExpr {
    /// The theorem expression with this top node.
    pub fn new(alloc: Global, node: ThmExprNode) -> Result<ThmExpr, AllocError>
        ensures { IfOk result (λ theorem. theorem ≡ thm_of_node node) }
    {
        Ok(ThmExpr {
            node: Rc::new(alloc, node)?,
        })
    }

    /// The top node, with its parts by reference.
    pub fn node(&self) -> &ThmExprNode
        ensures { thm_of_node result.now ≡ self.now }
    {
        self.node.as_ref()
    }

    /// The same theorem expression, sharing its nodes.
    pub fn copy(&self) -> Result<ThmExpr, AllocError>
        ensures { IfOk result (λ theorem. theorem ≡ self.now) }
    {
        Ok(ThmExpr {
            node: self.node.clone()?,
        })
    }

    /// Whether the two theorem expressions are the same, the places of their quotations included.
    pub fn same(&self, other: &ThmExpr) -> bool
        ensures { IsTrue result ↔ (self.now ≡ other.now) }
    {
        match self.node() {
            ThmExprNode::Name(name) => {
                let ThmExprNode::Name(other_name) = other.node() else {
                    return false;
                };
                name.as_str() == other_name.as_str()
            }
            ThmExprNode::Assume(quotation) => {
                let ThmExprNode::Assume(other_quotation) = other.node() else {
                    return false;
                };
                quotation.same(other_quotation)
            }
            ThmExprNode::Refl(quotation) => {
                let ThmExprNode::Refl(other_quotation) = other.node() else {
                    return false;
                };
                quotation.same(other_quotation)
            }
            ThmExprNode::Spec(quotation, theorem) => {
                let ThmExprNode::Spec(other_quotation, other_theorem) = other.node() else {
                    return false;
                };
                quotation.same(other_quotation) && theorem.same(other_theorem)
            }
            ThmExprNode::Sym(theorem) => {
                let ThmExprNode::Sym(other_theorem) = other.node() else {
                    return false;
                };
                theorem.same(other_theorem)
            }
            ThmExprNode::Conjunct1(theorem) => {
                let ThmExprNode::Conjunct1(other_theorem) = other.node() else {
                    return false;
                };
                theorem.same(other_theorem)
            }
            ThmExprNode::Conjunct2(theorem) => {
                let ThmExprNode::Conjunct2(other_theorem) = other.node() else {
                    return false;
                };
                theorem.same(other_theorem)
            }
            ThmExprNode::Mp(implication, premise) => {
                let ThmExprNode::Mp(other_implication, other_premise) = other.node() else {
                    return false;
                };
                implication.same(other_implication) && premise.same(other_premise)
            }
            ThmExprNode::InstType(pairs, theorem) => {
                let ThmExprNode::InstType(other_pairs, other_theorem) = other.node() else {
                    return false;
                };
                same_pairs(pairs, other_pairs) && theorem.same(other_theorem)
            }
        }
    }
}

// Whether the pairs are the same, one by one.
fn same_pairs(pairs: &[TypePair], others: &[TypePair]) -> bool
    ensures { IsTrue result ↔ (pairs.now ≡ others.now) }
{
    if pairs.len() != others.len() {
        return false;
    }
    for (i, pair) in pairs.iter().enumerate() {
        if !pair.same(&others[i]) {
            return false;
        }
    }
    true
}
