//! Terms as they are written.
ghost use Rattle.std.specs.Prelude.{◌≡◌, ◌↔◌, IfOk, IsTrue};
ghost use Rattle.hol_notation_terms.specs.TermView.{term_of_node};

use crate::operator::Operator;
use crate::pre_type::PreType;
use crate::pre_variable::PreVariable;
use std::alloc::{AllocError, Global};
use std::marker::Model;
use std::rc::Rc;

/// A term as it is written. Copies share their nodes.
///
/// An infix is its operator applied to the left side and then to the right side, `~p` is `Not` applied to `p`, and a
/// binder other than `\` is its operator applied to an abstraction. A binder of more variables binds one after another.
#[cycle(pre_term)]
#[derive(Drop)]
pub struct PreTerm {
    node: Rc<PreTermNode>,
}

/// The top node of a term.
#[cycle(pre_term)]
#[derive(Drop)]
pub enum PreTermNode {
    /// An identifier: a variable or a constant.
    Ident(String),
    /// A constant that has a notation of its own.
    Operator(Operator),
    /// An application of the first to the second.
    Apply(PreTerm, PreTerm),
    /// `\x. b`: the bound variable and the body.
    Abstraction(PreVariable, PreTerm),
    /// `t:A`: a term with the type that is written after it.
    Typed(PreTerm, PreType),
}

impl Model for PreTerm {
    ghost use Rattle.hol_notation_terms.specs.Text.{TermText, term_nodes};
    ghost use Rattle.hol_notation_terms.specs.Code.{coded_term};

    ghost Value = { TermText };

    ghost coded = { coded_term };

    ghost use Rattle.hol_notation_terms.specs.TermView.{term_of_node};

    ghost view = { λ a. term_of_node a.node.value };

    ghost size = { term_nodes };

    ghost use Rattle.hol_notation_terms.specs.Falls.{deep_le_term_nodes};

    ghost size_decreases = { λ a h. deep_le_term_nodes a.node.value };
}

impl PreTerm {
    /// The term with this top node.
    pub fn new(alloc: Global, node: PreTermNode) -> Result<PreTerm, AllocError>
        ensures { IfOk result (λ term. term ≡ term_of_node node) }
    {
        Ok(PreTerm {
            node: Rc::new(alloc, node)?,
        })
    }

    /// The top node, with its parts by reference.
    pub fn node(&self) -> &PreTermNode
        ensures { term_of_node result.now ≡ self.now }
    {
        self.node.as_ref()
    }

    /// The same term, sharing its nodes.
    pub fn copy(&self) -> Result<PreTerm, AllocError>
        ensures { IfOk result (λ term. term ≡ self.now) }
    {
        Ok(PreTerm {
            node: self.node.clone()?,
        })
    }

    /// Whether the two terms are the same as they are written.
    pub fn same(&self, other: &PreTerm) -> bool
        ensures { IsTrue result ↔ (self.now ≡ other.now) }
    {
        match self.node() {
            PreTermNode::Ident(name) => {
                let PreTermNode::Ident(other_name) = other.node() else {
                    return false;
                };
                name.as_str() == other_name.as_str()
            }
            PreTermNode::Operator(operator) => {
                let PreTermNode::Operator(other_operator) = other.node() else {
                    return false;
                };
                *operator == *other_operator
            }
            PreTermNode::Apply(function, argument) => {
                let PreTermNode::Apply(other_function, other_argument) = other.node() else {
                    return false;
                };
                function.same(other_function) && argument.same(other_argument)
            }
            PreTermNode::Abstraction(variable, body) => {
                let PreTermNode::Abstraction(other_variable, other_body) = other.node() else {
                    return false;
                };
                variable.same(other_variable) && body.same(other_body)
            }
            PreTermNode::Typed(term, ty) => {
                let PreTermNode::Typed(other_term, other_ty) = other.node() else {
                    return false;
                };
                term.same(other_term) && ty.same(other_ty)
            }
        }
    }
}
