//! Types as they are written.
ghost use Rattle.std.specs.Prelude.{◌≡◌, ◌↔◌, IfOk, IsTrue};
ghost use Rattle.hol_notation_terms.specs.Text.{type_texts};
ghost use Rattle.hol_notation_terms.specs.TypeView.{type_of_node};

use std::alloc::{AllocError, Global};
use std::marker::Model;
use std::rc::Rc;

/// A type as it is written. Copies share their nodes.
#[cycle(pre_type)]
#[derive(Drop)]
pub struct PreType {
    node: Rc<PreTypeNode>,
}

/// The top node of a type.
#[cycle(pre_type)]
#[derive(Drop)]
pub enum PreTypeNode {
    /// An identifier: a constructor without arguments, or a variable.
    Ident(String),
    /// `A->B`: the type of functions from the first to the second.
    Arrow(PreType, PreType),
    /// `A list` or `(A,B) prod`: a constructor and its arguments, one or more, in order.
    Apply(String, Vec<PreType>),
}

impl Model for PreType {
    ghost use Rattle.hol_notation_terms.specs.Text.{TypeText, type_nodes};
    ghost use Rattle.hol_notation_terms.specs.Code.{coded_type};

    ghost Value = { TypeText };

    ghost coded = { coded_type };

    ghost use Rattle.hol_notation_terms.specs.TypeView.{type_of_node};

    ghost view = { λ a. type_of_node a.node.value };

    ghost size = { type_nodes };

    ghost use Rattle.hol_notation_terms.specs.Falls.{deep_le_type_nodes};

    ghost size_decreases = { λ a h. deep_le_type_nodes a.node.value };
}

impl PreType {
    /// The type with this top node.
    pub fn new(alloc: Global, node: PreTypeNode) -> Result<PreType, AllocError>
        ensures { IfOk result (λ ty. ty ≡ type_of_node node) }
    {
        Ok(PreType {
            node: Rc::new(alloc, node)?,
        })
    }

    /// The top node, with its parts by reference.
    pub fn node(&self) -> &PreTypeNode
        ensures { type_of_node result.now ≡ self.now }
    {
        self.node.as_ref()
    }

    /// The same type, sharing its nodes.
    pub fn copy(&self) -> Result<PreType, AllocError>
        ensures { IfOk result (λ ty. ty ≡ self.now) }
    {
        Ok(PreType {
            node: self.node.clone()?,
        })
    }

    /// Whether the two types are the same.
    #[cycle(same)]
    pub fn same(&self, other: &PreType) -> bool
        ensures { IsTrue result ↔ (self.now ≡ other.now) }
    {
        match self.node() {
            PreTypeNode::Ident(name) => match other.node() {
                PreTypeNode::Ident(other_name) => name.as_str() == other_name.as_str(),
                PreTypeNode::Arrow(_, _) | PreTypeNode::Apply(_, _) => false,
            },
            PreTypeNode::Arrow(from, to) => {
                let PreTypeNode::Arrow(other_from, other_to) = other.node() else {
                    return false;
                };
                from.same(other_from) && to.same(other_to)
            }
            PreTypeNode::Apply(name, arguments) => {
                let PreTypeNode::Apply(other_name, other_arguments) = other.node() else {
                    return false;
                };
                name.as_str() == other_name.as_str() && same_types(arguments, other_arguments)
            }
        }
    }
}

// Whether the types are the same, one by one.
#[cycle(same)]
#[tactic(auto, using(crate::proofs::SameTypes::type_texts_same))]
fn same_types(types: &[PreType], others: &[PreType]) -> bool
    ensures { IsTrue result ↔ (type_texts types.now ≡ type_texts others.now) }
{
    if types.len() != others.len() {
        return false;
    }
    for (i, ty) in types.iter().enumerate() {
        if !ty.same(&others[i]) {
            return false;
        }
    }
    true
}

/// Whether the types that are written for two things are the same, or none is.
pub(crate) fn same_annotations(annotation: &Option<PreType>, other: &Option<PreType>) -> bool
    ensures { IsTrue result ↔ (annotation.now ≡ other.now) }
{
    match annotation {
        Some(ty) => match other {
            Some(other_ty) => ty.same(other_ty),
            None => false,
        },
        None => other.is_none(),
    }
}
