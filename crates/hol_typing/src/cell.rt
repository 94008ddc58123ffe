//! What is known of slots, and equations between them.
use crate::scheme::Scheme;
use hol_types::{Name, Ty};
use std::rc::Rc;

/// What is known of the type of a slot.
#[derive(Drop)]
pub(crate) enum Cell {
    /// Nothing.
    Unknown,
    /// It is the type of a slot with a lower number.
    Link(usize),
    /// It is this type variable of an annotation.
    Rigid(Name),
    /// It is this constructor, applied to the types of these slots.
    App(Name, Vec<usize>),
    /// It is an instance of this generic type. Its parts get slots where it must be one with what is known otherwise.
    Generic(Scheme),
    /// It is this part of an instance of a generic type in which type variables stand twice.
    Part(GenericPart),
}

/// A part of an instance of a generic type. The parts of one instance have the slots of its variables in common, and no slots of their own
/// for what they are made of.
#[derive(Drop)]
pub(crate) struct GenericPart {
    /// The part, as it stands in the generic type. It is no type variable.
    pub(crate) ty: Ty,
    /// The type variables that stand in the generic type twice: those from `base` on are their slots, in this order.
    pub(crate) names: Rc<Vec<Name>>,
    /// The slot of the first of the names.
    pub(crate) base: usize,
}

/// Two slots that must have one type.
#[derive(Clone, Copy)]
pub(crate) struct Equation {
    pub(crate) left: usize,
    pub(crate) right: usize,
}
