//! Terms before their types are found.
ghost use Rattle.std.specs.Prelude.{◌≡◌, IfOk};
ghost use Rattle.hol_typing.specs.Raw.{RawApply, RawAbstraction, RawAnnotated};
ghost use Rattle.hol_typing.specs.RawView.{raw_tree};

use crate::scheme::Scheme;
use hol_types::{Name, Ty};
use std::alloc::{AllocError, Global};

/// A term with identifiers resolved and without types.
#[derive(Drop)]
pub enum RawTerm {
    /// The variable of the abstraction so many outwards, from 0.
    Bound(usize),
    /// A constant with its generic type.
    Constant(Name, Scheme),
    /// A free variable.
    Free(Name),
    /// An application of the first to the second.
    Apply(Box<RawTerm>, Box<RawTerm>),
    /// An abstraction: the bound variable's name, what is written of its type, and the body.
    Abstraction(Name, Option<Ty>, Box<RawTerm>),
    /// A term with its type written.
    Annotated(Box<RawTerm>, Ty),
}

impl RawTerm {
    /// The term in a box: what is handed up a recursion is a box, and takes little of its frame.
    pub fn boxed(alloc: Global, term: RawTerm) -> Result<Box<RawTerm>, AllocError>
        ensures { IfOk result (λ b. b.value ≡ term) }
    {
        Ok(Box::new(alloc, term)?)
    }

    /// The application of the first to the second.
    pub fn apply(
        alloc: Global,
        function: Box<RawTerm>,
        argument: Box<RawTerm>,
    ) -> Result<Box<RawTerm>, AllocError>
        ensures { IfOk result (λ t. raw_tree t.value ≡ RawApply (raw_tree function.value) (raw_tree argument.value)) }
    {
        RawTerm::boxed(alloc, RawTerm::Apply(function, argument))
    }

    /// The abstraction over a variable of this name.
    pub fn abstraction(
        alloc: Global,
        name: &str,
        annotation: Option<Ty>,
        body: Box<RawTerm>,
    ) -> Result<Box<RawTerm>, AllocError>
        ensures { IfOk result (λ t. raw_tree t.value ≡ RawAbstraction name.now annotation (raw_tree body.value)) }
    {
        let own_name = Name::new(alloc, name)?;
        RawTerm::boxed(alloc, RawTerm::Abstraction(own_name, annotation, body))
    }

    /// The term with its type written.
    pub fn annotated(alloc: Global, term: Box<RawTerm>, ty: Ty) -> Result<Box<RawTerm>, AllocError>
        ensures { IfOk result (λ t. raw_tree t.value ≡ RawAnnotated (raw_tree term.value) ty) }
    {
        RawTerm::boxed(alloc, RawTerm::Annotated(term, ty))
    }
}
