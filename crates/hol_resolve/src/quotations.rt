//! The quotations in what is written.
ghost use Rattle.std.specs.Prelude.{◌≡◌, true, IfOk};
ghost use Rattle.hol_resolve.specs.Quotations.{place_of, quotations_in, AreWrittenAlike};

use hol_notation_tactics::Part;
use hol_notation_terms::{Quotation, TypeQuotation};
use std::alloc::{AllocError, Global};

/// A quotation of a term or of a type.
#[derive(Drop)]
pub enum AnyQuotation {
    /// Of a term.
    Term(Quotation),
    /// Of a type.
    Type(TypeQuotation),
}

impl AnyQuotation {
    /// The place where it opens in the whole text, in bytes from 0.
    pub fn place(&self) -> usize
        ensures { result ≡ place_of self.now }
    {
        match self {
            AnyQuotation::Term(term) => term.place,
            AnyQuotation::Type(ty) => ty.place,
        }
    }

    /// Whether it is found to be written as the other, wherever that stands.
    pub(crate) fn is_written_as(&self, other: &AnyQuotation) -> bool
        ensures { result ≡ true → AreWrittenAlike self.now other.now }
    {
        match self {
            AnyQuotation::Term(term) => match other {
                AnyQuotation::Term(other) => term.term.same(&other.term),
                AnyQuotation::Type(_) => false,
            },
            AnyQuotation::Type(ty) => match other {
                AnyQuotation::Term(_) => false,
                AnyQuotation::Type(other) => ty.ty.same(&other.ty),
            },
        }
    }
}

/// The quotations among the parts, in text order: those of all branches.
pub fn quotations_in(alloc: Global, parts: &[Part]) -> Result<Vec<AnyQuotation>, AllocError>
    ensures { IfOk result (λ quotations. quotations.items ≡ quotations_in parts.now) }
{
    let mut quotations = Vec::new(alloc);
    for part in parts {
        match part {
            Part::Term(term) | Part::Formula(term) => {
                quotations.push(AnyQuotation::Term(term.copy()?))?;
            }
            Part::Type(ty) => quotations.push(AnyQuotation::Type(ty.copy()?))?,
            Part::Theorem(_) | Part::Call(_, _) => {}
        }
    }
    Ok(quotations)
}
