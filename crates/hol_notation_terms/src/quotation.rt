//! Terms and types between backquotes.
ghost use Rattle.std.specs.Prelude.{◌≡◌, ◌↔◌, IfOk, IsTrue};

use crate::pre_term::PreTerm;
use crate::pre_type::PreType;
use std::alloc::AllocError;
use std::marker::Model;

/// A term between backquotes.
#[derive(Drop)]
pub struct Quotation {
    /// The place of the opening backquote in the whole text, in bytes from 0.
    pub place: usize,
    /// The term.
    pub term: PreTerm,
}

/// A type between backquotes, with a colon before it.
#[derive(Drop)]
pub struct TypeQuotation {
    /// The place of the opening backquote in the whole text, in bytes from 0.
    pub place: usize,
    /// The type.
    pub ty: PreType,
}

impl Model for Quotation {
    ghost use Rattle.hol_notation_terms.specs.Text.{QuotationText};
    ghost use Rattle.hol_notation_terms.specs.Code.{coded_quotation};

    ghost Value = { QuotationText };

    ghost coded = { coded_quotation };

    ghost view = { λ a. record { place = a.place; term = a.term } };
}

impl Quotation {
    /// The same quotation, sharing the nodes of its term.
    pub fn copy(&self) -> Result<Quotation, AllocError>
        ensures { IfOk result (λ quotation. quotation ≡ self.now) }
    {
        Ok(Quotation {
            place: self.place,
            term: self.term.copy()?,
        })
    }

    /// Whether the two quotations are the same, their places included.
    pub fn same(&self, other: &Quotation) -> bool
        ensures { IsTrue result ↔ (self.now ≡ other.now) }
    {
        self.place == other.place && self.term.same(&other.term)
    }
}

impl Model for TypeQuotation {
    ghost use Rattle.hol_notation_terms.specs.Text.{TypeQuotationText};
    ghost use Rattle.hol_notation_terms.specs.Code.{coded_type_quotation};

    ghost Value = { TypeQuotationText };

    ghost coded = { coded_type_quotation };

    ghost view = { λ a. record { place = a.place; ty = a.ty } };
}

impl TypeQuotation {
    /// The same quotation, sharing the nodes of its type.
    pub fn copy(&self) -> Result<TypeQuotation, AllocError>
        ensures { IfOk result (λ quotation. quotation ≡ self.now) }
    {
        Ok(TypeQuotation {
            place: self.place,
            ty: self.ty.copy()?,
        })
    }

    /// Whether the two quotations are the same, their places included.
    pub fn same(&self, other: &TypeQuotation) -> bool
        ensures { IsTrue result ↔ (self.now ≡ other.now) }
    {
        self.place == other.place && self.ty.same(&other.ty)
    }
}
