//! What the quotations of a command read as.
ghost use Rattle.std.specs.Prelude.{◌≡◌, [], IfOk, option_copied};
ghost use Rattle.std.specs.Option.{option_map};
ghost use Rattle.hol_terms.specs.Nameless.{nameless};
ghost use Rattle.hol_resolve.specs.Readings.{term_at, type_at};
ghost use Rattle.hol_resolve.specs.ReadingView.{quoted_value, list_value, readings_value};

use hol_terms::Term;
use hol_types::Ty;
use std::alloc::AllocError;

/// What a quotation reads as.
#[derive(Drop)]
pub enum Quoted {
    /// A term.
    Term(Term),
    /// A type.
    Type(Ty),
}

impl Quoted {
    /// The same term or type.
    pub fn copy(&self) -> Result<Quoted, AllocError>
        ensures { IfOk result (λ quoted. quoted_value quoted ≡ quoted_value self.now) }
    {
        Ok(match self {
            Quoted::Term(term) => Quoted::Term(term.copy()?),
            Quoted::Type(ty) => Quoted::Type(ty.copy()?),
        })
    }
}

/// What the quotations of a command read as, in text order, each with its place.
#[derive(Drop)]
pub struct Readings {
    list: Vec<(usize, Quoted)>,
}

impl Readings {
    ghost use Rattle.std.specs.Map.{lookup};
    ghost use Rattle.std.specs.Prelude.{nat_eq};

    /// These readings, each with the place of its quotation.
    pub(crate) fn new(list: Vec<(usize, Quoted)>) -> Readings
        ensures { readings_value result ≡ list_value list.items }
    {
        Readings { list }
    }

    /// The readings in text order, each with the place of its quotation.
    pub fn list(&self) -> &[(usize, Quoted)]
        ensures { list_value result.now ≡ readings_value self.now }
    {
        &self.list
    }

    // What the quotation at the place reads as.
    fn at(&self, place: usize) -> Option<&Quoted>
        ensures { option_map quoted_value (option_copied result) ≡ lookup (nat_eq place) (readings_value self.now) }
    {
        for reading in &self.list {
            if place == reading.0 {
                return Some(&reading.1);
            }
        }
        None
    }

    /// The term that the quotation at the place reads as.
    pub fn term_at(&self, place: usize) -> Option<&Term>
        ensures { option_map (nameless []) (option_copied result) ≡ term_at (readings_value self.now) place }
    {
        match self.at(place)? {
            Quoted::Term(term) => Some(term),
            Quoted::Type(_) => None,
        }
    }

    /// The type that the quotation at the place reads as.
    pub(crate) fn type_at(&self, place: usize) -> Option<&Ty>
        ensures { option_copied result ≡ type_at (readings_value self.now) place }
    {
        match self.at(place)? {
            Quoted::Type(ty) => Some(ty),
            Quoted::Term(_) => None,
        }
    }
}
