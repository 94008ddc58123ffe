//! Definitions of constants, as they are written between backquotes.
ghost use Rattle.std.specs.Prelude.{◌≡◌, ◌↔◌, IfOk, IsTrue};

use crate::pre_term::PreTerm;
use crate::pre_type::{PreType, same_annotations};
use crate::pre_variable::PreVariable;
use std::alloc::{AllocError, Global};
use std::marker::Model;

/// What a constant that is applied to its parameters is to be equal to.
#[derive(Drop)]
pub struct RightSide {
    /// The type that is written for it.
    pub annotation: Option<PreType>,
    /// Whether `<=>` stands before the term. If not, `=` does.
    pub is_iff: bool,
    /// The term.
    pub term: PreTerm,
}

/// A definition of a constant between backquotes.
#[derive(Drop)]
pub struct Definition {
    /// The place of the opening backquote in the whole text, in bytes from 0.
    pub place: usize,
    /// The constant's name, which is no reserved word.
    pub name: String,
    /// Its parameters. No two of them, and none and the constant, have the same name.
    pub parameters: Vec<PreVariable>,
    /// The right side.
    pub right: RightSide,
}

impl Model for RightSide {
    ghost use Rattle.hol_notation_terms.specs.Text.{RightSideText};
    ghost use Rattle.hol_notation_terms.specs.Code.{coded_right_side};

    ghost Value = { RightSideText };

    ghost coded = { coded_right_side };

    ghost view = { λ a. record { annotation = a.annotation; is_iff = a.is_iff; term = a.term } };
}

impl RightSide {
    /// The same right side, sharing the nodes of its type and term.
    pub fn copy(&self) -> Result<RightSide, AllocError>
        ensures { IfOk result (λ right. right ≡ self.now) }
    {
        let annotation = match &self.annotation {
            Some(ty) => Some(ty.copy()?),
            None => None,
        };
        Ok(RightSide {
            annotation,
            is_iff: self.is_iff,
            term: self.term.copy()?,
        })
    }

    /// Whether the two right sides are the same.
    pub fn same(&self, other: &RightSide) -> bool
        ensures { IsTrue result ↔ (self.now ≡ other.now) }
    {
        self.is_iff == other.is_iff
            && same_annotations(&self.annotation, &other.annotation)
            && self.term.same(&other.term)
    }
}

impl Model for Definition {
    ghost use Rattle.std.specs.Prelude.{string_bytes};
    ghost use Rattle.hol_notation_terms.specs.Text.{DefinitionText};
    ghost use Rattle.hol_notation_terms.specs.Code.{coded_definition};

    ghost Value = { DefinitionText };

    ghost coded = { coded_definition };

    ghost view = { λ a. record { place = a.place; name = string_bytes a.name; parameters = a.parameters.items; right = a.right } };
}

impl Definition {
    /// The same definition, sharing the nodes of its types and its term.
    pub fn copy(&self, alloc: Global) -> Result<Definition, AllocError>
        ensures { IfOk result (λ definition. definition ≡ self.now) }
    {
        Ok(Definition {
            place: self.place,
            name: String::from_str(alloc, self.name.as_str())?,
            parameters: copies(alloc, &self.parameters)?,
            right: self.right.copy()?,
        })
    }

    /// Whether the two definitions are the same, their places included.
    pub fn same(&self, other: &Definition) -> bool
        ensures { IsTrue result ↔ (self.now ≡ other.now) }
    {
        self.place == other.place
            && self.name.as_str() == other.name.as_str()
            && same_variables(&self.parameters, &other.parameters)
            && self.right.same(&other.right)
    }
}

// The same variables.
fn copies(alloc: Global, variables: &[PreVariable]) -> Result<Vec<PreVariable>, AllocError>
    ensures { IfOk result (λ copied. copied.items ≡ variables.now) }
{
    let mut copied = Vec::with_capacity(alloc, variables.len())?;
    for variable in variables {
        copied.push(variable.copy(alloc)?)?;
    }
    Ok(copied)
}

// Whether the variables are the same, one by one.
fn same_variables(variables: &[PreVariable], others: &[PreVariable]) -> bool
    ensures { IsTrue result ↔ (variables.now ≡ others.now) }
{
    if variables.len() != others.len() {
        return false;
    }
    for (i, variable) in variables.iter().enumerate() {
        if !variable.same(&others[i]) {
            return false;
        }
    }
    true
}
