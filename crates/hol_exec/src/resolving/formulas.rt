//! The quotations that SUBGOAL_THEN takes, which have to be of type `bool`.
ghost use Rattle.std.specs.Prelude.{◌≡◌, IfOk};
ghost use Rattle.hol_resolve.specs.Readings.{term_at};
ghost use Rattle.hol_resolve.specs.ReadingView.{readings_value};
ghost use Rattle.hol_exec.specs.Expr.{formulas_in, is_formula, first_not_bool};

use crate::reading::is_statement;
use hol_notation_tactics::Part;
use hol_notation_terms::Quotation;
use hol_resolve::Readings;
use std::alloc::{AllocError, Global};

/// The quotations that SUBGOAL_THEN takes, among the parts of an expression.
pub(crate) fn formulas_in(alloc: Global, parts: &[Part]) -> Result<Vec<Quotation>, AllocError>
    ensures { IfOk result (λ formulas. formulas.items ≡ formulas_in parts.now) }
{
    let mut formulas = Vec::new(alloc);
    for part in parts {
        match part {
            Part::Formula(formula) => formulas.push(formula.copy()?)?,
            Part::Term(_) | Part::Type(_) | Part::Theorem(_) | Part::Call(_, _) => {}
        }
    }
    Ok(formulas)
}

/// The place of the first of the quotations that isn't read as a term of type `bool`.
pub(crate) fn first_not_bool(readings: &Readings, formulas: &[Quotation]) -> Option<usize>
    ensures { result ≡ first_not_bool (readings_value readings.now) formulas.now }
{
    for formula in formulas {
        if !is_formula(readings, formula.place) {
            return Some(formula.place);
        }
    }
    None
}

// Whether the quotation at the place reads as a term of type `bool`.
fn is_formula(readings: &Readings, place: usize) -> bool
    ensures { result ≡ is_formula (term_at (readings_value readings.now) place) }
{
    match readings.term_at(place) {
        Some(term) => is_statement(term),
        None => false,
    }
}
