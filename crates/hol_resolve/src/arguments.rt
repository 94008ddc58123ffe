//! The arguments of functions on goals, from what is written.
ghost use Rattle.std.specs.Prelude.{◌≡◌, [], IfOk, IsTrue};
ghost use Rattle.hol_goal.specs.Arguments.{Pair, TermAndTheorem};
ghost use Rattle.hol_goal.specs.ArgumentsView.{args_value};
ghost use Rattle.hol_just.specs.Answering.{suits};
ghost use Rattle.hol_terms.specs.Nameless.{nameless};
ghost use Rattle.hol_resolve.specs.Over.{AreOver, AreWithin};
ghost use Rattle.hol_resolve.specs.ReadingView.{readings_value};
ghost use Rattle.hol_resolve.specs.Forms.{arguments_given};
ghost use Rattle.hol_resolve.specs.FormsView.{written_value};
ghost use Rattle.hol_resolve.specs.Forward.{theorem_written};
ghost use Rattle.hol_resolve.specs.Steps.{placed};
ghost use Rattle.hol_resolve.specs.Written.{result_map, result_both, term_given, theorem_given, theorems_given};

use crate::readings::Readings;
use crate::refusal::Refusal;
use crate::theorems::theorem_written;
use crate::written::WrittenArgs;
use hol_goal::TacArgs;
use hol_kernel::{Basis, Given, Thm};
use hol_notation_tactics::ThmExpr;
use hol_notation_terms::Quotation;
use hol_terms::Term;
use hol_types::Name;
use std::alloc::{AllocError, Global};

/// What the arguments come to, over a basis that contains those of the theorems that are cited by their names, and over which the readings stand.
pub fn arguments_given(
    alloc: Global,
    written: WrittenArgs<'_>,
    cited: &[(Name, Thm)],
    readings: &Readings,
    basis: &Basis,
) -> Result<Result<TacArgs, Refusal>, AllocError>
    requires over { AreOver basis.now (readings_value readings.now) }
    requires within { AreWithin basis.now cited.now }
    ensures value { IfOk result (λ r. result_map args_value r ≡ arguments_given basis.now cited.now (readings_value readings.now) (written_value written.entry)) }
    ensures suits { IfOk result (λ r. IfOk r (λ args. IsTrue (suits (args_value args) basis.now))) }
{
    of_form(alloc, written, cited, readings, basis)
}

// They come to these arguments, or are refused.
type Arguments = Result<TacArgs, Refusal>;

fn of_form(
    alloc: Global,
    written: WrittenArgs<'_>,
    cited: &[(Name, Thm)],
    readings: &Readings,
    basis: &Basis,
) -> Result<Arguments, AllocError>
    requires over { AreOver basis.now (readings_value readings.now) }
    requires within { AreWithin basis.now cited.now }
    ensures { IfOk result (λ r. result_map args_value r ≡ arguments_given basis.now cited.now (readings_value readings.now) (written_value written.entry)) }
{
    match written {
        WrittenArgs::Nothing => Ok(Ok(TacArgs::Nothing)),
        WrittenArgs::Term(term) => match term_given(term, readings)? {
            Ok(term) => Ok(Ok(TacArgs::Term(term))),
            Err(refusal) => Ok(Err(refusal)),
        },
        WrittenArgs::Pair(first, second) => pair_given(first, second, readings),
        WrittenArgs::Theorem(theorem) => {
            match theorem_given(alloc, theorem, cited, readings, basis)? {
                Ok(th) => Ok(Ok(TacArgs::Theorem(th))),
                Err(refusal) => Ok(Err(refusal)),
            }
        }
        WrittenArgs::TermAndTheorem(term, theorem) => {
            with_theorem(alloc, term, theorem, cited, readings, basis)
        }
        WrittenArgs::Theorems(theorems) => {
            match theorems_given(alloc, theorems, cited, readings, basis)? {
                Ok(ths) => Ok(Ok(TacArgs::Theorems(ths))),
                Err(refusal) => Ok(Err(refusal)),
            }
        }
    }
}

fn pair_given(
    first: &Quotation,
    second: &Quotation,
    readings: &Readings,
) -> Result<Arguments, AllocError>
    ensures { IfOk result (λ r. result_map args_value r ≡ result_both Pair (term_given (readings_value readings.now) first.now) (term_given (readings_value readings.now) second.now)) }
{
    let first = match term_given(first, readings)? {
        Ok(term) => term,
        Err(refusal) => return Ok(Err(refusal)),
    };
    match term_given(second, readings)? {
        Ok(second) => Ok(Ok(TacArgs::Pair(first, second))),
        Err(refusal) => Ok(Err(refusal)),
    }
}

fn with_theorem(
    alloc: Global,
    term: &Quotation,
    theorem: &ThmExpr,
    cited: &[(Name, Thm)],
    readings: &Readings,
    basis: &Basis,
) -> Result<Arguments, AllocError>
    requires over { AreOver basis.now (readings_value readings.now) }
    requires within { AreWithin basis.now cited.now }
    ensures { IfOk result (λ r. result_map args_value r ≡ result_both TermAndTheorem (term_given (readings_value readings.now) term.now) (theorem_given basis.now cited.now (readings_value readings.now) theorem.now)) }
{
    let term = match term_given(term, readings)? {
        Ok(term) => term,
        Err(refusal) => return Ok(Err(refusal)),
    };
    match theorem_given(alloc, theorem, cited, readings, basis)? {
        Ok(th) => Ok(Ok(TacArgs::TermAndTheorem(term, th))),
        Err(refusal) => Ok(Err(refusal)),
    }
}

// The term that a quotation reads as.
fn term_given(term: &Quotation, readings: &Readings) -> Result<Result<Term, Refusal>, AllocError>
    ensures { IfOk result (λ r. result_map (nameless []) r ≡ term_given (readings_value readings.now) term.now) }
{
    match readings.term_at(term.place) {
        Some(term) => Ok(Ok(term.copy()?)),
        None => Ok(Err(Refusal::WrongArguments)),
    }
}

// The theorem that is written, as what is given.
fn theorem_given(
    alloc: Global,
    theorem: &ThmExpr,
    cited: &[(Name, Thm)],
    readings: &Readings,
    basis: &Basis,
) -> Result<Result<Given, Refusal>, AllocError>
    requires over { AreOver basis.now (readings_value readings.now) }
    requires within { AreWithin basis.now cited.now }
    ensures { IfOk result (λ r. r ≡ theorem_given basis.now cited.now (readings_value readings.now) theorem.now) }
{
    match theorem_written(alloc, theorem, cited, readings, basis)? {
        Ok(th) => Ok(Ok(Given::theorem(&th)?)),
        Err(refusal) => Ok(Err(refusal)),
    }
}

// The theorems that are written, each after those before it.
fn theorems_given(
    alloc: Global,
    theorems: &[ThmExpr],
    cited: &[(Name, Thm)],
    readings: &Readings,
    basis: &Basis,
) -> Result<Result<Vec<Given>, Refusal>, AllocError>
    requires over { AreOver basis.now (readings_value readings.now) }
    requires within { AreWithin basis.now cited.now }
    ensures { IfOk result (λ r. result_map (λ ths. ths.items) r ≡ theorems_given basis.now cited.now (readings_value readings.now) theorems.now) }
{
    let mut given = Vec::with_capacity(alloc, theorems.len())?;
    for theorem in theorems {
        match theorem_given(alloc, theorem, cited, readings, basis)? {
            Ok(th) => given.push(th)?,
            Err(refusal) => return Ok(Err(refusal)),
        }
    }
    Ok(Ok(given))
}
