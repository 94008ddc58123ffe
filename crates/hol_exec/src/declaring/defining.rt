//! Definitions as they are written.
ghost use Rattle.std.specs.Prelude.{◌≡◌, [], IfOk, not};
ghost use Rattle.std.specs.List.{find};
ghost use Rattle.hol_types.specs.Names.{is_among};
ghost use Rattle.hol_terms.specs.Nameless.{nameless};
ghost use Rattle.hol_resolve.specs.SignatureView.{signature_value};
ghost use Rattle.hol_resolve.specs.ReadingView.{reading_value};
ghost use Rattle.hol_exec.specs.Signature.{signature_of};
ghost use Rattle.hol_exec.specs.Defining.{IsDefinitionReadAs, first_free, first_unreflected};
ghost use Rattle.hol_exec.specs.Valid.{earlier};
ghost use Rattle.hol_equal.specs.Applied.{rand};

use crate::reading::signature_of;
use crate::reads::Reads;
use crate::running::Setup;
use hol_infer::{ReadingError, elaborate_definition};
use hol_notation_terms::Definition;
use hol_resolve::{Reading, Signature};
use hol_subst::term_tyvars;
use hol_terms::{Term, TermNode};
use hol_types::{Name, is_among};
use std::alloc::{AllocError, Global};
use std::cmp::Ordering;

/// What the definition reads as, over the prelude and what the command cites.
pub(crate) fn read_definition(
    alloc: Global,
    setup: &Setup,
    written: &Definition,
    reads: &Reads,
) -> Result<Reading, AllocError>
    ensures { IfOk result (λ reading. IsDefinitionReadAs (signature_of reads.now.cited) written.now (reading_value reading)) }
{
    let signature = signature_of(alloc, setup, reads.cited())?;
    definition_over(alloc, written, &signature)
}

// What the definition reads as, over what stands.
fn definition_over(
    alloc: Global,
    written: &Definition,
    over: &Signature,
) -> Result<Reading, AllocError>
    ensures { IfOk result (λ reading. IsDefinitionReadAs (signature_value over.now) written.now (reading_value reading)) }
{
    match elaborate_definition(alloc, written, &over.constants, &over.types) {
        Ok(term) => Ok(Reading::ReadsAs(term)),
        Err(ReadingError::Arity) => Ok(Reading::WrongArity),
        Err(ReadingError::Untypable) => Ok(Reading::NoTyping),
        Err(ReadingError::TooLarge) => Ok(Reading::LargeReading),
        Err(ReadingError::Memory) => Err(AllocError),
    }
}

/// The right side of an equation: what an application is to.
pub(crate) fn right_of(equation: &Term) -> &Term
    ensures { nameless [] result.now ≡ rand (nameless [] equation.now) }
{
    match equation.node() {
        TermNode::Comb(_, right) => right,
        TermNode::Var(_) | TermNode::Const(_, _) | TermNode::Abs(_, _) => equation,
    }
}

/// The first name, by bytes, of a variable that is free in the term.
#[tactic(auto, using(crate::proofs::Defined::earliest_first))]
pub(crate) fn first_free(alloc: Global, term: &Term) -> Result<Option<Name>, AllocError>
    ensures { IfOk result (λ name. name ≡ first_free (nameless [] term.now)) }
{
    let mut first = None;
    for variable in &term.frees(alloc)? {
        first = Some(earlier(first, variable.name())?);
    }
    Ok(first)
}

// The name, or the other one, if there is one and it comes first by bytes.
fn earlier(other: Option<Name>, name: &Name) -> Result<Name, AllocError>
    ensures { IfOk result (λ first. first ≡ earlier other name.now) }
{
    match other {
        Some(other) => match name.order(&other) {
            Ordering::Less => name.copy(),
            Ordering::Equal | Ordering::Greater => Ok(other),
        },
        None => name.copy(),
    }
}

/// The first type variable, by bytes, of the term that is none of its type.
#[tactic(auto, using(hol_terms::proofs::Typing::type_outside))]
pub(crate) fn first_unreflected(alloc: Global, term: &Term) -> Result<Option<Name>, AllocError>
    ensures { IfOk result (λ name. name ≡ first_unreflected (nameless [] term.now)) }
{
    let own = term.type_of().tyvars(alloc)?;
    let names = term_tyvars(alloc, term)?;
    first_outside(&own, &names)
}

// The first of the names that is none of the others.
fn first_outside(others: &[Name], names: &[Name]) -> Result<Option<Name>, AllocError>
    ensures { IfOk result (λ name. name ≡ find (λ n. not (is_among others.now n)) names.now) }
{
    for name in names {
        if !is_among(others, name) {
            return Ok(Some(name.copy()?));
        }
    }
    Ok(None)
}
