//! What a term as it is written reads as.
ghost use Rattle.std.specs.Prelude.{◌≡◌, IfOk, []};
ghost use Rattle.hol_terms.specs.Nameless.{nameless, nameless_type};
ghost use Rattle.hol_formulas.specs.Equation.{bool_type};
ghost use Rattle.hol_kernel.specs.Typing.{is_type_at};
ghost use Rattle.hol_exec.specs.Signature.{signature_of};
ghost use Rattle.hol_resolve.specs.Reading.{IsTermReadAs};
ghost use Rattle.hol_resolve.specs.ReadingView.{reading_value};

use crate::reading::signature::signature_of;
use crate::reads::Reads;
use crate::running::Setup;
use hol_formulas::is_bool;
use hol_notation_terms::PreTerm;
use hol_resolve::{Reading, term_reading};
use hol_terms::Term;
use std::alloc::{AllocError, Global};

/// What the term reads as, over the prelude and what the command cites.
pub(crate) fn read_cited(
    alloc: Global,
    setup: &Setup,
    written: &PreTerm,
    reads: &Reads,
) -> Result<Reading, AllocError>
    ensures { IfOk result (λ reading. IsTermReadAs (signature_of reads.now.cited) written.now (reading_value reading)) }
{
    let signature = signature_of(alloc, setup, reads.cited())?;
    term_reading(alloc, written, &signature)
}

/// Whether the term is of type `bool`.
#[tactic(auto, using(hol_terms::proofs::Typing::type_outside))]
pub(crate) fn is_statement(term: &Term) -> bool
    ensures { result ≡ is_type_at (nameless_type [] (nameless [] term.now)) bool_type }
{
    is_bool(term.type_of())
}
