//! Expressions of functions on goals: what is written, resolved.
ghost use Rattle.std.specs.Prelude.{◌≡◌, IfOk, None, option_copied};
ghost use Rattle.hol_exec.specs.Resolved.{resolved_basis};
ghost use Rattle.hol_notation_tactics.specs.Parts.{parts_of};
ghost use Rattle.hol_resolve.specs.Over.{AreOver};
ghost use Rattle.hol_resolve.specs.ReadingView.{readings_value, readings_result};
ghost use Rattle.hol_resolve.specs.Readings.{AreRead};
ghost use Rattle.hol_exec.specs.Signature.{signature_of};
ghost use Rattle.hol_exec.specs.SetupView.{setup_value};
ghost use Rattle.hol_exec.specs.Expr.{formulas_in, first_not_bool, resolved_untaken, resolved_formulas, IsResolvedFitting, IsResolution};
ghost use Rattle.hol_exec.specs.ExprView.{resolution_value, IsUnresolved};
ghost use Rattle.hol_exec.specs.Valid.{IsRunnableIf};

use crate::reading::signature_of;
use crate::reads::Reads;
use crate::reports::RefusalKind;
use crate::resolving::basis::resolved_basis;
use crate::resolving::calls::first_unfit;
use crate::resolving::cited::cited_theorems;
use crate::resolving::expressions::{Context, refused_by, resolve_expr};
use crate::resolving::formulas::{first_not_bool, formulas_in};
use crate::resolving::unresolved::Unresolved;
use crate::running::Setup;
use hol_combine::Expr;
use hol_kernel::Basis;
use hol_notation_tactics::{Part, TacExpr, calls_in, parts_of};
use hol_resolve::{AnyQuotation, Readings, Refusal, Signature, quotations_in, read_quotations};
use hol_theory::{Key, Value};
use std::alloc::{AllocError, Global};

/// What resolving comes to.
#[derive(Drop)]
pub(crate) enum Resolution {
    /// An expression that can be run, with the basis of all that was resolved and what its quotations read as.
    Resolved(Expr, Basis, Readings),
    /// A refusal, and what it speaks of.
    Unresolved(RefusalKind, String),
}

/// Resolves what is written: unknown theorem; unknown TAC or wrong arguments, the name of the expression that the command itself names among them; what readings refuse; not
/// bool; then a key that is taken, if the command makes one; then what rules and arguments refuse.
#[tactic(auto, using(crate::proofs::Resolutions::unknown_theorem, crate::proofs::Resolutions::unknown_tac, crate::proofs::Resolutions::fitting))]
pub(crate) fn resolve(
    alloc: Global,
    setup: &Setup,
    own: Option<&str>,
    taken: Option<&Key>,
    tactic: &TacExpr,
    reads: &Reads,
) -> Result<Resolution, AllocError>
    ensures value { IfOk result (λ r. IsResolution (setup_value setup.now) (option_copied own.entry) (option_copied taken.entry) tactic.now reads.now.cited (resolution_value r)) }
    ensures runnable { IfOk result IsRunnableIf }
{
    if let Some(unknown) = reads.first_unknown() {
        let unknown = String::from_str(alloc, unknown)?;
        return Ok(Resolution::Unresolved(RefusalKind::UnknownTheorem, unknown));
    }
    let parts = parts_of(alloc, tactic)?;
    let calls = calls_in(alloc, &parts)?;
    if let Some(unfit) = first_unfit(setup, own, &calls, reads) {
        let unfit = String::from_str(alloc, unfit)?;
        return Ok(Resolution::Unresolved(RefusalKind::UnknownTac, unfit));
    }
    resolve_fitting(alloc, setup, taken, tactic, &parts, reads)
}

// Resolves what is written, where all theorems are known and all calls fit: its quotations are read first.
fn resolve_fitting(
    alloc: Global,
    setup: &Setup,
    taken: Option<&Key>,
    tactic: &TacExpr,
    parts: &[Part],
    reads: &Reads,
) -> Result<Resolution, AllocError>
    requires { parts.now ≡ parts_of tactic.now }
    ensures value { IfOk result (λ r. IsResolvedFitting (setup_value setup.now) (option_copied taken.entry) tactic.now reads.now.cited (resolution_value r)) }
    ensures runnable { IfOk result IsRunnableIf }
{
    let quotations = quotations_in(alloc, parts)?;
    match read_beside(alloc, setup, reads.cited(), &quotations)? {
        Ok(readings) => resolve_read(alloc, setup, taken, tactic, parts, reads, readings),
        Err(refusal) => unresolved(refused_by(alloc, "", refusal)?),
    }
}

// What the quotations read as over what stands where these entries are cited. Without quotations nothing of that is gone through.
fn read_beside(
    alloc: Global,
    setup: &Setup,
    cited: &[(Key, Option<Value>)],
    quotations: &[AnyQuotation],
) -> Result<Result<Readings, Refusal>, AllocError>
    ensures { IfOk result (λ read. AreRead (signature_of cited.now) quotations.now (readings_result read)) }
{
    if quotations.is_empty() {
        let nothing = Signature {
            constants: Vec::new(alloc),
            types: Vec::new(alloc),
        };
        return read_quotations(alloc, quotations, &nothing);
    }
    let signature = signature_of(alloc, setup, cited)?;
    read_quotations(alloc, quotations, &signature)
}

// Resolves what is written, whose quotations are read: not bool; then a key that is taken; then what rules and arguments refuse.
fn resolve_read(
    alloc: Global,
    setup: &Setup,
    taken: Option<&Key>,
    tactic: &TacExpr,
    parts: &[Part],
    reads: &Reads,
    readings: Readings,
) -> Result<Resolution, AllocError>
    requires parts { parts.now ≡ parts_of tactic.now }
    requires over { AreOver (resolved_basis reads.now.cited (readings_value readings)) (readings_value readings) }
    ensures value { IfOk result (λ r. resolution_value r ≡ resolved_formulas (setup_value setup.now) (option_copied taken.entry) tactic.now reads.now.cited (readings_value readings) (first_not_bool (readings_value readings) (formulas_in (parts_of tactic.now)))) }
    ensures runnable { IfOk result IsRunnableIf }
{
    let formulas = formulas_in(alloc, parts)?;
    match first_not_bool(&readings, &formulas) {
        Some(place) => Ok(Resolution::Unresolved(RefusalKind::NotBool, place.to_string(alloc)?)),
        None => resolve_untaken(alloc, setup, taken, tactic, reads, readings),
    }
}

// Resolves what is written, all of whose formulas are of type `bool`: a key that is taken; then what rules and arguments refuse.
fn resolve_untaken(
    alloc: Global,
    setup: &Setup,
    taken: Option<&Key>,
    tactic: &TacExpr,
    reads: &Reads,
    readings: Readings,
) -> Result<Resolution, AllocError>
    requires { AreOver (resolved_basis reads.now.cited (readings_value readings)) (readings_value readings) }
    ensures value { IfOk result (λ r. resolution_value r ≡ resolved_untaken (setup_value setup.now) (option_copied taken.entry) tactic.now reads.now.cited (readings_value readings)) }
    ensures runnable { IfOk result IsRunnableIf }
{
    match taken {
        Some(key) => Ok(Resolution::Unresolved(RefusalKind::NameTaken, key.text(alloc)?)),
        None => resolve_all(alloc, setup, tactic, reads, readings),
    }
}

// Resolves what is written, past all that names and readings refuse.
fn resolve_all(
    alloc: Global,
    setup: &Setup,
    tactic: &TacExpr,
    reads: &Reads,
    readings: Readings,
) -> Result<Resolution, AllocError>
    requires { AreOver (resolved_basis reads.now.cited (readings_value readings)) (readings_value readings) }
    ensures value { IfOk result (λ r. resolution_value r ≡ resolved_untaken (setup_value setup.now) None tactic.now reads.now.cited (readings_value readings)) }
    ensures runnable { IfOk result IsRunnableIf }
{
    let theorems = cited_theorems(alloc, setup, reads.cited())?;
    let basis = resolved_basis(alloc, reads, readings.list())?;
    let context = Context {
        reads,
        theorems: &theorems,
        readings: &readings,
        basis: &basis,
    };
    match resolve_expr(alloc, setup, &context, tactic) {
        Ok(expr) => Ok(Resolution::Resolved(expr, basis, readings)),
        Err(fault) => unresolved(fault),
    }
}

// A refusal, unless memory is short.
fn unresolved(fault: Unresolved) -> Result<Resolution, AllocError>
    ensures value { IsUnresolved fault result }
    ensures runnable { IfOk result IsRunnableIf }
{
    match fault {
        Unresolved::Refused(kind, arg) => Ok(Resolution::Unresolved(kind, arg)),
        Unresolved::Memory => Err(AllocError),
    }
}
