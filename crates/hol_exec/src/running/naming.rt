//! `deftac`: an expression of functions on goals gets a name.
ghost use Rattle.std.specs.Prelude.{◌≡◌, true, IfOk, option_copied};
ghost use Rattle.hol_combine.specs.Suits.{suits_expr};
ghost use Rattle.hol_resolve.specs.ReadingView.{readings_value};
ghost use Rattle.hol_exec.specs.Expr.{Resolved};
ghost use Rattle.hol_exec.specs.Naming.{taken_tac, names_expr, names_resolved, IsNaming};
ghost use Rattle.hol_exec.specs.SetupView.{setup_value};

use crate::reads::Reads;
use crate::reports::RefusalKind;
use crate::resolving::{Resolution, own_bases, resolve};
use crate::running::outcome::Outcome;
use crate::running::refused::refused;
use crate::running::setup::Setup;
use hol_combine::Expr;
use hol_kernel::Basis;
use hol_notation_tactics::TacExpr;
use hol_resolve::Readings;
use hol_theory::{Key, Kind, new_tac};
use std::alloc::{AllocError, Global};

// The most nodes that an expression may have.
const MOST_NODES: u32 = 20_000;

/// `deftac`: in a proof; then what resolving refuses, a name that is taken among it; then an expression that is too large.
pub(crate) fn name_tactic(
    alloc: Global,
    setup: &Setup,
    name: &str,
    tactic: &TacExpr,
    reads: &Reads,
) -> Result<Outcome, AllocError>
    ensures { IfOk result (λ outcome. IsNaming reads.now.in_proof (setup_value setup.now) name.now tactic.now reads.now outcome) }
{
    if reads.in_proof() {
        return Ok(refused(alloc, RefusalKind::InProof));
    }
    let taken = taken_tac(alloc, setup, name, reads)?;
    match resolve(alloc, setup, Some(name), taken.as_ref(), tactic, reads)? {
        Resolution::Resolved(expr, basis, readings) => {
            name_resolved(alloc, setup, name, tactic, reads, &readings, expr, basis)
        }
        Resolution::Unresolved(kind, arg) => Ok(Outcome::refuses(kind, arg)),
    }
}

// The key, where the name is that of a registered function, or an entry stands under it.
fn taken_tac(
    alloc: Global,
    setup: &Setup,
    name: &str,
    reads: &Reads,
) -> Result<Option<Key>, AllocError>
    ensures { IfOk result (λ taken. taken ≡ taken_tac (setup_value setup.now) name.now reads.now) }
{
    if setup.find(name).is_some() {
        return Ok(Some(Key::new(alloc, Kind::Tac, name)?));
    }
    match reads.first_taken() {
        Some(key) => Ok(Some(key.copy()?)),
        None => Ok(None),
    }
}

// A resolved expression: too large; then its entry.
fn name_resolved(
    alloc: Global,
    setup: &Setup,
    name: &str,
    tactic: &TacExpr,
    reads: &Reads,
    readings: &Readings,
    expr: Expr,
    basis: Basis,
) -> Result<Outcome, AllocError>
    requires { suits_expr expr basis ≡ true }
    ensures { IfOk result (λ outcome. outcome ≡ names_resolved (setup_value setup.now) name.now tactic.now reads.now.cited (Resolved expr basis (readings_value readings.now))) }
{
    if expr.size() > MOST_NODES {
        return Ok(refused(alloc, RefusalKind::TooLarge));
    }
    let bases = own_bases(alloc, setup, tactic, reads, readings)?;
    let mut entries = Vec::new(alloc);
    entries.push(new_tac(alloc, name, expr, bases, basis)?)?;
    Ok(Outcome::makes(entries))
}
