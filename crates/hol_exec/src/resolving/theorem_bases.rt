//! What each theorem that is written in an expression rests on by itself.
ghost use Rattle.std.specs.Prelude.{◌≡◌, ◌++◌, IfOk, OnOk, map, nat_eq, option_copied};
ghost use Rattle.std.specs.List.{list_any};
ghost use Rattle.hol_notation_tactics.specs.Parts.{parts_of, calls_in};
ghost use Rattle.hol_resolve.specs.Quotations.{place_of};
ghost use Rattle.hol_resolve.specs.FormsView.{written_value};
ghost use Rattle.hol_resolve.specs.ReadingView.{list_value, readings_value};
ghost use Rattle.hol_exec.specs.Callee.{value_at, called};
ghost use Rattle.hol_exec.specs.OwnBases.{values_under, readings_of, own_basis, argument_bases, call_bases, own_bases};
ghost use Rattle.hol_exec.specs.SetupView.{setup_value};

use crate::reads::{Reads, add_parts};
use crate::resolving::basis::basis_of;
use crate::resolving::callee::{Callee, called};
use crate::running::Setup;
use hol_kernel::Basis;
use hol_notation_tactics::{Role, TacCall, TacExpr, ThmExpr, calls_in, parts_of, parts_of_theorem};
use hol_resolve::{AnyQuotation, Quoted, Readings, WrittenArgs, quotations_in};
use hol_theory::{Key, Value};
use std::alloc::{AllocError, Global};

/// What each theorem that is written in the expression rests on by itself, in text order; in the place of an expression that is called, what is kept with it.
pub(crate) fn own_bases(
    alloc: Global,
    setup: &Setup,
    tactic: &TacExpr,
    reads: &Reads,
    readings: &Readings,
) -> Result<Vec<Basis>, AllocError>
    ensures { IfOk result (λ bases. bases.items ≡ own_bases reads.now.cited (readings_value readings.now) (setup_value setup.now).table (calls_in (parts_of tactic.now))) }
{
    let calls = calls_in(alloc, &parts_of(alloc, tactic)?)?;
    let mut bases = Vec::new(alloc);
    for call in &calls {
        add_call(alloc, setup, &mut bases, call.0, &call.1, reads, readings)?;
    }
    Ok(bases)
}

// Adds those of a call.
fn add_call(
    alloc: Global,
    setup: &Setup,
    bases: &mut Vec<Basis>,
    role: Role,
    call: &TacCall,
    reads: &Reads,
    readings: &Readings,
) -> Result<(), AllocError>
    ensures { OnOk result (bases.new.items ≡ bases.old.items ++ call_bases reads.now.cited (readings_value readings.now) (called (setup_value setup.now).table role call.now reads.now.cited)) }
{
    let Some((callee, written)) = called(setup, role, call, reads) else {
        return Ok(());
    };
    match callee {
        Callee::Registered(_) => add_arguments(alloc, bases, written, reads, readings),
        Callee::Defined(_, own) => add_copies(bases, own),
    }
}

fn add_copies(bases: &mut Vec<Basis>, more: &[Basis]) -> Result<(), AllocError>
    ensures { OnOk result (bases.new.items ≡ bases.old.items ++ more.now) }
{
    for basis in more {
        bases.push(basis.copy()?)?;
    }
    Ok(())
}

// Adds one for each theorem among the arguments.
fn add_arguments(
    alloc: Global,
    bases: &mut Vec<Basis>,
    written: WrittenArgs<'_>,
    reads: &Reads,
    readings: &Readings,
) -> Result<(), AllocError>
    ensures { OnOk result (bases.new.items ≡ bases.old.items ++ argument_bases reads.now.cited (readings_value readings.now) (written_value written.entry)) }
{
    match written {
        WrittenArgs::Nothing | WrittenArgs::Term(_) | WrittenArgs::Pair(_, _) => Ok(()),
        WrittenArgs::Theorem(theorem) | WrittenArgs::TermAndTheorem(_, theorem) => {
            Ok(bases.push(own_basis(alloc, theorem, reads, readings)?)?)
        }
        WrittenArgs::Theorems(theorems) => add_theorems(alloc, bases, theorems, reads, readings),
    }
}

fn add_theorems(
    alloc: Global,
    bases: &mut Vec<Basis>,
    theorems: &[ThmExpr],
    reads: &Reads,
    readings: &Readings,
) -> Result<(), AllocError>
    ensures { OnOk result (bases.new.items ≡ bases.old.items ++ map (own_basis reads.now.cited (readings_value readings.now)) theorems.now) }
{
    for theorem in theorems {
        bases.push(own_basis(alloc, theorem, reads, readings)?)?;
    }
    Ok(())
}

// The basis of all that is resolved in a theorem, as if nothing else were written.
fn own_basis(
    alloc: Global,
    theorem: &ThmExpr,
    reads: &Reads,
    readings: &Readings,
) -> Result<Basis, AllocError>
    ensures { IfOk result (λ basis. basis ≡ own_basis reads.now.cited (readings_value readings.now) theorem.now) }
{
    let parts = parts_of_theorem(alloc, theorem)?;
    let mut keys = Vec::new(alloc);
    add_parts(alloc, &mut keys, &parts)?;
    let quotations = quotations_in(alloc, &parts)?;
    let values = values_under(alloc, reads.cited(), &keys)?;
    let own = readings_of(alloc, readings.list(), &quotations)?;
    basis_of(alloc, &values, &own)
}

// These keys, each with what stands under it where it is cited.
fn values_under(
    alloc: Global,
    cited: &[(Key, Option<Value>)],
    keys: &[Key],
) -> Result<Vec<(Key, Option<Value>)>, AllocError>
    ensures { IfOk result (λ values. values.items ≡ values_under cited.now keys.now) }
{
    let mut values = Vec::with_capacity(alloc, keys.len())?;
    for key in keys {
        values.push(value_under(cited, key)?)?;
    }
    Ok(values)
}

// The key with what stands under it where it is cited.
fn value_under(
    cited: &[(Key, Option<Value>)],
    key: &Key,
) -> Result<(Key, Option<Value>), AllocError>
    ensures { IfOk result (λ value. value ≡ (key.now, value_at key.now cited.now)) }
{
    let value = match value_at(cited, key) {
        Some(value) => Some(value.copy()?),
        None => None,
    };
    Ok((key.copy()?, value))
}

// What stands under the key where it is cited.
fn value_at<'a>(cited: &'a [(Key, Option<Value>)], key: &Key) -> Option<&'a Value>
    ensures { option_copied result ≡ value_at key.now cited.now }
{
    for value in cited {
        if *key == value.0 {
            return value.1.as_ref();
        }
    }
    None
}

// What these quotations read as.
fn readings_of(
    alloc: Global,
    readings: &[(usize, Quoted)],
    quotations: &[AnyQuotation],
) -> Result<Vec<(usize, Quoted)>, AllocError>
    ensures { IfOk result (λ own. list_value own.items ≡ readings_of (list_value readings.now) quotations.now) }
{
    let mut own = Vec::new(alloc);
    for reading in readings {
        if opens_any(quotations, reading.0) {
            own.push((reading.0, reading.1.copy()?))?;
        }
    }
    Ok(own)
}

// Whether one of the quotations opens at the place.
fn opens_any(quotations: &[AnyQuotation], place: usize) -> bool
    ensures { result ≡ list_any (λ q. nat_eq place (place_of q)) quotations.now }
{
    for quotation in quotations {
        if place == quotation.place() {
            return true;
        }
    }
    false
}
