//! The basis of what a command resolves.
ghost use Rattle.std.specs.Prelude.{◌≡◌, IfOk, [], ◌∷◌};
ghost use Rattle.hol_terms.specs.Nameless.{nameless};
ghost use Rattle.hol_kernel.specs.Items.{no_items};
ghost use Rattle.hol_resolve.specs.ReadingView.{quoted_value, list_value};
ghost use Rattle.hol_resolve.specs.Readings.{ATerm, AType};
ghost use Rattle.hol_exec.specs.Resolved.{with_value, resolved_basis};
ghost use Rattle.hol_exec.specs.Valid.{AreInTheory};

use crate::reads::Reads;
use crate::resolving::occurring::occurs_in;
use hol_kernel::Basis;
use hol_resolve::Quoted;
use hol_stack::joined;
use hol_terms::Term;
use hol_theory::{Key, Value, ValueNode};
use hol_types::Ty;
use std::alloc::{AllocError, Global};

/// The union of the bases of all that is resolved: of the theorems that are cited, of the expressions that are called, and of the constants and types in the readings.
pub(crate) fn resolved_basis(
    alloc: Global,
    reads: &Reads,
    readings: &[(usize, Quoted)],
) -> Result<Basis, AllocError>
    ensures { IfOk result (λ basis. basis ≡ resolved_basis reads.now.cited (list_value readings.now)) }
{
    basis_of(alloc, reads.cited(), readings)
}

/// The same where the one quotation of a command, with its place, reads as a term.
pub(crate) fn term_basis(
    alloc: Global,
    reads: &Reads,
    place: usize,
    term: &Term,
) -> Result<Basis, AllocError>
    ensures { IfOk result (λ basis. basis ≡ resolved_basis reads.now.cited ((place, ATerm (nameless [] term.now)) ∷ [])) }
{
    let readings = of_quotation(alloc, place, Quoted::Term(term.copy()?))?;
    resolved_basis(alloc, reads, &readings)
}

/// The same where it reads as a type.
pub(crate) fn type_basis(
    alloc: Global,
    reads: &Reads,
    place: usize,
    ty: &Ty,
) -> Result<Basis, AllocError>
    ensures { IfOk result (λ basis. basis ≡ resolved_basis reads.now.cited ((place, AType ty.now) ∷ [])) }
{
    let readings = of_quotation(alloc, place, Quoted::Type(ty.copy()?))?;
    resolved_basis(alloc, reads, &readings)
}

// What the one quotation of a command reads as, with its place.
fn of_quotation(
    alloc: Global,
    place: usize,
    quoted: Quoted,
) -> Result<Vec<(usize, Quoted)>, AllocError>
    ensures { IfOk result (λ readings. list_value readings.items ≡ (place, quoted_value quoted) ∷ []) }
{
    let mut readings = Vec::new(alloc);
    readings.push((place, quoted))?;
    Ok(readings)
}

/// The union of the bases of all that is resolved, of what is cited in some theory. Bases are joined by halves: an item is gone by as often as their number can be halved.
#[tactic(auto, using(crate::proofs::CitedBases::of_none))]
pub(crate) fn basis_of(
    alloc: Global,
    cited: &[(Key, Option<Value>)],
    readings: &[(usize, Quoted)],
) -> Result<Basis, AllocError>
    requires { AreInTheory cited.now }
    ensures { IfOk result (λ basis. basis ≡ resolved_basis cited.now (list_value readings.now)) }
{
    match cited {
        [] => Basis::empty(alloc),
        [value] => basis_at(alloc, value, readings),
        _ => {
            let (front, back) = cited.split_at(cited.len() / 2);
            let first = basis_of(alloc, front, readings)?;
            let second = basis_of(alloc, back, readings)?;
            joined(alloc, &first, &second)
        }
    }
}

// The basis of what stands under a key that is cited, if it is resolved.
fn basis_at(
    alloc: Global,
    value: &(Key, Option<Value>),
    readings: &[(usize, Quoted)],
) -> Result<Basis, AllocError>
    ensures { IfOk result (λ basis. basis ≡ with_value (list_value readings.now) no_items value.now.0 value.now.1) }
{
    let Some(entry) = &value.1 else {
        return Basis::empty(alloc);
    };
    match entry.node() {
        ValueNode::Type { basis, .. } => basis.copy(),
        ValueNode::Constant { basis, .. } => {
            if !occurs_in(value.0.name(), readings) {
                return Basis::empty(alloc);
            }
            basis.copy()
        }
        ValueNode::Theorem(theorem) => theorem.basis().copy(),
        ValueNode::Tac { basis, .. } => basis.copy(),
    }
}
