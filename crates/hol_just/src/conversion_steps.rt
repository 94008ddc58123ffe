//! Reasons by conversions of terms, and that of `T`, applied to theorems.
ghost use Rattle.std.specs.Prelude.{◌≡◌, IfOk, IsSome, Some, OnOk};
ghost use Rattle.hol_kernel.specs.Theorem.{over};
ghost use Rattle.hol_just.specs.Inference.{from_none, from_one, inferred};
ghost use Rattle.hol_just.specs.Reasons.{true_sequent, converted_back};
ghost use Rattle.hol_just.specs.Over.{Infers};

use crate::cursor::Cursor;
use crate::refusals::{made_in_equal, made_in_kernel};
use hol_conv::Trace;
use hol_derived::applied;
use hol_equal::sym;
use hol_kernel::Thm;
use hol_replay::replay;
use std::alloc::{AllocError, Global};

/// TRUTH.
pub(crate) fn true_formula(alloc: Global, thms: &mut Cursor) -> Result<(), AllocError>
    ensures { OnOk result (Infers (from_none true_sequent) thms.old thms.new) }
{
    let thm = applied::truth(alloc, thms.basis())?;
    thms.put(thm)
}

/// EQ_MP of the theorem after the place, by SYM of the equation of the trace.
pub(crate) fn conversion(alloc: Global, trace: &Trace, thms: &mut Cursor) -> Result<(), AllocError>
    requires { IsSome (inferred (from_one (converted_back thms.old.basis trace.now)) thms.old.after) }
    ensures { OnOk result (Infers (from_one (converted_back thms.old.basis trace.now)) thms.old thms.new) }
{
    let Some(converted) = thms.take() else {
        unreachable!()
    };
    let made = converted_back(alloc, trace, &converted);
    drop(converted);
    let thm = made?;
    thms.put(thm)
}

// The term that was rewritten, from what it became.
fn converted_back(alloc: Global, trace: &Trace, converted: &Thm) -> Result<Thm, AllocError>
    requires { IsSome (over converted.now.basis (converted_back converted.now.basis trace.now converted.now.sequent)) }
    ensures { IfOk result (λ th. over converted.now.basis (converted_back converted.now.basis trace.now converted.now.sequent) ≡ Some th) }
{
    let equation = replay(alloc, converted.basis(), trace)?;
    let turned = made_in_equal(sym(alloc, &equation));
    drop(equation);
    let back = turned?;
    let made = made_in_kernel(Thm::eq_mp(alloc, &back, converted));
    drop(back);
    made
}
