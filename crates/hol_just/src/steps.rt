//! Reasons applied to theorems.
ghost use Rattle.std.specs.Prelude.{◌≡◌, ◌++◌, IsSome, [], OnOk};
ghost use Rattle.hol_terms.specs.Nameless.{nameless};
ghost use Rattle.hol_kernel.specs.Given as premise;
ghost use Rattle.hol_kernel.specs.Rules.{refl_of, mk_comb_of};
ghost use Rattle.hol_just.specs.Inference.{from_none, from_one, from_two, inferred};
ghost use Rattle.hol_just.specs.Reasons.{premise_of, antisymmetric, inference, Fits};
ghost use Rattle.hol_just.specs.Over.{Infers};

use crate::bool_steps::{
    conjunction, contradiction, discharge, existence, generalization, left_disjunct, modus_ponens,
    negation, right_disjunct, undischarge,
};
use crate::conversion_steps::{conversion, true_formula};
use crate::cursor::Cursor;
use crate::elimination_steps::{cases, choice, left_conjunct, right_conjunct, specialization};
use crate::equal_steps::{cut, replacement, symmetry};
use crate::matching_steps::matching;
use crate::reason::Reason;
use crate::refusals::made_in_kernel;
use hol_kernel::{Given, Thm};
use hol_terms::Term;
use std::alloc::{AllocError, Global};

/// Applies a reason after the place.
pub(crate) fn infer(alloc: Global, reason: &Reason, thms: &mut Cursor) -> Result<(), AllocError>
    requires gives { IsSome (inferred (inference thms.old.basis reason.now) thms.old.after) }
    requires fits { Fits thms.old.basis reason.now }
    ensures { OnOk result (Infers (inference thms.old.basis reason.now) thms.old thms.new) }
{
    match reason {
        Reason::Reflexivity(t) => reflexivity(alloc, t, thms),
        Reason::Premise(given) => premise(alloc, given, thms),
        Reason::Combination => combination(alloc, thms),
        Reason::Antisymmetry => antisymmetry(alloc, thms),
        Reason::Conjunction => conjunction(alloc, thms),
        Reason::LeftDisjunct(q) => left_disjunct(alloc, q, thms),
        Reason::RightDisjunct(p) => right_disjunct(alloc, p, thms),
        Reason::Discharge(p) => discharge(alloc, p, thms),
        Reason::Undischarge => undischarge(alloc, thms),
        Reason::Negation => negation(alloc, thms),
        Reason::ModusPonens => modus_ponens(alloc, thms),
        Reason::Contradiction(p) => contradiction(alloc, p, thms),
        Reason::Generalization(v) => generalization(alloc, v, thms),
        Reason::Existence(e, t) => existence(alloc, e, t, thms),
        Reason::LeftConjunct => left_conjunct(alloc, thms),
        Reason::RightConjunct => right_conjunct(alloc, thms),
        Reason::Cases => cases(alloc, thms),
        Reason::Cut => cut(alloc, thms),
        Reason::Symmetry => symmetry(alloc, thms),
        Reason::Replacement(v, m) => replacement(alloc, v, m, thms),
        Reason::Specialization(t) => specialization(alloc, t, thms),
        Reason::Choice(v) => choice(alloc, v, thms),
        Reason::Truth => true_formula(alloc, thms),
        Reason::Conversion(trace) => conversion(alloc, trace, thms),
        Reason::Matching(given, formula, t) => matching(alloc, given, formula, t, thms),
    }
}

fn reflexivity(alloc: Global, t: &Term, thms: &mut Cursor) -> Result<(), AllocError>
    requires { IsSome (inferred (from_none (refl_of thms.old.basis (nameless [] t.now))) thms.old.after) }
    ensures { OnOk result (Infers (from_none (refl_of thms.old.basis (nameless [] t.now))) thms.old thms.new) }
{
    let thm = made_in_kernel(Thm::refl(alloc, thms.basis(), t))?;
    thms.put(thm)
}

fn premise(alloc: Global, given: &Given, thms: &mut Cursor) -> Result<(), AllocError>
    requires gives { IsSome (inferred (from_none (premise_of thms.old.basis given.now)) thms.old.after) }
    requires within { premise.IsOver given.now thms.old.basis }
    ensures { OnOk result (Infers (from_none (premise_of thms.old.basis given.now)) thms.old thms.new) }
{
    let thm = made_in_kernel(given.over(alloc, thms.basis()))?;
    thms.put(thm)
}

fn combination(alloc: Global, thms: &mut Cursor) -> Result<(), AllocError>
    requires { IsSome (inferred (from_two mk_comb_of) thms.old.after) }
    ensures { OnOk result (Infers (from_two mk_comb_of) thms.old thms.new) }
{
    let Some(functions) = thms.take() else {
        unreachable!()
    };
    combination_with(alloc, functions, thms)
}

// MK_COMB of the theorem and the one after the place.
fn combination_with(alloc: Global, functions: Thm, thms: &mut Cursor) -> Result<(), AllocError>
    requires over { functions.basis ≡ thms.old.basis }
    requires gives { IsSome (inferred (from_one (mk_comb_of functions.sequent)) thms.old.after) }
    ensures { OnOk result (Infers (from_one (mk_comb_of functions.sequent)) thms.old thms.new) }
{
    let Some(arguments) = thms.take() else {
        unreachable!()
    };
    let made = made_in_kernel(Thm::mk_comb(alloc, &functions, &arguments));
    drop(functions);
    drop(arguments);
    let thm = made?;
    thms.put(thm)
}

fn antisymmetry(alloc: Global, thms: &mut Cursor) -> Result<(), AllocError>
    requires { IsSome (inferred (from_two antisymmetric) thms.old.after) }
    ensures { OnOk result (Infers (from_two antisymmetric) thms.old thms.new) }
{
    let Some(there) = thms.take() else {
        unreachable!()
    };
    antisymmetry_with(alloc, there, thms)
}

// DEDUCT_ANTISYM_RULE of the one after the place and the theorem.
fn antisymmetry_with(alloc: Global, there: Thm, thms: &mut Cursor) -> Result<(), AllocError>
    requires over { there.basis ≡ thms.old.basis }
    requires gives { IsSome (inferred (from_one (antisymmetric there.sequent)) thms.old.after) }
    ensures { OnOk result (Infers (from_one (antisymmetric there.sequent)) thms.old thms.new) }
{
    let Some(back) = thms.take() else {
        unreachable!()
    };
    let made = Thm::deduct_antisym(alloc, &back, &there);
    drop(there);
    drop(back);
    let thm = made?;
    thms.put(thm)
}
