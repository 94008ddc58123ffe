//! Reasons by the rules that take connectives and quantifiers off, applied to theorems.
ghost use Rattle.std.specs.Prelude.{◌≡◌, IsSome, [], OnOk};
ghost use Rattle.hol_terms.specs.Nameless.{nameless};
ghost use Rattle.hol_derived.specs.Rules.{conjunct1_of, conjunct2_of, disj_cases_of, spec_of, choose_of};
ghost use Rattle.hol_just.specs.Inference.{from_one, from_two, from_three, inferred};
ghost use Rattle.hol_just.specs.Over.{Infers};

use crate::cursor::Cursor;
use hol_derived::applied;
use hol_kernel::Thm;
use hol_terms::Term;
use std::alloc::{AllocError, Global};

/// CONJUNCT1 of the theorem after the place.
pub(crate) fn left_conjunct(alloc: Global, thms: &mut Cursor) -> Result<(), AllocError>
    requires { IsSome (inferred (from_one conjunct1_of) thms.old.after) }
    ensures { OnOk result (Infers (from_one conjunct1_of) thms.old thms.new) }
{
    let Some(both) = thms.take() else {
        unreachable!()
    };
    let made = applied::conjunct1(&both);
    drop(both);
    let thm = made?;
    thms.put(thm)
}

/// CONJUNCT2 of the theorem after the place.
pub(crate) fn right_conjunct(alloc: Global, thms: &mut Cursor) -> Result<(), AllocError>
    requires { IsSome (inferred (from_one conjunct2_of) thms.old.after) }
    ensures { OnOk result (Infers (from_one conjunct2_of) thms.old thms.new) }
{
    let Some(both) = thms.take() else {
        unreachable!()
    };
    let made = applied::conjunct2(&both);
    drop(both);
    let thm = made?;
    thms.put(thm)
}

/// SPEC of the theorem after the place.
pub(crate) fn specialization(alloc: Global, t: &Term, thms: &mut Cursor) -> Result<(), AllocError>
    requires { IsSome (inferred (from_one (spec_of thms.old.basis (nameless [] t.now))) thms.old.after) }
    ensures { OnOk result (Infers (from_one (spec_of thms.old.basis (nameless [] t.now))) thms.old thms.new) }
{
    let Some(each) = thms.take() else {
        unreachable!()
    };
    let made = applied::spec(alloc, t, &each);
    drop(each);
    let thm = made?;
    thms.put(thm)
}

/// CHOOSE of the two theorems after the place.
pub(crate) fn choice(alloc: Global, v: &Term, thms: &mut Cursor) -> Result<(), AllocError>
    requires { IsSome (inferred (from_two (choose_of v.now)) thms.old.after) }
    ensures { OnOk result (Infers (from_two (choose_of v.now)) thms.old thms.new) }
{
    let Some(existence) = thms.take() else {
        unreachable!()
    };
    choice_with(alloc, v, existence, thms)
}

// CHOOSE of the theorem and the one after the place.
fn choice_with(alloc: Global, v: &Term, existence: Thm, thms: &mut Cursor) -> Result<(), AllocError>
    requires over { existence.basis ≡ thms.old.basis }
    requires gives { IsSome (inferred (from_one (choose_of v.now existence.sequent)) thms.old.after) }
    ensures { OnOk result (Infers (from_one (choose_of v.now existence.sequent)) thms.old thms.new) }
{
    let Some(chosen) = thms.take() else {
        unreachable!()
    };
    let made = applied::choose(alloc, v, &existence, &chosen);
    drop(existence);
    drop(chosen);
    let thm = made?;
    thms.put(thm)
}

/// DISJ_CASES of the three theorems after the place.
pub(crate) fn cases(alloc: Global, thms: &mut Cursor) -> Result<(), AllocError>
    requires { IsSome (inferred (from_three disj_cases_of) thms.old.after) }
    ensures { OnOk result (Infers (from_three disj_cases_of) thms.old thms.new) }
{
    let Some(either) = thms.take() else {
        unreachable!()
    };
    cases_with(alloc, either, thms)
}

// DISJ_CASES of the theorem and the two after the place.
fn cases_with(alloc: Global, either: Thm, thms: &mut Cursor) -> Result<(), AllocError>
    requires over { either.basis ≡ thms.old.basis }
    requires gives { IsSome (inferred (from_two (disj_cases_of either.sequent)) thms.old.after) }
    ensures { OnOk result (Infers (from_two (disj_cases_of either.sequent)) thms.old thms.new) }
{
    let Some(left) = thms.take() else {
        unreachable!()
    };
    cases_of(alloc, either, left, thms)
}

// DISJ_CASES of the two theorems and the one after the place.
fn cases_of(alloc: Global, either: Thm, left: Thm, thms: &mut Cursor) -> Result<(), AllocError>
    requires over { either.basis ≡ thms.old.basis }
    requires also { left.basis ≡ thms.old.basis }
    requires gives { IsSome (inferred (from_one (disj_cases_of either.sequent left.sequent)) thms.old.after) }
    ensures { OnOk result (Infers (from_one (disj_cases_of either.sequent left.sequent)) thms.old thms.new) }
{
    let Some(right) = thms.take() else {
        unreachable!()
    };
    let made = applied::disj_cases(alloc, &either, &left, &right);
    drop(either);
    drop(left);
    drop(right);
    let thm = made?;
    thms.put(thm)
}
