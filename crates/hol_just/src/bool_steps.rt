//! Reasons by the rules of connectives and quantifiers, applied to theorems.
ghost use Rattle.std.specs.Prelude.{◌≡◌, IsSome, [], OnOk};
ghost use Rattle.hol_terms.specs.Nameless.{nameless};
ghost use Rattle.hol_derived.specs.Rules.{disj2_of, disch_of, undisch_of, not_intro_of, mp_of, contr_of, gen_of, exists_of};
ghost use Rattle.hol_just.specs.Inference.{from_one, from_two, inferred};
ghost use Rattle.hol_just.specs.Reasons.{conjoined, left_disjunct};
ghost use Rattle.hol_just.specs.Over.{Infers};

use crate::cursor::Cursor;
use hol_derived::applied;
use hol_kernel::Thm;
use hol_terms::Term;
use std::alloc::{AllocError, Global};

/// CONJ of the two theorems after the place.
pub(crate) fn conjunction(alloc: Global, thms: &mut Cursor) -> Result<(), AllocError>
    requires { IsSome (inferred (from_two conjoined) thms.old.after) }
    ensures { OnOk result (Infers (from_two conjoined) thms.old thms.new) }
{
    let Some(left) = thms.take() else {
        unreachable!()
    };
    conjunction_with(alloc, left, thms)
}

// CONJ of the theorem and the one after the place.
fn conjunction_with(alloc: Global, left: Thm, thms: &mut Cursor) -> Result<(), AllocError>
    requires over { left.basis ≡ thms.old.basis }
    requires gives { IsSome (inferred (from_one (conjoined left.sequent)) thms.old.after) }
    ensures { OnOk result (Infers (from_one (conjoined left.sequent)) thms.old thms.new) }
{
    let Some(right) = thms.take() else {
        unreachable!()
    };
    let made = applied::conj(alloc, &left, &right);
    drop(left);
    drop(right);
    let thm = made?;
    thms.put(thm)
}

/// DISJ1 of the theorem after the place.
pub(crate) fn left_disjunct(alloc: Global, q: &Term, thms: &mut Cursor) -> Result<(), AllocError>
    requires { IsSome (inferred (from_one (left_disjunct thms.old.basis (nameless [] q.now))) thms.old.after) }
    ensures { OnOk result (Infers (from_one (left_disjunct thms.old.basis (nameless [] q.now))) thms.old thms.new) }
{
    let Some(left) = thms.take() else {
        unreachable!()
    };
    let made = applied::disj1(alloc, &left, q);
    drop(left);
    let thm = made?;
    thms.put(thm)
}

/// DISJ2 of the theorem after the place.
pub(crate) fn right_disjunct(alloc: Global, p: &Term, thms: &mut Cursor) -> Result<(), AllocError>
    requires { IsSome (inferred (from_one (disj2_of thms.old.basis (nameless [] p.now))) thms.old.after) }
    ensures { OnOk result (Infers (from_one (disj2_of thms.old.basis (nameless [] p.now))) thms.old thms.new) }
{
    let Some(right) = thms.take() else {
        unreachable!()
    };
    let made = applied::disj2(alloc, p, &right);
    drop(right);
    let thm = made?;
    thms.put(thm)
}

/// DISCH of the theorem after the place.
pub(crate) fn discharge(alloc: Global, p: &Term, thms: &mut Cursor) -> Result<(), AllocError>
    requires { IsSome (inferred (from_one (disch_of thms.old.basis (nameless [] p.now))) thms.old.after) }
    ensures { OnOk result (Infers (from_one (disch_of thms.old.basis (nameless [] p.now))) thms.old thms.new) }
{
    let Some(consequent) = thms.take() else {
        unreachable!()
    };
    let made = applied::disch(alloc, p, &consequent);
    drop(consequent);
    let thm = made?;
    thms.put(thm)
}

/// UNDISCH of the theorem after the place.
pub(crate) fn undischarge(alloc: Global, thms: &mut Cursor) -> Result<(), AllocError>
    requires { IsSome (inferred (from_one undisch_of) thms.old.after) }
    ensures { OnOk result (Infers (from_one undisch_of) thms.old thms.new) }
{
    let Some(implication) = thms.take() else {
        unreachable!()
    };
    let made = applied::undisch(alloc, &implication);
    drop(implication);
    let thm = made?;
    thms.put(thm)
}

/// NOT_INTRO of the theorem after the place.
pub(crate) fn negation(alloc: Global, thms: &mut Cursor) -> Result<(), AllocError>
    requires { IsSome (inferred (from_one not_intro_of) thms.old.after) }
    ensures { OnOk result (Infers (from_one not_intro_of) thms.old thms.new) }
{
    let Some(implication) = thms.take() else {
        unreachable!()
    };
    let made = applied::not_intro(alloc, &implication);
    drop(implication);
    let thm = made?;
    thms.put(thm)
}

/// MP of the two theorems after the place.
pub(crate) fn modus_ponens(alloc: Global, thms: &mut Cursor) -> Result<(), AllocError>
    requires { IsSome (inferred (from_two mp_of) thms.old.after) }
    ensures { OnOk result (Infers (from_two mp_of) thms.old thms.new) }
{
    let Some(implication) = thms.take() else {
        unreachable!()
    };
    modus_ponens_with(alloc, implication, thms)
}

// MP of the theorem and the one after the place.
fn modus_ponens_with(alloc: Global, implication: Thm, thms: &mut Cursor) -> Result<(), AllocError>
    requires over { implication.basis ≡ thms.old.basis }
    requires gives { IsSome (inferred (from_one (mp_of implication.sequent)) thms.old.after) }
    ensures { OnOk result (Infers (from_one (mp_of implication.sequent)) thms.old thms.new) }
{
    let Some(premise) = thms.take() else {
        unreachable!()
    };
    let made = applied::mp(alloc, &implication, &premise);
    drop(implication);
    drop(premise);
    let thm = made?;
    thms.put(thm)
}

/// CONTR of the theorem after the place.
pub(crate) fn contradiction(alloc: Global, p: &Term, thms: &mut Cursor) -> Result<(), AllocError>
    requires { IsSome (inferred (from_one (contr_of thms.old.basis (nameless [] p.now))) thms.old.after) }
    ensures { OnOk result (Infers (from_one (contr_of thms.old.basis (nameless [] p.now))) thms.old thms.new) }
{
    let Some(falsity) = thms.take() else {
        unreachable!()
    };
    let made = applied::contr(p, &falsity);
    drop(falsity);
    let thm = made?;
    thms.put(thm)
}

/// GEN of the theorem after the place.
pub(crate) fn generalization(alloc: Global, v: &Term, thms: &mut Cursor) -> Result<(), AllocError>
    requires { IsSome (inferred (from_one (gen_of thms.old.basis v.now)) thms.old.after) }
    ensures { OnOk result (Infers (from_one (gen_of thms.old.basis v.now)) thms.old thms.new) }
{
    let Some(property) = thms.take() else {
        unreachable!()
    };
    let made = applied::generalize(alloc, v, &property);
    drop(property);
    let thm = made?;
    thms.put(thm)
}

/// EXISTS of the theorem after the place.
pub(crate) fn existence(
    alloc: Global,
    e: &Term,
    t: &Term,
    thms: &mut Cursor,
) -> Result<(), AllocError>
    requires { IsSome (inferred (from_one (exists_of thms.old.basis (nameless [] e.now) (nameless [] t.now))) thms.old.after) }
    ensures { OnOk result (Infers (from_one (exists_of thms.old.basis (nameless [] e.now) (nameless [] t.now))) thms.old thms.new) }
{
    let Some(property) = thms.take() else {
        unreachable!()
    };
    let made = applied::exists(e, t, &property);
    drop(property);
    let thm = made?;
    thms.put(thm)
}
