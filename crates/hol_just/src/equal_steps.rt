//! Reasons by the rules of equations and by PROVE_HYP, applied to theorems.
ghost use Rattle.std.specs.Prelude.{◌≡◌, IsSome, [], OnOk};
ghost use Rattle.hol_terms.specs.Nameless.{nameless};
ghost use Rattle.hol_equal.specs.Rules.{sym_of};
ghost use Rattle.hol_just.specs.Inference.{from_one, from_two, inferred};
ghost use Rattle.hol_just.specs.Reasons.{cut, replaced};
ghost use Rattle.hol_just.specs.Over.{Infers};

use crate::cursor::Cursor;
use crate::refusals::made_in_equal;
use hol_equal::{prove_hyp, subst, sym};
use hol_kernel::Thm;
use hol_terms::Term;
use std::alloc::{AllocError, Global};

/// SYM of the theorem after the place.
pub(crate) fn symmetry(alloc: Global, thms: &mut Cursor) -> Result<(), AllocError>
    requires { IsSome (inferred (from_one sym_of) thms.old.after) }
    ensures { OnOk result (Infers (from_one sym_of) thms.old thms.new) }
{
    let Some(equation) = thms.take() else {
        unreachable!()
    };
    let made = made_in_equal(sym(alloc, &equation));
    drop(equation);
    let thm = made?;
    thms.put(thm)
}

/// SUBST of the two theorems after the place.
pub(crate) fn replacement(
    alloc: Global,
    v: &Term,
    m: &Term,
    thms: &mut Cursor,
) -> Result<(), AllocError>
    requires { IsSome (inferred (from_two (replaced thms.old.basis v.now (nameless [] m.now))) thms.old.after) }
    ensures { OnOk result (Infers (from_two (replaced thms.old.basis v.now (nameless [] m.now))) thms.old thms.new) }
{
    let Some(equation) = thms.take() else {
        unreachable!()
    };
    replacement_with(alloc, v, m, equation, thms)
}

// SUBST of the theorem and the one after the place.
fn replacement_with(
    alloc: Global,
    v: &Term,
    m: &Term,
    equation: Thm,
    thms: &mut Cursor,
) -> Result<(), AllocError>
    requires over { equation.basis ≡ thms.old.basis }
    requires gives { IsSome (inferred (from_one (replaced thms.old.basis v.now (nameless [] m.now) equation.sequent)) thms.old.after) }
    ensures { OnOk result (Infers (from_one (replaced thms.old.basis v.now (nameless [] m.now) equation.sequent)) thms.old thms.new) }
{
    let Some(at_left) = thms.take() else {
        unreachable!()
    };
    let made = made_in_equal(subst(alloc, &equation, v, m, &at_left));
    drop(equation);
    drop(at_left);
    let thm = made?;
    thms.put(thm)
}

/// PROVE_HYP of the two theorems after the place.
pub(crate) fn cut(alloc: Global, thms: &mut Cursor) -> Result<(), AllocError>
    requires { IsSome (inferred (from_two cut) thms.old.after) }
    ensures { OnOk result (Infers (from_two cut) thms.old thms.new) }
{
    let Some(lemma) = thms.take() else {
        unreachable!()
    };
    cut_with(alloc, lemma, thms)
}

// PROVE_HYP of the theorem and the one after the place.
fn cut_with(alloc: Global, lemma: Thm, thms: &mut Cursor) -> Result<(), AllocError>
    requires over { lemma.basis ≡ thms.old.basis }
    requires gives { IsSome (inferred (from_one (cut lemma.sequent)) thms.old.after) }
    ensures { OnOk result (Infers (from_one (cut lemma.sequent)) thms.old thms.new) }
{
    let Some(under) = thms.take() else {
        unreachable!()
    };
    let made = prove_hyp(alloc, &lemma, &under);
    drop(lemma);
    drop(under);
    let thm = made?;
    thms.put(thm)
}
