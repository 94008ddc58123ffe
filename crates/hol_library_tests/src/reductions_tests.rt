//! The theorem of a beta reduction.
use hol_conv::{ConvError, beta_all};
use hol_formulas::{bool_type, dest_eq, occurrence, variable};
use hol_kernel::{Basis, Thm};
use hol_replay::beta_conversion;
use hol_terms::{Term, TermError, Variable};
use std::alloc::Global;
use std::test::Fail;

// `(\v. t) t`.
fn redex(alloc: Global, v: &Variable, t: &Term) -> Result<Term, TermError> {
    let function = Term::abstraction(alloc, v, t)?;
    Term::comb(alloc, &function, t)
}

// Whether the theorem is `|- (\v. t) t = t`, of the first term and the second.
fn is_reduction(th: &Thm, redex: &Term, t: &Term) -> bool {
    match dest_eq(th.concl()) {
        Some(sides) => th.hyps().is_empty() && sides.left.same(redex) && sides.right.same(t),
        None => false,
    }
}

// Whether the redex has that theorem with so many turns.
#[tactic(auto, using(crate::proofs::Reduced::comes_to_an_end))]
fn is_reduced(
    alloc: Global,
    basis: &Basis,
    redex: &Term,
    t: &Term,
    turns: u32,
) -> Result<bool, ConvError> {
    let typed = basis.is_typed(alloc, redex)?;
    if !typed {
        return Ok(false);
    }
    beta_all(alloc, redex, turns)?;
    let th = beta_conversion(alloc, basis, redex, turns)?;
    Ok(is_reduction(&th, redex, t))
}

fn is_reduced_once(alloc: Global, redex: &Term, t: &Term) -> Result<bool, ConvError> {
    let basis = Basis::empty(alloc)?;
    is_reduced(alloc, &basis, redex, t, 1)
}

fn is_redex_reduced(alloc: Global, v: &Variable, t: &Term) -> Result<bool, Fail> {
    let redex = redex(alloc, v, t)?;
    Ok(is_reduced_once(alloc, &redex, t)?)
}

fn is_letter_reduced(alloc: Global) -> Result<bool, Fail> {
    let ty = bool_type(alloc)?;
    let v = variable(alloc, "p", &ty)?;
    let t = occurrence(alloc, &v)?;
    is_redex_reduced(alloc, &v, &t)
}

#[test]
fn a_redex_has_its_theorem(rt: HostRuntime) -> Result<(), Fail> {
    assert!(rt; is_letter_reduced(rt.alloc())?);
    Ok(())
}
