//! The rules by which theorems are written, on what comes before them.
ghost use Rattle.std.specs.Prelude.{◌≡◌, [], IfOk, Err, option_copied};
ghost use Rattle.std.specs.Option.{option_map, option_and_then};
ghost use Rattle.hol_terms.specs.Nameless.{nameless};
ghost use Rattle.hol_kernel.specs.Rules.{inst_type_of};
ghost use Rattle.hol_equal.specs.Rules.{sym_of};
ghost use Rattle.hol_bool.specs.Rules.{conjunct1_of, conjunct2_of, mp_of};
ghost use Rattle.hol_resolve.specs.declared.forward_rule.ForwardRule.TheVariants as rule;
ghost use Rattle.hol_resolve.specs.declared.refusal.Refusal.TheVariants as refusal;
ghost use Rattle.hol_resolve.specs.Forward.{given_by, assumed, reflected, specialized, pairs_at, instantiated};
ghost use Rattle.hol_resolve.specs.Over.{AreOver};
ghost use Rattle.hol_resolve.specs.ReadingView.{readings_value};
ghost use Rattle.hol_resolve.specs.Steps.{placed, then_step, then_step_both, IsPlaced, IsTermOver};

use crate::forward_rule::ForwardRule;
use crate::pairs::pairs_at;
use crate::readings::Readings;
use crate::refusal::Refusal;
use crate::sizes::small;
use hol_bool::{BoolError, conjunct1, conjunct2, mp, spec};
use hol_equal::{EqualError, sym};
use hol_kernel::{Basis, KernelError, Thm};
use hol_notation_tactics::TypePair;
use hol_terms::Term;
use hol_types::{Name, Ty};
use std::alloc::{AllocError, Global};

/// What is written comes to this theorem, or is refused.
pub(crate) type Written = Result<Thm, Refusal>;

// The rule doesn't apply.
fn bad(by: ForwardRule) -> Written
    ensures { result ≡ Err (refusal.BadRule by) }
{
    Err(Refusal::BadRule(by))
}

/// `ASSUME` of the term over the basis.
#[tactic(auto, using(crate::proofs::Applied::assume_gave, crate::proofs::Applied::assume_bad))]
pub(crate) fn by_assume(
    alloc: Global,
    basis: &Basis,
    p: Option<&Term>,
) -> Result<Written, AllocError>
    requires { IsTermOver basis.now (option_map (nameless []) (option_copied p)) }
    ensures { IfOk result (λ r. r ≡ placed basis.now (given_by rule.Assume (option_and_then assumed (option_map (nameless []) (option_copied p.entry))))) }
{
    let Some(p) = p else {
        return Ok(bad(ForwardRule::Assume));
    };
    match Thm::assume(alloc, basis, p) {
        Ok(th) => Ok(small(th)),
        Err(KernelError::Refused(_)) => Ok(bad(ForwardRule::Assume)),
        Err(KernelError::Clash(_)) => unreachable!(),
        Err(KernelError::Memory) => Err(AllocError),
    }
}

/// `REFL` of the term over the basis.
#[tactic(auto, using(crate::proofs::Applied::refl_gave, crate::proofs::Applied::refl_bad))]
pub(crate) fn by_refl(alloc: Global, basis: &Basis, t: Option<&Term>) -> Result<Written, AllocError>
    requires { IsTermOver basis.now (option_map (nameless []) (option_copied t)) }
    ensures { IfOk result (λ r. r ≡ placed basis.now (given_by rule.Refl (option_and_then reflected (option_map (nameless []) (option_copied t.entry))))) }
{
    let Some(t) = t else {
        return Ok(bad(ForwardRule::Refl));
    };
    match Thm::refl(alloc, basis, t) {
        Ok(th) => Ok(small(th)),
        Err(KernelError::Refused(_)) => Ok(bad(ForwardRule::Refl)),
        Err(KernelError::Clash(_)) => unreachable!(),
        Err(KernelError::Memory) => Err(AllocError),
    }
}

/// `SPEC` at the term.
#[tactic(auto, using(crate::proofs::Applied::spec_gave, crate::proofs::Applied::spec_bad))]
pub(crate) fn by_spec(
    alloc: Global,
    _basis: &Basis,
    t: Option<&Term>,
    part: Written,
) -> Result<Written, AllocError>
    requires typed { IsTermOver _basis.now (option_map (nameless []) (option_copied t)) }
    requires placed { IsPlaced _basis.now part }
    ensures { IfOk result (λ r. r ≡ then_step rule.Spec (λ a. option_and_then (specialized a) (option_map (nameless []) (option_copied t.entry))) part) }
{
    let th = match part {
        Ok(th) => th,
        Err(refusal) => return Ok(Err(refusal)),
    };
    let Some(t) = t else {
        return Ok(bad(ForwardRule::Spec));
    };
    match spec(alloc, t, &th) {
        Ok(given) => Ok(small(given)),
        Err(BoolError::Refused(_)) => Ok(bad(ForwardRule::Spec)),
        Err(BoolError::Memory) => Err(AllocError),
    }
}

/// `SYM`
#[tactic(auto, using(crate::proofs::Applied::step_gave, crate::proofs::Applied::step_bad))]
pub(crate) fn by_sym(alloc: Global, part: Written) -> Result<Written, AllocError>
    ensures { IfOk result (λ r. r ≡ then_step rule.Sym sym_of part) }
{
    let th = match part {
        Ok(th) => th,
        Err(refusal) => return Ok(Err(refusal)),
    };
    match sym(alloc, &th) {
        Ok(given) => Ok(small(given)),
        Err(EqualError::Refused(_)) => Ok(bad(ForwardRule::Sym)),
        Err(EqualError::Memory) => Err(AllocError),
    }
}

/// `CONJUNCT1`
#[tactic(auto, using(crate::proofs::Applied::step_gave, crate::proofs::Applied::step_bad))]
pub(crate) fn by_conjunct1(part: Written) -> Result<Written, AllocError>
    ensures { IfOk result (λ r. r ≡ then_step rule.Conjunct1 conjunct1_of part) }
{
    let th = match part {
        Ok(th) => th,
        Err(refusal) => return Ok(Err(refusal)),
    };
    match conjunct1(&th) {
        Ok(given) => Ok(small(given)),
        Err(BoolError::Refused(_)) => Ok(bad(ForwardRule::Conjunct1)),
        Err(BoolError::Memory) => Err(AllocError),
    }
}

/// `CONJUNCT2`
#[tactic(auto, using(crate::proofs::Applied::step_gave, crate::proofs::Applied::step_bad))]
pub(crate) fn by_conjunct2(part: Written) -> Result<Written, AllocError>
    ensures { IfOk result (λ r. r ≡ then_step rule.Conjunct2 conjunct2_of part) }
{
    let th = match part {
        Ok(th) => th,
        Err(refusal) => return Ok(Err(refusal)),
    };
    match conjunct2(&th) {
        Ok(given) => Ok(small(given)),
        Err(BoolError::Refused(_)) => Ok(bad(ForwardRule::Conjunct2)),
        Err(BoolError::Memory) => Err(AllocError),
    }
}

/// `MP` of the implication and its premise, which are over one basis.
#[tactic(auto, using(crate::proofs::Applied::both_gave, crate::proofs::Applied::both_bad))]
pub(crate) fn by_mp(
    alloc: Global,
    _basis: &Basis,
    implication: Written,
    premise: Written,
) -> Result<Written, AllocError>
    requires first { IsPlaced _basis.now implication }
    requires second { IsPlaced _basis.now premise }
    ensures { IfOk result (λ r. r ≡ then_step_both rule.Mp mp_of implication premise) }
{
    let a = match implication {
        Ok(th) => th,
        Err(refusal) => return Ok(Err(refusal)),
    };
    let b = match premise {
        Ok(th) => th,
        Err(refusal) => return Ok(Err(refusal)),
    };
    match mp(alloc, &a, &b) {
        Ok(given) => Ok(small(given)),
        Err(BoolError::Refused(_)) => Ok(bad(ForwardRule::Mp)),
        Err(BoolError::Memory) => Err(AllocError),
    }
}

/// `INST_TYPE` by the pairs.
#[tactic(auto, using(crate::proofs::Applied::no_types, crate::proofs::Applied::types_gave))]
pub(crate) fn by_inst_type(
    alloc: Global,
    _basis: &Basis,
    readings: &Readings,
    pairs: &[TypePair],
    part: Written,
) -> Result<Written, AllocError>
    requires over { AreOver _basis.now (readings_value readings.now) }
    requires placed { IsPlaced _basis.now part }
    ensures { IfOk result (λ r. r ≡ then_step rule.InstType (λ a. option_map (instantiated a) (pairs_at (readings_value readings.now) pairs.now)) part) }
{
    let th = match part {
        Ok(th) => th,
        Err(refusal) => return Ok(Err(refusal)),
    };
    match pairs_at(alloc, readings, pairs)? {
        Some(list) => by_types(alloc, &list, &th),
        None => Ok(bad(ForwardRule::InstType)),
    }
}

// `INST_TYPE` by types for type variables.
#[tactic(auto, using(crate::proofs::Applied::gave, crate::proofs::Applied::bad))]
fn by_types(alloc: Global, list: &[(Ty, Name)], th: &Thm) -> Result<Written, AllocError>
    ensures { IfOk result (λ r. r ≡ placed th.now.basis (given_by rule.InstType (inst_type_of th.now.basis list.now th.now.sequent))) }
{
    match Thm::inst_type(alloc, list, th) {
        Ok(given) => Ok(small(given)),
        Err(KernelError::Refused(_)) => Ok(bad(ForwardRule::InstType)),
        Err(KernelError::Clash(_)) => unreachable!(),
        Err(KernelError::Memory) => Err(AllocError),
    }
}
