//! Cases (bool.ml: DISJ_CASES).
ghost use Rattle.std.specs.Prelude.{◌≡◌, [], IfOk, IsSome, Some};
ghost use Rattle.std.specs.FinSet as set;
ghost use Rattle.hol_terms.specs.Nameless.{nameless};
ghost use Rattle.hol_terms.specs.Alpha.{strip};
ghost use Rattle.hol_formulas.specs.Formula.{disjunction};
ghost use Rattle.hol_kernel.specs.Theorem.{theorem_on, over};
ghost use Rattle.hol_equal.specs.Applied.{lhs, rhs};
ghost use Rattle.hol_derived.specs.Applied.{by_cases};
ghost use Rattle.hol_derived.specs.Rules.{disj_cases_of};

use hol_formulas::dest_disj;
use hol_kernel::Thm;
use hol_subst::Hypotheses;
use hol_terms::Term;
use std::alloc::{AllocError, Global};

// The hypotheses of `a`, those of `b` but `p`, and those of `c` but `q`.
fn left_of_cases(
    alloc: Global,
    a: &Thm,
    p: &Term,
    b: &Thm,
    q: &Term,
    c: &Thm,
) -> Result<Hypotheses, AllocError>
    ensures { IfOk result (λ hs. hs ≡ set.union (set.union a.now.sequent.hyps (set.remove b.now.sequent.hyps (strip (nameless [] p.now)))) (set.remove c.now.sequent.hyps (strip (nameless [] q.now)))) }
{
    let first = b.hypotheses().without(alloc, p)?;
    let second = c.hypotheses().without(alloc, q)?;
    a.hypotheses().union(alloc, &first)?.union(alloc, &second)
}

/// DISJ_CASES, for a theorem that is known to be a disjunction.
pub fn by_cases(alloc: Global, a: &Thm, b: &Thm, c: &Thm) -> Result<Thm, AllocError>
    requires same_basis { a.now.basis ≡ b.now.basis }
    requires third_basis { a.now.basis ≡ c.now.basis }
    requires is { a.now.sequent.concl ≡ disjunction (lhs a.now.sequent.concl) (rhs a.now.sequent.concl) }
    requires fits { strip b.now.sequent.concl ≡ strip c.now.sequent.concl }
    ensures { IfOk result (λ th. th ≡ theorem_on a.now.basis (by_cases a.now.sequent b.now.sequent c.now.sequent)) }
{
    a.promise();
    b.promise();
    c.promise();
    a.well_typed();
    b.well_typed();
    let Some((p, q)) = dest_disj(a.concl()) else {
        unreachable!()
    };
    let concl = b.concl().copy()?;
    let hyps = left_of_cases(alloc, a, p, b, q, c)?;
    Thm::closed(a.basis(), hyps, concl)
}

/// DISJ_CASES: from `p \/ q`, `r` and `r'` that is `r` up to bound names, `r` without the hypotheses `p` of the one and `q` of the other.
pub fn disj_cases(alloc: Global, a: &Thm, b: &Thm, c: &Thm) -> Result<Thm, AllocError>
    requires same_basis { a.now.basis ≡ b.now.basis }
    requires third_basis { a.now.basis ≡ c.now.basis }
    requires applies { IsSome (over a.now.basis (disj_cases_of a.now.sequent b.now.sequent c.now.sequent)) }
    ensures { IfOk result (λ th. over a.now.basis (disj_cases_of a.now.sequent b.now.sequent c.now.sequent) ≡ Some th) }
{
    by_cases(alloc, a, b, c)
}
