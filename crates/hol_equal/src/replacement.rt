//! Replacement of equals, for callers that know that the rule applies.
ghost use Rattle.std.specs.Prelude.{◌≡◌, IfOk, Some, []};
ghost use Rattle.hol_terms.specs.Named.{named_type};
ghost use Rattle.hol_terms.specs.Nameless.{nameless};
ghost use Rattle.hol_terms.specs.Alpha.{strip};
ghost use Rattle.hol_formulas.specs.Equation.{bool_type, equation};
ghost use Rattle.hol_kernel.specs.Theorem.{theorem_on};
ghost use Rattle.hol_kernel.specs.Typing.{HasType};
ghost use Rattle.hol_equal.specs.Applied.{lhs, rhs, substituted};
ghost use Rattle.hol_equal.specs.Rules.{m_with};

use crate::applied::known_sides;
use hol_formulas::occurrence;
use hol_kernel::Thm;
use hol_subst::vsubst_good;
use hol_terms::{Term, Variable};
use std::alloc::{AllocError, Global};

/// `m` with `r` for `v`.
pub fn m_with(alloc: Global, r: &Term, v: &Variable, m: &Term) -> Result<Term, AllocError>
    requires fits { named_type r.now ≡ Some v.now.1 }
    ensures { IfOk result (λ t. nameless [] t ≡ m_with (nameless [] r.now) v.now (nameless [] m.now)) }
{
    let own = occurrence(alloc, v)?;
    let mut pairs = Vec::new(alloc);
    pairs.push((r.copy()?, own))?;
    vsubst_good(alloc, &pairs, m)
}

/// SUBST: from `s = t`, and what is `m` with `s` for `v` up to bound names, `m` with `t` for `v`; `m` is a formula over the basis.
pub fn subst(alloc: Global, a: &Thm, v: &Variable, m: &Term, b: &Thm) -> Result<Thm, AllocError>
    requires one_basis { a.now.basis ≡ b.now.basis }
    requires equal { a.now.sequent.concl ≡ equation v.now.1 (lhs a.now.sequent.concl) (rhs a.now.sequent.concl) }
    requires typed { HasType a.now.basis (nameless [] m.now) bool_type }
    requires fits { strip (m_with (lhs a.now.sequent.concl) v.now (nameless [] m.now)) ≡ strip b.now.sequent.concl }
    ensures { IfOk result (λ th. th ≡ theorem_on a.now.basis (substituted v.now (nameless [] m.now) a.now.sequent b.now.sequent)) }
{
    a.promise();
    b.promise();
    let sides = known_sides(a);
    let concl = m_with(alloc, sides.right, v, m)?;
    let hyps = a.hypotheses().union(alloc, b.hypotheses())?;
    Thm::closed(a.basis(), hyps, concl)
}
