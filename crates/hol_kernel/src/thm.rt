//! Theorems.
ghost use Rattle.std.specs.Prelude.{◌≡◌, IfOk, [], map};
ghost use Rattle.std.specs.List.Sorted.{IsStrictlySortedBy};
ghost use Rattle.hol_terms.specs.Named.{named_type};
ghost use Rattle.hol_terms.specs.Nameless.{nameless};
ghost use Rattle.hol_kernel.specs.Sequent.{no_hyps, hyp_of, hyps_of};
ghost use Rattle.hol_subst.specs.AlphaOrder.{nameless_cmp};
ghost use Rattle.hol_formulas.specs.Equation.{bool_type};
ghost use Rattle.hol_kernel.specs.Theorem.{theorem_over, IsDerived, IsTheorem, IsWellTyped};

use crate::basis::Basis;
use hol_subst::Hypotheses;
use hol_terms::Term;
use std::alloc::AllocError;
use std::marker::Model;

/// A theorem: its basis is legal in some order, and it has a derivation over its basis.
#[derive(Drop)]
pub struct Thm {
    basis: Basis,
    hyps: Hypotheses,
    concl: Term,
}

impl Model for Thm {
    ghost use Rattle.hol_terms.specs.Nameless.{nameless};
    ghost use Rattle.std.specs.Prelude.{[]};
    ghost use Rattle.hol_kernel.specs.Theorem.{Theorem, theorem_code, theorem_over, IsDerived};

    ghost Value = { Theorem };

    ghost coded = { theorem_code };

    ghost view = { λ t. theorem_over t.basis t.hyps (nameless [] t.concl) };

    ghost invariant = { λ t. IsDerived t.basis t.hyps t.concl };
}

impl Thm {
    /// The theorem of a sequent that has a derivation over the basis, which who calls this has to prove. Each rule ends here.
    pub fn closed(basis: &Basis, hyps: Hypotheses, concl: Term) -> Result<Thm, AllocError>
        requires { IsDerived basis.now hyps concl }
        ensures { IfOk result (λ th. th ≡ theorem_over basis.now hyps (nameless [] concl)) }
    {
        Ok(Thm {
            basis: basis.copy()?,
            hyps,
            concl,
        })
    }

    /// [`Thm::closed`] without hypotheses.
    pub(crate) fn unconditional(basis: &Basis, concl: Term) -> Result<Thm, AllocError>
        requires { IsDerived basis.now no_hyps concl }
        ensures { IfOk result (λ th. th ≡ theorem_over basis.now no_hyps (nameless [] concl)) }
    {
        Thm::closed(basis, Hypotheses::none(), concl)
    }

    /// The basis.
    pub fn basis(&self) -> &Basis
        ensures { result.now ≡ self.now.basis }
    {
        &self.basis
    }

    /// The hypotheses, each once up to the names of bound variables, in the order of their set.
    pub fn hyps(&self) -> &[Term]
        ensures set { hyps_of result.now ≡ self.now.sequent.hyps }
        ensures ordered { IsStrictlySortedBy nameless_cmp (map hyp_of result.now) }
    {
        self.hyps.terms()
    }

    /// The hypotheses as one value.
    pub fn hypotheses(&self) -> &Hypotheses
        ensures { result.now ≡ self.now.sequent.hyps }
    {
        &self.hyps
    }

    /// The conclusion, of type `bool`.
    pub fn concl(&self) -> &Term
        ensures concl { nameless [] result.now ≡ self.now.sequent.concl }
        ensures typed { named_type result.now ≡ Some bool_type }
    {
        &self.concl
    }

    /// The same theorem.
    pub fn copy(&self) -> Result<Thm, AllocError>
        ensures { IfOk result (λ th. th ≡ self.now) }
    {
        Ok(Thm {
            basis: self.basis.copy()?,
            hyps: self.hyps.copy()?,
            concl: self.concl.copy()?,
        })
    }

    /// What every theorem promises: in some order its basis is a legal list, and its sequent has a derivation over the prelude and
    /// the basis.
    pub fn promise(&self)
        ensures { IsTheorem self.now }
    {
        let _items = self.basis.items();
        let _concl = &self.concl;
    }

    /// What the terms of every theorem are: each hypothesis and the conclusion is well typed over the prelude and the basis, of type
    /// `bool`.
    pub fn well_typed(&self)
        ensures { IsWellTyped self.now }
    {
        self.promise();
    }
}
