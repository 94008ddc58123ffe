//! The primitive rules of HOL Light (fusion.ml) that substitute: types for type variables, and terms for variables, in all terms of a
//! theorem.
ghost use Rattle.std.specs.Prelude.{◌≡◌, true, IfOk, Some, []};
ghost use Rattle.hol_terms.specs.Nameless.{nameless};
ghost use Rattle.hol_kernel.specs.Typing.{are_types_for};
ghost use Rattle.hol_kernel.specs.Rules.{inst_type_of, inst_of, is_pair_at, are_pairs_over};
ghost use Rattle.hol_kernel.specs.Theorem.{over};
ghost use Rattle.hol_kernel.specs.Gives.{Gives, in_kernel};
ghost use Rattle.hol_kernel.specs.declared.error.Rule.TheVariants as rule;

use crate::basis::Basis;
use crate::error::{KernelError, Rule};
use crate::thm::Thm;
use hol_subst::vsubst_good;
use hol_terms::{Term, TermNode};
use hol_types::{Name, Ty};
use std::alloc::{AllocError, Global};

impl Thm {
    /// The rule of instantiation of types (fusion.ml, INST_TYPE): types for type variables, in all hypotheses and the conclusion, by
    /// pairs of a type and a type variable's name, of which the first of a name counts.
    ///
    /// Refused by [`Rule::InstType`] where a pair's type is none over the prelude and the theorem's basis.
    pub fn inst_type(alloc: Global, pairs: &[(Ty, Name)], a: &Thm) -> Result<Thm, KernelError>
        ensures sequent { Gives in_kernel rule.InstType (over a.now.basis (inst_type_of a.now.basis pairs.now a.now.sequent)) result }
        ensures basis { IfOk result (λ th. th.basis ≡ a.now.basis) }
    {
        a.promise();
        if !are_types(a.basis(), pairs) {
            return Err(KernelError::Refused(Rule::InstType));
        }
        let concl = hol_subst::inst(alloc, pairs, a.concl())?;
        let hyps = a.hypotheses().inst(alloc, pairs)?;
        Ok(Thm::closed(a.basis(), hyps, concl)?)
    }

    /// The rule of instantiation (fusion.ml, INST): terms for variables, in all hypotheses and the conclusion, by pairs of a term and
    /// a variable, of which the first of a variable counts.
    ///
    /// Refused by [`Rule::Inst`] where a pair's second part is no variable of the first part's type, or its first part is not well
    /// typed over the prelude and the theorem's basis.
    pub fn inst(alloc: Global, pairs: &[(Term, Term)], a: &Thm) -> Result<Thm, KernelError>
        ensures sequent { Gives in_kernel rule.Inst (over a.now.basis (inst_of a.now.basis pairs.now a.now.sequent)) result }
        ensures basis { IfOk result (λ th. th.basis ≡ a.now.basis) }
    {
        if !are_pairs(alloc, a.basis(), pairs)? {
            return Err(KernelError::Refused(Rule::Inst));
        }
        Ok(Thm::inst_typed(alloc, pairs, a)?)
    }

    /// [`Thm::inst`] by pairs that are known to be such pairs: their terms aren't walked.
    pub fn inst_typed(alloc: Global, pairs: &[(Term, Term)], a: &Thm) -> Result<Thm, AllocError>
        requires typed { are_pairs_over a.now.basis pairs.now ≡ true }
        ensures sequent { IfOk result (λ th. over a.now.basis (inst_of a.now.basis pairs.now a.now.sequent) ≡ Some th) }
        ensures basis { IfOk result (λ th. th.basis ≡ a.now.basis) }
    {
        a.promise();
        let concl = vsubst_good(alloc, pairs, a.concl())?;
        let hyps = a.hypotheses().vsubst(alloc, pairs)?;
        Thm::closed(a.basis(), hyps, concl)
    }
}

// Whether the type of each pair is one over the basis.
fn are_types(basis: &Basis, pairs: &[(Ty, Name)]) -> bool
    ensures { result ≡ are_types_for basis.now pairs.now }
{
    for pair in pairs {
        if !basis.is_type(&pair.0) {
            return false;
        }
    }
    true
}

// Whether each pair is one of a term over the basis and a variable of its type.
fn are_pairs(alloc: Global, basis: &Basis, pairs: &[(Term, Term)]) -> Result<bool, AllocError>
    ensures { IfOk result (λ all. all ≡ are_pairs_over basis.now pairs.now) }
{
    for pair in pairs {
        if !is_pair(alloc, basis, &pair.0, &pair.1)? {
            return Ok(false);
        }
    }
    Ok(true)
}

// Whether `u` is a variable of the type of the term, which is one over the basis.
fn is_pair(alloc: Global, basis: &Basis, term: &Term, u: &Term) -> Result<bool, AllocError>
    ensures { IfOk result (λ is. is ≡ is_pair_at basis.now (nameless [] term.now) u.now) }
{
    let TermNode::Var(v) = u.node() else {
        return Ok(false);
    };
    basis.has_type(alloc, term, v.ty())
}
