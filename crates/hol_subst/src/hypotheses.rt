//! Hypotheses: finite sets of terms, taken up to the names of bound variables.
ghost use Rattle.std.specs.Prelude.{◌≡◌, true, not, IfOk, OnOk, map, [], ◌∷◌, ◌++◌};
ghost use Rattle.std.specs.List.{filter, list_any};
ghost use Rattle.std.specs.List.Sorted.{IsStrictlySortedBy};
ghost use Rattle.std.specs.Set.{sorted_merge};
ghost use Rattle.std.specs.FinSet as set;
ghost use Rattle.hol_terms.specs.Nameless.{nameless, free_occurrences};
ghost use Rattle.hol_terms.specs.Scoped.{binds};
ghost use Rattle.hol_subst.specs.Variant.{is_free_in};
ghost use Rattle.hol_terms.specs.Alpha.{alpha_eq};
ghost use Rattle.hol_subst.specs.Hypotheses.{no_hyps, hyp_of, hyps_of, hyps_image};
ghost use Rattle.hol_subst.specs.AlphaOrder.{nameless_cmp};
ghost use Rattle.hol_subst.specs.Pairs.{nameless_pairs, HasBadPair};
ghost use Rattle.hol_subst.specs.Substitution.{types_inst, term_subst};

use crate::alpha::alpha_order;
use crate::instances::inst_all;
use crate::substitution::vsubst_all;
use hol_terms::{Term, Variable, add_copies};
use hol_types::{Name, Ty};
use std::alloc::{AllocError, Global};
use std::cmp::Ordering;
use std::marker::Model;
use std::rc::Rc;

/// The hypotheses of a theorem, each once up to the names of bound variables, in the order of their set. Its copies share them.
#[derive(Drop)]
pub struct Hypotheses {
    // Where there is none, no memory is taken.
    terms: Option<Rc<Vec<Term>>>,
}

impl Model for Hypotheses {
    ghost use Rattle.std.specs.Prelude.{map};
    ghost use Rattle.std.specs.List.Sorted.{IsStrictlySortedBy};
    ghost use Rattle.std.specs.FinSet as set;
    ghost use Rattle.hol_terms.specs.Code.{coded_nameless};
    ghost use Rattle.hol_subst.specs.Hypotheses.{Hyps, hyp_of, hyps_of, listed};
    ghost use Rattle.hol_subst.specs.AlphaOrder.{nameless_cmp};

    ghost Value = { Hyps };

    ghost coded = { set.code coded_nameless };

    ghost view = { λ h. hyps_of (listed h.terms (λ r. r.value.items)) };

    ghost invariant = { λ h. IsStrictlySortedBy nameless_cmp (map hyp_of (listed h.terms (λ r. r.value.items))) };
}

impl Hypotheses {
    // The hypotheses that stand in the list.
    fn made(alloc: Global, terms: Vec<Term>) -> Result<Hypotheses, AllocError>
        requires { IsStrictlySortedBy nameless_cmp (map hyp_of terms.items) }
        ensures { IfOk result (λ hyps. hyps ≡ hyps_of terms.items) }
    {
        if terms.is_empty() {
            return Ok(Hypotheses { terms: None });
        }
        Ok(Hypotheses {
            terms: Some(Rc::new(alloc, terms)?),
        })
    }

    /// No hypothesis.
    pub fn none() -> Hypotheses
        ensures { result ≡ no_hyps }
    {
        Hypotheses { terms: None }
    }

    /// One hypothesis.
    pub fn one(alloc: Global, p: &Term) -> Result<Hypotheses, AllocError>
        ensures { IfOk result (λ hyps. hyps ≡ set.insert no_hyps (hyp_of p.now)) }
    {
        let mut terms = Vec::new(alloc);
        terms.push(p.copy()?)?;
        Hypotheses::made(alloc, terms)
    }

    /// The hypotheses of a list in any order.
    #[tactic(auto, using(crate::proofs::HypothesisLists::sorts))]
    pub fn collected(alloc: Global, terms: &[Term]) -> Result<Hypotheses, AllocError>
        ensures { IfOk result (λ hyps. hyps ≡ hyps_of terms.now) }
    {
        let all = in_order(alloc, terms)?;
        Hypotheses::made(alloc, all)
    }

    /// The same hypotheses.
    pub fn copy(&self) -> Result<Hypotheses, AllocError>
        ensures { IfOk result (λ hyps. hyps ≡ self.now) }
    {
        let terms = match &self.terms {
            Some(terms) => Some(terms.clone()?),
            None => None,
        };
        Ok(Hypotheses { terms })
    }

    /// The hypotheses, in the order of their set.
    pub fn terms(&self) -> &[Term]
        ensures set { hyps_of result.now ≡ self.now }
        ensures ordered { IsStrictlySortedBy nameless_cmp (map hyp_of result.now) }
    {
        match &self.terms {
            Some(terms) => terms.as_slice(),
            None => &[],
        }
    }

    /// The hypotheses of both.
    #[tactic(auto, using(crate::proofs::HypothesisLists::unions))]
    pub fn union(&self, alloc: Global, other: &Hypotheses) -> Result<Hypotheses, AllocError>
        ensures { IfOk result (λ hyps. hyps ≡ set.union self.now other.now) }
    {
        let (first, second) = (self.terms(), other.terms());
        if second.is_empty() {
            return self.copy();
        }
        if first.is_empty() {
            return other.copy();
        }
        let all = merged(alloc, first, second)?;
        Hypotheses::made(alloc, all)
    }

    /// The hypotheses but the one that is alpha equivalent to the term.
    #[tactic(auto, using(crate::proofs::HypothesisLists::removals))]
    pub fn without(&self, alloc: Global, p: &Term) -> Result<Hypotheses, AllocError>
        ensures { IfOk result (λ hyps. hyps ≡ set.remove self.now (hyp_of p.now)) }
    {
        let terms = self.terms();
        if terms.is_empty() {
            return self.copy();
        }
        let rest = left_of(alloc, terms, p)?;
        Hypotheses::made(alloc, rest)
    }

    /// The hypotheses with types for their type variables, as [`crate::inst`] puts them.
    pub fn inst(&self, alloc: Global, pairs: &[(Ty, Name)]) -> Result<Hypotheses, AllocError>
        ensures { IfOk result (λ hyps. hyps ≡ hyps_image (types_inst pairs.now) self.now) }
    {
        let terms = inst_all(alloc, pairs, self.terms())?;
        Hypotheses::collected(alloc, &terms)
    }

    /// The hypotheses with terms for their free variables, as [`crate::vsubst_good`] puts them.
    pub fn vsubst(&self, alloc: Global, pairs: &[(Term, Term)]) -> Result<Hypotheses, AllocError>
        requires { HasBadPair pairs.now → ⊥ }
        ensures { IfOk result (λ hyps. hyps ≡ hyps_image (term_subst (nameless_pairs pairs.now) 0) self.now) }
    {
        let terms = vsubst_all(alloc, pairs, self.terms())?;
        Hypotheses::collected(alloc, &terms)
    }

    /// Whether the variable is free in a hypothesis.
    ///
    /// Takes no memory.
    #[tactic(auto, using(crate::proofs::HypothesisLists::free_in_hyps))]
    pub fn has_free(&self, v: &Variable) -> bool
        ensures { result ≡ is_free_in (set.items self.now) v.now }
    {
        is_free_in_one(self.terms(), v)
    }
}

/// Whether the variable is free in a term of the list.
pub fn is_free_in_one(terms: &[Term], v: &Variable) -> bool
    ensures { result ≡ list_any (λ p. binds (free_occurrences (nameless [] p)) v.now) terms.now }
{
    for p in terms {
        if p.vfree_in(v) {
            return true;
        }
    }
    false
}

// The order of hypotheses.
fn hypothesis_order(p: &Term, q: &Term) -> Ordering
    ensures { result ≡ nameless_cmp (hyp_of p.now) (hyp_of q.now) }
{
    alpha_order(p, q)
}

// The terms of a list in order, each once: both halves are put in order, and then merged.
#[tactic(auto, using(crate::proofs::HypothesisLists::sorts))]
fn in_order(alloc: Global, terms: &[Term]) -> Result<Vec<Term>, AllocError>
    ensures set { IfOk result (λ all. hyps_of all.items ≡ hyps_of terms.now) }
    ensures ordered { IfOk result (λ all. IsStrictlySortedBy nameless_cmp (map hyp_of all.items)) }
{
    if terms.len() <= 1 {
        let mut all = Vec::new(alloc);
        add_copies(&mut all, terms)?;
        return Ok(all);
    }
    let half = terms.len() / 2;
    let first = in_order(alloc, &terms[..half])?;
    let second = in_order(alloc, &terms[half..])?;
    merged(alloc, &first, &second)
}

// Two lists in order made one, with each hypothesis of both once.
fn merged(alloc: Global, first: &[Term], second: &[Term]) -> Result<Vec<Term>, AllocError>
    ensures { IfOk result (λ all. all.items ≡ sorted_merge (λ p q. nameless_cmp (hyp_of p) (hyp_of q)) true first.now second.now) }
{
    let mut all = Vec::new(alloc);
    let mut i = 0;
    let mut j = 0;
    while i < first.len() && j < second.len() {
        match hypothesis_order(&first[i], &second[j]) {
            Ordering::Less => {
                push_copy(&mut all, &first[i])?;
                i += 1;
            }
            Ordering::Equal => {
                push_copy(&mut all, &first[i])?;
                i += 1;
                j += 1;
            }
            Ordering::Greater => {
                push_copy(&mut all, &second[j])?;
                j += 1;
            }
        }
    }
    add_copies(&mut all, &first[i..])?;
    add_copies(&mut all, &second[j..])?;
    Ok(all)
}

// Puts a copy of the term at the end.
fn push_copy(all: &mut Vec<Term>, p: &Term) -> Result<(), AllocError>
    ensures { OnOk result (all.new.items ≡ all.old.items ++ p.now ∷ []) }
{
    all.push(p.copy()?)?;
    Ok(())
}

// The hypotheses that are not alpha equivalent to the term.
fn left_of(alloc: Global, terms: &[Term], p: &Term) -> Result<Vec<Term>, AllocError>
    ensures { IfOk result (λ rest. rest.items ≡ filter (λ q. not (alpha_eq (nameless [] q) (nameless [] p.now))) terms.now) }
{
    let mut rest = Vec::new(alloc);
    for q in terms {
        if q.alpha_equivalent(p) {
            continue;
        }
        rest.push(q.copy()?)?;
    }
    Ok(rest)
}
