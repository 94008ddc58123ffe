//! The constants of truth values and connectives, made once for many formulas (bool.ml).
ghost use Rattle.std.specs.Prelude.{◌≡◌, IfOk, Some, codes};
ghost use Rattle.std.specs.Coded.{Coded-set};
ghost use Rattle.hol_terms.specs.Named.{constant, named_type};
ghost use Rattle.hol_terms.specs.Code.{coded_named};
ghost use Rattle.hol_formulas.specs.Equation.{bool_type};
ghost use Rattle.hol_formulas.specs.Formula.{connective_type, negation_type};
ghost use Rattle.hol_formulas.specs.Making.{mk_conj, mk_disj, mk_falsity, mk_imp, mk_neg, mk_truth};

use crate::connectives::{applied_to_two, mk_falsity, mk_truth};
use crate::terms::constant_named;
use crate::types::{connective_type, negation_type};
use hol_terms::Term;
use std::alloc::{AllocError, Global};

/// `/\`, `\/`, `==>`, `~`, `T` and `F`. A formula that is made by it shares them, where [`crate::mk_conj`] and its like make them anew.
#[derive(Drop)]
pub struct Connectives {
    conjunction: Term,
    disjunction: Term,
    implication: Term,
    negation: Term,
    truth: Term,
    falsity: Term,
    ghost and: { conjunction ≡ constant (codes "/\\") connective_type } by { Coded-set coded_named conjunction (constant (codes "/\\") connective_type) },
    ghost or: { disjunction ≡ constant (codes "\\/") connective_type } by { Coded-set coded_named disjunction (constant (codes "\\/") connective_type) },
    ghost implies: { implication ≡ constant (codes "==>") connective_type } by { Coded-set coded_named implication (constant (codes "==>") connective_type) },
    ghost not: { negation ≡ constant (codes "~") negation_type } by { Coded-set coded_named negation (constant (codes "~") negation_type) },
    ghost true_is: { truth ≡ mk_truth } by { Coded-set coded_named truth mk_truth },
    ghost false_is: { falsity ≡ mk_falsity } by { Coded-set coded_named falsity mk_falsity },
}

impl Connectives {
    /// The constants.
    pub fn new(alloc: Global) -> Result<Connectives, AllocError> {
        Ok(Connectives {
            conjunction: connective(alloc, "/\\")?,
            disjunction: connective(alloc, "\\/")?,
            implication: connective(alloc, "==>")?,
            negation: negation(alloc)?,
            truth: mk_truth(alloc)?,
            falsity: mk_falsity(alloc)?,
        })
    }

    /// `T`.
    pub fn truth(&self) -> &Term
        ensures { result.now ≡ mk_truth }
    {
        &self.truth
    }

    /// `F`.
    pub fn falsity(&self) -> &Term
        ensures { result.now ≡ mk_falsity }
    {
        &self.falsity
    }

    /// `p /\ q`, for two terms of type `bool`.
    pub fn conj(&self, alloc: Global, p: &Term, q: &Term) -> Result<Term, AllocError>
        requires first { named_type p.now ≡ Some bool_type }
        requires second { named_type q.now ≡ Some bool_type }
        ensures is { IfOk result (λ t. t ≡ mk_conj p.now q.now) }
        ensures typed { IfOk result (λ t. named_type t ≡ Some bool_type) }
    {
        applied_to_two(alloc, &self.conjunction, p, q)
    }

    /// `p \/ q`, for two terms of type `bool`.
    pub fn disj(&self, alloc: Global, p: &Term, q: &Term) -> Result<Term, AllocError>
        requires first { named_type p.now ≡ Some bool_type }
        requires second { named_type q.now ≡ Some bool_type }
        ensures is { IfOk result (λ t. t ≡ mk_disj p.now q.now) }
        ensures typed { IfOk result (λ t. named_type t ≡ Some bool_type) }
    {
        applied_to_two(alloc, &self.disjunction, p, q)
    }

    /// `p ==> q`, for two terms of type `bool`.
    pub fn imp(&self, alloc: Global, p: &Term, q: &Term) -> Result<Term, AllocError>
        requires first { named_type p.now ≡ Some bool_type }
        requires second { named_type q.now ≡ Some bool_type }
        ensures is { IfOk result (λ t. t ≡ mk_imp p.now q.now) }
        ensures typed { IfOk result (λ t. named_type t ≡ Some bool_type) }
    {
        applied_to_two(alloc, &self.implication, p, q)
    }

    /// `~p`, for a term of type `bool`.
    #[tactic(auto, using(crate::proofs::PartTypes::applications))]
    pub fn neg(&self, alloc: Global, p: &Term) -> Result<Term, AllocError>
        requires { named_type p.now ≡ Some bool_type }
        ensures is { IfOk result (λ t. t ≡ mk_neg p.now) }
        ensures typed { IfOk result (λ t. named_type t ≡ Some bool_type) }
    {
        Term::application(alloc, &self.negation, p)
    }
}

// The sign of the connective of the name.
fn connective(alloc: Global, name: &str) -> Result<Term, AllocError>
    ensures { IfOk result (λ t. t ≡ constant name.now connective_type) }
{
    let ty = connective_type(alloc)?;
    constant_named(alloc, name, &ty)
}

// `~`.
fn negation(alloc: Global) -> Result<Term, AllocError>
    ensures { IfOk result (λ t. t ≡ constant (codes "~") negation_type) }
{
    let ty = negation_type(alloc)?;
    constant_named(alloc, "~", &ty)
}
