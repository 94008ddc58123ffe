//! What is taken in place of a theorem where there is no basis over which a term could be assumed.
ghost use Rattle.std.specs.Prelude.{◌≡◌, IfOk, Some, []};
ghost use Rattle.hol_terms.specs.Nameless.{nameless};
ghost use Rattle.hol_terms.specs.Named.{named_type};
ghost use Rattle.hol_formulas.specs.Equation.{bool_type};
ghost use Rattle.hol_kernel.specs.Sequent.{hyps_of};
ghost use Rattle.hol_kernel.specs.Given.{proved, given_of, IsAssumable, assumption_of, given_sequent, IsOver, given_over};
ghost use Rattle.hol_kernel.specs.Gives.{Gives, in_kernel};
ghost use Rattle.hol_kernel.specs.declared.error.Rule.TheVariants as rule;

use crate::basis::Basis;
use crate::error::{KernelError, Rule};
use crate::thm::Thm;
use hol_formulas::is_bool;
use hol_terms::Term;
use std::alloc::{AllocError, Global};
use std::marker::Model;
use std::slice;

/// A theorem, or a term `p` of type `bool` that is assumed: it is read as `{p} |- p`.
#[derive(Drop)]
pub struct Given {
    node: GivenNode,
}

/// What is given.
#[derive(Drop)]
pub enum GivenNode {
    /// A theorem.
    Theorem(Thm),
    /// A term of type `bool`.
    Assumed(Term),
}

impl Model for Given {
    ghost use Rattle.hol_kernel.specs.Given.{Given, given_code, given_of, IsAssumable};

    ghost Value = { Given };

    ghost coded = { given_code };

    ghost view = { λ g. given_of g.node };

    ghost invariant = { λ g. IsAssumable g.node };
}

impl Given {
    /// The theorem.
    pub fn theorem(th: &Thm) -> Result<Given, AllocError>
        ensures { IfOk result (λ given. given ≡ proved th.now) }
    {
        Ok(Given {
            node: GivenNode::Theorem(th.copy()?),
        })
    }

    /// The term, to be assumed.
    ///
    /// Refused by [`Rule::Assume`] where it is not of type `bool`.
    #[tactic(auto, using(crate::proofs::Assumptions::assumptions))]
    pub fn assumed(p: &Term) -> Result<Given, KernelError>
        ensures { Gives in_kernel rule.Assume (assumption_of (nameless [] p.now)) result }
    {
        if !is_bool(p.type_of()) {
            return Err(KernelError::Refused(Rule::Assume));
        }
        let term = p.copy()?;
        Ok(Given {
            node: GivenNode::Assumed(term),
        })
    }

    /// What is given.
    pub fn node(&self) -> &GivenNode
        ensures value { given_of result.now ≡ self.now }
        ensures assumable { IsAssumable result.now }
    {
        &self.node
    }

    /// The same theorem or term.
    pub fn copy(&self) -> Result<Given, AllocError>
        ensures { IfOk result (λ given. given ≡ self.now) }
    {
        let node = match self.node() {
            GivenNode::Theorem(th) => GivenNode::Theorem(th.copy()?),
            GivenNode::Assumed(p) => GivenNode::Assumed(p.copy()?),
        };
        Ok(Given { node })
    }

    /// The theorem's hypotheses, or the term alone: each once up to the names of bound variables.
    pub fn hyps(&self) -> &[Term]
        ensures { hyps_of result.now ≡ (given_sequent self.now).hyps }
    {
        match self.node() {
            GivenNode::Theorem(th) => th.hyps(),
            GivenNode::Assumed(p) => slice::from_ref(p),
        }
    }

    /// The theorem's conclusion, or the term; of type `bool`.
    pub fn concl(&self) -> &Term
        ensures concl { nameless [] result.now ≡ (given_sequent self.now).concl }
        ensures typed { named_type result.now ≡ Some bool_type }
    {
        match self.node() {
            GivenNode::Theorem(th) => th.concl(),
            GivenNode::Assumed(p) => p,
        }
    }

    /// The theorem over a basis that contains its own, or the assumption of the term over the basis.
    ///
    /// Refused by [`Rule::Assume`] where a term is not well typed over the prelude and the basis.
    pub fn over(&self, alloc: Global, basis: &Basis) -> Result<Thm, KernelError>
        requires within { IsOver self.now basis.now }
        ensures sequent { Gives in_kernel rule.Assume (given_over basis.now self.now) result }
        ensures basis { IfOk result (λ th. th.basis ≡ basis.now) }
    {
        match self.node() {
            GivenNode::Theorem(th) => Ok(th.widen(basis)?),
            GivenNode::Assumed(p) => Thm::assume(alloc, basis, p),
        }
    }
}
