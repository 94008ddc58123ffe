//! What is replaced in a turn.
ghost use Rattle.std.specs.Prelude.{◌≡◌, [], IfOk, IfSome, IsFalse, IsTrue, MatchOption, Some, None};
ghost use Rattle.hol_terms.specs.Named.{abs, named_type};
ghost use Rattle.hol_terms.specs.Nameless.{nameless};
ghost use Rattle.hol_match.specs.Contracta.{contractum};
ghost use Rattle.hol_match.specs.SetView.{set_rules, set_givens};
ghost use Rattle.hol_conv.specs.Redexes.{beta_contractum, contraction, IsOutside, is_applied_abstraction, passes_over, depth};
ghost use Rattle.hol_conv.specs.Turns.{turn};
ghost use Rattle.hol_conv.specs.Tracing.{Traces, redex_givens};

use crate::reduct::reduct;
use crate::trace_node::TraceNode;
use hol_match::{Binder, RuleSet};
use hol_terms::{Term, TermNode, Variable};
use std::alloc::{AllocError, Global};

/// What a redex becomes, and how.
#[derive(Drop)]
pub(crate) struct Contracted {
    pub(crate) term: Term,
    pub(crate) node: Box<TraceNode>,
}

/// What is replaced in a turn.
#[derive(Clone, Copy)]
pub(crate) enum Redexes<'a> {
    /// An abstraction that is applied, by its body at the argument.
    Beta,
    /// What the left side of a rule matches, by the right side of the first such rule.
    Rules(&'a RuleSet),
}

impl<'a> Redexes<'a> {
    /// What the term becomes, if it is a redex.
    #[inline(never)]
    pub(crate) fn contract(&self, alloc: Global, t: &Term) -> Result<Option<Contracted>, AllocError>
        ensures is { IfOk result (λ found. MatchOption found (contraction self.now [] (nameless [] t.now) ≡ None) (λ c. contraction self.now [] (nameless [] t.now) ≡ Some (nameless [] c.term))) }
        ensures typed { IfOk result (λ found. IfSome found (λ c. named_type c.term ≡ named_type t.now)) }
        ensures traces { IfOk result (λ found. IfSome found (λ c. Traces (redex_givens self.now) c.node.value (nameless [] t.now) (nameless [] c.term))) }
    {
        match self {
            Redexes::Beta => beta_contracted(alloc, t),
            Redexes::Rules(rules) => rule_contracted(alloc, rules, t),
        }
    }

    /// Whether the term is a redex.
    #[inline(never)]
    #[tactic(auto, using(crate::proofs::RedexLaws::no_redexes))]
    pub(crate) fn is_redex(&self, alloc: Global, t: &Term) -> Result<bool, AllocError>
        ensures none { IfOk result (λ b. IsFalse b → contraction self.now [] (nameless [] t.now) ≡ None) }
        ensures some { IfOk result (λ b. IsTrue b → contraction self.now [] (nameless [] t.now) ≡ None → ⊥) }
    {
        match self {
            Redexes::Beta => Ok(is_applied_abstraction(t)),
            Redexes::Rules(rules) => Ok(rules.find(alloc, t)?.is_some()),
        }
    }

    /// Whether the term or a part of it may be a redex; where the answer is `false`, none is.
    ///
    /// Takes no memory and no more time for a larger term. Of rules it is told by the constants at the heads of their left sides. A term
    /// doesn't keep whether abstractions stand in it, so of beta redexes the answer is always `true`.
    #[tactic(auto, using(crate::proofs::RedexLaws::no_turns))]
    pub(crate) fn may_have_redex(&self, t: &Term) -> bool
        ensures { IsFalse result → turn (contraction self.now) [] (nameless [] t.now) ≡ None }
    {
        match self {
            Redexes::Beta => true,
            Redexes::Rules(rules) => rules.may_have_redex(t),
        }
    }

    /// Whether only the term's outline and its type count: each left side is of another outline, or a variable. An application or an
    /// abstraction of the same outline and type is no redex then, if this term is none.
    pub(crate) fn passes_over(&self, t: &Term) -> bool
        ensures { result ≡ passes_over self.now (nameless [] t.now) }
    {
        match self {
            Redexes::Beta => !is_applied_abstraction(t),
            Redexes::Rules(rules) => rules.passes_over(t),
        }
    }

    /// How many levels of the outline are looked at there; `None` where a rule's left side has more than 20,000 nodes.
    pub(crate) fn depth(&self) -> Option<usize>
        ensures { IfSome result (λ d. d ≡ depth self.now) }
    {
        match self {
            Redexes::Beta => Some(2),
            Redexes::Rules(rules) => rules.depth(),
        }
    }

    /// The variable and the body of the abstraction of `v`, where the variable may be bound above a redex.
    #[inline(never)]
    pub(crate) fn opened(
        &self,
        alloc: Global,
        v: &Variable,
        body: &Term,
    ) -> Result<Binder, AllocError>
        ensures same { IfOk result (λ o. nameless [] (abs o.variable o.body) ≡ nameless [] (abs v.now body.now)) }
        ensures typed { IfOk result (λ o. named_type o.body ≡ named_type body.now) }
        ensures domain { IfOk result (λ o. o.variable.1 ≡ v.now.1) }
        ensures outside { IfOk result (λ o. IsOutside self.now o.variable) }
    {
        match self {
            Redexes::Beta => Binder::kept(v, body),
            Redexes::Rules(rules) => rules.opened(alloc, v, body),
        }
    }
}

// Whether the term is an application of an abstraction.
fn is_applied_abstraction(t: &Term) -> bool
    ensures { result ≡ is_applied_abstraction (nameless [] t.now) }
{
    match t.node() {
        TermNode::Comb(f, _) => match f.node() {
            TermNode::Abs(_, _) => true,
            TermNode::Var(_) | TermNode::Const(_, _) | TermNode::Comb(_, _) => false,
        },
        TermNode::Var(_) | TermNode::Const(_, _) | TermNode::Abs(_, _) => false,
    }
}

// What an application of an abstraction becomes.
#[tactic(auto, using(crate::proofs::Tracing::redex_traces))]
fn beta_contracted(alloc: Global, t: &Term) -> Result<Option<Contracted>, AllocError>
    ensures is { IfOk result (λ found. MatchOption found (beta_contractum (nameless [] t.now) ≡ None) (λ c. beta_contractum (nameless [] t.now) ≡ Some (nameless [] c.term))) }
    ensures typed { IfOk result (λ found. IfSome found (λ c. named_type c.term ≡ named_type t.now)) }
    ensures traces { IfOk result (λ found. IfSome found (λ c. Traces [] c.node.value (nameless [] t.now) (nameless [] c.term))) }
{
    match beta(alloc, t)? {
        Some(term) => Ok(Some(Contracted {
            term,
            node: TraceNode::boxed(alloc, TraceNode::Beta)?,
        })),
        None => Ok(None),
    }
}

// What the first rule that matches makes of the term.
#[tactic(auto, using(crate::proofs::Tracing::rule_traces))]
fn rule_contracted(
    alloc: Global,
    rules: &RuleSet,
    t: &Term,
) -> Result<Option<Contracted>, AllocError>
    ensures is { IfOk result (λ found. MatchOption found (contractum [] (set_rules rules.now.rules.items) (nameless [] t.now) ≡ None) (λ c. contractum [] (set_rules rules.now.rules.items) (nameless [] t.now) ≡ Some (nameless [] c.term))) }
    ensures typed { IfOk result (λ found. IfSome found (λ c. named_type c.term ≡ named_type t.now)) }
    ensures traces { IfOk result (λ found. IfSome found (λ c. Traces (set_givens rules.now.rules.items) c.node.value (nameless [] t.now) (nameless [] c.term))) }
{
    match rules.contract(alloc, t)? {
        Some((rule, term)) => Ok(Some(Contracted {
            term,
            node: TraceNode::rule(alloc, rule.copy()?)?,
        })),
        None => Ok(None),
    }
}

// What an application of an abstraction becomes.
#[tactic(auto, using(crate::proofs::RedexLaws::beta_redexes))]
fn beta(alloc: Global, t: &Term) -> Result<Option<Term>, AllocError>
    ensures is { IfOk result (λ found. MatchOption found (beta_contractum (nameless [] t.now) ≡ None) (λ u. beta_contractum (nameless [] t.now) ≡ Some (nameless [] u))) }
    ensures typed { IfOk result (λ found. IfSome found (λ u. named_type u ≡ named_type t.now)) }
{
    let _ty = t.type_of();
    match t.node() {
        TermNode::Comb(f, x) => reduct(alloc, f, x),
        TermNode::Var(_) | TermNode::Const(_, _) | TermNode::Abs(_, _) => Ok(None),
    }
}
