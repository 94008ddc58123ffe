//! The justification of MATCH_MP_TAC.
ghost use Rattle.std.specs.Prelude.{◌≡◌, ℕ, List, IfOk, Some, []};
ghost use Rattle.hol_types.specs.Tree.{TypeTree};
ghost use Rattle.hol_terms.specs.Named.{named_type};
ghost use Rattle.hol_terms.specs.Nameless.{Nameless, nameless};
ghost use Rattle.hol_formulas.specs.Equation.{bool_type};
ghost use Rattle.hol_formulas.specs.Formula.{implication};
ghost use Rattle.hol_kernel.specs.Given as premise;
ghost use Rattle.hol_just.specs.Matching.{bound_variables};
ghost use Rattle.hol_just.specs.MatchMp.{existentials};
ghost use Rattle.hol_just.specs.Justifies.{ClosesByInstance, ClosesByPremise, LeavesPremise};

use crate::assuming::assumption;
use crate::just::Just;
use crate::reason::Reason;
use hol_formulas::{mk_exists, mk_imp};
use hol_kernel::Given;
use hol_terms::{Term, Variable};
use std::alloc::{AllocError, Global};

impl Just {
    /// That of MATCH_MP_TAC by this theorem, of which `premise ==> conclusion` is an instance where the variables of its outer quantifiers are called as those of
    /// the formula, and which leaves that the premise holds for some values of the variables.
    pub fn match_mp_tac(
        alloc: Global,
        th: &Given,
        formula: &Term,
        variables: &[Variable],
        premise: &Term,
        conclusion: &Term,
    ) -> Result<Just, AllocError>
        requires premise { named_type premise.now ≡ Some bool_type }
        requires conclusion { named_type conclusion.now ≡ Some bool_type }
        ensures { IfOk result (λ just. LeavesPremise th.now (bound_variables formula.now) variables.now (nameless [] premise.now) (nameless [] conclusion.now) just) }
    {
        let closing = by_instance(alloc, th, formula, premise, conclusion)?;
        let chosen = chosen(alloc, variables, premise, closing)?;
        let assuming = Just::disch_tac(alloc, &chosen.whole)?;
        let just = Just::mp(alloc)?;
        let mut just = just.joined(0, assuming)?;
        just.then_at(0, &chosen.just)?;
        Ok(just)
    }

    /// That of closing this instance of what stands under the theorem's outer quantifiers.
    pub fn instance(alloc: Global, th: &Given, formula: &Term, t: &Term) -> Result<Just, AllocError>
        ensures { IfOk result (λ just. ClosesByInstance th.now (bound_variables formula.now) (nameless [] t.now) just) }
    {
        let named = formula.copy()?;
        let instance = t.copy()?;
        let given = th.copy()?;
        Just::one(alloc, Reason::Matching(given, named, instance))
    }
}

// That of closing `premise ==> conclusion`, an instance of what stands under the theorem's outer quantifiers.
fn by_instance(
    alloc: Global,
    th: &Given,
    formula: &Term,
    premise: &Term,
    conclusion: &Term,
) -> Result<Just, AllocError>
    requires premise { named_type premise.now ≡ Some bool_type }
    requires conclusion { named_type conclusion.now ≡ Some bool_type }
    ensures { IfOk result (λ just. ClosesByInstance th.now (bound_variables formula.now) (implication (nameless [] premise.now) (nameless [] conclusion.now)) just) }
{
    let whole = mk_imp(alloc, premise, conclusion)?;
    Just::instance(alloc, th, formula, &whole)
}

// That p holds for some values of the variables, and the moves that close a goal with that as its newest assumption.
#[derive(Drop)]
struct Assuming {
    whole: Term,
    just: Just,
}

// The variables are chosen one after the other, and then p is used.
fn chosen(
    alloc: Global,
    variables: &[Variable],
    p: &Term,
    closing: Just,
) -> Result<Assuming, AllocError>
    requires { named_type p.now ≡ Some bool_type }
    ensures whole { IfOk result (λ c. nameless [] c.whole ≡ existentials variables.now (nameless [] p.now)) }
    ensures typed { IfOk result (λ c. named_type c.whole ≡ Some bool_type) }
    ensures just { IfOk result (λ c. (th : premise.Given) (own : List (List ℕ × TypeTree)) (w : Nameless) → ClosesByInstance th own (implication (nameless [] p.now) w) closing → ClosesByPremise th own variables.now (nameless [] p.now) w c.just) }
{
    let Some((v, rest)) = variables.split_first() else {
        return used(alloc, p, &closing);
    };
    let inner = chosen(alloc, rest, p, closing)?;
    let whole = mk_exists(alloc, v, &inner.whole)?;
    let mut just = Just::choose_tac(alloc, v, &assumption(&whole)?)?;
    just.then_at(0, &inner.just)?;
    Ok(Assuming { whole, just })
}

// With p assumed its consequence is closed.
fn used(alloc: Global, p: &Term, closing: &Just) -> Result<Assuming, AllocError>
    requires { named_type p.now ≡ Some bool_type }
    ensures whole { IfOk result (λ c. c.whole ≡ p.now) }
    ensures just { IfOk result (λ c. (th : premise.Given) (own : List (List ℕ × TypeTree)) (w : Nameless) → ClosesByInstance th own (implication (nameless [] p.now) w) closing.now → ClosesByPremise th own [] (nameless [] p.now) w c.just) }
{
    let whole = p.copy()?;
    let mut just = Just::mp_tac(alloc, &assumption(p)?)?;
    just.then_at(0, closing)?;
    Ok(Assuming { whole, just })
}
