//! Abstractions over variables that can be bound above a redex.
ghost use Rattle.std.specs.Prelude.{◌≡◌, ◌++◌, ℕ, [], false, map, IfOk, OnOk};
ghost use Rattle.hol_types.specs.Tree.{TypeTree};
ghost use Rattle.hol_terms.specs.Named.{var, abs, named_type};
ghost use Rattle.hol_terms.specs.Nameless.{nameless, free_occurrences, base_of};
ghost use Rattle.hol_terms.specs.Scoped.{binds};
ghost use Rattle.hol_match.specs.Apart.{is_named, rule_variables, right_variables};
ghost use Rattle.hol_match.specs.Fixed.{stays};
ghost use Rattle.hol_match.specs.RuleSets.{entries};
ghost use Rattle.hol_match.specs.RuleView.{rule_values};

use crate::fixed::{Fixed, add_variables};
use crate::rule::Rule;
use crate::rules::renamed;
use hol_subst::free_name;
use hol_terms::{Term, Variable};
use hol_types::Name;
use std::alloc::{AllocError, Global};

/// The bound variable and the body of an abstraction.
#[derive(Drop)]
pub struct Binder {
    /// The variable, free in the body.
    pub variable: Variable,
    /// The body.
    pub body: Term,
}

impl Binder {
    /// The variable and the body as they are.
    pub fn kept(v: &Variable, body: &Term) -> Result<Binder, AllocError>
        ensures variable { IfOk result (λ o. o.variable ≡ v.now) }
        ensures body { IfOk result (λ o. o.body ≡ body.now) }
    {
        Ok(Binder {
            variable: v.copy()?,
            body: body.copy()?,
        })
    }
}

/// The variable and the body of the abstraction of `v`, where the variable has a name that none of these has. It has the name of `v`,
/// with primes if need be.
#[tactic(auto, using(crate::proofs::Apartness::openings))]
pub(crate) fn binder_apart(
    alloc: Global,
    variables: &[Variable],
    v: &Variable,
    body: &Term,
) -> Result<Binder, AllocError>
    ensures same { IfOk result (λ o. nameless [] (abs o.variable o.body) ≡ nameless [] (abs v.now body.now)) }
    ensures typed { IfOk result (λ o. named_type o.body ≡ named_type body.now) }
    ensures domain { IfOk result (λ o. o.variable.1 ≡ v.now.1) }
    ensures apart { IfOk result (λ o. is_named variables.now o.variable.0 ≡ false) }
{
    if !is_named(variables, v.name()) {
        return Binder::kept(v, body);
    }
    let name = unused_name(alloc, variables, body, v.name())?;
    let variable = Variable::new(&name, v.ty())?;
    let body = renamed(alloc, &variable, v, body)?;
    Ok(Binder { variable, body })
}

// Whether one of the variables has the name.
fn is_named(variables: &[Variable], name: &Name) -> bool
    ensures { result ≡ is_named variables.now name.now }
{
    for v in variables {
        if v.name().same(name) {
            return true;
        }
    }
    false
}

// The name, with the fewest primes that make it differ from those of the variables and of all variables and constants of the body.
#[tactic(auto, using(crate::proofs::Apartness::unused_names))]
fn unused_name(
    alloc: Global,
    variables: &[Variable],
    body: &Term,
    name: &Name,
) -> Result<Name, AllocError>
    ensures base { IfOk result (λ a. base_of a ≡ base_of name.now) }
    ensures other { IfOk result (λ a. is_named variables.now a ≡ false) }
    ensures unused { IfOk result (λ a. (s : TypeTree) → binds (free_occurrences (nameless [] body.now)) (a, s) ≡ false) }
{
    let mut avoid = Vec::with_capacity(alloc, 1)?;
    avoid.push(body.copy()?)?;
    add_terms(alloc, &mut avoid, variables)?;
    free_name(alloc, &avoid, name)
}

// Puts the variables at the end, as terms.
fn add_terms(alloc: Global, terms: &mut Vec<Term>, variables: &[Variable]) -> Result<(), AllocError>
    ensures { OnOk result (terms.new.items ≡ terms.old.items ++ map (λ v. var v) variables.now) }
{
    for v in variables {
        terms.push(Term::var(alloc, v)?)?;
    }
    Ok(())
}

/// Puts the variables that stay in the rules of a theorem, and those of their right sides, that are not there at the end. What stays is
/// looked at once, however many rules there are.
pub(crate) fn add_rule_variables(
    alloc: Global,
    variables: &mut Vec<Variable>,
    fixed: &Fixed,
    rules: &[Rule],
) -> Result<(), AllocError>
    ensures { OnOk result ((i : ℕ) → variables.new.items ≡ rule_variables variables.old.items (entries i 0 (stays fixed.now) (rule_values rules.now))) }
{
    if rules.is_empty() {
        return Ok(());
    }
    fixed.add_to(variables)?;
    add_right_sides(alloc, variables, rules)
}

// Puts the variables of the right sides that are not there at the end.
fn add_right_sides(
    alloc: Global,
    variables: &mut Vec<Variable>,
    rules: &[Rule],
) -> Result<(), AllocError>
    ensures { OnOk result (variables.new.items ≡ right_variables variables.old.items (rule_values rules.now)) }
{
    for rule in rules {
        let own = rule.right().frees(alloc)?;
        add_variables(variables, &own)?;
    }
    Ok(())
}
