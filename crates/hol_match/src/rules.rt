//! The rules of a theorem.
ghost use Rattle.std.specs.Prelude.{◌≡◌, ◌∷◌, ◌++◌, ◌||◌, [], Some, map, not, IfOk, OnOk};
ghost use Rattle.std.specs.List.{AllByRecursion, list_all, filter};
ghost use Rattle.hol_types.specs.Names.{is_among};
ghost use Rattle.hol_terms.specs.Named.{named_type};
ghost use Rattle.hol_terms.specs.Nameless.{nameless, free, base_of};
ghost use Rattle.hol_terms.specs.Scoped.{binds};
ghost use Rattle.hol_subst.specs.Closing.{open_with};
ghost use Rattle.hol_subst.specs.FreeName.{IsFreeName};
ghost use Rattle.hol_formulas.specs.Equation.{bool_type};
ghost use Rattle.hol_formulas.specs.Formula.{Abstraction};
ghost use Rattle.hol_match.specs.Rules.{is_given, is_determined, single_rule, rules_under, rules_of, generalized, pattern_variables};
ghost use Rattle.hol_match.specs.RuleView.{rule_value, rule_values};
ghost use Rattle.hol_match.specs.Ways.{rule_way, rule_ways, IsOnWay};
ghost use Rattle.hol_match.specs.Opening.{IsOpenedAt, AreAddedOnWay};
ghost use Rattle.hol_match.specs.Fixed.{AreFixed};

use crate::binder::Binder;
use crate::fixed::Fixed;
use crate::rule::Rule;
use crate::rule_step::RuleStep;
use crate::way::Way;
use hol_formulas::{dest_conj, dest_eq, dest_forall, dest_neg, mk_falsity, mk_forall, mk_truth};
use hol_subst::{free_name, term_tyvars, vsubst_good};
use hol_terms::{Term, Variable, add_copies, base_name};
use hol_types::{Name, is_among};
use std::alloc::{AllocError, Global};

/// The rules of a theorem with these hypotheses and this conclusion, in order. The variables are those that may be instantiated.
///
/// Outer quantifiers are taken off, and conjunctions give the rules of their parts, both repeatedly. A part `l = r` rewrites `l` to `r`,
/// if `l` has each variable and type variable of `r` that is not of the hypotheses. `~p` rewrites `p` to `F`, and all else rewrites to
/// `T`. The variables that may be instantiated have names that no other variable of the theorem has.
pub(crate) fn rules_of(
    alloc: Global,
    hyps: &[Term],
    fixed: &Fixed,
    variables: &[Variable],
    p: &Term,
) -> Result<Vec<Rule>, AllocError>
    requires typed { named_type p.now ≡ Some bool_type }
    requires fixed { AreFixed (map (λ t. nameless [] t) hyps.now) fixed.now }
    requires variables { variables.now ≡ pattern_variables fixed.now.variables.items (nameless [] p.now) }
    ensures are { IfOk result (λ rules. rule_values rules.items ≡ rules_of (map (λ t. nameless [] t) hyps.now) (nameless [] p.now)) }
    ensures ways { IfOk result (λ rules. AllByRecursion (IsOnWay fixed.now.names.items fixed.now.variables.items (generalized variables.now (nameless [] p.now))) (rule_ways rules.items)) }
{
    let whole = generalized(alloc, variables, p)?;
    let way = Way::start(alloc)?;
    let mut rules = Vec::new(alloc);
    add_rules(alloc, hyps, fixed, &whole, &way, &mut rules)?;
    Ok(rules)
}

/// The free variables of the conclusion that are not fixed.
pub(crate) fn pattern_variables(
    alloc: Global,
    fixed: &Fixed,
    p: &Term,
) -> Result<Vec<Variable>, AllocError>
    ensures { IfOk result (λ vs. vs.items ≡ pattern_variables fixed.now.variables.items (nameless [] p.now)) }
{
    let all = p.frees(alloc)?;
    unfixed(alloc, fixed, &all)
}

// Those of the variables that are not fixed.
fn unfixed(alloc: Global, fixed: &Fixed, all: &[Variable]) -> Result<Vec<Variable>, AllocError>
    ensures { IfOk result (λ vs. vs.items ≡ filter (λ v. not (binds fixed.now.variables.items v)) all.now) }
{
    let mut rest = Vec::new(alloc);
    for v in all {
        if fixed.has_variable(v) {
            continue;
        }
        rest.push(v.copy()?)?;
    }
    Ok(rest)
}

// The formula, generalized over each of the variables in turn.
#[tactic(auto, using(crate::proofs::Opened::generalized_more))]
fn generalized(alloc: Global, variables: &[Variable], p: &Term) -> Result<Term, AllocError>
    requires typed { named_type p.now ≡ Some bool_type }
    ensures whole { IfOk result (λ t. nameless [] t ≡ generalized variables.now (nameless [] p.now)) }
    ensures formula { IfOk result (λ t. named_type t ≡ Some bool_type) }
{
    let mut whole = p.copy()?;
    for v in variables {
        whole = mk_forall(alloc, v, &whole)?;
    }
    Ok(whole)
}

// Puts the rules of a formula whose outer quantifiers bind its pattern variables at the end. The way led to it.
#[tactic(auto, using(crate::proofs::Opened::smaller))]
fn add_rules(
    alloc: Global,
    hyps: &[Term],
    fixed: &Fixed,
    p: &Term,
    way: &Way,
    rules: &mut Vec<Rule>,
) -> Result<(), AllocError>
    requires typed { named_type p.now ≡ Some bool_type }
    requires fixed { AreFixed (map (λ t. nameless [] t) hyps.now) fixed.now }
    ensures are { OnOk result (rule_values rules.new.items ≡ rule_values rules.old.items ++ rules_under (map (λ t. nameless [] t) hyps.now) (nameless [] p.now)) }
    ensures ways { OnOk result (AreAddedOnWay fixed.now.names.items fixed.now.variables.items way.now (nameless [] p.now) (rule_ways rules.old.items) (rule_ways rules.new.items)) }
{
    if let Some((v, body)) = dest_forall(p) {
        let inside = opened(alloc, hyps, p, v, body)?;
        let further = way.then(alloc, RuleStep::At(inside.variable))?;
        return add_rules(alloc, hyps, fixed, &inside.body, &further, rules);
    }
    if let Some((q, r)) = dest_conj(p) {
        let left = way.then(alloc, RuleStep::First)?;
        add_rules(alloc, hyps, fixed, q, &left, rules)?;
        let right = way.then(alloc, RuleStep::Second)?;
        return add_rules(alloc, hyps, fixed, r, &right, rules);
    }
    let rule = single_rule(alloc, fixed, p, way)?;
    add_rule(rules, rule)
}

// Puts the rule at the end.
fn add_rule(rules: &mut Vec<Rule>, rule: Rule) -> Result<(), AllocError>
    ensures { OnOk result (rule_ways rules.new.items ≡ rule_ways rules.old.items ++ rule_way rule ∷ []) }
{
    rules.push(rule)?;
    Ok(())
}

// The body of `!v. p`, where `v` is called by its base name, with the fewest primes that make it a name that none of the terms has.
#[tactic(auto, using(crate::proofs::Opened::opening))]
fn opened(
    alloc: Global,
    hyps: &[Term],
    p: &Term,
    v: &Variable,
    body: &Term,
) -> Result<Binder, AllocError>
    ensures typed { IfOk result (λ o. named_type o.body ≡ named_type body.now) }
    ensures opened { IfOk result (λ o. IsOpenedAt (map (λ t. nameless [] t) hyps.now) (nameless [] p.now) (record { base = base_of v.now.0; domain = v.now.1; body = nameless (v.now ∷ []) body.now }) o.variable (nameless [] o.body)) }
{
    let name = unused_name(alloc, hyps, p, v.name())?;
    if name.same(v.name()) {
        return Binder::kept(v, body);
    }
    let variable = Variable::new(&name, v.ty())?;
    let body = renamed(alloc, &variable, v, body)?;
    Ok(Binder { variable, body })
}

// The name's base, with the fewest primes that make it differ from those of all free variables and constants of the terms.
#[tactic(auto, using(crate::proofs::Opened::named_apart))]
fn unused_name(alloc: Global, hyps: &[Term], p: &Term, name: &Name) -> Result<Name, AllocError>
    ensures { IfOk result (λ a. IsFreeName (nameless [] p.now ∷ map (λ t. nameless [] t) hyps.now) (base_of name.now) a) }
{
    let base = Name::new(alloc, base_name(name.as_str()))?;
    let mut avoid = Vec::with_capacity(alloc, hyps.len() + 1)?;
    avoid.push(p.copy()?)?;
    add_copies(&mut avoid, hyps)?;
    free_name(alloc, &avoid, &base)
}

/// The body with the variable `u` for `v`, which has the same type.
#[tactic(auto, using(crate::proofs::Opened::other_variable, crate::proofs::Opened::renamed_type))]
pub(crate) fn renamed(
    alloc: Global,
    u: &Variable,
    v: &Variable,
    body: &Term,
) -> Result<Term, AllocError>
    requires typed { u.now.1 ≡ v.now.1 }
    ensures renamed { IfOk result (λ t. nameless [] t ≡ open_with (free u.now) 0 (nameless (v.now ∷ []) body.now)) }
    ensures kept { IfOk result (λ t. named_type t ≡ named_type body.now) }
{
    let pairs = [(Term::var(alloc, u)?, Term::var(alloc, v)?)];
    vsubst_good(alloc, &pairs, body)
}

// The one rule of a formula that is neither quantified nor a conjunction. The way led to it.
fn single_rule(alloc: Global, fixed: &Fixed, p: &Term, way: &Way) -> Result<Rule, AllocError>
    requires { named_type p.now ≡ Some bool_type }
    ensures is { IfOk result (λ r. rule_value r ≡ single_rule fixed.now.names.items fixed.now.variables.items (nameless [] p.now)) }
    ensures way { IfOk result (λ r. r.way ≡ way.now) }
{
    if let Some(sides) = dest_eq(p) {
        if is_determined(alloc, fixed, sides.left, sides.right)? {
            return Rule::of(sides.left, sides.right, way);
        }
    }
    match dest_neg(p) {
        Some(q) => {
            let falsity = mk_falsity(alloc)?;
            Rule::of(q, &falsity, way)
        }
        None => {
            let truth = mk_truth(alloc)?;
            Rule::of(p, &truth, way)
        }
    }
}

/// Whether each variable and type variable of `r` stays, or is in `l`.
pub(crate) fn is_determined(
    alloc: Global,
    fixed: &Fixed,
    l: &Term,
    r: &Term,
) -> Result<bool, AllocError>
    ensures { IfOk result (λ b. b ≡ is_determined fixed.now.names.items fixed.now.variables.items (nameless [] l.now) (nameless [] r.now)) }
{
    let variables = r.frees(alloc)?;
    if !are_given(fixed, l, &variables) {
        return Ok(false);
    }
    let names = term_tyvars(alloc, r)?;
    let own = term_tyvars(alloc, l)?;
    Ok(are_types_given(fixed, &own, &names))
}

// Whether each of the variables stays, or is free in `l`.
fn are_given(fixed: &Fixed, l: &Term, variables: &[Variable]) -> bool
    ensures { result ≡ list_all (is_given fixed.now.variables.items (nameless [] l.now)) variables.now }
{
    for v in variables {
        if !fixed.has_variable(v) && !l.vfree_in(v) {
            return false;
        }
    }
    true
}

// Whether each of the type variables stays, or is one of these.
fn are_types_given(fixed: &Fixed, own: &[Name], names: &[Name]) -> bool
    ensures { result ≡ list_all (λ a. is_among fixed.now.names.items a || is_among own.now a) names.now }
{
    for name in names {
        if !fixed.has_name(name) && !is_among(own, name) {
            return false;
        }
    }
    true
}
