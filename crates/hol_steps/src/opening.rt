//! A theorem's outer quantifiers taken off.
ghost use Rattle.std.specs.Prelude.{◌≡◌, ◌||◌, ◌++◌, ℕ, true, false, List, [], ◌∷◌, map, IfOk, OnOk, Some, None};
ghost use Rattle.hol_types.specs.Tree.{TypeTree};
ghost use Rattle.hol_terms.specs.Named.{var, named_type};
ghost use Rattle.hol_terms.specs.Nameless.{Nameless, nameless, free, base_of, free_occurrences};
ghost use Rattle.hol_terms.specs.Scoped.{binds};
ghost use Rattle.hol_subst.specs.FreeName.{is_taken};
ghost use Rattle.hol_subst.specs.Pairs.{nameless_pairs, HasBadPair};
ghost use Rattle.hol_formulas.specs.Equation.{bool_type};
ghost use Rattle.hol_formulas.specs.Formula.{dest_forall};
ghost use Rattle.hol_just.specs.FreeNames.{free_name};
ghost use Rattle.hol_just.specs.MatchMp.{opened};
ghost use Rattle.hol_steps.specs.Fresh.{AreAlike, DifferInNames};

use hol_formulas::{dest_forall, occurrence};
use hol_subst::{free_name, vsubst_good};
use hol_terms::{Term, Variable, base_name};
use hol_types::Name;
use std::alloc::{AllocError, Global};

/// What stands under the outer quantifiers of a formula, and the variables that they bind, the outermost first. Each is called by a name
/// that no other one has, and none of the terms that were to be avoided. All are put into the body in one substitution.
#[derive(Drop)]
pub(crate) struct Opened {
    pub(crate) variables: Vec<Variable>,
    pub(crate) body: Term,
}

impl Opened {
    /// The formula's outer quantifiers taken off.
    pub(crate) fn of(alloc: Global, avoid: Vec<Term>, p: &Term) -> Result<Opened, AllocError>
        requires { named_type p.now ≡ Some bool_type }
        ensures opened { IfOk result (λ o. (names : List Nameless) → AreAlike (map (nameless []) avoid.items) names → opened names (nameless [] p.now) ≡ record { variables = o.variables.items; body = nameless [] o.body }) }
        ensures apart { IfOk result (λ o. (v : List ℕ × TypeTree) → binds o.variables.items v ≡ true → is_taken (map (nameless []) avoid.items) v.0 ≡ false) }
        ensures different { IfOk result (λ o. DifferInNames o.variables.items) }
        ensures free { IfOk result (λ o. (v : List ℕ × TypeTree) → binds (free_occurrences (nameless [] o.body)) v ≡ true → (binds o.variables.items v || binds (free_occurrences (nameless [] p.now)) v) ≡ true) }
        ensures typed { IfOk result (λ o. named_type o.body ≡ Some bool_type) }
        ensures last { IfOk result (λ o. dest_forall (nameless [] o.body) ≡ None) }
    {
        let mut avoid = avoid;
        let mut variables = Vec::new(alloc);
        let mut pairs = Vec::new(alloc);
        let mut rest = p;
        'binders: while let Some((x, q)) = dest_forall(rest) {
            let v = apart(alloc, &avoid, x)?;
            put_apart(alloc, v, x, &mut avoid, &mut pairs, &mut variables)?;
            rest = q;
        }
        let body = vsubst_good(alloc, &pairs, rest)?;
        Ok(Opened { variables, body })
    }
}

// Puts the variable that `x` is called at the end of what is to be avoided and of the variables, and the pair of it and `x` before the others.
fn put_apart(
    alloc: Global,
    v: Variable,
    x: &Variable,
    avoid: &mut Vec<Term>,
    pairs: &mut Vec<(Term, Term)>,
    variables: &mut Vec<Variable>,
) -> Result<(), AllocError>
    requires { v.1 ≡ x.now.1 }
    ensures avoid { OnOk result (avoid.new.items ≡ avoid.old.items ++ var v ∷ []) }
    ensures put { OnOk result (nameless_pairs pairs.new.items ≡ (free v, x.now) ∷ nameless_pairs pairs.old.items) }
    ensures good { OnOk result ((HasBadPair pairs.old.items → ⊥) → HasBadPair pairs.new.items → ⊥) }
    ensures variables { OnOk result (variables.new.items ≡ variables.old.items ++ v ∷ []) }
{
    put_occurrence(alloc, &v, x, avoid, pairs)?;
    variables.push(v)?;
    Ok(())
}

// Puts the variable, as a term, at the end of what is to be avoided, and the pair of it and `x` before the others.
fn put_occurrence(
    alloc: Global,
    v: &Variable,
    x: &Variable,
    avoid: &mut Vec<Term>,
    pairs: &mut Vec<(Term, Term)>,
) -> Result<(), AllocError>
    requires { v.now.1 ≡ x.now.1 }
    ensures avoid { OnOk result (avoid.new.items ≡ avoid.old.items ++ var v.now ∷ []) }
    ensures put { OnOk result (nameless_pairs pairs.new.items ≡ (free v.now, x.now) ∷ nameless_pairs pairs.old.items) }
    ensures good { OnOk result ((HasBadPair pairs.old.items → ⊥) → HasBadPair pairs.new.items → ⊥) }
{
    let variable = occurrence(alloc, v)?;
    put_pair(alloc, pairs, &variable, x)?;
    avoid.push(variable)?;
    Ok(())
}

// Puts the pair of the term and the variable before the others.
fn put_pair(
    alloc: Global,
    pairs: &mut Vec<(Term, Term)>,
    t: &Term,
    x: &Variable,
) -> Result<(), AllocError>
    requires { named_type t.now ≡ Some x.now.1 }
    ensures put { OnOk result (nameless_pairs pairs.new.items ≡ (nameless [] t.now, x.now) ∷ nameless_pairs pairs.old.items) }
    ensures good { OnOk result ((HasBadPair pairs.old.items → ⊥) → HasBadPair pairs.new.items → ⊥) }
{
    let own = occurrence(alloc, x)?;
    pairs.insert(0, (t.copy()?, own))?;
    Ok(())
}

// The variable, whose name is its base with the fewest primes that make it no name of the terms.
fn apart(alloc: Global, avoid: &[Term], x: &Variable) -> Result<Variable, AllocError>
    ensures is { IfOk result (λ v. (names : List Nameless) → AreAlike (map (nameless []) avoid.now) names → v ≡ (free_name names (base_of x.now.0), x.now.1)) }
    ensures absent { IfOk result (λ v. is_taken (map (nameless []) avoid.now) v.0 ≡ false) }
{
    let base = Name::new(alloc, base_name(x.name().as_str()))?;
    let name = free_name(alloc, avoid, &base)?;
    Variable::new(&name, x.ty())
}
