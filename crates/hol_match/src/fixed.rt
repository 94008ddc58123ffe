//! What a match leaves as it is: the variables and the type variables of some terms.
ghost use Rattle.std.specs.Prelude.{◌≡◌, ◌∷◌, [], map, IfOk, OnOk, IsTrue, if◌then◌else◌, Some, None};
ghost use Rattle.std.specs.List.{list_all};
ghost use Rattle.hol_types.specs.Tree.{TyVar};
ghost use Rattle.hol_types.specs.Names.{is_among};
ghost use Rattle.hol_types.specs.Equal.{variable_eq};
ghost use Rattle.hol_types.specs.Subst.{type_lookup};
ghost use Rattle.hol_terms.specs.Nameless.{nameless, free};
ghost use Rattle.hol_terms.specs.Scoped.{add_all, add_new, binds};
ghost use Rattle.hol_subst.specs.Substitution.{term_lookup};
ghost use Rattle.hol_match.specs.Fixed.{AreFixed, all_stay, add_name, add_names, fixed_names, fixed_variables, stays, stays_of};

use hol_subst::term_tyvars;
use hol_terms::{Term, Variable};
use hol_types::{Name, is_among};
use std::alloc::{AllocError, Global};

/// The type variables and the free variables of some terms, each once: what a match leaves as it is.
#[derive(Drop)]
pub struct Fixed {
    names: Vec<Name>,
    variables: Vec<Variable>,
}

impl Fixed {
    /// The type variables and the free variables of the terms.
    pub fn of(alloc: Global, terms: &[Term]) -> Result<Fixed, AllocError>
        ensures kept { IfOk result (λ f. AreFixed (map (λ t. nameless [] t) terms.now) f) }
        ensures stays { IfOk result (λ f. stays f ≡ stays_of (map (λ t. nameless [] t) terms.now)) }
    {
        let names = names_of(alloc, terms)?;
        let variables = variables_of(alloc, terms)?;
        Ok(Fixed { names, variables })
    }

    /// Puts the variables that are not there at the end.
    #[tactic(auto, using(crate::proofs::Lookups::own_variables))]
    pub(crate) fn add_to(&self, variables: &mut Vec<Variable>) -> Result<(), AllocError>
        ensures { OnOk result (variables.new.items ≡ add_all variables.old.items (map (λ p. p.1) (stays self.now).terms)) }
    {
        add_variables(variables, &self.variables)
    }

    /// Whether these are the same, in one order.
    #[tactic(auto, using(crate::proofs::Lookups::same_stays))]
    pub(crate) fn is_same(&self, other: &Fixed) -> bool
        ensures { IsTrue result → stays self.now ≡ stays other.now }
    {
        are_same_names(&self.names, &other.names)
            && are_same_variables(&self.variables, &other.variables)
    }

    /// Whether the type variable is one of these.
    #[tactic(auto, using(crate::proofs::Lookups::own_type))]
    pub(crate) fn has_name(&self, name: &Name) -> bool
        ensures among { result ≡ is_among self.now.names.items name.now }
        ensures lookup { type_lookup (stays self.now).types name.now ≡ (if result then Some (TyVar name.now) else None) }
    {
        is_among(&self.names, name)
    }

    /// Whether the variable is one of these.
    #[tactic(auto, using(crate::proofs::Lookups::own_term))]
    pub(crate) fn has_variable(&self, v: &Variable) -> bool
        ensures among { result ≡ binds self.now.variables.items v.now }
        ensures lookup { term_lookup (stays self.now).terms v.now ≡ (if result then Some (free v.now) else None) }
    {
        has_variable(&self.variables, v)
    }

    /// Whether each variable and each type variable of the term is one of these.
    pub(crate) fn has_all(&self, alloc: Global, t: &Term) -> Result<bool, AllocError>
        ensures { IfOk result (λ b. b ≡ all_stay self.now.names.items self.now.variables.items (nameless [] t.now)) }
    {
        let variables = t.frees(alloc)?;
        if !has_variables(&self.variables, &variables) {
            return Ok(false);
        }
        let names = term_tyvars(alloc, t)?;
        Ok(has_names(&self.names, &names))
    }
}

// Whether the names are the same, in one order.
fn are_same_names(names: &[Name], others: &[Name]) -> bool
    ensures { IsTrue result → names.now ≡ others.now }
{
    if names.len() != others.len() {
        return false;
    }
    for (i, name) in names.iter().enumerate() {
        if !name.same(&others[i]) {
            return false;
        }
    }
    true
}

// Whether the variables are the same, in one order.
#[tactic(auto, using(crate::proofs::Lookups::equal_variables))]
fn are_same_variables(variables: &[Variable], others: &[Variable]) -> bool
    ensures { IsTrue result → variables.now ≡ others.now }
{
    if variables.len() != others.len() {
        return false;
    }
    for (i, v) in variables.iter().enumerate() {
        if !v.same(&others[i]) {
            return false;
        }
    }
    true
}

// Whether each of the variables is one of these.
fn has_variables(variables: &[Variable], own: &[Variable]) -> bool
    ensures { result ≡ list_all (binds variables.now) own.now }
{
    for v in own {
        if !has_variable(variables, v) {
            return false;
        }
    }
    true
}

// Whether each of the names is one of these.
fn has_names(names: &[Name], own: &[Name]) -> bool
    ensures { result ≡ list_all (is_among names.now) own.now }
{
    for name in own {
        if !is_among(names, name) {
            return false;
        }
    }
    true
}

// Whether the variable is one of these. Most others are told apart by what variables keep of their names.
fn has_variable(variables: &[Variable], v: &Variable) -> bool
    ensures { result ≡ binds variables.now v.now }
{
    for u in variables {
        if is_same(u, v) {
            return true;
        }
    }
    false
}

// Whether the two are the same.
fn is_same(u: &Variable, v: &Variable) -> bool
    ensures { result ≡ variable_eq u.now v.now }
{
    u.filter().same(v.filter()) && u.same(v)
}

// The type variables of the terms, each once.
fn names_of(alloc: Global, terms: &[Term]) -> Result<Vec<Name>, AllocError>
    ensures { IfOk result (λ names. names.items ≡ fixed_names [] (map (λ t. nameless [] t) terms.now)) }
{
    let mut names = Vec::new(alloc);
    for t in terms {
        let own = term_tyvars(alloc, t)?;
        add_names(&mut names, &own)?;
    }
    Ok(names)
}

// Puts the names that are not there at the end.
fn add_names(names: &mut Vec<Name>, own: &[Name]) -> Result<(), AllocError>
    ensures { OnOk result (names.new.items ≡ add_names names.old.items own.now) }
{
    for name in own {
        add_name(names, name)?;
    }
    Ok(())
}

// Puts the name at the end, unless it is there.
fn add_name(names: &mut Vec<Name>, name: &Name) -> Result<(), AllocError>
    ensures { OnOk result (names.new.items ≡ add_name names.old.items name.now) }
{
    if !is_among(names, name) {
        names.push(name.copy()?)?;
    }
    Ok(())
}

// The free variables of the terms, each once.
fn variables_of(alloc: Global, terms: &[Term]) -> Result<Vec<Variable>, AllocError>
    ensures { IfOk result (λ vs. vs.items ≡ fixed_variables [] (map (λ t. nameless [] t) terms.now)) }
{
    let mut variables = Vec::new(alloc);
    for t in terms {
        let own = t.frees(alloc)?;
        add_variables(&mut variables, &own)?;
    }
    Ok(variables)
}

/// Puts the variables that are not there at the end.
pub(crate) fn add_variables(
    variables: &mut Vec<Variable>,
    own: &[Variable],
) -> Result<(), AllocError>
    ensures { OnOk result (variables.new.items ≡ add_all variables.old.items own.now) }
{
    for v in own {
        add_variable(variables, v)?;
    }
    Ok(())
}

// Puts the variable at the end, unless it is there.
fn add_variable(variables: &mut Vec<Variable>, v: &Variable) -> Result<(), AllocError>
    ensures { OnOk result (variables.new.items ≡ add_new variables.old.items v.now) }
{
    if !has_variable(variables, v) {
        variables.push(v.copy()?)?;
    }
    Ok(())
}
