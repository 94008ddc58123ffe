//! Instances: types for type variables and terms for variables.
ghost use Rattle.std.specs.Prelude.{◌≡◌, ◌++◌, ◌∷◌, [], IfOk, OnOk, MatchOption, if◌then◌else◌, Some, None};
ghost use Rattle.hol_terms.specs.Named.{named_type};
ghost use Rattle.hol_terms.specs.Nameless.{nameless};
ghost use Rattle.hol_subst.specs.Pairs.{nameless_pairs, HasBadPair};
ghost use Rattle.hol_subst.specs.Substitution.{term_lookup};
ghost use Rattle.hol_match.specs.Instance.{instance_of, instantiated, both};
ghost use Rattle.hol_match.specs.Fixed.{stays};
ghost use Rattle.hol_match.specs.Matching.{with_type};
ghost use Rattle.hol_match.specs.Places.{is_variable};

use crate::fixed::Fixed;
use crate::type_matching::match_into;
use hol_subst::{inst, vsubst_good};
use hol_terms::{Term, TermNode, Variable};
use hol_types::{Name, Ty};
use std::alloc::{AllocError, Global};
use std::marker::Model;

/// Types for type variables, as `inst` takes them, and then terms for variables, at the types that they have then, as `vsubst` takes
/// them. Each term has its variable's type.
#[derive(Drop)]
pub struct Instance {
    types: Vec<(Ty, Name)>,
    terms: Vec<(Term, Term)>,
}

impl Model for Instance {
    ghost use Rattle.hol_subst.specs.Pairs.{HasBadPair};
    ghost use Rattle.hol_match.specs.Instance.{InstanceValue, instance_code, instance_from};

    ghost Value = { InstanceValue };

    ghost coded = { instance_code };

    ghost view = { λ a. instance_from a.types.items a.terms.items };

    ghost invariant = { λ a. HasBadPair a.terms.items → ⊥ };
}

impl Instance {
    /// The instance that gives nothing.
    pub(crate) fn empty(alloc: Global) -> Instance
        ensures { result ≡ instance_of [] [] }
    {
        Instance {
            types: Vec::new(alloc),
            terms: Vec::new(alloc),
        }
    }

    /// An equal instance.
    pub fn copy(&self, alloc: Global) -> Result<Instance, AllocError>
        ensures { IfOk result (λ a. a ≡ self.now) }
    {
        let types = copied_types(alloc, &self.types)?;
        let terms = copied_terms(alloc, &self.terms)?;
        Ok(Instance { types, terms })
    }

    /// The types, each with the name of its type variable.
    pub fn types(&self) -> &[(Ty, Name)]
        ensures { result.now ≡ self.now.types }
    {
        self.types.as_slice()
    }

    /// The terms, each with its variable as a term.
    pub fn terms(&self) -> &[(Term, Term)]
        ensures terms { nameless_pairs result.now ≡ self.now.terms }
        ensures good { HasBadPair result.now → ⊥ }
    {
        self.terms.as_slice()
    }

    /// The term at the instance.
    pub fn apply(&self, alloc: Global, t: &Term) -> Result<Term, AllocError>
        ensures { IfOk result (λ r. nameless [] r ≡ instantiated self.now 0 (nameless [] t.now)) }
    {
        let typed = inst(alloc, &self.types, t)?;
        vsubst_good(alloc, &self.terms, &typed)
    }

    /// Whether a type of the pattern matches the target beside what was found so far. The types that it needs more are put at the end.
    #[inline(never)]
    pub(crate) fn match_type(
        &mut self,
        fixed: &Fixed,
        pattern: &Ty,
        target: &Ty,
    ) -> Result<bool, AllocError>
        ensures { IfOk result (λ fits. with_type pattern.now (both (stays fixed.now) self.old) target.now ≡ (if fits then Some (both (stays fixed.now) self.new) else None)) }
    {
        match_into(pattern, fixed, target, &mut self.types)
    }

    /// The term of the first pair of the variable.
    pub(crate) fn term_of(&self, v: &Variable) -> Option<&Term>
        ensures { MatchOption result (term_lookup self.now.terms v.now ≡ None) (λ t. term_lookup self.now.terms v.now ≡ Some (nameless [] t.now)) }
    {
        term_in(&self.terms, v)
    }

    /// Puts a term for a variable at the end.
    pub fn add_term(&mut self, alloc: Global, t: &Term, v: &Variable) -> Result<(), AllocError>
        requires { named_type t.now ≡ Some v.now.1 }
        ensures { OnOk result (self.new ≡ instance_of self.old.types (self.old.terms ++ (nameless [] t.now, v.now) ∷ [])) }
    {
        add_pair(alloc, &mut self.terms, t, v)
    }
}

// Puts a term for a variable at the end.
fn add_pair(
    alloc: Global,
    pairs: &mut Vec<(Term, Term)>,
    t: &Term,
    v: &Variable,
) -> Result<(), AllocError>
    requires { named_type t.now ≡ Some v.now.1 }
    ensures added { OnOk result (nameless_pairs pairs.new.items ≡ nameless_pairs pairs.old.items ++ (nameless [] t.now, v.now) ∷ []) }
    ensures good { (HasBadPair pairs.old.items → ⊥) → HasBadPair pairs.new.items → ⊥ }
{
    let variable = Term::var(alloc, v)?;
    pairs.push((t.copy()?, variable))?;
    Ok(())
}

// The term of the first pair of the variable.
fn term_in<'a>(pairs: &'a [(Term, Term)], v: &Variable) -> Option<&'a Term>
    ensures { MatchOption result (term_lookup (nameless_pairs pairs.now) v.now ≡ None) (λ t. term_lookup (nameless_pairs pairs.now) v.now ≡ Some (nameless [] t.now)) }
{
    for pair in pairs {
        if is_variable(&pair.1, v) {
            return Some(&pair.0);
        }
    }
    None
}

/// Whether the term is this variable. Most others are told apart by what terms keep of their names.
#[tactic(auto, using(crate::proofs::Lookups::other_variable))]
pub(crate) fn is_variable(t: &Term, v: &Variable) -> bool
    ensures { result ≡ is_variable t.now v.now }
{
    if !t.may_have_free(v) {
        return false;
    }
    match t.node() {
        TermNode::Var(w) => w.same(v),
        TermNode::Const(_, _) | TermNode::Comb(_, _) | TermNode::Abs(_, _) => false,
    }
}

// Copies of the types.
fn copied_types(alloc: Global, pairs: &[(Ty, Name)]) -> Result<Vec<(Ty, Name)>, AllocError>
    ensures { IfOk result (λ copies. copies.items ≡ pairs.now) }
{
    let mut copies = Vec::with_capacity(alloc, pairs.len())?;
    for pair in pairs {
        copies.push((pair.0.copy()?, pair.1.copy()?))?;
    }
    Ok(copies)
}

// Copies of the terms.
fn copied_terms(alloc: Global, pairs: &[(Term, Term)]) -> Result<Vec<(Term, Term)>, AllocError>
    ensures { IfOk result (λ copies. copies.items ≡ pairs.now) }
{
    let mut copies = Vec::with_capacity(alloc, pairs.len())?;
    for pair in pairs {
        copies.push((pair.0.copy()?, pair.1.copy()?))?;
    }
    Ok(copies)
}
