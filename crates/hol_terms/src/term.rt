//! Terms. Contracts see a term as a named tree, and state what they say of bound variables on its nameless term.
ghost use Rattle.std.specs.Prelude.{◌≡◌, ℕ, List, [], ◌∷◌, ◌↔◌, IfOk, IsErrOf, IsTrue, MatchOption, OnOk, bytes_eq, Some, None, min};
ghost use Rattle.hol_terms.specs.Named.{Named, var, constant, comb, abs, named_type, applied_type};
ghost use Rattle.hol_types.specs.Tree.{TypeTree};
ghost use Rattle.hol_terms.specs.Nameless.{nameless, nameless_type, base_of, free_occurrences};
ghost use Rattle.hol_terms.specs.Scoped.{binds, AgreeBut, same_named, add_all, occurs_in};
ghost use Rattle.hol_terms.specs.Scope.{binders};
ghost use Rattle.hol_terms.specs.Alpha.{strip, alpha_eq};
ghost use Rattle.hol_terms.specs.Size.{named_size, term_size};
ghost use Rattle.hol_terms.specs.Filter.{filter_of, type_filter_of, constant_filter_of};
ghost use Rattle.hol_terms.specs.Basic.{is_basic_term};
ghost use Rattle.hol_terms.specs.View.{named_of};
ghost use Rattle.hol_terms.specs.declared.term.TermError.TheVariants.{Memory};

use crate::base::base_name;
use crate::basic::is_basic_constant;
use crate::lists::contains;
use crate::scope::{Scope, same_place, with_binders};
use crate::variable::Variable;
use hol_mark::Mark;
use hol_types::{Name, NameFilter, Ty};
use std::alloc::{AllocError, Global};
use std::marker::Model;
use std::rc::Rc;
use thiserror::Error;

/// Why a term was not made.
#[derive(Clone, Copy, Debug, PartialEq, Eq, Error)]
pub enum TermError {
    /// The first term's type is no function type, or its domain is not the second term's type.
    #[error("the types do not fit")]
    TypesDontFit,
    /// What an abstraction is to bind is not a variable.
    #[error("not a variable")]
    NotAVariable,
    /// There is no memory left.
    #[error("out of memory")]
    Memory,
}

impl From<AllocError> for TermError {
    ghost from_gives = { λ _ e. e ≡ Memory };

    fn from(_e: AllocError) -> TermError {
        TermError::Memory
    }
}

/// A well typed term. Copies share their nodes.
#[cycle(term)]
#[derive(Drop)]
pub struct Term {
    shared: Rc<TermShared>,
}

// What the copies of a term share: its top node, its type, filters of its free variables, of its type variables and of its constants, its
// size, the mark by which two copies are known to be of one term, and whether all its types and constants are the prelude's.
#[cycle(term)]
#[derive(Drop)]
struct TermShared {
    node: TermNode,
    ty: Ty,
    filter: NameFilter,
    type_filter: NameFilter,
    constants: NameFilter,
    // From here on 8 bytes: the small ones side by side.
    size: u32,
    mark: Mark,
    basic: bool,
}

/// The top node of a term.
#[cycle(term)]
#[derive(Drop)]
pub enum TermNode {
    /// A variable.
    Var(Variable),
    /// A constant: its name and its type.
    Const(Name, Ty),
    /// An application of the first to the second.
    Comb(Term, Term),
    /// An abstraction: the bound variable and the body.
    Abs(Variable, Term),
}

impl Model for Term {
    ghost use Rattle.std.specs.Prelude.{◌≡◌, Some, min};
    ghost use Rattle.hol_terms.specs.Named.{Named, named_type, term_nodes};
    ghost use Rattle.hol_terms.specs.Size.{named_size};
    ghost use Rattle.hol_terms.specs.Filter.{filter_of, type_filter_of, constant_filter_of};
    ghost use Rattle.hol_terms.specs.Basic.{is_basic_term};
    ghost use Rattle.hol_terms.specs.Code.{coded_named, named_code};

    ghost Value = { Named };

    ghost coded = { coded_named };

    ghost use Rattle.hol_terms.specs.View.{named_of};

    ghost view = { λ a. named_of a.shared.value.node };

    ghost invariant = { λ a. (a.shared.value.mark ≡ named_code (named_of a.shared.value.node)) × (named_type (named_of a.shared.value.node) ≡ Some a.shared.value.ty) × (a.shared.value.size ≡ min (named_size (named_of a.shared.value.node)) 20001) × (a.shared.value.filter.bits ≡ filter_of (named_of a.shared.value.node)) × (a.shared.value.type_filter.bits ≡ type_filter_of (named_of a.shared.value.node)) × (a.shared.value.basic ≡ is_basic_term (named_of a.shared.value.node)) × (a.shared.value.constants.bits ≡ constant_filter_of (named_of a.shared.value.node)) };

    ghost size = { term_nodes };

    ghost use Rattle.hol_terms.specs.Falls.{deep_le_nodes};

    ghost size_decreases = { λ a h. deep_le_nodes a.shared.value };
}

impl Term {
    /// The term that is this variable.
    pub fn var(alloc: Global, variable: &Variable) -> Result<Term, AllocError>
        ensures { IfOk result (λ t. t ≡ var variable.now) }
    {
        let ty = variable.ty().copy()?;
        Term::from_node(alloc, TermNode::Var(variable.copy()?), ty)
    }

    /// The constant of this name and type.
    pub fn constant(alloc: Global, name: &Name, ty: &Ty) -> Result<Term, AllocError>
        ensures { IfOk result (λ t. t ≡ constant name.now ty.now) }
    {
        let node = TermNode::Const(name.copy()?, ty.copy()?);
        Term::from_node(alloc, node, ty.copy()?)
    }

    /// The application of `f` to `x`.
    ///
    /// Answers `TypesDontFit` exactly where the type of `f` is no function type whose domain is the type of `x`.
    #[tactic(auto, using(crate::proofs::Typing::comb_type))]
    pub fn comb(alloc: Global, f: &Term, x: &Term) -> Result<Term, TermError>
        ensures ok { IfOk result (λ t. t ≡ comb f.now x.now) }
        ensures fits { IsErrOf result TermError.TypesDontFit ↔ (named_type (comb f.now x.now) ≡ None) }
        ensures no_other { ¬ (IsErrOf result TermError.NotAVariable) }
    {
        let Some(range) = applied(f.type_of(), x.type_of()) else {
            return Err(TermError::TypesDontFit);
        };
        Ok(Term::application_to(alloc, f, x, range)?)
    }

    /// The application of `f` to `x`, whose type is the domain of that of `f`: no types are compared.
    #[tactic(auto, using(crate::proofs::Typing::range_is))]
    pub fn application(alloc: Global, f: &Term, x: &Term) -> Result<Term, AllocError>
        requires { named_type (comb f.now x.now) ≡ None → ⊥ }
        ensures { IfOk result (λ t. t ≡ comb f.now x.now) }
    {
        let _argument = x.type_of();
        let Some((_domain, range)) = f.type_of().dest_fun() else {
            unreachable!()
        };
        Term::application_to(alloc, f, x, range)
    }

    /// The application of `f` to `x`, where its type is `range`: so no types are compared.
    pub fn application_to(alloc: Global, f: &Term, x: &Term, range: &Ty) -> Result<Term, AllocError>
        requires { named_type (comb f.now x.now) ≡ Some range.now }
        ensures { IfOk result (λ t. t ≡ comb f.now x.now) }
    {
        Term::application_of(alloc, f.copy()?, x.copy()?, range.copy()?)
    }

    /// [`Term::application_to`] of terms and a type that are handed over: nothing is copied.
    #[inline(always)]
    pub fn application_of(alloc: Global, f: Term, x: Term, range: Ty) -> Result<Term, AllocError>
        requires { named_type (comb f x) ≡ Some range }
        ensures { IfOk result (λ t. t ≡ comb f x) }
    {
        let filter = f.filter().union(x.filter());
        let type_filter = f.type_filter().union(x.type_filter());
        let constants = f.constants().union(x.constants());
        let size = (1 + f.size() + x.size()).min(LARGEST_SIZE);
        let basic = f.is_basic() && x.is_basic();
        let node = TermNode::Comb(f, x);
        let mark = Mark::about(&node);
        let shared = TermShared {
            node,
            ty: range,
            filter,
            type_filter,
            constants,
            size,
            mark,
            basic,
        };
        match Rc::new(alloc, shared) {
            Ok(shared) => Ok(Term { shared }),
            Err(_) => Err(AllocError),
        }
    }

    /// The abstraction of the variable that the term `variable` is, in `body`.
    ///
    /// Answers `NotAVariable` exactly where that term is no variable.
    #[tactic(auto, using(crate::proofs::Typing::abs_type))]
    pub fn abs(alloc: Global, variable: &Term, body: &Term) -> Result<Term, TermError>
        ensures ok { IfOk result (λ t. (v : List ℕ × TypeTree) × (variable.now ≡ var v) × (t ≡ abs v body.now)) }
        ensures not_variable { IsErrOf result TermError.NotAVariable ↔ ((v : List ℕ × TypeTree) → variable.now ≡ var v → ⊥) }
        ensures no_other { ¬ (IsErrOf result TermError.TypesDontFit) }
    {
        let TermNode::Var(v) = variable.node() else {
            return Err(TermError::NotAVariable);
        };
        Ok(Term::abstraction(alloc, v, body)?)
    }

    /// The abstraction of the variable `v` in `body`.
    #[tactic(auto, using(crate::proofs::Typing::abs_type))]
    pub fn abstraction(alloc: Global, v: &Variable, body: &Term) -> Result<Term, AllocError>
        ensures { IfOk result (λ t. t ≡ abs v.now body.now) }
    {
        let ty = Ty::fun(alloc, v.ty(), body.type_of())?;
        let node = TermNode::Abs(v.copy()?, body.copy()?);
        Term::from_node(alloc, node, ty)
    }

    // The term with this top node, whose type is `ty`. Applications, of which there are most, are made at once (`application_to`).
    fn from_node(alloc: Global, node: TermNode, ty: Ty) -> Result<Term, AllocError>
        requires { named_type (named_of node) ≡ Some ty }
        ensures { IfOk result (λ t. t ≡ named_of node) }
    {
        let filter = node.filter();
        let type_filter = node.type_filter();
        let constants = node.constants();
        let size = node.size();
        let mark = Mark::about(&node);
        let basic = node.is_basic();
        let shared = TermShared {
            node,
            ty,
            filter,
            type_filter,
            constants,
            size,
            mark,
            basic,
        };
        match Rc::new(alloc, shared) {
            Ok(shared) => Ok(Term { shared }),
            Err(_) => Err(AllocError),
        }
    }

    /// The same term, sharing its nodes. An error says that no count is left for one more copy.
    pub fn copy(&self) -> Result<Term, AllocError>
        ensures { IfOk result (λ t. t ≡ self.now) }
    {
        Ok(Term {
            shared: self.shared.clone()?,
        })
    }

    /// The top node, with its parts by reference.
    pub fn node(&self) -> &TermNode
        ensures { named_of result.now ≡ self.now }
    {
        &self.shared.node
    }

    /// The type of the term. Each term keeps it, so this is at once and takes no memory.
    #[tactic(auto, using(crate::proofs::Typing::type_outside))]
    pub fn type_of(&self) -> &Ty
        ensures named { named_type self.now ≡ Some result.now }
        ensures nameless { nameless_type [] (nameless [] self.now) ≡ Some result.now }
    {
        &self.shared.ty
    }

    /// Whether the two have one top node. Where they don't, they may still be equal.
    ///
    /// Takes no memory, and no more time for a larger term.
    pub fn same_node(&self, other: &Term) -> bool
        ensures { IsTrue result → self.now ≡ other.now }
    {
        self.shared.mark.same(&other.shared.mark)
    }

    /// Whether the two are equal as nameless terms, base names of bound variables included.
    ///
    /// Takes no memory. Terms of different sizes are told apart at once. Else both are walked up to the first difference, but for parts
    /// where both have one node under binders that give it one meaning.
    #[tactic(auto, using(crate::proofs::Same::same_terms_decides, crate::proofs::Size::same_sizes, crate::proofs::SameNode::agree_outside))]
    pub fn same(&self, other: &Term) -> bool
        ensures { IsTrue result ↔ (nameless [] self.now ≡ nameless [] other.now) }
    {
        let none = NameFilter::empty();
        self.size() == other.size()
            && self.same_under(&Scope::Outside, other, &Scope::Outside, none, true)
    }

    /// Whether the two are alpha equivalent: equal as nameless terms where base names are left out.
    ///
    /// Takes no memory. Terms of different sizes are told apart at once. Else both are walked up to the first difference, but for parts
    /// where both have one node under binders that give it one meaning.
    #[tactic(auto, using(crate::proofs::Alpha::alpha_equivalence, crate::proofs::Size::alpha_sizes, crate::proofs::SameNode::agree_outside))]
    pub fn alpha_equivalent(&self, other: &Term) -> bool
        ensures test { result ≡ alpha_eq (nameless [] self.now) (nameless [] other.now) }
        ensures equal { IsTrue result ↔ (strip (nameless [] self.now) ≡ strip (nameless [] other.now)) }
    {
        let none = NameFilter::empty();
        self.size() == other.size()
            && self.same_under(&Scope::Outside, other, &Scope::Outside, none, false)
    }

    // Whether the two agree under their binders, of which those that differ have names among `apart`. Base names count only where
    // `with_bases` says so.
    #[tactic(auto, using(crate::proofs::SameNode::same_alike, crate::proofs::SameNode::agree_inside))]
    fn same_under(
        &self,
        left: &Scope,
        other: &Term,
        right: &Scope,
        apart: NameFilter,
        with_bases: bool,
    ) -> bool
        requires { AgreeBut apart.bits (binders left.now) (binders right.now) }
        ensures { result ≡ same_named with_bases (binders left.now) self.now (binders right.now) other.now }
    {
        if !self.filter().meets(apart) && self.same_node(other) {
            return true;
        }
        match (&self.shared.node, &other.shared.node) {
            (TermNode::Var(v), TermNode::Var(w)) => same_place(left, v, right, w),
            (TermNode::Const(c, s), TermNode::Const(d, t)) => c.same(d) && s.same(t),
            (TermNode::Comb(f, x), TermNode::Comb(g, y)) => {
                f.same_under(left, g, right, apart, with_bases)
                    && x.same_under(left, y, right, apart, with_bases)
            }
            (TermNode::Abs(v, b), TermNode::Abs(w, c)) => {
                let inside = with_binders(apart, v, w);
                let left = &Scope::Inside(v, &*left);
                let right = &Scope::Inside(w, &*right);
                (!with_bases || same_base(v.name(), w.name()))
                    && v.ty().same(w.ty())
                    && b.same_under(left, c, right, inside, with_bases)
            }
            _ => false,
        }
    }

    /// The size: a variable, also a bound occurrence, or a constant counts 1 and its type's nodes, an application 1 and both
    /// parts, an abstraction 1, the nodes of the bound variable's type, and the body. Answers the count, or 20,001 for more.
    ///
    /// Takes no memory. Each term keeps it, so this is at once.
    #[tactic(auto, using(crate::proofs::Size::size_is))]
    pub fn size(&self) -> u32
        ensures named { result ≡ min (named_size self.now) 20001 }
        ensures size { result ≡ min (term_size [] (nameless [] self.now)) 20001 }
    {
        self.shared.size
    }

    /// Whether the variable occurs free.
    ///
    /// Takes no memory. Parts that `may_have_free` excludes are passed over.
    #[tactic(auto, using(crate::proofs::Occurs::occurs_is))]
    pub fn vfree_in(&self, v: &Variable) -> bool
        ensures named { result ≡ occurs_in v.now self.now }
        ensures free { result ≡ binds (free_occurrences (nameless [] self.now)) v.now }
    {
        self.occurs(v)
    }

    // The recursion of `vfree_in`.
    fn occurs(&self, v: &Variable) -> bool
        ensures { result ≡ occurs_in v.now self.now }
    {
        if !self.may_have_free(v) {
            return false;
        }
        match &self.shared.node {
            TermNode::Var(w) => w.same(v),
            TermNode::Const(_, _) => false,
            TermNode::Comb(f, x) => f.occurs(v) || x.occurs(v),
            TermNode::Abs(w, b) => !w.same(v) && b.occurs(v),
        }
    }

    /// Whether the variable may occur free: where it does, the answer is `true`. So `false` says that it doesn't, and spares a walk.
    ///
    /// Takes no memory and no more time for a larger term: each term keeps 64 bits, of which each variable's name has one.
    #[tactic(auto, using(crate::proofs::Filters::occurs_filter))]
    pub fn may_have_free(&self, v: &Variable) -> bool
        ensures { IsTrue (occurs_in v.now self.now) → IsTrue result }
    {
        self.shared.filter.meets(v.filter())
    }

    /// A set that has the names of the free variables, and may have others. Each term keeps it, so this is at once.
    pub fn filter(&self) -> NameFilter
        ensures { result.bits ≡ filter_of self.now }
    {
        self.shared.filter
    }

    /// A set that has the names of the variables of the types in the term, and may have others. Each term keeps it, so this is at
    /// once.
    pub fn type_filter(&self) -> NameFilter
        ensures { result.bits ≡ type_filter_of self.now }
    {
        self.shared.type_filter
    }

    /// A set that has the names of the constants in the term, and may have others. Each term keeps it, so this is at once.
    pub fn constants(&self) -> NameFilter
        ensures { result.bits ≡ constant_filter_of self.now }
    {
        self.shared.constants
    }

    /// Whether all types and constants of the term are the prelude's, each constant at an instance of its generic type: so the term is
    /// well typed over every basis. Each term keeps it, so this is at once.
    pub fn is_basic(&self) -> bool
        ensures { result ≡ is_basic_term self.now }
    {
        self.shared.basic
    }

    /// The free variables, each once, by first occurrence.
    pub fn frees(&self, alloc: Global) -> Result<Vec<Variable>, AllocError>
        ensures { IfOk result (λ vs. vs.items ≡ add_all [] (free_occurrences (nameless [] self.now))) }
    {
        let mut found = Vec::new(alloc);
        self.add_frees(&Scope::Outside, &mut found)?;
        Ok(found)
    }

    // Puts each variable that is free under the binders, and not there yet, at the end.
    #[tactic(auto, using(crate::proofs::Frees::collecting))]
    fn add_frees(&self, scope: &Scope, found: &mut Vec<Variable>) -> Result<(), AllocError>
        ensures { OnOk result (found.new.items ≡ add_all found.old.items (free_occurrences (nameless (binders scope.now) self.now))) }
    {
        match &self.shared.node {
            TermNode::Var(v) => {
                if !scope.binds(v) && !contains(found, v) {
                    found.push(v.copy()?)?;
                }
                Ok(())
            }
            TermNode::Const(_, _) => Ok(()),
            TermNode::Comb(f, x) => {
                f.add_frees(scope, found)?;
                x.add_frees(scope, found)
            }
            TermNode::Abs(v, b) => b.add_frees(&Scope::Inside(v, &*scope), found),
        }
    }
}

// The most that a size says.
const LARGEST_SIZE: u32 = 20_001;

impl TermNode {
    // The size of the term with this top node.
    fn size(&self) -> u32
        ensures { result ≡ min (named_size (named_of self.now)) 20001 }
    {
        let parts = match self {
            TermNode::Var(v) => v.ty().size(),
            TermNode::Const(_, ty) => ty.size(),
            TermNode::Comb(f, x) => f.size() + x.size(),
            TermNode::Abs(v, b) => v.ty().size() + b.size(),
        };
        (1 + parts).min(LARGEST_SIZE)
    }

    // The filter of the term with this top node. A bound variable's name stays in it: another free variable may have its place.
    fn filter(&self) -> NameFilter
        ensures { result.bits ≡ filter_of (named_of self.now) }
    {
        match self {
            TermNode::Var(v) => v.filter(),
            TermNode::Const(_, _) => NameFilter::empty(),
            TermNode::Comb(f, x) => f.filter().union(x.filter()),
            TermNode::Abs(_, b) => b.filter(),
        }
    }

    // The filter of the type variables of the term with this top node.
    fn type_filter(&self) -> NameFilter
        ensures { result.bits ≡ type_filter_of (named_of self.now) }
    {
        match self {
            TermNode::Var(v) => v.ty().filter(),
            TermNode::Const(_, ty) => ty.filter(),
            TermNode::Comb(f, x) => f.type_filter().union(x.type_filter()),
            TermNode::Abs(v, b) => v.ty().filter().union(b.type_filter()),
        }
    }

    // The filter of the constants of the term with this top node.
    fn constants(&self) -> NameFilter
        ensures { result.bits ≡ constant_filter_of (named_of self.now) }
    {
        match self {
            TermNode::Var(_) => NameFilter::empty(),
            TermNode::Const(name, _) => NameFilter::of_name(name),
            TermNode::Comb(f, x) => f.constants().union(x.constants()),
            TermNode::Abs(_, b) => b.constants(),
        }
    }

    // Whether all types and constants of the term with this top node are the prelude's.
    fn is_basic(&self) -> bool
        ensures { result ≡ is_basic_term (named_of self.now) }
    {
        match self {
            TermNode::Var(v) => v.ty().is_basic(),
            TermNode::Const(c, ty) => ty.is_basic() && is_basic_constant(c, ty),
            TermNode::Comb(f, x) => f.is_basic() && x.is_basic(),
            TermNode::Abs(v, b) => v.ty().is_basic() && b.is_basic(),
        }
    }
}

// Whether the names are the same but for primes at their ends.
fn same_base(a: &Name, b: &Name) -> bool
    ensures { result ≡ bytes_eq (base_of a.now) (base_of b.now) }
{
    base_name(a.as_str()) == base_name(b.as_str())
}

// The type of an application of a function of type `f` to an argument of type `x`.
fn applied<'a>(f: &'a Ty, x: &Ty) -> Option<&'a Ty>
    ensures { MatchOption result (applied_type f.now x.now ≡ None) (λ t. applied_type f.now x.now ≡ Some t.now) }
{
    let (domain, range) = f.dest_fun()?;
    if domain.same(x) { Some(range) } else { None }
}
