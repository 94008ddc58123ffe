//! Declarations: types, constants and axioms that a larger basis has.
ghost use Rattle.std.specs.Prelude.{◌≡◌, ◌&&◌, not, [], IfOk, Ok, Err};
ghost use Rattle.std.specs.List.{list_any};
ghost use Rattle.std.specs.List.Sorted.{IsStrictlySortedBy};
ghost use Rattle.hol_terms.specs.Nameless.{nameless};
ghost use Rattle.hol_kernel.specs.Signature.{has_key};
ghost use Rattle.hol_formulas.specs.Equation.{bool_type};
ghost use Rattle.hol_kernel.specs.Typing.{has_type};
ghost use Rattle.hol_kernel.specs.Items.{IsSubset, item_cmp};
ghost use Rattle.hol_kernel.specs.Extends.{IsDeclareType, IsDeclareConst, IsDeclareAxiom};
ghost use Rattle.hol_kernel.specs.Gives.{GivesSome, in_kernel};
ghost use Rattle.hol_kernel.specs.Clashing.{key_at, is_new};
ghost use Rattle.hol_kernel.specs.declared.error.Rule.TheVariants as rule;

use crate::basis::Basis;
use crate::error::{KernelError, Rule};
use crate::find::find_named;
use crate::item::{Item, ItemNode};
use crate::item_kind::ItemKind;
use crate::prelude;
use hol_terms::Term;
use hol_types::{Name, Ty};
use std::alloc::{AllocError, Global};

impl Basis {
    /// The basis with a type constructor of this arity more (fusion.ml, new_type).
    ///
    /// Refused by [`Rule::DeclareType`] where the name is not new among types.
    pub fn declare_type(&self, alloc: Global, name: &Name, arity: u32) -> Result<Basis, KernelError>
        ensures made { GivesSome in_kernel rule.DeclareType (IsDeclareType self.now name.now arity) result }
        ensures larger { IfOk result (λ more. IsSubset self.now more) }
    {
        if !self.is_new(ItemKind::Type, name) {
            return Err(KernelError::Refused(Rule::DeclareType));
        }
        let item = Item::made(alloc, ItemNode::DeclaredType(name.copy()?, arity))?;
        Ok(self.extended(alloc, item)?)
    }

    /// The basis with a constant of this generic type more (fusion.ml, new_constant).
    ///
    /// Refused by [`Rule::DeclareConst`] where the name is not new among constants, or the type is none over the basis.
    pub fn declare_const(&self, alloc: Global, name: &Name, ty: &Ty) -> Result<Basis, KernelError>
        ensures made { GivesSome in_kernel rule.DeclareConst (IsDeclareConst self.now name.now ty.now) result }
        ensures larger { IfOk result (λ more. IsSubset self.now more) }
    {
        if !self.is_new(ItemKind::Constant, name) {
            return Err(KernelError::Refused(Rule::DeclareConst));
        }
        if !self.is_type(ty) {
            return Err(KernelError::Refused(Rule::DeclareConst));
        }
        let item = Item::constant(alloc, name, ty)?;
        Ok(self.extended(alloc, item)?)
    }

    /// The basis with an axiom more (fusion.ml, new_axiom).
    ///
    /// Refused by [`Rule::DeclareAxiom`] where the name is not new among axioms, or `p` is not well typed over the basis, of type `bool`.
    pub fn declare_axiom(&self, alloc: Global, name: &Name, p: &Term) -> Result<Basis, KernelError>
        ensures made { GivesSome in_kernel rule.DeclareAxiom (IsDeclareAxiom self.now name.now (nameless [] p.now)) result }
        ensures larger { IfOk result (λ more. IsSubset self.now more) }
    {
        if !self.is_new(ItemKind::Axiom, name) {
            return Err(KernelError::Refused(Rule::DeclareAxiom));
        }
        let fits = self.is_formula(alloc, p)?;
        if !fits {
            return Err(KernelError::Refused(Rule::DeclareAxiom));
        }
        let item = Item::axiom(alloc, name, p)?;
        Ok(self.extended(alloc, item)?)
    }

    /// Whether the prelude and the items do not have the name, as one of this kind.
    pub fn is_new(&self, kind: ItemKind, name: &Name) -> bool
        ensures { result ≡ is_new self.now (key_at kind name.now) }
    {
        !prelude::has_name(kind, name) && !is_name_of(self.items(), kind, name)
    }

    /// Whether the term is well typed over the prelude and the items, of type `bool`.
    #[tactic(auto, using(crate::proofs::TermRules::type_tests))]
    pub fn is_formula(&self, alloc: Global, p: &Term) -> Result<bool, AllocError>
        ensures { IfOk result (λ is. is ≡ has_type self.now (nameless [] p.now) bool_type) }
    {
        if !hol_formulas::is_bool(p.type_of()) {
            return Ok(false);
        }
        self.is_typed(alloc, p)
    }
}

// Whether an item of the list has the name, as one of this kind.
fn is_name_of(items: &[Item], kind: ItemKind, name: &Name) -> bool
    requires { IsStrictlySortedBy item_cmp items.now }
    ensures { result ≡ list_any (λ x. has_key x (key_at kind name.now)) items.now }
{
    match find_named(items, kind, name) {
        Some(_item) => true,
        None => false,
    }
}
