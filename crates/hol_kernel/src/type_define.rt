//! Definitions of types.
ghost use Rattle.std.specs.Prelude.{◌≡◌, IfOk, IfSome, MatchOption, Some, []};
ghost use Rattle.hol_types.specs.Fun.{fun_type};
ghost use Rattle.hol_terms.specs.Named.{named_type};
ghost use Rattle.hol_terms.specs.Nameless.{Nameless, nameless};
ghost use Rattle.hol_kernel.specs.Item.{defined_type};
ghost use Rattle.hol_kernel.specs.Items.{Holds, IsSubset};
ghost use Rattle.hol_kernel.specs.Sequent.{no_hyps};
ghost use Rattle.hol_formulas.specs.Equation.{bool_type};
ghost use Rattle.hol_kernel.specs.Signature.{term_tyvars, new_type};
ghost use Rattle.hol_kernel.specs.Typing.{HasType};
ghost use Rattle.hol_kernel.specs.Bijections.{abs_rep, rep_abs};
ghost use Rattle.hol_kernel.specs.Theorem.{theorem_over};
ghost use Rattle.hol_kernel.specs.Extends.{IsTypeDefine};
ghost use Rattle.hol_kernel.specs.Gives.{GivesSome, in_kernel};
ghost use Rattle.hol_kernel.specs.Defining.{are_new_names, IsMembership};
ghost use Rattle.hol_kernel.specs.declared.error.Rule.TheVariants as rule;

use crate::basis::Basis;
use crate::error::{KernelError, Rule};
use crate::item::{Item, ItemNode, new_type};
use crate::item_kind::ItemKind;
use crate::thm::Thm;
use crate::type_definition::TypeDefinition;
use hol_subst::{is_closed, term_tyvars};
use hol_terms::{Term, TermNode};
use hol_types::{Name, Ty};
use std::alloc::{AllocError, Global};

// The predicate of a theorem `|- P x`, and the type that it is about.
#[derive(Clone, Copy)]
struct Predicate<'a> {
    term: &'a Term,
    domain: &'a Ty,
}

// What the theorems of a type definition speak of.
#[derive(Clone, Copy)]
struct NewType<'a> {
    // The type constructor, the constant to the new type and the one from it.
    name: &'a Name,
    abs: &'a Name,
    rep: &'a Name,
    // The predicate of the members.
    predicate: Predicate<'a>,
}

impl Basis {
    /// The basis with a type constructor of this name, whose values stand for those that a predicate `P` has, with the constants `abs`
    /// to the new type and `rep` from it, and what these satisfy, for a theorem `|- P x` (fusion.ml, new_basic_type_definition). The
    /// parameters of the type are the type variables of `P`, by bytes.
    ///
    /// Refused by [`Rule::TypeDefine`] where the theorem has a hypothesis or its conclusion is no application, where a variable is free
    /// in `P`, where a name is not new in its kind, and where `abs` and `rep` are the same.
    pub fn type_define(
        &self,
        alloc: Global,
        name: &Name,
        abs: &Name,
        rep: &Name,
        th: &Thm,
    ) -> Result<TypeDefinition, KernelError>
        requires within { IsSubset th.now.basis self.now }
        ensures made { GivesSome in_kernel rule.TypeDefine (λ made. IsTypeDefine self.now name.now abs.now rep.now th.now made.basis made.abs_rep made.rep_abs) result }
        ensures larger { IfOk result (λ made. IsSubset self.now made.basis) }
    {
        th.promise();
        if !self.are_new(name, abs, rep) {
            return Err(KernelError::Refused(Rule::TypeDefine));
        }
        let Some(predicate) = predicate_of(th) else {
            return Err(KernelError::Refused(Rule::TypeDefine));
        };
        let closed = is_closed(alloc, predicate.term)?;
        if !closed {
            return Err(KernelError::Refused(Rule::TypeDefine));
        }
        let new = NewType {
            name,
            abs,
            rep,
            predicate,
        };
        let item = type_item(alloc, &new)?;
        let basis = self.extended(alloc, item)?;
        Ok(basis.type_definition(alloc, &new)?)
    }

    // Whether the names of a type and of two different constants are new.
    fn are_new(&self, name: &Name, abs: &Name, rep: &Name) -> bool
        ensures { result ≡ are_new_names self.now name.now abs.now rep.now }
    {
        if !self.is_new(ItemKind::Type, name) || !self.is_new(ItemKind::Constant, abs) {
            return false;
        }
        self.is_new(ItemKind::Constant, rep) && !abs.same(rep)
    }

    // The basis, which has the type definition, with what this says.
    fn type_definition(self, alloc: Global, new: &NewType<'_>) -> Result<TypeDefinition, AllocError>
        requires holds { Holds self (defined_type new.now.name.now new.now.abs.now new.now.rep.now (nameless [] new.now.predicate.term.now)) }
        requires known { HasType self (nameless [] new.now.predicate.term.now) (fun_type new.now.predicate.domain.now bool_type) }
        requires typed { named_type new.now.predicate.term.now ≡ Some (fun_type new.now.predicate.domain.now bool_type) }
        ensures basis { IfOk result (λ made. made.basis ≡ self) }
        ensures first { IfOk result (λ made. made.abs_rep ≡ theorem_over self no_hyps (abs_rep new.now.abs.now new.now.rep.now new.now.predicate.domain.now (new_type new.now.name.now (term_tyvars (nameless [] new.now.predicate.term.now))))) }
        ensures second { IfOk result (λ made. made.rep_abs ≡ theorem_over self no_hyps (rep_abs new.now.abs.now new.now.rep.now (nameless [] new.now.predicate.term.now) new.now.predicate.domain.now (new_type new.now.name.now (term_tyvars (nameless [] new.now.predicate.term.now))))) }
    {
        let ty = type_made(alloc, new)?;
        let abs_rep = self.abs_rep(alloc, new, &ty)?;
        let rep_abs = self.rep_abs(alloc, new, &ty)?;
        Ok(TypeDefinition {
            basis: self,
            abs_rep,
            rep_abs,
        })
    }

    // What the type definition that the basis has says first: `|- abs (rep a) = a`.
    fn abs_rep(&self, alloc: Global, new: &NewType<'_>, ty: &Ty) -> Result<Thm, AllocError>
        requires holds { Holds self.now (defined_type new.now.name.now new.now.abs.now new.now.rep.now (nameless [] new.now.predicate.term.now)) }
        requires known { HasType self.now (nameless [] new.now.predicate.term.now) (fun_type new.now.predicate.domain.now bool_type) }
        requires made { ty.now ≡ new_type new.now.name.now (term_tyvars (nameless [] new.now.predicate.term.now)) }
        ensures { IfOk result (λ th. th ≡ theorem_over self.now no_hyps (abs_rep new.now.abs.now new.now.rep.now new.now.predicate.domain.now ty.now)) }
    {
        let concl = hol_formulas::abs_rep(alloc, new.abs, new.rep, new.predicate.domain, ty)?;
        Thm::unconditional(self, concl)
    }

    // What the type definition that the basis has says second: `|- P r = (rep (abs r) = r)`.
    fn rep_abs(&self, alloc: Global, new: &NewType<'_>, ty: &Ty) -> Result<Thm, AllocError>
        requires holds { Holds self.now (defined_type new.now.name.now new.now.abs.now new.now.rep.now (nameless [] new.now.predicate.term.now)) }
        requires known { HasType self.now (nameless [] new.now.predicate.term.now) (fun_type new.now.predicate.domain.now bool_type) }
        requires typed { named_type new.now.predicate.term.now ≡ Some (fun_type new.now.predicate.domain.now bool_type) }
        requires made { ty.now ≡ new_type new.now.name.now (term_tyvars (nameless [] new.now.predicate.term.now)) }
        ensures { IfOk result (λ th. th ≡ theorem_over self.now no_hyps (rep_abs new.now.abs.now new.now.rep.now (nameless [] new.now.predicate.term.now) new.now.predicate.domain.now ty.now)) }
    {
        let predicate = new.predicate;
        let concl = hol_formulas::rep_abs(
            alloc,
            new.abs,
            new.rep,
            predicate.term,
            predicate.domain,
            ty,
        )?;
        Thm::unconditional(self, concl)
    }
}

// The predicate of a theorem `|- P x` without hypotheses.
#[tactic(auto, using(crate::proofs::TypeDefinitions::listed_hyps))]
fn predicate_of(th: &Thm) -> Option<Predicate<'_>>
    ensures found { MatchOption result ((p x : Nameless) → IsMembership th.now p x → ⊥) (λ predicate. (x : Nameless) × IsMembership th.now (nameless [] predicate.term.now) x) }
    ensures typed { IfSome result (λ predicate. named_type predicate.term.now ≡ Some (fun_type predicate.domain.now bool_type)) }
{
    if !th.hyps().is_empty() {
        return None;
    }
    let TermNode::Comb(term, _) = th.concl().node() else {
        return None;
    };
    let (domain, _) = term.type_of().dest_fun()?;
    Some(Predicate { term, domain })
}

// The type that a type definition makes: the constructor over the predicate's type variables.
fn type_made(alloc: Global, new: &NewType<'_>) -> Result<Ty, AllocError>
    ensures { IfOk result (λ ty. ty ≡ new_type new.now.name.now (term_tyvars (nameless [] new.now.predicate.term.now))) }
{
    let parameters = term_tyvars(alloc, new.predicate.term)?;
    new_type(alloc, new.name, &parameters)
}

// The item of a type definition.
fn type_item(alloc: Global, new: &NewType<'_>) -> Result<Item, AllocError>
    ensures { IfOk result (λ item. item ≡ defined_type new.now.name.now new.now.abs.now new.now.rep.now (nameless [] new.now.predicate.term.now)) }
{
    let parameters = term_tyvars(alloc, new.predicate.term)?;
    let node = ItemNode::DefinedType {
        name: new.name.copy()?,
        abs: new.abs.copy()?,
        rep: new.rep.copy()?,
        predicate: new.predicate.term.copy()?,
        parameters,
    };
    Item::made(alloc, node)
}
