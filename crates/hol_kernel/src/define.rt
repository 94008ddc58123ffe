//! Definitions of constants.
ghost use Rattle.std.specs.Prelude.{◌≡◌, IfOk, Some, []};
ghost use Rattle.hol_terms.specs.Named.{named_type};
ghost use Rattle.hol_terms.specs.Nameless.{nameless, fixed};
ghost use Rattle.hol_kernel.specs.Item.{defined_constant};
ghost use Rattle.hol_kernel.specs.Items.{Holds, IsSubset};
ghost use Rattle.hol_kernel.specs.Sequent.{no_hyps};
ghost use Rattle.hol_formulas.specs.Equation.{equation};
ghost use Rattle.hol_kernel.specs.Typing.{HasType};
ghost use Rattle.hol_kernel.specs.Theorem.{theorem_over};
ghost use Rattle.hol_kernel.specs.Extends.{IsDefine};
ghost use Rattle.hol_kernel.specs.Gives.{GivesSome, in_kernel};
ghost use Rattle.hol_kernel.specs.Defining.{is_definable};
ghost use Rattle.hol_kernel.specs.declared.error.Rule.TheVariants as rule;

use crate::basis::Basis;
use crate::error::{KernelError, Rule};
use crate::item::Item;
use crate::item_kind::ItemKind;
use crate::thm::Thm;
use hol_formulas::{constant, mk_eq};
use hol_subst::{has_tyvars_in, is_closed};
use hol_terms::Term;
use hol_types::{Name, Ty};
use std::alloc::{AllocError, Global};

impl Basis {
    /// The basis with the constant `c` defined as the term `r`, and `|- c = r` over it (fusion.ml, new_basic_definition).
    ///
    /// Refused by [`Rule::Define`] where the name is not new among constants, where `r` is not well typed over the basis or not
    /// closed, and where a type variable of `r` does not occur in its type.
    pub fn define(
        &self,
        alloc: Global,
        name: &Name,
        right: &Term,
    ) -> Result<(Basis, Thm), KernelError>
        ensures made { GivesSome in_kernel rule.Define (λ made. IsDefine self.now name.now (nameless [] right.now) made.0 made.1) result }
        ensures larger { IfOk result (λ made. IsSubset self.now made.0) }
    {
        if !self.is_new(ItemKind::Constant, name) {
            return Err(KernelError::Refused(Rule::Define));
        }
        let ty = right.type_of();
        let fits = self.is_definable(alloc, right, ty)?;
        if !fits {
            return Err(KernelError::Refused(Rule::Define));
        }
        let item = Item::defined(alloc, name, right)?;
        let basis = self.extended(alloc, item)?;
        let th = basis.definition(alloc, name, right, ty)?;
        Ok((basis, th))
    }

    // Whether the term of this type may define a constant.
    fn is_definable(&self, alloc: Global, right: &Term, ty: &Ty) -> Result<bool, AllocError>
        ensures { IfOk result (λ is. is ≡ is_definable self.now (nameless [] right.now) ty.now) }
    {
        if !self.is_typed(alloc, right)? {
            return Ok(false);
        }
        if !is_closed(alloc, right)? {
            return Ok(false);
        }
        has_tyvars_in(alloc, right, ty)
    }

    // The definition of the constant, which the basis has: `|- c = r`.
    fn definition(
        &self,
        alloc: Global,
        name: &Name,
        right: &Term,
        ty: &Ty,
    ) -> Result<Thm, AllocError>
        requires holds { Holds self.now (defined_constant name.now (nameless [] right.now)) }
        requires known { HasType self.now (nameless [] right.now) ty.now }
        requires typed { named_type right.now ≡ Some ty.now }
        ensures { IfOk result (λ th. th ≡ theorem_over self.now no_hyps (equation ty.now (fixed name.now ty.now) (nameless [] right.now))) }
    {
        let left = constant(alloc, name, ty)?;
        let concl = mk_eq(alloc, ty, &left, right)?;
        Thm::unconditional(self, concl)
    }
}
