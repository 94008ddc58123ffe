//! Theorems that a basis says, and theorems over a larger basis.
ghost use Rattle.std.specs.Prelude.{◌≡◌, IfOk, MatchOption, Some, None, []};
ghost use Rattle.hol_terms.specs.Nameless.{nameless};
ghost use Rattle.hol_kernel.specs.Items.{IsSubset};
ghost use Rattle.hol_kernel.specs.Theorem.{theorem_on};
ghost use Rattle.hol_kernel.specs.Extends.{IsAxiomOf};
ghost use Rattle.hol_kernel.specs.Gives.{GivesSome, in_kernel};
ghost use Rattle.hol_kernel.specs.Clashing.{axiom_at, axiom_in};
ghost use Rattle.hol_kernel.specs.declared.error.Rule.TheVariants as rule;

use crate::basis::Basis;
use crate::error::{KernelError, Rule};
use crate::item::{Item, ItemNode};
use crate::thm::Thm;
use hol_terms::Term;
use hol_types::Name;
use std::alloc::AllocError;

impl Thm {
    /// The axiom of the name among the basis's items (fusion.ml, new_axiom): `|- p`.
    ///
    /// Refused by [`Rule::AxiomOf`] where there is none.
    pub fn axiom_of(basis: &Basis, name: &Name) -> Result<Thm, KernelError>
        ensures { GivesSome in_kernel rule.AxiomOf (IsAxiomOf basis.now name.now) result }
    {
        let Some(p) = find_axiom(basis.items(), name) else {
            return Err(KernelError::Refused(Rule::AxiomOf));
        };
        let concl = p.copy()?;
        Ok(Thm::unconditional(basis, concl)?)
    }

    /// The same sequent over a basis that contains the theorem's.
    pub fn widen(&self, basis: &Basis) -> Result<Thm, AllocError>
        requires within { IsSubset self.now.basis basis.now }
        ensures { IfOk result (λ th. th ≡ theorem_on basis.now self.now.sequent) }
    {
        self.promise();
        let hyps = self.hypotheses().copy()?;
        let concl = self.concl().copy()?;
        Thm::closed(basis, hyps, concl)
    }
}

impl Item {
    // The statement of the axiom of the name, if the item is it.
    fn axiom_named(&self, name: &Name) -> Option<&Term>
        ensures { MatchOption result (axiom_at name.now self.now ≡ None) (λ p. axiom_at name.now self.now ≡ Some (nameless [] p.now)) }
    {
        match self.node() {
            ItemNode::Axiom(own, p) => { if name.same(own) { Some(p) } else { None } }
            ItemNode::DeclaredType(..) => None,
            ItemNode::DeclaredConstant(..) => None,
            ItemNode::DefinedConstant(..) => None,
            ItemNode::DefinedType { .. } => None,
        }
    }
}

// The statement of the axiom of the name.
fn find_axiom<'a>(items: &'a [Item], name: &Name) -> Option<&'a Term>
    ensures { MatchOption result (axiom_in name.now items.now ≡ None) (λ p. axiom_in name.now items.now ≡ Some (nameless [] p.now)) }
{
    for item in items {
        if let Some(p) = item.axiom_named(name) {
            return Some(p);
        }
    }
    None
}
