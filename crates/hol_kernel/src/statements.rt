//! The definitions and axioms of the prelude, as theorems.
ghost use Rattle.std.specs.Prelude.{◌≡◌, IfOk};
ghost use Rattle.hol_kernel.specs.Rules.{postulate_of};
ghost use Rattle.hol_kernel.specs.Items.{no_items};
ghost use Rattle.hol_kernel.specs.Theorem.{theorem_on};

use crate::basis::Basis;
use crate::thm::Thm;
use hol_formulas::{Postulate, statement};
use std::alloc::{AllocError, Global};

impl Thm {
    /// A definition or an axiom of the prelude (bool.ml, class.ml, nums.ml), over the basis without items.
    pub fn prelude(alloc: Global, which: Postulate) -> Result<Thm, AllocError>
        ensures { IfOk result (λ th. th ≡ theorem_on no_items (postulate_of which)) }
    {
        let concl = statement(alloc, which)?;
        let basis = Basis::empty(alloc)?;
        Thm::unconditional(&basis, concl)
    }
}
