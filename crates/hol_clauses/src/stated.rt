//! Theorems of statements that have derivations.
ghost use Rattle.std.specs.Prelude.{◌≡◌, [], IfOk, Some};
ghost use Rattle.hol_terms.specs.Named.{named_type};
ghost use Rattle.hol_terms.specs.Nameless.{nameless};
ghost use Rattle.hol_formulas.specs.Equation.{bool_type};
ghost use Rattle.hol_formulas.specs.Written.{written_term};
ghost use Rattle.hol_kernel.specs.Derivation.{Derives};
ghost use Rattle.hol_kernel.specs.Items.{no_items};
ghost use Rattle.hol_kernel.specs.Sequent.{no_hyps};
ghost use Rattle.hol_clauses.specs.Statements.{stated};

use hol_formulas::{Written, written_term};
use hol_kernel::{Basis, Thm};
use hol_subst::Hypotheses;
use std::alloc::{AllocError, Global};

/// The theorem of the statement, which has a derivation over no items.
pub(crate) fn theorem(alloc: Global, statement: &Written<'_>) -> Result<Thm, AllocError>
    requires typed { named_type (written_term statement.now) ≡ Some bool_type }
    requires derived { Derives no_items no_hyps (nameless [] (written_term statement.now)) }
    ensures { IfOk result (λ th. th ≡ stated (written_term statement.now)) }
{
    let basis = Basis::empty(alloc)?;
    let concl = written_term(alloc, statement)?;
    Thm::closed(&basis, Hypotheses::none(), concl)
}
