//! What the laws say of a program's theorems.
ghost use Rattle.hol_model.specs.Infinity.{NeedsInfinity, StatesFalsity, HasNoAxiom};

use hol_kernel::Thm;

/// A theorem that is `|- F`, on a basis without an axiom, has no derivation without INFINITY_AX, those of the members of its basis' types counted.
pub fn false_thm_needs_infinity(th: &Thm)
    ensures { StatesFalsity th.now → HasNoAxiom th.now.basis → NeedsInfinity th.now }
{}
