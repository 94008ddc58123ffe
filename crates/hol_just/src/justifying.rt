//! Theorems of goals from those of the goals that are left.
ghost use Rattle.std.specs.Prelude.{◌≡◌, ◌++◌, IsSome, Some, IfOk, OnOk};
ghost use Rattle.std.specs.List.{AllByRecursion};
ghost use Rattle.hol_just.specs.Gives.{inferred_at, gives};
ghost use Rattle.hol_just.specs.Over.{AreOver, sequents};
ghost use Rattle.hol_just.specs.Reasons.{inference, Fits};
ghost use Rattle.hol_just.specs.Valid.{FitsAt};

use crate::cursor::Cursor;
use crate::just::Just;
use crate::reason::Move;
use crate::steps::infer;
use hol_kernel::{Basis, Thm};
use std::alloc::{AllocError, Global};

/// The theorems of the goals that there were, from those of the goals that are left: what the justification gives, over the basis, by its general theorems.
///
/// It has to give something, the bases of the theorems that it holds have to lie in the basis, and the theorems have to be over it. So it fails for
/// want of memory alone.
#[tactic(auto, using(crate::proofs::Moves::at_first, crate::proofs::Moves::next_gives, crate::proofs::Moves::gives_step, crate::proofs::Moves::fits_at))]
pub fn justify(
    alloc: Global,
    just: &Just,
    thms: Vec<Thm>,
    basis: &Basis,
) -> Result<Vec<Thm>, AllocError>
    requires gives { IsSome (gives basis.now just.now (sequents thms.items)) }
    requires fits { AllByRecursion (FitsAt basis.now) just.now }
    requires over { AreOver basis.now thms.items }
    ensures gives { IfOk result (λ out. gives basis.now just.now (sequents thms.items) ≡ Some (sequents out.items)) }
    ensures over { IfOk result (λ out. AreOver basis.now out.items) }
{
    let mut cursor = Cursor::new(alloc, thms, basis)?;
    let moves = just.moves();
    let mut left = moves.len();
    'moves: while left > 0 {
        left -= 1;
        apply(alloc, &moves[left], &mut cursor)?;
    }
    cursor.finish()
}

// Applies a move.
fn apply(alloc: Global, one: &Move, thms: &mut Cursor) -> Result<(), AllocError>
    requires gives { IsSome (inferred_at one.now.place (inference thms.old.basis one.now.reason) (thms.old.before ++ thms.old.after)) }
    requires fits { Fits thms.old.basis one.now.reason }
    ensures basis { OnOk result (thms.new.basis ≡ thms.old.basis) }
    ensures inferred { OnOk result (inferred_at one.now.place (inference thms.old.basis one.now.reason) (thms.old.before ++ thms.old.after) ≡ Some (thms.new.before ++ thms.new.after)) }
{
    thms.go_to(one.place)?;
    infer(alloc, &one.reason, thms)
}
