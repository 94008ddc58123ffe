//! Sizes of theorems.
ghost use Rattle.std.specs.Prelude.{◌≡◌, min};
ghost use Rattle.hol_resolve.specs.Forward.{sequent_size, small};
ghost use Rattle.hol_resolve.specs.Steps.{placed};

use crate::refusal::Refusal;
use hol_goal::total_size;
use hol_kernel::Thm;

// The most nodes that what a rule gives may have.
const LARGEST_THEOREM: u32 = 20_000;

// The size of all terms of the theorem, or 20,001 for more.
#[tactic(auto, using(crate::proofs::Measured::size_is))]
fn size_of(th: &Thm) -> u32
    ensures { result ≡ min (sequent_size th.now.sequent) 20001 }
{
    total_size(th.hyps(), th.concl())
}

/// The theorem, where it has no more than 20,000 nodes.
pub(crate) fn small(th: Thm) -> Result<Thm, Refusal>
    ensures { result ≡ placed th.basis (small th.sequent) }
{
    if size_of(&th) > LARGEST_THEOREM {
        return Err(Refusal::TooLarge);
    }
    Ok(th)
}
