//! Copies of lists of goals.
ghost use Rattle.std.specs.Prelude.{◌≡◌, ◌++◌, IfOk, OnOk};

use crate::goal::Goal;
use std::alloc::{AllocError, Global};

/// Copies of the goals.
pub fn copies(alloc: Global, goals: &[Goal]) -> Result<Vec<Goal>, AllocError>
    ensures { IfOk result (λ copied. copied.items ≡ goals.now) }
{
    let mut copied = Vec::with_capacity(alloc, goals.len())?;
    add_copies(&mut copied, goals)?;
    Ok(copied)
}

/// Puts copies of the goals at the end.
pub fn add_copies(to: &mut Vec<Goal>, goals: &[Goal]) -> Result<(), AllocError>
    ensures { OnOk result (to.new.items ≡ to.old.items ++ goals.now) }
{
    for goal in goals {
        to.push(goal.copy()?)?;
    }
    Ok(())
}
