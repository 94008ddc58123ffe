//! A goal as it is shown.
ghost use Rattle.std.specs.Prelude.{◌≡◌, IfOk, map, string_bytes};

use std::alloc::{AllocError, Global};

/// A goal as it is shown.
#[derive(Drop)]
pub struct ShownGoal {
    /// The assumptions, in their order.
    pub asl: Vec<String>,
    /// The free variables as `name:type`, each once, by the bytes of the names, then of the types.
    pub free: Vec<String>,
    /// The conclusion.
    pub goal: String,
}

impl ShownGoal {
    ghost use Rattle.hol_print.specs.ShowGoal.{goal_text};

    /// The same texts.
    pub fn copy(&self, alloc: Global) -> Result<ShownGoal, AllocError>
        ensures { IfOk result (λ copy. goal_text copy ≡ goal_text self.now) }
    {
        Ok(ShownGoal {
            asl: copies(alloc, &self.asl)?,
            free: copies(alloc, &self.free)?,
            goal: String::from_str(alloc, self.goal.as_str())?,
        })
    }
}

fn copies(alloc: Global, texts: &[String]) -> Result<Vec<String>, AllocError>
    ensures { IfOk result (λ copies. map string_bytes copies.items ≡ map string_bytes texts.now) }
{
    let mut copies = Vec::with_capacity(alloc, texts.len())?;
    for text in texts {
        copies.push(String::from_str(alloc, text.as_str())?)?;
    }
    Ok(copies)
}
