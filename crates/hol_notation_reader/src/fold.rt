//! From the steps of what was read to what it says.
ghost use Rattle.std.specs.Prelude.{◌≡◌, [], IfOk};
ghost use Rattle.hol_notation_grammar.specs.Step.{step_texts};
ghost use Rattle.hol_notation_reader.specs.Fold.{evaluate, Fit};
ghost use Rattle.hol_notation_reader.specs.View.{pieces_of};

use crate::build::reduce;
use crate::piece::{Piece, push};
use hol_notation_grammar::Step;
use std::alloc::{AllocError, Global};

/// What the steps build, gone through from the last to the first: each production replaces its parts by what it builds.
pub(crate) fn evaluate<'t>(
    alloc: Global,
    steps: Vec<Step<'t>>,
) -> Result<Vec<Piece<'t>>, AllocError>
    requires { Fit (step_texts steps.items) [] }
    ensures { IfOk result (λ pieces. pieces_of pieces.items ≡ evaluate (step_texts steps.entry.items) []) }
{
    let mut left = steps;
    let mut pieces = Vec::new(alloc);
    while let Some(step) = left.pop() {
        match step {
            Step::Take(_class, word) => push(&mut pieces, Piece::Word(word))?,
            Step::Choose(production) => reduce(alloc, production, &mut pieces)?,
        }
    }
    Ok(pieces)
}
