//! The texts of a goal.
ghost use Rattle.std.specs.Prelude.{◌≡◌, [], IfOk, map, string_bytes};
ghost use Rattle.hol_terms.specs.Nameless.{nameless};
ghost use Rattle.hol_print.specs.ShowGoal.{variable_text, show_goal, goal_text};

use crate::shown_before::ShownBefore;
use crate::shown_goal::ShownGoal;
use crate::type_text::write_type;
use hol_terms::{Term, Variable};
use std::alloc::{AllocError, Global};

/// The goal as it is shown, of the assumptions and the conclusion: a function of their nameless terms. What was shown before and comes
/// again is not written again. Texts for which no room is left in the reply find no memory.
pub fn show_goal<'a>(
    alloc: Global,
    asl: &'a [Term],
    concl: &'a Term,
    before: &mut ShownBefore<'a>,
) -> Result<ShownGoal, AllocError>
    ensures { IfOk result (λ shown. goal_text shown ≡ show_goal (map (nameless []) asl.now) (nameless [] concl.now)) }
{
    let assumptions = before.assumption_texts(alloc, asl)?;
    let variables = before.goal_variables(alloc, asl, concl)?;
    let free = variable_texts(alloc, &variables, before)?;
    let goal = before.conclusion_text(alloc, concl)?;
    Ok(ShownGoal {
        asl: assumptions,
        free,
        goal,
    })
}

fn variable_texts(
    alloc: Global,
    variables: &[Variable],
    before: &mut ShownBefore,
) -> Result<Vec<String>, AllocError>
    ensures { IfOk result (λ texts. map string_bytes texts.items ≡ map variable_text variables.now) }
{
    let mut texts = Vec::with_capacity(alloc, variables.len())?;
    for v in variables {
        let text = variable_text(alloc, v)?;
        before.take(text.as_str())?;
        texts.push(text)?;
    }
    Ok(texts)
}

fn variable_text(alloc: Global, v: &Variable) -> Result<String, AllocError>
    ensures { IfOk result (λ text. string_bytes text ≡ variable_text v.now) }
{
    let mut text = String::from_str(alloc, v.name().as_str())?;
    text.push_str(":")?;
    write_type(v.ty(), &mut text)?;
    Ok(text)
}
