//! The functions on goals that the program knows.
ghost use Rattle.std.specs.Prelude.{◌≡◌, IfOk};
ghost use Rattle.hol_goal.specs.ArgumentsView.{args_value};
ghost use Rattle.hol_just.specs.Answering.{AnswersCode, IsJustified};

use hol_goal::{Goal, Names, TacArgs, TacCode};
use hol_just::{TacFault, Tried};
use hol_prelude::Prelude;
use hol_tac::tac;
use std::alloc::{AllocError, Global};
use std::rc::Rc;

/// A code, and the prelude, from which its function may take the basic rewrites.
#[derive(Drop)]
pub(crate) struct CodedTac {
    code: TacCode,
    prelude: Rc<Prelude>,
}

impl CodedTac {
    /// The code, over the prelude.
    pub(crate) fn new(code: TacCode, prelude: &Rc<Prelude>) -> Result<CodedTac, AllocError>
        ensures { IfOk result (λ coded. coded.code ≡ code) }
    {
        Ok(CodedTac {
            code,
            prelude: prelude.clone()?,
        })
    }

    /// What the code's function answers.
    pub(crate) fn answer(
        &self,
        alloc: Global,
        args: &TacArgs,
        goal: &Goal,
        names: &Names,
        turns: u32,
    ) -> Result<Tried, TacFault>
        ensures answer { AnswersCode self.now.code (args_value args.now) goal.now names.now turns result }
        ensures valid { IfOk result (λ tried. IsJustified (args_value args.now) goal.now tried.step) }
    {
        tac(alloc, &self.prelude, self.code, args, goal, names, turns)
    }
}
