//! Functions on goals that are stored, each with its name and its code.
ghost use Rattle.std.specs.Prelude.{◌≡◌, ℕ, ◌≤◌, IfOk};
ghost use Rattle.std.specs.Coded.{Π_prop};
ghost use Rattle.hol_goal.specs.ArgumentsView.{args_value};
ghost use Rattle.hol_just.specs.Answering.{AnswersCode, IsJustified};
ghost use Rattle.hol_registry.specs.Promise.{answers_prop, justified_prop};

use crate::named::Named;
use hol_goal::{Goal, Names, TacArgs, TacCode};
use hol_just::{TacFault, Tried};

type Tac = Box<dyn Fn(&TacArgs, &Goal, &Names, u32) -> Result<Tried, TacFault>>;

/// A function on goals, by its name: a closure that answers what its code means, with a justified step.
#[derive(Drop)]
pub struct Entry {
    name: String,
    code: TacCode,
    tac: Tac,
    ghost callable: { (args : _) (goal : _) (names : _) (turns : ℕ) → turns ≤ 100000 → Tac.pre tac args goal names turns },
    ghost answers: { (args : _) (goal : _) (names : _) (turns : ℕ) (result : _) → turns ≤ 100000 → Tac.post tac args goal names turns result → AnswersCode code (args_value args.now) goal.now names.now turns result } by { Π_prop (λ args. Π_prop (λ goal. Π_prop (λ names. Π_prop (λ turns. Π_prop (λ result. Π_prop (λ _. Π_prop (λ _. answers_prop code (args_value args.now) goal.now names.now turns result))))))) },
    ghost valid: { (args : _) (goal : _) (names : _) (turns : ℕ) (result : _) → turns ≤ 100000 → Tac.post tac args goal names turns result → IfOk result (λ tried. IsJustified (args_value args.now) goal.now tried.step) } by { Π_prop (λ args. Π_prop (λ goal. Π_prop (λ names. Π_prop (λ turns. Π_prop (λ result. Π_prop (λ _. Π_prop (λ _. justified_prop (args_value args.now) goal.now result))))))) },
}

impl Entry {
    ghost use Rattle.std.specs.Prelude.{string_bytes};
    ghost use Rattle.hol_registry.specs.RegistryView as view;

    /// Stores a function under a name. For all arguments, goals, names of constants and numbers of turns up to 100,000 it has to answer what the code means, with a justified step,
    /// or that memory is short.
    pub fn new(name: String, code: TacCode, tac: Tac) -> Entry
        requires callable { (args : _) (goal : _) (names : _) (turns : ℕ) → turns ≤ 100000 → Tac.pre tac args goal names turns }
        requires answers { (args : _) (goal : _) (names : _) (turns : ℕ) (result : _) → turns ≤ 100000 → Tac.post tac args goal names turns result → AnswersCode code (args_value args.now) goal.now names.now turns result }
        requires valid { (args : _) (goal : _) (names : _) (turns : ℕ) (result : _) → turns ≤ 100000 → Tac.post tac args goal names turns result → IfOk result (λ tried. IsJustified (args_value args.now) goal.now tried.step) }
        ensures { view.row result ≡ (string_bytes name, code) }
    {
        Entry { name, code, tac }
    }

    /// Calls the function.
    pub(crate) fn call(
        &self,
        args: &TacArgs,
        goal: &Goal,
        names: &Names,
        turns: u32,
    ) -> Result<Tried, TacFault>
        requires turns { turns ≤ 100000 }
        ensures answer { AnswersCode (view.row self.now).1 (args_value args.now) goal.now names.now turns result }
        ensures valid { IfOk result (λ tried. IsJustified (args_value args.now) goal.now tried.step) }
    {
        (self.tac)(args, goal, names, turns)
    }

    /// The code.
    pub(crate) fn code(&self) -> TacCode
        ensures { result ≡ (view.row self.now).1 }
    {
        self.code
    }

    /// The name.
    pub(crate) fn into_name(self) -> String
        ensures { string_bytes result ≡ view.name self }
    {
        let Entry { name, .. } = self;
        name
    }
}

impl Named for Entry {
    ghost use Rattle.hol_registry.specs.RegistryView as view;

    ghost name_of = { λ entry. view.name entry };

    fn name(&self) -> &str {
        self.name.as_str()
    }
}
