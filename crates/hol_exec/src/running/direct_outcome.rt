//! What is answered directly.
ghost use Rattle.std.specs.Prelude.{◌≡◌, IfOk, MatchOption, None, Some, map};
ghost use Rattle.hol_exec.specs.StateValue.{EndedTheory, AreTheories};
ghost use Rattle.hol_notation_commands.specs.CommandView.{direct_text};
ghost use Rattle.hol_exec.specs.At.{direct, undoes, rotates, drops, imports, imports_from, entries_named};
ghost use Rattle.hol_theory.specs.Adding.{first_clash};

use crate::reports::RefusalKind;
use crate::running::outcome::Outcome;
use crate::running::refused::refused;
use crate::state::State;
use hol_notation_commands::DirectCommand;
use std::alloc::{AllocError, Global};

/// A theory that stands earlier: its name, and its last state.
pub trait EarlierTheory {
    /// The name, and the entries of the last state.
    ghost ended: { Self → EndedTheory };

    /// Its name.
    fn name(&self) -> &str
        ensures { result.now ≡ (ended self.now).name };

    /// Its last state.
    fn state(&self) -> &State
        ensures { result.now.entries ≡ (ended self.now).entries };
}

/// What the theories that stand earlier promise: each is a theory.
pub fn promise_each<T: EarlierTheory>(earlier: &[T])
    ensures { AreTheories (map T.ended earlier.now) }
{
    for theory in earlier {
        theory.state().promise();
    }
}

/// The outcome of what is answered directly, from the state and from the theories that stand earlier.
pub fn direct<T: EarlierTheory>(
    alloc: Global,
    command: &DirectCommand,
    state: &State,
    earlier: &[T],
) -> Result<Outcome, AllocError>
    ensures { IfOk result (λ outcome. outcome ≡ direct (direct_text command.now) state.now (map T.ended earlier.now)) }
{
    match command {
        DirectCommand::Back => Ok(undoes(alloc, state)),
        DirectCommand::Rotate(times) => Ok(rotates(alloc, state, *times)),
        DirectCommand::Oops => Ok(drops(alloc, state)),
        DirectCommand::Import(name) => imports(alloc, name.as_str(), state, earlier),
    }
}

// `b`: no proof open; nothing to undo.
#[tactic(auto, using(crate::proofs::Histories::nothing_undone, crate::proofs::Histories::step_undone))]
fn undoes(alloc: Global, state: &State) -> Outcome
    ensures { result ≡ undoes state.now.proof }
{
    let Some(proof) = state.proof() else {
        return refused(alloc, RefusalKind::NoProofOpen);
    };
    if proof.steps() == 0 {
        return refused(alloc, RefusalKind::NothingToUndo);
    }
    Outcome::undoes()
}

// `r`: no proof open; no goal open.
fn rotates(alloc: Global, state: &State, times: usize) -> Outcome
    ensures { result ≡ rotates times state.now.proof }
{
    let Some(proof) = state.proof() else {
        return refused(alloc, RefusalKind::NoProofOpen);
    };
    match proof.goals() {
        [] => refused(alloc, RefusalKind::NoGoalOpen),
        [_, ..] => Outcome::rotates(times),
    }
}

// `oops`: no proof open.
#[tactic(auto, using(crate::proofs::Free::none_distinct))]
fn drops(alloc: Global, state: &State) -> Outcome
    ensures { result ≡ drops state.now.proof }
{
    match state.proof() {
        Some(_) => Outcome::makes(Vec::new(alloc)),
        None => refused(alloc, RefusalKind::NoProofOpen),
    }
}

// `import`: in a proof; unknown theory; import clash.
fn imports<T: EarlierTheory>(
    alloc: Global,
    name: &str,
    state: &State,
    earlier: &[T],
) -> Result<Outcome, AllocError>
    ensures { IfOk result (λ outcome. outcome ≡ imports name.now state.now (map T.ended earlier.now)) }
{
    if state.proof().is_some() {
        return Ok(refused(alloc, RefusalKind::InProof));
    }
    match theory_named(earlier, name) {
        Some(theory) => imports_from(alloc, state, theory),
        None => {
            let name = String::from_str(alloc, name)?;
            Ok(Outcome::refuses(RefusalKind::UnknownTheory, name))
        }
    }
}

// The last state of the earlier theory of that name.
fn theory_named<'a, T: EarlierTheory>(earlier: &'a [T], name: &str) -> Option<&'a State>
    ensures { MatchOption result (entries_named name.now (map T.ended earlier.now) ≡ None) (λ state. entries_named name.now (map T.ended earlier.now) ≡ Some state.now.entries) }
{
    for theory in earlier {
        if theory.name() == name {
            return Some(theory.state());
        }
    }
    None
}

// An import of the entries of a theory's last state.
#[tactic(auto, using(crate::proofs::Entries::missing_made, crate::proofs::Free::missing_distinct, crate::proofs::NewEntries::imported_whole))]
fn imports_from(alloc: Global, state: &State, theory: &State) -> Result<Outcome, AllocError>
    ensures { IfOk result (λ outcome. outcome ≡ imports_from state.now.entries theory.now.entries (first_clash state.now.entries theory.now.entries)) }
{
    if state.env().len() == 0 {
        return Ok(Outcome::makes_shared(theory.env().checkpoint()?));
    }
    theory.promise();
    if let Some(key) = state.env().first_clash(theory.env()) {
        return Ok(Outcome::refuses(RefusalKind::ImportClash, key.text(alloc)?));
    }
    Ok(Outcome::makes(state.env().missing(theory.env())?))
}
