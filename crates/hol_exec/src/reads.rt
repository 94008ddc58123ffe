//! What a command reads of a state.
ghost use Rattle.std.specs.Prelude.{◌≡◌, ◌↔◌, [], true, IsTrue, IfOk, map, option_copied};
ghost use Rattle.std.specs.List.{list_any};
ghost use Rattle.std.specs.Map.{keys_of};
ghost use Rattle.hol_theory.specs.Entry.{entry_at};
ghost use Rattle.hol_theory.specs.Key.{key_eq};
ghost use Rattle.hol_exec.specs.Standing.{first_taken, first_unknown};
ghost use Rattle.hol_notation_commands.specs.CommandView.{local_text};
ghost use Rattle.hol_exec.specs.SameReads.{same_reads};
ghost use Rattle.hol_exec.specs.Valid.{AreOfTheory};
ghost use Rattle.hol_exec.specs.ChangedKeys.{AreApart};
ghost use Rattle.hol_exec.specs.Keys.{cited_keys, made_keys, command_keys};
ghost use Rattle.hol_exec.specs.ReadsValue.{ReadsValue, AreKeyed, values_of, goal_for, closing_for, reads_of};

mod changed_keys;
mod closing;
mod command_keys;
mod keys;
mod listed_keys;
mod mark;
mod names;
mod same;
mod standing;

use crate::reads::same::same_options;
use crate::reads::standing::{is_standing, is_unknown};
use crate::state::State;
use crate::weight::values_weight;
pub use changed_keys::ChangedKeys;
pub(crate) use closing::Closing;
pub use command_keys::CommandKeys;
use hol_goal::Goal;
use hol_notation_commands::LocalCommand;
use hol_theory::{Key, Value};
use hol_types::NameFilter;
pub(crate) use keys::add_parts;
pub use mark::ReadsMark;
pub(crate) use same::{Same, same_each};
use std::alloc::{AllocError, Global};
use std::marker::Model;

/// What a command reads of a state: with the command it determines the outcome.
#[derive(Drop)]
pub struct Reads {
    cited: Vec<(Key, Option<Value>)>,
    made: Vec<(Key, Option<Value>)>,
    names: NameFilter,
    in_proof: bool,
    goal: Option<Goal>,
    closing: Option<Closing>,
}

impl Model for Reads {
    ghost use Rattle.std.specs.Map.{keys_of};
    ghost use Rattle.hol_exec.specs.ReadsValue.{ReadsValue};
    ghost use Rattle.hol_exec.specs.Codes.{coded_reads};
    ghost use Rattle.hol_exec.specs.Filters.{HasNames};
    ghost use Rattle.hol_exec.specs.Valid.{AreOfTheory};

    ghost Value = { ReadsValue };

    ghost coded = { coded_reads };

    ghost view = { λ r. record { cited = r.cited.items; made = r.made.items; in_proof = r.in_proof; goal = r.goal; closing = r.closing } };

    ghost invariant = { λ r. AreOfTheory r.cited.items r.made.items × HasNames r.names.bits (keys_of r.cited.items) × HasNames r.names.bits (keys_of r.made.items) };
}

impl Reads {
    /// What the command of these keys reads of the state.
    #[tactic(auto, using(crate::proofs::CitedBases::reads_stand, crate::proofs::CitedBases::names_stand))]
    pub fn of(
        alloc: Global,
        command: &LocalCommand,
        keys: &CommandKeys,
        state: &State,
    ) -> Result<Reads, AllocError>
        requires { keys.now ≡ command_keys (local_text command.now) }
        ensures reads { IfOk result (λ r. r ≡ reads_of (local_text command.now) state.now) }
        ensures keys { IfOk result (AreKeyed (local_text command.now)) }
    {
        state.promise();
        let cited = values_of(alloc, keys.cited(), state)?;
        let made = values_of(alloc, keys.made(), state)?;
        let in_proof = state.proof().is_some();
        let goal = goal_for(command, state)?;
        let closing = closing_for(alloc, command, state)?;
        Ok(Reads {
            cited,
            made,
            names: keys.names(),
            in_proof,
            goal,
            closing,
        })
    }

    /// Whether they are what the command reads of the state. It takes no memory.
    pub fn agree(&self, command: &LocalCommand, state: &State) -> bool
        requires { AreKeyed (local_text command.now) self.now }
        ensures { result ≡ same_reads self.now (reads_of (local_text command.now) state.now) }
    {
        self.has_parts_at(command, state)
    }

    // Whether the parts are what the command reads of the state, one by one.
    fn has_parts_at(&self, command: &LocalCommand, state: &State) -> bool
        requires { AreKeyed (local_text command.now) self.now }
        ensures { IsTrue result ↔ (self.now ≡ reads_of (local_text command.now) state.now) }
    {
        self.has_cited_at(command, state)
            && self.has_made_at(command, state)
            && self.in_proof == state.proof().is_some()
            && is_goal_for(&self.goal, command, state)
            && is_closing_for(&self.closing, command, state)
    }

    // Whether what the command cites stands in the state.
    #[tactic(auto, using(crate::proofs::Agreeing::agree_keyed))]
    fn has_cited_at(&self, command: &LocalCommand, state: &State) -> bool
        requires { AreKeyed (local_text command.now) self.now }
        ensures { IsTrue result ↔ (self.now.cited ≡ values_of state.now.entries (cited_keys (local_text command.now))) }
    {
        let _ = command;
        stand_in(&self.cited, state)
    }

    // Whether what stands under the keys that the command makes is so in the state.
    #[tactic(auto, using(crate::proofs::Agreeing::agree_keyed))]
    fn has_made_at(&self, command: &LocalCommand, state: &State) -> bool
        requires { AreKeyed (local_text command.now) self.now }
        ensures { IsTrue result ↔ (self.now.made ≡ values_of state.now.entries (made_keys (local_text command.now))) }
    {
        let _ = command;
        stand_in(&self.made, state)
    }

    /// Whether no key that the command cites or makes is a changed one. It takes no memory.
    pub fn is_apart(&self, changes: &ChangedKeys) -> bool
        ensures { result ≡ true → AreApart changes.now (keys_of self.now.cited) × AreApart changes.now (keys_of self.now.made) }
    {
        if !changes.may_meet(self.names) {
            return true;
        }
        are_apart(&self.cited, changes) && are_apart(&self.made, changes)
    }

    /// What tells it from most others at once.
    pub fn mark(&self) -> ReadsMark {
        ReadsMark::of(
            self.in_proof,
            &self.cited,
            &self.made,
            self.goal(),
            self.closing(),
        )
    }

    /// How much it holds, in nodes of terms, up to 2^32 - 1. What it shares counts too.
    pub fn weight(&self) -> u32 {
        let goal = match &self.goal {
            Some(goal) => goal.size(),
            None => 0,
        };
        let closing = match &self.closing {
            Some(closing) => closing.weight(),
            None => 0,
        };
        values_weight(&self.cited)
            .saturating_add(values_weight(&self.made))
            .saturating_add(goal)
            .saturating_add(closing)
    }

    /// With what it cites and makes, it is of some theory.
    pub(crate) fn promise(&self)
        ensures { AreOfTheory self.now.cited self.now.made }
    {
        let _ = &self.cited;
    }

    /// The values of the keys that the command cites: with those that it makes they are what stands in some theory.
    pub(crate) fn cited(&self) -> &[(Key, Option<Value>)]
        ensures value { result.now ≡ self.now.cited }
        ensures theory { AreOfTheory self.now.cited self.now.made }
    {
        self.cited.as_slice()
    }

    /// The name of the first theorem that is cited and unknown.
    pub(crate) fn first_unknown(&self) -> Option<&str>
        ensures { option_copied result ≡ first_unknown self.now.cited }
    {
        for value in &self.cited {
            if is_unknown(value.0.kind(), is_standing(&value.0, &value.1)) {
                return Some(value.0.name());
            }
        }
        None
    }

    /// The first key that the command makes under which something stands, or which it makes twice.
    pub(crate) fn first_taken(&self) -> Option<&Key>
        ensures key { option_copied result ≡ first_taken [] self.now.made }
        ensures theory { AreOfTheory self.now.cited self.now.made }
    {
        first_taken(&self.made)
    }

    /// Whether a proof is open.
    pub(crate) fn in_proof(&self) -> bool
        ensures { result ≡ self.now.in_proof }
    {
        self.in_proof
    }

    /// The first open goal, for a command that runs a TAC.
    pub(crate) fn goal(&self) -> Option<&Goal>
        ensures { option_copied result ≡ self.now.goal }
    {
        self.goal.as_ref()
    }

    /// What the end of the proof reads of it.
    pub(crate) fn closing(&self) -> Option<&Closing>
        ensures { option_copied result ≡ self.now.closing }
    {
        self.closing.as_ref()
    }

    /// Whether both are the same: terms with their base names, and theorems with their bases.
    pub fn same(&self, other: &Reads) -> bool
        ensures equal { IsTrue result ↔ (self.now ≡ other.now) }
        ensures test { result ≡ same_reads self.now other.now }
    {
        self.has_same_parts(other)
    }

    // Whether the parts are the same, one by one.
    fn has_same_parts(&self, other: &Reads) -> bool
        ensures { IsTrue result ↔ (self.now ≡ other.now) }
    {
        same_each(&self.cited, &other.cited)
            && same_each(&self.made, &other.made)
            && self.in_proof == other.in_proof
            && same_options(&self.goal, &other.goal)
            && same_options(&self.closing, &other.closing)
    }
}

// The first of the keys under which something stands, or which is met again.
fn first_taken(values: &[(Key, Option<Value>)]) -> Option<&Key>
    ensures { option_copied result ≡ first_taken [] values.now }
{
    for (i, value) in values.iter().enumerate() {
        if is_standing(&value.0, &value.1) || has_key(&values[..i], &value.0) {
            return Some(&value.0);
        }
    }
    None
}

// Whether the key is one of those of the values.
fn has_key(values: &[(Key, Option<Value>)], key: &Key) -> bool
    ensures { result ≡ list_any (key_eq key.now) (map (λ value. value.0) values.now) }
{
    for value in values {
        if *key == value.0 {
            return true;
        }
    }
    false
}

// The keys, each with what stands under it, if anything does.
fn values_of(
    alloc: Global,
    keys: &[Key],
    state: &State,
) -> Result<Vec<(Key, Option<Value>)>, AllocError>
    ensures { IfOk result (λ values. values.items ≡ values_of state.now.entries keys.now) }
{
    let mut values = Vec::with_capacity(alloc, keys.len())?;
    for key in keys {
        values.push(value_of(key, state)?)?;
    }
    Ok(values)
}

fn value_of(key: &Key, state: &State) -> Result<(Key, Option<Value>), AllocError>
    ensures { IfOk result (λ value. value ≡ (key.now, entry_at key.now state.now.entries)) }
{
    let entry = match state.entry(key) {
        Some(entry) => Some(entry.copy()?),
        None => None,
    };
    Ok((key.copy()?, entry))
}

// Whether the values are what stands under their keys.
#[tactic(auto, using(crate::proofs::Agreeing::agree_step, crate::proofs::Agreeing::agree_fails, crate::proofs::Agreeing::agree_ends))]
fn stand_in(values: &[(Key, Option<Value>)], state: &State) -> bool
    ensures { IsTrue result ↔ (values.now ≡ values_of state.now.entries (keys_of values.now)) }
{
    for value in values {
        if !stands_in(&value.0, &value.1, state) {
            return false;
        }
    }
    true
}

// Whether the value is what stands under the key.
fn stands_in(key: &Key, value: &Option<Value>, state: &State) -> bool
    ensures { IsTrue result ↔ (value.now ≡ entry_at key.now state.now.entries) }
{
    match (value, state.entry(key)) {
        (None, None) => true,
        (Some(value), Some(entry)) => value.same(entry),
        (None, Some(_)) | (Some(_), None) => false,
    }
}

// Whether the keys of the values are none of the changed ones.
#[tactic(auto, using(crate::proofs::Agreeing::apart_step, crate::proofs::Agreeing::apart_ends))]
fn are_apart(values: &[(Key, Option<Value>)], changes: &ChangedKeys) -> bool
    ensures { result ≡ true → AreApart changes.now (keys_of values.now) }
{
    for value in values {
        if changes.has(&value.0) {
            return false;
        }
    }
    true
}

fn goal_for(command: &LocalCommand, state: &State) -> Result<Option<Goal>, AllocError>
    ensures { IfOk result (λ goal. goal ≡ goal_for (local_text command.now) state.now.proof) }
{
    match command {
        LocalCommand::Apply(_) => match state.goals() {
            [first, ..] => Ok(Some(first.copy()?)),
            [] => Ok(None),
        },
        LocalCommand::Goal {
            name: _,
            quotation: _,
        }
        | LocalCommand::Qed
        | LocalCommand::DefineTac { name: _, tactic: _ }
        | LocalCommand::Make(_) => Ok(None),
    }
}

fn closing_for(
    alloc: Global,
    command: &LocalCommand,
    state: &State,
) -> Result<Option<Closing>, AllocError>
    ensures { IfOk result (λ closing. closing ≡ closing_for (local_text command.now) state.now.proof) }
{
    match command {
        LocalCommand::Qed => match state.proof() {
            Some(proof) => Ok(Some(Closing::of(alloc, proof)?)),
            None => Ok(None),
        },
        LocalCommand::Goal {
            name: _,
            quotation: _,
        }
        | LocalCommand::Apply(_)
        | LocalCommand::DefineTac { name: _, tactic: _ }
        | LocalCommand::Make(_) => Ok(None),
    }
}

// Whether it is the goal that the command reads.
fn is_goal_for(goal: &Option<Goal>, command: &LocalCommand, state: &State) -> bool
    ensures { IsTrue result ↔ (goal.now ≡ goal_for (local_text command.now) state.now.proof) }
{
    match command {
        LocalCommand::Apply(_) => match (goal, state.goals()) {
            (Some(goal), [first, ..]) => goal.same_as(first),
            (None, []) => true,
            (Some(_), []) | (None, [_, ..]) => false,
        },
        LocalCommand::Goal {
            name: _,
            quotation: _,
        }
        | LocalCommand::Qed
        | LocalCommand::DefineTac { name: _, tactic: _ }
        | LocalCommand::Make(_) => goal.is_none(),
    }
}

// Whether it is what the command reads of the end of the proof.
fn is_closing_for(closing: &Option<Closing>, command: &LocalCommand, state: &State) -> bool
    ensures { IsTrue result ↔ (closing.now ≡ closing_for (local_text command.now) state.now.proof) }
{
    match command {
        LocalCommand::Qed => match (closing, state.proof()) {
            (Some(closing), Some(proof)) => closing.is_of(proof),
            (None, None) => true,
            (Some(_), None) | (None, Some(_)) => false,
        },
        LocalCommand::Goal {
            name: _,
            quotation: _,
        }
        | LocalCommand::Apply(_)
        | LocalCommand::DefineTac { name: _, tactic: _ }
        | LocalCommand::Make(_) => closing.is_none(),
    }
}
