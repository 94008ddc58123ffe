//! The theories that stand.
ghost use Rattle.std.specs.Prelude.{◌≡◌, ◌≤◌, ◌<◌, [], IfOk, map, length, slice_index_or, slice_set, position, bytes_eq};
ghost use Rattle.std.specs.List.{insert, remove};
ghost use Rattle.hol_document.specs.RunnerView.{setup_of, ran_of, GoesOn};
ghost use Rattle.hol_document.specs.Affected.{RunsAffected, AddsTheory, DropsTheory};
ghost use Rattle.hol_document.specs.Documents.{Documents, find_theory, no_theory};
ghost use Rattle.hol_document.specs.Settled.{FitsAt, edited_text, edit_place};
ghost use Rattle.hol_document.specs.Slots.{IsStandingAt};

use crate::redo::{Edit, add_unless, edited, follow};
use crate::runner::Runner;
use crate::theory::Theory;
use hol_exec::{EarlierTheory, SetupTable, State};
use std::alloc::{AllocError, Global};
use std::marker::Model;
use std::rc::Rc;

/// The theories that stand, each with what running it came to, what they were run by, and how many outcomes are kept after they have left them.
#[derive(Drop)]
pub(crate) struct Theories {
    setup: Rc<SetupTable>,
    cache: u32,
    standing: Vec<Theory>,
}

impl Model for Theories {
    ghost use Rattle.std.specs.Prelude.{map, []};
    ghost use Rattle.hol_document.specs.Documents.{Documents};
    ghost use Rattle.hol_document.specs.Slots.{AreStanding, text_of};

    ghost Value = { Documents };

    ghost view = { λ t. record { theories = map text_of t.standing.items; setup = t.setup.value; cache = t.cache } };

    ghost invariant = { λ t. AreStanding t.setup.value [] t.standing.items };
}

impl Theories {
    /// None, to be run by this.
    pub(crate) fn new(alloc: Global, setup: Rc<SetupTable>, cache: u32) -> Theories
        ensures { result ≡ record { theories = []; setup = setup.value; cache = cache } }
    {
        Theories {
            setup,
            cache,
            standing: Vec::new(alloc),
        }
    }

    /// How many stand.
    pub(crate) fn len(&self) -> usize
        ensures { result ≡ length self.now.theories }
    {
        self.standing.len()
    }

    /// The theory at a place.
    pub(crate) fn at(&self, i: usize) -> &Theory
        requires { i < length self.now.theories }
        ensures { IsStandingAt self.now i result.now }
    {
        &self.standing[i]
    }

    /// How many commands stand in the theory at a place.
    pub(crate) fn count_at(&self, i: usize) -> usize
        requires { i < length self.now.theories }
        ensures { result ≡ length (slice_index_or self.now.theories i no_theory).commands }
    {
        self.standing[i].slots().len()
    }

    /// The place of the theory of the name.
    pub(crate) fn find(&self, name: &str) -> Option<usize>
        ensures { result ≡ find_theory name.now self.now.theories }
    {
        place_of(&self.standing, name)
    }

    /// With a theory without commands at a place.
    pub(crate) fn with_theory(
        &self,
        alloc: Global,
        runner: &mut Runner,
        name: &str,
        at: usize,
    ) -> Result<Theories, AllocError>
        requires setup { self.now.setup ≡ setup_of runner.old }
        requires at { at ≤ length self.now.theories }
        ensures theories { IfOk result (λ t. t.theories ≡ insert self.now.theories at (record { name = name.now; commands = [] })) }
        ensures same { IfOk result (λ t. t.setup ≡ self.now.setup) }
        ensures cache { IfOk result (λ t. t.cache ≡ self.now.cache) }
        ensures affected { IfOk result (λ t. RunsAffected self.now t (AddsTheory at) (ran_of runner.old) (ran_of runner.new)) }
        ensures goes { GoesOn runner.old runner.new }
    {
        let mut done = copies(alloc, &self.standing[..at])?;
        let name = Rc::new(alloc, String::from_str(alloc, name)?)?;
        let last = Rc::new(alloc, State::new(alloc))?;
        let theory = Theory::new(alloc, name.clone()?, Vec::new(alloc), last)?;
        done.push(theory)?;
        let mut names = Vec::new(alloc);
        names.push(name)?;
        follow(alloc, runner, &self.standing[at..], names, &mut done)?;
        Ok(Theories {
            setup: self.setup.clone()?,
            cache: self.cache,
            standing: done,
        })
    }

    /// Without the theory at a place.
    pub(crate) fn without_theory(
        &self,
        alloc: Global,
        runner: &mut Runner,
        i: usize,
    ) -> Result<Theories, AllocError>
        requires setup { self.now.setup ≡ setup_of runner.old }
        requires within { i < length self.now.theories }
        ensures theories { IfOk result (λ t. t.theories ≡ remove self.now.theories i) }
        ensures same { IfOk result (λ t. t.setup ≡ self.now.setup) }
        ensures cache { IfOk result (λ t. t.cache ≡ self.now.cache) }
        ensures affected { IfOk result (λ t. RunsAffected self.now t (DropsTheory i) (ran_of runner.old) (ran_of runner.new)) }
        ensures goes { GoesOn runner.old runner.new }
    {
        let mut done = copies(alloc, &self.standing[..i])?;
        let theory = &self.standing[i];
        let mut names = Vec::new(alloc);
        names.push(theory.shared_name().clone()?)?;
        follow(alloc, runner, &self.standing[i + 1..], names, &mut done)?;
        runner.leave_each(theory.slots());
        Ok(Theories {
            setup: self.setup.clone()?,
            cache: self.cache,
            standing: done,
        })
    }

    /// With an edit at a place of the theory at a place.
    pub(crate) fn with_edit(
        &self,
        alloc: Global,
        runner: &mut Runner,
        i: usize,
        at: usize,
        edit: &Edit,
    ) -> Result<Theories, AllocError>
        requires setup { self.now.setup ≡ setup_of runner.old }
        requires within { i < length self.now.theories }
        requires fits { FitsAt edit.now at (length (slice_index_or self.now.theories i no_theory).commands) }
        ensures theories { IfOk result (λ t. t.theories ≡ slice_set self.now.theories i (edited_text edit.now at (slice_index_or self.now.theories i no_theory))) }
        ensures same { IfOk result (λ t. t.setup ≡ self.now.setup) }
        ensures cache { IfOk result (λ t. t.cache ≡ self.now.cache) }
        ensures affected { IfOk result (λ t. RunsAffected self.now t (edit_place edit.now at i) (ran_of runner.old) (ran_of runner.new)) }
        ensures goes { GoesOn runner.old runner.new }
    {
        let mut done = copies(alloc, &self.standing[..i])?;
        let theory = &self.standing[i];
        let new = edited(alloc, runner, &done, theory, edit, at)?;
        let mut names = Vec::new(alloc);
        add_unless(&mut names, new.is_same, theory)?;
        done.push(new.theory)?;
        follow(alloc, runner, &self.standing[i + 1..], names, &mut done)?;
        Ok(Theories {
            setup: self.setup.clone()?,
            cache: self.cache,
            standing: done,
        })
    }
}

// The place of the theory of the name.
fn place_of(theories: &[Theory], name: &str) -> Option<usize>
    ensures { result ≡ position (λ theory. bytes_eq theory.name name.now) theories.now }
{
    theories.iter().position(|theory| theory.name() == name)
}

// The same theories.
fn copies(alloc: Global, theories: &[Theory]) -> Result<Vec<Theory>, AllocError>
    ensures { IfOk result (λ copied. copied.items ≡ theories.now) }
{
    let mut copied = Vec::with_capacity(alloc, theories.len() + 1)?;
    for theory in theories {
        copied.push(theory.copy()?)?;
    }
    Ok(copied)
}
